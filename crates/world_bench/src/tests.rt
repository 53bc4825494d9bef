//! Tests of the text of schedules. What a world prints for one, the program shows.
mod text;
