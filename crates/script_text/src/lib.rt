//! Schedules, scripts and transcripts as text: the event that a line of a schedule names and the
//! line of an event, what a line of a script asks, and the lines that are printed; and the schedule
//! that is drawn from a number.
#![tactic(auto)]

mod answer_line;
mod client_line;
mod event;
mod event_line;
mod generator;
mod laws;
mod line;
mod script_line;
mod storm;
mod words;

pub use answer_line::{ScriptAnswer, put_script_answer};
pub use event::{Event, LONGEST_LINE, read_event};
pub use event_line::put_event;
pub use laws::{
    law_events_are_valid, law_events_come_back, law_lines_come_back, law_script_lines_are_valid,
    law_script_lines_come_back, law_steps_begin_once, law_storms_are_valid, law_storms_grow,
    law_words_come_back,
};
pub use line::{Line, Lines, put_line};
pub use script_line::{MOST_THREADS, ScriptCall, ScriptLine, read_script_line};
pub use storm::Storm;
