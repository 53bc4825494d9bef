//! Marks of fetches in flight: a reply may fill the cache only while its fetch is marked.
#![tactic(auto)]

mod key_numbers;
mod mark_list;
mod mark_table;
mod marks;
mod numbered;

pub use marks::{Mark, Marks};
