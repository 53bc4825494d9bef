//! The commands on strings, a function each.
#![tactic(auto)]

mod keys;
mod numbers;
mod reads;
mod run;
mod writes;

pub use numbers::{add_number, take_number};
pub use run::{is_string, run_string};
pub use writes::{moment_after, set_text, take_text};
