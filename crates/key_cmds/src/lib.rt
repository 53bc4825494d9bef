//! The commands on keys of any type, a function each.
#![tactic(auto)]

mod deadlines;
mod listed;
mod reads;
mod run;
mod writes;

pub use deadlines::{expiry_after, expiry_at};
pub use run::{is_key, run_key};
