//! The commands on hashes, a function each.
#![tactic(auto)]

mod change;
mod numbers;
mod reads;
mod run;
mod writes;

pub use numbers::{FieldChange, add_field};
pub use run::{is_hash, run_hash};
pub use writes::take_fields;
