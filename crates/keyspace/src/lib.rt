//! The keyspace: a finite map from keys to strings and hashes, each with an optional deadline.
#![tactic(auto)]

mod copies;
mod field_table;
mod fields;
mod placed;
mod space;

pub use fields::Fields;
pub use placed::Placed;
pub use space::{Content, Held, Keyspace};
