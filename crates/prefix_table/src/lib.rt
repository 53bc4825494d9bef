//! Which connections are told of the keys that start with which prefixes.
#![tactic(auto)]

mod table;

pub use table::PrefixTable;
