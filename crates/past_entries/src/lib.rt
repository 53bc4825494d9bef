//! A list of entries that only proofs read: a history or a log, whole, in no memory.
#![tactic(auto)]

mod past;

pub use past::Past;
