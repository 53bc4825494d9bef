//! Sets of connections, by their ids.
#![tactic(auto)]

mod set;

pub use set::IdSet;
