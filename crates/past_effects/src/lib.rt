//! The messages that were sent to a connection, found by a scan of past effects.
#![tactic(auto)]

mod connection;
mod connections;
mod own;
mod posts;
mod scan;
mod sendings;

pub use posts::sent_slow;
