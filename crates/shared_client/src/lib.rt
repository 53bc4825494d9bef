//! The client's state under the turn lock, and the turns of its callers and of its link.
#![tactic(auto)]

mod logged;
mod turns;

pub use logged::{ClientSetup, SharedClient, open};
pub use turns::{Asked, MOST, ask, end, got, poll, send, take_out};
