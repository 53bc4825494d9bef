//! What a connection's own commands make of it: its protocol, its subscription, how it tracks.
#![tactic(auto)]

mod check;
mod fault;
mod laws;
mod mode;
mod peer;
mod prefixes;
mod tracking;

pub use fault::ModeFault;
pub use laws::law_caching_is_for_one_command;
pub use mode::{INVALIDATION_CHANNEL, Mode};
pub use peer::Peer;
pub use prefixes::Prefixes;
pub use tracking::{Settings, TrackMode, Tracking};
