//! What the sender of a message to a connection must know of it.
use resp_value::Proto;

/// The protocol that a connection speaks, and whether it is subscribed to the channel of
/// invalidations.
#[derive(Clone, Copy, Debug, PartialEq, Eq)]
pub struct Peer {
    pub proto: Proto,
    pub subscribed: bool,
}
