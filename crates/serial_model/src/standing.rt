//! How far a connection has ended.

/// What a connection has left of its life. It has not ended while it is `Live`.
#[derive(Clone, Copy, Debug, PartialEq, Eq)]
pub enum Standing {
    Live,
    /// It quit. What it was sent before can still be taken.
    Quit,
    /// It quit and was closed. Nothing is left to take.
    QuitClosed,
    /// It was closed, or the server ended it.
    Gone,
}
