//! Where an invalidation can go.

/// What is sent, and the id of the connection that it is sent to.
#[derive(Clone, Copy, Debug, PartialEq, Eq)]
pub enum Route {
    /// A push.
    Push(u64),
    /// A message of the channel of invalidations.
    Message(u64),
    /// The notice that the connection which messages are redirected to has ended.
    BrokenNotice(u64),
    /// Nothing.
    Nowhere,
}
