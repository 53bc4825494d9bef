//! What the client keeps of a fetch: its entry in the cache, and its reply for the caller.
use command_words::Query;
use resp_value::Value;

/// What is held of a query.
#[derive(Drop)]
pub struct CacheEntry {
    pub query: Query,
    pub value: Value,
    /// The number of the fetch that filled it.
    pub number: u64,
}

/// The reply to a command, on its way to the caller.
#[derive(Drop)]
pub enum PendingReply {
    Waiting,
    There(Value),
    Gone,
}
