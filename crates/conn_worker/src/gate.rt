//! Who is told of a connection's requests as they run, and of its end.
use super::report::Ended;
use resp_value::Words;

/// Is told of each request before it runs, and once its reply was written, and of the end of each
/// connection. It has no part in the answers; a test may hold a request by it.
pub trait Gate {
    /// The connection's next request runs once this returned for it and for each that was read
    /// with it.
    fn before(&self, id: u64, words: &Words);

    /// The replies to the connection's first so many requests were written.
    fn after(&self, id: u64, requests: u64);

    /// The connection is served no longer. Its id is 0 where it was not admitted.
    fn ended(&self, _id: u64, _ended: Ended) {}
}

/// A gate that lets every request through.
#[derive(Clone, Copy, Debug, Drop)]
pub struct OpenGate;

impl Gate for OpenGate {
    fn before(&self, _id: u64, _words: &Words) {}

    fn after(&self, _id: u64, _requests: u64) {}
}
