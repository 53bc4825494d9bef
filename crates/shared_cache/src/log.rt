//! What a client is asked, what it answers, and the entries of its log.
use command_words::Query;
use resp_value::{Octets, Proto, Value, Words};

/// One of a client's two links.
#[derive(Clone, Copy, Debug, PartialEq, Eq)]
pub enum Wire {
    /// It carries commands, and invalidations where there is no other link.
    Main,
    /// The invalidation link of a pair.
    Side,
}

/// Whether a client has an invalidation link of its own.
#[derive(Clone, Copy, Debug, PartialEq, Eq)]
pub enum Shape {
    Single,
    Pair,
}

/// How the server is asked to track (the page of CLIENT TRACKING).
#[derive(Debug, Drop)]
pub enum Caching {
    Default,
    OptIn,
    OptOut,
    /// By prefixes; by every key where there is none.
    Bcast(Words),
}

/// What a client sets up by its handshake.
#[derive(Debug, Drop)]
pub struct ClientMode {
    pub shape: Shape,
    pub proto: Proto,
    pub caching: Caching,
    pub noloop: bool,
}

/// One call of a client.
#[derive(Drop)]
pub enum ClientCall {
    /// A query, answered from the cache where it is held.
    Ask(Query),
    /// Any other command.
    Send(Words),
    /// For the reply to the command of that number.
    Poll(u64),
    /// For bytes to be written on that link, at most so many.
    TakeOut(Wire, u64),
    /// A value that was read on that link.
    Got(Wire, Value),
    /// That link has ended.
    End(Wire),
}

/// What a client answers.
#[derive(Drop)]
pub enum ClientReply {
    /// From the cache, with the number of the fetch that filled it.
    Hit { value: Value, number: u64 },
    Sent { number: u64 },
    NotYet,
    Answer { value: Value },
    Bytes(Octets),
    Quiet,
    Noted,
    Refused(ClientRefusal),
}

/// Why a client did not do what it was asked.
#[derive(Clone, Copy, Debug, PartialEq, Eq)]
pub enum ClientRefusal {
    /// The link has ended.
    Down { wire: Wire },
    /// A reply to nothing. It ends the link.
    Unexpected { wire: Wire },
    /// A malformed invalidation. It ends the link.
    BadPush { wire: Wire },
    NoMemory,
    LogFull { entries: u64 },
    /// The handshake was answered otherwise. It ends the link.
    SetupRefused { wire: Wire },
    /// The handshake is not answered yet.
    NotReady,
    /// The command would change how the server serves this client.
    Control,
    /// No such number is waiting for its caller.
    NoNumber { number: u64 },
    /// The lock around the client is worn out.
    Worn,
}

/// An entry of a client's log.
#[derive(Drop)]
pub enum LogEntry {
    Ask(Query),
    Send(Words),
    Poll(u64),
    TakeOut(Wire, u64),
    Got(Wire, Value),
    End(Wire),
    /// A value that ended its link.
    Bad(Wire, Value),
}
