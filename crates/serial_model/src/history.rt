//! The entries of a history, the calls that make them and the answers to these calls.
use resp_value::{Octets, Words};

/// The limits of a server. Each is at least 1 (`are_valid`).
#[derive(Clone, Copy, Debug, PartialEq, Eq)]
pub struct Limits {
    /// How many keys the tracking table remembers.
    pub table_max: u64,
    /// How many bytes a connection may leave untaken; one that leaves more is dropped.
    pub out_max: u64,
    /// At how many entries since the last fold the book folds: it then lets all of them go.
    pub history_max: u64,
}

/// One entry of the server's history. Entries are numbered from 1, and so are connections.
#[derive(Debug, Drop)]
pub enum Entry {
    /// A connection was admitted.
    Admit { id: u64 },
    /// A connection's request ran, at a moment in milliseconds.
    Run { id: u64, words: Words, moment: u64 },
    /// Keys whose deadline is before the moment left.
    Tick { moment: u64 },
    /// A connection took its next bytes, at most so many.
    Take { id: u64, max: u64 },
    /// A connection ended; what it had not taken is given up.
    Close { id: u64 },
}

/// What the server can be asked to do in one turn.
#[derive(Debug, Drop)]
pub enum BookCall {
    Admit,
    /// `words` is the request, `now` the clock's value in milliseconds.
    Run { id: u64, words: Words, now: u64 },
    /// `now` is the clock's value in milliseconds.
    Tick { now: u64 },
    /// `max` is at least 1.
    Take { id: u64, max: u64 },
    /// It takes no memory.
    Close { id: u64 },
}

/// Why a turn was not played.
#[derive(Clone, Copy, Debug, PartialEq, Eq)]
pub enum BookRefusal {
    /// No connection of this id was admitted, or it has ended.
    Gone { id: u64 },
    NoMemory,
    /// A SHUTDOWN ran: connections are admitted no more, and keys leave no more.
    Stopped,
}

/// The answer to a turn. `entry` is the number of the entry that the turn added.
#[derive(Debug, Drop)]
pub enum BookReply {
    Admitted { entry: u64, id: u64 },
    Ran { entry: u64 },
    Ticked { entry: u64 },
    /// There is nothing to take, or no key is due, and no entry was added.
    Quiet,
    Bytes { entry: u64, bytes: Octets },
    Closed { entry: u64 },
    Refused(BookRefusal),
}

/// What a turn put into a connection's queue.
#[derive(Clone, Copy, Debug, PartialEq, Eq)]
pub enum Posted {
    /// A message of so many bytes.
    Message { length: u64 },
    /// The end of the connection, which has no bytes.
    End,
}

/// A message or an end that a turn sent: the number of its entry, and to which connection.
#[derive(Clone, Copy, Debug, PartialEq, Eq)]
pub struct Post {
    pub entry: u64,
    pub id: u64,
    pub what: Posted,
}
