//! What became of a connection.
ghost use Rattle.std.specs.Prelude.{◌≡◌};
ghost use Rattle.conn_worker.specs.Numbers.{end_number};
ghost use Rattle.conn_worker.specs.Visits.{ended_by};

use resp_stream::StreamFault;
use shared_book::Refusal;

/// Why a connection is served no longer.
#[derive(Clone, Copy, Debug, Drop, PartialEq, Eq)]
pub enum Ended {
    /// The link gave its end.
    PeerEnd,
    /// Its QUIT ran, the last bytes that it was sent were written, and it was closed.
    Quit,
    /// The connection had ended, and not by its worker: it was dropped, or closed by another.
    Dropped,
    /// The bytes that were read have this fault.
    BadRequest(StreamFault),
    /// The link failed.
    LinkFault,
    NoMemory,
    /// No ticket of the lock was left.
    Worn,
    /// A SHUTDOWN ran.
    Stopped,
}

impl Ended {
    /// The number by which a report names it.
    pub fn number(self) -> u8
        ensures { result ≡ end_number self }
    {
        match self {
            Ended::PeerEnd => 1,
            Ended::Quit => 2,
            Ended::Dropped => 3,
            Ended::BadRequest(_) => 4,
            Ended::LinkFault => 5,
            Ended::NoMemory => 7,
            Ended::Worn => 8,
            Ended::Stopped => 9,
        }
    }
}

/// One connection that was served. Its id is 0 where it was not admitted.
#[derive(Clone, Copy, Debug, Drop, PartialEq, Eq)]
pub struct Report {
    pub id: u64,
    /// How many of its requests ran.
    pub requests: u64,
    pub ended: Ended,
}

/// The end of a connection whose turn was not taken.
pub fn ended_by(refusal: Refusal) -> Ended
    ensures { result ≡ ended_by refusal }
{
    match refusal {
        Refusal::Dropped => Ended::Dropped,
        Refusal::NoMemory => Ended::NoMemory,
        Refusal::Worn => Ended::Worn,
        Refusal::Stopped => Ended::Stopped,
    }
}
