//! Why a pump has ended.
ghost use Rattle.std.specs.Prelude.{◌≡◌};
ghost use Rattle.client_link.specs.Pumps.{end_by, end_number, is_known};

use resp_stream::StreamFault;
use shared_cache::ClientRefusal;

/// Why nothing more is read of a client's link.
#[derive(Clone, Copy, Debug, PartialEq, Eq)]
pub enum PumpEnd {
    /// The link gave its end.
    PeerEnd,
    /// The link failed.
    LinkFault,
    /// The bytes that were read have this fault.
    BadStream(StreamFault),
    /// A value that was read ended the link.
    Refused(ClientRefusal),
    /// The link had been ended.
    Done,
    NoMemory,
    /// The client's log was full.
    LogFull,
    /// No ticket of the lock was left.
    Worn,
}

impl PumpEnd {
    /// Its number, from 1.
    pub fn number(&self) -> u8
        ensures { result ≡ end_number self.now }
    {
        match self {
            PumpEnd::PeerEnd => 1,
            PumpEnd::LinkFault => 2,
            PumpEnd::BadStream(_) => 3,
            PumpEnd::Refused(_) => 4,
            PumpEnd::Done => 5,
            PumpEnd::NoMemory => 6,
            PumpEnd::LogFull => 7,
            PumpEnd::Worn => 8,
        }
    }

    /// Whether the client knows that its link has ended, or no ticket is left to tell it.
    pub fn is_known(&self) -> bool
        ensures { result ≡ is_known self.now }
    {
        match self {
            PumpEnd::Refused(_) => true,
            PumpEnd::Done => true,
            PumpEnd::Worn => true,
            _ => false,
        }
    }
}

/// The end of a pump whose turn was refused.
pub fn end_by(refusal: ClientRefusal) -> PumpEnd
    ensures { result ≡ end_by refusal }
{
    match refusal {
        ClientRefusal::Down { .. } => PumpEnd::Done,
        ClientRefusal::NoMemory => PumpEnd::NoMemory,
        ClientRefusal::LogFull { .. } => PumpEnd::LogFull,
        ClientRefusal::Worn => PumpEnd::Worn,
        _ => PumpEnd::Refused(refusal),
    }
}
