//! Why an event was not played, or not to its end.
ghost use Rattle.std.specs.Prelude.{◌≡◌};
ghost use Rattle.server_links.specs.Faults.{number_of};

use resp_value::NoMemory;
use std::alloc::AllocError;

/// Why an event was not played, or not to its end. With `NoMemory` and `HistoryFull` what was
/// played before stands, and its lines were appended; the others leave the world as before.
#[derive(Clone, Copy, Debug, PartialEq, Eq)]
pub enum WorldFault {
    /// No link has this name.
    NoName,
    /// A link has this name already.
    NameTaken,
    /// Fewer bytes were there than the event moves.
    NothingThere,
    NoMemory,
    /// A client of the world refused what it was asked, or a SHUTDOWN stopped the server, by the
    /// refusal of this number.
    Refused { number: u64 },
    /// A client's log has as many entries as it may have, and the event needs one more.
    HistoryFull { entries: u64 },
}

/// The number of the refusal of a server that a SHUTDOWN stopped.
pub const STOPPED: u64 = 4;

impl WorldFault {
    /// The number in the last line of a schedule that was refused.
    pub fn number(self) -> u64
        ensures { result ≡ number_of self }
    {
        match self {
            WorldFault::NoName => 1,
            WorldFault::NameTaken => 2,
            WorldFault::NothingThere => 3,
            WorldFault::NoMemory => 4,
            WorldFault::Refused { .. } => 5,
            WorldFault::HistoryFull { .. } => 6,
        }
    }
}

impl From<NoMemory> for WorldFault {
    ghost use Rattle.server_links.specs.declared.fault.WorldFault.TheVariants.{NoMemory};

    ghost from_gives = { λ _ e. e ≡ NoMemory };

    fn from(_: NoMemory) -> Self {
        WorldFault::NoMemory
    }
}

impl From<AllocError> for WorldFault {
    ghost use Rattle.server_links.specs.declared.fault.WorldFault.TheVariants.{NoMemory};

    ghost from_gives = { λ _ e. e ≡ NoMemory };

    fn from(_: AllocError) -> Self {
        WorldFault::NoMemory
    }
}
