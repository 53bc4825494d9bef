//! How a run of the program ends, what its last line says, and the number of its status.
ghost use Rattle.std.specs.Prelude.{◌≡◌, IfOk, string_bytes};
ghost use Rattle.redis_program.specs.Headline.{exit_number, last_line, status_of};

use resp_value::NoMemory;
use std::alloc::Global;
use world_run::WorldFault;

/// What a run of the program answers.
#[derive(Clone, Copy, Debug, PartialEq, Eq)]
pub enum Status {
    /// The input was read to its end, and all of it was played; or a server's connections ended.
    Done,
    /// The words of the command line are not understood.
    Usage,
    /// A line is outside the grammar.
    BadLine,
    ReadFault,
    WriteFault,
    /// The net, or an acceptor of it, failed.
    NetFault,
    /// The event of a line can't be played.
    Refused,
    /// A client's link ended, and a line of the script has no answer.
    LinkEnded,
    /// A client's log has as many entries as it may.
    HistoryFull,
    NoMemory,
    /// No ticket of the client's lock was left.
    Worn,
}

impl Status {
    /// The number that the process ends with.
    pub fn number(self) -> u8
        ensures { result ≡ exit_number self }
    {
        match self {
            Status::Done => 0,
            Status::Usage => 2,
            Status::BadLine => 3,
            Status::ReadFault => 4,
            Status::WriteFault => 5,
            Status::NetFault => 6,
            Status::Refused => 7,
            Status::LinkEnded => 8,
            Status::HistoryFull => 9,
            Status::NoMemory => 10,
            Status::Worn => 11,
        }
    }
}

/// Why the run of a schedule ends. Lines are numbered from 1.
#[derive(Clone, Copy, Debug, PartialEq, Eq)]
pub enum Ending {
    Done,
    BadLine { number: u64 },
    ReadFault,
    WriteFault,
    Refused { number: u64, fault: WorldFault },
    HistoryFull,
    NoMemory,
}

impl Ending {
    pub fn status(self) -> Status
        ensures { result ≡ status_of self }
    {
        match self {
            Ending::Done => Status::Done,
            Ending::BadLine { .. } => Status::BadLine,
            Ending::ReadFault => Status::ReadFault,
            Ending::WriteFault => Status::WriteFault,
            Ending::Refused { .. } => Status::Refused,
            Ending::HistoryFull => Status::HistoryFull,
            Ending::NoMemory => Status::NoMemory,
        }
    }

    /// The last line, with its LF. There is none where all was played or nothing can be written.
    pub fn last_line(self, alloc: Global) -> Result<String, NoMemory>
        ensures { IfOk result (λ s. string_bytes s ≡ last_line self) }
    {
        Ok(match self {
            Ending::Done | Ending::WriteFault => String::new(alloc),
            Ending::BadLine { number } => format!(in alloc; "bad-line {number}\n")?,
            Ending::ReadFault => format!(in alloc; "read-fault\n")?,
            Ending::Refused { number, fault } => {
                let fault = fault.number();
                format!(in alloc; "refused {number} {fault}\n")?
            }
            Ending::HistoryFull => format!(in alloc; "history-full\n")?,
            Ending::NoMemory => format!(in alloc; "no-memory\n")?,
        })
    }
}

impl From<NoMemory> for Ending {
    ghost use Rattle.redis_program.specs.declared.status.Ending.TheVariants.{NoMemory};

    ghost from_gives = { λ _ e. e ≡ NoMemory };

    fn from(_: NoMemory) -> Self {
        Ending::NoMemory
    }
}
