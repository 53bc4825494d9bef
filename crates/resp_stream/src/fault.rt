//! What is wrong with a stream.
ghost use Rattle.std.specs.Prelude.{◌≡◌};
ghost use Rattle.resp_stream.specs.Stream.{stream_fault, fault_place};
ghost use Rattle.resp_stream.specs.Tokens.{limited};
ghost use Rattle.resp_stream.specs.declared.fault.ReadStop.TheVariants as stop;

use resp_value::NoMemory;

/// What a reader answers in place of a value or request.
/// Offsets count from the first byte that was fed to it.
#[derive(Clone, Copy, Debug, Drop, PartialEq, Eq)]
pub enum StreamFault {
    /// The bytes up to and with this one begin nothing of the grammar.
    BadByte { offset: u64 },
    /// This byte makes a length, a line or the whole longer than its limit; the number is the
    /// length so far.
    TooLong { offset: u64, number: u64 },
    /// An aggregate begins here inside of eight others.
    TooDeep { offset: u64 },
    /// A kind of value or length that is not served begins here.
    NotServed { offset: u64, byte: u8 },
    NoMemory,
}

/// A fault of the bytes by its number, and the byte's place.
#[derive(Clone, Copy, Debug, Drop, PartialEq, Eq)]
pub struct FaultPlace {
    /// 1 for a bad byte, 2 for what is too long, 3 for what is too deep, 4 for what is not served.
    pub number: u64,
    pub offset: u64,
}

impl StreamFault {
    /// The place of a fault of the bytes; nothing for want of memory.
    pub fn place(&self) -> Option<FaultPlace>
        ensures { result ≡ fault_place self.now }
    {
        let (number, offset) = match *self {
            StreamFault::BadByte { offset } => (1, offset),
            StreamFault::TooLong { offset, .. } => (2, offset),
            StreamFault::TooDeep { offset } => (3, offset),
            StreamFault::NotServed { offset, .. } => (4, offset),
            StreamFault::NoMemory => return None,
        };
        Some(FaultPlace { number, offset })
    }
}

/// What is wrong with a byte.
#[derive(Clone, Copy, Debug, Drop)]
pub enum Fault {
    BadByte,
    TooLong(u64),
    TooDeep,
    NotServed(u8),
}

/// A fault, and how many bytes there are from the faulty byte on.
#[derive(Clone, Copy, Debug, Drop)]
pub struct Broken {
    pub fault: Fault,
    pub left: usize,
}

/// Why a value or request was not read.
#[derive(Clone, Copy, Debug, Drop)]
pub enum ReadStop {
    NoMemory,
    Faulty(Broken),
}

impl From<NoMemory> for ReadStop {
    ghost from_gives = { λ _ made. made ≡ stop.NoMemory };

    fn from(_: NoMemory) -> ReadStop {
        ReadStop::NoMemory
    }
}

/// The most bytes of one whole value or request.
pub const WHOLE_LIMIT: usize = 67108864;

/// A fault with its offset, as the limit of the whole has it.
pub(crate) fn limited(fault: Fault, offset: usize) -> (Fault, usize)
    ensures { result ≡ limited WHOLE_LIMIT offset fault }
{
    if WHOLE_LIMIT < offset {
        return (Fault::TooLong(WHOLE_LIMIT as u64 + 1), WHOLE_LIMIT);
    }
    if offset < WHOLE_LIMIT {
        return (fault, offset);
    }
    match fault {
        Fault::BadByte => (Fault::TooLong(WHOLE_LIMIT as u64 + 1), offset),
        Fault::TooLong(number) => (Fault::TooLong(number), offset),
        Fault::TooDeep => (Fault::TooDeep, offset),
        Fault::NotServed(byte) => (Fault::NotServed(byte), offset),
    }
}

pub(crate) fn stream_fault(fault: Fault, offset: u64) -> StreamFault
    ensures { result ≡ stream_fault fault offset }
{
    match fault {
        Fault::BadByte => StreamFault::BadByte { offset },
        Fault::TooLong(number) => StreamFault::TooLong { offset, number },
        Fault::TooDeep => StreamFault::TooDeep { offset },
        Fault::NotServed(byte) => StreamFault::NotServed { offset, byte },
    }
}
