//! The numbers of what is refused, in the lines and the faults of a world.

/// A client whose one link would speak RESP2.
pub const NOT_SERVED: u64 = 0;
/// A reply to nothing.
pub const UNEXPECTED: u64 = 2;
/// A malformed invalidation.
pub const BAD_PUSH: u64 = 3;
/// The handshake was answered otherwise.
pub const SETUP_REFUSED: u64 = 6;
/// The command would change how the server serves its client.
pub const CONTROL: u64 = 8;
/// No such number is waiting for its caller.
pub const NO_NUMBER: u64 = 9;
