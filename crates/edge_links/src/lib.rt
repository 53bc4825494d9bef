//! The outside as traits: where bytes come from and go to, who connects, and what time it is.
//!
//! Each object but a clock counts its faults, its idle answers and its ends. A call that does not
//! succeed adds one to its count, so what went wrong can be read off the object afterwards. The
//! bytes of an object in memory are known to contracts, those of a socket or of standard input
//! are not.
#![tactic(auto)]

mod adapters;
mod clock;
mod counts;
mod links;
mod listed_net;
mod memory;
mod memory_acceptor;
mod memory_link;
mod memory_net;
mod patience;
mod streams;
mod tcp;
mod web_guard;
mod writing;

pub use adapters::{ReaderSource, WriterSink};
pub use clock::{Clock, FixedClock, SystemClock};
pub use counts::Counts;
pub use links::{Accepted, Acceptor, Link, LinkRead, Net, NetFailed};
pub use listed_net::{Dialled, ListedNet, Listening};
pub use memory::{MemorySink, MemorySource};
pub use memory_acceptor::{AcceptStep, MemoryAcceptor};
pub use memory_link::{LinkStep, MemoryLink};
pub use memory_net::{ClosedAcceptor, EndedLink, MemoryNet};
pub use streams::{Sink, Source, SourceRead, Wrote};
pub use tcp::{TcpAcceptor, TcpLink, TcpNet};
pub use writing::{LinkFailed, write_all};

/// Memory ran out.
#[derive(Clone, Copy, Debug, PartialEq, Eq)]
pub struct NoMemory;
