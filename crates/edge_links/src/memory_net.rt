//! A net in memory on which nobody listens or dials.
ghost use Rattle.std.specs.Prelude.{◌≡◌, []};
ghost use Rattle.std.specs.declared.option.Option.TheVariants.{Some};
ghost use Rattle.edge_links.specs.Counts.{FaultCounted, EndCounted, nought};

use super::counts::Counts;
use super::links::{Accepted, Acceptor, Link, LinkRead, Net, NetFailed};
use super::streams::Wrote;

/// A link whose peer is gone: reads give `End`, and writes fail.
#[derive(Debug, Drop)]
pub struct EndedLink {
    counts: Counts,
}

impl EndedLink {
    pub fn new() -> Self
        ensures { ⟦<EndedLink as Link>⟧.counts result ≡ nought }
    {
        EndedLink {
            counts: Counts::new(),
        }
    }
}

impl Link for EndedLink {
    ghost left = { λ _. Some [] };

    ghost contents = { λ _. Some [] };

    ghost counts = { λ l. l.counts };

    fn read(&mut self, _buf: &mut [u8]) -> LinkRead
        ensures answer { result ≡ LinkRead.End }
        ensures counts { EndCounted self.old.counts self.new.counts }
    {
        self.counts.end();
        LinkRead::End
    }

    fn write(&mut self, _bytes: &[u8]) -> Wrote
        ensures answer { result ≡ Wrote.Failed }
        ensures counts { FaultCounted self.old.counts self.new.counts }
    {
        self.counts.fault();
        Wrote::Failed
    }
}

/// An acceptor that is closed.
#[derive(Debug, Drop)]
pub struct ClosedAcceptor {
    counts: Counts,
}

impl ClosedAcceptor {
    pub fn new() -> Self
        ensures { ⟦<ClosedAcceptor as Acceptor>⟧.counts result ≡ nought }
    {
        ClosedAcceptor {
            counts: Counts::new(),
        }
    }
}

impl Acceptor for ClosedAcceptor {
    type Link = EndedLink;

    ghost left = { λ _. Some [] };

    ghost counts = { λ a. a.counts };

    fn accept(&mut self) -> Accepted<EndedLink>
        ensures answer { result ≡ Accepted.Closed }
        ensures counts { EndCounted self.old.counts self.new.counts }
    {
        self.counts.end();
        Accepted::Closed
    }
}

/// A net on which every call fails.
#[derive(Debug, Drop)]
pub struct MemoryNet {
    counts: Counts,
}

impl MemoryNet {
    pub fn new() -> Self
        ensures { ⟦<MemoryNet as Net>⟧.counts result ≡ nought }
    {
        MemoryNet {
            counts: Counts::new(),
        }
    }
}

impl Net for MemoryNet {
    type Link = EndedLink;

    type Acceptor = ClosedAcceptor;

    ghost counts = { λ n. n.counts };

    fn listen(&mut self, _port: u16) -> Result<ClosedAcceptor, NetFailed>
        ensures answer { result ≡ Err (record {}) }
        ensures counts { FaultCounted self.old.counts self.new.counts }
    {
        self.counts.fault();
        Err(NetFailed)
    }

    fn dial(&mut self, _host: &str, _port: u16) -> Result<EndedLink, NetFailed>
        ensures answer { result ≡ Err (record {}) }
        ensures counts { FaultCounted self.old.counts self.new.counts }
    {
        self.counts.fault();
        Err(NetFailed)
    }
}
