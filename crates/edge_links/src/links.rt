//! Links to a peer, the acceptor that hands them out, and the net that listens and dials.
ghost use Rattle.std.specs.Prelude.{◌≡◌, ◌<◌, ℕ, List, length};
ghost use Rattle.std.specs.declared.option.Option.{Option};
ghost use Rattle.std.specs.Io.KnownBytes.{Keeps};
ghost use Rattle.edge_links.specs.Counts.{Counts};
ghost use Rattle.edge_links.specs.Streams.{WriteTakes, WriteCounts};
ghost use Rattle.edge_links.specs.Links.{LinkGives, LinkCounts, AcceptGives, AcceptCounts};
ghost use Rattle.edge_links.specs.Links.{NetCounts};

use super::streams::Wrote;

/// What a read of a link gave. `Idle` means that nothing came yet.
#[derive(Clone, Copy, Debug, PartialEq, Eq)]
pub enum LinkRead {
    Bytes(usize),
    Idle,
    End,
    Failed,
}

/// What an acceptor gave. `Closed` means that no more links come.
#[derive(Debug, Drop)]
pub enum Accepted<L> {
    Came(L),
    Idle,
    Closed,
    Failed,
}

/// The net did not give a link or an acceptor.
#[derive(Clone, Copy, Debug, PartialEq, Eq)]
pub struct NetFailed;

/// A connection to a peer, in both directions.
pub trait Link {
    /// The bytes that reads still give, where they are known.
    ghost left: { Self → Option (List ℕ) };

    /// The bytes that were written to the peer, where they are known.
    ghost contents: { Self → Option (List ℕ) };

    ghost counts: { Self → Counts };

    fn read(&mut self, buf: &mut [u8]) -> LinkRead
        requires { 0 < length buf.old }
        ensures bytes { LinkGives result (left self.old) (left self.new) buf.new }
        ensures written { Keeps (contents self.old) (contents self.new) }
        ensures counts { LinkCounts result (counts self.old) (counts self.new) };

    fn write(&mut self, bytes: &[u8]) -> Wrote
        requires { 0 < length bytes.now }
        ensures bytes { WriteTakes result (contents self.old) (contents self.new) bytes.now }
        ensures unread { Keeps (left self.old) (left self.new) }
        ensures counts { WriteCounts result (counts self.old) (counts self.new) };
}

/// Accepts connections, each a link with its counts at 0.
pub trait Acceptor {
    type Link: Link + Send + Drop;

    /// The links that are still to come, in order, where they are known.
    ghost left: { Self → Option (List Self.Link) };

    ghost counts: { Self → Counts };

    fn accept(&mut self) -> Accepted<Self::Link>
        ensures links { AcceptGives result (left self.old) (left self.new) }
        ensures counts { AcceptCounts Self.Link.counts result (counts self.old) (counts self.new) };
}

/// Listens and dials. What it hands out has its counts at 0.
pub trait Net {
    type Link: Link + Send + Drop;

    type Acceptor: Acceptor<Link = Self::Link> + Send + Drop;

    ghost counts: { Self → Counts };

    fn listen(&mut self, port: u16) -> Result<Self::Acceptor, NetFailed>
        ensures { NetCounts Self.Acceptor.counts result (counts self.old) (counts self.new) };

    fn dial(&mut self, host: &str, port: u16) -> Result<Self::Link, NetFailed>
        ensures { NetCounts Self.Link.counts result (counts self.old) (counts self.new) };
}
