//! Links that a lookout tells of, and acceptors that make lookouts.
ghost use Rattle.std.specs.Prelude.{◌≡◌};

use super::lookout::{Lookout, Sign};
use edge_links::{
    ClosedAcceptor, EndedLink, Link, MemoryAcceptor, MemoryLink, TcpAcceptor, TcpLink,
};
use std::alloc::Global;

/// A link that a lookout may tell of. Once it is watched its reads and writes don't wait: a read
/// that finds nothing is idle at once, and what the socket doesn't take of a write is kept for
/// `flush`. Kept bytes are written before any later ones.
pub trait Watched: Link {
    /// Has the lookout tell of the link under this number from now on, and of what is ready
    /// already. Under another number it is moved, in the same lookout. False where it can't be
    /// watched: the link is then as before.
    fn watch(&mut self, _lookout: &Lookout, _place: usize) -> bool
        ensures unread { Self.left self.new ≡ Self.left self.old }
        ensures written { Self.contents self.new ≡ Self.contents self.old }
        ensures counts { Self.counts self.new ≡ Self.counts self.old }
    {
        false
    }

    /// The lookout has this sign of the link.
    fn told(&mut self, _sign: Sign)
        ensures unread { Self.left self.new ≡ Self.left self.old }
        ensures written { Self.contents self.new ≡ Self.contents self.old }
        ensures counts { Self.counts self.new ≡ Self.counts self.old }
    {}

    /// Whether a read may bring something that no lookout tells of again: bytes, the end, or that
    /// the link is lost. A link that isn't watched is always due.
    fn is_due(&self) -> bool {
        true
    }

    /// Writes what is left of earlier writes, as much as the socket takes now, at a moment in
    /// milliseconds. The link is lost, so that reads and writes fail, where the socket fails, or
    /// took nothing in ten seconds of these moments.
    fn flush(&mut self, _now: u64)
        ensures unread { Self.left self.new ≡ Self.left self.old }
        ensures written { Self.contents self.new ≡ Self.contents self.old }
        ensures counts { Self.counts self.new ≡ Self.counts self.old }
    {}

    /// Whether bytes of earlier writes are left for `flush`.
    fn is_behind(&self) -> bool {
        false
    }
}

impl Watched for TcpLink {}

impl Watched for MemoryLink {}

impl Watched for EndedLink {}

/// An acceptor that may have lookouts.
pub trait Watching {
    /// A lookout that tells when somebody may be accepted, where there can be one. Each thread has
    /// one of its own, and all are told. From then on an accept that finds nobody doesn't wait.
    fn lookout(&self, _alloc: Global) -> Option<Lookout> {
        None
    }

    /// Whether an accept may bring somebody of whom no lookout tells again, as where descriptors
    /// were wanting. An acceptor that has no lookout is always due.
    fn is_due(&self) -> bool {
        true
    }
}

impl<R> Watching for TcpAcceptor<R> {}

impl Watching for MemoryAcceptor {}

impl Watching for ClosedAcceptor {}
