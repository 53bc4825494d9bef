//! A connection over TCP whose reads a bell ends.
ghost use Rattle.std.specs.Prelude.{◌≡◌};
ghost use Rattle.std.specs.declared.option.Option.TheVariants.{None};
ghost use Rattle.edge_links.specs.Counts.{nought};

use super::bell::{Bell, Wakeable};
use super::lookout::{Lookout, Sign};
use super::unblocked::Unblocked;
use super::watch::Watch;
use super::watched::Watched;
use edge_links::{Counts, Link, LinkRead, NoMemory, TcpLink, Wrote};
use std::alloc::Global;
use std::net::{Net, TcpStream};
use std::os::fd::{AsRawFd, RawFd};

/// What there is to wait for, once the bell is to be heeded.
#[derive(Drop)]
pub(crate) struct Socket {
    fd: RawFd,
    bell: Bell,
    /// The first bytes have the bell heeded.
    is_dialled: bool,
}

impl Socket {
    /// Of a connection that the other end began. Without memory for a bell there is none.
    pub(crate) fn accepted(alloc: Global, stream: &TcpStream) -> Option<Socket> {
        Socket::of(alloc, stream, false)
    }

    /// Of a connection that this end began. How long the other may take to answer its link counts
    /// by reads that wait in the link itself, so the bell is heeded from the first bytes on.
    pub(crate) fn dialled(alloc: Global, stream: &TcpStream) -> Option<Socket> {
        Socket::of(alloc, stream, true)
    }

    fn of(alloc: Global, stream: &TcpStream, is_dialled: bool) -> Option<Socket> {
        let fd = stream.as_raw_fd();
        match Bell::new(alloc) {
            Ok(bell) => Some(Socket {
                fd,
                bell,
                is_dialled,
            }),
            Err(NoMemory) => None,
        }
    }
}

/// A connection over TCP, as `TcpLink` has it, with a bell where there was memory for one.
#[derive(Drop)]
pub struct SocketLink<R> {
    rt: R,
    link: TcpLink,
    counts: Counts,
    socket: Option<Socket>,
    /// Stands in place of the socket as soon as the bell is heeded.
    watch: Option<Watch>,
    /// Stands as soon as a lookout tells of the link, and no read or write waits.
    unblocked: Option<Unblocked>,
}

impl<R: Net + AllocGlobal> SocketLink<R> {
    /// The link over a socket, which the link keeps open.
    pub(crate) fn new(rt: R, link: TcpLink, socket: Option<Socket>) -> Self
        ensures { ⟦<SocketLink<R> as Link>⟧.counts result ≡ nought }
    {
        SocketLink {
            rt,
            link,
            counts: Counts::new(),
            socket,
            watch: None,
            unblocked: None,
        }
    }

    // Waits for bytes or the bell, where it is heeded. Whether a read is due, which else waits by
    // itself.
    fn is_read_due(&mut self) -> bool
        ensures { self.new.counts ≡ self.old.counts }
    {
        if self.unblocked.is_some() {
            return true;
        }
        if let Some(watch) = &mut self.watch {
            return watch.is_read_due();
        }
        let is_heeded = match &self.socket {
            Some(socket) => socket.bell.is_heeded(),
            None => false,
        };
        !is_heeded || !self.has_begun_to_watch()
    }

    // Heeds the bell from now on, where descriptors and memory suffice. It may have been rung
    // before.
    fn has_begun_to_watch(&mut self) -> bool
        ensures { self.new.counts ≡ self.old.counts }
    {
        let Some(socket) = self.socket.take() else {
            return false;
        };
        match Watch::new(self.rt.alloc(), &self.rt, socket.fd) {
            Ok((watch, waker)) => {
                socket.bell.ring_by(waker);
                self.watch = Some(watch);
                true
            }
            Err(_) => false,
        }
    }

    fn has_read(&mut self, is_full: bool)
        ensures { self.new.counts ≡ self.old.counts }
    {
        if let Some(watch) = &mut self.watch {
            watch.has_read(is_full);
        }
        if let Some(socket) = &self.socket {
            if socket.is_dialled {
                socket.bell.be_heeded();
            }
        }
    }

    fn is_lost(&self) -> bool {
        match &self.unblocked {
            Some(unblocked) => unblocked.is_lost(),
            None => false,
        }
    }

    // One that was dialled isn't watched: its reads count how long it is without an answer.
    fn can_be_watched(&self) -> bool {
        match &self.socket {
            Some(socket) => !socket.is_dialled,
            None => false,
        }
    }

    // Whether the lookout has taken a socket that waited until now.
    fn has_unblocked(&self, lookout: &Lookout, place: usize) -> bool {
        let stream = self.link.stream();
        if stream.set_nonblocking(true).is_err() {
            return false;
        }
        let has_taken = lookout.has_taken(stream.as_raw_fd(), place);
        if !has_taken {
            let _ = stream.set_nonblocking(false);
        }
        has_taken
    }
}

impl<R> Wakeable for SocketLink<R> {
    fn bell(&self) -> Option<Bell> {
        match &self.socket {
            Some(socket) => socket.bell.share().ok(),
            None => None,
        }
    }
}

impl<R: Net + AllocGlobal> Link for SocketLink<R> {
    ghost left = { λ _. None };

    ghost contents = { λ _. None };

    ghost counts = { λ l. l.counts };

    fn read(&mut self, buf: &mut [u8]) -> LinkRead {
        if self.is_lost() {
            self.counts.fault();
            return LinkRead::Failed;
        }
        if !self.is_read_due() {
            self.counts.idle();
            return LinkRead::Idle;
        }
        let answer = self.link.read(buf);
        if let Some(unblocked) = &mut self.unblocked {
            unblocked.has_read(answer == LinkRead::Bytes(buf.len()));
        }
        match answer {
            LinkRead::Bytes(n) => self.has_read(n == buf.len()),
            LinkRead::Idle => self.counts.idle(),
            LinkRead::End => self.counts.end(),
            LinkRead::Failed => self.counts.fault(),
        }
        answer
    }

    fn write(&mut self, bytes: &[u8]) -> Wrote {
        let answer = match &mut self.unblocked {
            Some(unblocked) => unblocked.write(self.link.stream(), bytes),
            None => self.link.write(bytes),
        };
        if answer == Wrote::Failed {
            self.counts.fault();
        }
        answer
    }
}

impl<R: Net + AllocGlobal> Watched for SocketLink<R> {
    fn watch(&mut self, lookout: &Lookout, place: usize) -> bool {
        if self.unblocked.is_some() {
            return lookout.has_taken(self.link.stream().as_raw_fd(), place);
        }
        if !self.can_be_watched() || !self.has_unblocked(lookout, place) {
            return false;
        }
        self.unblocked = Some(Unblocked::new(self.rt.alloc()));
        true
    }

    fn told(&mut self, sign: Sign) {
        if let Some(unblocked) = &mut self.unblocked {
            unblocked.told(sign);
        }
    }

    fn is_due(&self) -> bool {
        match &self.unblocked {
            Some(unblocked) => unblocked.is_due(),
            None => true,
        }
    }

    fn flush(&mut self, now: u64) {
        if let Some(unblocked) = &mut self.unblocked {
            unblocked.flush(self.link.stream(), now);
        }
    }

    fn is_behind(&self) -> bool {
        match &self.unblocked {
            Some(unblocked) => unblocked.is_behind(),
            None => false,
        }
    }
}
