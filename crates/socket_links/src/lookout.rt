//! What one thread waits with for many links: bytes on any of them, a caller, or its bell.
use edge_links::NoMemory;
use mio::event::Event;
use mio::unix::SourceFd;
use mio::{Events, Interest, Poll, Token, Waker};
use std::alloc::Global;
use std::io;
use std::net::Net;
use std::os::fd::RawFd;
use std::sync::Arc;
use std::time::Duration;

/// How much a wait learns of at most. What is ready beyond that the next learns of.
const EVENTS: usize = 1024;

const CALLERS: Token = Token(usize::MAX);

const BELL: Token = Token(usize::MAX - 1);

/// What a wait learned of one link. It is a hint: the link may not be ready all the same.
#[derive(Clone, Copy, Debug, PartialEq, Eq)]
pub struct Sign {
    /// The number under which the link is watched.
    pub place: usize,
    pub can_read: bool,
    pub can_write: bool,
    /// The other end sends no more, or the connection failed.
    pub is_ending: bool,
}

/// Ends the wait of a lookout. Any thread may ring it, at any time.
#[derive(Drop)]
pub struct LookoutBell {
    waker: Arc<Waker, Global>,
}

impl LookoutBell {
    fn new(alloc: Global, waker: Waker) -> Result<LookoutBell, NoMemory> {
        match Arc::new(alloc, waker) {
            Ok(waker) => Ok(LookoutBell { waker }),
            Err(_) => Err(NoMemory),
        }
    }

    /// The same bell.
    pub fn share(&self) -> Result<LookoutBell, NoMemory> {
        match Arc::try_clone(&self.waker) {
            Ok(waker) => Ok(LookoutBell { waker }),
            Err(_) => Err(NoMemory),
        }
    }

    /// Ends the wait that is under way, or else the next. Where the system refuses that, the
    /// lookout waits on.
    pub fn ring(&self) {
        let _ = self.waker.wake();
    }
}

/// Waits for an acceptor and any number of links at once. It tells of each when it becomes ready,
/// and not again while it stays so: what was told is to be used up (`Watched::is_due`,
/// `Watching::is_due`).
#[derive(Drop)]
pub struct Lookout {
    poll: Poll,
    events: Events<Global>,
    signs: Vec<Sign>,
    has_caller: bool,
    bell: LookoutBell,
}

impl Lookout {
    /// One that waits for callers at this listening socket, and no link yet.
    pub(crate) fn new<N: Net>(alloc: Global, net: &N, listener: RawFd) -> io::Result<Option<Self>> {
        let poll = Poll::new(net)?;
        poll.registry()
            .register(&mut SourceFd(&listener), CALLERS, Interest::READABLE)?;
        let waker = Waker::new(poll.registry(), BELL)?;
        let Ok(bell) = LookoutBell::new(alloc, waker) else {
            return Ok(None);
        };
        Ok(Some(Lookout {
            poll,
            events: Events::with_capacity(alloc, EVENTS)?,
            signs: Vec::with_capacity(alloc, EVENTS)?,
            has_caller: false,
            bell,
        }))
    }

    /// Waits until a link or the acceptor is ready, the bell rings or the time is up. Where the
    /// system refuses to wait, the time is up.
    pub fn wait(&mut self, milliseconds: u64) {
        self.signs.clear();
        self.has_caller = false;
        let most = Duration::from_millis(milliseconds);
        if self.poll.poll(&mut self.events, Some(most)).is_err() {
            return;
        }
        for event in self.events.iter() {
            let token = event.token();
            if token == CALLERS {
                self.has_caller = true;
            } else if token != BELL {
                // There is room for as many as there are events.
                let _ = self.signs.push(sign_of(event));
            }
        }
    }

    /// What the last wait learned of the links. One that is gone may still have a sign.
    pub fn signs(&self) -> &[Sign] {
        &self.signs
    }

    /// Whether the last wait learned that somebody may be accepted.
    pub fn has_caller(&self) -> bool {
        self.has_caller
    }

    /// Its bell, where there is memory for one more share.
    pub fn bell(&self) -> Option<LookoutBell> {
        self.bell.share().ok()
    }

    /// Whether it tells of the socket under this number from now on, and of what is ready already.
    /// The last two numbers stand for none.
    pub(crate) fn has_taken(&self, fd: RawFd, place: usize) -> bool {
        let token = Token(place);
        if token == CALLERS || token == BELL {
            return false;
        }
        let registry = self.poll.registry();
        let both = Interest::READABLE | Interest::WRITABLE;
        registry.reregister(&mut SourceFd(&fd), token, both).is_ok()
            || registry.register(&mut SourceFd(&fd), token, both).is_ok()
    }
}

fn sign_of(event: &Event) -> Sign {
    Sign {
        place: event.token().0,
        can_read: event.is_readable(),
        can_write: event.is_writable(),
        is_ending: event.is_read_closed() || event.is_error(),
    }
}
