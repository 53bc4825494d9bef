//! What a link waits for: bytes on its socket, or its bell.
use mio::unix::SourceFd;
use mio::{Events, Interest, Poll, Token, Waker};
use std::alloc::Global;
use std::io;
use std::net::Net;
use std::os::fd::RawFd;
use std::time::Duration;

/// How long a wait is at most, in milliseconds.
const WAIT: u64 = 50;

const SOCKET: Token = Token(0);

const BELL: Token = Token(1);

/// The set of both, over a socket that whoever has this keeps open.
#[derive(Drop)]
pub(crate) struct Watch {
    fd: RawFd,
    poll: Poll,
    events: Events<Global>,
    /// The last read filled its buffer.
    may_have_more: bool,
    is_ending: bool,
}

impl Watch {
    /// The watch, and what rings its bell.
    pub(crate) fn new<N: Net>(alloc: Global, net: &N, fd: RawFd) -> io::Result<(Watch, Waker)> {
        let poll = Poll::new(net)?;
        let waker = Waker::new(poll.registry(), BELL)?;
        poll.registry()
            .register(&mut SourceFd(&fd), SOCKET, Interest::READABLE)?;
        let watch = Watch {
            fd,
            poll,
            events: Events::with_capacity(alloc, 2)?,
            may_have_more: false,
            is_ending: false,
        };
        Ok((watch, waker))
    }

    /// Waits until there is something to read, the bell rings or the time is up. Whether a read is
    /// due: where nothing can be waited for, it waits by itself.
    pub(crate) fn is_read_due(&mut self) -> bool {
        if self.tell_again().is_err() {
            return true;
        }
        if self
            .poll
            .poll(&mut self.events, Some(Duration::from_millis(WAIT)))
            .is_err()
        {
            return true;
        }
        let mut is_due = false;
        for event in self.events.iter() {
            if event.token() == SOCKET {
                is_due = true;
                self.is_ending = self.is_ending || event.is_read_closed();
            }
        }
        is_due
    }

    /// A read brought something, and filled its buffer or not.
    pub(crate) fn has_read(&mut self, is_full: bool) {
        self.may_have_more = is_full;
    }

    // An event comes at a change. Of what was there before, such as the end that came with the last
    // bytes, one tells where the socket is registered anew.
    fn tell_again(&mut self) -> io::Result<()> {
        if !self.may_have_more && !self.is_ending {
            return Ok(());
        }
        self.may_have_more = false;
        let fd = self.fd;
        self.poll
            .registry()
            .reregister(&mut SourceFd(&fd), SOCKET, Interest::READABLE)
    }
}
