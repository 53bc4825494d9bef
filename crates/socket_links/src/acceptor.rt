//! An acceptor over TCP whose links have bells.
ghost use Rattle.std.specs.Prelude.{◌≡◌, IfOk};
ghost use Rattle.std.specs.declared.option.Option.TheVariants.{None};
ghost use Rattle.edge_links.specs.Counts.{nought};

use super::link::{Socket, SocketLink};
use super::lookout::Lookout;
use super::watched::Watching;
use edge_links::{Accepted, Acceptor, Counts, Link, TcpLink};
use std::alloc::Global;
use std::io::{self, ErrorKind};
use std::net::{Net, TcpListener, TcpStream};
use std::os::fd::AsRawFd;
use std::sync::atomic::{AtomicBool, Ordering};
use std::time::{Clock, Duration};

/// How long an accept waits before it answers `Idle`, in milliseconds.
const WAIT: u64 = 5;

/// By which numbers Linux says that a socket doesn't listen: EBADF, EINVAL, ENOTSOCK, EOPNOTSUPP.
const NO_LISTENER: [i32; 4] = [9, 22, 88, 95];

/// Accepts connections over TCP. Where none is there, or none can be had for now, it waits a
/// bounded time and answers `Idle`; it fails where the socket doesn't listen any more. That
/// descriptors or memory are wanting it says once on standard error. With a lookout it waits only
/// where these are wanting.
#[derive(Drop)]
pub struct SocketAcceptor<R> {
    rt: R,
    listener: TcpListener,
    counts: Counts,
    has_said_want: bool,
    /// A lookout tells of callers.
    is_watched: AtomicBool,
    /// The last accept didn't find that nobody is there.
    may_have_more: bool,
}

impl<R: Net + Clock + Eprint + AllocGlobal + Copy + Drop> SocketAcceptor<R> {
    pub(crate) fn new(rt: R, listener: TcpListener) -> io::Result<Self>
        ensures { IfOk result (λ a. a.counts ≡ nought) }
    {
        listener.set_nonblocking(true)?;
        Ok(SocketAcceptor {
            rt,
            listener,
            counts: Counts::new(),
            has_said_want: false,
            is_watched: AtomicBool::new(false),
            may_have_more: true,
        })
    }

    // A link over the stream. Without memory for a bell it has none.
    fn link(&self, stream: TcpStream) -> io::Result<SocketLink<R>>
        ensures { IfOk result (λ l. ⟦<SocketLink<R> as Link>⟧.counts l ≡ nought) }
    {
        let socket = Socket::accepted(self.rt.alloc(), &stream);
        Ok(SocketLink::new(self.rt, TcpLink::new(stream)?, socket))
    }

    fn say_want(&mut self, error: &io::Error)
        ensures { self.new.counts ≡ self.old.counts }
    {
        if !self.has_said_want {
            self.has_said_want = true;
            let _ = eprintln!(self.rt; "zeovalki: accepting pauses, and is tried again: {error}");
        }
    }
}

impl<R> SocketAcceptor<R> {
    fn is_watched(&self) -> bool {
        self.is_watched.load(Ordering::SeqCst)
    }
}

/// Why no connection was accepted.
#[derive(Clone, Copy, PartialEq, Eq)]
enum NotAccepted {
    Nobody,
    /// Who came is gone already.
    Gone,
    /// Descriptors, memory or what else the system needs for a connection is wanting.
    Want,
    /// The socket doesn't listen any more.
    Lost,
}

fn cause_of(error: &io::Error) -> NotAccepted {
    match error.kind() {
        ErrorKind::WouldBlock => NotAccepted::Nobody,
        ErrorKind::Interrupted | ErrorKind::ConnectionAborted => NotAccepted::Gone,
        _ => match error.raw_os_error() {
            Some(number) if NO_LISTENER.contains(&number) => NotAccepted::Lost,
            _ => NotAccepted::Want,
        },
    }
}

impl<R: Net + Clock + Eprint + AllocGlobal + Copy + Send + Drop> Acceptor for SocketAcceptor<R> {
    type Link = SocketLink<R>;

    ghost left = { λ _. None };

    ghost counts = { λ a. a.counts };

    fn accept(&mut self) -> Accepted<SocketLink<R>> {
        self.may_have_more = true;
        match self.listener.accept() {
            // A connection that is gone already leaves no link, and the next may come.
            Ok((stream, _)) => match self.link(stream) {
                Ok(link) => return Accepted::Came(link),
                Err(_) => {}
            },
            Err(error) => {
                let cause = cause_of(&error);
                match cause {
                    NotAccepted::Nobody => self.may_have_more = false,
                    NotAccepted::Gone => {}
                    NotAccepted::Want => self.say_want(&error),
                    NotAccepted::Lost => {
                        self.counts.fault();
                        return Accepted::Failed;
                    }
                }
                // Without a pause what is wanting would be asked for again and again.
                if cause == NotAccepted::Want || !self.is_watched() {
                    self.rt.sleep(Duration::from_millis(WAIT));
                }
            }
        }
        self.counts.idle();
        Accepted::Idle
    }
}

impl<R: Net> Watching for SocketAcceptor<R> {
    fn lookout(&self, alloc: Global) -> Option<Lookout> {
        let lookout = Lookout::new(alloc, &self.rt, self.listener.as_raw_fd()).ok()??;
        self.is_watched.store(true, Ordering::SeqCst);
        Some(lookout)
    }

    fn is_due(&self) -> bool {
        self.may_have_more || !self.is_watched()
    }
}
