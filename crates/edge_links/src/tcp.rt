//! Links, an acceptor and a net over TCP. What a socket carries, no contract knows.
ghost use Rattle.std.specs.Prelude.{◌≡◌, IfOk};
ghost use Rattle.std.specs.declared.option.Option.TheVariants.{None};
ghost use Rattle.edge_links.specs.Counts.{nought};

use super::counts::Counts;
use super::links::{Accepted, Acceptor, Link, LinkRead, Net, NetFailed};
use super::patience::Patience;
use super::streams::Wrote;
use super::web_guard::WebGuard;
use std::io::{self, ErrorKind, Read, Write};
use std::net::{self, TcpListener, TcpStream};
use std::time::{Clock, Duration};

/// How long a read waits before it answers `Idle`, in milliseconds.
const READ_WAIT: u64 = 50;

/// The same on a link that was dialled and answered, where requests leave between two reads.
const DIALLED_READ_WAIT: u64 = 1;

/// How many reads of a link that was dialled may bring nothing before its first bytes: ten seconds.
const UNANSWERED_READS: u64 = 200;

/// How long a write waits for a peer that takes nothing before it fails, in milliseconds.
const WRITE_WAIT: u64 = 10_000;

/// How long an accept waits before it answers `Idle`, in milliseconds.
const ACCEPT_WAIT: u64 = 5;

/// By which numbers Linux says that a socket doesn't listen: EBADF, EINVAL, ENOTSOCK, EOPNOTSUPP.
const NO_LISTENER: [i32; 4] = [9, 22, 88, 95];

/// A connection over TCP. Small writes leave at once, and a read waits a bounded time. The reads of
/// one that was accepted fail from where its first bytes are a web request's, and those of one that
/// was dialled once nothing came in ten seconds.
#[derive(Drop)]
pub struct TcpLink {
    stream: TcpStream,
    counts: Counts,
    guard: WebGuard,
    patience: Patience,
}

impl TcpLink {
    pub fn new(stream: TcpStream) -> io::Result<Self>
        ensures { IfOk result (λ l. ⟦<TcpLink as Link>⟧.counts l ≡ nought) }
    {
        stream.set_nodelay(true)?;
        stream.set_read_timeout(Some(Duration::from_millis(READ_WAIT)))?;
        stream.set_write_timeout(Some(Duration::from_millis(WRITE_WAIT)))?;
        Ok(TcpLink {
            stream,
            counts: Counts::new(),
            guard: WebGuard::new(),
            patience: Patience::endless(),
        })
    }

    /// The link over a connection that this end began.
    pub fn dialled(stream: TcpStream) -> io::Result<Self>
        ensures { IfOk result (λ l. ⟦<TcpLink as Link>⟧.counts l ≡ nought) }
    {
        let mut link = TcpLink::new(stream)?;
        link.guard = WebGuard::open();
        link.patience = Patience::of(UNANSWERED_READS);
        Ok(link)
    }

    /// Its socket, for whoever waits for it or writes without waiting, of which no count tells.
    pub fn stream(&self) -> &TcpStream {
        &self.stream
    }
}

impl Link for TcpLink {
    ghost left = { λ _. None };

    ghost contents = { λ _. None };

    ghost counts = { λ l. l.counts };

    fn read(&mut self, buf: &mut [u8]) -> LinkRead {
        match self.stream.read(buf) {
            Ok(0) => {
                self.counts.end();
                LinkRead::End
            }
            Ok(n) if self.guard.refuses(&buf[..n]) => {
                self.counts.fault();
                LinkRead::Failed
            }
            Ok(n) => {
                if self.patience.ends() {
                    // Where that fails reads wait longer, and bring the same.
                    let wait = Duration::from_millis(DIALLED_READ_WAIT);
                    let _ = self.stream.set_read_timeout(Some(wait));
                }
                LinkRead::Bytes(n)
            }
            Err(error) => match error.kind() {
                ErrorKind::WouldBlock | ErrorKind::TimedOut | ErrorKind::Interrupted => {
                    if self.patience.is_over() {
                        self.counts.fault();
                        return LinkRead::Failed;
                    }
                    self.counts.idle();
                    LinkRead::Idle
                }
                _ => {
                    self.counts.fault();
                    LinkRead::Failed
                }
            },
        }
    }

    fn write(&mut self, bytes: &[u8]) -> Wrote {
        match self.stream.write(bytes) {
            Ok(0) | Err(_) => {
                self.counts.fault();
                Wrote::Failed
            }
            Ok(n) => Wrote::Took(n),
        }
    }
}

/// Accepts connections over TCP. Where none is there, or none can be had for now, it waits a
/// bounded time and answers `Idle`; it fails where the socket doesn't listen any more. That
/// descriptors or memory are wanting it says once on standard error.
#[derive(Drop)]
pub struct TcpAcceptor<R> {
    rt: R,
    listener: TcpListener,
    counts: Counts,
    has_said_want: bool,
}

impl<R: Clock + Eprint + Drop> TcpAcceptor<R> {
    pub fn new(rt: R, listener: TcpListener) -> io::Result<Self>
        ensures { IfOk result (λ a. ⟦<TcpAcceptor<R> as Acceptor>⟧.counts a ≡ nought) }
    {
        listener.set_nonblocking(true)?;
        Ok(TcpAcceptor {
            rt,
            listener,
            counts: Counts::new(),
            has_said_want: false,
        })
    }

    fn say_want(&mut self, error: &io::Error)
        ensures { self.new.counts ≡ self.old.counts }
    {
        if !self.has_said_want {
            self.has_said_want = true;
            let _ = eprintln!(self.rt; "zeovalki: accepting pauses, and is tried again: {error}");
        }
    }
}

/// Why no connection was accepted.
#[derive(Clone, Copy, PartialEq, Eq)]
enum NotAccepted {
    /// Nobody came, or who came is gone already.
    Nobody,
    /// Descriptors, memory or what else the system needs for a connection is wanting.
    Want,
    /// The socket doesn't listen any more.
    Lost,
}

fn cause_of(error: &io::Error) -> NotAccepted {
    match error.kind() {
        ErrorKind::WouldBlock | ErrorKind::Interrupted | ErrorKind::ConnectionAborted => {
            NotAccepted::Nobody
        }
        _ => match error.raw_os_error() {
            Some(number) if NO_LISTENER.contains(&number) => NotAccepted::Lost,
            _ => NotAccepted::Want,
        },
    }
}

impl<R: Clock + Eprint + Drop> Acceptor for TcpAcceptor<R> {
    type Link = TcpLink;

    ghost left = { λ _. None };

    ghost counts = { λ a. a.counts };

    fn accept(&mut self) -> Accepted<TcpLink> {
        match self.listener.accept() {
            // A connection that is gone already leaves no link, and the next may come.
            Ok((stream, _)) => match TcpLink::new(stream) {
                Ok(link) => return Accepted::Came(link),
                Err(_) => {}
            },
            Err(error) => {
                match cause_of(&error) {
                    NotAccepted::Nobody => {}
                    NotAccepted::Want => self.say_want(&error),
                    NotAccepted::Lost => {
                        self.counts.fault();
                        return Accepted::Failed;
                    }
                }
                self.rt.sleep(Duration::from_millis(ACCEPT_WAIT));
            }
        }
        self.counts.idle();
        Accepted::Idle
    }
}

/// Listens at the loopback address, and dials any host.
#[derive(Drop)]
pub struct TcpNet<R> {
    rt: R,
    counts: Counts,
}

impl<
    R: net::Net<Listener = TcpListener, Stream = TcpStream> + Clock + Eprint + Copy + Send + Drop,
> TcpNet<R> {
    pub fn new(rt: R) -> Self
        ensures { ⟦<TcpNet<R> as Net>⟧.counts result ≡ nought }
    {
        TcpNet {
            rt,
            counts: Counts::new(),
        }
    }
}

fn bind<R: net::Net<Listener = TcpListener, Stream = TcpStream> + Clock + Eprint + Drop>(
    rt: R,
    port: u16,
) -> io::Result<TcpAcceptor<R>>
    ensures { IfOk result (λ a. ⟦<TcpAcceptor<R> as Acceptor>⟧.counts a ≡ nought) }
{
    let listener = TcpListener::bind(&rt, ("127.0.0.1", port))?;
    TcpAcceptor::new(rt, listener)
}

fn connect<R: net::Net<Listener = TcpListener, Stream = TcpStream>>(
    rt: &R,
    host: &str,
    port: u16,
) -> io::Result<TcpLink>
    ensures { IfOk result (λ l. ⟦<TcpLink as Link>⟧.counts l ≡ nought) }
{
    TcpLink::dialled(TcpStream::connect(rt, (host, port))?)
}

impl<
    R: net::Net<Listener = TcpListener, Stream = TcpStream> + Clock + Eprint + Copy + Send + Drop,
> Net for TcpNet<R> {
    type Link = TcpLink;

    type Acceptor = TcpAcceptor<R>;

    ghost counts = { λ n. n.counts };

    fn listen(&mut self, port: u16) -> Result<TcpAcceptor<R>, NetFailed> {
        match bind(self.rt, port) {
            Ok(acceptor) => Ok(acceptor),
            Err(_) => {
                self.counts.fault();
                Err(NetFailed)
            }
        }
    }

    fn dial(&mut self, host: &str, port: u16) -> Result<TcpLink, NetFailed> {
        match connect(&self.rt, host, port) {
            Ok(link) => Ok(link),
            Err(_) => {
                self.counts.fault();
                Err(NetFailed)
            }
        }
    }
}
