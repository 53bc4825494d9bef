//! A net over TCP, with links that have bells.
ghost use Rattle.std.specs.Prelude.{◌≡◌, IfOk};
ghost use Rattle.edge_links.specs.Counts.{nought};

use super::acceptor::SocketAcceptor;
use super::link::{Socket, SocketLink};
use edge_links::{Counts, Link, Net, NetFailed, TcpLink};
use std::io;
use std::net::{self, TcpListener, TcpStream};
use std::time::Clock;

/// Listens at the loopback address, and dials any host.
#[derive(Drop)]
pub struct SocketNet<R> {
    rt: R,
    counts: Counts,
}

impl<
    R: net::Net<Listener = TcpListener, Stream = TcpStream>
        + Clock
        + Eprint
        + AllocGlobal
        + Copy
        + Send
        + Drop,
> SocketNet<R> {
    pub fn new(rt: R) -> Self
        ensures { ⟦<SocketNet<R> as Net>⟧.counts result ≡ nought }
    {
        SocketNet {
            rt,
            counts: Counts::new(),
        }
    }
}

fn bind<
    R: net::Net<Listener = TcpListener, Stream = TcpStream>
        + Clock
        + Eprint
        + AllocGlobal
        + Copy
        + Drop,
>(rt: R, port: u16) -> io::Result<SocketAcceptor<R>>
    ensures { IfOk result (λ a. a.counts ≡ nought) }
{
    let listener = TcpListener::bind(&rt, ("127.0.0.1", port))?;
    SocketAcceptor::new(rt, listener)
}

fn connect<R: net::Net<Listener = TcpListener, Stream = TcpStream> + AllocGlobal + Copy + Drop>(
    rt: R,
    host: &str,
    port: u16,
) -> io::Result<SocketLink<R>>
    ensures { IfOk result (λ l. ⟦<SocketLink<R> as Link>⟧.counts l ≡ nought) }
{
    let stream = TcpStream::connect(&rt, (host, port))?;
    let socket = Socket::dialled(rt.alloc(), &stream);
    Ok(SocketLink::new(rt, TcpLink::dialled(stream)?, socket))
}

impl<
    R: net::Net<Listener = TcpListener, Stream = TcpStream>
        + Clock
        + Eprint
        + AllocGlobal
        + Copy
        + Send
        + Drop,
> Net for SocketNet<R> {
    type Link = SocketLink<R>;

    type Acceptor = SocketAcceptor<R>;

    ghost counts = { λ n. n.counts };

    fn listen(&mut self, port: u16) -> Result<SocketAcceptor<R>, NetFailed> {
        match bind(self.rt, port) {
            Ok(acceptor) => Ok(acceptor),
            Err(_) => {
                self.counts.fault();
                Err(NetFailed)
            }
        }
    }

    fn dial(&mut self, host: &str, port: u16) -> Result<SocketLink<R>, NetFailed> {
        match connect(self.rt, host, port) {
            Ok(link) => Ok(link),
            Err(_) => {
                self.counts.fault();
                Err(NetFailed)
            }
        }
    }
}
