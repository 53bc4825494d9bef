//! A link: its two directions, what the server's end has read, and what moves over it.
ghost use Rattle.std.specs.Prelude.{◌≡◌};
ghost use Rattle.server_links.specs.Moves.{flow, moved};
ghost use Rattle.server_links.specs.Outcome.{Gives};
ghost use Rattle.server_links.specs.Session.{session};
ghost use Rattle.server_links.specs.LinksState.{fresh_link};

use super::direction::Direction;
use super::fault::WorldFault;
use super::server::Server;
use resp_stream::RequestReader;
use resp_value::Octets;
use script_text::Lines;
use std::alloc::Global;

/// What moves over a link. Where a count is `None`, all that is there moves.
#[derive(Clone, Copy, Debug, PartialEq, Eq)]
pub enum LinkMove {
    /// The server's end reads.
    Serve(Option<u64>),
    /// The server's end sends.
    Send(Option<u64>),
    /// The client's end reads.
    Recv(Option<u64>),
    /// `Serve`, `Send` and `Recv` of all that is there.
    Flow,
    /// The client's end sends an EOF.
    HangUp,
    /// What is in flight is lost, and both directions end.
    Cut,
}

#[derive(Drop)]
pub struct Link {
    /// The id of its connection.
    pub id: u64,
    pub name: Octets,
    /// From the client to the server.
    pub up: Direction,
    /// From the server to the client.
    pub down: Direction,
    /// What the server's end has read.
    pub reader: RequestReader,
}

impl Link {
    pub fn new(alloc: Global, id: u64, name: Octets) -> Link
        ensures { result ≡ fresh_link id name }
    {
        Link {
            id,
            name,
            up: Direction::new(alloc),
            down: Direction::new(alloc),
            reader: RequestReader::new(alloc),
        }
    }

    pub fn play(
        &mut self,
        alloc: Global,
        server: &mut Server,
        movement: LinkMove,
        lines: &mut Lines,
    ) -> Result<(), WorldFault>
        ensures { Gives (moved movement (session server.old self.old)) lines.old result
            (session server.new self.new) lines.new }
    {
        match movement {
            LinkMove::Serve(count) => self.serve(server, count, lines),
            LinkMove::Send(count) => self.send(server, count, lines),
            LinkMove::Recv(count) => self.receive(alloc, count, lines),
            LinkMove::Flow => self.flow(alloc, server, lines),
            LinkMove::HangUp => {
                self.up.finish();
                Ok(())
            }
            LinkMove::Cut => {
                self.up.cut();
                self.down.cut();
                Ok(())
            }
        }
    }

    /// All that is there moves: serve, send, recv.
    pub fn flow(
        &mut self,
        alloc: Global,
        server: &mut Server,
        lines: &mut Lines,
    ) -> Result<(), WorldFault>
        ensures { Gives (flow (session server.old self.old)) lines.old result
            (session server.new self.new) lines.new }
    {
        self.serve_all(server, lines)?;
        self.send_all(server, lines)?;
        self.receive_all(alloc, lines)
    }
}
