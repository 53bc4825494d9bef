//! A client's end of one of its links.
ghost use Rattle.std.specs.Prelude.{◌≡◌, IfOk};
ghost use Rattle.shared_cache.specs.declared.log.Wire.TheVariants.{Main};
ghost use Rattle.shared_cache.specs.Log.{is_wire};
ghost use Rattle.world_run.specs.WorldState.{fresh_end, link_on};

use resp_stream::ValueReader;
use resp_value::{NoMemory, Octets};
use shared_cache::Wire;
use std::alloc::Global;
use std::marker::Model;

/// Contracts see the place of its client, which of the client's links it is, and that link's name
/// and place.
#[derive(Drop)]
pub struct LinkEnd {
    pub(crate) client: usize,
    pub(crate) wire: Wire,
    pub(crate) link: Octets,
    pub(crate) place: usize,
}

impl Model for LinkEnd {
    ghost use Rattle.std.specs.Coded.{codes};
    ghost use Rattle.world_run.specs.WorldState as world;

    ghost Value = { world.LinkEnd };

    ghost coded = { Prim.hlevel codes };

    ghost view = { λ e. record {
      client = e.client;
      wire = e.wire;
      link = e.link;
      place = e.place;
    } };
}

/// Contracts see what end it is, and what it has read.
#[derive(Drop)]
pub struct ClientEnd {
    pub(crate) end: LinkEnd,
    pub(crate) reader: ValueReader,
}

impl Model for ClientEnd {
    ghost use Rattle.std.specs.Coded.{codes};
    ghost use Rattle.world_run.specs.WorldState.{EndState};

    ghost Value = { EndState };

    ghost coded = { Prim.hlevel codes };

    ghost view = { λ e. record { end = e.end; reader = e.reader } };
}

impl ClientEnd {
    /// An end that has read nothing, of the link of a client of this name.
    pub fn new(
        alloc: Global,
        client: usize,
        wire: Wire,
        name: &Octets,
        place: usize,
    ) -> Result<ClientEnd, NoMemory>
        ensures { IfOk result (λ e. e ≡ fresh_end client wire name.now place) }
    {
        Ok(ClientEnd {
            end: LinkEnd {
                client,
                wire,
                link: link_on(alloc, wire, name)?,
                place,
            },
            reader: ValueReader::new(alloc),
        })
    }

    /// Whether the client's commands go on the link.
    pub fn is_main(&self) -> bool
        ensures { result ≡ is_wire self.now.end.wire Main }
    {
        matches!(self.end.wire, Wire::Main)
    }

    /// The place of its client.
    pub fn client(&self) -> usize
        ensures { result ≡ self.now.end.client }
    {
        self.end.client
    }

    /// The name of the link.
    pub fn link(&self) -> &Octets
        ensures { result.now ≡ self.now.end.link }
    {
        &self.end.link
    }
}

/// The name of a client's link.
pub fn link_on(alloc: Global, wire: Wire, name: &Octets) -> Result<Octets, NoMemory>
    ensures { IfOk result (λ l. l ≡ link_on wire name.now) }
{
    let mut link = Vec::new(alloc);
    link.extend_from_slice(name.as_slice())?;
    let ending: &[u8] = match wire {
        Wire::Main => b".data",
        Wire::Side => b".inv",
    };
    link.extend_from_slice(ending)?;
    Octets::from_slice(alloc, link.as_slice())
}
