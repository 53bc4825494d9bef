//! A client of a world.
ghost use Rattle.std.specs.Prelude.{◌≡◌, [], length};
ghost use Rattle.shared_cache.specs.declared.log.Wire.TheVariants.{Main};
ghost use Rattle.shared_cache.specs.ClientFields.{IsClientMode};
ghost use Rattle.shared_cache.specs.Laws.{gots};
ghost use Rattle.world_run.specs.WorldState.{link_on, place_on};

use resp_value::Octets;
use shared_cache::{ClientState, Shape, Wire};
use std::alloc::Global;
use std::marker::Model;

/// Contracts see its name, the places of its links, and its setup and log.
#[derive(Drop)]
pub struct Member {
    pub(crate) alloc: Global,
    pub(crate) name: Octets,
    // the name of the link that its commands go on
    pub(crate) link: Octets,
    // the places of its links, of which one link has one: a connection's id is one more
    pub(crate) main: usize,
    pub(crate) side: usize,
    pub(crate) shape: Shape,
    pub(crate) state: ClientState,
    // how many values it got on each
    pub(crate) got_main: usize,
    pub(crate) got_side: usize,
}

impl Model for Member {
    ghost use Rattle.std.specs.Prelude.{◌≡◌, length};
    ghost use Rattle.std.specs.Coded.{codes};
    ghost use Rattle.resp_value.specs.TreeCoding.{tree_code};
    ghost use Rattle.shared_cache.specs.declared.log.Wire.TheVariants.{Main, Side};
    ghost use Rattle.shared_cache.specs.Laws.{gots};
    ghost use Rattle.shared_cache.specs.ClientFields.{IsClientMode};
    ghost use Rattle.world_run.specs.WorldState.{MemberState, link_on};

    ghost Value = { MemberState };

    ghost coded = { Prim.hlevel (codes, tree_code) };

    ghost view = { λ m. record {
      name = m.name;
      main = m.main;
      side = m.side;
      state = m.state;
    } };

    ghost invariant = { λ m. IsClientMode m.state.setup.mode
        × (m.shape ≡ m.state.setup.mode.shape)
        × (m.got_main ≡ length (gots Main m.state.past))
        × (m.got_side ≡ length (gots Side m.state.past))
        × (m.link ≡ link_on Main m.name) };
}

impl Member {
    /// A client whose log is empty, at the links of these places.
    pub fn new(
        alloc: Global,
        name: Octets,
        link: Octets,
        main: usize,
        side: usize,
        shape: Shape,
        state: ClientState,
    ) -> Member
        requires mode { IsClientMode state.setup.mode }
        requires link { link ≡ link_on Main name }
        requires shape { shape ≡ state.setup.mode.shape }
        requires empty { state.past ≡ [] }
        ensures { result ≡ record {
          name = name;
          main = main;
          side = side;
          state = state;
        } }
    {
        Member {
            alloc,
            name,
            link,
            main,
            side,
            shape,
            state,
            got_main: 0,
            got_side: 0,
        }
    }

    pub fn name(&self) -> &Octets
        ensures { result.now ≡ self.now.name }
    {
        &self.name
    }

    /// The place of a link of its.
    pub fn place_on(&self, wire: Wire) -> usize
        ensures { result ≡ place_on wire self.now }
    {
        match wire {
            Wire::Main => self.main,
            Wire::Side => self.side,
        }
    }

    /// How many values it got on a link.
    pub fn got_on(&self, wire: Wire) -> usize
        ensures { result ≡ length (gots wire self.now.state.past) }
    {
        match wire {
            Wire::Main => self.got_main,
            Wire::Side => self.got_side,
        }
    }
}
