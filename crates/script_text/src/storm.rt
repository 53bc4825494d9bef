//! The schedule of a number, event by event.
ghost use Rattle.std.specs.Prelude.{◌≡◌, ◌++◌, ◌∷◌, [], None, List, ℕ, IfOk, IfSome, OnErr, codes};
ghost use Rattle.std.specs.Prelude.{option_to_list, slice_get};
ghost use Rattle.shared_cache.specs.declared.log.Caching.TheVariants as caching;
ghost use Rattle.script_text.specs.Storm.{opened, opening, storm, storm_client};
ghost use Rattle.script_text.specs.Valid.{IsValid};

use super::event::Event;
use super::generator::{Generator, StepEvents, client, writer};
use resp_value::{NoMemory, Octets, Proto, Words};
use shared_cache::{Caching, ClientMode, Shape};
use std::alloc::Global;
use std::marker::Model;

fn open_client(
    alloc: Global,
    number: u64,
    shape: Shape,
    proto: Proto,
    caching: Caching,
    noloop: bool,
) -> Result<Option<Event>, NoMemory>
    ensures { IfOk result (λ o. o ≡ Some (opened number shape proto caching noloop)) }
{
    let mode = ClientMode {
        shape,
        proto,
        caching,
        noloop,
    };
    Ok(Some(Event::Client(client(alloc, number)?, mode, 8)))
}

fn by_prefix(alloc: Global) -> Result<Caching, NoMemory>
    ensures { IfOk result (λ c. c ≡ caching.Bcast (codes "k1" ∷ [])) }
{
    let mut prefixes = Words::new(alloc);
    prefixes.push(Octets::from_slice(alloc, b"k1")?)?;
    Ok(Caching::Bcast(prefixes))
}

fn opening_event(alloc: Global, place: u64) -> Result<Option<Event>, NoMemory>
    ensures { IfOk result (λ o. o ≡ slice_get opening place) }
{
    use Proto::{Three, Two};
    use Shape::{Pair, Single};
    match place {
        0 => open_client(alloc, 0, Single, Three, Caching::Default, false),
        1 => open_client(alloc, 1, Pair, Three, Caching::Default, true),
        2 => open_client(alloc, 2, Pair, Two, Caching::OptIn, false),
        3 => open_client(alloc, 3, Single, Three, by_prefix(alloc)?, false),
        4 => Ok(Some(Event::Raw(writer(alloc)?))),
        5 | 6 => Ok(Some(Event::FlowAll)),
        _ => Ok(None),
    }
}

/// The schedule of a number: four clients and a raw connection are made, and what they say flows;
/// then come as many steps as were asked for, each drawn from the number, which are one or two
/// events each. Contracts see the events that are left.
///
/// A step asks a client, sends a command of a client, says one on the raw connection, moves what
/// is on a link, or sets the clock on and ticks. The same number and steps give the same events,
/// and a step more gives these and then its own. The clock's value, which grows by at most 19 a
/// step, stands still at `u64::MAX`, so any number of steps may be asked for.
#[derive(Drop)]
pub struct Storm {
    alloc: Global,
    /// How many events of the opening were given.
    given: u64,
    /// The second event of a step whose first was given.
    second: Option<Event>,
    generator: Generator,
    /// How many steps were not begun.
    steps: u64,
}

impl Model for Storm {
    ghost use Rattle.std.specs.Prelude.{◌≡◌, List, true};
    ghost use Rattle.std.specs.Coded.{codes};
    ghost use Rattle.std.specs.List.{list_all};
    ghost use Rattle.script_text.specs.declared.event.Event.{Event};
    ghost use Rattle.script_text.specs.Grammar.{is_valid};
    ghost use Rattle.script_text.specs.Storm.{left_of_storm};

    ghost Value = { List Event };

    ghost coded = { Prim.hlevel codes };

    ghost view = { λ s.
        left_of_storm s.given s.second s.steps s.generator.state s.generator.clock };

    ghost invariant = { λ s. list_all is_valid
        (left_of_storm s.given s.second s.steps s.generator.state s.generator.clock) ≡ true };
}

impl Storm {
    /// The schedule of that number, with so many steps.
    pub fn new(alloc: Global, number: u64, steps: u64) -> Storm
        ensures { result ≡ storm number steps }
    {
        Storm {
            alloc,
            given: 0,
            second: None,
            generator: Generator {
                state: number,
                clock: 0,
            },
            steps,
        }
    }

    /// Takes the first event that is left, and answers `None` where none is. Where memory runs out
    /// nothing is taken, and a later call answers the event.
    pub fn next(&mut self) -> Result<Option<Event>, NoMemory>
        ensures given { IfOk result (λ o. self.old ≡ option_to_list o ++ self.new) }
        ensures ended { IfOk result (λ o. o ≡ None → self.old ≡ []) }
        ensures valid { IfOk result (λ o. IfSome o IsValid) }
        ensures err { OnErr result (self.new ≡ self.old) }
    {
        if let Some(event) = opening_event(self.alloc, self.given)? {
            self.given += 1;
            return Ok(Some(event));
        }
        if let Some(event) = self.second.take() {
            return Ok(Some(event));
        }
        let is_over = self.steps == 0;
        if is_over {
            return Ok(None);
        }
        let mut generator = self.generator;
        let StepEvents { first, second } = generator.step(self.alloc)?;
        self.generator = generator;
        self.second = second;
        self.steps -= 1;
        Ok(Some(first))
    }
}
