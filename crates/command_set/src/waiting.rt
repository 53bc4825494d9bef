//! Runs that were taken back, and whose keys are still to be put back.
ghost use Rattle.std.specs.Prelude.{◌≡◌, [], OnOk};
ghost use Rattle.command_words.specs.Space.{Space};
ghost use Rattle.command_set.specs.declared.waiting.Waiting.TheVariants.{Nothing};
ghost use Rattle.command_set.specs.InStep.{InStep};
ghost use Rattle.std.specs.FinMap as finite;
ghost use Rattle.command_set.specs.Priors.{priors_of, put_back, shown, waiting_back};

use super::prior::{Prior, put_back};
use expiry::DeadlineIndex;
use keyspace::Keyspace;
use resp_value::NoMemory;
use std::alloc::Global;
use std::mem;

/// What runs that were taken back kept of what their commands changed and of the keys that were due
/// before, the last one that was taken back first.
#[derive(Drop)]
pub enum Waiting {
    Nothing,
    Run(Vec<Prior>, Vec<Prior>, Box<Waiting>),
}

/// The keyspace with the index of its deadlines, what waits to be put back into both, and the place
/// for what waits that a run which stands gave back.
#[derive(Drop)]
pub struct Parts {
    pub space: Keyspace,
    pub index: DeadlineIndex,
    pub waiting: Waiting,
    pub place: Option<Box<Waiting>>,
}

impl Parts {
    pub fn new(alloc: Global) -> Parts
        ensures space { result.space ≡ finite.empty }
        ensures index { result.index ≡ [] }
        ensures waiting { result.waiting ≡ Nothing }
    {
        Parts {
            space: Keyspace::new(alloc),
            index: DeadlineIndex::new(alloc),
            waiting: Waiting::Nothing,
            place: None,
        }
    }
}

/// The place that a run takes along: the one that an earlier run gave back, or a new one.
pub(crate) fn take_place(
    alloc: Global,
    place: &mut Option<Box<Waiting>>,
) -> Result<Box<Waiting>, NoMemory> {
    match place.take() {
        Some(place) => Ok(place),
        None => Ok(Box::new(alloc, Waiting::Nothing)?),
    }
}

/// One more run is taken back. It takes no memory: the place for those before comes with the run.
pub(crate) fn push_waiting(
    waiting: &mut Waiting,
    kept: Vec<Prior>,
    due: Vec<Prior>,
    place: Box<Waiting>,
)
    ensures { (space : Space) → waiting_back waiting.new space
        ≡ put_back (priors_of due.items) (put_back (priors_of kept.items)
        (waiting_back waiting.old space)) }
{
    let mut place = place;
    *place = mem::replace(waiting, Waiting::Nothing);
    *waiting = Waiting::Run(kept, due, place);
}

/// The keys of all that waits hold again what they held. Where memory runs out, what is left waits.
fn put_all_back(
    alloc: Global,
    space: &mut Keyspace,
    index: &mut DeadlineIndex,
    waiting: &mut Waiting,
) -> Result<(), NoMemory>
    requires { InStep index.old space.old }
    ensures ok { OnOk result (space.new ≡ waiting_back waiting.old space.old) }
    ensures same { waiting_back waiting.new space.new ≡ waiting_back waiting.old space.old }
    ensures step { InStep index.new space.new }
{
    match waiting {
        Waiting::Nothing => Ok(()),
        Waiting::Run(kept, due, earlier) => {
            put_all_back(alloc, space, index, earlier)?;
            **earlier = Waiting::Nothing;
            put_back(alloc, space, index, kept)?;
            put_back(alloc, space, index, due)
        }
    }
}

/// Nothing waits any more. Where memory runs out, some of it still does.
pub(crate) fn settle(alloc: Global, parts: &mut Parts) -> Result<(), NoMemory>
    requires { InStep parts.old.index parts.old.space }
    ensures same { shown parts.new ≡ shown parts.old }
    ensures ok { OnOk result (parts.new.waiting ≡ Nothing) }
    ensures step { InStep parts.new.index parts.new.space }
{
    put_all_back(
        alloc,
        &mut parts.space,
        &mut parts.index,
        &mut parts.waiting,
    )?;
    parts.waiting = Waiting::Nothing;
    Ok(())
}
