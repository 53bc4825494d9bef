//! The play of a storm.
ghost use Rattle.std.specs.Prelude.{◌≡◌, ◌≤◌, IfErr, IfOk, string_bytes};
ghost use Rattle.script_text.specs.Storm.{storm};
ghost use Rattle.script_text.specs.Valid.{IsValid};
ghost use Rattle.storm_laws.specs.Storms.{IsPlayed};
ghost use Rattle.storm_run.specs.Storming.{EndsStorm, EventComes, IsFresh, IsPlayedNext, NextComes};
ghost use Rattle.storm_run.specs.Storming.{SumsUp, Tallied};

use super::tally::{Tally, sum_up};
use resp_value::NoMemory;
use script_text::{Event, Lines, Storm};
use std::alloc::Global;
use storm_laws::law_storms_are_played;
use world_run::{World, WorldFault};

/// How many events a storm of 200,000 steps has at most: seven, and two for each step.
const MOST_EVENTS: u64 = 400_007;

/// Why a storm was not played to its end.
#[derive(Clone, Copy, Debug, PartialEq, Eq)]
pub enum Unplayed {
    NoMemory,
    /// The log of a client has as many entries as it may.
    HistoryFull,
}

/// Is told how far a storm is. It has no part in what comes of it.
pub trait Watch {
    /// So many events were played.
    fn played(&mut self, events: u64);
}

/// Plays the schedule of a number with so many steps on a world where nothing was played, and sums
/// it up in five lines. No line of its events is kept.
pub fn play_storm<W: Watch>(
    alloc: Global,
    number: u64,
    steps: u64,
    world: &mut World,
    watch: &mut W,
) -> Result<String, Unplayed>
    requires fresh { IsFresh world.old }
    requires few { steps ≤ 200000 }
    ensures ok { IfOk result (λ text. SumsUp world.old number steps world.new
        (string_bytes text)) }
    ensures err { IfErr result (EndsStorm world.old number steps) }
{
    let mut schedule = Storm::new(alloc, number, steps);
    match play_events(alloc, number, steps, &mut schedule, world, watch) {
        Ok(tally) => match sum_up(alloc, steps, tally, world) {
            Ok(text) => Ok(text),
            Err(NoMemory) => Err(Unplayed::NoMemory),
        },
        Err(unplayed) => Err(unplayed),
    }
}

/// Plays event after event of a storm, and counts the answers that they print.
fn play_events<W: Watch>(
    alloc: Global,
    number: u64,
    steps: u64,
    schedule: &mut Storm,
    world: &mut World,
    watch: &mut W,
) -> Result<Tally, Unplayed>
    requires fresh { IsFresh world.old }
    requires whole { schedule.old ≡ storm number steps }
    requires few { steps ≤ 200000 }
    ensures ok { IfOk result (Tallied world.old (storm number steps) world.new) }
    ensures err { IfErr result (EndsStorm world.old number steps) }
{
    law_storms_are_played();
    let mut tally = Tally { hits: 0, misses: 0 };
    for place in 1..MOST_EVENTS + 2 {
        match play_next(alloc, schedule, world, &mut tally) {
            Ok(true) => watch.played(place),
            Ok(false) => return Ok(tally),
            Err(unplayed) => return Err(unplayed),
        }
    }
    unreachable!()
}

/// Plays the next event, and counts the answers that it prints. It answers whether there was one.
fn play_next(
    alloc: Global,
    schedule: &mut Storm,
    world: &mut World,
    tally: &mut Tally,
) -> Result<bool, Unplayed>
    requires { IsPlayedNext world.old schedule.old }
    ensures { NextComes world.old schedule.old tally.old result world.new schedule.new tally.new }
{
    match schedule.next() {
        Ok(Some(event)) => match play_event(alloc, world, &event, tally) {
            Ok(()) => Ok(true),
            Err(unplayed) => Err(unplayed),
        },
        Ok(None) => Ok(false),
        Err(NoMemory) => Err(Unplayed::NoMemory),
    }
}

/// Plays an event that only a full log stops, and counts the answers that it prints.
fn play_event(
    alloc: Global,
    world: &mut World,
    event: &Event,
    tally: &mut Tally,
) -> Result<(), Unplayed>
    requires valid { IsValid event.now }
    requires played { IsPlayed world.old event.now }
    ensures { EventComes world.old event.now tally.old result world.new tally.new }
{
    let mut lines = Lines::new(alloc);
    match world.step(event, &mut lines) {
        Ok(()) => match tally.count(&lines) {
            Ok(()) => Ok(()),
            Err(NoMemory) => Err(Unplayed::NoMemory),
        },
        Err(fault) => match fault {
            WorldFault::NoMemory => Err(Unplayed::NoMemory),
            WorldFault::HistoryFull { .. } => Err(Unplayed::HistoryFull),
            _ => unreachable!(),
        },
    }
}
