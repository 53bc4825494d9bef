//! Storms beside their summaries, which were evaluated apart: the events by the definition of a
//! storm, and what they come to by a model of a world that shares no line with this one.
ghost use Rattle.std.specs.Prelude.{◌<◌};
ghost use Rattle.serial_model.specs.Steps.{AreValid};

use super::{LIMITS, run_storm};
use crate::status::Status;
use edge_links::MemorySink;
use resp_value::NoMemory;
use serial_model::Limits;
use std::alloc::Global;
use std::test::Fail;
use storm_run::{Unplayed, Watch, play_storm};
use world_run::World;

const OF_7: &str = "steps 20000\nentries 15961\nhits 1315\nmisses 6259\nheld 19\n";

/// Counts the events that it is told of.
#[derive(Drop)]
struct Seen {
    events: u64,
}

impl Watch for Seen {
    fn played(&mut self, events: u64) {
        self.events = events;
    }
}

#[test]
fn a_storm_has_the_summary_of_its_world(rt: HostRuntime) -> Result<(), Fail> {
    let alloc = rt.alloc();
    let mut seen = Seen { events: 0 };
    let mut sink = MemorySink::new(alloc, 1000, Vec::new(alloc))?;
    assert!(rt; run_storm(alloc, 7, 20_000, &mut seen, &mut sink) == Status::Done);
    assert_eq!(rt; sink.bytes(), OF_7.as_bytes());
    assert!(rt; seen.events == 22_467);
    Ok(())
}

/// What the storm of number 7 comes to on a world with these limits.
fn played_on(alloc: Global, limits: Limits, log_max: u64) -> Result<String, Unplayed>
    requires limits { AreValid limits }
    requires log { 0 < log_max }
{
    match World::with_log_limit(alloc, limits, log_max) {
        Ok(mut world) => play_storm(alloc, 7, 20_000, &mut world, &mut Seen { events: 0 }),
        Err(NoMemory) => Err(Unplayed::NoMemory),
    }
}

#[test]
fn a_history_that_is_let_go_changes_no_summary(rt: HostRuntime) -> Result<(), Fail> {
    let limits = Limits {
        history_max: 50,
        ..LIMITS
    };
    match played_on(rt.alloc(), limits, 4_000_000) {
        Ok(summary) => assert_eq!(rt; summary.as_str(), OF_7),
        Err(_) => assert!(rt; false),
    }
    Ok(())
}

#[test]
fn a_full_log_ends_a_storm(rt: HostRuntime) -> Result<(), Fail> {
    let ended = played_on(rt.alloc(), LIMITS, 10);
    assert!(rt; matches!(ended, Err(Unplayed::HistoryFull)));
    Ok(())
}
