//! Lines of a schedule, played on a world.
ghost use Rattle.std.specs.Prelude.{◌<◌};

use super::schedule::{client_line, line_of};
use resp_value::NoMemory;
use script_text::{Lines, law_events_are_valid, read_event};
use server_book::Limits;
use std::alloc::Global;
use world_run::World;

const LIMITS: Limits = Limits {
    table_max: 1_000_000,
    out_max: 1_000_000_000,
    history_max: 1_000_000_000,
};

pub fn new_world(alloc: Global) -> Result<World, NoMemory> {
    World::new(alloc, LIMITS)
}

/// How many lines are printed for a line of a schedule.
fn play(alloc: Global, world: &mut World, line: &str) -> Result<u64, NoMemory> {
    law_events_are_valid();
    let Some(event) = read_event(alloc, line.as_bytes())? else {
        return Ok(0);
    };
    let mut lines = Lines::new(alloc);
    let _ = world.step(&event, &mut lines);
    Ok(lines.as_slice().len() as u64)
}

/// A raw connection and so many clients, which are ready.
pub fn set_up(alloc: Global, world: &mut World, clients: u64) -> Result<(), NoMemory> {
    play(alloc, world, "raw w")?;
    for number in 0..clients {
        play(alloc, world, client_line(alloc, number)?.as_str())?;
    }
    play(alloc, world, "flow")?;
    Ok(())
}

/// How many lines so many events print.
pub fn played(alloc: Global, world: &mut World, clients: u64, events: u64) -> Result<u64, NoMemory>
    requires { 0 < clients }
{
    let mut count = 0u64;
    for step in 0..events {
        let line = line_of(alloc, clients, step)?;
        count = count.saturating_add(play(alloc, world, line.as_str())?);
    }
    Ok(count)
}
