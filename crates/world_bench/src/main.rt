//! Plays a schedule that it makes on a world, and measures its events: `world_bench 10 100000` has
//! ten clients and 100,000 events. How many lines were printed goes to the output, what an event
//! took to standard error.
#![tactic(auto)]

ghost use Rattle.std.specs.Prelude.{◌<◌};

mod play;
mod schedule;
#[cfg(test)]
mod tests;

use play::{new_world, played, set_up};
use resp_value::NoMemory;
use std::alloc::Global;
use std::rt::Runtime;
use std::time::Instant;
use std::{env, io};
use world_run::World;

#[derive(Drop)]
enum Fault {
    Memory,
    System(io::Error),
}

impl From<NoMemory> for Fault {
    fn from(_: NoMemory) -> Self {
        Fault::Memory
    }
}

impl From<io::Error> for Fault {
    fn from(error: io::Error) -> Self {
        Fault::System(error)
    }
}

/// Says how many lines were printed, and what each event took since the first began.
fn report<R: Runtime>(rt: &R, lines: u64, began: Instant, events: u64) -> Result<(), Fault>
    requires { 0 < events }
{
    let took = began.elapsed(rt)?;
    println!(rt; "lines {lines}")?;
    let each = took.as_nanos() / (events as u128);
    eprintln!(rt; "events: {each} ns each")?;
    Ok(())
}

fn measure<R: Runtime>(rt: &R, alloc: Global, clients: u64, events: u64) -> Result<(), Fault>
    requires clients { 0 < clients }
    requires events { 0 < events }
{
    let mut world = new_world(alloc)?;
    measure_events(rt, alloc, &mut world, clients, events)
}

fn measure_events<R: Runtime>(
    rt: &R,
    alloc: Global,
    world: &mut World,
    clients: u64,
    events: u64,
) -> Result<(), Fault>
    requires clients { 0 < clients }
    requires events { 0 < events }
{
    set_up(alloc, world, clients)?;
    let began = Instant::now(rt)?;
    let lines = played(alloc, world, clients, events)?;
    report(rt, lines, began, events)
}

fn number(word: Option<String>) -> Option<u64> {
    word?.as_str().parse::<u64>().ok()
}

fn main(rt: HostRuntime) -> io::Result<()> {
    let mut words = env::args(&rt)?;
    words.next();
    let clients = number(words.next()).unwrap_or(0);
    let events = number(words.next()).unwrap_or(0);
    if clients == 0 || events == 0 {
        println!(rt; "usage: world_bench CLIENTS EVENTS")?;
        return Ok(());
    }
    match measure(&rt, rt.alloc(), clients, events) {
        Ok(()) => Ok(()),
        Err(Fault::System(error)) => Err(error),
        Err(Fault::Memory) => println!(rt; "memory ran out"),
    }
}
