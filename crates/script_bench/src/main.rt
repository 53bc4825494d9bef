//! Hits of threads on one client under its lock, beside look-ups in std's map under a mutex:
//! `script_bench 1000 100000` holds 1,000 keys and asks 100,000 times, by 1, 4 and 8 threads.
//! How many were answered from the cache goes to the output, what each took to standard error.
#![tactic(auto)]

ghost use Rattle.std.specs.Prelude.{◌≤◌, ◌<◌};

mod client;
mod map;
#[cfg(test)]
mod tests;

use client::{Unready, ask_in_threads, ready_client};
use map::{find_in_threads, map_of};
use resp_value::NoMemory;
use std::alloc::Global;
use std::rt::Runtime;
use std::sync::{Mutex, Wait};
use std::thread::Threads;
use std::time::{Duration, Instant};
use std::{env, io};

#[derive(Drop)]
enum Fault {
    Memory,
    Unready,
    System(io::Error),
}

impl From<NoMemory> for Fault {
    fn from(_: NoMemory) -> Self {
        Fault::Memory
    }
}

impl From<Unready> for Fault {
    fn from(_: Unready) -> Self {
        Fault::Unready
    }
}

impl From<io::Error> for Fault {
    fn from(error: io::Error) -> Self {
        Fault::System(error)
    }
}

fn report<R: Runtime>(
    rt: &R,
    what: &str,
    threads: u64,
    count: u64,
    took: Duration,
    times: u64,
) -> Result<(), Fault>
    requires { 0 < times }
{
    println!(rt; "{what} by {threads}: {count}")?;
    let each = took.as_nanos() / (times as u128);
    eprintln!(rt; "{what} by {threads}: {each} ns each")?;
    Ok(())
}

/// All threads together ask that many times.
fn measure<R: Runtime + Threads + Wait + Sync>(
    rt: &R,
    alloc: Global,
    keys: u64,
    times: u64,
    threads: u64,
) -> Result<(), Fault>
    requires keys { (0 < keys) × (keys ≤ 1000000) }
    requires times { 0 < times }
    requires threads { (1 ≤ threads) × (threads ≤ 64) }
{
    let (lock, seat) = ready_client(rt, alloc, keys)?;
    let each = times / threads;
    let began = Instant::now(rt)?;
    let asked = ask_in_threads(rt, alloc, &lock, seat, keys, each, threads);
    report(rt, "hits", threads, asked.hits, began.elapsed(rt)?, times)?;
    let map = Mutex::new(map_of(alloc, keys)?);
    let began = Instant::now(rt)?;
    let found = find_in_threads(rt, alloc, &map, keys, each, threads);
    report(rt, "look-ups", threads, found, began.elapsed(rt)?, times)
}

fn number(word: Option<String>) -> Option<u64> {
    word?.as_str().parse::<u64>().ok()
}

fn main(rt: HostRuntime) -> io::Result<()> {
    let mut words = env::args(&rt)?;
    words.next();
    let keys = number(words.next()).unwrap_or(0);
    let times = number(words.next()).unwrap_or(0);
    if keys == 0 || keys > 1000000 || times == 0 {
        println!(rt; "usage: script_bench KEYS TIMES")?;
        return Ok(());
    }
    for threads in [1, 4, 8] {
        match measure(&rt, rt.alloc(), keys, times, threads) {
            Ok(()) => {}
            Err(Fault::System(error)) => return Err(error),
            Err(Fault::Memory) => println!(rt; "memory ran out")?,
            Err(Fault::Unready) => println!(rt; "no client was made ready")?,
        }
    }
    Ok(())
}
