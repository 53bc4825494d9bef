//! Measures commands on a keyspace of so many keys and on one hash of so many fields:
//! `keyspace_bench 1000000 100000 10000` runs each command 10,000 times over 1,000,000 keys and
//! 100,000 fields. `keyspace_bench 100000 'HSET hash f0 2'` runs each line once on a database of
//! one hash of 100,000 fields and one string of as many bytes, with what is kept of the run. How
//! many replied no error goes to the output, what one took to standard error.
#![tactic(auto)]

ghost use Rattle.std.specs.Prelude.{◌≡◌, ◌<◌};

mod changes;
mod rounds;
#[cfg(test)]
mod tests;

use changes::measure_changes;
use command_words::Command;
use keyspace::Keyspace;
use resp_value::NoMemory;
use rounds::{Walk, commands, served};
use std::alloc::Global;
use std::env::{self, Env};
use std::io;
use std::rt::Runtime;
use std::time::Instant;

#[derive(Drop)]
enum Fault {
    Memory,
    System(io::Error),
}

impl From<NoMemory> for Fault {
    fn from(_: NoMemory) -> Self {
        Fault::Memory
    }
}

impl From<io::Error> for Fault {
    fn from(error: io::Error) -> Self {
        Fault::System(error)
    }
}

fn report<R: Runtime>(
    rt: &R,
    line: &str,
    walk: Walk,
    count: u64,
    began: Instant,
) -> Result<(), Fault>
    requires { 0 < walk.times }
{
    let took = began.elapsed(rt)?;
    let name = walk.name;
    println!(rt; "{line}, {name}: {count}")?;
    let each = took.as_nanos() / (walk.times as u128);
    eprintln!(rt; "{line}, {name}: {each} ns each")?;
    Ok(())
}

/// Runs the line for each number of the walk; only the commands themselves are timed.
fn measure<R: Runtime>(
    rt: &R,
    alloc: Global,
    space: &mut Keyspace,
    line: &str,
    walk: Walk,
) -> Result<(), Fault>
    requires size { 0 < walk.size }
    requires times { 0 < walk.times }
{
    let commands = commands(alloc, line, walk)?;
    measure_commands(rt, alloc, space, line, walk, commands.as_slice())
}

fn measure_commands<R: Runtime>(
    rt: &R,
    alloc: Global,
    space: &mut Keyspace,
    line: &str,
    walk: Walk,
    commands: &[Command],
) -> Result<(), Fault>
    requires { 0 < walk.times }
{
    let began = Instant::now(rt)?;
    let count = served(alloc, space, commands)?;
    report(rt, line, walk, count, began)
}

fn measure_lines<R: Runtime>(
    rt: &R,
    alloc: Global,
    space: &mut Keyspace,
    lines: &str,
    walk: Walk,
) -> Result<(), Fault>
    requires size { 0 < walk.size }
    requires times { 0 < walk.times }
{
    for line in lines.split('\n') {
        measure(rt, alloc, space, line, walk)?;
    }
    Ok(())
}

/// Each number below `size` in turn.
fn each(size: u64) -> Walk
    ensures size { result.size ≡ size }
    ensures times { result.times ≡ size }
{
    Walk {
        name: "each",
        first: 0,
        stride: 1,
        size,
        times: size,
    }
}

/// The first thousand numbers, again and again.
fn near(size: u64, times: u64) -> Walk
    requires { 0 < size }
    ensures size { 0 < result.size }
    ensures times { result.times ≡ times }
{
    Walk {
        name: "near",
        first: 0,
        stride: 1,
        size: if size < 1000 { size } else { 1000 },
        times,
    }
}

/// Numbers far from one another.
fn far(size: u64, times: u64) -> Walk
    ensures size { result.size ≡ size }
    ensures times { result.times ≡ times }
{
    Walk {
        name: "far",
        first: 0,
        stride: 7919,
        size,
        times,
    }
}

/// Ten numbers in turn, from this one on.
fn ten(name: &'static str, first: u64, size: u64) -> Walk
    ensures size { result.size ≡ size }
    ensures times { 0 < result.times }
{
    Walk {
        name,
        first,
        stride: 1,
        size,
        times: 10,
    }
}

const ON_KEYS: &str = "\
GET k#
SET k# 2
INCR k#
APPEND k# 3
MSET k# 4 a 1 b 2 c 3 d 4 e 5 f 6 g 7 h 8 i 9";

fn measure_keys<R: Runtime>(rt: &R, alloc: Global, keys: u64, times: u64) -> Result<(), Fault>
    requires keys { 0 < keys }
    requires times { 0 < times }
{
    let mut space = Keyspace::new(alloc);
    measure_texts(rt, alloc, &mut space, keys, times)
}

fn measure_texts<R: Runtime>(
    rt: &R,
    alloc: Global,
    space: &mut Keyspace,
    keys: u64,
    times: u64,
) -> Result<(), Fault>
    requires keys { 0 < keys }
    requires times { 0 < times }
{
    measure(rt, alloc, space, "SET k# 1", each(keys))?;
    measure_lines(rt, alloc, space, ON_KEYS, near(keys, times))?;
    measure_lines(rt, alloc, space, ON_KEYS, far(keys, times))
}

const ON_FIELDS: &str = "\
HGET fields f#
HSET fields f# 2
HLEN fields";

fn measure_fields<R: Runtime>(rt: &R, alloc: Global, fields: u64, times: u64) -> Result<(), Fault>
    requires fields { 0 < fields }
    requires times { 0 < times }
{
    let mut space = Keyspace::new(alloc);
    measure_hash(rt, alloc, &mut space, fields, times)
}

fn measure_hash<R: Runtime>(
    rt: &R,
    alloc: Global,
    space: &mut Keyspace,
    fields: u64,
    times: u64,
) -> Result<(), Fault>
    requires fields { 0 < fields }
    requires times { 0 < times }
{
    measure(rt, alloc, space, "HSET fields f# 1", each(fields))?;
    measure_lines(rt, alloc, space, ON_FIELDS, near(fields, times))?;
    measure_lines(rt, alloc, space, ON_FIELDS, far(fields, times))?;
    measure_removals(rt, alloc, space, fields)
}

/// Fields go at the front, in the middle and at the end, once all were listed.
fn measure_removals<R: Runtime>(
    rt: &R,
    alloc: Global,
    space: &mut Keyspace,
    fields: u64,
) -> Result<(), Fault>
    requires { 0 < fields }
{
    let last = fields.saturating_sub(10);
    measure(rt, alloc, space, "HGETALL fields", ten("all", 0, fields))?;
    measure(rt, alloc, space, "HDEL fields f#", ten("front", 0, fields))?;
    measure(
        rt,
        alloc,
        space,
        "HDEL fields f#",
        ten("middle", fields / 2, fields),
    )?;
    measure(rt, alloc, space, "HDEL fields f#", ten("end", last, fields))
}

fn number(word: Option<&String>) -> Option<u64> {
    word?.as_str().parse::<u64>().ok()
}

/// Three numbers, or one number and then lines.
fn run_words<R: Runtime>(rt: &R, alloc: Global, words: &[String]) -> Result<(), Fault> {
    let keys = number(words.first()).unwrap_or(0);
    let fields = number(words.get(1)).unwrap_or(0);
    let times = number(words.get(2)).unwrap_or(0);
    if keys > 0 && words.len() > 1 && number(words.get(1)).is_none() {
        return measure_changes(rt, alloc, keys, &words[1..]);
    }
    if keys == 0 || fields == 0 || times == 0 {
        println!(rt; "usage: keyspace_bench KEYS FIELDS TIMES, keyspace_bench SIZE LINE..")?;
        return Ok(());
    }
    run(rt, alloc, keys, fields, times)
}

/// The words behind the program's name.
fn words_of<R: Env + AllocGlobal>(rt: &R) -> io::Result<Vec<String>> {
    Ok(env::args(rt)?.skip(1).collect(rt.alloc())?)
}

fn main(rt: HostRuntime) -> io::Result<()> {
    let words = words_of(&rt)?;
    match run_words(&rt, rt.alloc(), words.as_slice()) {
        Ok(()) => Ok(()),
        Err(Fault::System(error)) => Err(error),
        Err(Fault::Memory) => println!(rt; "memory ran out"),
    }
}

fn run<R: Runtime>(rt: &R, alloc: Global, keys: u64, fields: u64, times: u64) -> Result<(), Fault>
    requires keys { 0 < keys }
    requires fields { 0 < fields }
    requires times { 0 < times }
{
    measure_keys(rt, alloc, keys, times)?;
    measure_fields(rt, alloc, fields, times)
}
