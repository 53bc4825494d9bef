//! Fills a client's cache and measures its turns: `cache_bench 1000000 100000` holds 1,000,000 keys
//! and takes 100,000 turns of each kind. How many were answered as they were to be goes to the
//! output, what a turn took to standard error.
#![tactic(auto)]

ghost use Rattle.std.specs.Prelude.{◌≤◌, ◌<◌};

mod calls;
mod rounds;
#[cfg(test)]
mod tests;

use calls::{change_of_all, content, mode, welcome};
use client_library::{GuardedClient, LibraryClient};
use command_words::Query;
use resp_value::{NoMemory, Value};
use rounds::{
    StdMaps, asks, changes, contents, copies, copies_far_apart, fills, goes_out, guarded_sends,
    hits, is_noted, notices, queries, sends,
};
use shared_cache::ClientState;
use std::alloc::Global;
use std::rt::Runtime;
use std::time::Instant;
use std::{env, io};

#[derive(Drop)]
enum Fault {
    Memory,
    System(io::Error),
}

impl From<NoMemory> for Fault {
    fn from(_: NoMemory) -> Self {
        Fault::Memory
    }
}

impl From<io::Error> for Fault {
    fn from(error: io::Error) -> Self {
        Fault::System(error)
    }
}

fn shake_hands(alloc: Global, client: &mut ClientState) -> Result<(), NoMemory> {
    let (map, accepted) = welcome(alloc)?;
    goes_out(client);
    is_noted(client, map);
    is_noted(client, accepted);
    Ok(())
}

/// Says how many of the calls of a round were answered as they were to be, and what each took since
/// the round began.
fn report<R: Runtime>(
    rt: &R,
    what: &str,
    count: u64,
    began: Instant,
    times: u64,
) -> Result<(), Fault>
    requires { 0 < times }
{
    let took = began.elapsed(rt)?;
    println!(rt; "{what} {count}")?;
    let each = took.as_nanos() / (times as u128);
    eprintln!(rt; "{what}: {each} ns each")?;
    Ok(())
}

fn measure<R: Runtime>(rt: &R, alloc: Global, keys: u64, times: u64) -> Result<(), Fault>
    requires keys { (0 < keys) × (keys ≤ 1000000) }
    requires times { 0 < times }
{
    measure_client(rt, alloc, keys, times, false)?;
    measure_client(rt, alloc, keys, times, true)?;
    measure_plain(rt, alloc, times)?;
    measure_guarded(rt, alloc, times)
}

const WELCOME: &[u8] = b"%0\r\n+OK\r\n";

fn measure_plain<R: Runtime>(rt: &R, alloc: Global, times: u64) -> Result<(), Fault>
    requires { 0 < times }
{
    let mut client = LibraryClient::new(alloc, mode(), 1000)?;
    measure_sends(rt, alloc, &mut client, times)
}

fn measure_sends<R: Runtime>(
    rt: &R,
    alloc: Global,
    client: &mut LibraryClient,
    times: u64,
) -> Result<(), Fault>
    requires { 0 < times }
{
    client.feed(WELCOME)?;
    let began = Instant::now(rt)?;
    let count = sends(alloc, client, times)?;
    report(rt, "commands of ten words", count, began, times)
}

fn measure_guarded<R: Runtime>(rt: &R, alloc: Global, times: u64) -> Result<(), Fault>
    requires { 0 < times }
{
    let mut client = GuardedClient::new(alloc, mode(), 1000, None)?;
    measure_guarded_sends(rt, alloc, &mut client, times)
}

fn measure_guarded_sends<R: Runtime>(
    rt: &R,
    alloc: Global,
    client: &mut GuardedClient,
    times: u64,
) -> Result<(), Fault>
    requires { 0 < times }
{
    client.feed(WELCOME)?;
    let began = Instant::now(rt)?;
    let count = guarded_sends(alloc, client, times)?;
    report(
        rt,
        "commands of ten words that are let go",
        count,
        began,
        times,
    )
}

/// Rounds of turns on a client with room for so many keys: one that leaves its fetches open, or one
/// that holds every key.
fn measure_client<R: Runtime>(
    rt: &R,
    alloc: Global,
    keys: u64,
    times: u64,
    open: bool,
) -> Result<(), Fault>
    requires keys { (0 < keys) × (keys ≤ 1000000) }
    requires times { 0 < times }
{
    let mut client = ClientState::new(alloc, mode(), keys, 4000000000)?;
    measure_rounds(rt, alloc, &mut client, keys, times, open)
}

fn measure_rounds<R: Runtime>(
    rt: &R,
    alloc: Global,
    client: &mut ClientState,
    keys: u64,
    times: u64,
    open: bool,
) -> Result<(), Fault>
    requires keys { (0 < keys) × (keys ≤ 1000000) }
    requires times { 0 < times }
{
    shake_hands(alloc, client)?;
    if open {
        measure_waiting(rt, alloc, client, keys, times.min((keys + 1) / 2))
    } else {
        measure_held(rt, alloc, client, keys, times)
    }
}

/// Rounds of turns on a client that waits for the replies to so many queries.
fn measure_waiting<R: Runtime>(
    rt: &R,
    alloc: Global,
    client: &mut ClientState,
    keys: u64,
    times: u64,
) -> Result<(), Fault>
    requires keys { 0 < keys }
    requires times { (0 < times) × (times ≤ keys) }
{
    measure_asks(rt, alloc, client, keys)?;
    let changed = changes(alloc, keys - times, times)?;
    let what = "invalidations among open fetches";
    measure_notices(rt, client, what, changed, times)?;
    let replies = contents(alloc, times)?;
    measure_notices(rt, client, "replies among open fetches", replies, times)
}

fn measure_asks<R: Runtime>(
    rt: &R,
    alloc: Global,
    client: &mut ClientState,
    keys: u64,
) -> Result<(), Fault>
    requires { 0 < keys }
{
    let began = Instant::now(rt)?;
    let count = asks(alloc, client, keys)?;
    report(rt, "fetches left open", count, began, keys)
}

fn measure_notices<R: Runtime>(
    rt: &R,
    client: &mut ClientState,
    what: &str,
    values: Vec<Value>,
    times: u64,
) -> Result<(), Fault>
    requires { 0 < times }
{
    let began = Instant::now(rt)?;
    let count = notices(client, values);
    report(rt, what, count, began, times)
}

/// Rounds of turns on a client that holds every key below `keys`, and what copies of values and
/// std's maps take.
fn measure_held<R: Runtime>(
    rt: &R,
    alloc: Global,
    client: &mut ClientState,
    keys: u64,
    times: u64,
) -> Result<(), Fault>
    requires keys { 0 < keys }
    requires times { 0 < times }
{
    measure_fills(rt, alloc, client, "first fills", 0, keys)?;
    measure_hits(rt, alloc, client, keys, times)?;
    measure_copies(rt, alloc, times)?;
    measure_copies_far_apart(rt, alloc, keys, times)?;
    measure_maps(rt, alloc, keys, times)?;
    measure_changes(rt, alloc, client, keys, times)
}

fn measure_fills<R: Runtime>(
    rt: &R,
    alloc: Global,
    client: &mut ClientState,
    what: &str,
    from: u64,
    times: u64,
) -> Result<(), Fault>
    requires { 0 < times }
{
    let began = Instant::now(rt)?;
    let count = fills(alloc, client, from, times)?;
    report(rt, what, count, began, times)
}

fn measure_hits<R: Runtime>(
    rt: &R,
    alloc: Global,
    client: &mut ClientState,
    keys: u64,
    times: u64,
) -> Result<(), Fault>
    requires keys { 0 < keys }
    requires times { 0 < times }
{
    let asked = queries(alloc, keys, times)?;
    let began = Instant::now(rt)?;
    let count = hits(client, asked);
    report(rt, "hits", count, began, times)
}

fn measure_copies<R: Runtime>(rt: &R, alloc: Global, times: u64) -> Result<(), Fault>
    requires { 0 < times }
{
    let value = content(alloc)?;
    measure_copies_of(rt, &value, times)
}

fn measure_copies_of<R: Runtime>(rt: &R, value: &Value, times: u64) -> Result<(), Fault>
    requires { 0 < times }
{
    let began = Instant::now(rt)?;
    let count = copies(value, times)?;
    report(rt, "copies", count, began, times)
}

/// Copies as hits make them: each of another value, which may have left the processor's caches.
fn measure_copies_far_apart<R: Runtime>(
    rt: &R,
    alloc: Global,
    keys: u64,
    times: u64,
) -> Result<(), Fault>
    requires keys { 0 < keys }
    requires times { 0 < times }
{
    let values = contents(alloc, keys)?;
    measure_copies_among(rt, values.as_slice(), keys, times)
}

fn measure_copies_among<R: Runtime>(
    rt: &R,
    values: &[Value],
    keys: u64,
    times: u64,
) -> Result<(), Fault>
    requires keys { 0 < keys }
    requires times { 0 < times }
{
    let began = Instant::now(rt)?;
    let count = copies_far_apart(values, keys, times)?;
    report(rt, "copies of values far apart", count, began, times)
}

fn measure_maps<R: Runtime>(rt: &R, alloc: Global, keys: u64, times: u64) -> Result<(), Fault>
    requires keys { 0 < keys }
    requires times { 0 < times }
{
    let asked = queries(alloc, keys, times)?;
    let maps = StdMaps::new(alloc, keys)?;
    measure_look_ups(rt, &maps, asked.as_slice(), times)
}

fn measure_look_ups<R: Runtime>(
    rt: &R,
    maps: &StdMaps,
    asked: &[Query],
    times: u64,
) -> Result<(), Fault>
    requires { 0 < times }
{
    let began = Instant::now(rt)?;
    let count = maps.hash_hits(asked);
    report(rt, "look-ups by hash", count, began, times)?;
    let began = Instant::now(rt)?;
    let count = maps.tree_hits(asked);
    report(rt, "look-ups in a tree", count, began, times)
}

fn measure_changes<R: Runtime>(
    rt: &R,
    alloc: Global,
    client: &mut ClientState,
    keys: u64,
    times: u64,
) -> Result<(), Fault>
    requires keys { 0 < keys }
    requires times { 0 < times }
{
    measure_fills(rt, alloc, client, "fills of a full cache", keys, times)?;
    let changed = changes(alloc, keys, times)?;
    measure_notices(rt, client, "invalidations of a key", changed, times)?;
    let all = change_of_all(alloc)?;
    measure_notices(rt, client, "invalidations of all", all, 1)
}

fn number(word: Option<String>) -> Option<u64> {
    word?.as_str().parse::<u64>().ok()
}

fn main(rt: HostRuntime) -> io::Result<()> {
    let mut words = env::args(&rt)?;
    words.next();
    let keys = number(words.next()).unwrap_or(0);
    let times = number(words.next()).unwrap_or(0);
    if keys == 0 || keys > 1000000 || times == 0 {
        println!(rt; "usage: cache_bench KEYS TIMES")?;
        return Ok(());
    }
    match measure(&rt, rt.alloc(), keys, times) {
        Ok(()) => Ok(()),
        Err(Fault::System(error)) => Err(error),
        Err(Fault::Memory) => println!(rt; "memory ran out"),
    }
}
