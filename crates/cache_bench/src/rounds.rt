//! Rounds of calls, each with how many of them were answered as they were to be.
ghost use Rattle.std.specs.Prelude.{◌<◌, ◌≤◌};
ghost use Rattle.shared_cache.specs.Laws.{IsCall};

use super::calls::{change, content, key, query};
use client_library::{GuardedClient, LibraryClient, read_words};
use command_words::Query;
use resp_value::{NoMemory, Value};
use shared_cache::{ClientCall, ClientReply, ClientState, Wire};
use std::alloc::Global;
use std::collections::{BTreeMap, HashMap};

/// What an answer is, without what it holds.
#[derive(Clone, Copy)]
pub enum Told {
    Hit,
    Sent(u64),
    Answer,
    Bytes,
    Noted,
    Other,
}

/// Plays a turn.
pub fn play(client: &mut ClientState, call: ClientCall) -> Told
    requires { IsCall client.old.setup.mode call }
{
    match client.turn(call) {
        ClientReply::Hit { .. } => Told::Hit,
        ClientReply::Sent { number } => Told::Sent(number),
        ClientReply::Answer { .. } => Told::Answer,
        ClientReply::Bytes(_) => Told::Bytes,
        ClientReply::Noted => Told::Noted,
        _ => Told::Other,
    }
}

/// The number of the command that a query is sent as.
fn sent(client: &mut ClientState, query: Query) -> Option<u64> {
    match play(client, ClientCall::Ask(query)) {
        Told::Sent(number) => Some(number),
        _ => None,
    }
}

fn is_hit(client: &mut ClientState, query: Query) -> bool {
    matches!(play(client, ClientCall::Ask(query)), Told::Hit)
}

pub fn goes_out(client: &mut ClientState) -> bool {
    matches!(
        play(client, ClientCall::TakeOut(Wire::Main, 4096)),
        Told::Bytes
    )
}

pub fn is_noted(client: &mut ClientState, value: Value) -> bool {
    matches!(
        play(client, ClientCall::Got(Wire::Main, value)),
        Told::Noted
    )
}

fn is_answered(client: &mut ClientState, number: u64) -> bool {
    matches!(play(client, ClientCall::Poll(number)), Told::Answer)
}

/// The query for the key of that number is sent.
fn ask(alloc: Global, client: &mut ClientState, number: u64) -> Result<Option<u64>, NoMemory> {
    match query(alloc, number)? {
        Some(query) => Ok(sent(client, query)),
        None => Ok(None),
    }
}

/// A miss, its reply, and the answer to the caller.
fn fill(alloc: Global, client: &mut ClientState, number: u64) -> Result<bool, NoMemory> {
    let Some(number) = ask(alloc, client, number)? else {
        return Ok(false);
    };
    let value = content(alloc)?;
    Ok(goes_out(client) && is_noted(client, value) && is_answered(client, number))
}

/// The keys of these numbers are asked for the first time.
pub fn fills(
    alloc: Global,
    client: &mut ClientState,
    from: u64,
    times: u64,
) -> Result<u64, NoMemory> {
    let mut count = 0u64;
    for place in 0..times {
        if fill(alloc, client, from.saturating_add(place))? {
            count = count.saturating_add(1);
        }
    }
    Ok(count)
}

/// The keys below that number are asked for, and their queries go out.
pub fn asks(alloc: Global, client: &mut ClientState, keys: u64) -> Result<u64, NoMemory> {
    let mut count = 0u64;
    for number in 0..keys {
        if ask(alloc, client, number)?.is_some() {
            count = count.saturating_add(1);
        }
        goes_out(client);
    }
    Ok(count)
}

/// That many values.
pub fn contents(alloc: Global, times: u64) -> Result<Vec<Value>, NoMemory> {
    let mut values = Vec::new(alloc);
    for _ in 0..times {
        values.push(content(alloc)?)?;
    }
    Ok(values)
}

/// Numbers below `keys`, far from one another.
fn spread(place: u64, keys: u64) -> u64
    requires { 0 < keys }
{
    place.wrapping_mul(2654435761) % keys
}

/// Queries for keys below that number.
pub fn queries(alloc: Global, keys: u64, times: u64) -> Result<Vec<Query>, NoMemory>
    requires { 0 < keys }
{
    let mut queries = Vec::new(alloc);
    for place in 0..times {
        if let Some(query) = query(alloc, spread(place, keys))? {
            queries.push(query)?;
        }
    }
    Ok(queries)
}

/// How many of the queries are answered from the cache.
pub fn hits(client: &mut ClientState, queries: Vec<Query>) -> u64 {
    let mut count = 0u64;
    for query in queries {
        if is_hit(client, query) {
            count = count.saturating_add(1);
        }
    }
    count
}

fn is_blob(value: &Value) -> bool {
    matches!(value, Value::Blob(_))
}

/// The value is copied so many times.
pub fn copies(value: &Value, times: u64) -> Result<u64, NoMemory> {
    let mut count = 0u64;
    for _ in 0..times {
        if is_blob(&value.copy()?) {
            count = count.saturating_add(1);
        }
    }
    Ok(count)
}

/// Values far from one another are copied, in the order of `queries`.
pub fn copies_far_apart(values: &[Value], keys: u64, times: u64) -> Result<u64, NoMemory>
    requires { 0 < keys }
{
    let mut count = 0u64;
    for place in 0..times {
        if let Some(value) = values.get(spread(place, keys) as usize) {
            if is_blob(&value.copy()?) {
                count = count.saturating_add(1);
            }
        }
    }
    Ok(count)
}

/// Invalidations of the keys that were filled last.
pub fn changes(alloc: Global, keys: u64, times: u64) -> Result<Vec<Value>, NoMemory> {
    let mut values = Vec::new(alloc);
    let last = keys.saturating_add(times);
    for place in 0..times {
        values.push(change(alloc, last.saturating_sub(place.saturating_add(1)))?)?;
    }
    Ok(values)
}

/// How many of these values are noted.
pub fn notices(client: &mut ClientState, values: Vec<Value>) -> u64 {
    let mut count = 0u64;
    for value in values {
        if is_noted(client, value) {
            count = count.saturating_add(1);
        }
    }
    count
}

/// A command of ten words that the client doesn't know.
const TEN_WORDS: &[u8] = b"LPUSH key:1 key:2 key:3 key:4 key:5 key:6 key:7 key:8 key:9\r\n";

fn is_sent(reply: &ClientReply) -> bool {
    matches!(reply, ClientReply::Sent { .. })
}

/// How many of so many commands of ten words a client sends.
pub fn sends(alloc: Global, client: &mut LibraryClient, times: u64) -> Result<u64, NoMemory> {
    let mut count = 0u64;
    for _ in 0..times {
        if let Some(words) = read_words(alloc, TEN_WORDS)? {
            if is_sent(&client.send(words)) {
                count = count.saturating_add(1);
            }
        }
    }
    Ok(count)
}

/// And a client that lets the words go first.
pub fn guarded_sends(
    alloc: Global,
    client: &mut GuardedClient,
    times: u64,
) -> Result<u64, NoMemory> {
    let mut count = 0u64;
    for _ in 0..times {
        if let Some(words) = read_words(alloc, TEN_WORDS)? {
            if is_sent(&client.send(words)) {
                count = count.saturating_add(1);
            }
        }
    }
    Ok(count)
}

/// std's maps of the same keys.
#[derive(Drop)]
pub struct StdMaps {
    hash: HashMap<Vec<u8>, u64>,
    tree: BTreeMap<Vec<u8>, u64>,
}

impl StdMaps {
    pub fn new(alloc: Global, keys: u64) -> Result<StdMaps, NoMemory> {
        let mut maps = StdMaps {
            hash: HashMap::new(alloc),
            tree: BTreeMap::new(alloc),
        };
        for number in 0..keys {
            maps.insert(alloc, number)?;
        }
        Ok(maps)
    }

    fn insert(&mut self, alloc: Global, number: u64) -> Result<(), NoMemory> {
        self.hash.insert(key(alloc, number)?, number)?;
        self.tree.insert(key(alloc, number)?, number)?;
        Ok(())
    }

    pub fn hash_hits(&self, queries: &[Query]) -> u64 {
        let mut count = 0u64;
        for query in queries {
            if self.hash.get(query.key()).is_some() {
                count = count.saturating_add(1);
            }
        }
        count
    }

    pub fn tree_hits(&self, queries: &[Query]) -> u64 {
        let mut count = 0u64;
        for query in queries {
            if self.tree.get(query.key()).is_some() {
                count = count.saturating_add(1);
            }
        }
        count
    }
}
