//! std's map of the same keys under a mutex, and threads that look them up.
ghost use Rattle.std.specs.Prelude.{◌≡◌, ◌<◌, ◌≤◌, ◌*◌, ℕ, max, Some, IfOk};
ghost use Rattle.std.specs.Str.{bytes_eq};
ghost use Rattle.std.specs.HashMap.{get_by};
ghost use Rattle.std.specs.Thread.{IsSync};
ghost use Rattle.script_bench.specs.Asks.{key_of};
ghost use Rattle.script_bench.specs.Filled.{content_is};

use super::client::{content, key, spread};
use resp_value::{NoMemory, Value};
use std::alloc::Global;
use std::collections::HashMap;
use std::sync::{Mutex, Wait};
use std::thread::{Threads, join};

/// A map in which each key below that number has the content.
pub fn map_of(alloc: Global, keys: u64) -> Result<HashMap<Vec<u8>, Value>, NoMemory>
    ensures { IfOk result (λ m. (n : ℕ) → n < keys
        → get_by (λ k. bytes_eq (key_of n) k.items) m ≡ Some content_is) }
{
    let mut map = HashMap::new(alloc);
    for number in 0..keys {
        map.insert(key(alloc, number)?, content(alloc)?)?;
    }
    Ok(map)
}

// A copy of what the map has, as a hit gives one.
fn copy_of(map: &HashMap<Vec<u8>, Value>, key: &[u8]) -> Result<Option<Value>, NoMemory>
    ensures { IfOk result (λ v. v ≡ get_by (λ k. bytes_eq key.now k.items) map.now) }
{
    match map.get(key) {
        Some(value) => Ok(Some(value.copy()?)),
        None => Ok(None),
    }
}

// Looks the key of that number up once; the answer is 1 where the map has it.
fn find<R: Wait>(rt: &R, alloc: Global, map: &Mutex<HashMap<Vec<u8>, Value>>, number: u64) -> u64
    ensures { result ≤ 1 }
{
    let Ok(key) = key(alloc, number) else {
        return 0;
    };
    match copy_of(&map.lock(rt), key.as_slice()) {
        Ok(Some(_)) => 1,
        Ok(None) => 0,
        Err(_) => 0,
    }
}

fn find_often<R: Wait>(
    rt: &R,
    alloc: Global,
    map: &Mutex<HashMap<Vec<u8>, Value>>,
    keys: u64,
    times: u64,
) -> u64
    requires { 0 < keys }
    ensures { result ≤ times }
{
    let mut found = 0u64;
    for place in 0..times {
        found = found.saturating_add(find(rt, alloc, map, spread(place, keys)));
    }
    found
}

/// So many threads look keys up, each so many times.
pub fn find_in_threads<R: Threads + Wait + Sync>(
    rt: &R,
    alloc: Global,
    map: &Mutex<HashMap<Vec<u8>, Value>>,
    keys: u64,
    times: u64,
    threads: u64,
) -> u64
    requires { 0 < keys }
    ensures { result ≤ max threads 1 * times }
{
    if threads <= 1 {
        return find_often(rt, alloc, map, keys, times);
    }
    let left = threads - 1;
    let (mine, others) = join(
        rt,
        || -> u64
            requires { IsSync R.row × (0 < keys) }
            ensures { result ≤ times }
        { find_often(rt, alloc, map, keys, times) },
        || -> u64
            requires { IsSync R.row × (0 < keys) }
            ensures { result ≤ max left 1 * times }
        { find_in_threads(rt, alloc, map, keys, times, left) },
    );
    mine.saturating_add(others)
}
