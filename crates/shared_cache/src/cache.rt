//! What turns do to the marks of fetches and to the keys that are held.
ghost use Rattle.std.specs.Prelude.{◌≡◌, [], List, ℕ, OnOk, OnErr, if◌then◌else◌, not};
ghost use Rattle.std.specs.List.{filter};
ghost use Rattle.command_words.specs.Queries.{key_of, names};
ghost use Rattle.fill_mark.specs.Marks.{with_mark, query_marked, without_number};
ghost use Rattle.std.specs.Prelude.{option_copied};
ghost use Rattle.shared_cache.specs.HeldKeys.{with_pairs, forgotten, without_named, put_beside};
ghost use Rattle.shared_cache.specs.HeldKeys.{answered_keys};

use super::entry::CacheEntry;
use super::held_keys::HeldKeys;
use command_words::{Query, Written};
use fill_mark::Marks;
use resp_value::{NoMemory, Value};
use std::alloc::Global;

/// Nothing is marked and nothing is held any more.
pub fn forget_all(marks: &mut Marks, keys: &mut HeldKeys)
    ensures marks { marks.new ≡ [] }
    ensures keys { keys.new ≡ with_pairs [] keys.old }
{
    marks.void_all();
    keys.clear();
}

/// What is written goes, from marks and cache. The marks are looked at once for each key.
pub fn invalidate(marks: &mut Marks, keys: &mut HeldKeys, written: &Written)
    ensures marks { marks.new ≡ filter (λ m. not (names written.now (key_of m.query))) marks.old }
    ensures keys { keys.new ≡ with_pairs (forgotten written.now keys.old.pairs) keys.old }
{
    keys.invalidate(written);
    match written {
        Written::Keys(keys) => {
            for key in keys.as_slice() {
                marks.void_key(key.as_slice());
            }
        }
        Written::All => marks.void_all(),
    }
}

// What is held of these keys goes.
fn forget_named(keys: &mut HeldKeys, named: Option<&Written>)
    ensures { keys.new ≡ without_named (option_copied named.entry) keys.old }
{
    match named {
        Some(named) => keys.invalidate(named),
        None => {}
    }
}

fn put(
    alloc: Global,
    entry: CacheEntry,
    named: Option<&Written>,
    keys: &mut HeldKeys,
) -> Result<(), NoMemory>
    ensures ok { OnOk result (keys.new ≡ put_beside (option_copied named.entry) entry keys.old) }
    ensures err { OnErr result (keys.new ≡ keys.old) }
{
    match named {
        Some(_) => keys.put_alone(alloc, entry),
        None => keys.put(alloc, entry),
    }
}

/// Where the fetch of that number has its mark, the reply to it is held. Of two links, where the
/// keys that its command names are given, it is all that is held of its key; and where it has no
/// mark, what is held of these keys goes.
pub fn refill(
    alloc: Global,
    number: u64,
    value: &Value,
    named: Option<&Written>,
    marks: &mut Marks,
    keys: &mut HeldKeys,
) -> Result<(), NoMemory>
    ensures marks { OnOk result (marks.new ≡ without_number number marks.old) }
    ensures keys { OnOk result (keys.new ≡ answered_keys (option_copied named.entry)
        (query_marked number marks.old) number value.now keys.old) }
    ensures err { OnErr result ((marks.new ≡ marks.old) × (keys.new ≡ keys.old)) }
{
    let query = match marks.query_of(number) {
        Some(query) => query.copy()?,
        None => {
            forget_named(keys, named);
            return Ok(());
        }
    };
    let value = value.copy()?;
    let entry = CacheEntry {
        query,
        value,
        number,
    };
    put(alloc, entry, named, keys)?;
    let _ = marks.settle(number);
    Ok(())
}

/// A mark for the fetch of that number where it has caching on.
pub fn mark(marks: &mut Marks, on: bool, number: u64, query: Query) -> Result<(), NoMemory>
    ensures ok { OnOk result
        (marks.new ≡ (if on then with_mark number query marks.old else marks.old)) }
    ensures err { OnErr result (marks.new ≡ marks.old) }
{
    if on {
        marks.begin(number, query)
    } else {
        Ok(())
    }
}
