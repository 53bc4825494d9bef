//! The keys that a command names and that are there.
ghost use Rattle.std.specs.Prelude.{◌≡◌, ◌<◌, ◌^◌, [], IfOk, OnOk, is_some, length};
ghost use Rattle.std.specs.List.{filter};
ghost use Rattle.std.specs.FinMap.{contains_key};
ghost use Rattle.command_words.specs.Keys.{there};
ghost use Rattle.command_words.specs.Hashes.{field_get, field_set};
ghost use Rattle.key_cmds.specs.Met.{with_new};

use keyspace::{Fields, Keyspace};
use resp_value::{NoMemory, Octets, Words};
use std::alloc::Global;

/// Whether the key is there.
pub(crate) fn is_there(space: &Keyspace, key: &Octets) -> bool
    ensures { result ≡ contains_key space.now key.now }
{
    space.get(key.as_slice()).is_some()
}

/// The key goes last, where it was not met yet.
fn push_new(alloc: Global, key: &Octets, met: &mut Fields, keys: &mut Words) -> Result<(), NoMemory>
    ensures met { OnOk result (met.new ≡ field_set key.now [] met.old) }
    ensures keys { OnOk result (keys.new
        ≡ with_new (is_some (field_get key.now met.old)) key.now keys.old) }
{
    if met.set(key.as_slice(), Octets::from_slice(alloc, b"")?)? {
        keys.push(key.copy()?)?;
    }
    Ok(())
}

/// Those of the keys that are there, each once, in order.
pub(crate) fn those_there(
    alloc: Global,
    space: &Keyspace,
    words: &[Octets],
) -> Result<Words, NoMemory>
    ensures { IfOk result (λ keys. keys ≡ there words.now space.now) }
{
    // A hash whose fields are the keys met so far finds a repeated one without a scan.
    let mut met = Fields::new(alloc);
    let mut keys = Words::new(alloc);
    for key in words {
        if is_there(space, key) {
            push_new(alloc, key, &mut met, &mut keys)?;
        }
    }
    Ok(keys)
}

/// How many of the words name a key that is there.
pub(crate) fn count_there(space: &Keyspace, words: &[Octets]) -> usize
    ensures count { result ≡ length (filter (contains_key space.now) words.now) }
    ensures small { result < 2 ^ 63 }
{
    let mut count = 0;
    for key in words {
        if is_there(space, key) {
            count += 1;
        }
    }
    count
}
