//! The commands on deadlines: EXPIRE with its three sisters, and PERSIST.
ghost use Rattle.std.specs.Prelude.{◌≡◌, is_some};
ghost use Rattle.command_words.specs.Space.{deadline_at};
ghost use Rattle.command_words.specs.Keys.{expiry_after, expiry_at, expire_effect, persist_effect};
ghost use Rattle.command_rows.specs.Rows.{IsRow};

use command_rows::{only, replied, wrote};
use command_words::Done;
use keyspace::Keyspace;
use resp_value::{NoMemory, Value};
use std::alloc::Global;

/// The deadline so many units after a moment; none where it is past at once.
pub fn expiry_after(moment: u64, unit: u64, number: i64) -> Option<u64>
    ensures { result ≡ expiry_after moment unit number }
{
    if number > 0 {
        Some(moment.saturating_add((number as u64).saturating_mul(unit)))
    } else {
        None
    }
}

/// The deadline at a time of so many units; none where it is past at once.
pub fn expiry_at(moment: u64, unit: u64, number: i64) -> Option<u64>
    ensures { result ≡ expiry_at moment unit number }
{
    if number <= 0 {
        return None;
    }
    let time = (number as u64).saturating_mul(unit);
    if moment < time { Some(time) } else { None }
}

/// The key takes a deadline, or goes where it is past at once.
pub(crate) fn expire(
    alloc: Global,
    space: &mut Keyspace,
    key: &[u8],
    expiry: Option<u64>,
) -> Result<Done, NoMemory>
    ensures { IsRow (expire_effect key.now expiry space.old) result space.old space.new }
{
    if space.get(key).is_none() {
        return Ok(replied(alloc, Value::Number(0)));
    }
    let keys = only(alloc, key)?;
    match expiry {
        None => {
            space.take(key);
        }
        Some(deadline) => {
            space.set_deadline(key, Some(deadline));
        }
    }
    Ok(wrote(Value::Number(1), keys))
}

/// Whether the key has a deadline.
fn has_deadline(space: &Keyspace, key: &[u8]) -> bool
    ensures { result ≡ is_some (deadline_at key.now space.now) }
{
    match space.get(key) {
        None => false,
        Some(held) => held.deadline.is_some(),
    }
}

pub(crate) fn persist(alloc: Global, space: &mut Keyspace, key: &[u8]) -> Result<Done, NoMemory>
    ensures { IsRow (persist_effect key.now space.old) result space.old space.new }
{
    if !has_deadline(space, key) {
        return Ok(replied(alloc, Value::Number(0)));
    }
    let keys = only(alloc, key)?;
    space.set_deadline(key, None);
    Ok(wrote(Value::Number(1), keys))
}
