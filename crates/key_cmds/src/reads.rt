//! The commands that read: EXISTS, TYPE, TTL, PTTL and DBSIZE.
ghost use Rattle.std.specs.Prelude.{◌≡◌, ◌-◌, IfOk, min};
ghost use Rattle.command_words.specs.Keys.{exists_reply, type_reply, ttl_reply, dbsize_reply};
ghost use Rattle.command_words.specs.Keys.{in_seconds, in_millis};

use super::listed::count_there;
use keyspace::{Content, Keyspace};
use resp_value::{NoMemory, Octets, Value};
use std::alloc::Global;

pub(crate) fn exists(space: &Keyspace, words: &[Octets]) -> Value
    ensures { result ≡ exists_reply words.now space.now }
{
    Value::Number(count_there(space, words) as i64)
}

pub(crate) fn key_type(alloc: Global, space: &Keyspace, key: &[u8]) -> Result<Value, NoMemory>
    ensures { IfOk result (λ v. v ≡ type_reply key.now space.now) }
{
    let name = match space.get(key) {
        None => Octets::from_slice(alloc, b"none")?,
        Some(held) => match &held.content {
            Content::Text(_) => Octets::from_slice(alloc, b"string")?,
            Content::Fields(_) => Octets::from_slice(alloc, b"hash")?,
        },
    };
    Ok(Value::Simple(name))
}

/// The milliseconds from a moment to a deadline, at most the greatest number of a reply.
fn millis_left(deadline: u64, moment: u64) -> u64
    ensures { result ≡ min (deadline - moment) 9223372036854775807 }
{
    deadline.saturating_sub(moment).min(i64::MAX as u64)
}

pub(crate) fn ttl(space: &Keyspace, key: &[u8], moment: u64) -> Value
    ensures { result ≡ ttl_reply in_seconds key.now space.now moment }
{
    match space.get(key) {
        None => Value::Number(-2),
        Some(held) => match held.deadline {
            None => Value::Number(-1),
            Some(deadline) => Value::Number(((millis_left(deadline, moment) + 500) / 1000) as i64),
        },
    }
}

pub(crate) fn pttl(space: &Keyspace, key: &[u8], moment: u64) -> Value
    ensures { result ≡ ttl_reply in_millis key.now space.now moment }
{
    match space.get(key) {
        None => Value::Number(-2),
        Some(held) => match held.deadline {
            None => Value::Number(-1),
            Some(deadline) => Value::Number(millis_left(deadline, moment) as i64),
        },
    }
}

pub(crate) fn dbsize(space: &Keyspace) -> Value
    ensures { result ≡ dbsize_reply space.now }
{
    Value::Number(space.len() as i64)
}
