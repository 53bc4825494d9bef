//! Queries and replies over numbered keys.
ghost use Rattle.std.specs.Prelude.{◌≡◌, IfOk, length};
ghost use Rattle.shared_cache.specs.ClientFields.{IsOneLink};

use command_words::Query;
use resp_value::{NoMemory, Octets, Pairs, Proto, Value, Values, Words};
use shared_cache::{Caching, ClientMode, Shape};
use std::alloc::Global;

/// The mode by default, on one link.
pub fn mode() -> ClientMode
    ensures { IsOneLink result }
{
    ClientMode {
        shape: Shape::Single,
        proto: Proto::Three,
        caching: Caching::Default,
        noloop: false,
    }
}

/// The answers to the handshake.
pub fn welcome(alloc: Global) -> Result<(Value, Value), NoMemory> {
    let accepted = Octets::from_slice(alloc, b"OK")?;
    Ok((Value::Map(Pairs::new(alloc)), Value::Simple(accepted)))
}

/// The key of that number, of 16 bytes.
pub fn key(alloc: Global, number: u64) -> Result<Vec<u8>, NoMemory> {
    let mut bytes = Vec::from_slice(alloc, b"key:")?;
    let mut rest = number;
    for _ in 0..12 {
        let digit = (rest % 10) as u8;
        bytes.push(b'0' + digit)?;
        rest /= 10;
    }
    Ok(bytes)
}

/// The query for that key.
pub fn query(alloc: Global, number: u64) -> Result<Option<Query>, NoMemory> {
    let mut words = Words::new(alloc);
    words.push(Octets::from_slice(alloc, b"GET")?)?;
    words.push(Octets::from_vec(key(alloc, number)?))?;
    Query::read(alloc, &words)
}

/// What each key has: 64 bytes.
const CONTENT: &[u8] = b"0123456789abcdef0123456789abcdef0123456789abcdef0123456789abcdef";

pub fn content(alloc: Global) -> Result<Value, NoMemory> {
    Ok(Value::Blob(Octets::from_slice(alloc, CONTENT)?))
}

fn invalidation(alloc: Global, keys: Value) -> Result<Value, NoMemory> {
    let mut values = Values::new(alloc);
    values.push(Value::Blob(Octets::from_slice(alloc, b"invalidate")?))?;
    values.push(keys)?;
    Ok(Value::Push(values))
}

/// The invalidation of that key.
pub fn change(alloc: Global, number: u64) -> Result<Value, NoMemory> {
    let mut keys = Values::new(alloc);
    keys.push(Value::Blob(Octets::from_vec(key(alloc, number)?)))?;
    invalidation(alloc, Value::Array(keys))
}

/// The invalidation of every key, alone in a list.
pub fn change_of_all(alloc: Global) -> Result<Vec<Value>, NoMemory> {
    let mut values = Vec::new(alloc);
    values.push(invalidation(alloc, Value::Null)?)?;
    Ok(values)
}
