//! The replies of commands, and the keys that they signal.
ghost use Rattle.std.specs.Prelude.{◌≡◌, [], ◌∷◌, IfOk, codes, option_map};
ghost use Rattle.resp_value.specs.declared.value.Value.TheVariants.{Blob, Error, Simple};
ghost use Rattle.command_words.specs.declared.command.Signalled.TheVariants.{Keys};
ghost use Rattle.command_words.specs.Effect.{blob_or_null, wrong_type, not_integer};
ghost use Rattle.command_words.specs.Effect.{hash_not_integer, overflow, too_long};

use command_words::{Done, Signalled};
use resp_value::{NoMemory, Octets, Value, Words};
use std::alloc::Global;

/// The reply OK.
pub fn ok(alloc: Global) -> Result<Value, NoMemory>
    ensures { IfOk result (λ v. v ≡ Simple (codes "OK")) }
{
    Ok(Value::Simple(Octets::from_slice(alloc, b"OK")?))
}

/// The bytes.
pub fn blob(alloc: Global, bytes: &[u8]) -> Result<Value, NoMemory>
    ensures { IfOk result (λ v. v ≡ Blob bytes.now) }
{
    Ok(Value::Blob(Octets::from_slice(alloc, bytes)?))
}

/// The bytes, or null where there are none.
pub fn blob_or_null(alloc: Global, value: Option<&Octets>) -> Result<Value, NoMemory>
    ensures { IfOk result (λ v. v ≡ blob_or_null (option_map (λ o. o.now) value.entry)) }
{
    match value {
        None => Ok(Value::Null),
        Some(bytes) => blob(alloc, bytes.as_slice()),
    }
}

/// The error reply of this text.
pub fn error(alloc: Global, text: &[u8]) -> Result<Value, NoMemory>
    ensures { IfOk result (λ v. v ≡ Error text.now) }
{
    Ok(Value::Error(Octets::from_slice(alloc, text)?))
}

pub fn wrong_type(alloc: Global) -> Result<Value, NoMemory>
    ensures { IfOk result (λ v. v ≡ wrong_type) }
{
    error(
        alloc,
        b"WRONGTYPE Operation against a key holding the wrong kind of value",
    )
}

pub fn not_integer(alloc: Global) -> Result<Value, NoMemory>
    ensures { IfOk result (λ v. v ≡ not_integer) }
{
    error(alloc, b"ERR value is not an integer or out of range")
}

pub fn hash_not_integer(alloc: Global) -> Result<Value, NoMemory>
    ensures { IfOk result (λ v. v ≡ hash_not_integer) }
{
    error(alloc, b"ERR hash value is not an integer")
}

pub fn overflow(alloc: Global) -> Result<Value, NoMemory>
    ensures { IfOk result (λ v. v ≡ overflow) }
{
    error(alloc, b"ERR increment or decrement would overflow")
}

pub fn too_long(alloc: Global) -> Result<Value, NoMemory>
    ensures { IfOk result (λ v. v ≡ too_long) }
{
    error(alloc, b"ERR string exceeds maximum allowed size")
}

/// A list of this key alone.
pub fn only(alloc: Global, key: &[u8]) -> Result<Words, NoMemory>
    ensures { IfOk result (λ keys. keys ≡ key.now ∷ []) }
{
    let mut keys = Words::new(alloc);
    keys.push(Octets::from_slice(alloc, key)?)?;
    Ok(keys)
}

/// A reply, where nothing changed.
pub fn replied(alloc: Global, reply: Value) -> Done
    ensures { result ≡ record { reply = reply; signalled = Keys [] } }
{
    wrote(reply, Words::new(alloc))
}

/// A reply, where these keys changed.
pub fn wrote(reply: Value, keys: Words) -> Done
    ensures { result ≡ record { reply = reply; signalled = Keys keys } }
{
    Done {
        reply,
        signalled: Signalled::Keys(keys),
    }
}
