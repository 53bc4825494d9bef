//! What connections are sent beside replies.
ghost use Rattle.std.specs.Prelude.{◌≡◌, ◌∷◌, [], IfOk, List, Option, Some, codes, filter, map};
ghost use Rattle.std.specs.Prelude.{nat_eq, option_map, ℕ};
ghost use Rattle.std.specs.List.{starts_with};
ghost use Rattle.redirect.specs.Messages.{keys_of, message_of, push_of};
ghost use Rattle.resp_value.specs.Tree.{blob};
ghost use Rattle.resp_value.specs.ValueTree.{tree_of};
ghost use Rattle.resp_value.specs.declared.value.Value.TheVariants.{Push};
ghost use Rattle.server_book.specs.Sendings.{told_keys};

use resp_value::{NoMemory, Octets, Value, Values};
use std::alloc::Global;
use track_modes::INVALIDATION_CHANNEL;

// The key alone, or null for all.
fn keys_of(alloc: Global, key: Option<&[u8]>) -> Result<Value, NoMemory>
    ensures { IfOk result (λ v. v ≡ keys_of (told_keys (option_map (λ k. k.now) key.entry))) }
{
    match key {
        Some(key) => {
            let mut keys = Values::new(alloc);
            keys.push(Value::Blob(Octets::from_slice(alloc, key)?))?;
            Ok(Value::Array(keys))
        }
        None => Ok(Value::Null),
    }
}

// The push that names these keys.
fn push_with(alloc: Global, keys: Value) -> Result<Value, NoMemory>
    ensures { IfOk result (λ v. v ≡ Push (blob (codes "invalidate") ∷ tree_of keys ∷ [])) }
{
    let mut parts = Values::new(alloc);
    parts.push(Value::Blob(Octets::from_slice(alloc, b"invalidate")?))?;
    parts.push(keys)?;
    Ok(Value::Push(parts))
}

/// What a connection that tracks is sent where a key is not what it was, or no key is.
pub fn push_of(alloc: Global, key: Option<&[u8]>) -> Result<Value, NoMemory>
    ensures { IfOk result (λ v. v ≡ push_of (told_keys (option_map (λ k. k.now) key.entry))) }
{
    push_with(alloc, keys_of(alloc, key)?)
}

/// The message of the channel that names the keys that a push names.
pub fn message_like(alloc: Global, push: &Value) -> Result<Value, NoMemory>
    ensures { IfOk result (λ v. (keys : Option (List (List ℕ)))
        → push.now ≡ push_of keys → v ≡ message_of keys) }
{
    let mut parts = Values::new(alloc);
    parts.push(Value::Blob(Octets::from_slice(alloc, b"message")?))?;
    parts.push(Value::Blob(Octets::from_slice(alloc, INVALIDATION_CHANNEL)?))?;
    if let Value::Push(said) = push {
        if let [_, keys] = said.as_slice() {
            parts.push(keys.copy()?)?;
        }
    }
    Ok(Value::Array(parts))
}

// Those of the keys that start with a prefix, as values.
fn blobs_under(alloc: Global, prefix: &[u8], keys: &[Octets]) -> Result<Values, NoMemory>
    ensures { IfOk result (λ v.
        v ≡ map blob (filter (λ key. starts_with nat_eq key prefix.now) keys.now)) }
{
    let mut blobs = Values::new(alloc);
    for key in keys {
        if key.as_slice().starts_with(prefix) {
            blobs.push(Value::Blob(key.copy()?))?;
        }
    }
    Ok(blobs)
}

/// What a connection that registered a prefix is sent where these keys are not what they were: one
/// push, of those of them that start with it.
pub fn push_under(alloc: Global, prefix: &[u8], keys: &[Octets]) -> Result<Value, NoMemory>
    ensures { IfOk result (λ v.
        v ≡ push_of (Some (filter (λ key. starts_with nat_eq key prefix.now) keys.now))) }
{
    push_with(alloc, Value::Array(blobs_under(alloc, prefix, keys)?))
}
