//! The commands that read hashes: HGET, HMGET, HGETALL, HLEN, HEXISTS, HKEYS and HVALS.
//!
//! A missing key reads as a hash without fields.
ghost use Rattle.std.specs.Prelude.{◌≡◌, ◌<◌, IfOk, Some, is_some, length, map, slice_get, pos};
ghost use Rattle.std.specs.Prelude.{if◌then◌else◌};
ghost use Rattle.resp_value.specs.declared.value.Value.TheVariants.{Blob, Number};
ghost use Rattle.resp_value.specs.ValueTree.{tree_of};
ghost use Rattle.command_words.specs.Effect.{blob_or_null};
ghost use Rattle.command_words.specs.Hashes.{field_get, hget_reply, hmget_reply, hgetall_reply};
ghost use Rattle.command_words.specs.Hashes.{hlen_reply, hexists_reply, hkeys_reply, hvals_reply};

use command_rows::{blob, blob_or_null, wrong_type};
use keyspace::{Content, Fields, Keyspace};
use resp_value::{NoMemory, Octets, Pairs, Value, Values};
use std::alloc::Global;

pub(crate) fn hget(
    alloc: Global,
    space: &Keyspace,
    key: &[u8],
    field: &[u8],
) -> Result<Value, NoMemory>
    ensures { IfOk result (λ v. v ≡ hget_reply key.now field.now space.now) }
{
    match space.get(key) {
        None => Ok(Value::Null),
        Some(held) => match &held.content {
            Content::Fields(fields) => blob_or_null(alloc, fields.get(field)),
            Content::Text(_) => wrong_type(alloc),
        },
    }
}

/// The value of each of these fields, or null.
fn values_of(alloc: Global, fields: &Fields, names: &[Octets]) -> Result<Values, NoMemory>
    ensures { IfOk result
        (λ vs. vs ≡ map (λ name. tree_of (blob_or_null (field_get name fields.now))) names.now) }
{
    let mut values = Values::new(alloc);
    for name in names {
        values.push(blob_or_null(alloc, fields.get(name.as_slice()))?)?;
    }
    Ok(values)
}

pub(crate) fn hmget(
    alloc: Global,
    space: &Keyspace,
    key: &[u8],
    names: &[Octets],
) -> Result<Value, NoMemory>
    ensures { IfOk result (λ v. v ≡ hmget_reply key.now names.now space.now) }
{
    match space.get(key) {
        None => Ok(Value::Array(values_of(alloc, &Fields::new(alloc), names)?)),
        Some(held) => match &held.content {
            Content::Fields(fields) => Ok(Value::Array(values_of(alloc, fields, names)?)),
            Content::Text(_) => wrong_type(alloc),
        },
    }
}

/// The field at a place, with its value.
fn field_at(fields: &Fields, place: usize) -> (&[u8], &Octets)
    requires { place < length fields.now }
    ensures { slice_get fields.now place ≡ Some (result.0.now, result.1.now) }
{
    match fields.at(place) {
        Some(pair) => pair,
        None => unreachable!(),
    }
}

/// The fields with their values, in order.
fn pairs_of(alloc: Global, fields: &Fields) -> Result<Pairs, NoMemory>
    ensures { IfOk result
        (λ ps. ps ≡ map (λ f. (tree_of (Blob f.0), tree_of (Blob f.1))) fields.now) }
{
    let mut pairs = Pairs::new(alloc);
    for place in 0..fields.len() as usize {
        let (name, value) = field_at(fields, place);
        pairs.push(blob(alloc, name)?, blob(alloc, value.as_slice())?)?;
    }
    Ok(pairs)
}

/// The names of the fields, in order.
fn names_of(alloc: Global, fields: &Fields) -> Result<Values, NoMemory>
    ensures { IfOk result (λ vs. vs ≡ map (λ f. tree_of (Blob f.0)) fields.now) }
{
    let mut values = Values::new(alloc);
    for place in 0..fields.len() as usize {
        values.push(blob(alloc, field_at(fields, place).0)?)?;
    }
    Ok(values)
}

/// The values of the fields, in order.
fn all_values_of(alloc: Global, fields: &Fields) -> Result<Values, NoMemory>
    ensures { IfOk result (λ vs. vs ≡ map (λ f. tree_of (Blob f.1)) fields.now) }
{
    let mut values = Values::new(alloc);
    for place in 0..fields.len() as usize {
        values.push(blob(alloc, field_at(fields, place).1.as_slice())?)?;
    }
    Ok(values)
}

pub(crate) fn hgetall(alloc: Global, space: &Keyspace, key: &[u8]) -> Result<Value, NoMemory>
    ensures { IfOk result (λ v. v ≡ hgetall_reply key.now space.now) }
{
    match space.get(key) {
        None => Ok(Value::Map(Pairs::new(alloc))),
        Some(held) => match &held.content {
            Content::Fields(fields) => Ok(Value::Map(pairs_of(alloc, fields)?)),
            Content::Text(_) => wrong_type(alloc),
        },
    }
}

pub(crate) fn hlen(alloc: Global, space: &Keyspace, key: &[u8]) -> Result<Value, NoMemory>
    ensures { IfOk result (λ v. v ≡ hlen_reply key.now space.now) }
{
    match space.get(key) {
        None => Ok(Value::Number(0)),
        Some(held) => match &held.content {
            Content::Fields(fields) => Ok(Value::Number(fields.len() as i64)),
            Content::Text(_) => wrong_type(alloc),
        },
    }
}

/// Whether the field is there, as a reply.
fn presence(fields: &Fields, field: &[u8]) -> Value
    ensures { result
        ≡ Number (pos (if is_some (field_get field.now fields.now) then 1 else 0)) }
{
    if fields.get(field).is_some() {
        Value::Number(1)
    } else {
        Value::Number(0)
    }
}

pub(crate) fn hexists(
    alloc: Global,
    space: &Keyspace,
    key: &[u8],
    field: &[u8],
) -> Result<Value, NoMemory>
    ensures { IfOk result (λ v. v ≡ hexists_reply key.now field.now space.now) }
{
    match space.get(key) {
        None => Ok(Value::Number(0)),
        Some(held) => match &held.content {
            Content::Fields(fields) => Ok(presence(fields, field)),
            Content::Text(_) => wrong_type(alloc),
        },
    }
}

pub(crate) fn hkeys(alloc: Global, space: &Keyspace, key: &[u8]) -> Result<Value, NoMemory>
    ensures { IfOk result (λ v. v ≡ hkeys_reply key.now space.now) }
{
    match space.get(key) {
        None => Ok(Value::Array(Values::new(alloc))),
        Some(held) => match &held.content {
            Content::Fields(fields) => Ok(Value::Array(names_of(alloc, fields)?)),
            Content::Text(_) => wrong_type(alloc),
        },
    }
}

pub(crate) fn hvals(alloc: Global, space: &Keyspace, key: &[u8]) -> Result<Value, NoMemory>
    ensures { IfOk result (λ v. v ≡ hvals_reply key.now space.now) }
{
    match space.get(key) {
        None => Ok(Value::Array(Values::new(alloc))),
        Some(held) => match &held.content {
            Content::Fields(fields) => Ok(Value::Array(all_values_of(alloc, fields)?)),
            Content::Text(_) => wrong_type(alloc),
        },
    }
}
