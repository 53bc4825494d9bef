//! The commands that read strings: GET, STRLEN, GETRANGE and MGET.
ghost use Rattle.std.specs.Prelude.{◌≡◌, IfOk};
ghost use Rattle.command_words.specs.Strings.{get_reply, strlen_reply, getrange_reply};
ghost use Rattle.command_words.specs.Strings.{mget_reply, on_text, place_of, range_of};
ghost use Rattle.command_words.specs.Effect.{blob_or_null};
ghost use Rattle.command_words.specs.Space.{content_at};
ghost use Rattle.resp_value.specs.declared.value.Value.TheVariants.{Null};

use command_rows::{blob, wrong_type};
use keyspace::{Content, Keyspace};
use resp_value::{NoMemory, Octets, Value, Values};
use std::alloc::Global;

pub(crate) fn get(alloc: Global, space: &Keyspace, key: &[u8]) -> Result<Value, NoMemory>
    ensures { IfOk result (λ v. v ≡ get_reply key.now space.now) }
{
    match space.get(key) {
        None => Ok(Value::Null),
        Some(held) => match &held.content {
            Content::Text(text) => blob(alloc, text.as_slice()),
            Content::Fields(_) => wrong_type(alloc),
        },
    }
}

pub(crate) fn strlen(alloc: Global, space: &Keyspace, key: &[u8]) -> Result<Value, NoMemory>
    ensures { IfOk result (λ v. v ≡ strlen_reply key.now space.now) }
{
    match space.get(key) {
        None => Ok(Value::Number(0)),
        Some(held) => match &held.content {
            Content::Text(text) => Ok(Value::Number(text.as_slice().len() as i64)),
            Content::Fields(_) => wrong_type(alloc),
        },
    }
}

/// The place that a position names: a negative one counts from the end, and stops at the first.
fn place(position: i64, len: usize) -> usize
    ensures { result ≡ place_of position len }
{
    if position >= 0 {
        position as usize
    } else {
        len.saturating_sub(position.unsigned_abs() as usize)
    }
}

/// The bytes from one position to another, the last one within.
fn range(value: &[u8], a: i64, b: i64) -> &[u8]
    ensures { result.now ≡ range_of a b value.now }
{
    if a < 0 && b < 0 && b < a {
        return &value[..0];
    }
    let first = place(a, value.len());
    let end = place(b, value.len()).saturating_add(1).min(value.len());
    if first < end {
        &value[first..end]
    } else {
        &value[..0]
    }
}

pub(crate) fn getrange(
    alloc: Global,
    space: &Keyspace,
    key: &[u8],
    a: i64,
    b: i64,
) -> Result<Value, NoMemory>
    ensures { IfOk result (λ v. v ≡ getrange_reply key.now a b space.now) }
{
    match space.get(key) {
        None => blob(alloc, range(b"", a, b)),
        Some(held) => match &held.content {
            Content::Text(text) => blob(alloc, range(text.as_slice(), a, b)),
            Content::Fields(_) => wrong_type(alloc),
        },
    }
}

/// The string of the key, and null where it holds none.
fn text_or_null(alloc: Global, space: &Keyspace, key: &[u8]) -> Result<Value, NoMemory>
    ensures { IfOk result
        (λ v. v ≡ on_text Null blob_or_null (content_at key.now space.now)) }
{
    match space.get(key) {
        None => Ok(Value::Null),
        Some(held) => match &held.content {
            Content::Text(text) => blob(alloc, text.as_slice()),
            Content::Fields(_) => Ok(Value::Null),
        },
    }
}

pub(crate) fn mget(alloc: Global, space: &Keyspace, keys: &[Octets]) -> Result<Value, NoMemory>
    ensures { IfOk result (λ v. v ≡ mget_reply keys.now space.now) }
{
    let mut values = Values::new(alloc);
    for key in keys {
        values.push(text_or_null(alloc, space, key.as_slice())?)?;
    }
    Ok(Value::Array(values))
}
