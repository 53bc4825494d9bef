//! The commands that write strings: SET, SETNX, GETDEL, APPEND and MSET.
//!
//! All that may fail comes before the keyspace changes.
ghost use Rattle.std.specs.Prelude.{◌≡◌, IfOk, OnOk, OnErr, None, option_map};
ghost use Rattle.std.specs.FinMap.{contains_key};
ghost use Rattle.command_words.specs.Space.{content_at, deadline_at};
ghost use Rattle.command_words.specs.Strings.{moment_after, set_deadline, set_effect, sets};
ghost use Rattle.command_words.specs.Strings.{setnx_effect, getdel_effect, append_effect};
ghost use Rattle.command_words.specs.Strings.{mset_effect, put_text};
ghost use Rattle.string_cmds.specs.Counted.{IsKept};
ghost use Rattle.string_cmds.specs.Extended.{HasText, IsLonger, IsExtended};
ghost use Rattle.string_cmds.specs.Taken.{IsTaken};
ghost use Rattle.keyspace.specs.Plain.{content_of, held_of};
ghost use Rattle.command_rows.specs.Rows.{IsRow};

use super::keys::each_key_once;
use super::reads::get;
use command_rows::{ok, only, replied, too_long, wrong_type, wrote};
use command_words::{Done, SetLife, SetWhen};
use keyspace::{Content, Held, Keyspace};
use resp_value::{NoMemory, Octets, Value};
use std::alloc::Global;

/// The most bytes of a string.
const MOST_BYTES: usize = 16_777_216;

/// Whether SET with this option sets the key, which is looked up only where that decides it.
fn is_set(space: &Keyspace, key: &[u8], when: SetWhen) -> bool
    ensures { result ≡ sets when (contains_key space.now key.now) }
{
    match when {
        SetWhen::Always => true,
        SetWhen::Nx => space.get(key).is_none(),
        SetWhen::Xx => space.get(key).is_some(),
    }
}

/// So many units of milliseconds after a moment, and at most the last moment.
pub fn moment_after(moment: u64, unit: u64, number: i64) -> u64
    ensures { result ≡ moment_after moment unit number }
{
    let length = number.unsigned_abs().saturating_mul(unit);
    if number >= 0 {
        moment.saturating_add(length)
    } else {
        moment.saturating_sub(length)
    }
}

/// The deadline of the key.
fn deadline_of(space: &Keyspace, key: &[u8]) -> Option<u64>
    ensures { result ≡ deadline_at key.now space.now }
{
    match space.get(key) {
        None => None,
        Some(held) => held.deadline,
    }
}

/// The deadline that SET leaves; the one that the key had is looked up only where it stays.
fn deadline_after(space: &Keyspace, key: &[u8], life: SetLife, moment: u64) -> Option<u64>
    ensures { result ≡ set_deadline life moment (deadline_at key.now space.now) }
{
    match life {
        SetLife::Cleared => None,
        SetLife::Seconds(number) => Some(moment_after(moment, 1000, number)),
        SetLife::Millis(number) => Some(moment_after(moment, 1, number)),
        SetLife::Kept => deadline_of(space, key),
    }
}

/// The key holds this string.
pub(crate) fn put_text(
    space: &mut Keyspace,
    key: &[u8],
    text: Octets,
    deadline: Option<u64>,
) -> Result<(), NoMemory>
    ensures ok { OnOk result (space.new ≡ put_text key.now text deadline space.old) }
    ensures err { OnErr result (space.new ≡ space.old) }
{
    let content = Content::Text(text);
    space.put(key, Held { content, deadline })
}

/// SET, with what the key held, where it changed.
pub fn set_text(
    alloc: Global,
    space: &mut Keyspace,
    key: &[u8],
    value: &Octets,
    when: SetWhen,
    life: SetLife,
    moment: u64,
) -> Result<(Done, Option<Option<Held>>), NoMemory>
    ensures reply { IfOk result (λ r. r.0.reply
        ≡ (set_effect key.now value.now when life space.old moment).reply) }
    ensures signals { IfOk result (λ r. r.0.signalled
        ≡ (set_effect key.now value.now when life space.old moment).signalled) }
    ensures space { OnOk result
        (space.new ≡ (set_effect key.now value.now when life space.old moment).space) }
    ensures kept { IfOk result (λ r.
        IsKept key.now (option_map (λ had. option_map held_of had) r.1) space.old space.new) }
    ensures err { OnErr result (space.new ≡ space.old) }
{
    if !is_set(space, key, when) {
        return Ok((replied(alloc, Value::Null), None));
    }
    let reply = ok(alloc)?;
    let keys = only(alloc, key)?;
    let deadline = deadline_after(space, key, life, moment);
    let content = Content::Text(value.copy()?);
    let had = space.replace(key, Held { content, deadline })?;
    Ok((wrote(reply, keys), Some(had)))
}

pub(crate) fn set(
    alloc: Global,
    space: &mut Keyspace,
    key: &[u8],
    value: &Octets,
    when: SetWhen,
    life: SetLife,
    moment: u64,
) -> Result<Done, NoMemory>
    ensures { IsRow (set_effect key.now value.now when life space.old moment)
        result space.old space.new }
{
    let (done, _had) = set_text(alloc, space, key, value, when, life, moment)?;
    Ok(done)
}

pub(crate) fn setnx(
    alloc: Global,
    space: &mut Keyspace,
    key: &[u8],
    value: &Octets,
) -> Result<Done, NoMemory>
    ensures { IsRow (setnx_effect key.now value.now space.old) result space.old space.new }
{
    if space.get(key).is_some() {
        return Ok(replied(alloc, Value::Number(0)));
    }
    let keys = only(alloc, key)?;
    put_text(space, key, value.copy()?, None)?;
    Ok(wrote(Value::Number(1), keys))
}

/// GETDEL, with what the key held, where it went. The reply is a copy of the string.
pub fn take_text(
    alloc: Global,
    space: &mut Keyspace,
    key: &[u8],
) -> Result<(Done, Option<Held>), NoMemory>
    ensures reply { IfOk result (λ r. r.0.reply ≡ (getdel_effect key.now space.old).reply) }
    ensures signals { IfOk result (λ r.
        r.0.signalled ≡ (getdel_effect key.now space.old).signalled) }
    ensures space { OnOk result (space.new ≡ (getdel_effect key.now space.old).space) }
    ensures taken { IfOk result (λ r.
        IsTaken key.now (option_map held_of r.1) space.old space.new) }
    ensures err { OnErr result (space.new ≡ space.old) }
{
    let reply = get(alloc, space, key)?;
    if let Value::Blob(_) = &reply {
        let keys = only(alloc, key)?;
        let held = space.take(key);
        return Ok((wrote(reply, keys), held));
    }
    Ok((replied(alloc, reply), None))
}

pub(crate) fn getdel(alloc: Global, space: &mut Keyspace, key: &[u8]) -> Result<Done, NoMemory>
    ensures { IsRow (getdel_effect key.now space.old) result space.old space.new }
{
    let (done, _held) = take_text(alloc, space, key)?;
    Ok(done)
}

/// The bytes go after those of the string.
fn extend(content: &mut Content, bytes: &[u8]) -> Result<(), NoMemory>
    ensures ok { OnOk result
        (IsLonger bytes.now (content_of content.old) (content_of content.new)) }
    ensures err { OnErr result (content.new ≡ content.old) }
{
    match content {
        Content::Text(text) => text.append(bytes),
        Content::Fields(_) => Ok(()),
    }
}

/// The bytes go after those of the string of this key, in place.
fn extend_text(space: &mut Keyspace, key: &[u8], bytes: &[u8]) -> Result<(), NoMemory>
    ensures ok { OnOk result (IsExtended key.now bytes.now space.old space.new) }
    ensures err { OnErr result (space.new ≡ space.old) }
{
    match space.content_mut(key) {
        Some(content) => extend(content, bytes),
        None => Ok(()),
    }
}

/// APPEND to a key that is missing.
fn append_first(
    alloc: Global,
    space: &mut Keyspace,
    key: &[u8],
    value: &Octets,
) -> Result<Done, NoMemory>
    requires { content_at key.now space.old ≡ None }
    ensures { IsRow (append_effect key.now value.now space.old) result space.old space.new }
{
    let len = value.as_slice().len();
    if len > MOST_BYTES {
        return Ok(replied(alloc, too_long(alloc)?));
    }
    let keys = only(alloc, key)?;
    put_text(space, key, value.copy()?, None)?;
    Ok(wrote(Value::Number(len as i64), keys))
}

/// APPEND to a string of this length.
fn append_more(
    alloc: Global,
    space: &mut Keyspace,
    key: &[u8],
    had: usize,
    value: &Octets,
) -> Result<Done, NoMemory>
    requires { HasText had (content_at key.now space.old) }
    ensures { IsRow (append_effect key.now value.now space.old) result space.old space.new }
{
    let bytes = value.as_slice();
    if had > MOST_BYTES || bytes.len() > MOST_BYTES - had {
        return Ok(replied(alloc, too_long(alloc)?));
    }
    let keys = only(alloc, key)?;
    extend_text(space, key, bytes)?;
    Ok(wrote(Value::Number((had + bytes.len()) as i64), keys))
}

pub(crate) fn append(
    alloc: Global,
    space: &mut Keyspace,
    key: &[u8],
    value: &Octets,
) -> Result<Done, NoMemory>
    ensures { IsRow (append_effect key.now value.now space.old) result space.old space.new }
{
    match space.get(key) {
        None => append_first(alloc, space, key, value),
        Some(held) => match &held.content {
            Content::Text(text) => {
                let had = text.as_slice().len();
                append_more(alloc, space, key, had, value)
            }
            Content::Fields(_) => Ok(replied(alloc, wrong_type(alloc)?)),
        },
    }
}

pub(crate) fn mset(alloc: Global, space: &mut Keyspace, words: &[Octets]) -> Result<Done, NoMemory>
    ensures { IsRow (mset_effect words.now space.old) result space.old space.new }
{
    let reply = ok(alloc)?;
    let keys = each_key_once(alloc, words)?;
    space.put_texts(words)?;
    Ok(wrote(reply, keys))
}
