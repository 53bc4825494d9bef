//! What a command keeps of the keys that it writes, so that its run can be taken back.
ghost use Rattle.std.specs.Prelude.{◌≡◌, ◌++◌, [], ◌∷◌, IfOk, OnOk};
ghost use Rattle.command_words.specs.Space.{content_at, held_at};
ghost use Rattle.command_words.specs.Queries.{keys_in_turn};
ghost use Rattle.command_set.specs.Kept.{expiry_kept, hash_kept, kept, life_kept, named_kept};
ghost use Rattle.command_set.specs.Kept.{new_kept, text_kept};
ghost use Rattle.command_set.specs.Priors.{priors_of, what_held};

use super::prior::{Kept, Prior, push_priors};
use super::touched::deadline_of;
use command_words::Command;
use key_cmds::{expiry_after, expiry_at};
use keyspace::{Content, Fields, Keyspace};
use resp_value::{NoMemory, Octets};
use std::alloc::Global;
use std::slice;

/// All that these keys hold.
fn wholes(alloc: Global, space: &Keyspace, keys: &[Octets]) -> Result<Vec<Prior>, NoMemory>
    ensures { IfOk result (λ v. priors_of v.items ≡ what_held keys.now space.now) }
{
    let mut out = Vec::new(alloc);
    push_priors(space, keys, &mut out)?;
    Ok(out)
}

/// A list of this prior alone.
fn only(alloc: Global, key: &Octets, kept: Kept) -> Result<Vec<Prior>, NoMemory>
    ensures { IfOk result (λ v. v.items ≡ record { key = key.now; kept = kept } ∷ []) }
{
    let mut out = Vec::new(alloc);
    let key = key.copy()?;
    out.push(Prior { key, kept })?;
    Ok(out)
}

/// The field of this name goes last.
fn push_named(
    key: &Octets,
    fields: &Fields,
    field: &Octets,
    out: &mut Vec<Prior>,
) -> Result<(), NoMemory>
    ensures { OnOk result (priors_of out.new.items
        ≡ priors_of out.old.items ++ named_kept key.now (field.now ∷ []) fields.now) }
{
    let value = match fields.get(field.as_slice()) {
        None => None,
        Some(value) => Some(value.copy()?),
    };
    let key = key.copy()?;
    let field = field.copy()?;
    let kept = Kept::Field(field, value);
    out.push(Prior { key, kept })?;
    Ok(())
}

/// The fields whose names stand in turn with values.
fn named_in_turn(
    alloc: Global,
    key: &Octets,
    fields: &Fields,
    words: &[Octets],
) -> Result<Vec<Prior>, NoMemory>
    ensures { IfOk result (λ v. priors_of v.items
        ≡ named_kept key.now (keys_in_turn words.now) fields.now) }
{
    let mut out = Vec::new(alloc);
    let mut left = words;
    'pairs: while let [field, _, others @ ..] = left {
        push_named(key, fields, field, &mut out)?;
        left = others;
    }
    Ok(out)
}

/// What a command keeps that writes only where the key is missing.
fn kept_by_new(alloc: Global, space: &Keyspace, key: &Octets) -> Result<Vec<Prior>, NoMemory>
    ensures { IfOk result (λ v. priors_of v.items
        ≡ new_kept key.now (held_at key.now space.now) space.now) }
{
    match space.get(key.as_slice()) {
        None => wholes(alloc, space, slice::from_ref(key)),
        Some(_) => Ok(Vec::new(alloc)),
    }
}

fn kept_by_hset(
    alloc: Global,
    space: &Keyspace,
    key: &Octets,
    words: &[Octets],
) -> Result<Vec<Prior>, NoMemory>
    ensures { IfOk result (λ v. priors_of v.items ≡ hash_kept key.now (keys_in_turn words.now)
        (content_at key.now space.now) space.now) }
{
    let Some(held) = space.get(key.as_slice()) else {
        return wholes(alloc, space, slice::from_ref(key));
    };
    match &held.content {
        Content::Text(_) => Ok(Vec::new(alloc)),
        Content::Fields(fields) => {
            if fields.len() == 0 {
                return wholes(alloc, space, slice::from_ref(key));
            }
            named_in_turn(alloc, key, fields, words)
        }
    }
}

fn kept_by_append(alloc: Global, space: &Keyspace, key: &Octets) -> Result<Vec<Prior>, NoMemory>
    ensures { IfOk result (λ v. priors_of v.items
        ≡ text_kept key.now (content_at key.now space.now) space.now) }
{
    let Some(held) = space.get(key.as_slice()) else {
        return wholes(alloc, space, slice::from_ref(key));
    };
    match &held.content {
        Content::Text(text) => only(alloc, key, Kept::Size(text.as_slice().len())),
        Content::Fields(_) => Ok(Vec::new(alloc)),
    }
}

/// The deadline of the key.
fn kept_life(alloc: Global, space: &Keyspace, key: &Octets) -> Result<Vec<Prior>, NoMemory>
    ensures { IfOk result (λ v. priors_of v.items ≡ life_kept key.now space.now) }
{
    only(alloc, key, Kept::Life(deadline_of(space, key.as_slice())))
}

/// What a command keeps that gives the key a deadline, or takes it out.
fn kept_by_expiry(
    alloc: Global,
    space: &Keyspace,
    key: &Octets,
    expiry: Option<u64>,
) -> Result<Vec<Prior>, NoMemory>
    ensures { IfOk result (λ v. priors_of v.items ≡ expiry_kept key.now expiry space.now) }
{
    match expiry {
        None => wholes(alloc, space, slice::from_ref(key)),
        Some(_) => kept_life(alloc, space, key),
    }
}

/// What a command that writes these keys keeps of them, where it doesn't write over all that they
/// hold.
#[tactic(auto, unfolding(crate::specs::Kept::kept))]
pub(crate) fn kept_by(
    alloc: Global,
    space: &Keyspace,
    command: &Command,
    moment: u64,
    keys: &[Octets],
) -> Result<Vec<Prior>, NoMemory>
    ensures { IfOk result (λ v. priors_of v.items
        ≡ kept command.now keys.now space.now moment) }
{
    match command {
        Command::Set(key, _, _, _) | Command::SetNx(key, _) => kept_by_new(alloc, space, key),
        Command::Rename(_, _) => Ok(Vec::new(alloc)),
        Command::HSet(key, words) => kept_by_hset(alloc, space, key, words.as_slice()),
        Command::Append(key, _) => kept_by_append(alloc, space, key),
        Command::Persist(key) => kept_life(alloc, space, key),
        Command::Expire(key, number) => {
            kept_by_expiry(alloc, space, key, expiry_after(moment, 1000, *number))
        }
        Command::PExpire(key, number) => {
            kept_by_expiry(alloc, space, key, expiry_after(moment, 1, *number))
        }
        Command::ExpireAt(key, number) => {
            kept_by_expiry(alloc, space, key, expiry_at(moment, 1000, *number))
        }
        Command::PExpireAt(key, number) => {
            kept_by_expiry(alloc, space, key, expiry_at(moment, 1, *number))
        }
        _ => wholes(alloc, space, keys),
    }
}
