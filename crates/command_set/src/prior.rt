//! What is kept of keys before a run, and how it comes to be so again.
ghost use Rattle.std.specs.Prelude.{◌≡◌, ◌-◌, ◌<◌, ◌++◌, [], ◌∷◌, IfOk, OnOk, OnErr};
ghost use Rattle.std.specs.Prelude.{length, take};
ghost use Rattle.command_words.specs.Space.{deadline_at, held_at};
ghost use Rattle.keyspace.specs.Plain.{held_of};
ghost use Rattle.command_set.specs.InStep.{InStep};
ghost use Rattle.command_set.specs.NewDeadlines.{deadline};
ghost use Rattle.command_set.specs.Priors.{again, kept_of, life_again, prior_of, priors_of};
ghost use Rattle.command_set.specs.Priors.{put_back, touched, what_held};

use super::content::{put_field_of, put_taken_of, shorten_text};
use super::step::{add_new, settle, settle_new};
use super::touched::{deadline, deadline_of, deadlines_before};
use expiry::{Deadline, DeadlineIndex};
use keyspace::{Held, Keyspace, Placed};
use resp_value::{NoMemory, Octets, Words};
use std::alloc::Global;

/// What is kept of a key: all that it held, if it was there; that another key holds it now; its
/// deadline; the length of its string; a field of its hash with the value, if the field was there;
/// fields that were taken out of its hash.
#[derive(Drop)]
pub enum Kept {
    Whole(Option<Held>),
    Moved(Octets),
    Life(Option<u64>),
    Size(usize),
    Field(Octets, Option<Octets>),
    Taken(Vec<Placed>),
}

/// A key, and what a run keeps of it.
#[derive(Drop)]
pub struct Prior {
    pub key: Octets,
    pub kept: Kept,
}

/// All that the key holds.
fn whole(space: &Keyspace, key: &Octets) -> Result<Prior, NoMemory>
    ensures { IfOk result (λ prior. prior_of prior ∷ [] ≡ what_held (key.now ∷ []) space.now) }
{
    match space.get(key.as_slice()) {
        None => {
            let key = key.copy()?;
            let kept = Kept::Whole(None);
            Ok(Prior { key, kept })
        }
        Some(held) => {
            let held = held.copy()?;
            let key = key.copy()?;
            let kept = Kept::Whole(Some(held));
            Ok(Prior { key, kept })
        }
    }
}

/// What each of the keys holds goes last.
pub(crate) fn push_priors(
    space: &Keyspace,
    keys: &[Octets],
    out: &mut Vec<Prior>,
) -> Result<(), NoMemory>
    ensures { OnOk result (priors_of out.new.items
        ≡ priors_of out.old.items ++ what_held keys.now space.now) }
{
    for key in keys {
        out.push(whole(space, key)?)?;
    }
    Ok(())
}

/// The deadline that the key has once what was kept of it is so again.
fn life_again(space: &Keyspace, prior: &Prior) -> Option<u64>
    ensures { result ≡ life_again prior.now.key (kept_of prior.now.kept) space.now }
{
    match &prior.kept {
        Kept::Whole(None) => None,
        Kept::Whole(Some(held)) => held.deadline,
        Kept::Moved(other) => deadline_of(space, other.as_slice()),
        Kept::Life(at) => match space.get(prior.key.as_slice()) {
            None => None,
            Some(_) => *at,
        },
        Kept::Size(_) | Kept::Field(_, _) | Kept::Taken(_) => {
            deadline_of(space, prior.key.as_slice())
        }
    }
}

/// What was kept of the key is so again in the keyspace.
fn put_one(alloc: Global, space: &mut Keyspace, prior: &Prior) -> Result<(), NoMemory>
    ensures ok { OnOk result (space.new ≡ again prior.now.key (kept_of prior.now.kept) space.old) }
    ensures err { OnErr result (space.new ≡ space.old) }
{
    let key = prior.key.as_slice();
    match &prior.kept {
        Kept::Whole(None) => {
            space.take(key);
            Ok(())
        }
        Kept::Whole(Some(held)) => space.put(key, held.copy()?),
        Kept::Moved(other) => {
            space.rename(other.as_slice(), key)?;
            Ok(())
        }
        Kept::Life(at) => {
            space.set_deadline(key, *at);
            Ok(())
        }
        Kept::Size(len) => shorten_text(alloc, space, key, *len),
        Kept::Field(field, value) => put_field_of(space, key, field.as_slice(), value),
        Kept::Taken(fields) => put_taken_of(space, key, fields.as_slice()),
    }
}

/// The keys that change once what was kept is so again.
fn touched(alloc: Global, prior: &Prior) -> Result<Words, NoMemory>
    ensures { IfOk result (λ keys. keys ≡ touched prior.now.key (kept_of prior.now.kept)) }
{
    let mut keys = Words::new(alloc);
    if let Kept::Moved(other) = &prior.kept {
        keys.push(other.copy()?)?;
    }
    keys.push(prior.key.copy()?)?;
    Ok(keys)
}

/// What was kept of the key is so again, and the index follows.
fn put_back_one(
    alloc: Global,
    space: &mut Keyspace,
    index: &mut DeadlineIndex,
    prior: &Prior,
) -> Result<(), NoMemory>
    requires { InStep index.old space.old }
    ensures ok { OnOk result (space.new ≡ again prior.now.key (kept_of prior.now.kept) space.old) }
    ensures err { OnErr result (space.new ≡ space.old) }
    ensures step { InStep index.new space.new }
{
    let keys = touched(alloc, prior)?;
    let before = deadlines_before(alloc, space, index, keys.as_slice())?;
    let new = deadline(&prior.key, life_again(space, prior))?;
    add_new(index, &new)?;
    let put = put_one(alloc, space, prior);
    settle(space, index, before.as_slice());
    settle_new(space, index, &new);
    put
}

/// What was kept last goes from the list.
fn let_go_last(priors: &mut Vec<Prior>)
    ensures rest { priors.new.items ≡ take (length priors.old.items - 1) priors.old.items }
    ensures fewer { 0 < length priors.old.items
        → length priors.new.items < length priors.old.items }
{
    priors.pop();
}

/// All that was kept is so again, what was kept last first. Where memory runs out, what is left is
/// still to be put back.
pub(crate) fn put_back(
    alloc: Global,
    space: &mut Keyspace,
    index: &mut DeadlineIndex,
    priors: &mut Vec<Prior>,
) -> Result<(), NoMemory>
    requires { InStep index.old space.old }
    ensures ok { OnOk result (space.new ≡ put_back (priors_of priors.old.items) space.old) }
    ensures none { OnOk result (priors.new.items ≡ []) }
    ensures same { put_back (priors_of priors.new.items) space.new
        ≡ put_back (priors_of priors.old.items) space.old }
    ensures step { InStep index.new space.new }
{
    'priors: while let Some(prior) = priors.last() {
        put_back_one(alloc, space, index, prior)?;
        let_go_last(priors);
    }
    Ok(())
}
