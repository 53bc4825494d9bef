//! The deadlines that a command may end, and the one that it gives.
ghost use Rattle.std.specs.Prelude.{◌≡◌, IfOk, OnOk};
ghost use Rattle.command_words.specs.Space.{deadline_at};
ghost use Rattle.command_set.specs.InStep.{InStep, deadlines_of, with_last};
ghost use Rattle.command_set.specs.NewDeadlines.{deadline, life_deadline, new_deadline};

use command_words::{Command, SetLife};
use expiry::{Deadline, DeadlineIndex};
use key_cmds::{expiry_after, expiry_at};
use keyspace::Keyspace;
use resp_value::{NoMemory, Octets};
use std::alloc::Global;
use string_cmds::moment_after;

/// The deadline of the key.
pub(crate) fn deadline_of(space: &Keyspace, key: &[u8]) -> Option<u64>
    ensures { result ≡ deadline_at key.now space.now }
{
    match space.get(key) {
        None => None,
        Some(held) => held.deadline,
    }
}

fn push_deadline(key: &Octets, at: Option<u64>, out: &mut Vec<Deadline>) -> Result<(), NoMemory>
    ensures { OnOk result (out.new.items ≡ with_last at key.now out.old.items) }
{
    if let Some(at) = at {
        let key = key.copy()?;
        out.push(Deadline { at, key })?;
    }
    Ok(())
}

/// The deadlines of the keys that have one.
fn deadlines_of(alloc: Global, space: &Keyspace, keys: &[Octets]) -> Result<Vec<Deadline>, NoMemory>
    ensures { IfOk result (λ v. v.items ≡ deadlines_of keys.now space.now) }
{
    let mut out = Vec::new(alloc);
    for key in keys {
        push_deadline(key, deadline_of(space, key.as_slice()), &mut out)?;
    }
    Ok(out)
}

/// The deadlines of the keys that have one. Where the index has none no key has one either, so none
/// is looked up.
pub(crate) fn deadlines_before(
    alloc: Global,
    space: &Keyspace,
    index: &DeadlineIndex,
    keys: &[Octets],
) -> Result<Vec<Deadline>, NoMemory>
    requires { InStep index.now space.now }
    ensures { IfOk result (λ v. v.items ≡ deadlines_of keys.now space.now) }
{
    if index.is_empty() {
        return Ok(Vec::new(alloc));
    }
    deadlines_of(alloc, space, keys)
}

pub(crate) fn deadline(key: &Octets, at: Option<u64>) -> Result<Option<Deadline>, NoMemory>
    ensures { IfOk result (λ d. d ≡ deadline key.now at) }
{
    match at {
        None => Ok(None),
        Some(at) => {
            let key = key.copy()?;
            Ok(Some(Deadline { at, key }))
        }
    }
}

/// The deadline that SET gives.
fn set_deadline(key: &Octets, life: SetLife, moment: u64) -> Result<Option<Deadline>, NoMemory>
    ensures { IfOk result (λ d. d ≡ life_deadline key.now life moment) }
{
    match life {
        SetLife::Seconds(number) => deadline(key, Some(moment_after(moment, 1000, number))),
        SetLife::Millis(number) => deadline(key, Some(moment_after(moment, 1, number))),
        SetLife::Cleared | SetLife::Kept => Ok(None),
    }
}

/// The deadline that the command gives a key, if it gives one.
#[tactic(auto, unfolding(crate::specs::NewDeadlines::new_deadline))]
pub(crate) fn new_deadline(
    space: &Keyspace,
    command: &Command,
    moment: u64,
) -> Result<Option<Deadline>, NoMemory>
    ensures { IfOk result (λ d. d ≡ new_deadline command.now space.now moment) }
{
    match command {
        Command::Set(key, _, _, life) => set_deadline(key, *life, moment),
        Command::Rename(from, to) => deadline(to, deadline_of(space, from.as_slice())),
        Command::Expire(key, number) => deadline(key, expiry_after(moment, 1000, *number)),
        Command::PExpire(key, number) => deadline(key, expiry_after(moment, 1, *number)),
        Command::ExpireAt(key, number) => deadline(key, expiry_at(moment, 1000, *number)),
        Command::PExpireAt(key, number) => deadline(key, expiry_at(moment, 1, *number)),
        _ => Ok(None),
    }
}
