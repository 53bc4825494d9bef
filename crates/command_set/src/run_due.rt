//! A run of a command together with the keys that are due.
ghost use Rattle.std.specs.Prelude.{◌≡◌, [], true, IfOk, IfSome, OnOk, OnErr};
ghost use Rattle.command_words.specs.declared.written.Written.TheVariants.{All, Keys};
ghost use Rattle.command_words.specs.Effects.{effect, has_row};
ghost use Rattle.command_words.specs.Expiry.{without_due};
ghost use Rattle.command_words.specs.Queries.{written};
ghost use Rattle.command_set.specs.InStep.{InStep, due_keys};
ghost use Rattle.command_set.specs.Priors.{shown};
ghost use Rattle.command_set.specs.declared.waiting.Waiting.TheVariants.{Nothing};
ghost use Rattle.command_set.specs.Runs.{AreDue, IsTurn, taken_back};

use super::database::{Change, Database, Expired, Turned, Undo};
use super::due::{are_none, due_keys};
use super::keeping::run_kept;
use super::run::{run_data, run_row};
use super::take_due::take_due;
use super::waiting::{Parts, push_waiting, take_place};
use command_words::Command;
use resp_value::{NoMemory, Octets, Words};
use std::alloc::Global;
use std::{mem, slice};

/// The keys that are due go, and what they held is kept.
pub(crate) fn expire(alloc: Global, parts: &mut Parts, moment: u64) -> Result<Expired, NoMemory>
    requires step { InStep parts.old.index parts.old.space }
    requires settled { parts.old.waiting ≡ Nothing }
    ensures keys { IfOk result (λ expired. AreDue moment (shown parts.old) expired.keys) }
    ensures ok { OnOk result (shown parts.new ≡ without_due moment (shown parts.old)) }
    ensures err { OnErr result (shown parts.new ≡ shown parts.old) }
    ensures undo { IfOk result (λ expired.
        taken_back expired.undo (shown parts.new) ≡ shown parts.old) }
    ensures step { InStep parts.new.index parts.new.space }
{
    let keys = due_keys(alloc, &parts.index, moment)?;
    if are_none(keys.as_slice()) {
        let undo = Undo {
            change: Change::Nothing,
        };
        return Ok(Expired { keys, undo });
    }
    let place = take_place(alloc, &mut parts.place)?;
    let due = take_due(
        alloc,
        &mut parts.space,
        &mut parts.index,
        moment,
        keys.as_slice(),
    )?;
    let change = Change::Keys(Vec::new(alloc), due, place);
    let undo = Undo { change };
    Ok(Expired { keys, undo })
}

/// The keys that the command can change, where they are one alone or its own list.
pub(crate) fn own_keys(command: &Command) -> Option<&[Octets]>
    ensures { IfSome result (λ keys. written command.now ≡ Keys keys.now) }
{
    let key = match command {
        Command::Set(key, _, _, _) | Command::SetNx(key, _) | Command::Append(key, _) => key,
        Command::GetDel(key) | Command::Incr(key) | Command::Decr(key) => key,
        Command::IncrBy(key, _) | Command::DecrBy(key, _) => key,
        Command::HSet(key, _) | Command::HDel(key, _) => key,
        Command::HIncrBy(key, _, _) | Command::Persist(key) => key,
        Command::Expire(key, _) | Command::PExpire(key, _) => key,
        Command::ExpireAt(key, _) | Command::PExpireAt(key, _) => key,
        Command::Del(keys) => return Some(keys.as_slice()),
        _ => return None,
    };
    Some(slice::from_ref(key))
}

/// A command that writes no key, where none is due, keeps nothing of its run.
fn run_reading(
    alloc: Global,
    parts: &mut Parts,
    command: &Command,
    moment: u64,
    expired: Words,
) -> Result<Turned, NoMemory>
    requires has { has_row command.now ≡ true }
    requires step { InStep parts.old.index parts.old.space }
    requires settled { parts.old.waiting ≡ Nothing }
    requires keys { written command.now ≡ Keys [] }
    requires expired { expired ≡ due_keys moment parts.old.index }
    requires none { expired ≡ [] }
    ensures turn { IsTurn (effect command.now (without_due moment (shown parts.old)) moment)
        result (shown parts.old) (shown parts.new) }
    ensures expired { IfOk result (λ turned. AreDue moment (shown parts.old) turned.expired) }
    ensures undo { IfOk result (λ turned.
        taken_back turned.undo (shown parts.new) ≡ shown parts.old) }
    ensures step { InStep parts.new.index parts.new.space }
{
    let done = run_row(alloc, &mut parts.space, command, moment)?;
    let undo = Undo {
        change: Change::Nothing,
    };
    Ok(Turned {
        expired,
        done,
        undo,
    })
}

/// A command that writes these keys. What it changes and what the due keys hold is kept, so that
/// the run can be taken back without memory.
pub(crate) fn run_keys(
    alloc: Global,
    parts: &mut Parts,
    command: &Command,
    moment: u64,
    keys: &[Octets],
) -> Result<Turned, NoMemory>
    requires has { has_row command.now ≡ true }
    requires step { InStep parts.old.index parts.old.space }
    requires settled { parts.old.waiting ≡ Nothing }
    requires keys { written command.now ≡ Keys keys.now }
    ensures turn { IsTurn (effect command.now (without_due moment (shown parts.old)) moment)
        result (shown parts.old) (shown parts.new) }
    ensures expired { IfOk result (λ turned. AreDue moment (shown parts.old) turned.expired) }
    ensures undo { IfOk result (λ turned.
        taken_back turned.undo (shown parts.new) ≡ shown parts.old) }
    ensures step { InStep parts.new.index parts.new.space }
{
    let expired = due_keys(alloc, &parts.index, moment)?;
    if are_none(keys) && are_none(expired.as_slice()) {
        return run_reading(alloc, parts, command, moment, expired);
    }
    let place = take_place(alloc, &mut parts.place)?;
    let due = take_due(
        alloc,
        &mut parts.space,
        &mut parts.index,
        moment,
        expired.as_slice(),
    )?;
    match run_kept(
        alloc,
        &mut parts.space,
        &mut parts.index,
        command,
        moment,
        keys,
    ) {
        Ok((done, kept)) => {
            let change = Change::Keys(kept, due, place);
            let undo = Undo { change };
            Ok(Turned {
                expired,
                done,
                undo,
            })
        }
        Err(NoMemory) => {
            push_waiting(&mut parts.waiting, Vec::new(alloc), due, place);
            Err(NoMemory)
        }
    }
}

/// A flush: the database as it was is kept aside, and an empty one is flushed.
pub(crate) fn run_flush(
    alloc: Global,
    parts: &mut Parts,
    command: &Command,
    moment: u64,
) -> Result<Turned, NoMemory>
    requires has { has_row command.now ≡ true }
    requires step { InStep parts.old.index parts.old.space }
    requires settled { parts.old.waiting ≡ Nothing }
    requires all { written command.now ≡ All }
    ensures turn { IsTurn (effect command.now (without_due moment (shown parts.old)) moment)
        result (shown parts.old) (shown parts.new) }
    ensures expired { IfOk result (λ turned. AreDue moment (shown parts.old) turned.expired) }
    ensures undo { IfOk result (λ turned.
        taken_back turned.undo (shown parts.new) ≡ shown parts.old) }
    ensures step { InStep parts.new.index parts.new.space }
{
    let expired = due_keys(alloc, &parts.index, moment)?;
    let mut kept = Box::new(alloc, Database::new(alloc))?;
    let old = mem::replace(parts, Parts::new(alloc));
    match run_data(alloc, &mut parts.space, &mut parts.index, command, moment) {
        Ok(done) => {
            *kept = Database { alloc, parts: old };
            let change = Change::All(kept);
            let undo = Undo { change };
            Ok(Turned {
                expired,
                done,
                undo,
            })
        }
        Err(NoMemory) => {
            *parts = old;
            Err(NoMemory)
        }
    }
}
