//! A command that takes out what its key holds, or puts a number or a string in its place: what
//! goes is moved into what is kept of the run.
ghost use Rattle.std.specs.Prelude.{◌≡◌, ◌<◌, [], true, IfOk, OnOk, OnErr, option_map};
ghost use Rattle.std.specs.Prelude.{vec_len, vec_capacity};
ghost use Rattle.command_words.specs.declared.command.Command.TheVariants.{GetDel, HDel, HIncrBy};
ghost use Rattle.command_words.specs.declared.command.Command.TheVariants.{Set};
ghost use Rattle.command_words.specs.declared.written.Written.TheVariants.{Keys};
ghost use Rattle.command_words.specs.Effects.{effect};
ghost use Rattle.command_words.specs.Queries.{written};
ghost use Rattle.command_words.specs.Strings.{decrby_effect, incrby_effect};
ghost use Rattle.command_set.specs.InStep.{InStep};
ghost use Rattle.keyspace.specs.Plain.{held_of};
ghost use Rattle.command_set.specs.Moving.{changed, field_changed, is_counter, takes_out, went};
ghost use Rattle.command_set.specs.Priors.{priors_of, put_back};

use super::prior::{Kept, Prior};
use super::step::settle;
use super::touched::deadlines_before;
use command_words::{Command, Done, SetLife, SetWhen};
use expiry::DeadlineIndex;
use hash_cmds::{FieldChange, add_field, take_fields};
use keyspace::{Held, Keyspace};
use resp_value::{NoMemory, Octets, Words};
use std::alloc::Global;
use string_cmds::{add_number, set_text, take_number, take_text};

/// Whether the command takes out what its key holds, or a part of it, or puts a number or a string
/// in its place and gives no deadline.
#[tactic(auto, unfolding(crate::specs::Moving::takes_out))]
pub(crate) fn takes_out(command: &Command) -> bool
    ensures { result ≡ takes_out command.now }
{
    match command {
        Command::Set(_, _, _, life) => match life {
            SetLife::Cleared | SetLife::Kept => true,
            SetLife::Seconds(_) | SetLife::Millis(_) => false,
        },
        Command::GetDel(_) | Command::HDel(_, _) | Command::HIncrBy(_, _, _) => true,
        Command::Incr(_) | Command::Decr(_) => true,
        Command::IncrBy(_, _) | Command::DecrBy(_, _) => true,
        _ => false,
    }
}

/// What a key held is kept, if it went. There is room for it.
fn keep_held(kept: Vec<Prior>, key: Octets, held: Option<Held>) -> Vec<Prior>
    requires none { kept.items ≡ [] }
    requires room { vec_len kept < vec_capacity kept }
    ensures { priors_of result.items ≡ went key (option_map held_of held) }
{
    let mut kept = kept;
    if let Some(held) = held {
        kept.push_reserved(Prior {
            key,
            kept: Kept::Whole(Some(held)),
        });
    }
    kept
}

/// GETDEL; what the key held is kept, where it went.
#[tactic(auto, unfolding(crate::specs::Rows::effect, crate::specs::Rows::string_effect))]
fn move_text(
    alloc: Global,
    space: &mut Keyspace,
    key: &Octets,
    moment: u64,
) -> Result<(Done, Vec<Prior>), NoMemory>
    ensures reply { IfOk result (λ r. r.0.reply
        ≡ (effect (GetDel key.now) space.old moment).reply) }
    ensures signals { IfOk result (λ r. r.0.signalled
        ≡ (effect (GetDel key.now) space.old moment).signalled) }
    ensures space { OnOk result
        (space.new ≡ (effect (GetDel key.now) space.old moment).space) }
    ensures back { IfOk result (λ r. put_back (priors_of r.1.items) space.new ≡ space.old) }
    ensures err { OnErr result (space.new ≡ space.old) }
{
    let mut kept = Vec::new(alloc);
    kept.reserve(1)?;
    let name = key.copy()?;
    let (done, held) = take_text(alloc, space, key.as_slice())?;
    Ok((done, keep_held(kept, name, held)))
}

/// HDEL; the fields that went are kept with the places that they had, and then the hash without
/// fields, where it went too.
#[tactic(auto, unfolding(crate::specs::Rows::effect, crate::specs::Rows::hash_effect))]
fn move_fields(
    alloc: Global,
    space: &mut Keyspace,
    key: &Octets,
    names: &Words,
    moment: u64,
) -> Result<(Done, Vec<Prior>), NoMemory>
    ensures reply { IfOk result (λ r. r.0.reply
        ≡ (effect (HDel key.now names.now) space.old moment).reply) }
    ensures signals { IfOk result (λ r. r.0.signalled
        ≡ (effect (HDel key.now names.now) space.old moment).signalled) }
    ensures space { OnOk result
        (space.new ≡ (effect (HDel key.now names.now) space.old moment).space) }
    ensures back { IfOk result (λ r. put_back (priors_of r.1.items) space.new ≡ space.old) }
    ensures err { OnErr result (space.new ≡ space.old) }
{
    let mut kept = Vec::new(alloc);
    kept.reserve(2)?;
    let of_fields = key.copy()?;
    let of_hash = key.copy()?;
    let (done, fields, held) = take_fields(alloc, space, key.as_slice(), names.as_slice())?;
    kept.push_reserved(Prior {
        key: of_fields,
        kept: Kept::Taken(fields),
    });
    if let Some(held) = held {
        kept.push_reserved(Prior {
            key: of_hash,
            kept: Kept::Whole(Some(held)),
        });
    }
    Ok((done, kept))
}

/// What a key held is kept, if it changed. There is room for it.
fn keep_had(kept: Vec<Prior>, key: Octets, had: Option<Option<Held>>) -> Vec<Prior>
    requires none { kept.items ≡ [] }
    requires room { vec_len kept < vec_capacity kept }
    ensures { priors_of result.items
        ≡ changed key (option_map (λ held. option_map held_of held) had) }
{
    let mut kept = kept;
    if let Some(held) = had {
        kept.push_reserved(Prior {
            key,
            kept: Kept::Whole(held),
        });
    }
    kept
}

/// SET; what the key held is kept, where it changed.
#[tactic(auto, unfolding(crate::specs::Rows::effect, crate::specs::Rows::string_effect))]
fn move_value(
    alloc: Global,
    space: &mut Keyspace,
    key: &Octets,
    value: &Octets,
    when: SetWhen,
    life: SetLife,
    moment: u64,
) -> Result<(Done, Vec<Prior>), NoMemory>
    ensures reply { IfOk result (λ r. r.0.reply
        ≡ (effect (Set key.now value.now when life) space.old moment).reply) }
    ensures signals { IfOk result (λ r. r.0.signalled
        ≡ (effect (Set key.now value.now when life) space.old moment).signalled) }
    ensures space { OnOk result
        (space.new ≡ (effect (Set key.now value.now when life) space.old moment).space) }
    ensures back { IfOk result (λ r. put_back (priors_of r.1.items) space.new ≡ space.old) }
    ensures err { OnErr result (space.new ≡ space.old) }
{
    let mut kept = Vec::new(alloc);
    kept.reserve(1)?;
    let name = key.copy()?;
    let (done, had) = set_text(alloc, space, key.as_slice(), value, when, life, moment)?;
    Ok((done, keep_had(kept, name, had)))
}

/// INCRBY; what the key held is kept, where it changed.
fn move_sum(
    alloc: Global,
    space: &mut Keyspace,
    key: &Octets,
    number: &i64,
) -> Result<(Done, Vec<Prior>), NoMemory>
    ensures reply { IfOk result (λ r. r.0.reply
        ≡ (incrby_effect key.now number.now space.old).reply) }
    ensures signals { IfOk result (λ r. r.0.signalled
        ≡ (incrby_effect key.now number.now space.old).signalled) }
    ensures space { OnOk result
        (space.new ≡ (incrby_effect key.now number.now space.old).space) }
    ensures back { IfOk result (λ r. put_back (priors_of r.1.items) space.new ≡ space.old) }
    ensures err { OnErr result (space.new ≡ space.old) }
{
    let mut kept = Vec::new(alloc);
    kept.reserve(1)?;
    let name = key.copy()?;
    let (done, had) = add_number(alloc, space, key.as_slice(), number)?;
    Ok((done, keep_had(kept, name, had)))
}

/// DECRBY; what the key held is kept, where it changed.
fn move_difference(
    alloc: Global,
    space: &mut Keyspace,
    key: &Octets,
    number: i64,
) -> Result<(Done, Vec<Prior>), NoMemory>
    ensures reply { IfOk result (λ r. r.0.reply
        ≡ (decrby_effect key.now number space.old).reply) }
    ensures signals { IfOk result (λ r. r.0.signalled
        ≡ (decrby_effect key.now number space.old).signalled) }
    ensures space { OnOk result (space.new ≡ (decrby_effect key.now number space.old).space) }
    ensures back { IfOk result (λ r. put_back (priors_of r.1.items) space.new ≡ space.old) }
    ensures err { OnErr result (space.new ≡ space.old) }
{
    let mut kept = Vec::new(alloc);
    kept.reserve(1)?;
    let name = key.copy()?;
    let (done, had) = take_number(alloc, space, key.as_slice(), number)?;
    Ok((done, keep_had(kept, name, had)))
}

/// What HINCRBY changed is kept. There is room for it.
fn keep_change(kept: Vec<Prior>, key: Octets, field: Octets, change: FieldChange) -> Vec<Prior>
    requires none { kept.items ≡ [] }
    requires room { vec_len kept < vec_capacity kept }
    ensures { priors_of result.items ≡ field_changed key field change }
{
    let mut kept = kept;
    match change {
        FieldChange::Nothing => {}
        FieldChange::Field(had) => {
            kept.push_reserved(Prior {
                key,
                kept: Kept::Field(field, had),
            });
        }
        FieldChange::Hash => {
            kept.push_reserved(Prior {
                key,
                kept: Kept::Whole(None),
            });
        }
    }
    kept
}

/// HINCRBY; what the field held is kept, where it changed.
#[tactic(auto, unfolding(crate::specs::Rows::effect, crate::specs::Rows::hash_effect))]
fn move_field(
    alloc: Global,
    space: &mut Keyspace,
    key: &Octets,
    field: &Octets,
    number: &i64,
    moment: u64,
) -> Result<(Done, Vec<Prior>), NoMemory>
    ensures reply { IfOk result (λ r. r.0.reply
        ≡ (effect (HIncrBy key.now field.now number.now) space.old moment).reply) }
    ensures signals { IfOk result (λ r. r.0.signalled
        ≡ (effect (HIncrBy key.now field.now number.now) space.old moment).signalled) }
    ensures space { OnOk result (space.new
        ≡ (effect (HIncrBy key.now field.now number.now) space.old moment).space) }
    ensures back { IfOk result (λ r. put_back (priors_of r.1.items) space.new ≡ space.old) }
    ensures err { OnErr result (space.new ≡ space.old) }
{
    let mut kept = Vec::new(alloc);
    kept.reserve(1)?;
    let name = key.copy()?;
    let of_field = field.copy()?;
    let key_bytes = key.as_slice();
    let field_bytes = field.as_slice();
    let (done, change) = add_field(alloc, space, key_bytes, field_bytes, number)?;
    Ok((done, keep_change(kept, name, of_field, change)))
}

/// INCR and its kin; what the key held is kept, where it changed.
#[tactic(auto, unfolding(crate::specs::Rows::effect, crate::specs::Rows::string_effect))]
fn move_number(
    alloc: Global,
    space: &mut Keyspace,
    command: &Command,
    moment: u64,
) -> Result<(Done, Vec<Prior>), NoMemory>
    requires { is_counter command.now ≡ true }
    ensures reply { IfOk result (λ r. r.0.reply
        ≡ (effect command.now space.old moment).reply) }
    ensures signals { IfOk result (λ r. r.0.signalled
        ≡ (effect command.now space.old moment).signalled) }
    ensures space { OnOk result (space.new ≡ (effect command.now space.old moment).space) }
    ensures back { IfOk result (λ r. put_back (priors_of r.1.items) space.new ≡ space.old) }
    ensures err { OnErr result (space.new ≡ space.old) }
{
    match command {
        Command::Incr(key) => move_sum(alloc, space, key, &1),
        Command::Decr(key) => move_sum(alloc, space, key, &-1),
        Command::IncrBy(key, number) => move_sum(alloc, space, key, number),
        Command::DecrBy(key, number) => move_difference(alloc, space, key, *number),
        _ => unreachable!(),
    }
}

/// The command on the keyspace alone, with what went.
#[tactic(auto, unfolding(crate::specs::Moving::takes_out))]
fn move_row(
    alloc: Global,
    space: &mut Keyspace,
    command: &Command,
    moment: u64,
) -> Result<(Done, Vec<Prior>), NoMemory>
    requires { takes_out command.now ≡ true }
    ensures reply { IfOk result (λ r. r.0.reply
        ≡ (effect command.now space.old moment).reply) }
    ensures signals { IfOk result (λ r. r.0.signalled
        ≡ (effect command.now space.old moment).signalled) }
    ensures space { OnOk result (space.new ≡ (effect command.now space.old moment).space) }
    ensures back { IfOk result (λ r. put_back (priors_of r.1.items) space.new ≡ space.old) }
    ensures err { OnErr result (space.new ≡ space.old) }
{
    match command {
        Command::Set(key, value, when, life) => {
            move_value(alloc, space, key, value, *when, *life, moment)
        }
        Command::GetDel(key) => move_text(alloc, space, key, moment),
        Command::HDel(key, names) => move_fields(alloc, space, key, names, moment),
        Command::HIncrBy(key, field, number) => {
            move_field(alloc, space, key, field, number, moment)
        }
        _ => move_number(alloc, space, command, moment),
    }
}

/// A command that takes out what these keys hold, with what went. The deadlines of keys that are
/// gone leave the index last, which takes no memory.
pub(crate) fn run_moving(
    alloc: Global,
    space: &mut Keyspace,
    index: &mut DeadlineIndex,
    command: &Command,
    moment: u64,
    keys: &[Octets],
) -> Result<(Done, Vec<Prior>), NoMemory>
    requires step { InStep index.old space.old }
    requires keys { written command.now ≡ Keys keys.now }
    requires moves { takes_out command.now ≡ true }
    ensures reply { IfOk result (λ r. r.0.reply
        ≡ (effect command.now space.old moment).reply) }
    ensures signals { IfOk result (λ r. r.0.signalled
        ≡ (effect command.now space.old moment).signalled) }
    ensures space { OnOk result (space.new ≡ (effect command.now space.old moment).space) }
    ensures back { IfOk result (λ r. put_back (priors_of r.1.items) space.new ≡ space.old) }
    ensures err { OnErr result (space.new ≡ space.old) }
    ensures step { InStep index.new space.new }
{
    let before = deadlines_before(alloc, space, index, keys)?;
    let moved = move_row(alloc, space, command, moment);
    settle(space, index, before.as_slice());
    moved
}
