//! The commands that write hashes: HSET and HDEL.
ghost use Rattle.std.specs.Prelude.{◌≡◌, IfOk, OnOk, OnErr, option_map};
ghost use Rattle.command_words.specs.Hashes.{hset_effect, hdel_effect};
ghost use Rattle.command_rows.specs.Rows.{IsRow};
ghost use Rattle.keyspace.specs.Places.{all_placed, with_placed_of};
ghost use Rattle.keyspace.specs.Plain.{held_of};
ghost use Rattle.hash_cmds.specs.Changed.{held_back};

use super::change::{holds_text, set_fields, take_empty, take_under};
use command_rows::{only, replied, wrong_type, wrote};
use command_words::Done;
use keyspace::{Held, Keyspace, Placed};
use resp_value::{NoMemory, Octets, Value};
use std::alloc::Global;

pub(crate) fn hset(
    alloc: Global,
    space: &mut Keyspace,
    key: &[u8],
    words: &[Octets],
) -> Result<Done, NoMemory>
    ensures { IsRow (hset_effect key.now words.now space.old) result space.old space.new }
{
    if holds_text(space, key) {
        return Ok(replied(alloc, wrong_type(alloc)?));
    }
    let keys = only(alloc, key)?;
    let added = set_fields(alloc, space, key, words)?;
    take_empty(space, key);
    Ok(wrote(Value::Number(added as i64), keys))
}

/// HDEL, with the fields that went, each with the place that it had, and what the key held then,
/// where no fields are left and it went too. Nothing is copied.
pub fn take_fields(
    alloc: Global,
    space: &mut Keyspace,
    key: &[u8],
    names: &[Octets],
) -> Result<(Done, Vec<Placed>, Option<Held>), NoMemory>
    ensures reply { IfOk result (λ r.
        r.0.reply ≡ (hdel_effect key.now names.now space.old).reply) }
    ensures signals { IfOk result (λ r.
        r.0.signalled ≡ (hdel_effect key.now names.now space.old).signalled) }
    ensures space { OnOk result (space.new ≡ (hdel_effect key.now names.now space.old).space) }
    ensures back { IfOk result (λ r. with_placed_of key.now (all_placed r.1.items)
        (held_back key.now (option_map held_of r.2) space.new) ≡ space.old) }
    ensures err { OnErr result (space.new ≡ space.old) }
{
    if holds_text(space, key) {
        let error = wrong_type(alloc)?;
        return Ok((replied(alloc, error), Vec::new(alloc), None));
    }
    let keys = only(alloc, key)?;
    let taken = take_under(alloc, space, key, names)?;
    if taken.is_empty() {
        return Ok((replied(alloc, Value::Number(0)), taken, None));
    }
    let count = taken.len() as i64;
    let held = take_empty(space, key);
    Ok((wrote(Value::Number(count), keys), taken, held))
}

pub(crate) fn hdel(
    alloc: Global,
    space: &mut Keyspace,
    key: &[u8],
    names: &[Octets],
) -> Result<Done, NoMemory>
    ensures { IsRow (hdel_effect key.now names.now space.old) result space.old space.new }
{
    let (done, _taken, _held) = take_fields(alloc, space, key, names)?;
    Ok(done)
}
