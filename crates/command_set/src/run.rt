//! Each data command by its row, with the index of deadlines in step.
ghost use Rattle.std.specs.Prelude.{◌≡◌, true, OnErr};
ghost use Rattle.command_words.specs.declared.written.Written.TheVariants.{All, Keys};
ghost use Rattle.command_words.specs.Effects.{effect, has_row};
ghost use Rattle.command_words.specs.Queries.{written};
ghost use Rattle.command_rows.specs.Rows.{IsRow};
ghost use Rattle.command_set.specs.InStep.{InStep};

use super::step::{add_new, settle, settle_new};
use super::touched::{deadlines_before, new_deadline};
use command_words::{Command, Done, Written, keys_written};
use expiry::DeadlineIndex;
use hash_cmds::{is_hash, run_hash};
use key_cmds::{is_key, run_key};
use keyspace::Keyspace;
use resp_value::{NoMemory, Octets};
use std::alloc::Global;
use string_cmds::{is_string, run_string};

/// Whether the command is a data command: one on strings, on hashes or on keys.
pub fn has_row(command: &Command) -> bool
    ensures { result ≡ has_row command.now }
{
    is_string(command) || is_hash(command) || is_key(command)
}

/// Runs the command on the keyspace alone.
pub(crate) fn run_row(
    alloc: Global,
    space: &mut Keyspace,
    command: &Command,
    moment: u64,
) -> Result<Done, NoMemory>
    requires { has_row command.now ≡ true }
    ensures { IsRow (effect command.now space.old moment) result space.old space.new }
{
    if is_hash(command) {
        run_hash(alloc, space, command, moment)
    } else if is_key(command) {
        run_key(alloc, space, command, moment)
    } else {
        run_string(alloc, space, command, moment)
    }
}

/// A flush, after which no key has a deadline.
fn run_flush(
    alloc: Global,
    space: &mut Keyspace,
    index: &mut DeadlineIndex,
    command: &Command,
    moment: u64,
) -> Result<Done, NoMemory>
    requires has { has_row command.now ≡ true }
    requires step { InStep index.old space.old }
    requires all { written command.now ≡ All }
    ensures row { IsRow (effect command.now space.old moment) result space.old space.new }
    ensures step { InStep index.new space.new }
    ensures err { OnErr result (index.new ≡ index.old) }
{
    let done = run_row(alloc, space, command, moment)?;
    index.clear();
    Ok(done)
}

/// A command that writes these keys. The new deadline goes into the index first, since that may
/// fail; what is not current leaves it last, which takes no memory.
pub(crate) fn run_on(
    alloc: Global,
    space: &mut Keyspace,
    index: &mut DeadlineIndex,
    command: &Command,
    moment: u64,
    keys: &[Octets],
) -> Result<Done, NoMemory>
    requires has { has_row command.now ≡ true }
    requires step { InStep index.old space.old }
    requires keys { written command.now ≡ Keys keys.now }
    ensures row { IsRow (effect command.now space.old moment) result space.old space.new }
    ensures step { InStep index.new space.new }
    ensures err { OnErr result (index.new ≡ index.old) }
{
    let before = deadlines_before(alloc, space, index, keys)?;
    let new = new_deadline(space, command, moment)?;
    add_new(index, &new)?;
    let done = run_row(alloc, space, command, moment);
    settle(space, index, before.as_slice());
    settle_new(space, index, &new);
    done
}

/// Runs a data command: the reply, the new keyspace and the keys that changed are those of the
/// command's row, and the index is the ordered list of the keyspace's deadlines as before. Where
/// memory runs out, keyspace and index are as before.
pub fn run_data(
    alloc: Global,
    space: &mut Keyspace,
    index: &mut DeadlineIndex,
    command: &Command,
    moment: u64,
) -> Result<Done, NoMemory>
    requires has { has_row command.now ≡ true }
    requires step { InStep index.old space.old }
    ensures row { IsRow (effect command.now space.old moment) result space.old space.new }
    ensures step { InStep index.new space.new }
    ensures err { OnErr result (index.new ≡ index.old) }
{
    match keys_written(alloc, command)? {
        Written::All => run_flush(alloc, space, index, command, moment),
        Written::Keys(keys) => run_on(alloc, space, index, command, moment, keys.as_slice()),
    }
}
