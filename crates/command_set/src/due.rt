//! The keys whose deadline is before a moment.
ghost use Rattle.std.specs.Prelude.{◌≡◌, ◌++◌, [], true, IfOk, OnOk, OnErr};
ghost use Rattle.command_words.specs.Expiry.{without_due};
ghost use Rattle.command_words.specs.Keys.{remove_each};
ghost use Rattle.expiry.specs.Blocks.{joined};
ghost use Rattle.expiry.specs.Index.{keys_of, left};
ghost use Rattle.command_set.specs.InStep.{InStep, due_keys};

use expiry::{Block, Deadline, DeadlineIndex};
use keyspace::Keyspace;
use resp_value::{NoMemory, Octets, Words};
use std::alloc::Global;

/// Whether there are no keys.
pub(crate) fn are_none(keys: &[Octets]) -> bool
    ensures { result ≡ true → keys.now ≡ [] }
{
    match keys {
        [] => true,
        _ => false,
    }
}

fn push_keys(deadlines: &[Deadline], keys: &mut Words) -> Result<(), NoMemory>
    ensures { OnOk result (keys.new ≡ keys.old ++ keys_of deadlines.now) }
{
    for deadline in deadlines {
        keys.push(deadline.key.copy()?)?;
    }
    Ok(())
}

/// The keys that are due, in order of deadline and key.
pub fn due_keys(alloc: Global, index: &DeadlineIndex, moment: u64) -> Result<Words, NoMemory>
    ensures { IfOk result (λ keys. keys ≡ due_keys moment index.now) }
{
    let mut keys = Words::new(alloc);
    for block in index.due_blocks(moment) {
        push_keys(block.due(moment), &mut keys)?;
    }
    Ok(keys)
}

/// The keys of the deadlines go.
fn remove_keys(space: &mut Keyspace, deadlines: &[Deadline])
    ensures { space.new ≡ remove_each (keys_of deadlines.now) space.old }
{
    for deadline in deadlines {
        space.take(deadline.key.as_slice());
    }
}

/// The keys of the deadlines in these blocks go that are due.
fn remove_due(space: &mut Keyspace, blocks: &[Block], moment: u64)
    ensures { space.new ≡ remove_each (due_keys moment (joined blocks.now)) space.old }
{
    for block in blocks {
        remove_keys(space, block.due(moment));
    }
}

/// The keys that are due go. It takes no memory.
pub fn drop_due(space: &mut Keyspace, index: &mut DeadlineIndex, moment: u64)
    requires { InStep index.old space.old }
    ensures space { space.new ≡ without_due moment space.old }
    ensures index { index.new ≡ left moment index.old }
    ensures step { InStep index.new space.new }
{
    remove_due(space, index.due_blocks(moment), moment);
    index.drop_due(moment);
}

/// The keys that are due go, and are answered in order of deadline and key. Where memory runs out,
/// keyspace and index are as before.
pub fn expire_due(
    alloc: Global,
    space: &mut Keyspace,
    index: &mut DeadlineIndex,
    moment: u64,
) -> Result<Words, NoMemory>
    requires { InStep index.old space.old }
    ensures keys { IfOk result (λ keys. keys ≡ due_keys moment index.old) }
    ensures space { OnOk result (space.new ≡ without_due moment space.old) }
    ensures step { InStep index.new space.new }
    ensures err_space { OnErr result (space.new ≡ space.old) }
    ensures err_index { OnErr result (index.new ≡ index.old) }
{
    let keys = due_keys(alloc, index, moment)?;
    drop_due(space, index, moment);
    Ok(keys)
}
