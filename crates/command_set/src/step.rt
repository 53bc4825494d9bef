//! The index after a command.
ghost use Rattle.std.specs.Prelude.{◌≡◌, OnOk, OnErr};
ghost use Rattle.command_set.specs.InStep.{is_current, listed, settled, with_new};

use expiry::{Deadline, DeadlineIndex};
use keyspace::Keyspace;
use resp_value::NoMemory;

/// Whether the key is there with this deadline.
fn is_current(space: &Keyspace, deadline: &Deadline) -> bool
    ensures { result ≡ is_current deadline.now space.now }
{
    match space.get(deadline.key.as_slice()) {
        None => false,
        Some(held) => match held.deadline {
            None => false,
            Some(at) => deadline.at == at,
        },
    }
}

/// The new deadline is in the index.
pub(crate) fn add_new(index: &mut DeadlineIndex, new: &Option<Deadline>) -> Result<(), NoMemory>
    ensures ok { OnOk result (index.new ≡ with_new new.now index.old) }
    ensures err { OnErr result (index.new ≡ index.old) }
{
    match new {
        None => Ok(()),
        Some(deadline) => index.set(deadline.at, deadline.key.as_slice()),
    }
}

/// Those of the deadlines that are not current leave the index.
pub(crate) fn settle(space: &Keyspace, index: &mut DeadlineIndex, deadlines: &[Deadline])
    ensures { index.new ≡ settled deadlines.now space.now index.old }
{
    for deadline in deadlines {
        if !is_current(space, deadline) {
            index.unset(deadline.at, deadline.key.as_slice());
        }
    }
}

/// The new deadline leaves the index, where it is not current.
pub(crate) fn settle_new(space: &Keyspace, index: &mut DeadlineIndex, new: &Option<Deadline>)
    ensures { index.new ≡ settled (listed new.now) space.now index.old }
{
    if let Some(deadline) = new {
        if !is_current(space, deadline) {
            index.unset(deadline.at, deadline.key.as_slice());
        }
    }
}
