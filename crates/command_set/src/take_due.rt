//! The keys that are due go, and what they held is moved into what is kept of the run.
ghost use Rattle.std.specs.Prelude.{◌≡◌, ◌+◌, ◌<◌, ◌≤◌, IfOk, OnOk, OnErr, length};
ghost use Rattle.std.specs.Prelude.{vec_capacity, vec_len};
ghost use Rattle.std.specs.FinMap as finite;
ghost use Rattle.command_words.specs.Expiry.{without_due};
ghost use Rattle.command_words.specs.Keys.{remove_each};
ghost use Rattle.command_set.specs.InStep.{InStep, due_keys};
ghost use Rattle.command_set.specs.Priors.{priors_of, put_back};

use super::due::are_none;
use super::prior::{Kept, Prior};
use expiry::DeadlineIndex;
use keyspace::Keyspace;
use resp_value::{NoMemory, Octets};
use std::alloc::Global;

fn copies_of(alloc: Global, keys: &[Octets]) -> Result<Vec<Octets>, NoMemory>
    ensures { IfOk result (λ v. v.items ≡ keys.now) }
{
    let mut copies = Vec::new(alloc);
    for key in keys {
        copies.push(key.copy()?)?;
    }
    Ok(copies)
}

/// The key goes, and what it held is kept. There is room for it.
fn take_one(space: &mut Keyspace, key: Octets, kept: &mut Vec<Prior>)
    requires { vec_len kept.old < vec_capacity kept.old }
    ensures space { space.new ≡ finite.remove space.old key }
    ensures back { put_back (priors_of kept.new.items) space.new
        ≡ put_back (priors_of kept.old.items) space.old }
    ensures len { vec_len kept.new ≡ vec_len kept.old + 1 }
    ensures capacity { vec_capacity kept.new ≡ vec_capacity kept.old }
{
    let held = space.take(key.as_slice());
    kept.push_reserved(Prior {
        key,
        kept: Kept::Whole(held),
    });
}

/// The keys go, and what they held is kept. There is room for it.
fn take_each(space: &mut Keyspace, keys: Vec<Octets>, kept: &mut Vec<Prior>)
    requires { vec_len kept.old + length keys.items ≤ vec_capacity kept.old }
    ensures space { space.new ≡ remove_each keys.items space.old }
    ensures back { put_back (priors_of kept.new.items) space.new
        ≡ put_back (priors_of kept.old.items) space.old }
{
    'keys: for key in keys {
        take_one(space, key, kept);
    }
}

/// The keys that are due go, and what they held is the answer.
pub(crate) fn take_due(
    alloc: Global,
    space: &mut Keyspace,
    index: &mut DeadlineIndex,
    moment: u64,
    keys: &[Octets],
) -> Result<Vec<Prior>, NoMemory>
    requires step { InStep index.old space.old }
    requires keys { keys.now ≡ due_keys moment index.old }
    ensures space { OnOk result (space.new ≡ without_due moment space.old) }
    ensures step { InStep index.new space.new }
    ensures back { IfOk result (λ v. put_back (priors_of v.items) space.new ≡ space.old) }
    ensures err { OnErr result (space.new ≡ space.old) }
{
    if are_none(keys) {
        return Ok(Vec::new(alloc));
    }
    let names = copies_of(alloc, keys)?;
    let mut kept = Vec::new(alloc);
    kept.reserve(names.len())?;
    take_each(space, names, &mut kept);
    index.drop_due(moment);
    Ok(kept)
}
