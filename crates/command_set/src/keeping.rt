//! A command that writes some keys, with what is kept of them so that its run can be taken back.
ghost use Rattle.std.specs.Prelude.{◌≡◌, true, false, IfOk, OnOk, OnErr};
ghost use Rattle.command_words.specs.declared.written.Written.TheVariants.{Keys};
ghost use Rattle.command_words.specs.Effects.{effect, has_row};
ghost use Rattle.command_words.specs.Queries.{written};
ghost use Rattle.command_set.specs.Aside.{writes_over};
ghost use Rattle.command_set.specs.InStep.{InStep};
ghost use Rattle.command_set.specs.Priors.{priors_of, put_back};

use super::aside::{fill, set_aside, writes_over};
use super::kept::kept_by;
use super::moving::{run_moving, takes_out};
use super::prior::Prior;
use super::run::run_on;
use command_words::{Command, Done};
use expiry::DeadlineIndex;
use keyspace::Keyspace;
use resp_value::{NoMemory, Octets};
use std::alloc::Global;

/// A command that writes over what these keys hold: that is moved aside first, and comes back in
/// its place where memory runs out.
fn run_over(
    alloc: Global,
    space: &mut Keyspace,
    index: &mut DeadlineIndex,
    command: &Command,
    moment: u64,
    keys: &[Octets],
) -> Result<(Done, Vec<Prior>), NoMemory>
    requires has { has_row command.now ≡ true }
    requires step { InStep index.old space.old }
    requires keys { written command.now ≡ Keys keys.now }
    requires over { writes_over command.now space.old moment ≡ true }
    ensures reply { IfOk result (λ r. r.0.reply
        ≡ (effect command.now space.old moment).reply) }
    ensures signals { IfOk result (λ r. r.0.signalled
        ≡ (effect command.now space.old moment).signalled) }
    ensures space { OnOk result (space.new ≡ (effect command.now space.old moment).space) }
    ensures back { IfOk result (λ r. put_back (priors_of r.1.items) space.new ≡ space.old) }
    ensures err { OnErr result (space.new ≡ space.old) }
    ensures step { InStep index.new space.new }
{
    let mut aside = Vec::new(alloc);
    if set_aside(space, command, keys, &mut aside).is_err() {
        fill(space, aside);
        return Err(NoMemory);
    }
    match run_on(alloc, space, index, command, moment, keys) {
        Ok(done) => Ok((done, aside)),
        Err(NoMemory) => {
            fill(space, aside);
            Err(NoMemory)
        }
    }
}

/// A command that looks at what these keys hold, with what it keeps of that first.
fn run_beside(
    alloc: Global,
    space: &mut Keyspace,
    index: &mut DeadlineIndex,
    command: &Command,
    moment: u64,
    keys: &[Octets],
) -> Result<(Done, Vec<Prior>), NoMemory>
    requires has { has_row command.now ≡ true }
    requires step { InStep index.old space.old }
    requires keys { written command.now ≡ Keys keys.now }
    requires beside { writes_over command.now space.old moment ≡ false }
    ensures reply { IfOk result (λ r. r.0.reply
        ≡ (effect command.now space.old moment).reply) }
    ensures signals { IfOk result (λ r. r.0.signalled
        ≡ (effect command.now space.old moment).signalled) }
    ensures space { OnOk result (space.new ≡ (effect command.now space.old moment).space) }
    ensures back { IfOk result (λ r. put_back (priors_of r.1.items) space.new ≡ space.old) }
    ensures err { OnErr result (space.new ≡ space.old) }
    ensures step { InStep index.new space.new }
{
    let kept = kept_by(alloc, space, command, moment, keys)?;
    let done = run_on(alloc, space, index, command, moment, keys)?;
    Ok((done, kept))
}

/// A command that writes these keys, with what it keeps of them.
pub(crate) fn run_kept(
    alloc: Global,
    space: &mut Keyspace,
    index: &mut DeadlineIndex,
    command: &Command,
    moment: u64,
    keys: &[Octets],
) -> Result<(Done, Vec<Prior>), NoMemory>
    requires has { has_row command.now ≡ true }
    requires step { InStep index.old space.old }
    requires keys { written command.now ≡ Keys keys.now }
    ensures reply { IfOk result (λ r. r.0.reply
        ≡ (effect command.now space.old moment).reply) }
    ensures signals { IfOk result (λ r. r.0.signalled
        ≡ (effect command.now space.old moment).signalled) }
    ensures space { OnOk result (space.new ≡ (effect command.now space.old moment).space) }
    ensures back { IfOk result (λ r. put_back (priors_of r.1.items) space.new ≡ space.old) }
    ensures err { OnErr result (space.new ≡ space.old) }
    ensures step { InStep index.new space.new }
{
    if takes_out(command) {
        run_moving(alloc, space, index, command, moment, keys)
    } else if writes_over(space, command, moment) {
        run_over(alloc, space, index, command, moment, keys)
    } else {
        run_beside(alloc, space, index, command, moment, keys)
    }
}
