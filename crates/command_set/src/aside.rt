//! What keys hold is moved aside before a command writes over it, not copied: an empty string with
//! the deadline of the key stands in its place until then.
ghost use Rattle.std.specs.Prelude.{◌≡◌, ◌++◌, [], ◌∷◌, OnOk};
ghost use Rattle.command_words.specs.Space.{held_at};
ghost use Rattle.keyspace.specs.Lending.{with_content};
ghost use Rattle.keyspace.specs.Plain.{content_of};
ghost use Rattle.command_set.specs.Aside.{filled, filled_one, hollow, hollowed, left_beside, moved};
ghost use Rattle.command_set.specs.Aside.{set_aside, writes_over};
ghost use Rattle.command_set.specs.Priors.{Moved, Whole, kept_of, priors_of};

use super::prior::{Kept, Prior};
use command_words::{Command, SetWhen};
use key_cmds::{expiry_after, expiry_at};
use keyspace::{Content, Keyspace};
use resp_value::{NoMemory, Octets};

/// Whether the command writes over what its keys hold, or takes it out, without a look at it.
#[tactic(auto, unfolding(crate::specs::Aside::writes_over))]
pub(crate) fn writes_over(space: &Keyspace, command: &Command, moment: u64) -> bool
    ensures { result ≡ writes_over command.now space.now moment }
{
    match command {
        Command::Set(_, _, when, _) => match when {
            SetWhen::Always | SetWhen::Xx => true,
            SetWhen::Nx => false,
        },
        Command::MSet(_) | Command::Del(_) => true,
        Command::Rename(from, to) => {
            from.as_slice() != to.as_slice() && space.get(from.as_slice()).is_some()
        }
        Command::Expire(_, number) => expiry_after(moment, 1000, *number).is_none(),
        Command::PExpire(_, number) => expiry_after(moment, 1, *number).is_none(),
        Command::ExpireAt(_, number) => expiry_at(moment, 1000, *number).is_none(),
        Command::PExpireAt(_, number) => expiry_at(moment, 1, *number).is_none(),
        _ => false,
    }
}

/// What the key holds is moved aside, and goes last.
fn move_one(space: &mut Keyspace, key: &Octets, aside: &mut Vec<Prior>) -> Result<(), NoMemory>
    ensures aside { OnOk result (priors_of aside.new.items
        ≡ priors_of aside.old.items ++ (key.now, Whole (held_at key.now space.old)) ∷ []) }
    ensures space { OnOk result (space.new ≡ hollow key.now space.old) }
    ensures back { filled (priors_of aside.new.items) space.new
        ≡ filled (priors_of aside.old.items) space.old }
{
    aside.reserve(1)?;
    let name = key.copy()?;
    let held = space.hollow(key.as_slice());
    let kept = Kept::Whole(held);
    aside.push_reserved(Prior { key: name, kept });
    Ok(())
}

/// What each of the keys holds is moved aside, and goes last. Where memory runs out, some of it is
/// aside.
fn move_aside(space: &mut Keyspace, keys: &[Octets], aside: &mut Vec<Prior>) -> Result<(), NoMemory>
    ensures aside { OnOk result (priors_of aside.new.items
        ≡ priors_of aside.old.items ++ moved keys.now space.old) }
    ensures space { OnOk result (space.new ≡ hollowed keys.now space.old) }
    ensures back { filled (priors_of aside.new.items) space.new
        ≡ filled (priors_of aside.old.items) space.old }
{
    for key in keys {
        move_one(space, key, aside)?;
    }
    Ok(())
}

/// What the second key of RENAME holds is moved aside, and goes last; then goes that it will hold
/// what the first one does.
fn move_target(
    space: &mut Keyspace,
    from: &Octets,
    to: &Octets,
    aside: &mut Vec<Prior>,
) -> Result<(), NoMemory>
    ensures aside { OnOk result (priors_of aside.new.items ≡ priors_of aside.old.items
        ++ (to.now, Whole (held_at to.now space.old)) ∷ (from.now, Moved to.now) ∷ []) }
    ensures space { OnOk result (space.new ≡ hollow to.now space.old) }
    ensures back { filled (priors_of aside.new.items) space.new
        ≡ filled (priors_of aside.old.items) space.old }
{
    let key = from.copy()?;
    let kept = Kept::Moved(to.copy()?);
    move_one(space, to, aside)?;
    aside.push(Prior { key, kept })?;
    Ok(())
}

/// What a command writes over that writes these keys is moved aside, and goes last. Where memory
/// runs out, some of it is aside.
#[tactic(auto, unfolding(crate::specs::Aside::set_aside, crate::specs::Aside::left_beside))]
pub(crate) fn set_aside(
    space: &mut Keyspace,
    command: &Command,
    keys: &[Octets],
    aside: &mut Vec<Prior>,
) -> Result<(), NoMemory>
    ensures aside { OnOk result (priors_of aside.new.items
        ≡ priors_of aside.old.items ++ set_aside command.now keys.now space.old) }
    ensures space { OnOk result (space.new ≡ left_beside command.now keys.now space.old) }
    ensures back { filled (priors_of aside.new.items) space.new
        ≡ filled (priors_of aside.old.items) space.old }
{
    match command {
        Command::Rename(from, to) => move_target(space, from, to, aside),
        _ => move_aside(space, keys, aside),
    }
}

/// The key has this content, in place of the one that it has.
fn fill_content(space: &mut Keyspace, key: &[u8], content: Content)
    ensures { space.new ≡ with_content key.now (content_of content) space.old }
{
    if let Some(place) = space.content_mut(key) {
        *place = content;
    }
}

/// What was moved aside is what the key holds again, which takes no memory.
fn fill_one(space: &mut Keyspace, prior: Prior)
    ensures { space.new ≡ filled_one prior.key (kept_of prior.kept) space.old }
{
    let Prior { key, kept } = prior;
    match kept {
        Kept::Whole(held) => {
            if let Some(held) = held {
                fill_content(space, key.as_slice(), held.content);
            }
        }
        Kept::Moved(_other) => {}
        Kept::Life(_at) => {}
        Kept::Size(_len) => {}
        Kept::Field(_field, _value) => {}
        Kept::Taken(_fields) => {}
    }
}

/// All that was moved aside is in its place again, what was moved last first. It takes no memory.
pub(crate) fn fill(space: &mut Keyspace, aside: Vec<Prior>)
    ensures { space.new ≡ filled (priors_of aside.items) space.old }
{
    let mut left = aside;
    'priors: while let Some(prior) = left.pop() {
        fill_one(space, prior);
    }
}
