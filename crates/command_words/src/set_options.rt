//! The options of SET.
ghost use Rattle.std.specs.Prelude.{◌≡◌, if◌then◌else◌};
ghost use Rattle.command_words.specs.declared.command.SetWhen.TheVariants.{Always};
ghost use Rattle.command_words.specs.declared.command.SetLife.TheVariants.{Cleared};
ghost use Rattle.command_words.specs.declared.command.WordFault.TheVariants.{Syntax};
ghost use Rattle.command_words.specs.Reading.{IsReading};
ghost use Rattle.command_words.specs.SetOptions.{is_always, is_cleared, life, set_options};

use super::command::{SetLife, SetWhen, WordFault};
use super::names::is_named;
use super::word_counts::number;
use resp_value::Octets;

fn seconds(word: &Octets) -> Result<i64, WordFault>
    ensures { IsReading result (life 1000 word.now) }
{
    let seconds = number(word)?;
    if seconds > 0 && seconds.checked_mul(1000).is_some() {
        Ok(seconds)
    } else {
        Err(WordFault::BadExpire)
    }
}

fn millis(word: &Octets) -> Result<i64, WordFault>
    ensures { IsReading result (life 1 word.now) }
{
    let millis = number(word)?;
    if millis > 0 {
        Ok(millis)
    } else {
        Err(WordFault::BadExpire)
    }
}

fn is_always(when: SetWhen) -> bool
    ensures { result ≡ is_always when }
{
    match when {
        SetWhen::Always => true,
        SetWhen::Nx | SetWhen::Xx => false,
    }
}

/// NX or XX, where none was read before.
fn first_when(had: SetWhen, new: SetWhen) -> Result<SetWhen, WordFault>
    ensures { IsReading result (if is_always had then Ok new else Err Syntax) }
{
    if is_always(had) {
        Ok(new)
    } else {
        Err(WordFault::Syntax)
    }
}

/// No deadline was read before.
fn no_life(had: SetLife) -> Result<(), WordFault>
    ensures { IsReading result (if is_cleared had then Ok tt else Err Syntax) }
{
    match had {
        SetLife::Cleared => Ok(()),
        SetLife::Seconds(_) | SetLife::Millis(_) | SetLife::Kept => Err(WordFault::Syntax),
    }
}

/// When SET sets, and the deadline that it leaves.
pub(crate) fn set_options(words: &[Octets]) -> Result<(SetWhen, SetLife), WordFault>
    ensures { IsReading result (set_options Always Cleared words.now) }
{
    let mut when = SetWhen::Always;
    let mut life = SetLife::Cleared;
    let mut rest = words;
    while let [word, after @ ..] = rest {
        rest = after;
        if is_named(word, b"nx") {
            when = first_when(when, SetWhen::Nx)?;
        } else if is_named(word, b"xx") {
            when = first_when(when, SetWhen::Xx)?;
        } else if is_named(word, b"keepttl") {
            no_life(life)?;
            life = SetLife::Kept;
        } else if is_named(word, b"ex") {
            no_life(life)?;
            let [length, after @ ..] = rest else {
                return Err(WordFault::Syntax);
            };
            life = SetLife::Seconds(seconds(length)?);
            rest = after;
        } else if is_named(word, b"px") {
            no_life(life)?;
            let [length, after @ ..] = rest else {
                return Err(WordFault::Syntax);
            };
            life = SetLife::Millis(millis(length)?);
            rest = after;
        } else {
            return Err(WordFault::Syntax);
        }
    }
    Ok((when, life))
}
