//! The words after a name, by how many the command takes.
ghost use Rattle.std.specs.Prelude.{◌≡◌};
ghost use Rattle.command_words.specs.Reading.{IsReading};
ghost use Rattle.command_words.specs.WordCounts.{no_word, one, two, at_most_one, at_least_one};
ghost use Rattle.command_words.specs.WordCounts.{one_and_more, in_pairs, one_and_pairs, number};
ghost use Rattle.command_words.specs.WordCounts.{one_and_number};

use super::command::WordFault;
use super::integer::read_integer;
use super::lists::copies;
use resp_value::{Octets, Words};
use std::alloc::Global;

pub(crate) fn no_word(words: &[Octets]) -> Result<(), WordFault>
    ensures { IsReading result (no_word words.now) }
{
    match words {
        [] => Ok(()),
        _ => Err(WordFault::Arity),
    }
}

pub(crate) fn one(words: &[Octets]) -> Result<Octets, WordFault>
    ensures { IsReading result (one words.now) }
{
    match words {
        [word] => Ok(word.copy()?),
        _ => Err(WordFault::Arity),
    }
}

pub(crate) fn two(words: &[Octets]) -> Result<(Octets, Octets), WordFault>
    ensures { IsReading result (two words.now) }
{
    match words {
        [first, second] => {
            let first = first.copy()?;
            let second = second.copy()?;
            Ok((first, second))
        }
        _ => Err(WordFault::Arity),
    }
}

pub(crate) fn at_most_one(words: &[Octets]) -> Result<Option<Octets>, WordFault>
    ensures { IsReading result (at_most_one words.now) }
{
    match words {
        [] => Ok(None),
        [word] => Ok(Some(word.copy()?)),
        _ => Err(WordFault::Arity),
    }
}

pub(crate) fn at_least_one(alloc: Global, words: &[Octets]) -> Result<Words, WordFault>
    ensures { IsReading result (at_least_one words.now) }
{
    if words.is_empty() {
        return Err(WordFault::Arity);
    }
    Ok(copies(alloc, words)?)
}

pub(crate) fn one_and_more(alloc: Global, words: &[Octets]) -> Result<(Octets, Words), WordFault>
    ensures { IsReading result (one_and_more words.now) }
{
    match words {
        [word, rest @ ..] if !rest.is_empty() => {
            let word = word.copy()?;
            let rest = copies(alloc, rest)?;
            Ok((word, rest))
        }
        _ => Err(WordFault::Arity),
    }
}

pub(crate) fn in_pairs(alloc: Global, words: &[Octets]) -> Result<Words, WordFault>
    ensures { IsReading result (in_pairs words.now) }
{
    if words.is_empty() || words.len() % 2 != 0 {
        return Err(WordFault::Arity);
    }
    Ok(copies(alloc, words)?)
}

pub(crate) fn one_and_pairs(alloc: Global, words: &[Octets]) -> Result<(Octets, Words), WordFault>
    ensures { IsReading result (one_and_pairs words.now) }
{
    match words {
        [] => Err(WordFault::Arity),
        [word, rest @ ..] => {
            let rest = in_pairs(alloc, rest)?;
            let word = word.copy()?;
            Ok((word, rest))
        }
    }
}

pub(crate) fn number(word: &Octets) -> Result<i64, WordFault>
    ensures { IsReading result (number word.now) }
{
    match read_integer(word.as_slice()) {
        Some(number) => Ok(number),
        None => Err(WordFault::BadNumber),
    }
}

pub(crate) fn one_and_number(words: &[Octets]) -> Result<(Octets, i64), WordFault>
    ensures { IsReading result (one_and_number words.now) }
{
    match words {
        [word, second] => {
            let second = number(second)?;
            let word = word.copy()?;
            Ok((word, second))
        }
        _ => Err(WordFault::Arity),
    }
}
