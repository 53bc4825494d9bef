//! The words of the commands on strings.
ghost use Rattle.std.specs.Prelude.{◌≡◌, false, IfNone, IfSome};
ghost use Rattle.std.specs.Str.{bytes_eq, str_to_ascii_lowercase};
ghost use Rattle.command_words.specs.declared.string_words.StringName.{StringName};
ghost use Rattle.command_words.specs.Reading.{IsReading};
ghost use Rattle.command_words.specs.SetOptions.{set_reading};
ghost use Rattle.command_words.specs.StringWords.{range_reading, string_reading, string_name_text};

use super::command::{Command, WordFault};
use super::names::is_named;
use super::set_options::set_options;
use super::word_counts::{at_least_one, in_pairs, number, one, one_and_number, two};
use resp_value::Octets;
use std::alloc::Global;

/// The commands on strings.
#[derive(Clone, Copy)]
pub(crate) enum StringName {
    Get,
    Set,
    SetNx,
    GetDel,
    Append,
    StrLen,
    GetRange,
    Incr,
    Decr,
    IncrBy,
    DecrBy,
    MGet,
    MSet,
}

#[tactic(auto, unfolding(crate::specs::SetOptions::set_reading))]
fn read_set(words: &[Octets]) -> Result<Command, WordFault>
    ensures { IsReading result (set_reading words.now) }
{
    match words {
        [key, value, options @ ..] => {
            let (when, life) = set_options(options)?;
            let key = key.copy()?;
            let value = value.copy()?;
            Ok(Command::Set(key, value, when, life))
        }
        _ => Err(WordFault::Arity),
    }
}

fn read_range(words: &[Octets]) -> Result<Command, WordFault>
    ensures { IsReading result (range_reading words.now) }
{
    match words {
        [key, first, last] => {
            let first = number(first)?;
            let last = number(last)?;
            Ok(Command::GetRange(key.copy()?, first, last))
        }
        _ => Err(WordFault::Arity),
    }
}

fn string_name(word: &Octets) -> Option<StringName>
    ensures some { IfSome result (λ n. str_to_ascii_lowercase word.now ≡ string_name_text n) }
    ensures none { IfNone result
        ((n : StringName) → bytes_eq (str_to_ascii_lowercase word.now)
        (string_name_text n) ≡ false) }
{
    if is_named(word, b"get") {
        Some(StringName::Get)
    } else if is_named(word, b"set") {
        Some(StringName::Set)
    } else if is_named(word, b"setnx") {
        Some(StringName::SetNx)
    } else if is_named(word, b"getdel") {
        Some(StringName::GetDel)
    } else if is_named(word, b"append") {
        Some(StringName::Append)
    } else if is_named(word, b"strlen") {
        Some(StringName::StrLen)
    } else if is_named(word, b"getrange") {
        Some(StringName::GetRange)
    } else if is_named(word, b"incr") {
        Some(StringName::Incr)
    } else if is_named(word, b"decr") {
        Some(StringName::Decr)
    } else if is_named(word, b"incrby") {
        Some(StringName::IncrBy)
    } else if is_named(word, b"decrby") {
        Some(StringName::DecrBy)
    } else if is_named(word, b"mget") {
        Some(StringName::MGet)
    } else if is_named(word, b"mset") {
        Some(StringName::MSet)
    } else {
        None
    }
}

#[tactic(auto, unfolding(crate::specs::StringWords::string_reading))]
fn read_string_row(alloc: Global, name: StringName, words: &[Octets]) -> Result<Command, WordFault>
    ensures { IsReading result (string_reading (string_name_text name) words.now) }
{
    match name {
        StringName::Get => Ok(Command::Get(one(words)?)),
        StringName::Set => read_set(words),
        StringName::SetNx => {
            let (first, second) = two(words)?;
            Ok(Command::SetNx(first, second))
        }
        StringName::GetDel => Ok(Command::GetDel(one(words)?)),
        StringName::Append => {
            let (first, second) = two(words)?;
            Ok(Command::Append(first, second))
        }
        StringName::StrLen => Ok(Command::StrLen(one(words)?)),
        StringName::GetRange => read_range(words),
        StringName::Incr => Ok(Command::Incr(one(words)?)),
        StringName::Decr => Ok(Command::Decr(one(words)?)),
        StringName::IncrBy => {
            let (first, second) = one_and_number(words)?;
            Ok(Command::IncrBy(first, second))
        }
        StringName::DecrBy => {
            let (first, second) = one_and_number(words)?;
            Ok(Command::DecrBy(first, second))
        }
        StringName::MGet => Ok(Command::MGet(at_least_one(alloc, words)?)),
        StringName::MSet => Ok(Command::MSet(in_pairs(alloc, words)?)),
    }
}

pub(crate) fn read_string_command(
    alloc: Global,
    name: &Octets,
    words: &[Octets],
) -> Result<Command, WordFault>
    ensures { IsReading result (string_reading (str_to_ascii_lowercase name.now) words.now) }
{
    match string_name(name) {
        Some(name) => read_string_row(alloc, name, words),
        None => Err(WordFault::Unknown),
    }
}
