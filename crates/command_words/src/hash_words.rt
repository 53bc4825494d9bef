//! The words of the commands on hashes.
ghost use Rattle.std.specs.Prelude.{◌≡◌, false, IfNone, IfSome};
ghost use Rattle.std.specs.Str.{bytes_eq, str_to_ascii_lowercase};
ghost use Rattle.command_words.specs.declared.hash_words.HashName.{HashName};
ghost use Rattle.command_words.specs.Reading.{IsReading};
ghost use Rattle.command_words.specs.HashWords.{hash_reading, hincrby_reading, hash_name_text};

use super::command::{Command, WordFault};
use super::names::is_named;
use super::word_counts::{number, one, one_and_more, one_and_pairs, two};
use resp_value::Octets;
use std::alloc::Global;

/// The commands on hashes.
#[derive(Clone, Copy)]
pub(crate) enum HashName {
    HSet,
    HGet,
    HMGet,
    HGetAll,
    HDel,
    HLen,
    HExists,
    HKeys,
    HVals,
    HIncrBy,
}

fn read_hincrby(words: &[Octets]) -> Result<Command, WordFault>
    ensures { IsReading result (hincrby_reading words.now) }
{
    match words {
        [key, field, by] => {
            let by = number(by)?;
            let key = key.copy()?;
            let field = field.copy()?;
            Ok(Command::HIncrBy(key, field, by))
        }
        _ => Err(WordFault::Arity),
    }
}

fn hash_name(word: &Octets) -> Option<HashName>
    ensures some { IfSome result (λ n. str_to_ascii_lowercase word.now ≡ hash_name_text n) }
    ensures none { IfNone result
        ((n : HashName) → bytes_eq (str_to_ascii_lowercase word.now) (hash_name_text n) ≡ false) }
{
    if is_named(word, b"hset") {
        Some(HashName::HSet)
    } else if is_named(word, b"hget") {
        Some(HashName::HGet)
    } else if is_named(word, b"hmget") {
        Some(HashName::HMGet)
    } else if is_named(word, b"hgetall") {
        Some(HashName::HGetAll)
    } else if is_named(word, b"hdel") {
        Some(HashName::HDel)
    } else if is_named(word, b"hlen") {
        Some(HashName::HLen)
    } else if is_named(word, b"hexists") {
        Some(HashName::HExists)
    } else if is_named(word, b"hkeys") {
        Some(HashName::HKeys)
    } else if is_named(word, b"hvals") {
        Some(HashName::HVals)
    } else if is_named(word, b"hincrby") {
        Some(HashName::HIncrBy)
    } else {
        None
    }
}

#[tactic(auto, unfolding(crate::specs::HashWords::hash_reading))]
fn read_hash_row(alloc: Global, name: HashName, words: &[Octets]) -> Result<Command, WordFault>
    ensures { IsReading result (hash_reading (hash_name_text name) words.now) }
{
    match name {
        HashName::HSet => {
            let (first, second) = one_and_pairs(alloc, words)?;
            Ok(Command::HSet(first, second))
        }
        HashName::HGet => {
            let (first, second) = two(words)?;
            Ok(Command::HGet(first, second))
        }
        HashName::HMGet => {
            let (first, second) = one_and_more(alloc, words)?;
            Ok(Command::HMGet(first, second))
        }
        HashName::HGetAll => Ok(Command::HGetAll(one(words)?)),
        HashName::HDel => {
            let (first, second) = one_and_more(alloc, words)?;
            Ok(Command::HDel(first, second))
        }
        HashName::HLen => Ok(Command::HLen(one(words)?)),
        HashName::HExists => {
            let (first, second) = two(words)?;
            Ok(Command::HExists(first, second))
        }
        HashName::HKeys => Ok(Command::HKeys(one(words)?)),
        HashName::HVals => Ok(Command::HVals(one(words)?)),
        HashName::HIncrBy => read_hincrby(words),
    }
}

pub(crate) fn read_hash_command(
    alloc: Global,
    name: &Octets,
    words: &[Octets],
) -> Result<Command, WordFault>
    ensures { IsReading result (hash_reading (str_to_ascii_lowercase name.now) words.now) }
{
    match hash_name(name) {
        Some(name) => read_hash_row(alloc, name, words),
        None => Err(WordFault::Unknown),
    }
}
