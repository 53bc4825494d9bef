//! The words of the commands on keys of any type.
ghost use Rattle.std.specs.Prelude.{◌≡◌, false, IfNone, IfSome};
ghost use Rattle.std.specs.Str.{bytes_eq, str_to_ascii_lowercase};
ghost use Rattle.command_words.specs.declared.key_words.KeyName.{KeyName};
ghost use Rattle.command_words.specs.Reading.{IsReading};
ghost use Rattle.command_words.specs.KeyWords.{fits_in_millis, flush_mode, key_reading};
ghost use Rattle.command_words.specs.KeyWords.{key_name_text};
ghost use Rattle.command_words.specs.KeyWords.{one_and_seconds};

use super::command::{Command, FlushMode, WordFault};
use super::names::is_named;
use super::word_counts::{at_least_one, no_word, one, one_and_number, two};
use resp_value::Octets;
use std::alloc::Global;

/// The commands on keys of any type.
#[derive(Clone, Copy)]
pub(crate) enum KeyName {
    Del,
    Exists,
    KeyType,
    Rename,
    Expire,
    PExpire,
    ExpireAt,
    PExpireAt,
    Ttl,
    PTtl,
    Persist,
    DbSize,
    FlushAll,
    FlushDb,
}

fn fits_in_millis(seconds: i64) -> bool
    ensures { result ≡ fits_in_millis seconds }
{
    seconds.checked_mul(1000).is_some()
}

fn one_and_seconds(words: &[Octets]) -> Result<(Octets, i64), WordFault>
    ensures { IsReading result (one_and_seconds words.now) }
{
    let (word, seconds) = one_and_number(words)?;
    if fits_in_millis(seconds) {
        Ok((word, seconds))
    } else {
        Err(WordFault::BadExpire)
    }
}

fn flush_mode(words: &[Octets]) -> Result<FlushMode, WordFault>
    ensures { IsReading result (flush_mode words.now) }
{
    match words {
        [] => Ok(FlushMode::Plain),
        [word] if is_named(word, b"async") => Ok(FlushMode::Async),
        [word] if is_named(word, b"sync") => Ok(FlushMode::Sync),
        _ => Err(WordFault::Syntax),
    }
}

fn key_name(word: &Octets) -> Option<KeyName>
    ensures some { IfSome result (λ n. str_to_ascii_lowercase word.now ≡ key_name_text n) }
    ensures none { IfNone result
        ((n : KeyName) → bytes_eq (str_to_ascii_lowercase word.now) (key_name_text n) ≡ false) }
{
    if is_named(word, b"del") {
        Some(KeyName::Del)
    } else if is_named(word, b"exists") {
        Some(KeyName::Exists)
    } else if is_named(word, b"type") {
        Some(KeyName::KeyType)
    } else if is_named(word, b"rename") {
        Some(KeyName::Rename)
    } else if is_named(word, b"expire") {
        Some(KeyName::Expire)
    } else if is_named(word, b"pexpire") {
        Some(KeyName::PExpire)
    } else if is_named(word, b"expireat") {
        Some(KeyName::ExpireAt)
    } else if is_named(word, b"pexpireat") {
        Some(KeyName::PExpireAt)
    } else if is_named(word, b"ttl") {
        Some(KeyName::Ttl)
    } else if is_named(word, b"pttl") {
        Some(KeyName::PTtl)
    } else if is_named(word, b"persist") {
        Some(KeyName::Persist)
    } else if is_named(word, b"dbsize") {
        Some(KeyName::DbSize)
    } else if is_named(word, b"flushall") {
        Some(KeyName::FlushAll)
    } else if is_named(word, b"flushdb") {
        Some(KeyName::FlushDb)
    } else {
        None
    }
}

#[tactic(auto, unfolding(crate::specs::KeyWords::key_reading))]
fn read_key_row(alloc: Global, name: KeyName, words: &[Octets]) -> Result<Command, WordFault>
    ensures { IsReading result (key_reading (key_name_text name) words.now) }
{
    match name {
        KeyName::Del => Ok(Command::Del(at_least_one(alloc, words)?)),
        KeyName::Exists => Ok(Command::Exists(at_least_one(alloc, words)?)),
        KeyName::KeyType => Ok(Command::KeyType(one(words)?)),
        KeyName::Rename => {
            let (first, second) = two(words)?;
            Ok(Command::Rename(first, second))
        }
        KeyName::Expire => {
            let (first, second) = one_and_seconds(words)?;
            Ok(Command::Expire(first, second))
        }
        KeyName::PExpire => {
            let (first, second) = one_and_number(words)?;
            Ok(Command::PExpire(first, second))
        }
        KeyName::ExpireAt => {
            let (first, second) = one_and_seconds(words)?;
            Ok(Command::ExpireAt(first, second))
        }
        KeyName::PExpireAt => {
            let (first, second) = one_and_number(words)?;
            Ok(Command::PExpireAt(first, second))
        }
        KeyName::Ttl => Ok(Command::Ttl(one(words)?)),
        KeyName::PTtl => Ok(Command::PTtl(one(words)?)),
        KeyName::Persist => Ok(Command::Persist(one(words)?)),
        KeyName::DbSize => {
            no_word(words)?;
            Ok(Command::DbSize)
        }
        KeyName::FlushAll => Ok(Command::FlushAll(flush_mode(words)?)),
        KeyName::FlushDb => Ok(Command::FlushDb(flush_mode(words)?)),
    }
}

pub(crate) fn read_key_command(
    alloc: Global,
    name: &Octets,
    words: &[Octets],
) -> Result<Command, WordFault>
    ensures { IsReading result (key_reading (str_to_ascii_lowercase name.now) words.now) }
{
    match key_name(name) {
        Some(name) => read_key_row(alloc, name, words),
        None => Err(WordFault::Unknown),
    }
}
