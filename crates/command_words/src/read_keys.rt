//! The keys that reads name.
ghost use Rattle.std.specs.Prelude.{◌≡◌, IfOk, OnOk};
ghost use Rattle.command_words.specs.KeyLists.{each_once, with_key};
ghost use Rattle.command_words.specs.Queries.{read};

use super::command::Command;
use super::lists::has;
use super::written::one;
use resp_value::{NoMemory, Octets, Words};
use std::alloc::Global;

fn push_once(word: &Octets, keys: &mut Words) -> Result<(), NoMemory>
    ensures { OnOk result (keys.new ≡ with_key word.now keys.old) }
{
    if has(keys.as_slice(), word.as_slice()) {
        return Ok(());
    }
    keys.push(word.copy()?)
}

/// The words in order of first occurrence. It looks at each of those before a word again.
fn first_ones(alloc: Global, words: &[Octets]) -> Result<Words, NoMemory>
    ensures { IfOk result (λ w. w ≡ each_once words.now) }
{
    let mut keys = Words::new(alloc);
    for word in words {
        push_once(word, &mut keys)?;
    }
    Ok(keys)
}

/// The keys that a read names, in order, each once; none for another command.
pub fn keys_read(alloc: Global, command: &Command) -> Result<Words, NoMemory>
    ensures { IfOk result (λ w. w ≡ read command.now) }
{
    match command {
        Command::Get(key) | Command::StrLen(key) | Command::GetRange(key, _, _) => one(alloc, key),
        Command::HGet(key, _) | Command::HMGet(key, _) | Command::HGetAll(key) => one(alloc, key),
        Command::HLen(key) | Command::HExists(key, _) | Command::HKeys(key) => one(alloc, key),
        Command::HVals(key) | Command::KeyType(key) => one(alloc, key),
        Command::Ttl(key) | Command::PTtl(key) => one(alloc, key),
        Command::MGet(keys) | Command::Exists(keys) => first_ones(alloc, keys.as_slice()),
        _ => Ok(Words::new(alloc)),
    }
}
