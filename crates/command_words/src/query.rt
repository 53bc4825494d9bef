//! Cacheable queries.
ghost use Rattle.std.specs.Prelude.{◌≡◌, IfOk, Some};
ghost use Rattle.std.specs.Cmp.Lexicographic.{pointwise};
ghost use Rattle.std.specs.Str.{bytes_eq, str_to_ascii_uppercase};
ghost use Rattle.command_words.specs.Words.{reading};
ghost use Rattle.command_words.specs.Queries.{is_cacheable, reads_as_cacheable, with_upper_name};
ghost use Rattle.command_words.specs.Queries.{query_of, key_of, same_query};

use super::command::{Command, WordFault};
use super::lists::push_all;
use super::read::read_command;
use resp_value::{NoMemory, Octets, Words};
use std::alloc::Global;
use std::marker::Model;

/// A read whose reply may be held by a client: its words, with the name in upper case.
///
/// The reply depends on the content of one key alone (the Redis client-side caching reference).
#[derive(Debug, Drop)]
pub struct Query {
    words: Words,
}

impl Model for Query {
    ghost use Rattle.std.specs.Prelude.{◌≡◌, List, ℕ, Some};
    ghost use Rattle.command_words.specs.Queries.{query_of};

    ghost Value = { List (List ℕ) };

    ghost view = { λ q. q.words };

    ghost invariant = { λ q. query_of q.words ≡ Some q.words };
}

fn are_same(left: &[Octets], right: &[Octets]) -> bool
    ensures { result ≡ pointwise bytes_eq left.now right.now }
{
    let mut others = right;
    for word in left {
        let [other, rest @ ..] = others else {
            return false;
        };
        if word.as_slice() != other.as_slice() {
            return false;
        }
        others = rest;
    }
    others.is_empty()
}

fn is_cacheable(command: &Command) -> bool
    ensures { result ≡ is_cacheable command.now }
{
    match command {
        Command::Get(_) | Command::StrLen(_) | Command::GetRange(_, _, _) => true,
        Command::HGet(_, _) | Command::HMGet(_, _) | Command::HGetAll(_) => true,
        Command::HLen(_) | Command::HExists(_, _) | Command::HKeys(_) | Command::HVals(_) => true,
        Command::Exists(keys) => matches!(keys.as_slice(), [_]),
        Command::KeyType(_) => true,
        _ => false,
    }
}

fn reads_as_cacheable(alloc: Global, words: &Words) -> Result<bool, NoMemory>
    ensures { IfOk result (λ b. b ≡ reads_as_cacheable (reading words.now)) }
{
    match read_command(alloc, words) {
        Ok(command) => Ok(is_cacheable(&command)),
        Err(WordFault::NoMemory) => Err(NoMemory),
        Err(_) => Ok(false),
    }
}

fn upper_case(alloc: Global, name: &Octets) -> Result<Octets, NoMemory>
    ensures { IfOk result (λ n. n ≡ str_to_ascii_uppercase name.now) }
{
    let mut upper = Vec::from_slice(alloc, name.as_slice())?;
    upper.make_ascii_uppercase();
    Ok(Octets::from_vec(upper))
}

fn with_upper_name(alloc: Global, words: &[Octets]) -> Result<Words, NoMemory>
    ensures { IfOk result (λ w. w ≡ with_upper_name words.now) }
{
    let mut copied = Words::new(alloc);
    if let [name, rest @ ..] = words {
        copied.push(upper_case(alloc, name)?)?;
        push_all(rest, &mut copied)?;
    }
    Ok(copied)
}

impl Query {
    /// The query that the words are, where they are one: names are read without regard to case.
    pub fn read(alloc: Global, words: &Words) -> Result<Option<Query>, NoMemory>
        ensures { IfOk result (λ q. q ≡ query_of words.now) }
    {
        if !reads_as_cacheable(alloc, words)? {
            return Ok(None);
        }
        let words = with_upper_name(alloc, words.as_slice())?;
        Ok(Some(Query { words }))
    }

    /// The key that it reads.
    pub fn key(&self) -> &[u8]
        ensures { result.now ≡ key_of self.now }
    {
        self.words.as_slice()[1].as_slice()
    }

    /// Its words, with the name in upper case.
    pub fn words(&self) -> &Words
        ensures words { result.now ≡ self.now }
        ensures query { query_of self.now ≡ Some self.now }
    {
        &self.words
    }

    /// Whether both have the same words.
    pub fn is_same(&self, other: &Query) -> bool
        ensures { result ≡ same_query self.now other.now }
    {
        are_same(self.words.as_slice(), other.words.as_slice())
    }

    /// An equal query.
    pub fn copy(&self) -> Result<Query, NoMemory>
        ensures { IfOk result (λ q. q ≡ self.now) }
    {
        let words = self.words.copy()?;
        Ok(Query { words })
    }
}
