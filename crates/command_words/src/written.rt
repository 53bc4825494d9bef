//! The keys that commands change.
ghost use Rattle.std.specs.Prelude.{◌≡◌, ◌∷◌, ◌++◌, [], IfOk, OnOk};
ghost use Rattle.command_words.specs.Queries.{keys_in_turn, written, written_by, names};

use super::command::{Command, WordFault};
use super::lists::{copies, has};
use super::read::read_command;
use resp_value::{NoMemory, Octets, Words};
use std::alloc::Global;

/// The keys that a command can change.
#[derive(Debug, Drop)]
pub enum Written {
    Keys(Words),
    All,
}

pub(crate) fn one(alloc: Global, key: &Octets) -> Result<Words, NoMemory>
    ensures { IfOk result (λ w. w ≡ key.now ∷ []) }
{
    let mut keys = Words::new(alloc);
    keys.push(key.copy()?)?;
    Ok(keys)
}

fn two(alloc: Global, first: &Octets, second: &Octets) -> Result<Words, NoMemory>
    ensures { IfOk result (λ w. w ≡ first.now ∷ second.now ∷ []) }
{
    let mut keys = one(alloc, first)?;
    keys.push(second.copy()?)?;
    Ok(keys)
}

/// The keys among keys and values in turn go last.
fn push_keys(words: &[Octets], out: &mut Words) -> Result<(), NoMemory>
    ensures { OnOk result (out.new ≡ out.old ++ keys_in_turn words.now) }
{
    let mut rest = words;
    'pairs: while let [key, _, after @ ..] = rest {
        out.push(key.copy()?)?;
        rest = after;
    }
    Ok(())
}

fn keys_of_pairs(alloc: Global, words: &[Octets]) -> Result<Words, NoMemory>
    ensures { IfOk result (λ w. w ≡ keys_in_turn words.now) }
{
    let mut keys = Words::new(alloc);
    push_keys(words, &mut keys)?;
    Ok(keys)
}

/// The keys that the command can change, in the order of its words.
pub fn keys_written(alloc: Global, command: &Command) -> Result<Written, NoMemory>
    ensures { IfOk result (λ w. w ≡ written command.now) }
{
    let keys = match command {
        Command::Set(key, _, _, _) => one(alloc, key)?,
        Command::SetNx(key, _) | Command::Append(key, _) => one(alloc, key)?,
        Command::GetDel(key) | Command::Incr(key) | Command::Decr(key) => one(alloc, key)?,
        Command::IncrBy(key, _) | Command::DecrBy(key, _) => one(alloc, key)?,
        Command::MSet(words) => keys_of_pairs(alloc, words.as_slice())?,
        Command::HSet(key, _) | Command::HDel(key, _) => one(alloc, key)?,
        Command::HIncrBy(key, _, _) | Command::Persist(key) => one(alloc, key)?,
        Command::Del(keys) => copies(alloc, keys.as_slice())?,
        Command::Rename(old, new) => two(alloc, old, new)?,
        Command::Expire(key, _) | Command::PExpire(key, _) => one(alloc, key)?,
        Command::ExpireAt(key, _) | Command::PExpireAt(key, _) => one(alloc, key)?,
        Command::FlushAll(_) | Command::FlushDb(_) => return Ok(Written::All),
        _ => Words::new(alloc),
    };
    Ok(Written::Keys(keys))
}

/// The keys that a command of these words can change: none where the words are no command.
#[tactic(auto, unfolding(crate::specs::Queries::written_by))]
pub fn written_by(alloc: Global, words: &Words) -> Result<Written, NoMemory>
    ensures { IfOk result (λ w. w ≡ written_by words.now) }
{
    match read_command(alloc, words) {
        Ok(command) => keys_written(alloc, &command),
        Err(WordFault::NoMemory) => Err(NoMemory),
        Err(_) => Ok(Written::Keys(Words::new(alloc))),
    }
}

impl Written {
    /// Whether the key is among them.
    pub fn names(&self, key: &[u8]) -> bool
        ensures { result ≡ names self.now key.now }
    {
        match self {
            Written::Keys(keys) => has(keys.as_slice(), key),
            Written::All => true,
        }
    }
}
