//! Each command on hashes, by its row.
ghost use Rattle.std.specs.Prelude.{◌≡◌, true};
ghost use Rattle.command_words.specs.Effects.{effect, is_hash};
ghost use Rattle.command_rows.specs.Rows.{IsRow};

use super::numbers::hincrby;
use super::reads::{hexists, hget, hgetall, hkeys, hlen, hmget, hvals};
use super::writes::{hdel, hset};
use command_rows::replied;
use command_words::{Command, Done};
use keyspace::Keyspace;
use resp_value::NoMemory;
use std::alloc::Global;

/// Runs a command on hashes: the reply, the new keyspace and the keys that changed are those of
/// the command's row, at any moment. Where memory runs out, the keyspace is as before.
#[tactic(auto, unfolding(crate::specs::Rows::effect, crate::specs::Rows::hash_effect))]
pub fn run_hash(
    alloc: Global,
    space: &mut Keyspace,
    command: &Command,
    moment: u64,
) -> Result<Done, NoMemory>
    requires { is_hash command.now ≡ true }
    ensures { IsRow (effect command.now space.old moment) result space.old space.new }
{
    match command {
        Command::HSet(key, words) => hset(alloc, space, key.as_slice(), words.as_slice()),
        Command::HGet(key, field) => Ok(replied(
            alloc,
            hget(alloc, space, key.as_slice(), field.as_slice())?,
        )),
        Command::HMGet(key, names) => Ok(replied(
            alloc,
            hmget(alloc, space, key.as_slice(), names.as_slice())?,
        )),
        Command::HGetAll(key) => Ok(replied(alloc, hgetall(alloc, space, key.as_slice())?)),
        Command::HDel(key, names) => hdel(alloc, space, key.as_slice(), names.as_slice()),
        Command::HLen(key) => Ok(replied(alloc, hlen(alloc, space, key.as_slice())?)),
        Command::HExists(key, field) => Ok(replied(
            alloc,
            hexists(alloc, space, key.as_slice(), field.as_slice())?,
        )),
        Command::HKeys(key) => Ok(replied(alloc, hkeys(alloc, space, key.as_slice())?)),
        Command::HVals(key) => Ok(replied(alloc, hvals(alloc, space, key.as_slice())?)),
        Command::HIncrBy(key, field, number) => {
            hincrby(alloc, space, key.as_slice(), field.as_slice(), number)
        }
        _ => unreachable!(),
    }
}

/// Whether the command is one on hashes.
pub fn is_hash(command: &Command) -> bool
    ensures { result ≡ is_hash command.now }
{
    match command {
        Command::HSet(_, _)
        | Command::HGet(_, _)
        | Command::HMGet(_, _)
        | Command::HGetAll(_)
        | Command::HDel(_, _)
        | Command::HLen(_)
        | Command::HExists(_, _)
        | Command::HKeys(_)
        | Command::HVals(_)
        | Command::HIncrBy(_, _, _) => true,
        _ => false,
    }
}
