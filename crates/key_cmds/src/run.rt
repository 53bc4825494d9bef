//! Each command on keys, by its row.
ghost use Rattle.std.specs.Prelude.{◌≡◌, true};
ghost use Rattle.command_words.specs.Effects.{effect, is_key};
ghost use Rattle.command_rows.specs.Rows.{IsRow};

use super::deadlines::{expire, expiry_after, expiry_at, persist};
use super::reads::{dbsize, exists, key_type, pttl, ttl};
use super::writes::{del, flush, rename};
use command_rows::replied;
use command_words::{Command, Done};
use keyspace::Keyspace;
use resp_value::NoMemory;
use std::alloc::Global;

/// Runs a command on keys: the reply, the new keyspace and the keys that changed are those of the
/// command's row. Where memory runs out, the keyspace is as before.
#[tactic(auto, unfolding(crate::specs::Rows::effect, crate::specs::Rows::key_effect))]
pub fn run_key(
    alloc: Global,
    space: &mut Keyspace,
    command: &Command,
    moment: u64,
) -> Result<Done, NoMemory>
    requires { is_key command.now ≡ true }
    ensures { IsRow (effect command.now space.old moment) result space.old space.new }
{
    match command {
        Command::Del(keys) => del(alloc, space, keys.as_slice()),
        Command::Exists(keys) => Ok(replied(alloc, exists(space, keys.as_slice()))),
        Command::KeyType(key) => Ok(replied(alloc, key_type(alloc, space, key.as_slice())?)),
        Command::Rename(from, to) => rename(alloc, space, from, to),
        Command::Expire(key, number) => {
            let expiry = expiry_after(moment, 1000, *number);
            expire(alloc, space, key.as_slice(), expiry)
        }
        Command::PExpire(key, number) => {
            let expiry = expiry_after(moment, 1, *number);
            expire(alloc, space, key.as_slice(), expiry)
        }
        Command::ExpireAt(key, number) => {
            let expiry = expiry_at(moment, 1000, *number);
            expire(alloc, space, key.as_slice(), expiry)
        }
        Command::PExpireAt(key, number) => {
            let expiry = expiry_at(moment, 1, *number);
            expire(alloc, space, key.as_slice(), expiry)
        }
        Command::Ttl(key) => Ok(replied(alloc, ttl(space, key.as_slice(), moment))),
        Command::PTtl(key) => Ok(replied(alloc, pttl(space, key.as_slice(), moment))),
        Command::Persist(key) => persist(alloc, space, key.as_slice()),
        Command::DbSize => Ok(replied(alloc, dbsize(space))),
        Command::FlushAll(_) | Command::FlushDb(_) => flush(alloc, space),
        _ => unreachable!(),
    }
}

/// Whether the command is one on keys.
pub fn is_key(command: &Command) -> bool
    ensures { result ≡ is_key command.now }
{
    match command {
        Command::Del(_)
        | Command::Exists(_)
        | Command::KeyType(_)
        | Command::Rename(_, _)
        | Command::Expire(_, _)
        | Command::PExpire(_, _)
        | Command::ExpireAt(_, _)
        | Command::PExpireAt(_, _)
        | Command::Ttl(_)
        | Command::PTtl(_)
        | Command::Persist(_)
        | Command::DbSize
        | Command::FlushAll(_)
        | Command::FlushDb(_) => true,
        _ => false,
    }
}
