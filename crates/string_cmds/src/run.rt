//! Each command on strings, by its row.
ghost use Rattle.std.specs.Prelude.{◌≡◌, true};
ghost use Rattle.command_words.specs.Effects.{effect, is_string};
ghost use Rattle.command_rows.specs.Rows.{IsRow};

use super::numbers::{decrby, incrby};
use super::reads::{get, getrange, mget, strlen};
use super::writes::{append, getdel, mset, set, setnx};
use command_rows::replied;
use command_words::{Command, Done};
use keyspace::Keyspace;
use resp_value::NoMemory;
use std::alloc::Global;

/// Runs a command on strings: the reply, the new keyspace and the keys that changed are those of
/// the command's row. Where memory runs out, the keyspace is as before.
#[tactic(auto, unfolding(crate::specs::Rows::effect, crate::specs::Rows::string_effect))]
pub fn run_string(
    alloc: Global,
    space: &mut Keyspace,
    command: &Command,
    moment: u64,
) -> Result<Done, NoMemory>
    requires { is_string command.now ≡ true }
    ensures { IsRow (effect command.now space.old moment) result space.old space.new }
{
    match command {
        Command::Get(key) => Ok(replied(alloc, get(alloc, space, key.as_slice())?)),
        Command::Set(key, value, when, life) => {
            set(alloc, space, key.as_slice(), value, *when, *life, moment)
        }
        Command::SetNx(key, value) => setnx(alloc, space, key.as_slice(), value),
        Command::GetDel(key) => getdel(alloc, space, key.as_slice()),
        Command::Append(key, value) => append(alloc, space, key.as_slice(), value),
        Command::StrLen(key) => Ok(replied(alloc, strlen(alloc, space, key.as_slice())?)),
        Command::GetRange(key, a, b) => {
            Ok(replied(alloc, getrange(alloc, space, key.as_slice(), *a, *b)?))
        }
        Command::Incr(key) => incrby(alloc, space, key.as_slice(), &1),
        Command::Decr(key) => incrby(alloc, space, key.as_slice(), &-1),
        Command::IncrBy(key, number) => incrby(alloc, space, key.as_slice(), number),
        Command::DecrBy(key, number) => decrby(alloc, space, key.as_slice(), *number),
        Command::MGet(keys) => Ok(replied(alloc, mget(alloc, space, keys.as_slice())?)),
        Command::MSet(words) => mset(alloc, space, words.as_slice()),
        _ => unreachable!(),
    }
}

/// Whether the command is one on strings.
pub fn is_string(command: &Command) -> bool
    ensures { result ≡ is_string command.now }
{
    match command {
        Command::Get(_)
        | Command::Set(_, _, _, _)
        | Command::SetNx(_, _)
        | Command::GetDel(_)
        | Command::Append(_, _)
        | Command::StrLen(_)
        | Command::GetRange(_, _, _)
        | Command::Incr(_)
        | Command::Decr(_)
        | Command::IncrBy(_, _)
        | Command::DecrBy(_, _)
        | Command::MGet(_)
        | Command::MSet(_) => true,
        _ => false,
    }
}
