//! Equal commands.
ghost use Rattle.std.specs.Prelude.{◌≡◌, IfOk, false};
ghost use Rattle.command_words.specs.Effects.{has_row, is_hash, is_string};

use command_words::{Command, TrackOptions};
use resp_value::{NoMemory, Octets};

fn copy_word(word: &Option<Octets>) -> Result<Option<Octets>, NoMemory>
    ensures { IfOk result (λ w. w ≡ word.now) }
{
    match word {
        Some(word) => Ok(Some(word.copy()?)),
        None => Ok(None),
    }
}

fn copy_options(options: &TrackOptions) -> Result<TrackOptions, NoMemory>
    ensures { IfOk result (λ o. o ≡ options.now) }
{
    Ok(TrackOptions {
        on: options.on,
        redirect: options.redirect,
        prefixes: options.prefixes.copy()?,
        bcast: options.bcast,
        optin: options.optin,
        optout: options.optout,
        noloop: options.noloop,
    })
}

// Of a command that is none on data.
fn copy_own(command: &Command) -> Result<Command, NoMemory>
    requires { has_row command.now ≡ false }
    ensures { IfOk result (λ c. c ≡ command.now) }
{
    Ok(match command {
        Command::Ping(text) => Command::Ping(copy_word(text)?),
        Command::Echo(text) => Command::Echo(text.copy()?),
        Command::Hello(word) => Command::Hello(copy_word(word)?),
        Command::Reset => Command::Reset,
        Command::Quit => Command::Quit,
        Command::Shutdown(mode) => Command::Shutdown(*mode),
        Command::ClientId => Command::ClientId,
        Command::ClientTracking(options) => Command::ClientTracking(copy_options(options)?),
        Command::ClientCaching(is_yes) => Command::ClientCaching(*is_yes),
        Command::ClientGetRedir => Command::ClientGetRedir,
        Command::ClientTrackingInfo => Command::ClientTrackingInfo,
        Command::Subscribe(channel) => Command::Subscribe(channel.copy()?),
        Command::Unsubscribe(channel) => Command::Unsubscribe(copy_word(channel)?),
        _ => unreachable!(),
    })
}

// Of a command on keys, or on no data.
fn copy_key(command: &Command) -> Result<Command, NoMemory>
    requires string { is_string command.now ≡ false }
    requires hash { is_hash command.now ≡ false }
    ensures { IfOk result (λ c. c ≡ command.now) }
{
    Ok(match command {
        Command::Del(keys) => Command::Del(keys.copy()?),
        Command::Exists(keys) => Command::Exists(keys.copy()?),
        Command::KeyType(key) => Command::KeyType(key.copy()?),
        Command::Rename(from, to) => Command::Rename(from.copy()?, to.copy()?),
        Command::Expire(key, life) => Command::Expire(key.copy()?, *life),
        Command::PExpire(key, life) => Command::PExpire(key.copy()?, *life),
        Command::ExpireAt(key, at) => Command::ExpireAt(key.copy()?, *at),
        Command::PExpireAt(key, at) => Command::PExpireAt(key.copy()?, *at),
        Command::Ttl(key) => Command::Ttl(key.copy()?),
        Command::PTtl(key) => Command::PTtl(key.copy()?),
        Command::Persist(key) => Command::Persist(key.copy()?),
        Command::DbSize => Command::DbSize,
        Command::FlushAll(mode) => Command::FlushAll(*mode),
        Command::FlushDb(mode) => Command::FlushDb(*mode),
        _ => return copy_own(command),
    })
}

// Of a command that is none on strings.
fn copy_hash(command: &Command) -> Result<Command, NoMemory>
    requires { is_string command.now ≡ false }
    ensures { IfOk result (λ c. c ≡ command.now) }
{
    Ok(match command {
        Command::HSet(key, words) => Command::HSet(key.copy()?, words.copy()?),
        Command::HGet(key, field) => Command::HGet(key.copy()?, field.copy()?),
        Command::HMGet(key, fields) => Command::HMGet(key.copy()?, fields.copy()?),
        Command::HGetAll(key) => Command::HGetAll(key.copy()?),
        Command::HDel(key, fields) => Command::HDel(key.copy()?, fields.copy()?),
        Command::HLen(key) => Command::HLen(key.copy()?),
        Command::HExists(key, field) => Command::HExists(key.copy()?, field.copy()?),
        Command::HKeys(key) => Command::HKeys(key.copy()?),
        Command::HVals(key) => Command::HVals(key.copy()?),
        Command::HIncrBy(key, field, by) => Command::HIncrBy(key.copy()?, field.copy()?, *by),
        _ => return copy_key(command),
    })
}

/// An equal command.
pub(super) fn copy_command(command: &Command) -> Result<Command, NoMemory>
    ensures { IfOk result (λ c. c ≡ command.now) }
{
    Ok(match command {
        Command::Get(key) => Command::Get(key.copy()?),
        Command::Set(key, value, when, life) => {
            Command::Set(key.copy()?, value.copy()?, *when, *life)
        }
        Command::SetNx(key, value) => Command::SetNx(key.copy()?, value.copy()?),
        Command::GetDel(key) => Command::GetDel(key.copy()?),
        Command::Append(key, value) => Command::Append(key.copy()?, value.copy()?),
        Command::StrLen(key) => Command::StrLen(key.copy()?),
        Command::GetRange(key, from, to) => Command::GetRange(key.copy()?, *from, *to),
        Command::Incr(key) => Command::Incr(key.copy()?),
        Command::Decr(key) => Command::Decr(key.copy()?),
        Command::IncrBy(key, by) => Command::IncrBy(key.copy()?, *by),
        Command::DecrBy(key, by) => Command::DecrBy(key.copy()?, *by),
        Command::MGet(keys) => Command::MGet(keys.copy()?),
        Command::MSet(words) => Command::MSet(words.copy()?),
        _ => return copy_hash(command),
    })
}
