//! The words of the commands on a connection.
ghost use Rattle.std.specs.Prelude.{◌≡◌, false, IfNone, IfSome};
ghost use Rattle.std.specs.Str.{bytes_eq, str_to_ascii_lowercase};
ghost use Rattle.command_words.specs.declared.connection_words.ConnectionName.{ConnectionName};
ghost use Rattle.command_words.specs.Reading.{IsReading};
ghost use Rattle.command_words.specs.ConnectionWords.{connection_reading};
ghost use Rattle.command_words.specs.ConnectionWords.{connection_name_text};
ghost use Rattle.command_words.specs.ConnectionWords.{hello_version, save_mode};

use super::client_words::read_client;
use super::command::{Command, SaveMode, WordFault};
use super::names::is_named;
use super::word_counts::{at_most_one, no_word, one};
use resp_value::Octets;
use std::alloc::Global;

/// The commands on a connection.
#[derive(Clone, Copy)]
pub(crate) enum ConnectionName {
    Ping,
    Echo,
    Hello,
    Reset,
    Quit,
    Shutdown,
    Client,
    Subscribe,
    Unsubscribe,
}

fn hello_version(words: &[Octets]) -> Result<Option<Octets>, WordFault>
    ensures { IsReading result (hello_version words.now) }
{
    match words {
        [] => Ok(None),
        [version] => Ok(Some(version.copy()?)),
        _ => Err(WordFault::Syntax),
    }
}

fn save_mode(words: &[Octets]) -> Result<SaveMode, WordFault>
    ensures { IsReading result (save_mode words.now) }
{
    match words {
        [] => Ok(SaveMode::Plain),
        [word] if is_named(word, b"save") => Ok(SaveMode::Save),
        [word] if is_named(word, b"nosave") => Ok(SaveMode::NoSave),
        _ => Err(WordFault::Syntax),
    }
}

pub(crate) fn connection_name(word: &Octets) -> Option<ConnectionName>
    ensures some { IfSome result (λ n. str_to_ascii_lowercase word.now ≡ connection_name_text n) }
    ensures none { IfNone result
        ((n : ConnectionName) → bytes_eq (str_to_ascii_lowercase word.now)
        (connection_name_text n) ≡ false) }
{
    if is_named(word, b"ping") {
        Some(ConnectionName::Ping)
    } else if is_named(word, b"echo") {
        Some(ConnectionName::Echo)
    } else if is_named(word, b"hello") {
        Some(ConnectionName::Hello)
    } else if is_named(word, b"reset") {
        Some(ConnectionName::Reset)
    } else if is_named(word, b"quit") {
        Some(ConnectionName::Quit)
    } else if is_named(word, b"shutdown") {
        Some(ConnectionName::Shutdown)
    } else if is_named(word, b"client") {
        Some(ConnectionName::Client)
    } else if is_named(word, b"subscribe") {
        Some(ConnectionName::Subscribe)
    } else if is_named(word, b"unsubscribe") {
        Some(ConnectionName::Unsubscribe)
    } else {
        None
    }
}

#[tactic(auto, unfolding(crate::specs::ConnectionWords::connection_reading))]
fn read_connection_row(
    alloc: Global,
    name: ConnectionName,
    words: &[Octets],
) -> Result<Command, WordFault>
    ensures { IsReading result (connection_reading (connection_name_text name) words.now) }
{
    match name {
        ConnectionName::Ping => Ok(Command::Ping(at_most_one(words)?)),
        ConnectionName::Echo => Ok(Command::Echo(one(words)?)),
        ConnectionName::Hello => Ok(Command::Hello(hello_version(words)?)),
        ConnectionName::Reset => {
            no_word(words)?;
            Ok(Command::Reset)
        }
        ConnectionName::Quit => {
            no_word(words)?;
            Ok(Command::Quit)
        }
        ConnectionName::Shutdown => Ok(Command::Shutdown(save_mode(words)?)),
        ConnectionName::Client => read_client(alloc, words),
        ConnectionName::Subscribe => Ok(Command::Subscribe(one(words)?)),
        ConnectionName::Unsubscribe => Ok(Command::Unsubscribe(at_most_one(words)?)),
    }
}

pub(crate) fn read_connection_command(
    alloc: Global,
    name: &Octets,
    words: &[Octets],
) -> Result<Command, WordFault>
    ensures { IsReading result (connection_reading (str_to_ascii_lowercase name.now) words.now) }
{
    match connection_name(name) {
        Some(name) => read_connection_row(alloc, name, words),
        None => Err(WordFault::Unknown),
    }
}
