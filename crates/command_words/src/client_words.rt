//! The words of CLIENT and its subcommands.
ghost use Rattle.std.specs.Prelude.{◌≡◌, false, IfNone, IfSome};
ghost use Rattle.std.specs.Str.{bytes_eq, str_to_ascii_lowercase};
ghost use Rattle.command_words.specs.declared.client_words.ClientName.{ClientName};
ghost use Rattle.command_words.specs.Reading.{IsReading};
ghost use Rattle.command_words.specs.ClientWords.{client_name_text, client_reading, client_words};
ghost use Rattle.command_words.specs.ClientWords.{yes_or_no};

use super::command::{Command, WordFault};
use super::names::is_named;
use super::tracking_words::tracking;
use super::word_counts::no_word;
use resp_value::Octets;
use std::alloc::Global;

/// The subcommands of CLIENT.
#[derive(Clone, Copy)]
pub(crate) enum ClientName {
    Id,
    Tracking,
    Caching,
    GetRedir,
    TrackingInfo,
}

fn yes_or_no(words: &[Octets]) -> Result<bool, WordFault>
    ensures { IsReading result (yes_or_no words.now) }
{
    match words {
        [word] if is_named(word, b"yes") => Ok(true),
        [word] if is_named(word, b"no") => Ok(false),
        [_] => Err(WordFault::Syntax),
        _ => Err(WordFault::Arity),
    }
}

pub(crate) fn client_name(word: &Octets) -> Option<ClientName>
    ensures some { IfSome result (λ n. str_to_ascii_lowercase word.now ≡ client_name_text n) }
    ensures none { IfNone result
        ((n : ClientName) → bytes_eq (str_to_ascii_lowercase word.now)
        (client_name_text n) ≡ false) }
{
    if is_named(word, b"id") {
        Some(ClientName::Id)
    } else if is_named(word, b"tracking") {
        Some(ClientName::Tracking)
    } else if is_named(word, b"caching") {
        Some(ClientName::Caching)
    } else if is_named(word, b"getredir") {
        Some(ClientName::GetRedir)
    } else if is_named(word, b"trackinginfo") {
        Some(ClientName::TrackingInfo)
    } else {
        None
    }
}

#[tactic(auto, unfolding(crate::specs::ClientWords::client_reading))]
fn read_client_row(alloc: Global, name: ClientName, words: &[Octets]) -> Result<Command, WordFault>
    ensures { IsReading result (client_reading (client_name_text name) words.now) }
{
    match name {
        ClientName::Id => {
            no_word(words)?;
            Ok(Command::ClientId)
        }
        ClientName::Tracking => Ok(Command::ClientTracking(tracking(alloc, words)?)),
        ClientName::Caching => Ok(Command::ClientCaching(yes_or_no(words)?)),
        ClientName::GetRedir => {
            no_word(words)?;
            Ok(Command::ClientGetRedir)
        }
        ClientName::TrackingInfo => {
            no_word(words)?;
            Ok(Command::ClientTrackingInfo)
        }
    }
}

fn read_client_command(alloc: Global, name: &Octets, words: &[Octets]) -> Result<Command, WordFault>
    ensures { IsReading result (client_reading (str_to_ascii_lowercase name.now) words.now) }
{
    match client_name(name) {
        Some(name) => read_client_row(alloc, name, words),
        None => Err(WordFault::Unknown),
    }
}

/// The command of CLIENT and the words after it.
pub(crate) fn read_client(alloc: Global, words: &[Octets]) -> Result<Command, WordFault>
    ensures { IsReading result (client_words words.now) }
{
    match words {
        [] => Err(WordFault::Arity),
        [name, words @ ..] => read_client_command(alloc, name, words),
    }
}
