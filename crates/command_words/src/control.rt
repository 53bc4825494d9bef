//! Whether words read as a command that a client's own handshake alone may send, without memory.
ghost use Rattle.std.specs.Prelude.{◌≡◌, is_ok, true, false};
ghost use Rattle.std.specs.Str.{str_to_ascii_lowercase};
ghost use Rattle.command_words.specs.ClientWords.{client_name_text, client_reading, client_words};
ghost use Rattle.command_words.specs.ClientWords.{yes_or_no};
ghost use Rattle.command_words.specs.ConnectionWords.{connection_name_text, connection_reading};
ghost use Rattle.command_words.specs.ConnectionWords.{save_mode};
ghost use Rattle.command_words.specs.Control.{is_control, reads_as_control};
ghost use Rattle.command_words.specs.TrackingWords.{no_options, track_options, tracking};
ghost use Rattle.command_words.specs.WordCounts.{at_most_one};
ghost use Rattle.command_words.specs.Words.{reading_of};

use super::client_words::{ClientName, client_name};
use super::connection_words::{ConnectionName, connection_name};
use super::integer::read_integer;
use super::names::is_named;
use super::tracking_words::is_flag;
use resp_value::{Octets, Words};

fn are_track_options(words: &[Octets]) -> bool
    ensures on { result ≡ is_ok (track_options (no_options true) words.now) }
    ensures off { result ≡ is_ok (track_options (no_options false) words.now) }
{
    let mut redirected = false;
    let mut rest = words;
    while let [word, after @ ..] = rest {
        rest = after;
        if is_flag(word) {
            continue;
        }
        if is_named(word, b"prefix") {
            let [_, after @ ..] = rest else {
                return false;
            };
            rest = after;
        } else if is_named(word, b"redirect") && !redirected {
            let [id, after @ ..] = rest else {
                return false;
            };
            if read_integer(id.as_slice()).is_none() {
                return false;
            }
            redirected = true;
            rest = after;
        } else {
            return false;
        }
    }
    true
}

#[tactic(auto, unfolding(crate::specs::TrackingWords::tracking))]
fn is_tracking(words: &[Octets]) -> bool
    ensures { result ≡ is_ok (tracking words.now) }
{
    match words {
        [switch, options @ ..] if is_named(switch, b"on") => are_track_options(options),
        [switch, options @ ..] if is_named(switch, b"off") => are_track_options(options),
        _ => false,
    }
}

fn is_yes_or_no(words: &[Octets]) -> bool
    ensures { result ≡ is_ok (yes_or_no words.now) }
{
    match words {
        [word] => is_named(word, b"yes") || is_named(word, b"no"),
        _ => false,
    }
}

#[tactic(auto, unfolding(crate::specs::ClientWords::client_reading))]
fn is_client_control(name: ClientName, words: &[Octets]) -> bool
    ensures { result ≡ reads_as_control (client_reading (client_name_text name) words.now) }
{
    match name {
        ClientName::Tracking => is_tracking(words),
        ClientName::Caching => is_yes_or_no(words),
        ClientName::Id | ClientName::GetRedir | ClientName::TrackingInfo => false,
    }
}

fn is_client_named(name: &Octets, words: &[Octets]) -> bool
    ensures { result
        ≡ reads_as_control (client_reading (str_to_ascii_lowercase name.now) words.now) }
{
    match client_name(name) {
        Some(name) => is_client_control(name, words),
        None => false,
    }
}

fn is_client(words: &[Octets]) -> bool
    ensures { result ≡ reads_as_control (client_words words.now) }
{
    match words {
        [] => false,
        [name, words @ ..] => is_client_named(name, words),
    }
}

fn is_save_mode(words: &[Octets]) -> bool
    ensures { result ≡ is_ok (save_mode words.now) }
{
    match words {
        [] => true,
        [word] => is_named(word, b"save") || is_named(word, b"nosave"),
        _ => false,
    }
}

fn is_at_most_one(words: &[Octets]) -> bool
    ensures { result ≡ is_ok (at_most_one words.now) }
{
    match words {
        [] | [_] => true,
        _ => false,
    }
}

#[tactic(auto, unfolding(crate::specs::ConnectionWords::connection_reading))]
fn is_connection_control(name: ConnectionName, words: &[Octets]) -> bool
    ensures { result ≡ reads_as_control (connection_reading (connection_name_text name) words.now) }
{
    match name {
        ConnectionName::Hello | ConnectionName::Unsubscribe => is_at_most_one(words),
        ConnectionName::Reset | ConnectionName::Quit => words.is_empty(),
        ConnectionName::Shutdown => is_save_mode(words),
        ConnectionName::Client => is_client(words),
        ConnectionName::Subscribe => words.len() == 1,
        ConnectionName::Ping | ConnectionName::Echo => false,
    }
}

fn is_named_control(name: &Octets, words: &[Octets]) -> bool
    ensures { result ≡ reads_as_control (reading_of (str_to_ascii_lowercase name.now) words.now) }
{
    match connection_name(name) {
        Some(name) => is_connection_control(name, words),
        None => false,
    }
}

/// Whether the words read as HELLO, RESET, QUIT, SHUTDOWN, SUBSCRIBE, UNSUBSCRIBE,
/// CLIENT TRACKING or CLIENT CACHING: commands that a client's own handshake alone may send.
#[tactic(auto, unfolding(crate::specs::Words::reading, crate::specs::Control::is_control))]
pub fn is_control(words: &Words) -> bool
    ensures { result ≡ is_control words.now }
{
    match words.as_slice() {
        [] => false,
        [name, words @ ..] => is_named_control(name, words),
    }
}
