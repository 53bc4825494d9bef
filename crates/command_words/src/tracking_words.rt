//! The words of CLIENT TRACKING.
ghost use Rattle.std.specs.Prelude.{◌≡◌};
ghost use Rattle.command_words.specs.Reading.{IsReading};
ghost use Rattle.command_words.specs.TrackingWords.{connection_of, is_flag, no_options, tracking};
ghost use Rattle.command_words.specs.TrackingWords.{track_options, with_flag};

use super::command::{TrackOptions, WordFault};
use super::names::is_named;
use super::word_counts::number;
use resp_value::{Octets, Words};
use std::alloc::Global;

fn connection_of(id: i64) -> u64
    ensures { result ≡ connection_of id }
{
    if id < 0 { 0 } else { id as u64 }
}

pub(crate) fn is_flag(word: &Octets) -> bool
    ensures { result ≡ is_flag word.now }
{
    is_named(word, b"bcast")
        || is_named(word, b"optin")
        || is_named(word, b"optout")
        || is_named(word, b"noloop")
}

fn set_flag(word: &Octets, options: &mut TrackOptions)
    ensures { options.new ≡ with_flag word.now options.old }
{
    if is_named(word, b"bcast") {
        options.bcast = true;
    } else if is_named(word, b"optin") {
        options.optin = true;
    } else if is_named(word, b"optout") {
        options.optout = true;
    } else {
        options.noloop = true;
    }
}

fn track_options(mut options: TrackOptions, words: &[Octets]) -> Result<TrackOptions, WordFault>
    ensures { IsReading result (track_options options words.now) }
{
    let mut rest = words;
    while let [word, after @ ..] = rest {
        rest = after;
        if is_flag(word) {
            set_flag(word, &mut options);
        } else if is_named(word, b"prefix") {
            let [prefix, after @ ..] = rest else {
                return Err(WordFault::Syntax);
            };
            options.prefixes.push(prefix.copy()?)?;
            rest = after;
        } else if is_named(word, b"redirect") && options.redirect.is_none() {
            let [id, after @ ..] = rest else {
                return Err(WordFault::Syntax);
            };
            options.redirect = Some(connection_of(number(id)?));
            rest = after;
        } else {
            return Err(WordFault::Syntax);
        }
    }
    Ok(options)
}

fn no_options(alloc: Global, on: bool) -> TrackOptions
    ensures { result ≡ no_options on }
{
    TrackOptions {
        on,
        redirect: None,
        prefixes: Words::new(alloc),
        bcast: false,
        optin: false,
        optout: false,
        noloop: false,
    }
}

#[tactic(auto, unfolding(crate::specs::TrackingWords::tracking))]
pub(crate) fn tracking(alloc: Global, words: &[Octets]) -> Result<TrackOptions, WordFault>
    ensures { IsReading result (tracking words.now) }
{
    match words {
        [] => Err(WordFault::Arity),
        [switch, options @ ..] if is_named(switch, b"on") => {
            track_options(no_options(alloc, true), options)
        }
        [switch, options @ ..] if is_named(switch, b"off") => {
            track_options(no_options(alloc, false), options)
        }
        _ => Err(WordFault::Syntax),
    }
}
