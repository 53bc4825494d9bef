//! The options of one command, read by `clap`, and their values.
ghost use Rattle.std.specs.Prelude.{◌≡◌, ◌≤◌, ℕ, List, IfOk, IfSome, map, string_bytes, codes};
ghost use Rattle.std.specs.List.{list_any};
ghost use Rattle.std.specs.Prelude.{option_map};
ghost use Rattle.std.specs.declared.option.Option.TheVariants.{None};
ghost use Rattle.clap.specs.Words.{found_of, first_value};
ghost use Rattle.command_line.specs.Options.{Known, is_stray, is_true, number_in, number_of};
ghost use Rattle.command_line.specs.Options.{options_of};
ghost use Rattle.command_line.specs.Clap.{HasOptions, Holds};

use clap::error::ErrorKind;
use clap::{ArgMatches, Command};
use resp_value::NoMemory;
use std::alloc::Global;

/// The word begins with `-` and is no option: `-`, `--` or `-x`.
///
/// `clap` takes the first two as values, and the third as flags of one letter.
fn is_stray_word(word: &str) -> bool
    ensures { result ≡ is_stray word.now }
{
    match word.as_bytes() {
        [] => false,
        [b'-'] | [b'-', b'-'] => true,
        [b'-', b'-', ..] => false,
        [b'-', ..] => true,
        _ => false,
    }
}

fn has_stray_word(words: &[String]) -> bool
    ensures { result ≡ list_any is_stray (map string_bytes words.now) }
{
    for word in words {
        if is_stray_word(word.as_str()) {
            return true;
        }
    }
    false
}

/// The matches of a command that has only options: None exactly where the words are not in the
/// definition.
pub fn read_options<'a>(
    command: Command<'a>,
    words: &'a [String],
) -> Result<Option<ArgMatches<'a>>, NoMemory>
    ensures { (name : List ℕ) → (known : List Known) → HasOptions name known command.entry
        → IfOk result (Holds known (options_of known (map string_bytes words.entry.now))) }
{
    if has_stray_word(words) {
        return Ok(None);
    }
    match command.try_get_matches_from(words) {
        Ok(matches) => Ok(Some(matches)),
        Err(error) => match error.kind() {
            ErrorKind::OutOfMemory => Err(NoMemory),
            _ => Ok(None),
        },
    }
}

/// The number that a text spells in its one decimal form.
#[tactic(auto, unfolding(crate::specs::Options::number_of))]
pub fn read_number(alloc: Global, text: &str) -> Result<Option<u64>, NoMemory>
    ensures { IfOk result (λ o. o ≡ number_of text.now) }
{
    let Ok(number) = text.parse::<u64>() else {
        return Ok(None);
    };
    let spelling = number.to_string(alloc)?;
    if spelling.as_str() == text {
        Ok(Some(number))
    } else {
        Ok(None)
    }
}

/// The value of an option that is a number, or what stands for one that was not written.
pub fn read_number_in(
    alloc: Global,
    text: Option<&str>,
    low: u64,
    high: u64,
    default: Option<u64>,
) -> Result<Option<u64>, NoMemory>
    ensures { IfOk result
        (λ o. o ≡ number_in low high default (option_map (λ t. t.now) text.entry)) }
{
    let Some(text) = text else {
        return Ok(default);
    };
    let Some(number) = read_number(alloc, text)? else {
        return Ok(None);
    };
    if low <= number && number <= high {
        Ok(Some(number))
    } else {
        Ok(None)
    }
}

/// A number of 1 to 65535.
pub fn read_port(alloc: Global, text: Option<&str>) -> Result<Option<u16>, NoMemory>
    ensures { IfOk result (λ o. o ≡ number_in 1 65535 None (option_map (λ t. t.now) text.entry)) }
{
    let Some(number) = read_number_in(alloc, text, 1, 65535, None)? else {
        return Ok(None);
    };
    match u16::try_from(number) {
        Ok(port) => Ok(Some(port)),
        Err(_) => Ok(None),
    }
}

/// Whether a flag was written.
pub fn has_flag(matches: &ArgMatches<'_>, name: &str) -> bool
    ensures { result ≡ is_true (first_value (found_of matches.now) name.now) }
{
    match matches.get_str(name) {
        Some(text) => text == "true",
        None => false,
    }
}
