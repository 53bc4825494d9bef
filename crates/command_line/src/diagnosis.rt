//! The walk over words that were refused, to the first of them that is wrong.
//!
//! It looks again at what the definition of the words refused, so that a person can be told which
//! word it was. Nothing that it finds changes a status.

use super::wrong_words::{Wanted, WrongWords};

/// What is wrong with the words behind the program's name, if anything is.
pub fn find_wrong<'a>(words: &'a [String]) -> Option<WrongWords<'a>> {
    let [command, rest @ ..] = words else {
        return Some(WrongWords::NoCommand);
    };
    let command = command.as_str();
    if !is_command(command) {
        return Some(WrongWords::UnknownCommand(command));
    }
    if let Some(wrong) = wrong_option(command, rest) {
        return Some(wrong);
    }
    wrong_together(command, rest)
}

fn is_command(word: &str) -> bool {
    matches!(word, "world" | "storm" | "serve" | "script")
}

/// The first word that is no option of the command, and no value of one.
fn wrong_option<'a>(command: &str, words: &'a [String]) -> Option<WrongWords<'a>> {
    let mut waiting: Option<&'a str> = None;
    for place in 0..words.len() {
        let word = words[place].as_str();
        if let Some(option) = waiting {
            if word.starts_with('-') {
                return Some(WrongWords::NoValue(option));
            }
            if let Some(wrong) = wrong_value(command, option, word) {
                return Some(wrong);
            }
            waiting = None;
            continue;
        }
        let (option, value) = match parted(word) {
            Some(sides) => sides,
            None => return Some(WrongWords::NoOption(word)),
        };
        let Some(wanted) = wanted_by(command, option) else {
            return Some(WrongWords::UnknownOption(word));
        };
        if is_written(option, &words[..place]) {
            return Some(WrongWords::WrittenTwice(option));
        }
        match value {
            Some(value) => {
                if let Some(wrong) = wrong_value(command, option, value) {
                    return Some(wrong);
                }
            }
            None => {
                if wanted != Wanted::Nothing {
                    waiting = Some(option);
                }
            }
        }
    }
    waiting.map(WrongWords::NoValue)
}

/// The name of an option, and its value where that is in the same word.
fn parted(word: &str) -> Option<(&str, Option<&str>)> {
    let text = word.strip_prefix("--")?;
    if text.is_empty() {
        return None;
    }
    match text.split_once('=') {
        Some((option, value)) => Some((option, Some(value))),
        None => Some((text, None)),
    }
}

/// Whether one of the words is this option. The words before the first that is wrong hold each
/// option at most once, so asking this at each of them takes time linear in their number.
fn is_written(option: &str, words: &[String]) -> bool {
    for word in words {
        if let Some((name, _)) = parted(word.as_str()) {
            if name == option {
                return true;
            }
        }
    }
    false
}

fn wrong_value<'a>(command: &str, option: &'a str, value: &'a str) -> Option<WrongWords<'a>> {
    let wanted = wanted_by(command, option)?;
    let fits = match wanted {
        Wanted::Nothing => return Some(WrongWords::ValueOfFlag(option)),
        Wanted::Number { low, high } => is_number_in(value, low, high),
        Wanted::Proto => matches!(value, "2" | "3"),
        Wanted::Mode => matches!(value, "default" | "optin" | "optout" | "bcast"),
        Wanted::Connection => is_connection(value),
        Wanted::Text => !value.is_empty(),
    };
    if fits {
        None
    } else {
        Some(WrongWords::BadValue {
            option,
            value,
            wanted,
        })
    }
}

fn is_number_in(text: &str, low: u64, high: u64) -> bool {
    let is_spelled_once = match text.as_bytes() {
        [b'0'] => true,
        [b'1'..=b'9', ..] => true,
        _ => false,
    };
    match text.parse::<u64>() {
        Ok(number) => is_spelled_once && low <= number && number <= high,
        Err(_) => false,
    }
}

fn is_connection(text: &str) -> bool {
    match text.rsplit_once(':') {
        Some((host, port)) => !host.is_empty() && is_number_in(port, 1, 65_535),
        None => false,
    }
}

/// What is wrong with options that are right one by one.
fn wrong_together<'a>(command: &str, words: &'a [String]) -> Option<WrongWords<'a>> {
    if let Some(option) = missing_option(command, words) {
        return Some(WrongWords::Missing(option));
    }
    if has_value(words, "resp", "2") && !is_written("redirect", words) {
        return Some(WrongWords::NeedsRedirect);
    }
    if is_written("prefix", words) && !has_value(words, "mode", "bcast") {
        return Some(WrongWords::NeedsBroadcast);
    }
    None
}

fn missing_option(command: &str, words: &[String]) -> Option<&'static str> {
    match command {
        "storm" if !is_written("number", words) => Some("number"),
        "storm" if !is_written("steps", words) => Some("steps"),
        "serve" if !is_written("port", words) => Some("port"),
        "script" if !is_written("connect", words) => Some("connect"),
        _ => None,
    }
}

/// Whether the option was written with this value, in one word or in two.
fn has_value(words: &[String], option: &str, wanted: &str) -> bool {
    let mut is_next = false;
    for word in words {
        if is_next && word.as_str() == wanted {
            return true;
        }
        is_next = false;
        match parted(word.as_str()) {
            Some((name, Some(value))) if name == option && value == wanted => return true,
            Some((name, None)) if name == option => is_next = true,
            _ => {}
        }
    }
    false
}

/// What the option of a command may have as its value: None where it has no such option.
fn wanted_by(command: &str, option: &str) -> Option<Wanted> {
    const LIMIT: Wanted = Wanted::Number {
        low: 1,
        high: 4_000_000_000,
    };
    match command {
        "world" => match option {
            "table-max" | "out-max" | "history-max" => Some(LIMIT),
            _ => None,
        },
        "storm" => match option {
            "number" => Some(Wanted::Number {
                low: 0,
                high: u64::MAX,
            }),
            "steps" => Some(Wanted::Number {
                low: 0,
                high: 200_000,
            }),
            _ => None,
        },
        "serve" => match option {
            "port" => Some(Wanted::Number {
                low: 1,
                high: 65_535,
            }),
            "workers" => Some(Wanted::Number { low: 1, high: 64 }),
            "connections" => Some(Wanted::Number {
                low: 0,
                high: 1_000_000,
            }),
            "table-max" | "out-max" | "history-max" => Some(LIMIT),
            _ => None,
        },
        "script" => wanted_by_script(option),
        _ => None,
    }
}

fn wanted_by_script(option: &str) -> Option<Wanted> {
    match option {
        "connect" => Some(Wanted::Connection),
        "resp" => Some(Wanted::Proto),
        "mode" => Some(Wanted::Mode),
        "prefix" => Some(Wanted::Text),
        "capacity" => Some(Wanted::Number {
            low: 1,
            high: 1_000_000,
        }),
        "noloop" | "redirect" => Some(Wanted::Nothing),
        _ => None,
    }
}
