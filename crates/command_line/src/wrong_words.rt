//! What is wrong with words that are refused, as a person is told it on standard error.
//!
//! The words were refused before this looks at them, and nothing that it says changes a status.

use std::fmt;

/// The one-line forms of the commands.
pub const FORMS: &str = "\
usage: zeovalki world [--table-max N] [--out-max N] [--history-max N] < SCHEDULE
       zeovalki storm --number N --steps N
       zeovalki serve --port N [--workers N] [--connections N]
                      [--table-max N] [--out-max N] [--history-max N]
       zeovalki script --connect HOST:PORT [--mode MODE] [--prefix P] [--noloop]
                       [--redirect] [--resp 2 | --resp 3] [--capacity N] < SCRIPT
An option is --name value or --name=value, each at most once.
";

/// The first thing that is wrong with the words of a command line.
#[derive(Clone, Copy, Debug, PartialEq, Eq)]
pub enum WrongWords<'a> {
    NoCommand,
    UnknownCommand(&'a str),
    UnknownOption(&'a str),
    NoOption(&'a str),
    WrittenTwice(&'a str),
    NoValue(&'a str),
    ValueOfFlag(&'a str),
    BadValue {
        option: &'a str,
        value: &'a str,
        wanted: Wanted,
    },
    Missing(&'static str),
    NeedsRedirect,
    NeedsBroadcast,
}

/// What may be the value of an option.
#[derive(Clone, Copy, Debug, PartialEq, Eq)]
pub enum Wanted {
    /// A flag has no value.
    Nothing,
    Number { low: u64, high: u64 },
    Proto,
    Mode,
    Connection,
    Text,
}

impl fmt::Display for Wanted {
    fn fmt<W: fmt::Write>(&self, f: &mut fmt::Formatter<W>) -> fmt::Result {
        match self {
            Wanted::Nothing => f.write_str("nothing"),
            Wanted::Number { low, high } => {
                write!(
                    f,
                    "a number of {low} to {high}, with no sign and no leading zero"
                )
            }
            Wanted::Proto => f.write_str("2 or 3"),
            Wanted::Mode => f.write_str("default, optin, optout or bcast"),
            Wanted::Connection => f.write_str("HOST:PORT, with a port of 1 to 65535"),
            Wanted::Text => f.write_str("at least one byte"),
        }
    }
}

impl fmt::Display for WrongWords<'_> {
    fn fmt<W: fmt::Write>(&self, f: &mut fmt::Formatter<W>) -> fmt::Result {
        match self {
            WrongWords::NoCommand => f.write_str("no command is named"),
            WrongWords::UnknownCommand(word) => write!(f, "{word:?} is no command"),
            WrongWords::UnknownOption(word) => write!(f, "{word:?} is no option of the command"),
            WrongWords::NoOption(word) => write!(f, "{word:?} is no option, and no value of one"),
            WrongWords::WrittenTwice(option) => write!(f, "--{option} is written twice"),
            WrongWords::NoValue(option) => write!(
                f,
                "--{option} has no value; one that begins with `-` is written --{option}=VALUE"
            ),
            WrongWords::ValueOfFlag(option) => write!(f, "--{option} takes no value"),
            WrongWords::BadValue {
                option,
                value,
                wanted,
            } => write!(
                f,
                "{value:?} is no value of --{option}, which takes {wanted}"
            ),
            WrongWords::Missing(option) => write!(f, "--{option} is missing"),
            WrongWords::NeedsRedirect => f.write_str("--resp 2 needs --redirect"),
            WrongWords::NeedsBroadcast => f.write_str("--prefix needs --mode bcast"),
        }
    }
}
