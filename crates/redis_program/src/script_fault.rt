//! What is wrong with a line of a script, as a person is told it.
//!
//! The line was refused before this looks at it, and nothing that it says changes a status.

use super::line_fault::{LineFault, Shown, find_loose_byte, first_word};
use script_program::MOST_LINES;
use std::fmt;

/// Why a line is no line of a script.
#[derive(Clone, Copy)]
pub enum ScriptFault<'a> {
    TooMany,
    Empty,
    Comment,
    /// What a schedule's line may not have either.
    Loose(LineFault<'a>),
    NoThread(&'a [u8]),
    UnknownKind(&'a [u8]),
    NoQuery,
    NoCommand,
}

impl fmt::Display for ScriptFault<'_> {
    fn fmt<W: fmt::Write>(&self, f: &mut fmt::Formatter<W>) -> fmt::Result {
        match self {
            ScriptFault::TooMany => write!(f, "a script has at most {MOST_LINES} lines"),
            ScriptFault::Empty => f.write_str("it is empty, and a script has no empty lines"),
            ScriptFault::Comment => f.write_str("a script has no comments"),
            ScriptFault::Loose(fault) => write!(f, "{fault}"),
            ScriptFault::NoThread(word) => {
                let word = Shown(word);
                write!(f, "`{word}` is no thread, which is a number of 1 to 8")
            }
            ScriptFault::UnknownKind(word) => {
                let word = Shown(word);
                write!(f, "`{word}` is no kind of line; kinds are ask and do")
            }
            ScriptFault::NoQuery => f.write_str(
                "its form is `N ask WORD..`, the words of a query that the cache may hold, as \
                 1 ask GET foo",
            ),
            ScriptFault::NoCommand => f.write_str(
                "its form is `N do WORD..`, each word in its printed form, and the command none \
                 that sets a connection up, as HELLO does",
            ),
        }
    }
}

/// The first thing that is wrong with the line of this number.
pub fn find_script_fault(number: u64, line: &[u8]) -> ScriptFault<'_> {
    if number > MOST_LINES {
        return ScriptFault::TooMany;
    }
    match line {
        [] => return ScriptFault::Empty,
        [b'#', ..] => return ScriptFault::Comment,
        _ => {}
    }
    if let Some(fault) = find_loose_byte(line) {
        return ScriptFault::Loose(fault);
    }
    let (thread, rest) = first_word(line);
    if !matches!(thread, [b'1'..=b'8']) {
        return ScriptFault::NoThread(thread);
    }
    match first_word(rest) {
        (b"ask", _) => ScriptFault::NoQuery,
        (b"do", _) => ScriptFault::NoCommand,
        (kind, _) => ScriptFault::UnknownKind(kind),
    }
}
