//! What is wrong with a line of a schedule, as a person is told it.
//!
//! The line was refused before this looks at it, and nothing that it says changes a status.

use super::schedule::MOST_LINES;
use script_text::LONGEST_LINE;
use std::fmt;

/// Why a line is no line of a schedule.
#[derive(Clone, Copy)]
pub enum LineFault<'a> {
    TooMany,
    TooLong,
    Empty,
    CarriageReturn,
    Tab,
    Comment,
    Spaces,
    UnknownKind(&'a [u8]),
    BadName(&'a [u8]),
    BadCount(&'a [u8]),
    /// The line is of a kind that has this form, and is not of this form.
    Form(&'static str),
}

/// Why the event of a line can't be played.
#[derive(Clone, Copy)]
pub enum Refusal<'a> {
    NoLink(&'a [u8]),
    /// No raw connection has the name that the line is to speak for.
    NoRaw(&'a [u8]),
    NoClient(&'a [u8]),
    NameTaken(&'a [u8]),
    NothingThere,
    /// The command is for a client's handshake alone.
    Control,
    /// The client owes nobody a reply of this number.
    NoNumber,
    /// A SHUTDOWN ran.
    Stopped,
}

/// At most forty bytes of a word, those that are no visible ASCII as `\xHH`.
#[derive(Clone, Copy)]
pub struct Shown<'a>(pub &'a [u8]);

impl fmt::Display for Shown<'_> {
    fn fmt<W: fmt::Write>(&self, f: &mut fmt::Formatter<W>) -> fmt::Result {
        for byte in self.0.iter().take(40) {
            match *byte {
                b'!'..=b'~' => f.write_char(char::from(*byte))?,
                other => write!(f, "\\x{other:02X}")?,
            }
        }
        if self.0.len() > 40 {
            f.write_str("..")?;
        }
        Ok(())
    }
}

impl fmt::Display for LineFault<'_> {
    fn fmt<W: fmt::Write>(&self, f: &mut fmt::Formatter<W>) -> fmt::Result {
        match self {
            LineFault::TooMany => write!(f, "a schedule has at most {MOST_LINES} lines"),
            LineFault::TooLong => write!(f, "it has more than {LONGEST_LINE} bytes"),
            LineFault::Empty => f.write_str("it is empty, and a schedule has no empty lines"),
            LineFault::CarriageReturn => {
                f.write_str("it ends in a carriage return, and lines end in a line feed alone")
            }
            LineFault::Tab => f.write_str("it has a tab, and one space parts its words"),
            LineFault::Comment => f.write_str("a schedule has no comments"),
            LineFault::Spaces => f.write_str("one space, and no more, parts its words"),
            LineFault::UnknownKind(word) => {
                let word = Shown(word);
                write!(
                    f,
                    "`{word}` is no kind of line; kinds are raw, say, bytes, client, out, serve, \
                     send, recv, flow, cut, ask, do, poll, show, now and tick"
                )
            }
            LineFault::BadName(word) => {
                let word = Shown(word);
                write!(
                    f,
                    "`{word}` is no name, which has 1 to 16 of a to z and 0 to 9; .data behind a \
                     client's is its link, and .inv that for invalidations, for out, serve, send, \
                     recv, flow and cut"
                )
            }
            LineFault::BadCount(word) => {
                let word = Shown(word);
                write!(
                    f,
                    "`{word}` is no count of bytes, which is a number from 1 with no leading zero"
                )
            }
            LineFault::Form(form) => write!(f, "its form is `{form}`"),
        }
    }
}

impl fmt::Display for Refusal<'_> {
    fn fmt<W: fmt::Write>(&self, f: &mut fmt::Formatter<W>) -> fmt::Result {
        match self {
            Refusal::NoLink(name) => {
                let name = Shown(name);
                write!(f, "no link is named {name}")
            }
            Refusal::NoRaw(name) => {
                let name = Shown(name);
                write!(f, "no raw connection is named {name}")
            }
            Refusal::NoClient(name) => {
                let name = Shown(name);
                write!(f, "no client is named {name}")
            }
            Refusal::NameTaken(name) => {
                let name = Shown(name);
                write!(f, "a link or a client is named {name} already")
            }
            Refusal::NothingThere => f.write_str("fewer bytes are there than it moves"),
            Refusal::Control => f.write_str(
                "a client sends no command that changes how the server serves it, as HELLO does",
            ),
            Refusal::NoNumber => f.write_str(
                "the client gave no command this number, or handed its reply out before",
            ),
            Refusal::Stopped => f.write_str(
                "a SHUTDOWN ran, and the server takes no connection and no tick",
            ),
        }
    }
}

/// The first thing that is wrong with the line of this number.
pub fn find_line_fault(number: u64, line: &[u8]) -> LineFault<'_> {
    if number > MOST_LINES {
        return LineFault::TooMany;
    }
    match line {
        [] => return LineFault::Empty,
        [b'#', ..] => return LineFault::Comment,
        _ => {}
    }
    if let Some(fault) = find_loose_byte(line) {
        return fault;
    }
    let (kind, rest) = first_word(line);
    let Some(form) = form_of(kind) else {
        return LineFault::UnknownKind(kind);
    };
    let (name, rest) = first_word(rest);
    let is_good = if names_link(kind) {
        is_link(name)
    } else {
        is_name(name)
    };
    if names_something(kind) && !name.is_empty() && !is_good {
        return LineFault::BadName(name);
    }
    let moves_bytes = matches!(kind, b"serve" | b"send" | b"recv" | b"out");
    if moves_bytes && !rest.is_empty() && !is_count(rest) {
        return LineFault::BadCount(rest);
    }
    LineFault::Form(form)
}

/// The first thing that no line may have, whatever it says.
pub fn find_loose_byte<'a>(line: &[u8]) -> Option<LineFault<'a>> {
    if line.len() > LONGEST_LINE {
        return Some(LineFault::TooLong);
    }
    if let [.., b'\r'] = line {
        return Some(LineFault::CarriageReturn);
    }
    if line.contains(&b'\t') {
        return Some(LineFault::Tab);
    }
    if has_loose_space(line) {
        return Some(LineFault::Spaces);
    }
    None
}

/// Why the event of the line was refused, by the digit that was written of it.
pub fn find_refusal(digit: u8, line: &[u8]) -> Refusal<'_> {
    let (kind, rest) = first_word(line);
    let (name, _) = first_word(rest);
    match (digit, kind) {
        (b'1', b"say" | b"bytes") => Refusal::NoRaw(name),
        (b'1', b"ask" | b"do" | b"poll" | b"show") => Refusal::NoClient(name),
        (b'1', _) => Refusal::NoLink(name),
        (b'2', _) => Refusal::NameTaken(name),
        (b'5', b"do") => Refusal::Control,
        (b'5', b"poll") => Refusal::NoNumber,
        (b'5', _) => Refusal::Stopped,
        _ => Refusal::NothingThere,
    }
}

/// Whether a line of this kind names a link or a client. The others are of the clock.
fn names_something(kind: &[u8]) -> bool {
    !matches!(kind, b"now" | b"tick")
}

/// Whether a line of this kind names a link, which may be a client's.
fn names_link(kind: &[u8]) -> bool {
    matches!(
        kind,
        b"out" | b"serve" | b"send" | b"recv" | b"flow" | b"cut"
    )
}

fn form_of(kind: &[u8]) -> Option<&'static str> {
    match kind {
        b"raw" => Some("raw R"),
        b"say" => Some("say R WORD.., each word in its printed form"),
        b"bytes" => Some("bytes R TEXT, the text in its printed form"),
        b"client" => Some(
            "client X SHAPE PROTO MODE CAPACITY [noloop] [prefix P].., the shape single or pair, \
             the protocol 3 or of a pair 2, the mode default, optin, optout or bcast, the capacity \
             from 1 to 1000000, and prefixes with bcast alone",
        ),
        b"out" => Some("out L [N]"),
        b"serve" => Some("serve L [N]"),
        b"send" => Some("send L [N]"),
        b"recv" => Some("recv L [N]"),
        b"flow" => Some("flow [L]"),
        b"cut" => Some("cut L"),
        b"ask" => Some("ask X WORD.., the words of a query, as ask x GET foo"),
        b"do" => Some("do X WORD.., each word in its printed form"),
        b"poll" => Some("poll X N"),
        b"show" => Some("show X"),
        b"now" => Some("now N, the clock in milliseconds, with no leading zero"),
        b"tick" => Some("tick"),
        _ => None,
    }
}

/// Whether the line begins or ends in a space, or has two side by side.
fn has_loose_space(line: &[u8]) -> bool {
    let mut was_space = true;
    for byte in line {
        let is_space = *byte == b' ';
        if was_space && is_space {
            return true;
        }
        was_space = is_space;
    }
    was_space
}

/// What comes before the first space, and what comes after it.
pub fn first_word(text: &[u8]) -> (&[u8], &[u8]) {
    for place in 0..text.len() {
        if text[place] == b' ' {
            return (&text[..place], &text[place + 1..]);
        }
    }
    (text, &[])
}

fn is_name(word: &[u8]) -> bool {
    for byte in word {
        if !matches!(*byte, b'a'..=b'z' | b'0'..=b'9') {
            return false;
        }
    }
    word.len() <= 16
}

fn is_link(word: &[u8]) -> bool {
    match word {
        [client @ .., b'.', b'd', b'a', b't', b'a'] => is_name(client),
        [client @ .., b'.', b'i', b'n', b'v'] => is_name(client),
        _ => is_name(word),
    }
}

fn is_count(word: &[u8]) -> bool {
    for byte in word {
        if !matches!(*byte, b'0'..=b'9') {
            return false;
        }
    }
    !matches!(word, [] | [b'0', ..])
}
