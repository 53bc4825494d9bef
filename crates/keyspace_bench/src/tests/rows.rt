//! Rows of commands, as the tables of these tests have them.
//!
//! A row is `LINE: REPLY | KEYS`: the reply with a space for each end of a line, and the keys that
//! the line signals.
use command_words::{Command, Done, Signalled, read_command};
use hash_cmds::{is_hash, run_hash};
use keyspace::{Content, Fields, Held, Keyspace};
use resp_value::{NoMemory, Octets, Proto, Value, Words, put_value};
use std::alloc::Global;
use std::process::Abort;
use std::test::Fail;
use string_cmds::{is_string, run_string};

/// The words of a line; two quotes are the empty word.
pub fn words_of(alloc: Global, line: &str) -> Result<Words, NoMemory> {
    let mut words = Words::new(alloc);
    for word in line.split(' ') {
        let word = if word == "''" { "" } else { word };
        words.push(Octets::from_slice(alloc, word.as_bytes())?)?;
    }
    Ok(words)
}

fn put_command(alloc: Global, words: &Words, commands: &mut Vec<Command>) -> Result<(), NoMemory> {
    if let Ok(command) = read_command(alloc, words) {
        commands.push(command)?;
    }
    Ok(())
}

/// The command of a line, where it is one. A list lets go of it by one call.
pub fn commands_of(alloc: Global, line: &str) -> Result<Vec<Command>, NoMemory> {
    let words = words_of(alloc, line)?;
    let mut commands = Vec::new(alloc);
    put_command(alloc, &words, &mut commands)?;
    Ok(commands)
}

fn put_reply(alloc: Global, reply: &Value, shown: &mut Vec<u8>) -> Result<(), NoMemory> {
    let mut bytes = Vec::new(alloc);
    put_value(Proto::Three, reply, &mut bytes)?;
    for byte in bytes.as_slice() {
        if *byte != b'\n' {
            shown.push(if *byte == b'\r' { b' ' } else { *byte })?;
        }
    }
    Ok(())
}

fn put_keys(signalled: &Signalled, shown: &mut Vec<u8>) -> Result<(), NoMemory> {
    if let Signalled::Keys(words) = signalled {
        for word in words.as_slice() {
            shown.push(b' ')?;
            shown.extend_from_slice(word.as_slice())?;
        }
    }
    Ok(())
}

fn put_done(alloc: Global, done: &Done, shown: &mut Vec<u8>) -> Result<(), NoMemory> {
    put_reply(alloc, &done.reply, shown)?;
    shown.push(b'|')?;
    put_keys(&done.signalled, shown)
}

/// Runs a command on strings or hashes at the moment 1000; any other shows nothing.
fn put_outcome(
    alloc: Global,
    space: &mut Keyspace,
    command: &Command,
    shown: &mut Vec<u8>,
) -> Result<(), NoMemory> {
    if is_string(command) {
        let done = run_string(alloc, space, command, 1000)?;
        return put_done(alloc, &done, shown);
    }
    if is_hash(command) {
        let done = run_hash(alloc, space, command, 1000)?;
        return put_done(alloc, &done, shown);
    }
    Ok(())
}

fn put_answer(
    alloc: Global,
    space: &mut Keyspace,
    line: &str,
    shown: &mut Vec<u8>,
) -> Result<(), NoMemory> {
    let commands = commands_of(alloc, line)?;
    match commands.first() {
        Some(command) => put_outcome(alloc, space, command, shown),
        None => Ok(()),
    }
}

/// The reply and the keys of a line.
fn answer(alloc: Global, space: &mut Keyspace, line: &str) -> Result<Vec<u8>, NoMemory> {
    let mut shown = Vec::new(alloc);
    put_answer(alloc, space, line, &mut shown)?;
    Ok(shown)
}

/// Runs the rows, and answers the first that gives something else.
fn wrong_row<'a>(
    alloc: Global,
    space: &mut Keyspace,
    table: &'a str,
) -> Result<Option<&'a str>, NoMemory> {
    for row in table.split('\n') {
        let Some((line, wanted)) = row.split_once(": ") else {
            return Ok(Some(row));
        };
        if answer(alloc, space, line)?.as_slice() != wanted.as_bytes() {
            return Ok(Some(row));
        }
    }
    Ok(None)
}

/// Runs the rows, which give what they say.
pub fn holds<R: Abort>(
    rt: &R,
    alloc: Global,
    space: &mut Keyspace,
    table: &str,
) -> Result<(), Fail> {
    assert_eq!(rt; wrong_row(alloc, space, table)?, None);
    Ok(())
}

/// Runs the rows on a keyspace without keys.
pub fn holds_anew<R: Abort>(rt: &R, alloc: Global, table: &str) -> Result<(), Fail> {
    let mut space = Keyspace::new(alloc);
    holds(rt, alloc, &mut space, table)
}

/// Puts a hash without fields under the key.
pub fn put_hash(alloc: Global, space: &mut Keyspace, key: &[u8]) -> Result<(), NoMemory> {
    let content = Content::Fields(Fields::new(alloc));
    let held = Held {
        content,
        deadline: None,
    };
    space.put(key, held)
}

fn is_deadline(deadline: Option<u64>, wanted: &str) -> bool {
    match (deadline, wanted.parse::<u64>()) {
        (Some(at), Ok(wanted)) => at == wanted,
        (None, Err(_)) => wanted == "none",
        _ => false,
    }
}

/// Runs a row, with the deadline that the key then has behind a semicolon.
fn leaves_deadline(
    alloc: Global,
    space: &mut Keyspace,
    key: &[u8],
    row: &str,
) -> Result<bool, NoMemory> {
    let Some((row, wanted)) = row.split_once("; ") else {
        return Ok(false);
    };
    if wrong_row(alloc, space, row)?.is_some() {
        return Ok(false);
    }
    match space.get(key) {
        Some(held) => Ok(is_deadline(held.deadline, wanted)),
        None => Ok(false),
    }
}

/// Runs rows, each with the deadline that the key then has.
pub fn all_leave_deadlines<R: Abort>(
    rt: &R,
    alloc: Global,
    space: &mut Keyspace,
    key: &[u8],
    table: &str,
) -> Result<(), Fail> {
    for row in table.lines() {
        assert!(rt; leaves_deadline(alloc, space, key, row)?, "{row}");
    }
    Ok(())
}
