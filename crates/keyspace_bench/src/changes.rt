//! Commands on a database of one hash and one string, each with what is kept of its run.
use super::Fault;
use super::rounds::{word_of, words_of};
use command_set::{Database, has_row};
use command_words::{Command, read_command};
use resp_value::{NoMemory, Octets, Value, Words};
use std::alloc::Global;
use std::rt::Runtime;
use std::time::Instant;

/// These words, once for each number below `size`.
fn push_each(alloc: Global, words: &mut Words, part: &str, size: u64) -> Result<(), NoMemory> {
    for number in 0..size {
        for word in part.split(' ') {
            words.push(word_of(alloc, word, number)?)?;
        }
    }
    Ok(())
}

/// The words of a line; those behind a `:` stand once for each number below `size`.
fn words_for(alloc: Global, line: &str, size: u64) -> Result<Words, NoMemory> {
    let Some((front, part)) = line.split_once(" : ") else {
        return words_of(alloc, line, 0);
    };
    let mut words = words_of(alloc, front, 0)?;
    push_each(alloc, &mut words, part, size)?;
    Ok(words)
}

/// The line's command, if it is one.
fn command_for(alloc: Global, line: &str, size: u64) -> Result<Option<Command>, NoMemory> {
    let words = words_for(alloc, line, size)?;
    match read_command(alloc, &words) {
        Ok(command) => Ok(Some(command)),
        Err(_) => Ok(None),
    }
}

/// Runs a data command, with what is kept of the run, and says whether it replied no error.
fn is_run(database: &mut Database, command: &Command) -> Result<bool, NoMemory> {
    if !has_row(command) {
        return Ok(false);
    }
    let turned = database.run_due(command, 1000)?;
    Ok(!matches!(&turned.done.reply, Value::Error(_)))
}

fn report<R: Runtime>(rt: &R, line: &str, is_served: bool, took: u128) -> Result<(), Fault> {
    println!(rt; "{line}: {is_served}")?;
    eprintln!(rt; "{line}: {took} ns")?;
    Ok(())
}

/// Runs a command; only the run itself is timed.
fn change<R: Runtime>(
    rt: &R,
    database: &mut Database,
    line: &str,
    command: &Command,
) -> Result<(), Fault> {
    let began = Instant::now(rt)?;
    let is_served = is_run(database, command)?;
    let took = began.elapsed(rt)?.as_nanos();
    report(rt, line, is_served, took)
}

/// Runs a line, if it is a command.
fn change_by<R: Runtime>(
    rt: &R,
    alloc: Global,
    database: &mut Database,
    line: &str,
    size: u64,
) -> Result<(), Fault> {
    match command_for(alloc, line, size)? {
        Some(command) => change(rt, database, line, &command),
        None => Ok(()),
    }
}

/// The string gets so many bytes.
fn fill_text(alloc: Global, database: &mut Database, size: u64) -> Result<(), NoMemory> {
    let mut bytes = Vec::new(alloc);
    for _place in 0..size {
        bytes.push(b'x')?;
    }
    let key = Octets::from_slice(alloc, b"text")?;
    is_run(database, &Command::Append(key, Octets::from_vec(bytes)))?;
    Ok(())
}

/// The hash gets so many fields.
fn fill_hash(alloc: Global, database: &mut Database, size: u64) -> Result<(), NoMemory> {
    if let Some(command) = command_for(alloc, "HSET hash : f# 1", size)? {
        is_run(database, &command)?;
    }
    Ok(())
}

fn change_all<R: Runtime>(
    rt: &R,
    alloc: Global,
    database: &mut Database,
    size: u64,
    lines: &[String],
) -> Result<(), Fault> {
    for line in lines {
        change_by(rt, alloc, database, line.as_str(), size)?;
    }
    Ok(())
}

/// Fills a database with one hash of so many fields and one string of as many bytes, and then runs
/// each line.
pub fn measure_changes<R: Runtime>(
    rt: &R,
    alloc: Global,
    size: u64,
    lines: &[String],
) -> Result<(), Fault> {
    let mut database = Database::new(alloc);
    fill_hash(alloc, &mut database, size)?;
    fill_text(alloc, &mut database, size)?;
    change_all(rt, alloc, &mut database, size, lines)
}
