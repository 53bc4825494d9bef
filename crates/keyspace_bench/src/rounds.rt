//! Commands on numbered keys and fields, and how many of them are served.
ghost use Rattle.std.specs.Prelude.{◌<◌};

use command_words::{Command, read_command};
use hash_cmds::{is_hash, run_hash};
use itoa::Buffer;
use keyspace::Keyspace;
use resp_value::{NoMemory, Octets, Value, Words};
use std::alloc::Global;
use string_cmds::{is_string, run_string};

/// Numbers below `size`, each so far behind the one before it, and then from the front again.
#[derive(Clone, Copy)]
pub struct Walk {
    pub name: &'static str,
    pub first: u64,
    pub stride: u64,
    pub size: u64,
    pub times: u64,
}

fn number_at(walk: Walk, place: u64) -> u64
    requires { 0 < walk.size }
{
    let far = place.wrapping_mul(walk.stride);
    far.wrapping_add(walk.first) % walk.size
}

fn numbered(alloc: Global, front: &str, number: u64) -> Result<Vec<u8>, NoMemory> {
    let mut bytes = Vec::from_slice(alloc, front.as_bytes())?;
    let mut buffer = Buffer::new();
    bytes.extend_from_slice(buffer.format(number).as_bytes())?;
    Ok(bytes)
}

/// The word, with the number in place of a `#` at its end.
pub fn word_of(alloc: Global, word: &str, number: u64) -> Result<Octets, NoMemory> {
    match word.strip_suffix('#') {
        Some(front) => Ok(Octets::from_vec(numbered(alloc, front, number)?)),
        None => Octets::from_slice(alloc, word.as_bytes()),
    }
}

pub fn words_of(alloc: Global, line: &str, number: u64) -> Result<Words, NoMemory> {
    let mut words = Words::new(alloc);
    for word in line.split(' ') {
        words.push(word_of(alloc, word, number)?)?;
    }
    Ok(words)
}

/// The line's command for each number of the walk.
pub fn commands(alloc: Global, line: &str, walk: Walk) -> Result<Vec<Command>, NoMemory>
    requires { 0 < walk.size }
{
    let mut commands = Vec::new(alloc);
    for place in 0..walk.times {
        let words = words_of(alloc, line, number_at(walk, place))?;
        if let Ok(command) = read_command(alloc, &words) {
            commands.push(command)?;
        }
    }
    Ok(commands)
}

/// Runs a command on strings or on hashes, and says whether it replied no error.
fn is_served(alloc: Global, space: &mut Keyspace, command: &Command) -> Result<bool, NoMemory> {
    let done = if is_string(command) {
        run_string(alloc, space, command, 0)?
    } else if is_hash(command) {
        run_hash(alloc, space, command, 0)?
    } else {
        return Ok(false);
    };
    Ok(!matches!(&done.reply, Value::Error(_)))
}

/// Runs the commands, and counts those that replied no error.
pub fn served(alloc: Global, space: &mut Keyspace, all: &[Command]) -> Result<u64, NoMemory> {
    let mut count = 0u64;
    for command in all {
        if is_served(alloc, space, command)? {
            count = count.saturating_add(1);
        }
    }
    Ok(count)
}
