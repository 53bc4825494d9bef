//! How a command is read from its words.
ghost use Rattle.std.specs.Prelude.{◌≡◌};
ghost use Rattle.std.specs.Str.{str_to_ascii_lowercase};
ghost use Rattle.command_words.specs.Reading.{IsReading};
ghost use Rattle.command_words.specs.Words.{reading};

use super::command::{Command, WordFault};
use super::connection_words::read_connection_command;
use super::hash_words::read_hash_command;
use super::key_words::read_key_command;
use super::string_words::read_string_command;
use resp_value::Words;
use std::alloc::Global;

/// The command of a request's words. Names and options are read without regard to the case of
/// ASCII letters. Faults are found in this order: an unknown name, the number of words, and then
/// each word from the left.
#[tactic(auto, unfolding(crate::specs::Words::reading))]
pub fn read_command(alloc: Global, words: &Words) -> Result<Command, WordFault>
    ensures { IsReading result (reading words.now) }
{
    let [name, rest @ ..] = words.as_slice() else {
        return Err(WordFault::Unknown);
    };
    match read_string_command(alloc, name, rest) {
        Err(WordFault::Unknown) => {}
        read => return read,
    }
    match read_hash_command(alloc, name, rest) {
        Err(WordFault::Unknown) => {}
        read => return read,
    }
    match read_key_command(alloc, name, rest) {
        Err(WordFault::Unknown) => {}
        read => return read,
    }
    read_connection_command(alloc, name, rest)
}
