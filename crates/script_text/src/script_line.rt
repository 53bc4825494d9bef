//! The lines of a script: what each thread asks of the client.
ghost use Rattle.std.specs.Prelude.{◌≡◌, List, ℕ, IfOk, map};
ghost use Rattle.script_text.specs.Scripts.{line_with, script_call, script_line_of};
ghost use Rattle.script_text.specs.Scripts.{script_line_of_parts, sent_of};

use super::event::{LONGEST_LINE, read_query, read_request};
use super::words::{is_text, line_parts, read_within};
use command_words::{Query, is_control};
use resp_value::{NoMemory, Words};
use std::alloc::Global;

/// The greatest number of a script's thread; the least is 1.
pub const MOST_THREADS: u64 = 8;

/// What a line of a script asks of the client.
#[derive(Drop)]
pub enum ScriptCall {
    /// `ask WORD..`: a query, which the cache may answer.
    Ask(Query),
    /// `do WORD..`: any other command.
    Do(Words),
}

/// A line of a script: a thread's number, and what it asks.
#[derive(Drop)]
pub struct ScriptLine {
    pub thread: u64,
    pub call: ScriptCall,
}

// A command that the client may send: the handshake's and those like it are its own.
fn read_sent(alloc: Global, rest: &[&[u8]]) -> Result<Option<Words>, NoMemory>
    ensures { IfOk result (λ o. o ≡ sent_of (map (λ p. p.now) rest.now)) }
{
    match read_request(alloc, rest)? {
        Some(words) => {
            if is_control(&words) {
                return Ok(None);
            }
            Ok(Some(words))
        }
        None => Ok(None),
    }
}

#[tactic(auto, unfolding(crate::specs::Scripts::script_call))]
fn read_call(alloc: Global, kind: &[u8], rest: &[&[u8]]) -> Result<Option<ScriptCall>, NoMemory>
    ensures { IfOk result (λ o. o ≡ script_call kind.now (map (λ p. p.now) rest.now)) }
{
    if is_text(kind, b"ask") {
        Ok(read_query(alloc, rest)?.map(|query| ScriptCall::Ask(query)))
    } else if is_text(kind, b"do") {
        Ok(read_sent(alloc, rest)?.map(|words| ScriptCall::Do(words)))
    } else {
        Ok(None)
    }
}

fn line_with(thread: Option<u64>, call: Option<ScriptCall>) -> Option<ScriptLine>
    ensures { result ≡ line_with thread call }
{
    match (thread, call) {
        (Some(thread), Some(call)) => Some(ScriptLine { thread, call }),
        _ => None,
    }
}

#[tactic(auto, unfolding(crate::specs::Scripts::script_line_of_parts))]
fn read_script_parts(alloc: Global, parts: &[&[u8]]) -> Result<Option<ScriptLine>, NoMemory>
    ensures { IfOk result (λ o. o ≡ script_line_of_parts (map (λ p. p.now) parts.now)) }
{
    match parts {
        [thread, kind, rest @ ..] => {
            let thread = read_within(alloc, 1, MOST_THREADS, thread)?;
            let call = read_call(alloc, kind, rest)?;
            Ok(line_with(thread, call))
        }
        _ => Ok(None),
    }
}

/// What a line of a script asks, given without its LF, or `None` where the line is not in the
/// grammar. Its parts are parted by one space each: the number of a thread, 1 to `MOST_THREADS`,
/// then `ask` with the words of a cacheable query, or `do` with those of a command that is not the
/// client's own (HELLO, RESET, QUIT, SHUTDOWN, SUBSCRIBE, UNSUBSCRIBE, CLIENT TRACKING and CLIENT
/// CACHING). Words and lengths are those of `read_event`.
#[tactic(auto, unfolding(crate::specs::Scripts::script_line_of))]
pub fn read_script_line(alloc: Global, line: &[u8]) -> Result<Option<ScriptLine>, NoMemory>
    ensures { IfOk result (λ o. o ≡ script_line_of line.now) }
{
    if line.len() > LONGEST_LINE {
        return Ok(None);
    }
    let parts = line_parts(alloc, line)?;
    read_script_parts(alloc, parts.as_slice())
}
