//! The lines of a script, read to the end of a source.
ghost use Rattle.std.specs.Prelude.{◌≡◌, ◌++◌, ◌∷◌, [], IfOk, IfSome};
ghost use Rattle.std.specs.List.{All};
ghost use Rattle.edge_lines.specs.TextLines.{text_lines};
ghost use Rattle.script_text.specs.Scripts.{IsValidLine};
ghost use Rattle.script_program.specs.Scripts.{line_at, ReadsAs, ReadCounts};
ghost use Rattle.script_program.specs.Pushed.{Pushes, AreValid};

use edge_lines::{LineRead, read_line};
use edge_links::Source;
use resp_value::NoMemory;
use script_text::{LONGEST_LINE, ScriptLine, read_script_line};
use std::alloc::Global;

/// How many lines a script may have.
pub const MOST_LINES: u64 = 100_000;

/// What a script was read as.
#[derive(Drop)]
pub enum ScriptRead {
    /// All lines of the source, in order.
    Lines(Vec<ScriptLine>),
    /// The first line outside the grammar.
    BadLine(u64),
    Failed,
    NoMemory,
}

fn numbered_line(alloc: Global, number: u64, line: &[u8]) -> Result<Option<ScriptLine>, NoMemory>
    ensures { IfOk result (λ o. o ≡ line_at number line.now) }
{
    if number > MOST_LINES {
        return Ok(None);
    }
    read_script_line(alloc, line)
}

// Adds the line of that number, or says why it can't be.
fn push_line(
    alloc: Global,
    number: u64,
    text: &[u8],
    lines: &mut Vec<ScriptLine>,
) -> Option<ScriptRead>
    ensures { Pushes result number text.now lines.old.items lines.new.items }
{
    match numbered_line(alloc, number, text) {
        Ok(Some(line)) => match lines.push(line) {
            Ok(()) => None,
            Err(_) => Some(ScriptRead::NoMemory),
        },
        Ok(None) => Some(ScriptRead::BadLine(number)),
        Err(NoMemory) => Some(ScriptRead::NoMemory),
    }
}

/// Reads a script to the end of its source, or to the first line outside the grammar.
pub fn read_script<S: Source>(alloc: Global, input: &mut S) -> ScriptRead
    ensures reads { IfSome (S.left input.old) (λ text. ReadsAs result (text_lines text)) }
    ensures valid { AreValid result }
    ensures counts { ReadCounts result (S.counts input.old) (S.counts input.new) }
{
    let mut lines = Vec::new(alloc);
    for number in 1..MOST_LINES + 2 {
        match read_line(alloc, input, LONGEST_LINE) {
            LineRead::Line(text) => match push_line(alloc, number, text.as_slice(), &mut lines) {
                Some(read) => return read,
                None => {}
            },
            LineRead::Last(text) => {
                return match push_line(alloc, number, text.as_slice(), &mut lines) {
                    Some(read) => read,
                    None => ScriptRead::Lines(lines),
                };
            }
            LineRead::End => return ScriptRead::Lines(lines),
            LineRead::TooLong => return ScriptRead::BadLine(number),
            LineRead::Failed => return ScriptRead::Failed,
            LineRead::NoMemory => return ScriptRead::NoMemory,
        }
    }
    unreachable!()
}
