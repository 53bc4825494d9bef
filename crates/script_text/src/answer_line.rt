//! The answers to a script's lines, as they are printed.
ghost use Rattle.std.specs.Prelude.{◌≡◌, ◌++◌, ◌∷◌, [], OnOk, OnErr, codes};
ghost use Rattle.std.specs.Fmt.{decimal};
ghost use Rattle.script_text.specs.Answered.{answer_text, unended_answer};
ghost use Rattle.script_text.specs.Printed.{value_text};

use super::line::{append, put_number, put_shown};
use resp_value::{NoMemory, Value};

/// What a line of a script came to.
#[derive(Drop)]
pub enum ScriptAnswer {
    /// `LINE hit N VALUE`: the cache had the value, which command number N brought.
    Hit(u64, Value),
    /// `LINE answer N VALUE`: a query's value, from the server, as the reply to command number N.
    Read(u64, Value),
    /// `LINE answer VALUE`: the reply to any other command.
    Reply(Value),
    /// `LINE down`: the client's link has ended, and there is no reply.
    Down,
}

fn put_numbered(what: &[u8], number: u64, value: &Value, out: &mut Vec<u8>) -> Result<(), NoMemory>
    ensures { OnOk result (out.new.items
        ≡ out.old.items ++ what.now ++ decimal number ++ codes " " ++ value_text value.now) }
{
    append(out, what)?;
    put_number(number, out)?;
    append(out, b" ")?;
    put_shown(value, out)
}

fn put_unended(line: u64, answer: &ScriptAnswer, out: &mut Vec<u8>) -> Result<(), NoMemory>
    ensures { OnOk result (out.new.items ≡ out.old.items ++ unended_answer line answer.now) }
{
    put_number(line, out)?;
    match answer {
        ScriptAnswer::Hit(number, value) => put_numbered(b" hit ", *number, value, out),
        ScriptAnswer::Read(number, value) => put_numbered(b" answer ", *number, value, out),
        ScriptAnswer::Reply(value) => {
            append(out, b" answer ")?;
            put_shown(value, out)
        }
        ScriptAnswer::Down => append(out, b" down"),
    }
}

/// Appends the answer to the line of that number, with its LF. Values stand in their printed form.
/// Where memory runs out nothing is appended.
#[tactic(auto, unfolding(crate::specs::Answered::answer_text))]
pub fn put_script_answer(
    line: u64,
    answer: &ScriptAnswer,
    out: &mut Vec<u8>,
) -> Result<(), NoMemory>
    ensures ok { OnOk result (out.new.items ≡ out.old.items ++ answer_text line answer.now) }
    ensures err { OnErr result (out.new.items ≡ out.old.items) }
{
    let mut text = Vec::new(*out.allocator());
    put_unended(line, answer, &mut text)?;
    text.push(b'\n')?;
    out.extend_from_slice(text.as_slice())?;
    Ok(())
}
