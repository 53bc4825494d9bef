//! The run of a schedule: lines in, lines out.
ghost use Rattle.std.specs.Prelude.{◌≡◌, ◌++◌, [], List, IfOk, OnOk, OnErr, IfSome};
ghost use Rattle.edge_links.specs.Counts.{Counted};
ghost use Rattle.resp_value.specs.Lists.{IsPrefix};
ghost use Rattle.serial_model.specs.declared.history.Limits.{Limits};
ghost use Rattle.serial_model.specs.Steps.{AreValid};
ghost use Rattle.world_run.specs.WorldState.{start};
ghost use Rattle.script_text.specs.declared.line.Line.{Line};
ghost use Rattle.script_text.specs.Printed.{text_of};
ghost use Rattle.redis_program.specs.declared.status.Status.TheVariants as status;
ghost use Rattle.redis_program.specs.Headline.{Comes, EndsAs, IsVerdict, Writes, event_at};
ghost use Rattle.redis_program.specs.Headline.{text_lines};
ghost use Rattle.redis_program.specs.Playing.{ComesTo, EndingRead, EndingWrote, LastGives};
ghost use Rattle.redis_program.specs.Playing.{LineCounted, LineGives, LineText};

use super::status::{Ending, Status};
use edge_lines::{LineRead, SinkFailed, read_line, write_all};
use edge_links::{Sink, Source};
use resp_value::NoMemory;
use script_text::{Event, LONGEST_LINE, Lines, put_line, read_event};
use serial_model::Limits;
use std::alloc::Global;
use world_run::{World, WorldFault, law_one_history};

/// How many lines a schedule may have.
pub const MOST_LINES: u64 = 10_000_000;

/// Plays a schedule, line by line, and writes what each line prints before the next is read. The
/// last line of what is written says how the run ended, unless all was played or the sink failed.
pub fn run_world<S: Source, K: Sink>(
    alloc: Global,
    limits: Limits,
    input: &mut S,
    output: &mut K,
) -> Status
    requires { AreValid limits }
    ensures gives { Writes (Comes limits (S.left input.old) (S.left input.new)) result
        (K.contents output.old) (K.contents output.new) }
    ensures exact { IfSome (S.left input.old)
        (λ text. Writes (EndsAs limits (text_lines text)) result
        (K.contents output.old) (K.contents output.new)) }
    ensures complete { ¬ Counted (S.counts input.old).faults (S.counts input.new).faults
        → ¬ Counted (K.counts output.old).faults (K.counts output.new).faults
        → IfSome (S.left input.old) (λ text. IsVerdict limits (text_lines text) result) }
    ensures understood { ¬ (result ≡ status.Usage) }
    ensures done { result ≡ status.Done
        → Counted (S.counts input.old).ends (S.counts input.new).ends }
    ensures read { result ≡ status.ReadFault
        → Counted (S.counts input.old).faults (S.counts input.new).faults }
    ensures write { result ≡ status.WriteFault
        → Counted (K.counts output.old).faults (K.counts output.new).faults }
{
    match play_schedule(alloc, limits, input, output) {
        Ending::Done => Status::Done,
        Ending::WriteFault => Status::WriteFault,
        ending => write_last(alloc, ending, output),
    }
}

fn play_schedule<S: Source, K: Sink>(
    alloc: Global,
    limits: Limits,
    input: &mut S,
    output: &mut K,
) -> Ending
    requires { AreValid limits }
    ensures gives { ComesTo limits (S.left input.old) (S.left input.new) result
        (K.contents output.old) (K.contents output.new) }
    ensures read { EndingRead result (S.counts input.old) (S.counts input.new) }
    ensures wrote { EndingWrote result (K.counts output.old) (K.counts output.new) }
{
    law_one_history();
    match World::new(alloc, limits) {
        Ok(mut world) => play_lines(alloc, &mut world, input, output),
        Err(_) => Ending::NoMemory,
    }
}

/// Plays line after line on a world where nothing was played. The world is lent, since each way out
/// of the loop would let it go.
fn play_lines<S: Source, K: Sink>(
    alloc: Global,
    world: &mut World,
    input: &mut S,
    output: &mut K,
) -> Ending
    ghost limits: { Limits }
    requires valid { AreValid limits }
    requires fresh { world.old ≡ start limits }
    ensures gives { ComesTo limits (S.left input.old) (S.left input.new) result
        (K.contents output.old) (K.contents output.new) }
    ensures read { EndingRead result (S.counts input.old) (S.counts input.new) }
    ensures wrote { EndingWrote result (K.counts output.old) (K.counts output.new) }
{
    law_one_history();
    for number in 1..MOST_LINES + 2 {
        match read_line(alloc, input, LONGEST_LINE) {
            LineRead::Line(line) => match play(alloc, world, number, line.as_slice(), output) {
                Ok(()) => {}
                Err(ending) => return ending,
            },
            LineRead::Last(last) => match play(alloc, world, number, last.as_slice(), output) {
                Ok(()) => return Ending::Done,
                Err(ending) => return ending,
            },
            LineRead::End => return Ending::Done,
            LineRead::TooLong => return Ending::BadLine { number },
            LineRead::Failed => return Ending::ReadFault,
            LineRead::NoMemory => return Ending::NoMemory,
        }
    }
    unreachable!()
}

/// Plays a line and writes what it prints.
fn play<K: Sink>(
    alloc: Global,
    world: &mut World,
    number: u64,
    line: &[u8],
    output: &mut K,
) -> Result<(), Ending>
    ensures gives { LineGives number world.old line.now result world.new
        (K.contents output.old) (K.contents output.new) }
    ensures counts { LineCounted result (K.counts output.old) (K.counts output.new) }
{
    let mut text = Vec::new(alloc);
    let played = play_line(alloc, world, number, line, &mut text);
    match write_all(output, text.as_slice()) {
        Ok(()) => played,
        Err(SinkFailed) => Err(Ending::WriteFault),
    }
}

/// Plays a line and puts what it prints into an empty text.
fn play_line(
    alloc: Global,
    world: &mut World,
    number: u64,
    line: &[u8],
    text: &mut Vec<u8>,
) -> Result<(), Ending>
    requires { text.old.items ≡ [] }
    ensures { LineText number world.old line.now result world.new text.new.items }
{
    let event = match numbered_event(alloc, number, line) {
        Ok(Some(event)) => event,
        Ok(None) => return Err(Ending::BadLine { number }),
        Err(NoMemory) => return Err(Ending::NoMemory),
    };
    let mut lines = Lines::new(alloc);
    let stepped = world.step(&event, &mut lines);
    match put_lines(&lines, text) {
        Ok(()) => {}
        Err(NoMemory) => return Err(Ending::NoMemory),
    }
    match stepped {
        Ok(()) => Ok(()),
        Err(WorldFault::NoMemory) => Err(Ending::NoMemory),
        Err(WorldFault::HistoryFull { .. }) => Err(Ending::HistoryFull),
        Err(fault) => Err(Ending::Refused { number, fault }),
    }
}

fn numbered_event(alloc: Global, number: u64, line: &[u8]) -> Result<Option<Event>, NoMemory>
    ensures { IfOk result (λ o. o ≡ event_at number line.now) }
{
    if number > MOST_LINES {
        return Ok(None);
    }
    read_event(alloc, line)
}

/// Appends the lines. Where memory runs out, the first of them may have been appended.
#[tactic(auto, unfolding(script_text::specs::Printed::text_of))]
fn put_lines(lines: &Lines, text: &mut Vec<u8>) -> Result<(), NoMemory>
    ensures ok { OnOk result (text.new.items ≡ text.old.items ++ text_of lines.now) }
    ensures err { OnErr result
        ((first : List Line) × IsPrefix first lines.now
        × (text.new.items ≡ text.old.items ++ text_of first)) }
{
    for line in lines.as_slice() {
        put_line(line, text)?;
    }
    Ok(())
}

/// Writes the last line of an ending.
pub fn write_last<K: Sink>(alloc: Global, ending: Ending, output: &mut K) -> Status
    ensures { LastGives ending result (K.contents output.old) (K.contents output.new)
        (K.counts output.old) (K.counts output.new) }
{
    let (text, status) = match ending.last_line(alloc) {
        Ok(text) => (text, ending.status()),
        Err(NoMemory) => return write_no_memory(output),
    };
    match write_all(output, text.as_bytes()) {
        Ok(()) => status,
        Err(SinkFailed) => Status::WriteFault,
    }
}

/// Writes the last line of want of memory, which takes none.
pub fn write_no_memory<K: Sink>(output: &mut K) -> Status
    ensures { LastGives Ending.NoMemory result (K.contents output.old) (K.contents output.new)
        (K.counts output.old) (K.counts output.new) }
{
    match write_all(output, b"no-memory\n") {
        Ok(()) => Status::NoMemory,
        Err(SinkFailed) => Status::WriteFault,
    }
}
