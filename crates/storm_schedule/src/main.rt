//! Writes the events of a storm as a schedule: `storm_schedule 7 300` those of the number 7 with
//! 300 steps. A world that plays them comes to what the program's `storm` sums up.
#![tactic(auto)]

ghost use Rattle.std.specs.Prelude.{◌≡◌, IfOk};
ghost use Rattle.std.specs.List.{flat_map};
ghost use Rattle.script_text.specs.Grammar.{event_text};
ghost use Rattle.script_text.specs.Storm.{storm};

use edge_lines::{SinkFailed, write_all};
use edge_links::WriterSink;
use resp_value::NoMemory;
use script_text::{Storm, put_event};
use std::alloc::Global;
use std::process::ExitCode;
use std::{env, io};

/// The lines of a storm's events.
fn schedule_of(alloc: Global, number: u64, steps: u64) -> Result<Vec<u8>, NoMemory>
    ensures { IfOk result (λ text. text.items ≡ flat_map event_text (storm number steps)) }
{
    let mut text = Vec::new(alloc);
    let mut storm = Storm::new(alloc, number, steps);
    for place in 0..u64::MAX {
        match storm.next()? {
            Some(event) => put_event(&event, &mut text)?,
            None => return Ok(text),
        }
    }
    // There are more events than can be counted.
    Err(NoMemory)
}

fn number(word: Option<String>) -> Option<u64> {
    word?.as_str().parse::<u64>().ok()
}

/// Ends with 2 where the words are not two numbers, and with 1 where the schedule was not written.
fn main(rt: HostRuntime) -> io::Result<ExitCode> {
    let mut words = env::args(&rt)?;
    words.next();
    let (first, second) = (number(words.next()), number(words.next()));
    let (Some(seed), Some(steps)) = (first, second) else {
        eprintln!(rt; "usage: storm_schedule NUMBER STEPS")?;
        return Ok(ExitCode::from(2));
    };
    let Ok(text) = schedule_of(rt.alloc(), seed, steps) else {
        eprintln!(rt; "storm_schedule: memory ran out")?;
        return Ok(ExitCode::from(1));
    };
    let mut output = WriterSink::new(rt.stdout());
    match write_all(&mut output, text.as_slice()) {
        Ok(()) => Ok(ExitCode::SUCCESS),
        Err(SinkFailed) => Ok(ExitCode::from(1)),
    }
}
