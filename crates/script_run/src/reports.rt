//! What is printed of a session, and how it ends.
ghost use Rattle.std.specs.Prelude.{◌≡◌, ◌++◌, ◌-◌, ◌<◌, List, OnOk, OnErr, IfOk, length};
ghost use Rattle.std.specs.Prelude.{option_map};
ghost use Rattle.std.specs.List.{All};
ghost use Rattle.resp_value.specs.Lists.{IsPrefix};
ghost use Rattle.client_link.specs.Pumps.{end_number};
ghost use Rattle.script_text.specs.Scripts.{IsValidLine, most_threads};
ghost use Rattle.script_run.specs.declared.reports.LineEnd.{LineEnd};
ghost use Rattle.script_run.specs.Reports.{first_at, rest_at, line_end, ends_of, no_tally};
ghost use Rattle.script_run.specs.Reports.{note_end, is_printing, said_text, text_after};
ghost use Rattle.script_run.specs.Reports.{tally_after, ends_so, link_ended, session_end, end_text};

use super::answer::Answer;
use super::callers::Answers;
use client_link::PumpEnd;
use resp_value::NoMemory;
use script_text::{ScriptAnswer, ScriptLine, put_script_answer};
use shared_cache::{ClientRefusal, Wire};

/// What is printed of a line: its answer, or why none is from here on.
#[derive(Drop)]
pub enum LineEnd {
    Said(ScriptAnswer),
    NoMemory,
    LogFull,
    Worn,
}

/// What some lines of a script came to.
#[derive(Clone, Copy)]
pub struct Tally {
    down: bool,
    no_memory: bool,
    log_full: bool,
    worn: bool,
}

/// How a session ends.
#[derive(Clone, Copy, Debug, PartialEq, Eq)]
pub enum SessionEnd {
    /// Each line was answered by a hit or by an answer.
    Done,
    /// A line found Main ended; the pump of this link is the first that ended by 1 to 4.
    LinkEnded(Wire, u8),
    /// The client's log is full.
    HistoryFull,
    NoMemory,
    /// No ticket of the lock is left.
    Worn,
}

// A line that has no answer was not played, for want of memory.
fn line_end(answer: Option<Answer>) -> LineEnd
    ensures { result ≡ line_end answer }
{
    match answer {
        Some(Answer::Hit(number, value)) => LineEnd::Said(ScriptAnswer::Hit(number, value)),
        Some(Answer::Read(number, value)) => LineEnd::Said(ScriptAnswer::Read(number, value)),
        Some(Answer::Reply(value)) => LineEnd::Said(ScriptAnswer::Reply(value)),
        Some(Answer::Refused(refusal)) => match refusal {
            ClientRefusal::NoMemory => LineEnd::NoMemory,
            ClientRefusal::LogFull { .. } => LineEnd::LogFull,
            ClientRefusal::Worn => LineEnd::Worn,
            _ => LineEnd::Said(ScriptAnswer::Down),
        },
        None => LineEnd::NoMemory,
    }
}

// The next answer of the thread of that number, from 1.
fn next_of(threads: &mut Vec<Answers>, thread: u64) -> Option<Answer>
    requires { (0 < thread) × (thread - 1 < length threads.old.items) }
    ensures first { result ≡ first_at (thread - 1) threads.old.items }
    ensures rest { threads.new.items ≡ rest_at (thread - 1) threads.old.items }
{
    threads[(thread - 1) as usize].next()
}

// Whether the pump of Main, or of Side if there is one, ended by that number.
fn ends_so(number: u8, main: u8, side: Option<u8>) -> bool
    ensures { result ≡ ends_so number main side }
{
    match side {
        None => main == number,
        Some(side) => main == number || side == number,
    }
}

// The first link whose pump ended by 1 to 4.
fn link_ended(main: u8, side: Option<u8>) -> SessionEnd
    ensures { result ≡ link_ended main side }
{
    match side {
        None => SessionEnd::LinkEnded(Wire::Main, main),
        Some(side) => {
            if main <= 4 {
                SessionEnd::LinkEnded(Wire::Main, main)
            } else {
                SessionEnd::LinkEnded(Wire::Side, side)
            }
        }
    }
}

fn number_of(end: Option<PumpEnd>) -> Option<u8>
    ensures { result ≡ option_map end_number end }
{
    match end {
        None => None,
        Some(end) => Some(end.number()),
    }
}

impl Tally {
    fn new() -> Tally
        ensures { result ≡ no_tally }
    {
        Tally {
            down: false,
            no_memory: false,
            log_full: false,
            worn: false,
        }
    }

    fn is_printing(&self) -> bool
        ensures { result ≡ is_printing self.now }
    {
        !self.no_memory && !self.log_full && !self.worn
    }

    fn note(&mut self, end: &LineEnd)
        ensures { self.new ≡ note_end self.old end.now }
    {
        match end {
            LineEnd::Said(ScriptAnswer::Down) => self.down = true,
            LineEnd::Said(_) => {}
            LineEnd::NoMemory => self.no_memory = true,
            LineEnd::LogFull => self.log_full = true,
            LineEnd::Worn => self.worn = true,
        }
    }

    fn end(&self, main: u8, side: Option<u8>) -> SessionEnd
        ensures { result ≡ session_end self.now main side }
    {
        if !self.down && self.is_printing() {
            SessionEnd::Done
        } else if self.no_memory || ends_so(6, main, side) {
            SessionEnd::NoMemory
        } else if self.log_full || ends_so(7, main, side) {
            SessionEnd::HistoryFull
        } else if self.worn || ends_so(8, main, side) {
            SessionEnd::Worn
        } else {
            link_ended(main, side)
        }
    }
}

fn put_said(number: u64, end: &LineEnd, out: &mut Vec<u8>) -> Result<(), NoMemory>
    ensures ok { OnOk result (out.new.items ≡ out.old.items ++ said_text number end.now) }
    ensures err { OnErr result (out.new.items ≡ out.old.items) }
{
    match end {
        LineEnd::Said(answer) => put_script_answer(number, answer, out),
        _ => Ok(()),
    }
}

/// Appends the answers in the order of the lines, and says how the session ends. From the first
/// line on that found no memory, a full log or no ticket, no answer is appended. Where memory runs
/// out here, the answers to the first lines were appended.
pub fn report(
    lines: &[ScriptLine],
    threads: &mut Vec<Answers>,
    main: PumpEnd,
    side: Option<PumpEnd>,
    out: &mut Vec<u8>,
) -> Result<SessionEnd, NoMemory>
    requires lines { All IsValidLine lines.now }
    requires threads { length threads.old.items ≡ most_threads }
    ensures text { OnOk result (out.new.items
        ≡ out.old.items ++ text_after no_tally 1 (ends_of lines.now threads.old.items)) }
    ensures err { OnErr result ((first : List LineEnd)
        × IsPrefix first (ends_of lines.now threads.old.items)
        × (out.new.items ≡ out.old.items ++ text_after no_tally 1 first)) }
    ensures end { IfOk result (λ e. e ≡ session_end
        (tally_after no_tally (ends_of lines.now threads.old.items)) (end_number main)
        (option_map end_number side)) }
{
    let mut tally = Tally::new();
    for place in 0..lines.len() {
        let line = &lines[place];
        let end = line_end(next_of(threads, line.thread));
        tally.note(&end);
        if tally.is_printing() {
            put_said(place as u64 + 1, &end, out)?;
        }
    }
    Ok(tally.end(main.number(), number_of(side)))
}

impl SessionEnd {
    /// The last line of what is printed, with its LF. There is none where each line was answered.
    pub fn line(self) -> &'static [u8]
        ensures { result.now ≡ end_text self }
    {
        match self {
            SessionEnd::Done => b"",
            SessionEnd::LinkEnded(Wire::Main, 1) => b"link-ended main 1\n",
            SessionEnd::LinkEnded(Wire::Main, 2) => b"link-ended main 2\n",
            SessionEnd::LinkEnded(Wire::Main, 3) => b"link-ended main 3\n",
            SessionEnd::LinkEnded(Wire::Main, _) => b"link-ended main 4\n",
            SessionEnd::LinkEnded(Wire::Side, 1) => b"link-ended side 1\n",
            SessionEnd::LinkEnded(Wire::Side, 2) => b"link-ended side 2\n",
            SessionEnd::LinkEnded(Wire::Side, 3) => b"link-ended side 3\n",
            SessionEnd::LinkEnded(Wire::Side, _) => b"link-ended side 4\n",
            SessionEnd::HistoryFull => b"history-full\n",
            SessionEnd::NoMemory => b"no-memory\n",
            SessionEnd::Worn => b"worn\n",
        }
    }
}
