//! A server of keys and values and the links to it, driven by a schedule.
#![tactic(auto)]

mod dispatch;
mod kept;
mod line_fault;
mod progress;
mod schedule;
mod script;
mod script_fault;
mod serve;
mod status;
mod storm;
#[cfg(test)]
mod tests;

use command_line::{FORMS, find_wrong};
use dispatch::{refuse, run};
use edge_links::{ReaderSource, Sink, Source, SystemClock, WriterSink};
use kept::{KeptSink, KeptSource};
use line_fault::{find_line_fault, find_refusal};
use schedule::write_no_memory;
use script_fault::find_script_fault;
use socket_links::SocketNet;
use status::Status;
use std::env::{self, Env};
use std::io::{self, ErrorKind};
use std::process::ExitCode;

/// Runs the program over the standard streams, the system's clock and TCP, and ends with the number
/// of its status. Standard error says to a person what was wrong, if anything was;
/// where that can't be written, it is left out.
fn main(rt: HostRuntime) -> ExitCode {
    let alloc = rt.alloc();
    let mut output = KeptSink::new(WriterSink::new(rt.stdout()));
    let words = match words_of(&rt) {
        Ok(words) => words,
        Err(error) => return end(&rt, refuse_words(&rt, &error, &mut output), false),
    };
    let words = words.as_slice();
    let is_script = asks_for(words, "script");
    let Ok(input) = ReaderSource::new(alloc, rt.stdin()) else {
        return end(&rt, write_no_memory(&mut output), is_script);
    };
    let mut input = KeptSource::new(alloc, input);
    let mut net = SocketNet::new(rt);
    let clock = SystemClock::new(rt);
    let outcome = run(&rt, alloc, words, &mut input, &mut output, &mut net, &clock);
    match outcome.status {
        Status::Usage => explain_words(&rt, words),
        Status::BadLine => explain_line(&rt, &input, is_script),
        Status::Refused => {
            let refusal = find_refusal(output.last_byte(), input.line());
            let _ = eprintln!(rt; "zeovalki: line {}: {refusal}", input.number());
        }
        _ => {}
    }
    end(&rt, outcome.status, is_script)
}

fn asks_for(words: &[String], command: &str) -> bool {
    match words {
        [word, ..] => word.as_str() == command,
        [] => false,
    }
}

/// The words behind the program's name.
fn words_of<R: Env + AllocGlobal>(rt: &R) -> io::Result<Vec<String>> {
    Ok(env::args(rt)?.skip(1).collect(rt.alloc())?)
}

/// Answers words that could not be had.
fn refuse_words<K: Sink>(rt: &impl Eprint, error: &io::Error, output: &mut K) -> Status {
    if error.kind() == ErrorKind::OutOfMemory {
        return write_no_memory(output);
    }
    let _ = eprintln!(rt; "zeovalki: a word is no text in UTF-8");
    refuse(output)
}

fn explain_words(rt: &impl Eprint, words: &[String]) {
    if asks_for_pages(words) {
        let _ = eprintln!(rt;
            "zeovalki: the launcher has pages of help: \
             ./zeovalki help [world | storm | serve | script]\n\
             zeovalki: there is no version but the commit that was built"
        );
    } else if let Some(wrong) = find_wrong(words) {
        let _ = eprintln!(rt; "zeovalki: {wrong}");
    }
}

/// Whether a page is asked for. The launcher answers that before the program is run.
fn asks_for_pages(words: &[String]) -> bool {
    asks_for(words, "help")
        || words.iter().any(|word| matches!(word.as_str(), "--help" | "-h" | "--version" | "-V"))
}

/// Says why the last line that was read is outside the grammar.
fn explain_line<S: Source + Drop>(rt: &impl Eprint, input: &KeptSource<S>, is_script: bool) {
    let number = input.number();
    let _ = if is_script {
        let fault = find_script_fault(number, input.line());
        eprintln!(rt; "zeovalki: line {number}: {fault}")
    } else {
        let fault = find_line_fault(number, input.line());
        eprintln!(rt; "zeovalki: line {number}: {fault}")
    };
}

/// Says what a status means where its line on standard output says too little, and gives its
/// number to the system.
fn end(rt: &impl Eprint, status: Status, is_script: bool) -> ExitCode {
    let _ = match status {
        Status::Done | Status::BadLine | Status::Refused => Ok(()),
        Status::Usage => eprint!(rt; "{FORMS}"),
        Status::ReadFault => eprintln!(rt; "zeovalki: the input could not be read"),
        Status::WriteFault => eprintln!(rt; "zeovalki: the output could not be written"),
        Status::NetFault if is_script => {
            eprintln!(rt; "zeovalki: the server could not be reached")
        }
        Status::NetFault => {
            eprintln!(rt; "zeovalki: the port could not be listened at, or no longer")
        }
        Status::LinkEnded => {
            eprintln!(rt; "zeovalki: a link to the server ended before each line was answered")
        }
        Status::HistoryFull if is_script => {
            eprintln!(rt; "zeovalki: the client's log has as many entries as it may have")
        }
        Status::HistoryFull => {
            eprintln!(rt; "zeovalki: a client's log has as many entries as --history-max allows")
        }
        Status::NoMemory => eprintln!(rt; "zeovalki: memory ran out"),
        Status::Worn => eprintln!(rt; "zeovalki: no ticket of the client's lock is left"),
    };
    ExitCode::from(status.number())
}
