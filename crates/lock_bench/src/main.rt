//! Raises a register in threads, and says whether it has the right value at the end:
//! `lock_bench turn 4 1000`, or `mutex` for `turn`. Two further numbers are the rounds of work in a
//! turn and before one.
#![tactic(auto)]

mod drive;
mod register;
#[cfg(test)]
mod tests;

use drive::Share;
use std::{env, io};

/// Under which lock and in how many threads, what each does, and the rounds of work in a turn.
#[derive(Drop)]
struct Run {
    mutex: bool,
    threads: u64,
    share: Share,
    rounds: u64,
}

fn number(word: Option<String>) -> Option<u64> {
    word?.as_str().parse::<u64>().ok()
}

fn number_or_none(word: Option<String>) -> Option<u64> {
    match word {
        Some(_) => number(word),
        None => Some(0),
    }
}

fn read_words(words: &mut env::Args) -> Option<Run> {
    let mutex = match words.next()?.as_str() {
        "turn" => false,
        "mutex" => true,
        _ => return None,
    };
    let threads = number(words.next())?;
    let turns = number(words.next())?;
    let rounds = number_or_none(words.next())?;
    let own_rounds = number_or_none(words.next())?;
    Some(Run {
        mutex,
        threads,
        share: Share { turns, own_rounds },
        rounds,
    })
}

fn main(rt: HostRuntime) -> io::Result<()> {
    let mut words = env::args(&rt)?;
    words.next();
    let Some(run) = read_words(&mut words) else {
        println!(rt; "usage: lock_bench turn|mutex THREADS TURNS [ROUNDS [OWN_ROUNDS]]")?;
        return Ok(());
    };
    if run.threads == 0 {
        println!(rt; "at least one thread")?;
        return Ok(());
    }
    let value = if run.mutex {
        Some(drive::raised_under_mutex(&rt, run.threads, run.share, run.rounds))
    } else {
        match drive::raised_in_turn(&rt, rt.alloc(), run.threads, run.share, run.rounds) {
            Ok(closed) => Some(closed.state().value),
            Err(_) => None,
        }
    };
    if value == Some(run.threads.saturating_mul(run.share.turns)) {
        println!(rt; "right")?;
    } else {
        println!(rt; "wrong")?;
    }
    Ok(())
}
