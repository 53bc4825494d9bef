//! Several requests of one connection and the Take behind them, in one batch of turns.
ghost use Rattle.std.specs.Prelude.{◌≡◌, ◌≤◌, ◌<◌, ◌+◌, ◌∷◌, [], true, length};
ghost use Rattle.std.specs.List.{All};
ghost use Rattle.std.specs.Vec.Iter.{into_iter_items};
ghost use Rattle.turn_lock.specs.Seats.{StopsAt};
ghost use Rattle.serial_model.specs.History.{is_admitted};
ghost use Rattle.turn_lock.specs.Own.{IsWithin, past_of};
ghost use Rattle.shared_book.specs.Batches.{ComesBack, Counts, EndsSo, IsOfRun, IsOfTake, IsRunAt};
ghost use Rattle.shared_book.specs.Batches.{TakeTells, Tells, ends_batch, ran_in, refusal_by};
ghost use Rattle.shared_book.specs.Batches.{requests_in};

use super::logged::{Answer, SharedBook};
use super::turns::{MOST, Ran, Refusal, run, take};
use resp_value::Octets;
use server_book::{BookCall, BookRefusal, BookReply};
use std::alloc::Global;
use std::sync::Wait;
use std::vec::IntoIter;
use turn_lock::{Seat, TurnLock};

/// What became of several requests, and of the Take behind them.
#[derive(Drop)]
pub struct Batch {
    /// How many requests of the connection ran, with those before.
    pub requests: u64,
    pub end: BatchEnd,
}

/// What is behind the requests that ran.
#[derive(Drop)]
pub enum BatchEnd {
    /// All ran, and these are the first bytes that wait behind them, if any do.
    Taken(Option<Octets>),
    /// So much waits for the connection that it is to take that first; these calls run the others.
    Held(Vec<BookCall>),
    /// Why the next request did not run, or the Take.
    Refused(Refusal),
}

fn refusal_by(refusal: BookRefusal) -> Refusal
    ensures { result ≡ refusal_by refusal }
{
    match refusal {
        BookRefusal::Gone { .. } => Refusal::Dropped,
        BookRefusal::NoMemory => Refusal::NoMemory,
        BookRefusal::Stopped => Refusal::Stopped,
    }
}

// One more, which is no more than this number.
fn one_more(count: u64, most: u64) -> u64
    requires { count < most }
    ensures { result ≡ count + 1 }
{
    count + 1
}

// What the answer to the Take tells.
fn taken(answer: Answer) -> BatchEnd
    requires { IsOfTake answer }
    ensures { TakeTells answer result }
{
    match answer {
        Answer::Told(BookReply::Bytes { bytes, .. }) => BatchEnd::Taken(Some(bytes)),
        Answer::Told(BookReply::Quiet) => BatchEnd::Taken(None),
        Answer::Told(BookReply::Refused(refusal)) => BatchEnd::Refused(refusal_by(refusal)),
        Answer::Told(BookReply::Admitted { .. }) => unreachable!(),
        Answer::Told(BookReply::Ran { .. }) => unreachable!(),
        Answer::Told(BookReply::Ticked { .. }) => unreachable!(),
        Answer::Told(BookReply::Closed { .. }) => unreachable!(),
        Answer::Held(_) => unreachable!(),
    }
}

// What the answers to the Runs tell, and that to the Take where none came back.
fn told(alloc: Global, requests: u64, answers: Vec<Answer>, last: Answer) -> Batch
    requires runs { All IsOfRun answers.items }
    requires take { IsOfTake last }
    requires counted { Counts requests answers.items }
    requires stops { StopsAt ends_batch answers.items }
    ensures requests { result.requests ≡ requests + ran_in answers.items }
    ensures end { Tells [] answers.items last result.end }
{
    let mut requests = requests;
    let mut held = Vec::new(alloc);
    let mut rest = answers.into_iter();
    'answers: while let Some(answer) = rest.next() {
        let reply = match answer {
            Answer::Told(reply) => reply,
            Answer::Held(call) => match held.push(call) {
                Ok(()) => continue 'answers,
                Err(_) => {
                    return Batch {
                        requests,
                        end: BatchEnd::Refused(Refusal::NoMemory),
                    };
                }
            },
        };
        match reply {
            BookReply::Ran { entry } => requests = one_more(requests, entry),
            BookReply::Refused(refusal) => {
                return Batch {
                    requests,
                    end: BatchEnd::Refused(refusal_by(refusal)),
                };
            }
            BookReply::Admitted { .. } => unreachable!(),
            BookReply::Ticked { .. } => unreachable!(),
            BookReply::Quiet => unreachable!(),
            BookReply::Bytes { .. } => unreachable!(),
            BookReply::Closed { .. } => unreachable!(),
        }
    }
    if held.is_empty() {
        return Batch {
            requests,
            end: taken(last),
        };
    }
    Batch {
        requests,
        end: BatchEnd::Held(held),
    }
}

// These calls come back, the first and those behind it.
fn held_back(alloc: Global, first: BookCall, rest: IntoIter<BookCall, Global>) -> BatchEnd
    ensures { ComesBack (first ∷ into_iter_items rest) result }
{
    let mut held = Vec::new(alloc);
    match held.push(first) {
        Ok(()) => {}
        Err(_) => return BatchEnd::Refused(Refusal::NoMemory),
    }
    let mut rest = rest;
    'calls: while let Some(call) = rest.next() {
        match held.push(call) {
            Ok(()) => {}
            Err(_) => return BatchEnd::Refused(Refusal::NoMemory),
        }
    }
    BatchEnd::Held(held)
}

// Runs the requests by a turn each, where they can be no batch, and takes what waits behind them.
fn run_each<R: Wait>(
    rt: &R,
    alloc: Global,
    lock: &TurnLock<SharedBook>,
    seat: &mut Seat<SharedBook>,
    id: u64,
    requests: u64,
    now: u64,
    calls: Vec<BookCall>,
) -> Batch
    requires lock { seat.old.lock ≡ lock.now }
    requires within { IsWithin seat.old }
    requires admitted { is_admitted (past_of seat.old) id ≡ true }
    requires counted { requests ≤ length seat.old.seen }
    requires runs { All (IsRunAt id now) calls.items }
    ensures { EndsSo id now requests (requests_in calls.items) result.requests result.end
        seat.old seat.new }
{
    let mut requests = requests;
    let mut rest = calls.into_iter();
    'calls: while let Some(call) = rest.next() {
        let BookCall::Run { words, .. } = call else {
            unreachable!();
        };
        match run(rt, lock, seat, id, words, now) {
            Ok(Ran::Entry(_)) => requests += 1,
            Ok(Ran::Held(call)) => {
                return Batch {
                    requests,
                    end: held_back(alloc, call, rest),
                };
            }
            Err(refusal) => {
                return Batch {
                    requests,
                    end: BatchEnd::Refused(refusal),
                };
            }
        }
    }
    match take(rt, lock, seat, id) {
        Ok(front) => Batch {
            requests,
            end: BatchEnd::Taken(front),
        },
        Err(refusal) => Batch {
            requests,
            end: BatchEnd::Refused(refusal),
        },
    }
}

/// Runs the requests of a connection at this moment, one after another, and takes the first bytes
/// that wait behind them, `MOST` or fewer. What is behind one that is refused does not run. Where
/// `MOST` bytes or more wait before a request, it comes back with those behind it, and nothing is
/// taken. The lock is waited for once. So many of its requests ran before.
pub fn run_all<R: Wait>(
    rt: &R,
    alloc: Global,
    lock: &TurnLock<SharedBook>,
    seat: &mut Seat<SharedBook>,
    id: u64,
    requests: u64,
    now: u64,
    mut calls: Vec<BookCall>,
) -> Batch
    requires lock { seat.old.lock ≡ lock.now }
    requires within { IsWithin seat.old }
    requires admitted { is_admitted (past_of seat.old) id ≡ true }
    requires counted { requests ≤ length seat.old.seen }
    requires runs { All (IsRunAt id now) calls.items }
    ensures { EndsSo id now requests (requests_in calls.items) result.requests result.end
        seat.old seat.new }
{
    match calls.push(BookCall::Take { id, max: MOST }) {
        Ok(()) => {}
        Err(_) => return run_each(rt, alloc, lock, seat, id, requests, now, calls),
    }
    match lock.play_all(rt, alloc, seat, calls) {
        Ok(mut answers) => match answers.pop() {
            Some(last) => told(alloc, requests, answers, last),
            None => unreachable!(),
        },
        Err((_, mut calls)) => {
            calls.pop();
            run_each(rt, alloc, lock, seat, id, requests, now, calls)
        }
    }
}
