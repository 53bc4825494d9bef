//! The callers of a script, a thread for each of its thread numbers.
ghost use Rattle.std.specs.Prelude.{◌≡◌, ◌-◌, ◌<◌, ◌≤◌, [], vec_capacity};
ghost use Rattle.std.specs.Thread.{IsSync};
ghost use Rattle.std.specs.List.{All};
ghost use Rattle.turn_lock.specs.Seats.{split_seat};
ghost use Rattle.turn_lock.specs.Own.{IsWithin};
ghost use Rattle.script_text.specs.Scripts.{IsValidLine};
ghost use Rattle.script_run.specs.Reports.{first_of, rest_of};
ghost use Rattle.script_run.specs.Lines.{calls_of, PlaysThread, PlaysThreads};

use super::answer::{Answer, play_line};
use client_link::Waiters;
use script_text::ScriptLine;
use shared_client::SharedClient;
use std::alloc::Global;
use std::collections::VecDeque;
use std::marker::Model;
use std::sync::Wait;
use std::thread::{Threads, join};
use turn_lock::{Seat, TurnLock};

/// What the lines of one thread came to, in order. Where memory ran out there are fewer answers
/// than lines, and the others were not played.
#[derive(Drop)]
pub struct Answers {
    items: VecDeque<Answer>,
}

impl Model for Answers {
    ghost use Rattle.std.specs.Prelude.{List};
    ghost use Rattle.std.specs.Coded.{codes};
    ghost use Rattle.resp_value.specs.TreeCoding.{tree_code};
    ghost use Rattle.script_run.specs.declared.answer.Answer.{Answer};

    ghost Value = { List Answer };

    ghost coded = { Prim.hlevel (codes, tree_code) };

    ghost view = { λ a. a.items.items };
}

impl Answers {
    /// Takes the next one out.
    pub fn next(&mut self) -> Option<Answer>
        ensures first { result ≡ first_of self.old }
        ensures rest { self.new ≡ rest_of self.old }
    {
        self.items.pop_front()
    }
}

/// A thread of a script, or several that were joined.
#[derive(Drop)]
pub struct Caller<T> {
    pub seat: Seat<SharedClient>,
    pub answers: T,
}

/// A new seat, with some of the parts.
pub fn split_off(
    lock: &TurnLock<SharedClient>,
    seat: &mut Seat<SharedClient>,
    parts: u64,
) -> Seat<SharedClient>
    requires lock { seat.old.lock ≡ lock.now }
    requires within { IsWithin seat.old }
    requires parts { (1 ≤ parts) × (parts < seat.old.parts) }
    ensures old { seat.new ≡ record seat.old { parts = seat.old.parts - parts } }
    ensures new { result ≡ split_seat seat.old result.number parts }
    ensures within { IsWithin seat.new × IsWithin result }
{
    lock.split(seat, parts)
}

// Plays the lines of one thread, in order.
fn play_thread<R: Wait>(
    rt: &R,
    alloc: Global,
    lock: &TurnLock<SharedClient>,
    seat: Seat<SharedClient>,
    board: &Board,
    thread: u64,
) -> Caller<Answers>
    requires lock { seat.lock ≡ lock.now }
    requires within { IsWithin seat }
    requires lines { All IsValidLine board.now.lines.items }
    ensures same { (result.seat.lock ≡ seat.lock) × IsWithin result.seat }
    ensures plays { PlaysThread (calls_of thread board.now.lines.items) result.answers seat
        result.seat }
{
    play_lines(
        rt,
        alloc,
        lock,
        seat,
        &board.waiters,
        thread,
        board.lines.as_slice(),
    )
}

// The same of some lines.
fn play_lines<R: Wait>(
    rt: &R,
    alloc: Global,
    lock: &TurnLock<SharedClient>,
    mut seat: Seat<SharedClient>,
    waiters: &Waiters,
    thread: u64,
    lines: &[ScriptLine],
) -> Caller<Answers>
    requires lock { seat.lock ≡ lock.now }
    requires within { IsWithin seat }
    requires lines { All IsValidLine lines.now }
    ensures same { (result.seat.lock ≡ seat.lock) × IsWithin result.seat }
    ensures plays { PlaysThread (calls_of thread lines.now) result.answers seat result.seat }
{
    let mut items = Vec::new(alloc);
    for line in lines {
        if line.thread == thread {
            if items.reserve(1).is_err() {
                return Caller {
                    seat,
                    answers: Answers {
                        items: VecDeque::from(items),
                    },
                };
            }
            let answer = play_line(rt, lock, &mut seat, waiters, &line.call);
            items.push_reserved(answer);
        }
    }
    Caller {
        seat,
        answers: Answers {
            items: VecDeque::from(items),
        },
    }
}

/// What the threads of a script share beside the client.
#[derive(Drop)]
pub struct Board {
    pub waiters: Waiters,
    /// Whether the client has a Side.
    pub has_side: bool,
    pub lines: Vec<ScriptLine>,
}

/// What a thread takes with it to play the lines of the threads from 1 to this number.
#[derive(Drop)]
pub struct Task {
    pub alloc: Global,
    pub threads: u64,
    pub seat: Seat<SharedClient>,
    pub answers: Vec<Answers>,
}

/// Plays the lines of the threads from 1 to the number, each thread's in order, side by side where
/// threads can be made.
pub fn play_threads<R: Threads + Wait + Sync>(
    rt: &R,
    lock: &TurnLock<SharedClient>,
    board: &Board,
    task: Task,
) -> Caller<Vec<Answers>>
    requires lock { task.seat.lock ≡ lock.now }
    requires within { IsWithin task.seat }
    requires lines { All IsValidLine board.now.lines.items }
    requires parts { task.threads < task.seat.parts }
    requires none { task.answers.items ≡ [] }
    requires room { task.threads ≤ vec_capacity task.answers }
    ensures same { (result.seat.lock ≡ task.seat.lock) × IsWithin result.seat }
    ensures room { vec_capacity task.answers ≤ vec_capacity result.answers }
    ensures plays { PlaysThreads board.now.lines.items task.threads result.answers.items
        task.seat result.seat }
{
    let Task {
        alloc,
        threads,
        mut seat,
        answers,
    } = task;
    if threads == 0 {
        return Caller { seat, answers };
    }
    let other = split_off(lock, &mut seat, 1);
    let rest = Task {
        alloc,
        threads: threads - 1,
        seat,
        answers,
    };
    let (others, mine) = join(
        rt,
        || -> Caller<Vec<Answers>>
            requires { IsSync R.row × (rest.seat.lock ≡ lock.now) × IsWithin rest.seat
                × All IsValidLine board.now.lines.items × (rest.threads < rest.seat.parts)
                × (rest.answers.items ≡ []) × (rest.threads ≤ vec_capacity rest.answers) }
            ensures { (result.seat.lock ≡ rest.seat.lock) × IsWithin result.seat
                × (vec_capacity rest.answers ≤ vec_capacity result.answers)
                × PlaysThreads board.entry.now.lines.items rest.threads result.answers.items
                rest.seat result.seat }
        { play_threads(rt, lock, board, rest) },
        || -> Caller<Answers>
            requires { IsSync R.row × (other.lock ≡ lock.now) × IsWithin other
                × All IsValidLine board.now.lines.items }
            ensures { (result.seat.lock ≡ other.lock) × IsWithin result.seat
                × PlaysThread (calls_of threads board.entry.now.lines.items) result.answers other
                result.seat }
        { play_thread(rt, alloc, lock, other, board, threads) },
    );
    let Caller {
        seat: theirs,
        mut answers,
    } = others;
    let Caller {
        mut seat,
        answers: last,
    } = mine;
    lock.join(&mut seat, theirs);
    answers.push_reserved(last);
    Caller { seat, answers }
}
