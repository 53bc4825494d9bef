//! One connection's turns under the lock.
ghost use Rattle.std.specs.Prelude.{◌≡◌, ◌≤◌, [], true, false, IfOk, IfErr};
ghost use Rattle.std.specs.Prelude.{OnErr, OnOk};
ghost use Rattle.turn_lock.specs.declared.rule.TheConstants.{LAST_TICKET};
ghost use Rattle.serial_model.specs.History.{gives_on, is_admitted, runs_on};
ghost use Rattle.serial_model.specs.Steps.{IsCallable};
ghost use Rattle.turn_lock.specs.Own.{Grows, IsWithin, past_of};
ghost use Rattle.turn_lock.specs.Turns.{Plays};
ghost use Rattle.shared_book.specs.Turns.{Admits, BookTurn, Closes, IsCause, IsCloseCause};
ghost use Rattle.shared_book.specs.Turns.{IsServerCause, MayRun, PlaysOne, Refuses, Takes, Ticks};
ghost use Rattle.shared_book.specs.Turns.{is_run};

use super::logged::{Answer, SharedBook};
use resp_value::{Octets, Words};
use server_book::{BookCall, BookRefusal, BookReply};
use std::sync::Wait;
use turn_lock::{Seat, TurnLock, Worn, play};

/// Why a connection's turn was not taken.
#[derive(Clone, Copy, Debug, Drop, PartialEq, Eq)]
pub enum Refusal {
    /// The connection has ended.
    Dropped,
    NoMemory,
    /// No ticket of the lock is left.
    Worn,
    /// A SHUTDOWN ran.
    Stopped,
}

/// What became of a request whose turn was taken.
#[derive(Debug, Drop)]
pub enum Ran {
    /// It ran; the number of its entry.
    Entry(u64),
    /// Its call, which was not played: the connection is to take what waits for it first.
    Held(BookCall),
}

/// The most bytes of one Take.
pub const MOST: u64 = 65_536;

// One turn: the book's reply, or the call, if it is a Run that was not played.
fn play_one<R: Wait>(
    rt: &R,
    lock: &TurnLock<SharedBook>,
    seat: &mut Seat<SharedBook>,
    call: BookCall,
) -> Result<Answer, Worn>
    requires lock { seat.old.lock ≡ lock.now }
    requires within { IsWithin seat.old }
    requires call { IsCallable call }
    ensures ok { IfOk result (λ answer. PlaysOne call answer seat.old seat.new) }
    ensures err { OnErr result (Grows seat.old seat.new [] × (LAST_TICKET ≤ seat.new.tickets)) }
{
    match play(rt, lock, seat, call) {
        Ok(answer) => Ok(answer),
        Err(worn) => Err(worn),
    }
}

// The book's reply to a call that is no Run.
fn reply_to<R: Wait>(
    rt: &R,
    lock: &TurnLock<SharedBook>,
    seat: &mut Seat<SharedBook>,
    call: BookCall,
) -> Result<BookReply, Worn>
    requires lock { seat.old.lock ≡ lock.now }
    requires within { IsWithin seat.old }
    requires call { IsCallable call }
    requires other { is_run call ≡ false }
    ensures ok { IfOk result (λ reply. Plays BookTurn call reply seat.old seat.new) }
    ensures err { OnErr result (Grows seat.old seat.new [] × (LAST_TICKET ≤ seat.new.tickets)) }
{
    match play_one(rt, lock, seat, call) {
        Ok(Answer::Told(reply)) => Ok(reply),
        Ok(Answer::Held(_)) => unreachable!(),
        Err(worn) => Err(worn),
    }
}

/// Admits a connection; its id is at least 1. Behind a SHUTDOWN none is admitted.
#[tactic(auto, using(crate::proofs::Outcomes::admitting))]
pub fn admit<R: Wait>(
    rt: &R,
    lock: &TurnLock<SharedBook>,
    seat: &mut Seat<SharedBook>,
) -> Result<u64, Refusal>
    requires lock { seat.old.lock ≡ lock.now }
    requires within { IsWithin seat.old }
    ensures ok { IfOk result (λ id. Admits id seat.old seat.new) }
    ensures err { IfErr result (λ e. Refuses IsServerCause e seat.old seat.new) }
{
    match reply_to(rt, lock, seat, BookCall::Admit) {
        Ok(BookReply::Admitted { id, .. }) => Ok(id),
        Ok(BookReply::Refused(BookRefusal::NoMemory)) => Err(Refusal::NoMemory),
        Ok(BookReply::Refused(BookRefusal::Stopped)) => Err(Refusal::Stopped),
        Ok(BookReply::Ran { .. }) => unreachable!(),
        Ok(BookReply::Quiet) => unreachable!(),
        Ok(BookReply::Bytes { .. }) => unreachable!(),
        Ok(BookReply::Closed { .. }) => unreachable!(),
        Ok(BookReply::Ticked { .. }) => unreachable!(),
        Ok(BookReply::Refused(BookRefusal::Gone { .. })) => unreachable!(),
        Err(_) => Err(Refusal::Worn),
    }
}

/// Runs a request at this moment. Where `MOST` bytes or more wait for the connection it is held
/// back.
#[tactic(auto, using(crate::proofs::Outcomes::running))]
pub fn run<R: Wait>(
    rt: &R,
    lock: &TurnLock<SharedBook>,
    seat: &mut Seat<SharedBook>,
    id: u64,
    words: Words,
    now: u64,
) -> Result<Ran, Refusal>
    requires lock { seat.old.lock ≡ lock.now }
    requires within { IsWithin seat.old }
    requires admitted { is_admitted (past_of seat.old) id ≡ true }
    ensures ok { IfOk result (λ ran. MayRun id words now ran seat.old seat.new) }
    ensures err { IfErr result (λ e. Refuses (IsCause runs_on id) e seat.old seat.new) }
{
    let reply = match play_one(rt, lock, seat, BookCall::Run { id, words, now }) {
        Ok(Answer::Told(reply)) => reply,
        Ok(Answer::Held(call)) => return Ok(Ran::Held(call)),
        Err(_) => return Err(Refusal::Worn),
    };
    match reply {
        BookReply::Ran { entry } => Ok(Ran::Entry(entry)),
        BookReply::Refused(BookRefusal::Gone { .. }) => Err(Refusal::Dropped),
        BookReply::Refused(BookRefusal::NoMemory) => Err(Refusal::NoMemory),
        BookReply::Admitted { .. } => unreachable!(),
        BookReply::Quiet => unreachable!(),
        BookReply::Bytes { .. } => unreachable!(),
        BookReply::Closed { .. } => unreachable!(),
        BookReply::Ticked { .. } => unreachable!(),
        BookReply::Refused(BookRefusal::Stopped) => unreachable!(),
    }
}

/// Takes the connection's next bytes, `MOST` or fewer; none where nothing waits.
#[tactic(auto, using(crate::proofs::Outcomes::taking))]
pub fn take<R: Wait>(
    rt: &R,
    lock: &TurnLock<SharedBook>,
    seat: &mut Seat<SharedBook>,
    id: u64,
) -> Result<Option<Octets>, Refusal>
    requires lock { seat.old.lock ≡ lock.now }
    requires within { IsWithin seat.old }
    requires admitted { is_admitted (past_of seat.old) id ≡ true }
    ensures ok { IfOk result (λ bytes. Takes id bytes seat.old seat.new) }
    ensures err { IfErr result (λ e. Refuses (IsCause gives_on id) e seat.old seat.new) }
{
    match reply_to(rt, lock, seat, BookCall::Take { id, max: MOST }) {
        Ok(BookReply::Bytes { bytes, .. }) => Ok(Some(bytes)),
        Ok(BookReply::Quiet) => Ok(None),
        Ok(BookReply::Refused(BookRefusal::Gone { .. })) => Err(Refusal::Dropped),
        Ok(BookReply::Refused(BookRefusal::NoMemory)) => Err(Refusal::NoMemory),
        Ok(BookReply::Admitted { .. }) => unreachable!(),
        Ok(BookReply::Ran { .. }) => unreachable!(),
        Ok(BookReply::Closed { .. }) => unreachable!(),
        Ok(BookReply::Ticked { .. }) => unreachable!(),
        Ok(BookReply::Refused(BookRefusal::Stopped)) => unreachable!(),
        Err(_) => Err(Refusal::Worn),
    }
}

/// Takes out the keys that are due at this moment, and tells the connections that remember them;
/// there may be none. Behind a SHUTDOWN it is refused.
#[tactic(auto, using(crate::proofs::Outcomes::ticking))]
pub fn tick<R: Wait>(
    rt: &R,
    lock: &TurnLock<SharedBook>,
    seat: &mut Seat<SharedBook>,
    now: u64,
) -> Result<(), Refusal>
    requires lock { seat.old.lock ≡ lock.now }
    requires within { IsWithin seat.old }
    ensures ok { OnOk result (Ticks now seat.old seat.new) }
    ensures err { IfErr result (λ e. Refuses IsServerCause e seat.old seat.new) }
{
    match reply_to(rt, lock, seat, BookCall::Tick { now }) {
        Ok(BookReply::Ticked { .. }) => Ok(()),
        Ok(BookReply::Quiet) => Ok(()),
        Ok(BookReply::Refused(BookRefusal::NoMemory)) => Err(Refusal::NoMemory),
        Ok(BookReply::Refused(BookRefusal::Stopped)) => Err(Refusal::Stopped),
        Ok(BookReply::Admitted { .. }) => unreachable!(),
        Ok(BookReply::Ran { .. }) => unreachable!(),
        Ok(BookReply::Bytes { .. }) => unreachable!(),
        Ok(BookReply::Closed { .. }) => unreachable!(),
        Ok(BookReply::Refused(BookRefusal::Gone { .. })) => unreachable!(),
        Err(_) => Err(Refusal::Worn),
    }
}

/// Closes the connection, also one that quit. It takes no memory.
#[tactic(auto, using(crate::proofs::Outcomes::closing))]
pub fn close<R: Wait>(
    rt: &R,
    lock: &TurnLock<SharedBook>,
    seat: &mut Seat<SharedBook>,
    id: u64,
) -> Result<(), Refusal>
    requires lock { seat.old.lock ≡ lock.now }
    requires within { IsWithin seat.old }
    requires admitted { is_admitted (past_of seat.old) id ≡ true }
    ensures ok { OnOk result (Closes id seat.old seat.new) }
    ensures err { IfErr result (λ e. Refuses (IsCloseCause id) e seat.old seat.new) }
{
    match reply_to(rt, lock, seat, BookCall::Close { id }) {
        Ok(BookReply::Closed { .. }) => Ok(()),
        Ok(BookReply::Refused(BookRefusal::Gone { .. })) => Err(Refusal::Dropped),
        Ok(BookReply::Admitted { .. }) => unreachable!(),
        Ok(BookReply::Ran { .. }) => unreachable!(),
        Ok(BookReply::Quiet) => unreachable!(),
        Ok(BookReply::Bytes { .. }) => unreachable!(),
        Ok(BookReply::Ticked { .. }) => unreachable!(),
        Ok(BookReply::Refused(BookRefusal::NoMemory)) => unreachable!(),
        Ok(BookReply::Refused(BookRefusal::Stopped)) => unreachable!(),
        Err(_) => Err(Refusal::Worn),
    }
}
