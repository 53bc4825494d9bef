//! The server's state, as it is kept under the turn lock.
ghost use Rattle.std.specs.Prelude.{◌≡◌, [], true, IfOk};
ghost use Rattle.serial_model.specs.Steps.{AreValid, IsCallable};
ghost use Rattle.turn_lock.specs.Own.{IsWithin};
ghost use Rattle.shared_book.specs.Turns.{IsHeldBack, TurnStep};
ghost use Rattle.shared_book.specs.Batches.{MayPass, PassesTake, ends_batch};
ghost use Rattle.turn_lock.specs.Seats.{first_seat};

use super::posted::{Posted, caller_of};
use super::turns::MOST;
use resp_value::NoMemory;
use server_book::{Book, BookCall, BookRefusal, BookReply, Entry, Limits};
use std::alloc::Global;
use std::marker::Model;
use turn_lock::{Logged, Refusing, Seat, TurnLock};

/// What a turn under the lock answers.
#[derive(Debug, Drop)]
pub enum Answer {
    /// The reply of the book.
    Told(BookReply),
    /// This Run, which was not played: its connection is to take what waits for it first, or a call
    /// before it in its batch added no entry.
    Held(BookCall),
}

/// A book that threads take turns on. Contracts see its limits and its history.
#[derive(Drop)]
pub struct SharedBook {
    limits: Limits,
    book: Book,
    posted: Posted,
}

impl Model for SharedBook {
    ghost use Rattle.std.specs.Prelude.{◌≡◌};
    ghost use Rattle.shared_book.specs.Turns.{Shared};

    ghost Value = { Shared };

    ghost view = { λ s. record { limits = s.book.limits; past = s.book.past } };

    ghost invariant = { λ s. s.limits ≡ s.book.limits };
}

impl SharedBook {
    /// The server before its first turn.
    pub fn new(alloc: Global, limits: Limits) -> Result<SharedBook, NoMemory>
        requires { AreValid limits }
        ensures { IfOk result (λ s. s ≡ record { limits = limits; past = [] }) }
    {
        Ok(SharedBook {
            limits,
            book: Book::new(alloc, limits)?,
            posted: Posted::new(alloc)?,
        })
    }

    pub fn book(&self) -> &Book
        ensures limits { result.now.limits ≡ self.now.limits }
        ensures past { result.now.past ≡ self.now.past }
    {
        &self.book
    }

    // Whether a call is a Run of a connection for which `MOST` bytes or more wait.
    fn is_held_back(&self, call: &BookCall) -> bool
        ensures { result ≡ true → IsHeldBack self.now.limits self.now.past call.now }
    {
        match call {
            BookCall::Run { id, .. } => self.book.gives_on(*id) && self.book.waiting(*id) >= MOST,
            _ => false,
        }
    }

    // The answer to a Take that is not to be played: that nothing waits, where that is so.
    #[tactic(auto, using(crate::proofs::Passing::passing))]
    fn pass_take(&self, id: u64) -> BookReply
        ensures { PassesTake self.now id result }
    {
        if !self.book.gives_on(id) {
            return BookReply::Refused(BookRefusal::Gone { id });
        }
        if self.book.waiting(id) == 0 {
            return BookReply::Quiet;
        }
        BookReply::Refused(BookRefusal::NoMemory)
    }
}

impl Logged for SharedBook {
    type Setup = Limits;

    type Entry = Entry;

    type Call = BookCall;

    type Reply = Answer;

    ghost setup = { λ s. s.limits };

    ghost stands = { λ s past. s.past ≡ past };

    ghost fits = { λ _ call. IsCallable call };

    ghost step = { TurnStep };

    #[tactic(auto, using(crate::proofs::Did::turned))]
    fn turn(&mut self, call: BookCall) -> Answer {
        if self.is_held_back(&call) {
            return Answer::Held(call);
        }
        let caller = caller_of(&call);
        let reply = self.book.turn(call);
        self.posted.mark(caller, &self.book);
        Answer::Told(reply)
    }
}

impl Refusing for SharedBook {
    ghost refuses = { ends_batch };

    ghost refusable = { MayPass };

    fn is_refusal(answer: &Answer) -> bool {
        matches!(
            answer,
            Answer::Held(_) | Answer::Told(BookReply::Refused(_)) | Answer::Told(BookReply::Quiet)
        )
    }

    fn refuse(&self, call: BookCall) -> Answer {
        match call {
            BookCall::Run { id, words, now } => Answer::Held(BookCall::Run { id, words, now }),
            BookCall::Take { id, .. } => Answer::Told(self.pass_take(id)),
            BookCall::Admit => unreachable!(),
            BookCall::Tick { .. } => unreachable!(),
            BookCall::Close { .. } => unreachable!(),
        }
    }
}

/// A server before its first turn.
#[derive(Drop)]
pub struct Opened {
    pub lock: TurnLock<SharedBook>,
    /// The first seat.
    pub seat: Seat<SharedBook>,
    /// Whom its turns send something to.
    pub posted: Posted,
}

/// A lock with a server before its first turn, and what tells whom its turns concern.
pub fn open_told(alloc: Global, limits: Limits) -> Result<Opened, NoMemory>
    requires { AreValid limits }
    ensures seat { IfOk result (λ o. o.seat ≡ first_seat o.lock limits) }
    ensures within { IfOk result (λ o. IsWithin o.seat) }
{
    let shared = SharedBook::new(alloc, limits)?;
    let posted = shared.posted.share()?;
    match TurnLock::create(alloc, shared) {
        Ok((lock, seat)) => Ok(Opened { lock, seat, posted }),
        Err(_) => Err(NoMemory),
    }
}

/// A lock with a server before its first turn, and its first seat.
pub fn open(
    alloc: Global,
    limits: Limits,
) -> Result<(TurnLock<SharedBook>, Seat<SharedBook>), NoMemory>
    requires { AreValid limits }
    ensures seat { IfOk result (λ r. r.1 ≡ first_seat r.0 limits) }
    ensures within { IfOk result (λ r. IsWithin r.1) }
{
    let Opened { lock, seat, .. } = open_told(alloc, limits)?;
    Ok((lock, seat))
}
