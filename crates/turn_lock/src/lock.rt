//! The lock, its seats and its calls.
ghost use Rattle.std.specs.Prelude.{◌≡◌, ℕ, ◌+◌, ◌-◌, ◌<◌, ◌≤◌, [], length, Some};
ghost use Rattle.std.specs.Prelude.{IfSome, IfOk, IfErr, OnOk, OnErr};
ghost use Rattle.std.specs.List.{All};
ghost use Rattle.turn_lock.specs.Counts.{times};
ghost use Rattle.turn_lock.specs.History.{entries, IsPrefix};
ghost use Rattle.turn_lock.specs.Seats.{first_seat, split_seat, joined_seat, IsSameSeat, IsSound};
ghost use Rattle.turn_lock.specs.Seats.{StopsAt, Turned, TurnedAll};
ghost use Rattle.turn_lock.specs.Batches.{IsUnplayed};

use crate::batch::take_turns;
use crate::logged::{Logged, Refusing};
use crate::rule::{ALL_PARTS, InTurn, LAST_TICKET, View};
use crate::steps::{Place, cut, find_number, merge, next_tickets, take_turn, wait_turn, wake_next};
use atomic_table::Table;
use std::alloc::Global;
use std::marker::{Brand, Model};
use std::snapshot::Snapshot;
use std::sync::Wait;

/// There was no memory.
#[derive(Debug, Drop)]
pub struct NoMemory;

/// No ticket is left: the ticket word is at its last value.
#[derive(Debug, Drop)]
pub struct Worn {
    pub tickets: u64,
}

/// Why no call of several was played.
#[derive(Debug, Drop)]
pub enum Unplayed {
    /// There was no memory for the replies.
    NoMemory,
    /// Fewer tickets are left than calls.
    Worn(Worn),
}

/// A caller's place at a lock. Contracts see which lock it is of, and what it knows.
#[derive(Drop)]
pub struct Seat<S: Logged> {
    place: Place<S>,
    parts: u64,
    tickets: u64,
}

impl<S: Logged> Model for Seat<S> {
    ghost use Rattle.std.specs.Prelude.{◌≡◌, []};
    ghost use Rattle.turn_lock.specs.Seats.{Known, known, IsSoundView};
    ghost use Rattle.turn_lock.specs.declared.rule.Stage.{Stage};

    ghost Value = { Known S.Setup S.Entry };

    ghost view = { λ s. known s.place.table_id s.place.me.0 };

    ghost invariant = { λ s. (s.parts ≡ s.place.me.0.shares) × (s.tickets ≡ s.place.me.0.tickets)
        × (s.place.me.0.stage ≡ Stage.Idle) × (s.place.me.1 ≡ [])
        × IsSoundView S.step s.place.me.0 };
}

impl<S: Logged> Seat<S> {
    /// How many of the lock's 18,446,744,073,709,551,615 parts the seat has.
    pub fn parts(&self) -> u64
        ensures value { result ≡ self.now.parts }
        ensures sound { IsSound S.step self.now }
    {
        self.parts
    }

    /// The greatest value of the ticket word that the seat, or one joined into it, found. It is 0
    /// at first.
    pub fn tickets(&self) -> u64
        ensures { result ≡ self.now.tickets }
    {
        self.tickets
    }
}

/// How often a seat looks for a turn before it sleeps.
#[derive(Clone, Copy, Debug)]
pub struct Patience {
    /// How often it looks again at once.
    pub spins: u16,

    /// How often it then lets other threads run before it looks.
    pub yields: u16,
}

/// A lock with a state. Contracts see which lock it is.
#[derive(Drop)]
pub struct TurnLock<S: Logged> {
    patience: Patience,
    table: Table<Option<S>, View<S::Setup, S::Entry>, Snapshot<S>, InTurn<S>, Global>,
}

impl<S: Logged> Model for TurnLock<S> {
    ghost use Rattle.atomic_table.specs.Seated.{TableId};
    ghost use Rattle.turn_lock.specs.Rule.{IsSeatOf};

    ghost Value = { TableId };

    ghost view = { λ l. l.table.shared.table_id };

    ghost invariant = { λ l. IsSeatOf l.table.shared.table_id l.table.shared.table_id };
}

/// What a lock that was closed hands back.
#[derive(Drop)]
pub struct Closed<S> {
    state: S,
    tickets: u64,
}

impl<S> Model for Closed<S> {
    ghost use Rattle.turn_lock.specs.Seats.{ClosedLock};

    ghost Value = { ClosedLock S };

    ghost view = { λ c. record { state = c.state; tickets = c.tickets } };
}

impl<S> Closed<S> {
    pub fn state(&self) -> &S
        ensures { result.now ≡ self.now.state }
    {
        &self.state
    }

    pub fn into_state(self) -> S
        ensures { result ≡ self.state }
    {
        let Closed { state, tickets: _ } = self;
        state
    }

    /// The ticket word at the close: how many tickets were drawn in all.
    pub fn tickets(&self) -> u64
        ensures { result ≡ self.now.tickets }
    {
        self.tickets
    }
}

impl<S: Logged + Drop> TurnLock<S> {
    /// A free lock, and its first seat, which has all parts. Its seats look 40 times at once and 40
    /// times after others ran.
    pub fn create(alloc: Global, state: S) -> Result<(TurnLock<S>, Seat<S>), NoMemory>
        requires { S.stands state [] }
        ensures { IfOk result (λ r. r.1 ≡ first_seat r.0 (S.setup state)) }
    {
        let about = Snapshot::of(&state);
        let mut slots = Vec::new(alloc);
        if slots.push(Some(state)).is_err() {
            return Err(NoMemory);
        }
        match Table::new(alloc, &[0, 0, 0], slots, &about) {
            Ok((table, place)) => Ok((
                TurnLock {
                    patience: Patience {
                        spins: 40,
                        yields: 40,
                    },
                    table,
                },
                Seat {
                    place,
                    parts: ALL_PARTS,
                    tickets: 0,
                },
            )),
            Err(_) => Err(NoMemory),
        }
    }
}

impl<S: Logged> TurnLock<S> {
    /// The same lock, whose seats look this often before they sleep.
    pub fn with_patience(self, patience: Patience) -> TurnLock<S>
        ensures { result ≡ self }
    {
        let TurnLock { patience: _, table } = self;
        TurnLock { patience, table }
    }

    /// A new seat, with a number of its own, that has seen what the other has and takes over some
    /// of its parts.
    pub fn split(&self, seat: &mut Seat<S>, parts: u64) -> Seat<S>
        requires seat { seat.old.lock ≡ self.now }
        requires parts { (1 ≤ parts) × (parts < seat.old.parts) }
        ensures old { seat.new ≡ record seat.old { parts = seat.old.parts - parts } }
        ensures new { result ≡ split_seat seat.old result.number parts }
        ensures number { times result.number seat.new.numbers ≡ 0 }
        ensures sound { IsSound S.step result }
    {
        let mut place = cut::<S, Brand>(&self.table.shared, &mut seat.place, parts);
        find_number(&self.table.shared, &mut place);
        seat.parts -= parts;
        Seat {
            place,
            parts,
            tickets: seat.tickets,
        }
    }

    /// Joins the other seat into this one, which then has the turns, the entries and the parts of
    /// both, and has seen what either has.
    pub fn join(&self, seat: &mut Seat<S>, other: Seat<S>)
        requires seat { (seat.old.lock ≡ self.now) × (other.lock ≡ self.now) }
        ensures both { seat.new ≡ joined_seat seat.old other }
        ensures seen { IsPrefix seat.old.seen seat.new.seen × IsPrefix other.seen seat.new.seen }
        ensures sound { IsSound S.step seat.new }
    {
        let Seat {
            place,
            parts,
            tickets,
        } = other;
        merge(&self.table.shared, &mut seat.place, place);
        seat.parts += parts;
        seat.tickets = seat.tickets.max(tickets);
    }

    /// One turn on the state. It waits until no other seat has a turn.
    pub fn play<R: Wait>(&self, rt: &R, seat: &mut Seat<S>, call: S::Call) -> Result<S::Reply, Worn>
        requires seat { seat.old.lock ≡ self.now }
        requires call { IfSome seat.old.setup (λ u. S.fits u call) }
        ensures same { (seat.new.lock ≡ seat.old.lock) × (seat.new.setup ≡ seat.old.setup)
            × (seat.new.number ≡ seat.old.number) × (seat.new.numbers ≡ seat.old.numbers)
            × (seat.new.parts ≡ seat.old.parts) }
        ensures turn { IfOk result (λ reply. Turned S.step call reply seat.old seat.new) }
        ensures turns { OnOk result (seat.new.turns ≡ seat.old.turns + 1) }
        ensures tickets { OnOk result (seat.new.tickets < LAST_TICKET) }
        ensures worn { IfErr result (λ w. w.tickets ≡ LAST_TICKET) }
        ensures err { OnErr result (seat.new ≡ record seat.old { tickets = LAST_TICKET }) }
        ensures not_less { seat.old.tickets ≤ seat.new.tickets }
        ensures sound { IsSound S.step seat.new }
    {
        let board = &self.table.shared;
        let Seat {
            place,
            parts: _,
            tickets,
        } = seat;
        match next_tickets(rt, board, place, &self.patience, 0) {
            Ok(at) => {
                *tickets = at;
                wait_turn(rt, board, place, at);
                let reply = take_turn::<S, Brand>(board, place, at, call);
                wake_next(board);
                Ok(reply)
            }
            Err(worn) => {
                *tickets = worn.tickets;
                Err(worn)
            }
        }
    }

    /// Ends the lock and hands back its state. While another seat is not joined, the lock and the
    /// seat come back.
    pub fn close(self, seat: Seat<S>) -> Result<Closed<S>, (TurnLock<S>, Seat<S>)>
        requires seat { seat.lock ≡ self }
        ensures ok { IfOk result (λ c. (seat.parts ≡ ALL_PARTS)
            × S.stands c.state (entries seat.seen)
            × (seat.setup ≡ Some (S.setup c.state))) }
        ensures tickets { IfOk result (λ c. (c.tickets ≡ seat.turns)
            × (seat.tickets ≤ c.tickets) × (c.tickets ≤ LAST_TICKET)) }
        ensures all { OnOk result
            (((place : ℕ) → place < length seat.seen → times place seat.own ≡ 1)
            × (length seat.own ≡ length seat.seen)) }
        ensures err { IfErr result (λ r. (seat.parts < ALL_PARTS) × (r.0 ≡ self) × (r.1 ≡ seat)) }
        ensures sound { IsSound S.step seat }
    {
        if seat.parts != ALL_PARTS {
            return Err((self, seat));
        }
        let TurnLock { patience: _, table } = self;
        let Seat {
            place,
            parts: _,
            tickets: _,
        } = seat;
        let mut closed = table.close_with(place);
        let tickets = closed.word(0);
        match closed.take(0) {
            Some(state) => {
                closed.free();
                Ok(Closed { state, tickets })
            }
            None => unreachable!(),
        }
    }
}

impl<S: Refusing> TurnLock<S> {
    /// One turn for each call, in their order. It waits once, for the first. Calls behind one that
    /// was refused are refused. Memory for the replies is taken before, and where it is not to be
    /// had, or fewer tickets are left than calls, no call is played, and all come back.
    pub fn play_all<R: Wait>(
        &self,
        rt: &R,
        alloc: Global,
        seat: &mut Seat<S>,
        calls: Vec<S::Call>,
    ) -> Result<Vec<S::Reply>, (Unplayed, Vec<S::Call>)>
        requires seat { seat.old.lock ≡ self.now }
        requires calls { IfSome seat.old.setup (λ u. All (S.fits u) calls.items) }
        requires refusable { All S.refusable calls.items }
        ensures same { IsSameSeat seat.old seat.new }
        ensures all { IfOk result
            (λ replies. TurnedAll S.step calls.items replies.items seat.old seat.new) }
        ensures stops { IfOk result (λ replies. StopsAt S.refuses replies.items) }
        ensures turns { OnOk result (seat.new.turns ≡ seat.old.turns + length calls.items) }
        ensures tickets { OnOk result (seat.new.tickets + length calls.items ≤ LAST_TICKET) }
        ensures err { IfErr result (λ e. (e.1.items ≡ calls.items)
            × IsUnplayed e.0 (length calls.items) seat.old seat.new) }
        ensures not_less { seat.old.tickets ≤ seat.new.tickets }
        ensures sound { IsSound S.step seat.new }
    {
        let board = &self.table.shared;
        let Seat {
            place,
            parts: _,
            tickets,
        } = seat;
        let Ok(mut replies) = Vec::with_capacity(alloc, calls.len()) else {
            return Err((Unplayed::NoMemory, calls));
        };
        if calls.is_empty() {
            return Ok(replies);
        }
        match next_tickets(rt, board, place, &self.patience, calls.len() as u64 - 1) {
            Ok(at) => {
                *tickets = at;
                take_turns(rt, board, place, at, calls, &mut replies);
                wake_next(board);
                Ok(replies)
            }
            Err(worn) => {
                *tickets = worn.tickets;
                replies.destroy_empty();
                Err((Unplayed::Worn(worn), calls))
            }
        }
    }
}

fn is_send<T: Send>(_it: &T) {}

fn is_sync<T: Sync>(_it: &T) {}

/// A lock may be shared between threads, and a seat moved to one, where the state may.
pub fn may_cross<S: Logged + Send>(lock: &TurnLock<S>, seat: &Seat<S>) {
    is_send(seat);
    is_send(lock);
    is_sync(lock);
}
