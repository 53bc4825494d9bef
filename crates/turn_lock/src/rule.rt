//! What a seat knows, the rule that each step keeps, and what each step gives.
//!
//! No value of these types is made: they are for the proof alone.
ghost use Rattle.std.specs.Prelude.{ℕ, Option, None};

use crate::logged::Logged;
use atomic_table::{Join, Play, Split, TableRule};
use std::collections::LinkedList;
use std::marker::{Brand, PhantomData};
use std::snapshot::Snapshot;

/// The value of the ticket word at which no ticket is left.
pub const LAST_TICKET: u64 = u64::MAX;

/// The parts of a lock, which its first seat has.
pub const ALL_PARTS: u64 = u64::MAX;

pub enum Stage {
    /// It was split off and has no number yet.
    New,

    /// It has no ticket.
    Idle,

    /// It has a ticket that is not served yet.
    Waits(u64),

    /// It has the state, under the ticket that is served.
    Out(u64),

    /// It was joined into another.
    Spent,
}

/// What a seat knows.
///
/// `turns` counts the tickets that it drew, or that seats joined into it drew. `others` are numbers
/// that are not its own, and `shorter` is a prefix of `seen`. `more` counts the tickets that it has
/// behind the one of its stage.
pub struct View<U, E> {
    pub setup: Option<U>,
    pub number: u64,
    pub numbers: LinkedList<u64>,
    pub others: LinkedList<u64>,
    pub shares: u64,
    pub tickets: u64,
    pub turns: u64,
    pub seen: LinkedList<(u64, E)>,
    pub shorter: LinkedList<(u64, E)>,
    pub own: LinkedList<u64>,
    pub stage: Stage,
    pub more: u64,
}

pub struct InTurn<S> {
    of: PhantomData<S>,
}

impl<S: Logged> TableRule<Option<S>, View<S::Setup, S::Entry>, Snapshot<S>> for InTurn<S> {
    ghost use Rattle.turn_lock.specs.Rule.{LockRule, newcomer};

    ghost holds = { λ k. LockRule S.setup S.stands S.step (S.setup k.value) };

    ghost first = { λ k. newcomer (S.setup k.value) };
}

pub struct Look;

impl<S, U, E> Play<Option<S>, View<U, E>> for Look {
    ghost use Rattle.turn_lock.specs.Rule.{looked_at};

    ghost then = { looked_at };
}

pub struct Draw;

impl<S, U, E> Play<Option<S>, View<U, E>> for Draw {
    ghost use Rattle.turn_lock.specs.Rule.{drew};

    ghost then = { drew };
}

/// A step on the number of sleepers.
pub struct Count;

impl<S, U, E> Play<Option<S>, View<U, E>> for Count {
    ghost use Rattle.turn_lock.specs.Rule.{counted_at};

    ghost then = { counted_at };
}

pub struct Enter;

impl<S: Logged> Play<Option<S>, View<S::Setup, S::Entry>> for Enter {
    ghost use Rattle.turn_lock.specs.Rule.{entered};

    ghost then = { entered S.setup S.stands };
}

/// A turn's call, or its reply.
pub trait Said<X> {
    ghost item: { Option X };
}

impl<X> Said<X> for Brand {
    ghost item = { None };
}

pub struct Leave<W, X> {
    of: PhantomData<(W, X)>,
}

impl<S: Logged, W: Said<S::Call>, X: Said<S::Reply>> Play<Option<S>, View<S::Setup, S::Entry>>
    for Leave<W, X> {
    ghost use Rattle.std.specs.Prelude.{Some, ◌≡◌};
    ghost use Rattle.turn_lock.specs.Rule.{left_by};

    ghost then = { left_by S.step
        (λ u past e. (c : S.Call) (r : S.Reply) → W.item ≡ Some c → X.item ≡ Some r
        → S.step u past c r e) };
}

pub struct Begin;

impl<S: Logged> Play<Option<S>, View<S::Setup, S::Entry>> for Begin {
    ghost use Rattle.turn_lock.specs.Rule.{begun};

    ghost then = { begun S.step };
}

pub struct Learn;

impl<S: Logged> Play<Option<S>, View<S::Setup, S::Entry>> for Learn {
    ghost use Rattle.turn_lock.specs.Rule.{learned};

    ghost then = { learned S.step };
}

/// How many shares are cut off.
pub trait Amount {
    ghost shares: { ℕ };
}

impl Amount for Brand {
    ghost shares = { 0 };
}

pub struct Cut<N> {
    of: PhantomData<N>,
}

impl<U, E, N: Amount> Split<View<U, E>> for Cut<N> {
    ghost use Rattle.turn_lock.specs.Rule.{kept_of, given_of};

    ghost left = { λ v. kept_of v N.shares };

    ghost right = { λ v. given_of v N.shares };
}

pub struct Both;

impl<U, E> Join<View<U, E>> for Both {
    ghost use Rattle.turn_lock.specs.Rule.{both_of, spent_view};

    ghost both = { both_of };

    ghost spent = { spent_view };
}
