//! The steps of the lock on its table.
//!
//! The three words are the next ticket, the ticket served, and the number of seats that sleep. The
//! slot has the state.
ghost use Rattle.std.specs.Prelude.{◌≡◌, ◌≢◌, ℕ, ◌+◌, ◌<◌, ◌≤◌, true, false, [], ◌∷◌, Some};
ghost use Rattle.std.specs.Prelude.{IfSome, IfOk, IfErr, length};
ghost use Rattle.std.specs.List.{All};
ghost use Rattle.std.specs.Vec.{vec_len, vec_capacity};
ghost use Rattle.turn_lock.specs.declared.rule.Stage.{Stage};
ghost use Rattle.turn_lock.specs.Counts.{times};
ghost use Rattle.turn_lock.specs.History.{IsPrefix};
ghost use Rattle.turn_lock.specs.Seats.{IsSoundView, known, TurnedAll};
ghost use Rattle.turn_lock.specs.Rule.{IsSeatOf, HasState, Enters, HasPlayed, TurnEnds};
ghost use Rattle.turn_lock.specs.Rule.{IsReady, IsSameView};
ghost use Rattle.turn_lock.specs.Rule.{kept_of, given_of, both_of, waiting_view};

use crate::lock::{Patience, Worn};
use crate::logged::Logged;
use crate::rule::{
    ALL_PARTS, Amount, Begin, Both, Count, Cut, Draw, Enter, InTurn, LAST_TICKET, Learn, Leave,
    Look, Said, View,
};
use atomic_table::Shared;
use std::hint::spin_loop;
use std::marker::Brand;
use std::snapshot::Snapshot;
use std::sync::Wait;
use std::thread;

/// The table as threads see it.
pub type Board<S> = Shared<
    Option<S>,
    View<<S as Logged>::Setup, <S as Logged>::Entry>,
    Snapshot<S>,
    InTurn<S>,
>;

/// A seat of the table.
pub type Place<S> = atomic_table::Seat<Option<S>, View<<S as Logged>::Setup, <S as Logged>::Entry>>;

const NEXT: usize = 0;

const SERVED: usize = 1;

const SLEEPERS: usize = 2;

/// Looks at the ticket word.
fn look_at_tickets<S: Logged>(board: &Board<S>, place: &mut Place<S>) -> u64
    requires table { IsSeatOf place.old.table_id board.now.table_id }
    requires idle { place.old.me.0.stage ≡ Stage.Idle }
    ensures same { (place.new.table_id ≡ place.old.table_id) × (place.new.id ≡ place.old.id) }
    ensures noted { place.new.me ≡ (record place.old.me.0 { tickets = result }, place.old.me.1) }
    ensures not_less { place.old.me.0.tickets ≤ result }
{
    board.load::<Look>(place, NEXT)
}

/// Draws the ticket `at`, if it is the next one, and so many more behind it.
fn draw_tickets<S: Logged>(board: &Board<S>, place: &mut Place<S>, at: u64, more: u64) -> bool
    requires table { IsSeatOf place.old.table_id board.now.table_id }
    requires idle { place.old.me.0.stage ≡ Stage.Idle }
    requires small { at + more < LAST_TICKET }
    ensures same { (place.new.table_id ≡ place.old.table_id) × (place.new.id ≡ place.old.id) }
    ensures drawn { result ≡ true
        → place.new.me ≡ (waiting_view place.old.me.0 at more, place.old.me.1) }
    ensures lost { result ≡ false
        → (n : ℕ) × (place.new.me ≡ (record place.old.me.0 { tickets = n }, place.old.me.1))
        × (place.old.me.0.tickets ≤ n) }
{
    board.compare_exchange::<Draw>(place, NEXT, at, at + 1 + more) == at
}

/// Draws a ticket that is served at once, and so many more behind it, or finds that too few are
/// left.
///
/// The ticket served is looked at before the next ticket. Then the two differ only where a turn is
/// under way, whose end changes the word on which this seat may sleep, and wakes.
pub fn next_tickets<S: Logged, R: Wait>(
    rt: &R,
    board: &Board<S>,
    place: &mut Place<S>,
    patience: &Patience,
    more: u64,
) -> Result<u64, Worn>
    requires table { IsSeatOf place.old.table_id board.now.table_id }
    requires idle { place.old.me.0.stage ≡ Stage.Idle }
    ensures same { (place.new.table_id ≡ place.old.table_id) × (place.new.id ≡ place.old.id) }
    ensures drawn { IfOk result (λ t. (place.old.me.0.tickets ≤ t) × (t + more < LAST_TICKET)) }
    ensures ok { IfOk result
        (λ t. place.new.me ≡ (waiting_view place.old.me.0 t more, place.old.me.1)) }
    ensures worn { IfErr result (λ w. (w.tickets ≤ LAST_TICKET)
        × (LAST_TICKET ≤ w.tickets + more) × (place.old.me.0.tickets ≤ w.tickets)) }
    ensures err { IfErr result
        (λ w. place.new.me ≡ (record place.old.me.0 { tickets = w.tickets }, place.old.me.1)) }
{
    let mut looks: u32 = 0;
    for _ in rt.forever() {
        let served = board.peek(SERVED);
        let at = look_at_tickets(board, place);
        if LAST_TICKET - at <= more {
            wake_next(board);
            return Err(Worn { tickets: at });
        }
        if served == at {
            if draw_tickets(board, place, at, more) {
                return Ok(at);
            }
        }
        looks = rest_a_while(rt, board, place, patience, served, looks);
    }
    unreachable!()
}

/// Looks at the word of the ticket served, which is the answer.
fn enter_at<S: Logged>(board: &Board<S>, place: &mut Place<S>, at: u64) -> u64
    requires table { IsSeatOf place.old.table_id board.now.table_id }
    requires waits { place.old.me.0.stage ≡ Stage.Waits at }
    ensures same { (place.new.table_id ≡ place.old.table_id) × (place.new.id ≡ place.old.id) }
    ensures out { result ≡ at → Enters S.setup S.stands place.old.me at place.new.me }
    ensures waits { result ≢ at → place.new.me ≡ place.old.me }
{
    board.load::<Enter>(place, SERVED)
}

/// Waits until the ticket is served, and takes the state out. It is served at once, since it was
/// drawn where it would be, or the seat itself served the ticket before it.
pub fn wait_turn<S: Logged, R: Wait>(rt: &R, board: &Board<S>, place: &mut Place<S>, at: u64)
    requires table { IsSeatOf place.old.table_id board.now.table_id }
    requires waits { place.old.me.0.stage ≡ Stage.Waits at }
    ensures same { (place.new.table_id ≡ place.old.table_id) × (place.new.id ≡ place.old.id) }
    ensures out { Enters S.setup S.stands place.old.me at place.new.me }
{
    for _ in rt.forever() {
        let served = enter_at(board, place, at);
        if served == at {
            return;
        }
        spin_loop();
    }
    unreachable!()
}

/// Adds to the number of sleepers.
fn count_in<S: Logged>(board: &Board<S>, place: &mut Place<S>)
    requires table { IsSeatOf place.old.table_id board.now.table_id }
    ensures same { (place.new.table_id ≡ place.old.table_id) × (place.new.id ≡ place.old.id)
        × (place.new.me ≡ place.old.me) }
{
    board.fetch_add::<Count>(place, SLEEPERS, 1);
}

/// Takes from the number of sleepers.
fn count_out<S: Logged>(board: &Board<S>, place: &mut Place<S>)
    requires table { IsSeatOf place.old.table_id board.now.table_id }
    ensures same { (place.new.table_id ≡ place.old.table_id) × (place.new.id ≡ place.old.id)
        × (place.new.me ≡ place.old.me) }
{
    board.fetch_sub::<Count>(place, SLEEPERS, 1);
}

/// Spins at first, then yields, and then sleeps until the word of the ticket served has changed.
/// The answer is how often the seat has then looked, which starts anew after a sleep.
fn rest_a_while<S: Logged, R: Wait>(
    rt: &R,
    board: &Board<S>,
    place: &mut Place<S>,
    patience: &Patience,
    served: u64,
    looks: u32,
) -> u32
    requires table { IsSeatOf place.old.table_id board.now.table_id }
    ensures same { (place.new.table_id ≡ place.old.table_id) × (place.new.id ≡ place.old.id)
        × (place.new.me ≡ place.old.me) }
{
    let spins = u32::from(patience.spins);
    if looks < spins {
        spin_loop();
        return looks + 1;
    }
    if looks < spins + u32::from(patience.yields) {
        thread::yield_now();
        return looks + 1;
    }
    // The end of a turn changes the word and then looks at the count, so one of the two sees the
    // other.
    count_in(board, place);
    if board.peek(SERVED) == served {
        board.park(rt, SERVED, (served % (1 << 32)) as u32);
    }
    count_out(board, place);
    0
}

/// Serves the next: the state goes back into the slot, and the turn's entry into the history.
pub fn serve_next<S: Logged, W: Said<S::Call>, X: Said<S::Reply>>(
    board: &Board<S>,
    place: &mut Place<S>,
    at: u64,
    reply: &S::Reply,
)
    requires table { IsSeatOf place.old.table_id board.now.table_id }
    requires out { place.old.me.0.stage ≡ Stage.Out at }
    requires small { at < LAST_TICKET }
    requires call { (c : S.Call) × (W.item ≡ Some c)
        × HasPlayed S.setup S.stands S.step c reply.now place.old.me }
    requires reply { X.item ≡ Some reply.now }
    ensures same { (place.new.table_id ≡ place.old.table_id) × (place.new.id ≡ place.old.id) }
    ensures turn { (c : S.Call) → W.item ≡ Some c
        → TurnEnds S.step (at + 1) c reply.now place.old.me place.new.me }
    ensures sound { IsSoundView S.step place.new.me.0 }
{
    board.store::<Leave<W, X>>(place, SERVED, at + 1);
}

/// Wakes one of those who sleep. All of them wait for the same, so any will do: whoever is woken
/// ends a turn or wakes the next.
pub fn wake_next<S: Logged>(board: &Board<S>)
    requires table { board.now.table_id.words ≡ 3 }
{
    if board.peek(SLEEPERS) != 0 {
        board.wake_one(SERVED);
    }
}

/// One turn on the state that is out with the seat.
pub fn take_turn<S: Logged, W: Said<S::Call>>(
    board: &Board<S>,
    place: &mut Place<S>,
    at: u64,
    call: S::Call,
) -> S::Reply
    requires table { IsSeatOf place.old.table_id board.now.table_id }
    requires out { place.old.me.0.stage ≡ Stage.Out at }
    requires small { at < LAST_TICKET }
    requires state { HasState S.setup S.stands place.old.me }
    requires fits { IfSome place.old.me.0.setup (λ u. S.fits u call) }
    requires call { W.item ≡ Some call }
    ensures same { (place.new.table_id ≡ place.old.table_id) × (place.new.id ≡ place.old.id) }
    ensures turn { TurnEnds S.step (at + 1) call result place.old.me place.new.me }
    ensures sound { IsSoundView S.step place.new.me.0 }
{
    match board.exchange(place, 0, None) {
        Some(mut state) => {
            let reply = state.turn(call);
            match board.exchange(place, 0, Some(state)) {
                None => {}
                Some(_) => unreachable!(),
            }
            serve_next::<S, W, Brand>(board, place, at, &reply);
            reply
        }
        None => unreachable!(),
    }
}

/// Cuts the seat's view in two.
pub fn cut<S: Logged, N: Amount>(board: &Board<S>, place: &mut Place<S>, parts: u64) -> Place<S>
    requires table { IsSeatOf place.old.table_id board.now.table_id }
    requires idle { place.old.me.0.stage ≡ Stage.Idle }
    requires amount { N.shares ≡ parts }
    requires parts { (1 ≤ parts) × (parts < place.old.me.0.shares) }
    ensures same { (place.new.table_id ≡ place.old.table_id) × (place.new.id ≡ place.old.id) }
    ensures table { result.table_id ≡ place.old.table_id }
    ensures old { place.new.me ≡ (kept_of place.old.me.0 parts, place.old.me.1) }
    ensures new { result.me ≡ (given_of place.old.me.0 parts, []) }
{
    board.split_seat::<Cut<N>>(place)
}

/// The first step of a seat that was split off, by which it finds its number.
pub fn find_number<S: Logged>(board: &Board<S>, place: &mut Place<S>)
    requires table { IsSeatOf place.old.table_id board.now.table_id }
    requires new { place.old.me.0.stage ≡ Stage.New }
    ensures same { (place.new.table_id ≡ place.old.table_id) × (place.new.id ≡ place.old.id) }
    ensures number { (n : ℕ) × (times n place.old.me.0.others ≡ 0)
        × (place.new.me ≡ (
          record place.old.me.0 { number = n; numbers = n ∷ []; stage = Stage.Idle },
          place.old.me.1,
        )) }
    ensures sound { IsSoundView S.step place.new.me.0 }
{
    board.load::<Begin>(place, NEXT);
}

/// Joins the other seat into this one.
pub fn merge<S: Logged>(board: &Board<S>, place: &mut Place<S>, other: Place<S>)
    requires table { IsSeatOf place.old.table_id board.now.table_id
        × IsSeatOf other.table_id board.now.table_id }
    requires idle { (place.old.me.0.stage ≡ Stage.Idle) × (other.me.0.stage ≡ Stage.Idle) }
    requires none_out { other.me.1 ≡ [] }
    ensures same { (place.new.table_id ≡ place.old.table_id) × (place.new.id ≡ place.old.id) }
    ensures both { place.new.me ≡ (both_of place.old.me.0 other.me.0, place.old.me.1) }
    ensures less { IsPrefix place.new.me.0.shorter place.new.me.0.seen }
    ensures fits { place.new.me.0.shares ≤ ALL_PARTS }
    ensures sound { IsSoundView S.step place.new.me.0 }
{
    board.join_seat::<Both>(place, other);
    board.load::<Learn>(place, NEXT);
}
