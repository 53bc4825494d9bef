//! Several turns, with tickets that were drawn at once.
ghost use Rattle.std.specs.Prelude.{◌≡◌, ℕ, ◌+◌, ◌<◌, ◌≤◌, true, [], ◌∷◌, Some};
ghost use Rattle.std.specs.Prelude.{IfSome};
ghost use Rattle.std.specs.List.{All};
ghost use Rattle.std.specs.Vec.{vec_len, vec_capacity};
ghost use Rattle.turn_lock.specs.declared.rule.Stage.{Stage};
ghost use Rattle.turn_lock.specs.Seats.{IsSoundView, known, StopsAt, TurnedAll};
ghost use Rattle.turn_lock.specs.Rule.{IsSeatOf, HasState, TurnEnds};
ghost use Rattle.turn_lock.specs.Rule.{IsReady, IsSameView};

use crate::logged::Refusing;
use crate::rule::{LAST_TICKET, Said};
use crate::steps::{Board, Place, serve_next, take_turn, wait_turn};
use std::marker::Brand;
use std::sync::Wait;

/// A turn that refuses its call. The state is as it was.
fn pass_turn<S: Refusing, W: Said<S::Call>>(
    board: &Board<S>,
    place: &mut Place<S>,
    at: u64,
    call: S::Call,
) -> S::Reply
    requires table { IsSeatOf place.old.table_id board.now.table_id }
    requires out { place.old.me.0.stage ≡ Stage.Out at }
    requires small { at < LAST_TICKET }
    requires state { HasState S.setup S.stands place.old.me }
    requires fits { IfSome place.old.me.0.setup (λ u. S.fits u call) }
    requires refusable { S.refusable call }
    requires one_was { (earlier : S.Reply) × (S.refuses earlier ≡ true) }
    requires call { W.item ≡ Some call }
    ensures same { (place.new.table_id ≡ place.old.table_id) × (place.new.id ≡ place.old.id) }
    ensures turn { TurnEnds S.step (at + 1) call result place.old.me place.new.me }
    ensures sound { IsSoundView S.step place.new.me.0 }
    ensures refused { S.refuses result ≡ true }
{
    match board.exchange(place, 0, None) {
        Some(state) => {
            let reply = state.refuse(call);
            match board.exchange(place, 0, Some(state)) {
                None => {}
                Some(_) => unreachable!(),
            }
            serve_next::<S, W, Brand>(board, place, at, &reply);
            reply
        }
        None => unreachable!(),
    }
}

/// One turn on the state that is out with the seat, which refuses its call if it is to.
fn take_or_pass<S: Refusing, W: Said<S::Call>>(
    board: &Board<S>,
    place: &mut Place<S>,
    at: u64,
    call: S::Call,
    is_over: bool,
) -> S::Reply
    requires table { IsSeatOf place.old.table_id board.now.table_id }
    requires out { place.old.me.0.stage ≡ Stage.Out at }
    requires small { at < LAST_TICKET }
    requires state { HasState S.setup S.stands place.old.me }
    requires fits { IfSome place.old.me.0.setup (λ u. S.fits u call) }
    requires refusable { S.refusable call }
    requires one_was { is_over ≡ true → (earlier : S.Reply) × (S.refuses earlier ≡ true) }
    requires call { W.item ≡ Some call }
    ensures same { (place.new.table_id ≡ place.old.table_id) × (place.new.id ≡ place.old.id) }
    ensures turn { TurnEnds S.step (at + 1) call result place.old.me place.new.me }
    ensures sound { IsSoundView S.step place.new.me.0 }
    ensures refused { is_over ≡ true → S.refuses result ≡ true }
{
    if is_over {
        return pass_turn::<S, W>(board, place, at, call);
    }
    take_turn::<S, W>(board, place, at, call)
}

/// One turn for each call, in their order, with the tickets that the seat has for them. Those
/// behind one that was refused are refused.
pub fn take_turns<S: Refusing, R: Wait>(
    rt: &R,
    board: &Board<S>,
    place: &mut Place<S>,
    first: u64,
    calls: Vec<S::Call>,
    replies: &mut Vec<S::Reply>,
)
    requires table { IsSeatOf place.old.table_id board.now.table_id }
    requires ready { IsReady place.old.me.0 first (vec_len calls) }
    requires small { first + vec_len calls ≤ LAST_TICKET }
    requires none_out { place.old.me.1 ≡ [] }
    requires sound { IsSoundView S.step place.old.me.0 }
    requires fits { IfSome place.old.me.0.setup (λ u. All (S.fits u) calls.items) }
    requires refusable { All S.refusable calls.items }
    requires room { (replies.old.items ≡ []) × (vec_len calls ≤ vec_capacity replies.old) }
    ensures same { (place.new.table_id ≡ place.old.table_id) × (place.new.id ≡ place.old.id) }
    ensures kept { IsSameView place.old.me.0 place.new.me.0 }
    ensures turns { TurnedAll S.step calls.items replies.new.items
        (known place.old.table_id place.old.me.0) (known place.new.table_id place.new.me.0) }
    ensures stops { StopsAt S.refuses replies.new.items }
    ensures idle { (place.new.me.0.stage ≡ Stage.Idle) × (place.new.me.1 ≡ []) }
    ensures sound { IsSoundView S.step place.new.me.0 }
{
    let mut at = first;
    let mut is_over = false;
    let mut rest = calls.into_iter();
    'turns: while let Some(call) = rest.next() {
        wait_turn(rt, board, place, at);
        let reply = take_or_pass::<S, Brand>(board, place, at, call, is_over);
        is_over = S::is_refusal(&reply);
        replies.push_reserved(reply);
        at += 1;
    }
}
