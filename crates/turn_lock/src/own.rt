//! The turns that one seat of a turn lock takes: its own entries, each with the entries before it.

ghost use Rattle.std.specs.Prelude.{◌≡◌, ◌≤◌, [], IfOk, IfSome, OnErr};
ghost use Rattle.turn_lock.specs.declared.rule.TheConstants.{LAST_TICKET};
ghost use Rattle.turn_lock.specs.Own.{IsWithin, Grows};
ghost use Rattle.turn_lock.specs.Turns.{Plays};

use super::lock::{Seat, TurnLock, Worn};
use super::logged::Logged;
use std::sync::Wait;

/// A turn, and what it adds to the seat's own entries.
pub fn play<S: Logged, R: Wait>(
    rt: &R,
    lock: &TurnLock<S>,
    seat: &mut Seat<S>,
    call: S::Call,
) -> Result<S::Reply, Worn>
    requires lock { seat.old.lock ≡ lock.now }
    requires within { IsWithin seat.old }
    requires call { IfSome seat.old.setup (λ u. S.fits u call) }
    ensures ok { IfOk result (λ reply. Plays S.step call reply seat.old seat.new) }
    ensures err { OnErr result (Grows seat.old seat.new [] × (LAST_TICKET ≤ seat.new.tickets)) }
{
    match lock.play(rt, seat, call) {
        Ok(reply) => Ok(reply),
        Err(worn) => Err(worn),
    }
}
