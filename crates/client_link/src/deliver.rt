//! What is queued for one of a client's links is taken out and written.
ghost use Rattle.std.specs.Prelude.{◌≡◌, IfErr, OnOk};
ghost use Rattle.std.specs.Io.KnownBytes.{Keeps};
ghost use Rattle.turn_lock.specs.Own.{IsWithin};
ghost use Rattle.shared_client.specs.Turns.{IsLinked};
ghost use Rattle.client_link.specs.Pumps.{Delivers, DeliversPart, DeliveryCounts};

use super::pump_end::{PumpEnd, end_by};
use edge_links::{Link, LinkFailed, write_all};
use shared_cache::Wire;
use shared_client::{SharedClient, take_out};
use std::sync::Wait;
use turn_lock::{Seat, TurnLock};

/// Takes out what is queued, until nothing is, and writes it to the link.
pub fn deliver<R: Wait, L: Link>(
    rt: &R,
    lock: &TurnLock<SharedClient>,
    seat: &mut Seat<SharedClient>,
    wire: Wire,
    link: &mut L,
) -> Result<(), PumpEnd>
    requires lock { seat.old.lock ≡ lock.now }
    requires within { IsWithin seat.old }
    requires link { IsLinked wire seat.old }
    ensures ok { OnOk result
        (Delivers wire (L.contents link.old) (L.contents link.new) seat.old seat.new) }
    ensures err { IfErr result
        (λ e. DeliversPart wire e (L.contents link.old) (L.contents link.new) seat.old seat.new) }
    ensures unread { Keeps (L.left link.old) (L.left link.new) }
    ensures counts { DeliveryCounts result (L.counts link.old) (L.counts link.new) }
{
    for _ in rt.forever() {
        match take_out(rt, lock, seat, wire) {
            Ok(Some(bytes)) => match write_all(link, bytes.as_slice()) {
                Ok(()) => {}
                Err(LinkFailed) => return Err(PumpEnd::LinkFault),
            },
            Ok(None) => return Ok(()),
            Err(refusal) => return Err(end_by(refusal)),
        }
    }
    unreachable!()
}
