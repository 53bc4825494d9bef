//! What waits for a connection is taken and written to its link.
ghost use Rattle.std.specs.Prelude.{◌≡◌, true, IfErr, OnOk};
ghost use Rattle.std.specs.Io.KnownBytes.{Keeps};
ghost use Rattle.serial_model.specs.History.{is_admitted};
ghost use Rattle.turn_lock.specs.Own.{IsWithin, past_of};
ghost use Rattle.shared_book.specs.Turns.{Place};
ghost use Rattle.conn_worker.specs.Visits.{Begins, Delivers, DeliversPart, DeliveryCounts};

use super::report::{Ended, ended_by};
use edge_links::{Link, LinkFailed, write_all};
use resp_value::Octets;
use shared_book::{MOST, SharedBook, take};
use std::sync::Wait;
use turn_lock::{Seat, TurnLock};

/// Takes what waits for the connection, until nothing waits, and writes it to the link.
pub fn deliver<R: Wait, L: Link>(
    rt: &R,
    lock: &TurnLock<SharedBook>,
    seat: &mut Seat<SharedBook>,
    link: &mut L,
    id: u64,
) -> Result<(), Ended>
    requires lock { seat.old.lock ≡ lock.now }
    requires within { IsWithin seat.old }
    requires admitted { is_admitted (past_of seat.old) id ≡ true }
    ensures ok { OnOk result
        (Delivers id (L.contents link.old) (L.contents link.new) seat.old seat.new) }
    ensures err { IfErr result
        (λ e. DeliversPart e id (L.contents link.old) (L.contents link.new) seat.old seat.new) }
    ensures unread { Keeps (L.left link.old) (L.left link.new) }
    ensures counts { DeliveryCounts result (L.counts link.old) (L.counts link.new) }
{
    for _ in rt.forever() {
        match take(rt, lock, seat, id) {
            Ok(Some(bytes)) => {
                match write_all(link, bytes.as_slice()) {
                    Ok(()) => {}
                    Err(LinkFailed) => return Err(Ended::LinkFault),
                }
                // What is shorter than the most was all that waited.
                if (bytes.as_slice().len() as u64) < MOST {
                    return Ok(());
                }
            }
            Ok(None) => return Ok(()),
            Err(refusal) => return Err(ended_by(refusal)),
        }
    }
    unreachable!()
}

/// Writes the first bytes that waited for the connection to the link, and then what else waits.
pub fn deliver_from<R: Wait, L: Link>(
    rt: &R,
    lock: &TurnLock<SharedBook>,
    seat: &mut Seat<SharedBook>,
    link: &mut L,
    id: u64,
    front: Option<Octets>,
) -> Result<(), Ended>
    requires lock { seat.old.lock ≡ lock.now }
    requires within { IsWithin seat.old }
    requires admitted { is_admitted (past_of seat.old) id ≡ true }
    ensures ok { OnOk result ((before : Place) → Begins id front before seat.old
        → Delivers id (L.contents link.old) (L.contents link.new) before seat.new) }
    ensures err { IfErr result (λ e. (before : Place) → Begins id front before seat.old
        → DeliversPart e id (L.contents link.old) (L.contents link.new) before seat.new) }
    ensures unread { Keeps (L.left link.old) (L.left link.new) }
    ensures counts { DeliveryCounts result (L.counts link.old) (L.counts link.new) }
{
    let bytes = match front {
        None => return Ok(()),
        Some(bytes) => bytes,
    };
    match write_all(link, bytes.as_slice()) {
        Ok(()) => {}
        Err(LinkFailed) => return Err(Ended::LinkFault),
    }
    if (bytes.as_slice().len() as u64) < MOST {
        return Ok(());
    }
    deliver(rt, lock, seat, link, id)
}
