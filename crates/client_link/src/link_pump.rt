//! One of a client's links: what is queued goes out, and what comes in is played.
ghost use Rattle.std.specs.Prelude.{◌≡◌};
ghost use Rattle.resp_stream.specs.Stream.{begun};
ghost use Rattle.turn_lock.specs.Own.{IsWithin};
ghost use Rattle.shared_client.specs.Turns.{IsLinked};
ghost use Rattle.client_link.specs.Pumps.{EndCounts, Runs, Pumps, Closes};

use super::deliver::deliver;
use super::hear::hear;
use super::pump_end::PumpEnd;
use super::waiters::Waiters;
use edge_links::Link;
use resp_stream::ValueReader;
use shared_cache::Wire;
use shared_client::{SharedClient, end};
use std::alloc::Global;
use std::sync::Wait;
use turn_lock::{Seat, TurnLock};

/// How many bytes are asked of a link at once.
const PIECE: usize = 16_384;

// Writes and reads the link in turn, until nothing more is to be read.
fn run<R: Wait, L: Link>(
    rt: &R,
    lock: &TurnLock<SharedClient>,
    seat: &mut Seat<SharedClient>,
    waiters: &Waiters,
    wire: Wire,
    link: &mut L,
    reader: &mut ValueReader,
) -> PumpEnd
    requires lock { seat.old.lock ≡ lock.now }
    requires within { IsWithin seat.old }
    requires link { IsLinked wire seat.old }
    requires new { reader.old ≡ begun }
    ensures runs { Runs wire result (L.left link.old) (L.left link.new) (L.contents link.old)
        (L.contents link.new) seat.old seat.new }
    ensures counts { EndCounts result (L.counts link.old) (L.counts link.new) }
{
    let mut buffer = [0u8; PIECE];
    for _ in rt.forever() {
        match deliver(rt, lock, seat, wire, link) {
            Ok(()) => {}
            Err(ended) => return ended,
        }
        match hear(rt, lock, seat, waiters, wire, link, reader, &mut buffer) {
            Ok(()) => {}
            Err(ended) => return ended,
        }
    }
    unreachable!()
}

// The client learns that its link has ended, where it does not know it.
#[tactic(auto, using(crate::proofs::Pumping::closing))]
fn close<R: Wait>(
    rt: &R,
    lock: &TurnLock<SharedClient>,
    seat: &mut Seat<SharedClient>,
    wire: Wire,
    ended: PumpEnd,
) -> PumpEnd
    requires lock { seat.old.lock ≡ lock.now }
    requires within { IsWithin seat.old }
    requires link { IsLinked wire seat.old }
    ensures { Closes wire ended result seat.old seat.new }
{
    if ended.is_known() {
        return ended;
    }
    match end(rt, lock, seat, wire) {
        Ok(()) => ended,
        Err(_) => PumpEnd::Worn,
    }
}

/// Writes to a link of the client what is queued for it, plays each whole value that is read of it,
/// in order, and ends that link in the client's log, once nothing more is to be read. What is
/// queued is written before each read.
pub fn pump<R: Wait, L: Link>(
    rt: &R,
    alloc: Global,
    lock: &TurnLock<SharedClient>,
    seat: &mut Seat<SharedClient>,
    waiters: &Waiters,
    wire: Wire,
    link: &mut L,
) -> PumpEnd
    requires lock { seat.old.lock ≡ lock.now }
    requires within { IsWithin seat.old }
    requires link { IsLinked wire seat.old }
    ensures pumps { Pumps wire result (L.left link.old) (L.left link.new) (L.contents link.old)
        (L.contents link.new) seat.old seat.new }
    ensures counts { EndCounts result (L.counts link.old) (L.counts link.new) }
{
    let mut reader = ValueReader::new(alloc);
    let ended = run(rt, lock, seat, waiters, wire, link, &mut reader);
    let ended = close(rt, lock, seat, wire, ended);
    waiters.heard(wire);
    ended
}
