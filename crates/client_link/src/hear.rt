//! What is read of one of a client's links, and the values in it.
ghost use Rattle.std.specs.Prelude.{◌≡◌, ◌<◌, length, IfErr, OnOk};
ghost use Rattle.std.specs.Io.KnownBytes.{Keeps};
ghost use Rattle.resp_stream.specs.Stream.{fed};
ghost use Rattle.turn_lock.specs.Own.{IsWithin};
ghost use Rattle.shared_client.specs.Turns.{IsLinked};
ghost use Rattle.client_link.specs.Pumps.{GetsAll, GetsPart, Hears, HearsPart, RoundCounts};

use super::pump_end::{PumpEnd, end_by};
use super::waiters::Waiters;
use edge_links::{Link, LinkRead};
use resp_stream::ValueReader;
use shared_cache::Wire;
use shared_client::{SharedClient, got};
use std::sync::Wait;
use turn_lock::{Seat, TurnLock};

// Plays each whole value that was read.
fn get_all<R: Wait>(
    rt: &R,
    lock: &TurnLock<SharedClient>,
    seat: &mut Seat<SharedClient>,
    wire: Wire,
    reader: &mut ValueReader,
) -> Result<(), PumpEnd>
    requires lock { seat.old.lock ≡ lock.now }
    requires within { IsWithin seat.old }
    requires link { IsLinked wire seat.old }
    ensures ok { OnOk result (GetsAll wire reader.old reader.new seat.old seat.new) }
    ensures err { IfErr result (λ e. GetsPart wire e reader.old seat.old seat.new) }
{
    'values: loop {
        match reader.next_value() {
            Ok(Some(value)) => match got(rt, lock, seat, wire, value) {
                Ok(()) => {}
                Err(refusal) => return Err(end_by(refusal)),
            },
            Ok(None) => return Ok(()),
            Err(fault) => {
                return match fault.place() {
                    Some(_) => Err(PumpEnd::BadStream(fault)),
                    None => Err(PumpEnd::NoMemory),
                };
            }
        }
    }
}

// Plays each value that is whole with this piece, and wakes those who wait for it.
fn hear_piece<R: Wait>(
    rt: &R,
    lock: &TurnLock<SharedClient>,
    seat: &mut Seat<SharedClient>,
    waiters: &Waiters,
    wire: Wire,
    reader: &mut ValueReader,
    piece: &[u8],
) -> Result<(), PumpEnd>
    requires lock { seat.old.lock ≡ lock.now }
    requires within { IsWithin seat.old }
    requires link { IsLinked wire seat.old }
    ensures ok { OnOk result
        (GetsAll wire (fed reader.old piece.now) reader.new seat.old seat.new) }
    ensures err { IfErr result
        (λ e. GetsPart wire e (fed reader.old piece.now) seat.old seat.new) }
{
    if reader.feed(piece).is_err() {
        return Err(PumpEnd::NoMemory);
    }
    let got = get_all(rt, lock, seat, wire, reader);
    waiters.heard(wire);
    got
}

/// Reads the link once, plays the values that are whole by then, and wakes those who wait for them
/// where a piece came.
pub fn hear<R: Wait, L: Link>(
    rt: &R,
    lock: &TurnLock<SharedClient>,
    seat: &mut Seat<SharedClient>,
    waiters: &Waiters,
    wire: Wire,
    link: &mut L,
    reader: &mut ValueReader,
    buffer: &mut [u8],
) -> Result<(), PumpEnd>
    requires lock { seat.old.lock ≡ lock.now }
    requires within { IsWithin seat.old }
    requires link { IsLinked wire seat.old }
    requires buffer { 0 < length buffer.old }
    ensures buffer { length buffer.new ≡ length buffer.old }
    ensures ok { OnOk result
        (Hears wire reader.old reader.new (L.left link.old) (L.left link.new) seat.old seat.new) }
    ensures err { IfErr result
        (λ e. HearsPart wire e reader.old (L.left link.old) (L.left link.new) seat.old seat.new) }
    ensures written { Keeps (L.contents link.old) (L.contents link.new) }
    ensures counts { RoundCounts result (L.counts link.old) (L.counts link.new) }
{
    match link.read(buffer) {
        LinkRead::Bytes(n) => match hear_piece(
            rt,
            lock,
            seat,
            waiters,
            wire,
            reader,
            &buffer[..n],
        ) {
            Ok(()) => Ok(()),
            Err(ended) => Err(ended),
        },
        LinkRead::Idle => Ok(()),
        LinkRead::End => Err(PumpEnd::PeerEnd),
        LinkRead::Failed => Err(PumpEnd::LinkFault),
    }
}
