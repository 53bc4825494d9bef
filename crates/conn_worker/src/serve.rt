//! One connection, from its admission to its end.
ghost use Rattle.std.specs.Prelude.{◌≡◌, ◌≤◌, ◌<◌, true, length, None, IfErr, IfOk, OnOk};
ghost use Rattle.std.specs.Io.KnownBytes.{Keeps};
ghost use Rattle.resp_stream.specs.Stream.{begun};
ghost use Rattle.serial_model.specs.History.{is_admitted};
ghost use Rattle.turn_lock.specs.Own.{IsWithin, past_of};
ghost use Rattle.conn_worker.specs.Visits.{EndCounts, Hears, HearsPart, HearingCounts, Leaves};
ghost use Rattle.conn_worker.specs.Visits.{MayClose, Visits, Works, read_in, standing};
ghost use Rattle.conn_worker.specs.Rounds.{InRounds, Serves, most_read};
ghost use Rattle.conn_worker.specs.Serving.{GoesOff, GoesOn, IsServed};
ghost use Rattle.conn_worker.specs.Complete.{EndShows};

use super::connection::{Connection, ReadRequests};
use super::deliver::deliver;
use super::gate::Gate;
use super::report::{Ended, Report, ended_by};
use edge_links::{Clock, Link, LinkRead};
use resp_value::NoMemory;
use shared_book::{Refusal, SharedBook, admit, close, tick};
use std::alloc::Global;
use std::sync::Wait;
use turn_lock::{Seat, TurnLock};

/// How many bytes are asked of a link at once.
pub const PIECE: usize = 16_384;

/// What a read of a link brought.
#[derive(Drop)]
pub(crate) enum Heard {
    /// Nothing. The keys that were due left.
    Idle,
    /// Nothing. The keys that were due stayed, since memory ran out.
    Left(Refusal),
    /// A piece, and the requests that are whole with it.
    Piece(ReadRequests),
}

impl Heard {
    fn read(self) -> Option<ReadRequests>
        ensures { result ≡ read_in self }
    {
        match self {
            Heard::Idle => None,
            Heard::Left(_) => None,
            Heard::Piece(read) => Some(read),
        }
    }
}

// Reads the link once, and the requests that are whole by then. Where nothing came, the keys that
// are due leave.
fn hear_once<R: Wait, L: Link, C: Clock, G: Gate>(
    rt: &R,
    alloc: Global,
    lock: &TurnLock<SharedBook>,
    seat: &mut Seat<SharedBook>,
    link: &mut L,
    clock: &C,
    gate: &G,
    connection: &mut Connection,
    buffer: &mut [u8],
) -> Result<Heard, Ended>
    requires lock { seat.old.lock ≡ lock.now }
    requires within { IsWithin seat.old }
    requires buffer { 0 < length buffer.old }
    ensures buffer { length buffer.new ≡ length buffer.old }
    ensures same { connection.new.id ≡ connection.old.id }
    ensures ok { IfOk result (λ heard. Hears (C.moment clock.now) (length buffer.old) heard
        connection.old connection.new
        (standing (L.left link.old) (L.contents link.old) (L.counts link.old) seat.old)
        (standing (L.left link.new) (L.contents link.new) (L.counts link.new) seat.new)) }
    ensures err { IfErr result (λ e. HearsPart (C.moment clock.now) (length buffer.old) e
        connection.old connection.new
        (standing (L.left link.old) (L.contents link.old) (L.counts link.old) seat.old)
        (standing (L.left link.new) (L.contents link.new) (L.counts link.new) seat.new)) }
    ensures written { Keeps (L.contents link.old) (L.contents link.new) }
    ensures counts { HearingCounts result (L.counts link.old) (L.counts link.new) }
{
    match link.read(buffer) {
        LinkRead::Bytes(n) => match connection.hear(alloc, clock, gate, &buffer[..n]) {
            Ok(read) => Ok(Heard::Piece(read)),
            Err(NoMemory) => Err(Ended::NoMemory),
        },
        LinkRead::Idle => match tick(rt, lock, seat, clock.now_ms()) {
            Ok(()) => Ok(Heard::Idle),
            Err(Refusal::NoMemory) => Ok(Heard::Left(Refusal::NoMemory)),
            Err(Refusal::Worn) => Err(Ended::Worn),
            Err(Refusal::Stopped) => Err(Ended::Stopped),
            Err(Refusal::Dropped) => unreachable!(),
        },
        LinkRead::End => Err(Ended::PeerEnd),
        LinkRead::Failed => Err(Ended::LinkFault),
    }
}

/// One round: the link is read once, the requests run that are whole by then, and all that waits
/// for the connection is taken and written.
pub(crate) fn go_round<R: Wait, L: Link, C: Clock, G: Gate>(
    rt: &R,
    alloc: Global,
    lock: &TurnLock<SharedBook>,
    seat: &mut Seat<SharedBook>,
    link: &mut L,
    clock: &C,
    gate: &G,
    connection: &mut Connection,
    buffer: &mut [u8],
) -> Result<(), Ended>
    requires lock { seat.old.lock ≡ lock.now }
    requires buffer { length buffer.old ≡ most_read }
    requires served { IsServed (C.moment clock.now) connection.old
        (standing (L.left link.old) (L.contents link.old) (L.counts link.old) seat.old) }
    ensures buffer { length buffer.new ≡ length buffer.old }
    ensures same { connection.new.id ≡ connection.old.id }
    ensures ok { OnOk result (GoesOn (C.moment clock.now) connection.old connection.new
        (standing (L.left link.old) (L.contents link.old) (L.counts link.old) seat.old)
        (standing (L.left link.new) (L.contents link.new) (L.counts link.new) seat.new)) }
    ensures err { IfErr result (λ e. GoesOff (C.moment clock.now) e connection.old connection.new
        (standing (L.left link.old) (L.contents link.old) (L.counts link.old) seat.old)
        (standing (L.left link.new) (L.contents link.new) (L.counts link.new) seat.new)) }
{
    let heard = match hear_once(rt, alloc, lock, seat, link, clock, gate, connection, buffer) {
        Ok(heard) => heard,
        Err(ended) => return Err(ended),
    };
    match heard.read() {
        None => {
            match deliver(rt, lock, seat, link, connection.id) {
                Ok(()) => {}
                Err(ended) => return Err(ended),
            }
            gate.after(connection.id, connection.requests);
            Ok(())
        }
        Some(ReadRequests { calls, now, stop }) => {
            match connection.run_parts(rt, alloc, lock, seat, link, gate, calls, now) {
                Ok(()) => {}
                Err(ended) => return Err(ended),
            }
            match stop {
                None => Ok(()),
                Some(stop) => Err(stop.ended()),
            }
        }
    }
}

// Serves a connection that was admitted, until it ends.
fn serve_admitted<R: Wait, L: Link, C: Clock, G: Gate>(
    rt: &R,
    alloc: Global,
    lock: &TurnLock<SharedBook>,
    seat: &mut Seat<SharedBook>,
    link: &mut L,
    clock: &C,
    gate: &G,
    connection: &mut Connection,
) -> Ended
    requires lock { seat.old.lock ≡ lock.now }
    requires within { IsWithin seat.old }
    requires admitted { is_admitted (past_of seat.old) connection.old.id ≡ true }
    requires new { connection.old ≡ record {
      id = connection.old.id;
      requests = 0;
      reader =
          begun;
    } }
    ensures works { Works (C.moment clock.now) result connection.old.id connection.new.requests
        (L.left link.old) (L.left link.new) (L.contents link.old) (L.contents link.new)
        seat.old seat.new }
    ensures counts { EndCounts result (L.counts link.old) (L.counts link.new) }
    ensures rounds { Serves (C.moment clock.now) result connection.old.id
        (standing (L.left link.old) (L.contents link.old) (L.counts link.old) seat.old)
        (standing (L.left link.new) (L.contents link.new) (L.counts link.new) seat.new) }
{
    let mut buffer = [0u8; PIECE];
    for _ in rt.forever() {
        match go_round(
            rt,
            alloc,
            lock,
            seat,
            link,
            clock,
            gate,
            connection,
            &mut buffer,
        ) {
            Ok(()) => {}
            Err(ended) => return ended,
        }
    }
    unreachable!()
}

// Closes the connection, where it may be closed still.
fn may_close<R: Wait>(rt: &R, lock: &TurnLock<SharedBook>, seat: &mut Seat<SharedBook>, id: u64)
    requires lock { seat.old.lock ≡ lock.now }
    requires within { IsWithin seat.old }
    requires admitted { is_admitted (past_of seat.old) id ≡ true }
    ensures { MayClose id seat.old seat.new }
{
    match close(rt, lock, seat, id) {
        Ok(()) => {}
        Err(_) => {}
    }
}

/// Closes a connection whose service ended so, and tells how it ended: one that quit may be found
/// closed by another.
pub(crate) fn leave<R: Wait>(
    rt: &R,
    lock: &TurnLock<SharedBook>,
    seat: &mut Seat<SharedBook>,
    id: u64,
    ended: Ended,
) -> Ended
    requires lock { seat.old.lock ≡ lock.now }
    requires within { IsWithin seat.old }
    requires admitted { is_admitted (past_of seat.old) id ≡ true }
    ensures { Leaves ended result id seat.old seat.new }
{
    match ended {
        Ended::Dropped => {}
        Ended::Quit => match close(rt, lock, seat, id) {
            Ok(()) => {}
            Err(refusal) => return ended_by(refusal),
        },
        _ => may_close(rt, lock, seat, id),
    }
    ended
}

/// Admits a connection, serves it over its link until it ends, and closes it. Each whole request
/// that is read is one Run, and none behind a QUIT is; what waits for the connection is written
/// before the next read, and before the next request where `MOST` bytes of it wait. A read that
/// brings nothing is one Tick, where a key is due; behind a SHUTDOWN that is refused, and the
/// service ends.
pub fn serve_link<R: Wait, L: Link, C: Clock, G: Gate>(
    rt: &R,
    alloc: Global,
    lock: &TurnLock<SharedBook>,
    seat: &mut Seat<SharedBook>,
    link: &mut L,
    clock: &C,
    gate: &G,
) -> Report
    requires lock { seat.old.lock ≡ lock.now }
    requires within { IsWithin seat.old }
    ensures visit { Visits (C.moment clock.now) result (L.left link.old) (L.left link.new)
        (L.contents link.old) (L.contents link.new) seat.old seat.new }
    ensures counts { EndCounts result.ended (L.counts link.old) (L.counts link.new) }
    ensures rounds { InRounds (C.moment clock.now) result
        (standing (L.left link.old) (L.contents link.old) (L.counts link.old) seat.old)
        (standing (L.left link.new) (L.contents link.new) (L.counts link.new) seat.new) }
    ensures complete { EndShows result.ended result (L.left link.old) (L.left link.new)
        (L.counts link.old) (L.counts link.new) seat.new }
{
    let id = match admit(rt, lock, seat) {
        Ok(id) => id,
        Err(refusal) => {
            let ended = ended_by(refusal);
            gate.ended(0, ended);
            return Report {
                id: 0,
                requests: 0,
                ended,
            };
        }
    };
    let mut connection = Connection::new(alloc, id);
    let cause = serve_admitted(rt, alloc, lock, seat, link, clock, gate, &mut connection);
    let ended = leave(rt, lock, seat, id, cause);
    gate.ended(id, ended);
    Report {
        id,
        requests: connection.requests,
        ended,
    }
}
