//! What is read of a connection's link, and the requests in it.
ghost use Rattle.std.specs.Prelude.{◌≡◌, ◌≤◌, ◌+◌, [], true, length, IfOk, IfErr, OnOk};
ghost use Rattle.std.specs.Io.KnownBytes.{Keeps};
ghost use Rattle.std.specs.List.{All};
ghost use Rattle.resp_stream.specs.Stream.{begun, fed};
ghost use Rattle.serial_model.specs.History.{is_admitted};
ghost use Rattle.turn_lock.specs.Own.{IsWithin, past_of};
ghost use Rattle.shared_book.specs.Batches.{IsRunAt, requests_in};
ghost use Rattle.conn_worker.specs.Quits.{ended_at, up_to_quit};
ghost use Rattle.conn_worker.specs.Visits.{DeliveryCounts, HearsAll, ReadsAll, fed_connection};
ghost use Rattle.conn_worker.specs.Visits.{standing};
ghost use Rattle.conn_worker.specs.Parts.{BreaksAt, InParts};

use super::deliver::{deliver, deliver_from};
use super::gate::Gate;
use super::quit::is_quit;
use super::report::{Ended, ended_by};
use edge_links::{Clock, Link};
use resp_stream::{RequestReader, StreamFault};
use resp_value::NoMemory;
use serial_model::BookCall;
use shared_book::{Batch, BatchEnd, SharedBook, run_all};
use std::alloc::Global;
use std::sync::Wait;
use turn_lock::{Seat, TurnLock};

/// Why nothing is read behind a request.
#[derive(Clone, Copy, Debug, Drop, PartialEq, Eq)]
pub enum Stop {
    /// The bytes behind it have this fault.
    Fault(StreamFault),
    /// It is a QUIT.
    Quit,
}

impl Stop {
    /// How the connection ends by it.
    pub fn ended(self) -> Ended
        ensures { result ≡ ended_at self }
    {
        match self {
            Stop::Fault(fault) => Ended::BadRequest(fault),
            Stop::Quit => Ended::Quit,
        }
    }
}

/// Requests that were read, as the calls that run them at this moment.
#[derive(Drop)]
pub struct ReadRequests {
    pub calls: Vec<BookCall>,
    pub now: u64,
    /// Why nothing is read behind them, if so.
    pub stop: Option<Stop>,
}

/// A connection that is served: what was read of its link, and how many of its requests ran.
#[derive(Drop)]
pub struct Connection {
    pub id: u64,
    pub requests: u64,
    reader: RequestReader,
}

impl Connection {
    /// A connection that nothing was read of yet.
    pub fn new(alloc: Global, id: u64) -> Connection
        ensures { result ≡ record { id = id; requests = 0; reader = begun } }
    {
        Connection {
            id,
            requests: 0,
            reader: RequestReader::new(alloc),
        }
    }

    /// Reads each request that is whole with this piece, up to a QUIT.
    pub fn hear<C: Clock, G: Gate>(
        &mut self,
        alloc: Global,
        clock: &C,
        gate: &G,
        piece: &[u8],
    ) -> Result<ReadRequests, NoMemory>
        ensures same { (self.new.id ≡ self.old.id) × (self.new.requests ≡ self.old.requests) }
        ensures ok { IfOk result (λ read. HearsAll (C.moment clock.now) read
            (fed_connection self.old piece.now) self.new) }
    {
        if self.reader.feed(piece).is_err() {
            return Err(NoMemory);
        }
        let now = clock.now_ms();
        let mut calls = Vec::new(alloc);
        match self.read_calls(gate, now, &mut calls) {
            Ok(stop) => Ok(ReadRequests { calls, now, stop }),
            Err(NoMemory) => Err(NoMemory),
        }
    }

    /// Runs these requests, and takes and writes what waits for the connection. Where some are held
    /// back, because of all that waits, they run behind that.
    pub fn run_parts<R: Wait, L: Link, G: Gate>(
        &mut self,
        rt: &R,
        alloc: Global,
        lock: &TurnLock<SharedBook>,
        seat: &mut Seat<SharedBook>,
        link: &mut L,
        gate: &G,
        calls: Vec<BookCall>,
        now: u64,
    ) -> Result<(), Ended>
        requires lock { seat.old.lock ≡ lock.now }
        requires within { IsWithin seat.old }
        requires admitted { is_admitted (past_of seat.old) self.old.id ≡ true }
        requires counted { self.old.requests ≤ length seat.old.seen }
        requires runs { All (IsRunAt self.old.id now) calls.items }
        requires quits { up_to_quit (requests_in calls.items) ≡ requests_in calls.items }
        ensures same { (self.new.id ≡ self.old.id) × (self.new.reader ≡ self.old.reader) }
        ensures ok { OnOk result (InParts now self.old.id (requests_in calls.items)
            (standing (L.left link.old) (L.contents link.old) (L.counts link.old) seat.old)
            (standing (L.left link.new) (L.contents link.new) (L.counts link.new) seat.new)) }
        ensures counted { OnOk result
            ((self.new.requests ≡ self.old.requests + length (requests_in calls.items))
            × (self.new.requests ≤ length seat.new.seen)) }
        ensures err { IfErr result (λ e. BreaksAt now e self.old.id (requests_in calls.items)
            self.old.requests self.new.requests
            (standing (L.left link.old) (L.contents link.old) (L.counts link.old) seat.old)
            (standing (L.left link.new) (L.contents link.new) (L.counts link.new) seat.new)) }
        ensures unread { Keeps (L.left link.old) (L.left link.new) }
        ensures counts { DeliveryCounts result (L.counts link.old) (L.counts link.new) }
    {
        let id = self.id;
        let mut calls = calls;
        for _ in rt.forever() {
            let Batch { requests, end } = run_all(
                rt,
                alloc,
                lock,
                seat,
                id,
                self.requests,
                now,
                calls,
            );
            self.requests = requests;
            match end {
                BatchEnd::Refused(refusal) => return Err(ended_by(refusal)),
                BatchEnd::Taken(front) => {
                    match deliver_from(rt, lock, seat, link, id, front) {
                        Ok(()) => {}
                        Err(ended) => return Err(ended),
                    }
                    gate.after(id, requests);
                    return Ok(());
                }
                BatchEnd::Held(held) => {
                    match deliver(rt, lock, seat, link, id) {
                        Ok(()) => {}
                        Err(ended) => return Err(ended),
                    }
                    gate.after(id, requests);
                    calls = held;
                }
            }
        }
        unreachable!()
    }

    // Reads each whole request that was fed, up to a QUIT, as the call that runs it.
    fn read_calls<G: Gate>(
        &mut self,
        gate: &G,
        now: u64,
        calls: &mut Vec<BookCall>,
    ) -> Result<Option<Stop>, NoMemory>
        requires { calls.old.items ≡ [] }
        ensures same { (self.new.id ≡ self.old.id) × (self.new.requests ≡ self.old.requests) }
        ensures runs { All (IsRunAt self.old.id now) calls.new.items }
        ensures ok { IfOk result (λ stop. ReadsAll stop self.old self.new calls.new.items) }
    {
        'requests: loop {
            match self.reader.next_request() {
                Ok(Some(words)) => {
                    gate.before(self.id, &words);
                    let id = self.id;
                    let is_last = is_quit(&words);
                    match calls.push(BookCall::Run { id, words, now }) {
                        Ok(()) => {}
                        Err(_) => return Err(NoMemory),
                    }
                    if is_last {
                        return Ok(Some(Stop::Quit));
                    }
                }
                Ok(None) => return Ok(None),
                Err(fault) => {
                    return match fault.place() {
                        Some(_) => Ok(Some(Stop::Fault(fault))),
                        None => Err(NoMemory),
                    };
                }
            }
        }
    }
}
