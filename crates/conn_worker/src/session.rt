//! A connection that is served round by round, among others of the same thread.
ghost use Rattle.std.specs.Prelude.{◌≡◌, length, is_some, true, None, IfOk, IfErr};
ghost use Rattle.turn_lock.specs.Own.{IsWithin};
ghost use Rattle.shared_book.specs.Turns.{Admits};
ghost use Rattle.conn_worker.specs.Visits.{EndCounts, NotServed, Visits, standing};
ghost use Rattle.conn_worker.specs.Rounds.{InRounds, most_read};
ghost use Rattle.conn_worker.specs.Complete.{EndShows};
ghost use Rattle.conn_worker.specs.Sessions.{HasRound, IsOfSeat, IsSameService};

use super::connection::Connection;
use super::gate::Gate;
use super::report::{Ended, Report, ended_by};
use super::serve::{go_round, leave};
use edge_links::{Clock, Link};
use past_entries::Past;
use shared_book::{SharedBook, admit};
use socket_links::{Lookout, Sign, Watched};
use std::alloc::Global;
use std::marker::Model;
use std::sync::Wait;
use turn_lock::{Seat, TurnLock};

/// A connection that was admitted, with a link and a seat of its own. Whoever has it says when its
/// next round is. Contracts see how its service began, how far it is, and why it ended, if it did.
#[derive(Drop)]
pub struct Session<'a, C: Clock, K: Link> {
    clock: &'a C,
    link: K,
    seat: Seat<SharedBook>,
    connection: Connection,
    ended: Option<Ended>,
    // How it began, in no memory.
    link_then: Past<K>,
    seat_then: Past<Seat<SharedBook>>,
    entered: Past<Seat<SharedBook>>,
}

/// A connection that was not admitted. Its link was let go.
#[derive(Drop)]
pub struct Unadmitted {
    pub seat: Seat<SharedBook>,
    pub report: Report,
}

/// A connection that is served no longer.
#[derive(Drop)]
pub struct Finished<K> {
    pub link: K,
    pub seat: Seat<SharedBook>,
    pub report: Report,
}

impl<'a, C: Clock, K: Link> Model for Session<'a, C, K> {
    ghost use Rattle.std.specs.Prelude.{◌<◌, length};
    ghost use Rattle.conn_worker.specs.Visits.{standing};
    ghost use Rattle.conn_worker.specs.Sessions.{IsInService, Service, newest};

    ghost Value = { Service };

    ghost view = { λ s. record {
      id = s.connection.id;
      requests = s.connection.requests;
      ended = s.ended;
      clock = C.moment s.clock.now;
      entered = newest s.seat s.entered;
      start = let link = newest s.link s.link_then in
          standing (K.left link) (K.contents link) (K.counts link) (newest s.seat s.seat_then);
      now = standing (K.left s.link) (K.contents s.link) (K.counts s.link) s.seat;
    } };

    ghost invariant = { λ s. let link = newest s.link s.link_then in
        (0 < length s.link_then) × (0 < length s.seat_then) × (0 < length s.entered)
        × IsInService s.ended (C.moment s.clock.now) s.connection (newest s.seat s.entered)
        (standing (K.left link) (K.contents link) (K.counts link) (newest s.seat s.seat_then))
        (standing (K.left s.link) (K.contents s.link) (K.counts s.link) s.seat) };
}

impl<'a, C: Clock, K: Link + Drop> Session<'a, C, K> {
    /// Admits a connection over this link, by a seat that has no turns yet and is its own from then
    /// on.
    pub fn begin<R: Wait, G: Gate>(
        rt: &R,
        alloc: Global,
        lock: &TurnLock<SharedBook>,
        mut seat: Seat<SharedBook>,
        link: K,
        clock: &'a C,
        gate: &G,
    ) -> Result<Session<'a, C, K>, Unadmitted>
        requires lock { seat.lock ≡ lock.now }
        requires within { IsWithin seat }
        ensures new { IfOk result (λ s. (s.ended ≡ None) × (s.requests ≡ 0)
            × (s.clock ≡ C.moment clock.now) × (s.entered ≡ seat)
            × (s.start ≡ standing (K.left link) (K.contents link) (K.counts link) s.start.place)
            × (s.now ≡ s.start)) }
        ensures admits { IfOk result (λ s. Admits s.id seat s.start.place) }
        ensures seat { IfOk result (λ s. IsOfSeat seat s.now.place) }
        ensures err { IfErr result (λ u. NotServed u.report (K.left link) (K.left link)
            (K.contents link) (K.contents link) seat u.seat) }
    {
        let mut entered = Past::new();
        entered.record(&seat);
        let id = match admit(rt, lock, &mut seat) {
            Ok(id) => id,
            Err(refusal) => {
                let ended = ended_by(refusal);
                gate.ended(0, ended);
                let report = Report {
                    id: 0,
                    requests: 0,
                    ended,
                };
                return Err(Unadmitted { seat, report });
            }
        };
        let mut link_then = Past::new();
        link_then.record(&link);
        let mut seat_then = Past::new();
        seat_then.record(&seat);
        Ok(Session {
            clock,
            link,
            seat,
            connection: Connection::new(alloc, id),
            ended: None,
            link_then,
            seat_then,
            entered,
        })
    }

    /// The number of the connection.
    pub fn id(&self) -> u64
        ensures { result ≡ self.now.id }
    {
        self.connection.id
    }

    /// Whether its service has ended.
    pub fn is_over(&self) -> bool
        ensures { result ≡ is_some self.now.ended }
    {
        self.ended.is_some()
    }

    /// One round: its link is read once, the requests run that are whole by then, and all that
    /// waits for it is taken and written.
    pub fn go_round<R: Wait, G: Gate>(
        &mut self,
        rt: &R,
        alloc: Global,
        lock: &TurnLock<SharedBook>,
        gate: &G,
        buffer: &mut [u8],
    )
        requires lock { self.old.now.place.lock ≡ lock.now }
        requires on { self.old.ended ≡ None }
        requires buffer { length buffer.old ≡ most_read }
        ensures buffer { length buffer.new ≡ length buffer.old }
        ensures same { IsSameService self.old self.new }
        ensures seat { IsOfSeat self.old.now.place self.new.now.place }
        ensures round { HasRound self.old self.new }
    {
        let clock = self.clock;
        match go_round(
            rt,
            alloc,
            lock,
            &mut self.seat,
            &mut self.link,
            clock,
            gate,
            &mut self.connection,
            buffer,
        ) {
            Ok(()) => {}
            Err(cause) => self.ended = Some(cause),
        }
    }

    /// Closes the connection whose service has ended.
    pub fn finish<R: Wait, G: Gate>(
        self,
        rt: &R,
        lock: &TurnLock<SharedBook>,
        gate: &G,
    ) -> Finished<K>
        requires lock { self.now.place.lock ≡ lock.now }
        requires over { is_some self.ended ≡ true }
        ensures visit { Visits self.entry.clock result.report
            self.entry.start.left (K.left result.link)
            self.entry.start.contents (K.contents result.link) self.entry.entered result.seat }
        ensures counts { EndCounts result.report.ended self.entry.start.counts
            (K.counts result.link) }
        ensures rounds { InRounds self.entry.clock result.report
            (record self.entry.start { place = self.entry.entered })
            (standing (K.left result.link) (K.contents result.link) (K.counts result.link)
            result.seat) }
        ensures complete { EndShows result.report.ended result.report self.entry.start.left
            (K.left result.link) self.entry.start.counts (K.counts result.link) result.seat }
    {
        let Session {
            link,
            mut seat,
            connection,
            ended,
            ..
        } = self;
        let Some(cause) = ended else { unreachable!() };
        let id = connection.id;
        let ended = leave(rt, lock, &mut seat, id, cause);
        gate.ended(id, ended);
        let report = Report {
            id,
            requests: connection.requests,
            ended,
        };
        Finished { link, seat, report }
    }
}

impl<'a, C: Clock, K: Watched> Session<'a, C, K> {
    /// Has the lookout tell of the link under this number. Whether it does.
    pub fn watch(&mut self, lookout: &Lookout, place: usize) -> bool
        ensures { self.new ≡ self.old }
    {
        self.link.watch(lookout, place)
    }

    /// Takes note of what the lookout told of the link.
    pub fn told(&mut self, sign: Sign)
        ensures { self.new ≡ self.old }
    {
        self.link.told(sign)
    }

    /// Writes what the link has left of earlier writes, as far as it is taken at once, at this
    /// moment in milliseconds.
    pub fn flush(&mut self, now: u64)
        ensures { self.new ≡ self.old }
    {
        self.link.flush(now)
    }

    /// Whether the link has something to read, as far as is known.
    pub fn is_due(&self) -> bool {
        self.link.is_due()
    }

    /// Whether the link has bytes left of earlier writes.
    pub fn is_behind(&self) -> bool {
        self.link.is_behind()
    }
}
