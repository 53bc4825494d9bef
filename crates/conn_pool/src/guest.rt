//! One of the connections of a worker.
ghost use Rattle.std.specs.Prelude.{◌≡◌, ◌<◌, ◌==◌, [], length, not, IfErr, IfOk};
ghost use Rattle.conn_worker.specs.Rounds.{most_read};
ghost use Rattle.conn_pool.specs.Guests.{IsSeatOf, IsVisit};

use super::bells::Ringing;
use super::crew::{Arrival, Crew};
use super::desk::Desk;
use super::dispatcher::Opening;
use super::hints::Hints;
use super::reports::Reports;
use conn_worker::{Finished, Gate, Session, Unadmitted};
use edge_links::{Acceptor, Clock, Link};
use socket_links::{Lookout, Sign, Watched};
use std::sync::Wait;
use std::sync::ledger::{Ledger, Share};

/// A connection that was admitted, with a seat, a link and parts of its own.
#[derive(Drop)]
pub struct Guest<'a, L: Opening, E: Ledger, C: Clock, K: Link> {
    session: Session<'a, C, K>,
    links: Share<L>,
    gone: Share<E>,
    reports: Reports,
    /// It is among those that are served next.
    is_called: bool,
    /// It is among those whose bytes wait to be written.
    is_noted: bool,
    /// It may be sent something unasked, and it is among those of whom that is known.
    asks: bool,
    is_hung: bool,
    ghost place: { IsSeatOf L.lock L.setup session.now.place },
    ghost entered: { IsSeatOf L.lock L.setup session.entered },
    ghost none: { session.entered.own ≡ [] },
    ghost link: { (links.parts ≡ 1) × (links.amount ≡ 1) },
    ghost part: { (gone.parts ≡ 1) × (gone.amount ≡ 0) },
    ghost room: { (reports.items ≡ []) × (0 < reports.room) },
    ghost each: { reports.each ≡ not (L.limit == 0) },
}

/// A connection that is served no longer.
#[derive(Drop)]
pub struct Departed<L: Ledger, E: Ledger, K> {
    pub visit: Crew<L, E>,
    pub link: K,
}

impl<'a, L: Opening, E: Ledger, C: Clock, K: Link + Drop> Guest<'a, L, E, C, K> {
    /// Admits a connection over the link that arrived. Where it is not admitted, its visit is over.
    pub fn begin<A: Acceptor, G: Gate, R: Wait>(
        desk: &Desk<'a, L, E, A, C, G, R>,
        arrival: Arrival<L, E, K>,
    ) -> Result<Self, Crew<L, E>>
        ensures err { IfErr result (λ visit. IsVisit L.lock L.setup (not (L.limit == 0)) visit) }
    {
        let Arrival {
            seat,
            links,
            gone,
            reports,
            link,
            ..
        } = arrival;
        let gate = Ringing::new(desk.rt, desk.gate, desk.bells);
        match Session::begin(
            desk.rt, desk.alloc, desk.lock, seat, link, desk.clock, &gate,
        ) {
            Ok(session) => Ok(Guest {
                session,
                links,
                gone,
                reports,
                is_called: false,
                is_noted: false,
                asks: false,
                is_hung: false,
            }),
            Err(Unadmitted { seat, report }) => {
                Err(Crew::of_visit(seat, links, gone, reports, report))
            }
        }
    }

    /// One round of it, unless its service has ended.
    pub fn go_round<A: Acceptor, G: Gate, R: Wait>(
        &mut self,
        desk: &Desk<'a, L, E, A, C, G, R>,
        buffer: &mut [u8],
    )
        requires buffer { length buffer.old ≡ most_read }
        ensures buffer { length buffer.new ≡ length buffer.old }
    {
        if self.session.is_over() {
            return;
        }
        let gate = Ringing::new(desk.rt, desk.gate, desk.bells);
        self.session
            .go_round(desk.rt, desk.alloc, desk.lock, &gate, buffer);
        self.asks = self.asks || gate.asks_for_more();
    }

    /// Closes it where its service has ended.
    pub fn leave<A: Acceptor, G: Gate, R: Wait>(
        self,
        desk: &Desk<'a, L, E, A, C, G, R>,
    ) -> Result<Departed<L, E, K>, Self>
        ensures ok { IfOk result
            (λ d. IsVisit L.lock L.setup (not (L.limit == 0)) d.visit) }
    {
        if !self.session.is_over() {
            return Err(self);
        }
        let Guest {
            session,
            links,
            gone,
            reports,
            ..
        } = self;
        let gate = Ringing::new(desk.rt, desk.gate, desk.bells);
        let Finished { link, seat, report } = session.finish(desk.rt, desk.lock, &gate);
        let visit = Crew::of_visit(seat, links, gone, reports, report);
        Ok(Departed { visit, link })
    }

    /// The number of the connection.
    pub fn id(&self) -> u64 {
        self.session.id()
    }

    /// Whether its service has ended.
    pub fn is_over(&self) -> bool {
        self.session.is_over()
    }

    /// It is no longer among those that may be sent something unasked.
    pub fn take_down(&self, hints: &mut Hints<K>, place: usize) {
        if self.is_hung {
            hints.take_down(place);
        }
    }

    /// It is served now.
    pub fn answer(&mut self) {
        self.is_called = false;
    }

    /// It is served in the next round, once.
    pub fn be_next(&mut self, hints: &mut Hints<K>, place: usize) {
        if !self.is_called {
            self.is_called = true;
            hints.call(place);
        }
    }
}

impl<'a, L: Opening, E: Ledger, C: Clock, K: Watched + Drop> Guest<'a, L, E, C, K> {
    /// Has the lookout tell of its link under this number. Whether it does.
    pub fn watch(&mut self, lookout: &Lookout, place: usize) -> bool {
        self.session.watch(lookout, place)
    }

    /// Takes note of what the lookout told of its link.
    pub fn told(&mut self, sign: Sign) {
        self.session.told(sign);
    }

    /// Writes what its link has left, as far as it is taken at once, at this moment.
    pub fn flush(&mut self, now: u64) {
        self.session.flush(now);
    }

    /// Whether its link may have something to read.
    pub fn is_due(&self) -> bool {
        self.session.is_due()
    }

    /// Whether its link has bytes left of earlier writes.
    pub fn is_behind(&self) -> bool {
        self.session.is_behind()
    }

    /// Has noted what is next for it, behind a round.
    pub fn follow(&mut self, hints: &mut Hints<K>, place: usize) {
        if self.asks && !self.is_hung {
            self.is_hung = hints.hang(self.id(), place);
        }
        if self.is_behind() {
            self.is_noted = self.is_noted || hints.note(place);
        } else if self.is_due() {
            self.be_next(hints, place);
        }
    }

    /// The same, behind a flush of those that are noted. It is served once all is written.
    pub fn follow_flush(&mut self, hints: &mut Hints<K>, place: usize) {
        if self.is_behind() {
            self.is_noted = hints.note(place);
        } else {
            self.is_noted = false;
            self.be_next(hints, place);
        }
    }

    /// The same, behind a sign. Once its bytes can be written, that is its next round's.
    pub fn follow_sign(&mut self, hints: &mut Hints<K>, sign: Sign) {
        if self.is_due() || (sign.can_write && self.is_behind()) {
            self.be_next(hints, sign.place);
        }
    }
}
