//! The connections of a worker, by their places.
ghost use Rattle.std.specs.Prelude.{◌≡◌, ◌+◌, ◌<◌, ◌≤◌, ◌==◌, false, true, length, not};
ghost use Rattle.conn_worker.specs.Rounds.{most_read};
ghost use Rattle.conn_pool.specs.Crew.{Gives, Goes, Hosts, IsOf, hosted};
ghost use Rattle.conn_pool.specs.Moves.{links_in, leaves_by};
ghost use Rattle.conn_pool.specs.declared.crew.TheConstants.{PARTS};

use super::crew::{Arrival, Crew, PARTS};
use super::desk::Desk;
use super::dispatcher::{Dispatcher, Next, Opening};
use super::guest::{Departed, Guest};
use super::hints::Hints;
use conn_worker::Gate;
use edge_links::{Acceptor, Clock};
use shared_book::SharedBook;
use slab::Slab;
use socket_links::Watched;
use std::alloc::Global;
use std::marker::Model;
use std::sync::ledger::Ledger;
use std::sync::{Mutex, Wait};
use std::thread::yield_now;
use turn_lock::TurnLock;

/// The connections of a worker, and what it knows of them by hints. Contracts see how many they
/// are, and for how many there is room.
#[derive(Drop)]
pub struct Guests<'a, L: Opening, E: Ledger, C: Clock, K: Watched + Drop> {
    slab: Slab<Guest<'a, L, E, C, K>>,
    hints: Hints<K>,
}

impl<'a, L: Opening, E: Ledger, C: Clock, K: Watched + Drop> Model for Guests<'a, L, E, C, K> {
    ghost use Rattle.slab.specs.Slab.{slab_len};
    ghost use Rattle.conn_pool.specs.Crew.{Present};

    ghost Value = { Present };

    ghost view = { λ g. record { count = slab_len g.slab; room = g.slab.capacity } };
}

// The dispatcher is let go before the link is served.
fn next_of<L: Opening, E: Ledger, A: Acceptor, R: Wait>(
    rt: &R,
    alloc: Global,
    lock: &TurnLock<SharedBook>,
    dispatcher: &Mutex<Dispatcher<L, E, A>>,
    crew: &mut Crew<L, E>,
) -> Next<Arrival<L, E, A::Link>>
    requires own { lock.now ≡ L.lock }
    requires of { IsOf L.lock L.setup (not (L.limit == 0)) crew.old }
    requires parts { (1 < crew.old.seat.parts) × (1 < crew.old.link_parts)
        × (1 < crew.old.gone_parts) }
    ensures gives { Gives (links_in result) (leaves_by result) crew.old crew.new }
{
    let mut dispatcher = dispatcher.lock(rt);
    crew.next(alloc, lock, &mut dispatcher)
}

impl<'a, L: Opening, E: Ledger, C: Clock, K: Watched + Drop> Guests<'a, L, E, C, K> {
    /// None yet.
    pub fn new(alloc: Global, hints: Hints<K>) -> Self
        ensures { result.count ≡ 0 }
    {
        Guests {
            slab: Slab::new(alloc),
            hints,
        }
    }

    /// Whether there are none, and no link has bytes left.
    pub fn are_gone(&self) -> bool
        ensures { result ≡ true → self.now.count ≡ 0 }
    {
        self.slab.is_empty() && !self.hints.has_lingering()
    }

    /// Whether it is time to look after what no sign tells of.
    pub fn is_time(&mut self, now: u64) -> bool
        ensures { self.new ≡ self.old }
    {
        self.hints.is_time(now)
    }

    /// A SHUTDOWN ran: all are served until they have ended.
    pub fn stop(&mut self)
        ensures { self.new ≡ self.old }
    {
        self.hints.stop();
    }

    /// Somebody may be there of whom no sign tells, or not.
    pub fn look_for_more(&mut self, may_come: bool)
        ensures { self.new ≡ self.old }
    {
        self.hints.look_for_more(may_come);
    }

    /// Whether one more may come.
    pub fn let_in(&self) -> bool {
        self.hints.lets_in(self.slab.is_empty())
    }

    /// Takes a link of the dispatcher, where one is there and there is room for it. Whether none
    /// comes any more.
    pub fn welcome<A: Acceptor<Link = K>, G: Gate, R: Wait>(
        &mut self,
        desk: &Desk<'a, L, E, A, C, G, R>,
        crew: &mut Crew<L, E>,
    ) -> bool
        requires hosts { Hosts L.lock L.setup (not (L.limit == 0))
            (hosted crew.old self.old.count false) }
        ensures goes { Goes (hosted crew.old self.old.count false)
            (hosted crew.new self.new.count result) }
    {
        if !self.has_room() {
            return false;
        }
        match next_of(desk.rt, desk.alloc, desk.lock, desk.dispatcher, crew) {
            Next::Link(arrival) => {
                self.admit(desk, crew, arrival);
                false
            }
            Next::Wait => {
                self.find_nobody();
                false
            }
            Next::Over => true,
        }
    }

    // Whether there is room for one more.
    fn has_room(&mut self) -> bool
        ensures same { self.new.count ≡ self.old.count }
        ensures room { result ≡ true
            → (self.new.count + 1 < PARTS) × (self.new.count < self.new.room) }
    {
        let has_room = (self.slab.len() as u64) < PARTS - 1 && self.slab.reserve(1).is_ok();
        if !has_room {
            self.find_nobody();
        }
        has_room
    }

    fn find_nobody(&mut self)
        ensures { self.new ≡ self.old }
    {
        if self.hints.finds_nobody() {
            yield_now();
        }
    }

    // Admits a connection over the link that arrived, and has the lookout tell of it.
    fn admit<A: Acceptor<Link = K>, G: Gate, R: Wait>(
        &mut self,
        desk: &Desk<'a, L, E, A, C, G, R>,
        crew: &mut Crew<L, E>,
        arrival: Arrival<L, E, K>,
    )
        requires of { IsOf L.lock L.setup (not (L.limit == 0)) crew.old }
        requires room { self.old.count < self.old.room }
        ensures goes { Goes (hosted crew.old (self.old.count + 1) false)
            (hosted crew.new self.new.count false) }
    {
        match Guest::begin(desk, arrival) {
            Ok(guest) => {
                let place = self.slab.insert_reserved(guest);
                self.settle(place);
            }
            Err(visit) => crew.join(desk.lock, visit),
        }
    }

    // Has the lookout tell of a new connection.
    fn settle(&mut self, place: usize)
        ensures { self.new ≡ self.old }
    {
        let Some(guest) = self.slab.get_mut(place) else {
            return;
        };
        if let Some(lookout) = self.hints.lookout() {
            guest.watch(lookout, place);
        }
        if guest.is_due() {
            guest.be_next(&mut self.hints, place);
        }
    }

    /// Serves those whose turn it is, one round each.
    pub fn serve<A: Acceptor<Link = K>, G: Gate, R: Wait>(
        &mut self,
        desk: &Desk<'a, L, E, A, C, G, R>,
        crew: &mut Crew<L, E>,
        buffer: &mut [u8],
    )
        requires of { IsOf L.lock L.setup (not (L.limit == 0)) crew.old }
        requires buffer { length buffer.old ≡ most_read }
        ensures buffer { length buffer.new ≡ length buffer.old }
        ensures goes { Goes (hosted crew.old self.old.count false)
            (hosted crew.new self.new.count false) }
    {
        let count = self.hints.begin_round(self.slab.capacity());
        for number in 0..count {
            self.serve_one(desk, crew, number, buffer);
        }
    }

    // One round of the connection with this number among them, where one is there.
    fn serve_one<A: Acceptor<Link = K>, G: Gate, R: Wait>(
        &mut self,
        desk: &Desk<'a, L, E, A, C, G, R>,
        crew: &mut Crew<L, E>,
        number: usize,
        buffer: &mut [u8],
    )
        requires of { IsOf L.lock L.setup (not (L.limit == 0)) crew.old }
        requires buffer { length buffer.old ≡ most_read }
        ensures buffer { length buffer.new ≡ length buffer.old }
        ensures goes { Goes (hosted crew.old self.old.count false)
            (hosted crew.new self.new.count false) }
    {
        let place = self.hints.place(number);
        if self.go_round(desk, place, buffer) {
            self.let_go(desk, crew, place);
        }
    }

    // One round of the connection at the place, where its bytes are written. Whether its service
    // has ended.
    fn go_round<A: Acceptor<Link = K>, G: Gate, R: Wait>(
        &mut self,
        desk: &Desk<'a, L, E, A, C, G, R>,
        place: usize,
        buffer: &mut [u8],
    ) -> bool
        requires buffer { length buffer.old ≡ most_read }
        ensures buffer { length buffer.new ≡ length buffer.old }
        ensures same { self.new ≡ self.old }
    {
        let Some(guest) = self.slab.get_mut(place) else {
            return false;
        };
        guest.answer();
        if guest.is_behind() {
            guest.flush(desk.clock.now_ms());
        }
        if !guest.is_behind() {
            guest.go_round(desk, buffer);
        }
        if guest.is_over() {
            return true;
        }
        guest.follow(&mut self.hints, place);
        false
    }

    // Closes the connection at the place, where its service has ended.
    fn let_go<A: Acceptor<Link = K>, G: Gate, R: Wait>(
        &mut self,
        desk: &Desk<'a, L, E, A, C, G, R>,
        crew: &mut Crew<L, E>,
        place: usize,
    )
        requires of { IsOf L.lock L.setup (not (L.limit == 0)) crew.old }
        ensures goes { Goes (hosted crew.old self.old.count false)
            (hosted crew.new self.new.count false) }
    {
        let Some(guest) = self.slab.try_remove(place) else {
            return;
        };
        guest.take_down(&mut self.hints, place);
        match guest.leave(desk) {
            Ok(Departed { visit, link }) => {
                crew.join(desk.lock, visit);
                self.hints.linger(link);
            }
            Err(guest) => {
                self.slab.insert_reserved(guest);
            }
        }
    }

    /// Writes what links that are served no longer have left, as far as it is taken at once, at
    /// this moment.
    pub fn flush_lingering(&mut self, now: u64)
        ensures { self.new ≡ self.old }
    {
        self.hints.flush(now);
    }

    /// Writes what links have left, as far as it is taken at once, at this moment.
    pub fn flush(&mut self, now: u64)
        ensures { self.new ≡ self.old }
    {
        let count = self.hints.begin_flush();
        for number in 0..count {
            self.flush_one(number, now);
        }
    }

    fn flush_one(&mut self, number: usize, now: u64)
        ensures { self.new ≡ self.old }
    {
        let place = self.hints.place(number);
        if let Some(guest) = self.slab.get_mut(place) {
            guest.flush(now);
            guest.follow_flush(&mut self.hints, place);
        }
    }

    /// Waits, and takes note of the signs and the calls that came.
    pub fn listen(&mut self, has_left: bool)
        ensures { self.new ≡ self.old }
    {
        self.hints.wait(has_left);
        self.hear_signs();
        self.hear_calls();
    }

    fn hear_signs(&mut self)
        ensures { self.new ≡ self.old }
    {
        let count = self.hints.signs();
        for number in 0..count {
            self.hear_sign(number);
        }
    }

    fn hear_sign(&mut self, number: usize)
        ensures { self.new ≡ self.old }
    {
        let Some(sign) = self.hints.sign(number) else {
            return;
        };
        if let Some(guest) = self.slab.get_mut(sign.place) {
            guest.told(sign);
            guest.follow_sign(&mut self.hints, sign);
        }
    }

    fn hear_calls(&mut self)
        ensures { self.new ≡ self.old }
    {
        let count = self.hints.begin_calls();
        for number in 0..count {
            self.hear_call(number);
        }
    }

    fn hear_call(&mut self, number: usize)
        ensures { self.new ≡ self.old }
    {
        let place = self.hints.place(number);
        if let Some(guest) = self.slab.get_mut(place) {
            guest.be_next(&mut self.hints, place);
        }
    }
}
