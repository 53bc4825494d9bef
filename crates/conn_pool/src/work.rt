//! What a worker does, round after round.
ghost use Rattle.std.specs.Prelude.{◌≡◌, ◌+◌, ◌<◌, ◌==◌, true, false, length, not};
ghost use Rattle.conn_worker.specs.Rounds.{most_read};
ghost use Rattle.conn_pool.specs.Crew.{Goes, Hosts, IsOf, Leaves, Ready, Same, hosted};
ghost use Rattle.conn_pool.specs.declared.crew.TheConstants.{PARTS};

use super::crew::Crew;
use super::desk::Desk;
use super::dispatcher::{Dispatcher, Opening};
use super::guests::Guests;
use super::hints::Hints;
use conn_worker::{Gate, PIECE};
use edge_links::{Acceptor, Clock};
use socket_links::{Lookout, Watched, Watching};
use std::alloc::Global;
use std::sync::ledger::Ledger;
use std::sync::{Mutex, Wait};

/// How many links a worker takes in one round, at most.
const ACCEPTS: u64 = 64;

fn lookout_of<L: Opening, E: Ledger, A: Acceptor + Watching, R: Wait>(
    rt: &R,
    alloc: Global,
    dispatcher: &Mutex<Dispatcher<L, E, A>>,
) -> Option<Lookout> {
    dispatcher.lock(rt).lookout(alloc)
}

// Whether somebody may be there of whom no lookout tells.
fn may_bring<L: Opening, E: Ledger, A: Acceptor + Watching, R: Wait>(
    rt: &R,
    dispatcher: &Mutex<Dispatcher<L, E, A>>,
) -> bool {
    dispatcher.lock(rt).is_due()
}

impl<'a, L: Opening, E: Ledger, A: Acceptor + Watching, C: Clock, G: Gate, R: Wait> Desk<
    'a,
    L,
    E,
    A,
    C,
    G,
    R,
>
where
    A::Link: Watched,
{
    /// Takes links from the dispatcher and serves them, until there are none any more.
    pub fn work(&self, crew: Crew<L, E>) -> Crew<L, E>
        requires of { IsOf L.lock L.setup (not (L.limit == 0)) crew }
        requires parts { Ready L.lock PARTS crew }
        ensures same { Same crew result }
        ensures left { Leaves crew result }
    {
        let mut crew = crew;
        let mut guests = Guests::new(self.alloc, self.hints());
        let mut has_left = false;
        let mut buffer = [0; PIECE];
        for _ in self.rt.forever() {
            has_left = self.accept(&mut crew, &mut guests, has_left);
            guests.serve(self, &mut crew, &mut buffer);
            has_left = self.look(&mut crew, &mut guests, has_left);
            if has_left && guests.are_gone() {
                return crew;
            }
            guests.listen(has_left);
        }
        unreachable!()
    }

    fn hints(&self) -> Hints<A::Link> {
        let lookout = lookout_of(self.rt, self.alloc, self.dispatcher);
        let bell = match &lookout {
            Some(lookout) => lookout.bell(),
            None => None,
        };
        let calling = match bell {
            Some(bell) => self.bells.line(self.rt, self.alloc, bell),
            None => None,
        };
        // Without a line nobody would call it to its connections, so that it has one at a time.
        match calling {
            Some(calling) => Hints::new(self.alloc, lookout, Some(calling)),
            None => Hints::new(self.alloc, None, None),
        }
    }

    // Takes the links that are there, unless none comes any more. Whether none does.
    fn accept(
        &self,
        crew: &mut Crew<L, E>,
        guests: &mut Guests<'a, L, E, C, A::Link>,
        has_left: bool,
    ) -> bool
        requires hosts { Hosts L.lock L.setup (not (L.limit == 0))
            (hosted crew.old guests.old.count has_left) }
        ensures goes { Goes (hosted crew.old guests.old.count has_left)
            (hosted crew.new guests.new.count result) }
    {
        if has_left {
            return true;
        }
        for _ in 0..ACCEPTS {
            if !guests.let_in() {
                return false;
            }
            if guests.welcome(self, crew) {
                return true;
            }
        }
        false
    }

    // Looks after what no sign tells of, where it is time: a SHUTDOWN, want of memory, bytes that
    // are not taken, and somebody who could not be accepted. Whether no link comes any more.
    fn look(
        &self,
        crew: &mut Crew<L, E>,
        guests: &mut Guests<'a, L, E, C, A::Link>,
        has_left: bool,
    ) -> bool
        requires hosts { Hosts L.lock L.setup (not (L.limit == 0))
            (hosted crew.old guests.old.count has_left) }
        ensures goes { Goes (hosted crew.old guests.old.count has_left)
            (hosted crew.new guests.new.count result) }
    {
        let now = self.clock.now_ms();
        guests.flush_lingering(now);
        if !guests.is_time(now) {
            return has_left;
        }
        guests.flush(now);
        if self.finds_stop(crew) {
            guests.stop();
            return true;
        }
        let has_lost = crew.has_lost();
        guests.look_for_more(has_lost || may_bring(self.rt, self.dispatcher));
        has_left
    }

    // Whether a SHUTDOWN ran.
    fn finds_stop(&self, crew: &mut Crew<L, E>) -> bool
        requires lock { crew.old.seat.lock ≡ L.lock }
        ensures goes { Goes (hosted crew.old 0 false) (hosted crew.new 0 result) }
    {
        let stops = crew.finds_stop(self.rt, self.lock, self.clock);
        // Where keys left by its Tick, connections were told.
        self.bells.ring(self.rt);
        stops
    }
}
