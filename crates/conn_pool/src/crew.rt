//! The workers.
ghost use Rattle.std.specs.Thread.{IsSync};
ghost use Rattle.std.specs.Prelude.{◌≡◌, ◌+◌, ◌-◌, ◌*◌, ◌<◌, ◌≤◌, ◌==◌, [], true, false, not};
ghost use Rattle.std.specs.Prelude.{length, IfSome};
ghost use Rattle.turn_lock.specs.Own.{IsWithin, past_of, turns_of};
ghost use Rattle.conn_pool.specs.Ties.{Parted, Tied};
ghost use Rattle.turn_lock.specs.History.{IsPrefix};
ghost use Rattle.conn_pool.specs.Crew.{Gives, IsOf, IsReady, IsStopped, Leaves, Looks, Ready};
ghost use Rattle.conn_pool.specs.Crew.{Same};
ghost use Rattle.conn_pool.specs.Guests.{HasVisited, IsSeatOf, IsVisit};
ghost use Rattle.conn_pool.specs.Moves.{links_in, leaves_by};
ghost use Rattle.conn_pool.specs.declared.crew.TheConstants.{PARTS};
ghost use Rattle.conn_pool.specs.Shown.{AreShown};

use super::bells::Bells;
use super::desk::Desk;
use super::dispatcher::{Dispatcher, Next, Opening};
use super::reports::Reports;
use conn_worker::{Gate, Report};
use edge_links::{Acceptor, Clock};
use shared_book::{Refusal, SharedBook, tick};
use socket_links::{Watched, Watching};
use std::alloc::Global;
use std::marker::Model;
use std::sync::ledger::{Ledger, Share};
use std::sync::{Mutex, Wait};
use std::thread::{Threads, join};
use turn_lock::{Seat, TurnLock};

/// A worker, or several that were joined.
#[derive(Drop)]
pub struct Crew<L: Ledger, E: Ledger> {
    seat: Seat<SharedBook>,
    links: Share<L>,
    gone: Share<E>,
    reports: Reports,
    lost: bool,
}

impl<L: Ledger, E: Ledger> Model for Crew<L, E> {
    ghost use Rattle.std.specs.Prelude.{◌≡◌, false, length};
    ghost use Rattle.turn_lock.specs.Own.{IsWithin, past_of, turns_of};
    ghost use Rattle.conn_pool.specs.Crew.{Team};
    ghost use Rattle.conn_pool.specs.Ties.{Parted, Tied};
    ghost use Rattle.conn_pool.specs.Shown.{AreShown};

    ghost Value = { Team };

    ghost view = { λ c. record {
      seat = c.seat;
      links = c.links.amount;
      link_parts = c.links.parts;
      gone = c.gone.amount;
      gone_parts = c.gone.parts;
      reports = c.reports.items;
      each = c.reports.each;
      lost = c.lost;
    } };

    ghost invariant = { λ c. IsWithin c.seat
        × (c.lost ≡ false → c.links.amount ≡ length c.reports.items)
        × (c.lost ≡ false → Tied c.reports.items (turns_of c.seat))
        × (c.lost ≡ false → AreShown c.reports.items c.seat)
        × (c.lost ≡ false
        → Parted c.reports.items (turns_of c.seat) (past_of c.seat)) };
}

// Whether a SHUTDOWN ran, which a Tick finds.
fn finds_stop<C: Clock, R: Wait>(
    rt: &R,
    lock: &TurnLock<SharedBook>,
    seat: &mut Seat<SharedBook>,
    clock: &C,
) -> bool
    requires lock { seat.old.lock ≡ lock.now }
    requires within { IsWithin seat.old }
    ensures looks { Looks seat.old seat.new }
    ensures stopped { result ≡ true → IsStopped seat.new }
{
    match tick(rt, lock, seat, clock.now_ms()) {
        Ok(()) => false,
        Err(Refusal::Stopped) => true,
        Err(_) => false,
    }
}

/// A link that was accepted, with a part of all that its worker has.
#[derive(Drop)]
pub struct Arrival<L: Opening, E: Ledger, K> {
    pub seat: Seat<SharedBook>,
    pub links: Share<L>,
    pub gone: Share<E>,
    pub reports: Reports,
    pub link: K,
    ghost place: { IsSeatOf L.lock L.setup seat },
    ghost none: { seat.own ≡ [] },
    ghost link_part: { (links.parts ≡ 1) × (links.amount ≡ 1) },
    ghost part: { (gone.parts ≡ 1) × (gone.amount ≡ 0) },
    ghost room: { (reports.items ≡ []) × (0 < reports.room) },
    ghost each: { reports.each ≡ not (L.limit == 0) },
}

impl<L: Opening, E: Ledger> Crew<L, E> {
    /// The next link of the dispatcher. None is given any more where reports were lost, or there is
    /// no memory for that of the link.
    pub fn next<A: Acceptor>(
        &mut self,
        alloc: Global,
        lock: &TurnLock<SharedBook>,
        dispatcher: &mut Dispatcher<L, E, A>,
    ) -> Next<Arrival<L, E, A::Link>>
        requires own { lock.now ≡ L.lock }
        requires of { IsOf L.lock L.setup (not (L.limit == 0)) self.old }
        requires parts { (1 < self.old.seat.parts) × (1 < self.old.link_parts)
            × (1 < self.old.gone_parts) }
        ensures gives { Gives (links_in result) (leaves_by result) self.old self.new }
    {
        let mut reports = self.reports.new_alike(alloc);
        if self.lost || reports.reserve().is_err() {
            self.lost = true;
            dispatcher.stop(&mut self.gone);
            return Next::Over;
        }
        match dispatcher.next(&mut self.links, &mut self.gone) {
            Next::Link(link) => Next::Link(Arrival {
                seat: lock.split(&mut self.seat, 1),
                links: self.links.split_off(1, 1),
                gone: self.gone.split_off(1, 0),
                reports,
                link,
            }),
            Next::Wait => Next::Wait,
            Next::Over => Next::Over,
        }
    }

    /// Whether a SHUTDOWN ran, which a Tick finds; the keys that are due leave by it.
    pub fn finds_stop<C: Clock, R: Wait>(
        &mut self,
        rt: &R,
        lock: &TurnLock<SharedBook>,
        clock: &C,
    ) -> bool
        requires lock { self.old.seat.lock ≡ lock.now }
        ensures same { self.new ≡ record self.old { seat = self.new.seat } }
        ensures looks { Looks self.old.seat self.new.seat }
        ensures stopped { result ≡ true → IsStopped self.new.seat }
    {
        finds_stop(rt, lock, &mut self.seat, clock)
    }

    /// What is left of one connection: its seat and its shares, with room for its report.
    pub fn of_visit(
        seat: Seat<SharedBook>,
        links: Share<L>,
        gone: Share<E>,
        mut reports: Reports,
        report: Report,
    ) -> Self
        requires visit { HasVisited L.lock L.setup report seat }
        requires links { (links.parts ≡ 1) × (links.amount ≡ 1) }
        requires gone { (gone.parts ≡ 1) × (gone.amount ≡ 0) }
        requires room { (reports.items ≡ []) × (0 < reports.room) }
        requires each { reports.each ≡ not (L.limit == 0) }
        ensures { IsVisit L.lock L.setup (not (L.limit == 0)) result }
    {
        reports.push(report);
        Crew {
            seat,
            links,
            gone,
            reports,
            lost: false,
        }
    }

    /// Whether reports were lost, for want of memory.
    pub fn has_lost(&self) -> bool
        ensures { result ≡ self.now.lost }
    {
        self.lost
    }
}

impl<L: Ledger, E: Ledger> Crew<L, E> {
    /// A worker that has nothing yet.
    #[tactic(auto, using(crate::proofs::Parting::beginning))]
    pub fn new(seat: Seat<SharedBook>, links: Share<L>, gone: Share<E>, reports: Reports) -> Self
        requires within { IsWithin seat }
        requires own { seat.own ≡ [] }
        requires links { links.amount ≡ 0 }
        requires reports { reports.items ≡ [] }
        ensures { result ≡ record {
          seat = seat;
          links = links.amount;
          link_parts = links.parts;
          gone = gone.amount;
          gone_parts = gone.parts;
          reports = [];
          each = reports.each;
          lost = false;
        } }
    {
        Crew {
            seat,
            links,
            gone,
            reports,
            lost: false,
        }
    }

    /// What it has, taken apart. None for the reports where some were lost.
    pub fn apart(self) -> (Seat<SharedBook>, Share<L>, Share<E>, Option<Reports>)
        ensures seat { result.0 ≡ self.seat }
        ensures links { (result.1.amount ≡ self.links) × (result.1.parts ≡ self.link_parts) }
        ensures gone { (result.2.amount ≡ self.gone) × (result.2.parts ≡ self.gone_parts) }
        ensures reports { IfSome result.3
            (λ r. (self.links ≡ length r.items) × Tied r.items (turns_of self.seat)
            × AreShown r.items self.seat
            × Parted r.items (turns_of self.seat) (past_of self.seat) × (r.each ≡ self.each)) }
    {
        let Crew {
            seat,
            links,
            gone,
            reports,
            lost,
        } = self;
        (seat, links, gone, if lost { None } else { Some(reports) })
    }

    /// A new worker, with some of the parts.
    #[tactic(auto, using(crate::proofs::Parting::splitting))]
    fn split(&mut self, alloc: Global, lock: &TurnLock<SharedBook>, parts: u64) -> Self
        requires lock { self.old.seat.lock ≡ lock.now }
        requires parts { (1 ≤ parts) × (parts < self.old.seat.parts)
            × (parts < self.old.link_parts) × (parts < self.old.gone_parts) }
        ensures old { self.new ≡ record self.old {
          seat = record self.old.seat { parts = self.old.seat.parts - parts };
          link_parts = self.old.link_parts - parts;
          gone_parts = self.old.gone_parts - parts;
        } }
        ensures new { Ready lock.now parts result × (result.seat.setup ≡ self.old.seat.setup)
            × (result.seat.parts ≡ parts) × (result.gone ≡ 0)
            × (result.each ≡ self.old.each) }
    {
        Crew {
            seat: lock.split(&mut self.seat, parts),
            links: self.links.split_off(parts, 0),
            gone: self.gone.split_off(parts, 0),
            reports: self.reports.new_alike(alloc),
            lost: false,
        }
    }

    /// Joins the other into this one. Where there is no memory, the reports are lost.
    #[tactic(auto, using(crate::proofs::Parting::joining))]
    pub fn join(&mut self, lock: &TurnLock<SharedBook>, other: Self)
        requires lock { (self.old.seat.lock ≡ lock.now) × (other.seat.lock ≡ lock.now) }
        requires setup { other.seat.setup ≡ self.old.seat.setup }
        requires each { other.each ≡ self.old.each }
        ensures seat { (self.new.seat.lock ≡ self.old.seat.lock)
            × (self.new.seat.setup ≡ self.old.seat.setup)
            × (self.new.seat.parts ≡ self.old.seat.parts + other.seat.parts) }
        ensures parts { (self.new.link_parts ≡ self.old.link_parts + other.link_parts)
            × (self.new.gone_parts ≡ self.old.gone_parts + other.gone_parts) }
        ensures amounts { (self.new.links ≡ self.old.links + other.links)
            × (self.new.gone ≡ self.old.gone + other.gone) }
        ensures seen { IsPrefix self.old.seat.seen self.new.seat.seen }
        ensures each { self.new.each ≡ self.old.each }
    {
        let Crew {
            seat,
            links,
            gone,
            reports,
            lost,
        } = other;
        lock.join(&mut self.seat, seat);
        self.links.merge(links);
        self.gone.merge(gone);
        if self.reports.append(reports).is_err() || lost {
            self.lost = true;
        }
    }
}

/// How many parts a worker has of all that is shared: one of its own, and one for each of its
/// connections.
pub const PARTS: u64 = 1_000_000;

/// So many workers, each in a thread of its own where one can be made.
pub fn fan_out<
    L: Opening + Send + Sync,
    E: Ledger + Send + Sync,
    A: Acceptor + Watching + Send,
    C: Clock + Sync,
    G: Gate + Sync,
    R: Threads + Wait + Sync,
>(
    rt: &R,
    alloc: Global,
    dispatcher: &Mutex<Dispatcher<L, E, A>>,
    lock: &TurnLock<SharedBook>,
    clock: &C,
    gate: &G,
    bells: &Bells,
    mut crew: Crew<L, E>,
    workers: u64,
) -> Crew<L, E>
where
    A::Link: Watched,
    requires workers { (1 ≤ workers) × (workers ≤ 64) }
    requires own { lock.now ≡ L.lock }
    requires of { IsOf L.lock L.setup (not (L.limit == 0)) crew }
    requires parts { Ready lock.now (workers * PARTS) crew }
    ensures same { Same crew result }
    ensures left { Leaves crew result }
{
    if workers == 1 {
        let desk = Desk {
            rt,
            alloc,
            dispatcher,
            lock,
            clock,
            gate,
            bells,
        };
        return desk.work(crew);
    }
    let theirs = workers / 2;
    let ours = workers - theirs;
    let other = crew.split(alloc, lock, theirs * PARTS);
    let (mut mine, others) = join(
        rt,
        || -> Crew<L, E>
            requires { IsSync R.row × IsSync C.row × IsSync G.row
                × IsReady L.lock L.setup (not (L.limit == 0)) lock.now ours crew }
            ensures { Same crew result × Leaves crew result }
        { fan_out(rt, alloc, dispatcher, lock, clock, gate, bells, crew, ours) },
        || -> Crew<L, E>
            requires { IsSync R.row × IsSync C.row × IsSync G.row
                × IsReady L.lock L.setup (not (L.limit == 0)) lock.now theirs other }
            ensures { Same other result × Leaves other result }
        {
            fan_out(
                rt, alloc, dispatcher, lock, clock, gate, bells, other, theirs,
            )
        },
    );
    mine.join(lock, others);
    mine
}
