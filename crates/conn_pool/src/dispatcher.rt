//! The acceptor under its lock, and the workers that take turns at it.
ghost use Rattle.std.specs.Prelude.{◌≡◌, ◌≢◌, ℕ, ◌+◌, ◌<◌, ◌≤◌, true, false, Option, if◌then◌else◌};
ghost use Rattle.atomic_table.specs.Seated.{TableId};
ghost use Rattle.edge_links.specs.declared.counts.Counts.{Counts};
ghost use Rattle.edge_links.specs.Counts.{Counted, nought};
ghost use Rattle.serial_model.specs.declared.history.Limits.{Limits};
ghost use Rattle.conn_pool.specs.Dispatcher.{still, after_giving};
ghost use Rattle.conn_pool.specs.declared.dispatcher.Stage.{Stage};
ghost use Rattle.conn_pool.specs.Moves.{links_in, leaves_by, EndedBy};

use edge_links::{Accepted, Acceptor};
use socket_links::{Lookout, Watching};
use std::alloc::Global;
use std::marker::Brand;
use std::sync::ledger::{Book, Ledger, Share};

/// Which call it is, with its lock and the acceptor's numbers at the call.
pub trait Opening: Ledger {
    ghost lock: { TableId };

    ghost setup: { Option Limits };

    ghost before: { Counts };

    ghost left: { Option ℕ };

    ghost limit: { ℕ };
}

impl Opening for Brand {
    ghost use Rattle.std.specs.Prelude.{None, []};

    ghost lock = { record {
      words = 0;
      slots = 0;
      views_name = 0;
      atom = 0;
      block = 0;
      offset = 0;
      slot_names = [];
    } };

    ghost setup = { None };

    ghost before = { nought };

    ghost left = { None };

    ghost limit = { 0 };
}

/// Whether links are given, and if not, why.
#[derive(Clone, Copy, PartialEq, Eq)]
pub enum Stage {
    Open,
    Failed,
    Closed,
    Full,
    NoMemory,
}

/// The acceptor, with the books of the links that it gave and of the workers that left.
#[derive(Drop)]
pub struct Dispatcher<L: Opening, E: Ledger, A: Acceptor> {
    acceptor: A,
    limited: bool,
    room: u64,
    stage: Stage,
    links: Book<L>,
    gone: Book<E>,
    ghost given: { L.left ≡ after_giving links.total (still (A.left acceptor)) },
    ghost faults: { stage ≢ Stage.Failed → (A.counts acceptor).faults ≡ L.before.faults },
    ghost failed: { stage ≡ Stage.Failed → Counted L.before.faults (A.counts acceptor).faults },
    ghost ends: { stage ≢ Stage.Closed → (A.counts acceptor).ends ≡ L.before.ends },
    ghost closed: { stage ≡ Stage.Closed → Counted L.before.ends (A.counts acceptor).ends },
    ghost bounded: { limited ≡ true → (0 < L.limit) × (links.total + room ≡ L.limit) },
    ghost unbounded: { limited ≡ false → L.limit ≡ 0 },
    ghost full: { stage ≡ Stage.Full → (0 < L.limit) × (links.total ≡ L.limit) },
    ghost over: { 0 < gone.total → stage ≢ Stage.Open },
}

/// What the dispatcher has for a worker.
#[derive(Drop)]
pub enum Next<K> {
    Link(K),
    Wait,
    Over,
}

impl<L: Opening, E: Ledger, A: Acceptor> Dispatcher<L, E, A> {
    /// The next link, where one came and links are still given.
    pub fn next(&mut self, mine: &mut Share<L>, gone: &mut Share<E>) -> Next<A::Link>
        requires { (0 < mine.old.parts) × (0 < gone.old.parts) }
        ensures parts { (mine.new.parts ≡ mine.old.parts) × (gone.new.parts ≡ gone.old.parts) }
        ensures mine { mine.new.amount ≡ mine.old.amount + links_in result }
        ensures gone { gone.new.amount ≡ gone.old.amount + leaves_by result }
    {
        let Dispatcher {
            acceptor,
            limited,
            room,
            stage,
            links,
            gone: left,
            ..
        } = self;
        if *stage != Stage::Open {
            left.add(gone, 1);
            return Next::Over;
        }
        if *limited && *room == 0 {
            *stage = Stage::Full;
            left.add(gone, 1);
            return Next::Over;
        }
        match acceptor.accept() {
            Accepted::Came(link) => {
                links.add(mine, 1);
                if *limited {
                    *room -= 1;
                }
                Next::Link(link)
            }
            Accepted::Idle => Next::Wait,
            Accepted::Closed => {
                *stage = Stage::Closed;
                left.add(gone, 1);
                Next::Over
            }
            Accepted::Failed => {
                *stage = Stage::Failed;
                left.add(gone, 1);
                Next::Over
            }
        }
    }

    /// No link is given any more, for want of memory.
    pub fn stop(&mut self, gone: &mut Share<E>)
        requires { 0 < gone.old.parts }
        ensures parts { gone.new.parts ≡ gone.old.parts }
        ensures gone { gone.new.amount ≡ gone.old.amount + 1 }
    {
        let Dispatcher {
            stage,
            gone: left,
            ..
        } = self;
        if *stage == Stage::Open {
            *stage = Stage::NoMemory;
        }
        left.add(gone, 1);
    }

    /// A dispatcher that is open.
    pub fn new(acceptor: A, connections: u64, links: Book<L>, gone: Book<E>) -> Self
        requires counts { A.counts acceptor ≡ L.before }
        requires left { still (A.left acceptor) ≡ L.left }
        requires limit { L.limit ≡ connections }
        requires none { (links.total ≡ 0) × (gone.total ≡ 0) }
    {
        Dispatcher {
            acceptor,
            limited: connections != 0,
            room: connections,
            stage: Stage::Open,
            links,
            gone,
        }
    }

    /// What all workers took together, and why no more was given, where one has left.
    pub fn end(self, mine: &mut Share<L>, gone: &mut Share<E>) -> (A, Stage)
        requires mine { mine.old.parts ≡ L.parts }
        requires gone { gone.old.parts ≡ E.parts }
        ensures same { mine.new.amount ≡ mine.old.amount }
        ensures given { L.left ≡ after_giving mine.old.amount (still (A.left result.0)) }
        ensures stage { EndedBy result.1 L.before (A.counts result.0) L.limit mine.old.amount }
        ensures left { 0 < gone.old.amount → result.1 ≢ Stage.Open }
        ensures within { 0 < L.limit → mine.old.amount ≤ L.limit }
    {
        let Dispatcher {
            acceptor,
            stage,
            mut links,
            gone: mut left,
            ..
        } = self;
        links.audit(mine);
        left.audit(gone);
        (acceptor, stage)
    }
}

impl<L: Opening, E: Ledger, A: Acceptor + Watching> Dispatcher<L, E, A> {
    /// A lookout of the acceptor, where it has any.
    pub fn lookout(&self, alloc: Global) -> Option<Lookout> {
        self.acceptor.lookout(alloc)
    }

    /// Whether the next turn at it may bring what no lookout tells of again: somebody, or that no
    /// link is given any more.
    pub fn is_due(&self) -> bool {
        self.stage != Stage::Open || self.acceptor.is_due()
    }
}
