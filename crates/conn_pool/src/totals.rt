//! Reports as totals for each way to end.
ghost use Rattle.std.specs.Prelude.{◌≡◌, []};
ghost use Rattle.conn_worker.specs.declared.report.Report.{Report};
ghost use Rattle.conn_pool.specs.EndTotals.{both, by_end, merged, more};
ghost use Rattle.conn_pool.specs.EndTotals.{totals_of, with_end};

use conn_worker::{Ended, Report};

/// How many connections ended so, and how many requests they ran. Each stays at the last number of
/// 64 bits once it is there.
#[derive(Clone, Copy, Debug, Drop, PartialEq, Eq)]
pub struct EndTotal {
    pub connections: u64,
    pub requests: u64,
}

impl EndTotal {
    const NONE: EndTotal = EndTotal {
        connections: 0,
        requests: 0,
    };

    fn add(&mut self, connections: u64, requests: u64)
        ensures { self.new ≡ more connections requests self.old }
    {
        self.connections = self.connections.saturating_add(connections);
        self.requests = self.requests.saturating_add(requests);
    }

    fn merge(&mut self, other: &EndTotal)
        ensures { self.new ≡ both other.now self.old }
    {
        self.add(other.connections, other.requests);
    }
}

/// What is kept of reports where no list of them is.
#[derive(Clone, Copy, Debug, Drop, PartialEq, Eq)]
pub struct Totals {
    pub peer_end: EndTotal,
    pub quit: EndTotal,
    pub dropped: EndTotal,
    pub bad_request: EndTotal,
    pub link_fault: EndTotal,
    pub no_memory: EndTotal,
    pub worn: EndTotal,
    pub stopped: EndTotal,
}

impl Totals {
    /// Those of no report.
    #[tactic(auto, unfolding(crate::specs::EndTotals::totals_of))]
    pub fn new() -> Self
        ensures { result ≡ totals_of [] }
    {
        Totals {
            peer_end: EndTotal::NONE,
            quit: EndTotal::NONE,
            dropped: EndTotal::NONE,
            bad_request: EndTotal::NONE,
            link_fault: EndTotal::NONE,
            no_memory: EndTotal::NONE,
            worn: EndTotal::NONE,
            stopped: EndTotal::NONE,
        }
    }

    pub fn add(&mut self, report: &Report)
        ensures { self.new ≡ with_end report.now.ended report.now.requests self.old }
    {
        let requests = report.requests;
        match report.ended {
            Ended::PeerEnd => self.peer_end.add(1, requests),
            Ended::Quit => self.quit.add(1, requests),
            Ended::Dropped => self.dropped.add(1, requests),
            Ended::BadRequest(_) => self.bad_request.add(1, requests),
            Ended::LinkFault => self.link_fault.add(1, requests),
            Ended::NoMemory => self.no_memory.add(1, requests),
            Ended::Worn => self.worn.add(1, requests),
            Ended::Stopped => self.stopped.add(1, requests),
        }
    }

    pub fn merge(&mut self, other: &Totals)
        ensures { self.new ≡ merged other.now self.old }
    {
        self.peer_end.merge(&other.peer_end);
        self.quit.merge(&other.quit);
        self.dropped.merge(&other.dropped);
        self.bad_request.merge(&other.bad_request);
        self.link_fault.merge(&other.link_fault);
        self.no_memory.merge(&other.no_memory);
        self.worn.merge(&other.worn);
        self.stopped.merge(&other.stopped);
    }

    /// The number of each end, and its total.
    pub fn by_end(&self) -> [(u8, EndTotal); 8]
        ensures { result ≡ by_end self.now }
    {
        [
            (1, self.peer_end),
            (2, self.quit),
            (3, self.dropped),
            (4, self.bad_request),
            (5, self.link_fault),
            (7, self.no_memory),
            (8, self.worn),
            (9, self.stopped),
        ]
    }
}
