//! Servers at the ports of a net in memory, and workers side by side.
ghost use Rattle.std.specs.Prelude.{◌≤◌};
ghost use Rattle.std.specs.declared.option.Option.TheVariants.{None};

use crate::{ServeEnd, serve};
use conn_pool::{EndTotal, Kept, Served, serve_all};
use conn_worker::{Ended, Gate, OpenGate, Report};
use edge_links::{
    AcceptStep, Accepted, Acceptor, Counts, FixedClock, LinkStep, ListedNet, Listening,
    MemoryAcceptor, MemoryLink, MemoryNet, Net,
};
use resp_value::{NoMemory, Words};
use serial_model::Limits;
use socket_links::{Watched, Watching};
use std::alloc::{AllocError, Global};
use std::hint::spin_loop;
use std::sync::Wait;
use std::sync::atomic::{AtomicU64, Ordering};
use std::test::Fail;
use std::thread::Threads;

const LIMITS: Limits = Limits {
    table_max: 100,
    out_max: 1_000_000,
    history_max: 1_000,
};

/// A text in which `;` stands for this end of a line.
fn bytes_of(alloc: Global, text: &str, line_end: &[u8]) -> Result<Vec<u8>, AllocError> {
    let mut bytes = Vec::new(alloc);
    for byte in text.bytes() {
        match byte {
            b';' => bytes.extend_from_slice(line_end)?,
            _ => bytes.push(byte)?,
        }
    }
    Ok(bytes)
}

/// A link that gives these bytes and then its end.
fn link_of(alloc: Global, text: &str) -> Result<AcceptStep, AllocError> {
    let mut steps = Vec::new(alloc);
    steps.push(LinkStep::Bytes(bytes_of(alloc, text, b"\r\n")?))?;
    match MemoryLink::new(alloc, 100, steps) {
        Ok(link) => Ok(AcceptStep::Came(link)),
        Err(_) => Err(AllocError),
    }
}

/// Connections that send these bytes, where commas part them; `idle` is an accept at which nobody
/// came, and `fail` one that failed.
fn acceptor_of(alloc: Global, text: &str) -> Result<MemoryAcceptor, AllocError> {
    let mut steps = Vec::new(alloc);
    for part in text.split(',') {
        match part {
            "" => {}
            "idle" => steps.push(AcceptStep::Idle)?,
            "fail" => steps.push(AcceptStep::Fail)?,
            bytes => steps.push(link_of(alloc, bytes)?)?,
        }
    }
    Ok(MemoryAcceptor::new(steps))
}

/// A net where port 7000 gives this acceptor.
fn net_with(alloc: Global, acceptor: MemoryAcceptor) -> Result<ListedNet, AllocError> {
    let mut listens = Vec::new(alloc);
    listens.push(Listening {
        port: 7000,
        acceptor: Some(acceptor),
    })?;
    Ok(ListedNet::new(listens, Vec::new(alloc)))
}

/// How a server at this net ended, whether it served, and what it printed, once what it served is
/// let go of.
fn serves<N: Net, R: Threads + Wait + Eprint + Sync>(
    rt: &R,
    alloc: Global,
    workers: u64,
    most: u64,
    net: &mut N,
) -> (ServeEnd, bool, Vec<u8>)
where
    N::Link: Watched,
    N::Acceptor: Watching,
    requires { (1 ≤ workers) × (workers ≤ 64) }
{
    let clock = FixedClock { ms: 0 };
    let run = serve(rt, alloc, LIMITS, 7000, workers, most, net, &clock);
    (run.end, run.served.is_some(), run.text)
}

/// The connections, the workers, the most connections; how it ended, and what it printed.
const ROWS: &str = " = 1 = 9 = Done = 
GET a;,GET a;GET b;,idle,*1;$007 = 1 = 9 = Done = \
connection 1 ended 1 requests 1;connection 2 ended 1 requests 2;connection 3 ended 4 requests 0;
GET a;,GET a;,GET a; = 3 = 2 = Done = \
connection 1 ended 1 requests 1;connection 2 ended 1 requests 1;
GET a;,fail,GET a; = 1 = 9 = NetFault = connection 1 ended 1 requests 1;
PING;QUIT;PING;,GET a; = 1 = 9 = Done = \
connection 1 ended 2 requests 2;connection 2 ended 1 requests 1;
GET a;,PING;SHUTDOWN;PING;,GET a; = 1 = 9 = Done = \
connection 1 ended 1 requests 1;connection 2 ended 3 requests 2;
GET a;,GET a;,idle,GET a;,GET a; = 16 = 9 = Done = \
connection 1 ended 1 requests 1;connection 2 ended 1 requests 1;\
connection 3 ended 1 requests 1;connection 4 ended 1 requests 1;
 = 1 = 0 = Done = 
GET a;,GET a;GET b;,idle,*1;$007 = 1 = 0 = Done = \
ended 1 connections 2 requests 3;ended 4 connections 1 requests 0;
GET a;,fail,GET a; = 1 = 0 = NetFault = ended 1 connections 1 requests 1;
GET a;,PING;SHUTDOWN;PING;,GET a; = 1 = 0 = Done = \
ended 1 connections 1 requests 1;ended 3 connections 1 requests 2;
GET a;,PING;QUIT;,GET a;,idle,GET a;,GET a; = 16 = 0 = Done = \
ended 1 connections 4 requests 4;ended 2 connections 1 requests 2;";

#[test]
fn each_connection_has_a_line_or_each_way_to_end(rt: HostRuntime) -> Result<(), Fail> {
    for row in ROWS.lines() {
        let mut parts = row.split(" = ");
        let acceptor = acceptor_of(rt.alloc(), parts.next().unwrap_or(""))?;
        let workers = parts.next().unwrap_or("").parse::<u64>().unwrap_or(1);
        let most = parts.next().unwrap_or("").parse::<u64>().unwrap_or(0);
        let want = parts.next().unwrap_or("");
        let printed = bytes_of(rt.alloc(), parts.next().unwrap_or(""), b"\n")?;
        let mut net = net_with(rt.alloc(), acceptor)?;
        let workers = workers.clamp(1, 64);
        let (end, has_served, text) = serves(&rt, rt.alloc(), workers, most, &mut net);
        let end = format!(in rt.alloc(); "{end:?}")?;
        assert!(rt; end.as_str() == want, "{row}: {end}");
        assert!(rt; has_served, "{row}");
        assert!(rt; text.as_slice() == printed.as_slice(), "{row}");
    }
    Ok(())
}

#[test]
fn a_net_that_does_not_listen_is_a_fault(rt: HostRuntime) -> Result<(), Fail> {
    let (end, has_served, text) = serves(&rt, rt.alloc(), 4, 0, &mut MemoryNet::new());
    assert!(rt; end == ServeEnd::NetFault);
    assert!(rt; !has_served);
    assert!(rt; text.is_empty());
    Ok(())
}

/// Holds `GET b` until `SET b 2` was answered, and gives up at last.
#[derive(Drop)]
struct Turnstile {
    setter: AtomicU64,
    answered: AtomicU64,
    gave_up: AtomicU64,
}

fn is_word(words: &Words, place: usize, text: &str) -> bool {
    match words.as_slice().get(place) {
        Some(word) => word.as_slice() == text.as_bytes(),
        None => false,
    }
}

impl Gate for Turnstile {
    fn before(&self, id: u64, words: &Words) {
        if !is_word(words, 1, "b") {
            return;
        }
        if is_word(words, 0, "SET") {
            self.setter.store(id, Ordering::SeqCst);
            return;
        }
        for _ in 0..100_000_000u32 {
            if self.answered.load(Ordering::SeqCst) == 1 {
                return;
            }
            spin_loop();
        }
        self.gave_up.store(1, Ordering::SeqCst);
    }

    fn after(&self, id: u64, _requests: u64) {
        if id == self.setter.load(Ordering::SeqCst) {
            self.answered.store(1, Ordering::SeqCst);
        }
    }
}

/// The reports, where each was kept.
fn each_of<A>(served: &Served<A>) -> &[Report] {
    match served.reports.kept() {
        Kept::Each(reports) => reports.as_slice(),
        Kept::Totals(_) => &[],
    }
}

/// How many connections and requests were served, where no accept failed and each connection ended
/// as its peer did.
fn counts_of<A>(served: &Served<A>) -> Option<(usize, u64)> {
    let mut requests = 0u64;
    for report in each_of(served) {
        if report.ended != Ended::PeerEnd {
            return None;
        }
        requests = requests.saturating_add(report.requests);
    }
    let counts = (each_of(served).len(), requests);
    if served.accept_failed {
        None
    } else {
        Some(counts)
    }
}

fn served_by_two<R: Threads + Wait + Sync>(
    rt: &R,
    alloc: Global,
    acceptor: MemoryAcceptor,
    gate: &Turnstile,
) -> Result<Option<(usize, u64)>, NoMemory> {
    let clock = FixedClock { ms: 0 };
    let served = serve_all(rt, alloc, LIMITS, acceptor, &clock, gate, 2, 9)?;
    Ok(counts_of(&served))
}

#[test]
fn a_request_waits_for_one_that_another_worker_answers(rt: HostRuntime) -> Result<(), Fail> {
    let acceptor = acceptor_of(rt.alloc(), "SET a 1;GET b;,SET b 2;")?;
    let gate = Turnstile {
        setter: AtomicU64::new(0),
        answered: AtomicU64::new(0),
        gave_up: AtomicU64::new(0),
    };
    let counts = served_by_two(&rt, rt.alloc(), acceptor, &gate)?;
    assert_eq!(rt; gate.gave_up.load(Ordering::SeqCst), 0);
    assert_eq!(rt; counts, Some((2, 3)));
    Ok(())
}

/// Gives the links of its acceptor, and then nobody comes.
#[derive(Drop)]
struct OpenAcceptor {
    acceptor: MemoryAcceptor,
    counts: Counts,
}

impl Acceptor for OpenAcceptor {
    type Link = MemoryLink;

    ghost left = { λ _. None };

    ghost counts = { λ a. a.counts };

    fn accept(&mut self) -> Accepted<MemoryLink> {
        match self.acceptor.accept() {
            Accepted::Came(link) => Accepted::Came(link),
            _ => {
                self.counts.idle();
                Accepted::Idle
            }
        }
    }
}

impl Watching for OpenAcceptor {}

/// Holds SHUTDOWN until another connection was answered, and this one until a connection was
/// dropped; it gives up at last.
#[derive(Drop)]
struct LastCall {
    answered: AtomicU64,
    dropped: AtomicU64,
    gave_up: AtomicU64,
}

impl LastCall {
    fn wait_for(&self, what: &AtomicU64) {
        for _ in 0..100_000_000u32 {
            if what.load(Ordering::SeqCst) == 1 {
                return;
            }
            spin_loop();
        }
        self.gave_up.store(1, Ordering::SeqCst);
    }
}

impl Gate for LastCall {
    fn before(&self, _id: u64, words: &Words) {
        if is_word(words, 0, "SHUTDOWN") {
            self.wait_for(&self.answered);
        }
    }

    fn after(&self, _id: u64, _requests: u64) {
        self.answered.store(1, Ordering::SeqCst);
        self.wait_for(&self.dropped);
    }

    fn ended(&self, _id: u64, ended: Ended) {
        if ended == Ended::Dropped {
            self.dropped.store(1, Ordering::SeqCst);
        }
    }
}

/// A link that gives these bytes, and then nothing.
fn silent_link(alloc: Global, text: &str) -> Result<AcceptStep, AllocError> {
    let mut steps = Vec::new(alloc);
    steps.push(LinkStep::Bytes(bytes_of(alloc, text, b"\r\n")?))?;
    steps.push(LinkStep::Wait(u64::MAX))?;
    match MemoryLink::new(alloc, 100, steps) {
        Ok(link) => Ok(AcceptStep::Came(link)),
        Err(_) => Err(AllocError),
    }
}

/// One link that is silent behind a request, one that shuts the server down, and a third.
fn acceptor_of_three(alloc: Global) -> Result<OpenAcceptor, AllocError> {
    let mut steps = Vec::new(alloc);
    steps.push(silent_link(alloc, "PING;")?)?;
    steps.push(link_of(alloc, "SHUTDOWN;")?)?;
    steps.push(link_of(alloc, "PING;")?)?;
    Ok(OpenAcceptor {
        acceptor: MemoryAcceptor::new(steps),
        counts: Counts::new(),
    })
}

/// How many connections ended so, each having run one request.
fn ended_so<A>(served: &Served<A>, ended: Ended) -> usize {
    let is_so = |report: &&Report| report.ended == ended && report.requests == 1;
    each_of(served).iter().filter(is_so).count()
}

#[test]
fn a_shutdown_ends_the_workers_and_their_connections(rt: HostRuntime) -> Result<(), Fail> {
    let acceptor = acceptor_of_three(rt.alloc())?;
    let clock = FixedClock { ms: 0 };
    let gate = LastCall {
        answered: AtomicU64::new(0),
        dropped: AtomicU64::new(0),
        gave_up: AtomicU64::new(0),
    };
    let served = serve_all(&rt, rt.alloc(), LIMITS, acceptor, &clock, &gate, 2, 9)?;
    assert_eq!(rt; gate.gave_up.load(Ordering::SeqCst), 0);
    assert_eq!(rt; (each_of(&served).len(), served.accept_failed), (2, false));
    assert_eq!(rt; ended_so(&served, Ended::Stopped), 1);
    assert_eq!(rt; ended_so(&served, Ended::Dropped), 1);
    let mut acceptor = served.acceptor;
    assert!(rt; matches!(acceptor.accept(), Accepted::Came(_)));
    Ok(())
}

/// A worker that waits for a connection comes home, too.
#[test]
fn a_shutdown_ends_the_workers_that_wait(rt: HostRuntime) -> Result<(), Fail> {
    let mut steps = Vec::new(rt.alloc());
    steps.push(link_of(rt.alloc(), "SHUTDOWN;")?)?;
    let acceptor = OpenAcceptor {
        acceptor: MemoryAcceptor::new(steps),
        counts: Counts::new(),
    };
    let clock = FixedClock { ms: 0 };
    let served = serve_all(&rt, rt.alloc(), LIMITS, acceptor, &clock, &OpenGate, 3, 9)?;
    assert_eq!(rt; each_of(&served).len(), 1);
    assert_eq!(rt; ended_so(&served, Ended::Dropped), 1);
    Ok(())
}

/// How many connections ended by this number, and their requests, where totals were kept.
fn total_of<A>(served: &Served<A>, end: u8) -> Option<EndTotal> {
    match served.reports.kept() {
        Kept::Each(_) => None,
        Kept::Totals(totals) => {
            let by_end = totals.by_end();
            let found = by_end.iter().find(|(number, _)| *number == end);
            found.map(|(_, total)| *total)
        }
    }
}

#[test]
fn workers_join_their_totals(rt: HostRuntime) -> Result<(), Fail> {
    let acceptor = acceptor_of(rt.alloc(), "GET a;,PING;QUIT;,GET a;GET b;,QUIT;,GET a;")?;
    let clock = FixedClock { ms: 0 };
    let served = serve_all(&rt, rt.alloc(), LIMITS, acceptor, &clock, &OpenGate, 3, 0)?;
    for (end, connections, requests) in [(1, 3, 4), (2, 2, 3), (3, 0, 0), (9, 0, 0)] {
        let want = EndTotal {
            connections,
            requests,
        };
        assert!(rt; total_of(&served, end) == Some(want), "{end}");
    }
    Ok(())
}
