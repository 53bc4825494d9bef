//! All workers, from the acceptor that is handed in to the book that comes back.
ghost use Rattle.std.specs.Prelude.{◌≡◌, ◌<◌, ◌≤◌, ◌*◌, ◌⊎◌, ◌==◌, true, false, not, length};
ghost use Rattle.std.specs.Prelude.{IfOk};
ghost use Rattle.turn_lock.specs.Own.{IsWithin};
ghost use Rattle.turn_lock.specs.Seats.{first_seat};
ghost use Rattle.edge_links.specs.Counts.{Counted};
ghost use Rattle.serial_model.specs.History.{is_stopped};
ghost use Rattle.serial_model.specs.Steps.{AreValid};
ghost use Rattle.conn_pool.specs.Complete.{Completes};
ghost use Rattle.conn_pool.specs.Dispatcher.{after_giving, still};
ghost use Rattle.conn_pool.specs.Outcome.{Stands};
ghost use Rattle.conn_pool.specs.declared.crew.TheConstants.{PARTS};

use super::bells::Bells;
use super::crew::{Crew, PARTS, fan_out};
use super::dispatcher::{Dispatcher, Opening, Stage};
use super::reports::Reports;
use conn_worker::Gate;
use edge_links::{Acceptor, Clock};
use resp_value::NoMemory;
use serial_model::Limits;
use shared_book::{Opened, SharedBook, open_told};
use socket_links::{Watched, Watching};
use std::alloc::Global;
use std::marker::Brand;
use std::sync::ledger::{Blank, Ledger};
use std::sync::{Mutex, Wait};
use std::thread::Threads;
use turn_lock::Closed;

/// What was served.
#[derive(Drop)]
pub struct Served<A> {
    pub book: Closed<SharedBook>,
    pub reports: Reports,
    pub accept_failed: bool,
    pub acceptor: A,
}

fn serve_named<
    L: Opening + Send + Sync,
    E: Ledger + Send + Sync,
    A: Acceptor + Watching + Send + Drop,
    C: Clock + Sync,
    G: Gate + Sync,
    R: Threads + Wait + Sync,
>(
    rt: &R,
    alloc: Global,
    limits: Limits,
    opened: Opened,
    acceptor: A,
    clock: &C,
    gate: &G,
    links: Blank,
    gone: Blank,
    workers: u64,
    connections: u64,
) -> Result<Served<A>, NoMemory>
where
    A::Link: Watched,
    requires opened { (opened.seat ≡ first_seat opened.lock limits) × IsWithin opened.seat }
    requires own { (opened.lock ≡ L.lock) × (opened.seat.setup ≡ L.setup) }
    requires workers { (1 ≤ workers) × (workers ≤ 64) }
    requires links { (links.name ≡ L.name) × (links.parts ≡ L.parts)
        × (L.parts ≡ workers * PARTS) }
    requires gone { (gone.name ≡ E.name) × (gone.parts ≡ E.parts)
        × (E.parts ≡ workers * PARTS) }
    requires before { (A.counts acceptor ≡ L.before) × (still (A.left acceptor) ≡ L.left)
        × (L.limit ≡ connections) }
    ensures given { IfOk result (λ s. still (A.left acceptor)
        ≡ after_giving (length s.reports.items) (still (A.left s.acceptor))) }
    ensures failed { IfOk result (λ s. s.accept_failed ≡ true
        → Counted (A.counts acceptor).faults (A.counts s.acceptor).faults) }
    ensures sound { IfOk result (λ s. s.accept_failed ≡ false
        → (A.counts s.acceptor).faults ≡ (A.counts acceptor).faults) }
    ensures over { IfOk result (λ s.
        Counted (A.counts acceptor).faults (A.counts s.acceptor).faults
        ⊎ Counted (A.counts acceptor).ends (A.counts s.acceptor).ends
        ⊎ (0 < connections) × (length s.reports.items ≡ connections)
        ⊎ (is_stopped limits s.book.state.past ≡ true)) }
    ensures within { IfOk result
        (λ s. 0 < connections → length s.reports.items ≤ connections) }
    ensures history { IfOk result (λ s. Stands limits s.reports.items s.book) }
    ensures kept { IfOk result (λ s. s.reports.each ≡ not (connections == 0)) }
{
    let (book, share) = links.open::<L>();
    let (left, leaving) = gone.open::<E>();
    let Opened { lock, seat, posted } = opened;
    let bells = Bells::new(alloc, posted);
    let crew = Crew::new(seat, share, leaving, Reports::new(alloc, connections != 0));
    let dispatcher = Mutex::new(Dispatcher::new(acceptor, connections, book, left));
    let crew = fan_out(
        rt,
        alloc,
        &dispatcher,
        &lock,
        clock,
        gate,
        &bells,
        crew,
        workers,
    );
    let (seat, mut share, mut leaving, reports) = crew.apart();
    let (acceptor, stage) = dispatcher.into_inner().end(&mut share, &mut leaving);
    let Ok(book) = lock.close(seat) else {
        unreachable!()
    };
    let Some(reports) = reports else {
        return Err(NoMemory);
    };
    let reports = reports.in_order();
    let accept_failed = match stage {
        Stage::NoMemory => return Err(NoMemory),
        Stage::Failed => true,
        _ => false,
    };
    Ok(Served {
        book,
        reports,
        accept_failed,
        acceptor,
    })
}

/// Serves the acceptor's links by so many workers, until it is closed or failed, or gave so many
/// links, or a SHUTDOWN ran; 0 is no limit. With a limit each report is kept, and without one their
/// totals, so that a connection that came and went takes no memory here.
pub fn serve_all<
    A: Acceptor + Watching + Send + Drop,
    C: Clock + Sync,
    G: Gate + Sync,
    R: Threads + Wait + Sync,
>(
    rt: &R,
    alloc: Global,
    limits: Limits,
    acceptor: A,
    clock: &C,
    gate: &G,
    workers: u64,
    connections: u64,
) -> Result<Served<A>, NoMemory>
where
    A::Link: Watched,
    requires limits { AreValid limits }
    requires workers { (1 ≤ workers) × (workers ≤ 64) }
    ensures given { IfOk result (λ s. still (A.left acceptor)
        ≡ after_giving (length s.reports.items) (still (A.left s.acceptor))) }
    ensures failed { IfOk result (λ s. s.accept_failed ≡ true
        → Counted (A.counts acceptor).faults (A.counts s.acceptor).faults) }
    ensures sound { IfOk result (λ s. s.accept_failed ≡ false
        → (A.counts s.acceptor).faults ≡ (A.counts acceptor).faults) }
    ensures over { IfOk result (λ s.
        Counted (A.counts acceptor).faults (A.counts s.acceptor).faults
        ⊎ Counted (A.counts acceptor).ends (A.counts s.acceptor).ends
        ⊎ (0 < connections) × (length s.reports.items ≡ connections)
        ⊎ (is_stopped limits s.book.state.past ≡ true)) }
    ensures within { IfOk result
        (λ s. 0 < connections → length s.reports.items ≤ connections) }
    ensures history { IfOk result (λ s. Stands limits s.reports.items s.book) }
    ensures complete { IfOk result (λ s.
        ¬ Counted (A.counts acceptor).faults (A.counts s.acceptor).faults
        → Completes limits connections (A.counts acceptor) (A.counts s.acceptor) s.reports.items
        s.book s.accept_failed) }
    ensures kept { IfOk result (λ s. s.reports.each ≡ not (connections == 0)) }
{
    let opened = open_told(alloc, limits)?;
    serve_named::<Brand, Brand, A, C, G, R>(
        rt,
        alloc,
        limits,
        opened,
        acceptor,
        clock,
        gate,
        Blank::new(workers * PARTS),
        Blank::new(workers * PARTS),
        workers,
        connections,
    )
}
