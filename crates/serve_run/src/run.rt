//! The run of a server, from its listening to its reports.
ghost use Rattle.std.specs.Prelude.{◌≡◌, ◌≤◌, IfSome, Some};
ghost use Rattle.serial_model.specs.Steps.{AreValid};
ghost use Rattle.serve_run.specs.Reports.{names_each};
ghost use Rattle.serve_run.specs.Runs.{NetGave, Runs, ServesAll};

use super::notices::Notices;
use super::report::put_lines;
use conn_pool::{Served, serve_all};
use edge_links::{Clock, Net, NetFailed};
use resp_value::NoMemory;
use serial_model::Limits;
use socket_links::{Watched, Watching};
use std::alloc::Global;
use std::sync::Wait;
use std::thread::Threads;

/// How the run of a server ends.
#[derive(Clone, Copy, Debug, PartialEq, Eq)]
pub enum ServeEnd {
    Done,
    /// The net did not listen, or its acceptor failed.
    NetFault,
    NoMemory,
}

/// What a server came to. `text` has a line for each report, in order of their ids, or without a
/// limit of connections one for each way to end; where memory ran out there may be fewer.
#[derive(Drop)]
pub struct ServeRun<A> {
    pub served: Option<Served<A>>,
    pub text: Vec<u8>,
    pub end: ServeEnd,
}

/// Listens at the port, and serves what connects there by so many workers, until no more connects,
/// so many connections came, or a SHUTDOWN ran; 0 is no limit. What a person at it should know
/// meanwhile goes to standard error.
pub fn serve<N: Net, C: Clock + Sync, R: Threads + Wait + Eprint + Sync>(
    rt: &R,
    alloc: Global,
    limits: Limits,
    port: u16,
    workers: u64,
    connections: u64,
    net: &mut N,
    clock: &C,
) -> ServeRun<N::Acceptor>
where
    N::Link: Watched,
    N::Acceptor: Watching,
    requires limits { AreValid limits }
    requires workers { (1 ≤ workers) × (workers ≤ 64) }
    ensures served { IfSome result.served (λ s. ServesAll limits connections
        N.Acceptor.counts N.Acceptor.left s) }
    ensures runs { Runs connections result.served result.text.items result.end }
    ensures net { NetGave result.served result.end (N.counts net.old) (N.counts net.new) }
{
    let text = Vec::new(alloc);
    let acceptor = match net.listen(port) {
        Ok(acceptor) => acceptor,
        Err(NetFailed) => {
            return ServeRun {
                served: None,
                text,
                end: ServeEnd::NetFault,
            };
        }
    };
    let gate = Notices::new(rt);
    gate.begin(port, workers);
    match serve_all(
        rt,
        alloc,
        limits,
        acceptor,
        clock,
        &gate,
        workers,
        connections,
    ) {
        Ok(served) => report(alloc, served, connections),
        Err(NoMemory) => ServeRun {
            served: None,
            text,
            end: ServeEnd::NoMemory,
        },
    }
}

// What was served, with the lines of its reports.
fn report<A>(alloc: Global, served: Served<A>, connections: u64) -> ServeRun<A>
    requires each { served.reports.each ≡ names_each connections }
    ensures served { result.served ≡ Some served }
    ensures runs { Runs connections result.served result.text.items result.end }
{
    let mut text = Vec::new(alloc);
    let end = match put_lines(alloc, &served.reports, &mut text) {
        Ok(()) if served.accept_failed => ServeEnd::NetFault,
        Ok(()) => ServeEnd::Done,
        Err(NoMemory) => ServeEnd::NoMemory,
    };
    ServeRun {
        served: Some(served),
        text,
        end,
    }
}
