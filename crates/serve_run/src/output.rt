//! The run of a server with what it writes of itself.
ghost use Rattle.std.specs.Prelude.{◌≡◌, ◌≤◌, Ok, IfSome, OnErr};
ghost use Rattle.edge_links.specs.Counts.{Counted};
ghost use Rattle.serial_model.specs.Steps.{AreValid};
ghost use Rattle.serve_run.specs.declared.run.ServeEnd.TheVariants.{NetFault};
ghost use Rattle.serve_run.specs.Runs.{ServesAll};
ghost use Rattle.serve_run.specs.Written.{NetFailed, RunWrites, WritesRun, end_line};

use super::run::{ServeEnd, ServeRun, serve};
use conn_pool::Served;
use edge_lines::{SinkFailed, write_all};
use edge_links::{Clock, Net, Sink};
use serial_model::Limits;
use socket_links::{Watched, Watching};
use std::alloc::Global;
use std::sync::Wait;
use std::thread::Threads;

impl ServeEnd {
    /// The last line of what is written, with its LF. There is none where all was served.
    pub fn line(self) -> &'static [u8]
        ensures { result.now ≡ end_line self }
    {
        match self {
            ServeEnd::Done => b"",
            ServeEnd::NetFault => b"net-fault\n",
            ServeEnd::NoMemory => b"no-memory\n",
        }
    }
}

/// What a server came to that wrote of it.
#[derive(Drop)]
pub struct WrittenRun<A> {
    pub served: Option<Served<A>>,
    pub end: Result<ServeEnd, SinkFailed>,
}

/// Serves, as `serve` does, and then writes the text and the last line.
pub fn serve_and_write<N: Net, C: Clock + Sync, K: Sink, R: Threads + Wait + Eprint + Sync>(
    rt: &R,
    alloc: Global,
    limits: Limits,
    port: u16,
    workers: u64,
    connections: u64,
    net: &mut N,
    clock: &C,
    output: &mut K,
) -> WrittenRun<N::Acceptor>
where
    N::Link: Watched,
    N::Acceptor: Watching,
    requires limits { AreValid limits }
    requires workers { (1 ≤ workers) × (workers ≤ 64) }
    ensures served { IfSome result.served (λ s. ServesAll limits connections
        N.Acceptor.counts N.Acceptor.left s) }
    ensures writes { WritesRun connections result.served result.end (N.counts net.old)
        (N.counts net.new) (K.contents output.old) (K.contents output.new) }
    ensures net { result.end ≡ Ok NetFault
        → NetFailed result.served (N.counts net.old) (N.counts net.new) }
    ensures write { OnErr result.end
        (Counted (K.counts output.old).faults (K.counts output.new).faults) }
{
    let ServeRun { served, text, end } = serve(
        rt,
        alloc,
        limits,
        port,
        workers,
        connections,
        net,
        clock,
    );
    let end = write_run(text.as_slice(), end, output);
    WrittenRun { served, end }
}

// Writes the lines of the run, and then the last line.
fn write_run<K: Sink>(text: &[u8], end: ServeEnd, output: &mut K) -> Result<ServeEnd, SinkFailed>
    ensures bytes { RunWrites result end text.now (K.contents output.old)
        (K.contents output.new) }
    ensures counts { OnErr result
        (Counted (K.counts output.old).faults (K.counts output.new).faults) }
{
    write_all(output, text)?;
    write_all(output, end.line())?;
    Ok(end)
}
