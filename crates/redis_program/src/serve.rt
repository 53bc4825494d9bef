//! The run of a server, by its settings, and its status.
ghost use Rattle.std.specs.Prelude.{◌≡◌, ◌≤◌, None};
ghost use Rattle.edge_links.specs.Counts.{Counted};
ghost use Rattle.serial_model.specs.Steps.{AreValid};
ghost use Rattle.serve_run.specs.Written.{NetFailed};
ghost use Rattle.redis_program.specs.declared.status.Status.TheVariants as status;
ghost use Rattle.redis_program.specs.Headline.{limits_of};
ghost use Rattle.redis_program.specs.Serving.{ServeGives, served_status};

use super::dispatch::{Outcome, limits_of};
use super::status::Status;
use command_line::ServeSettings;
use edge_lines::SinkFailed;
use edge_links::{Clock, Net, Sink};
use serve_run::{ServeEnd, WrittenRun, serve_and_write};
use socket_links::{Watched, Watching};
use std::alloc::Global;
use std::sync::Wait;
use std::thread::Threads;

/// Serves what connects at the port, and then writes a line for each connection, or without a limit
/// of them for each way to end. The last line of what is written says how the run ended, unless no
/// more came or the sink failed.
pub fn run_serve<R: Threads + Wait + Eprint + Sync, K: Sink, N: Net, C: Clock + Sync>(
    rt: &R,
    alloc: Global,
    settings: ServeSettings,
    output: &mut K,
    net: &mut N,
    clock: &C,
) -> Outcome<N>
where
    N::Link: Watched,
    N::Acceptor: Watching,
    requires limits { AreValid (limits_of settings.limits) }
    requires workers { (1 ≤ settings.workers) × (settings.workers ≤ 64) }
    ensures serve { ServeGives settings N.Acceptor.counts N.Acceptor.left result.served
        result.status (K.contents output.old) (K.contents output.new)
        (N.counts net.old) (N.counts net.new) }
    ensures net { result.status ≡ status.NetFault
        → NetFailed result.served (N.counts net.old) (N.counts net.new) }
    ensures unplayed { result.session ≡ None }
    ensures write { result.status ≡ status.WriteFault
        → Counted (K.counts output.old).faults (K.counts output.new).faults }
{
    let WrittenRun { served, end } = serve_and_write(
        rt,
        alloc,
        limits_of(settings.limits),
        settings.port,
        settings.workers,
        settings.connections,
        net,
        clock,
        output,
    );
    Outcome {
        status: status_of(end),
        served,
        session: None,
    }
}

fn status_of(end: Result<ServeEnd, SinkFailed>) -> Status
    ensures { result ≡ served_status end }
{
    match end {
        Ok(ServeEnd::Done) => Status::Done,
        Ok(ServeEnd::NetFault) => Status::NetFault,
        Ok(ServeEnd::NoMemory) => Status::NoMemory,
        Err(SinkFailed) => Status::WriteFault,
    }
}
