//! The run of a script, by its settings, and its status.
ghost use Rattle.std.specs.Prelude.{◌≡◌, ◌<◌, ◌≤◌, None, IfOk, false};
ghost use Rattle.resp_value.specs.declared.value.Proto.TheVariants.{Three};
ghost use Rattle.edge_links.specs.Counts.{Counted};
ghost use Rattle.shared_client.specs.Setups.{setup_of};
ghost use Rattle.redis_program.specs.declared.status.Status.TheVariants as status;
ghost use Rattle.redis_program.specs.Scripting.{ScriptGives, caching_by, client_of, script_status};

use super::dispatch::Outcome;
use super::schedule::write_no_memory;
use super::status::Status;
use command_line::{Caching as AskedCaching, ScriptSettings};
use edge_lines::SinkFailed;
use edge_links::{Net, Sink, Source};
use resp_value::{NoMemory, Octets, Words};
use script_program::{ScriptEnd, WrittenScript, play_and_write};
use script_run::SessionEnd;
use shared_cache::{Caching, ClientMode, Shape};
use shared_client::ClientSetup;
use socket_links::Wakeable;
use std::alloc::Global;
use std::sync::Wait;
use std::thread::Threads;

/// The most entries of a client's log.
const LOG_MAX: u64 = 4_000_000;

// How the settings ask the server to track.
fn caching_by(alloc: Global, settings: &ScriptSettings) -> Result<Caching, NoMemory>
    ensures { IfOk result (λ c. c ≡ caching_by settings.now.caching settings.now.prefix) }
{
    match settings.caching {
        AskedCaching::Default => Ok(Caching::Default),
        AskedCaching::OptIn => Ok(Caching::OptIn),
        AskedCaching::OptOut => Ok(Caching::OptOut),
        AskedCaching::Bcast => match &settings.prefix {
            None => Ok(Caching::Bcast(Words::new(alloc))),
            Some(prefix) => {
                let mut prefixes = Words::new(alloc);
                prefixes.push(Octets::from_slice(alloc, prefix.as_str().as_bytes())?)?;
                Ok(Caching::Bcast(prefixes))
            }
        },
    }
}

// The setup of the client that the settings ask for.
fn client_setup(alloc: Global, settings: &ScriptSettings) -> Result<ClientSetup, NoMemory>
    ensures { IfOk result (λ s. setup_of s ≡ client_of settings.now) }
{
    Ok(ClientSetup {
        mode: ClientMode {
            shape: if settings.redirect {
                Shape::Pair
            } else {
                Shape::Single
            },
            proto: settings.resp,
            caching: caching_by(alloc, settings)?,
            noloop: settings.noloop,
        },
        capacity: settings.capacity,
        log_max: LOG_MAX,
    })
}

/// Reads the script on the input, plays it over links that the net dials, and writes the answers
/// in the order of the lines. The last line of what is written says how the run ended, unless each
/// line was answered or the sink failed.
pub fn run_script<R: Threads + Wait + Sync, S: Source, K: Sink, N: Net>(
    rt: &R,
    alloc: Global,
    settings: &ScriptSettings,
    input: &mut S,
    output: &mut K,
    net: &mut N,
) -> Outcome<N>
where
    N::Link: Wakeable,
    requires pushes { settings.now.redirect ≡ false → settings.now.resp ≡ Three }
    requires some { 0 < settings.now.capacity }
    requires most { settings.now.capacity ≤ 1000000 }
    ensures script { ScriptGives settings.now N.Link.left N.Link.contents N.Link.counts
        (S.left input.old) result.session result.status (S.counts input.old) (S.counts input.new)
        (N.counts net.old) (N.counts net.new) (K.contents output.old) (K.contents output.new) }
    ensures unserved { result.served ≡ None }
    ensures write { result.status ≡ status.WriteFault
        → Counted (K.counts output.old).faults (K.counts output.new).faults }
{
    let Ok(setup) = client_setup(alloc, settings) else {
        return Outcome {
            status: write_no_memory(output),
            served: None,
            session: None,
        };
    };
    let WrittenScript { session, end } = play_and_write(
        rt,
        alloc,
        setup,
        settings.connect.host.as_str(),
        settings.connect.port,
        input,
        output,
        net,
    );
    Outcome {
        status: status_of(end),
        served: None,
        session,
    }
}

fn status_of(end: Result<ScriptEnd, SinkFailed>) -> Status
    ensures { result ≡ script_status end }
{
    match end {
        Ok(ScriptEnd::Played(SessionEnd::Done)) => Status::Done,
        Ok(ScriptEnd::Played(SessionEnd::LinkEnded(..))) => Status::LinkEnded,
        Ok(ScriptEnd::Played(SessionEnd::HistoryFull)) => Status::HistoryFull,
        Ok(ScriptEnd::Played(SessionEnd::NoMemory)) => Status::NoMemory,
        Ok(ScriptEnd::Played(SessionEnd::Worn)) => Status::Worn,
        Ok(ScriptEnd::BadLine(_)) => Status::BadLine,
        Ok(ScriptEnd::ReadFault) => Status::ReadFault,
        Ok(ScriptEnd::NetFault) => Status::NetFault,
        Ok(ScriptEnd::NoMemory) => Status::NoMemory,
        Err(SinkFailed) => Status::WriteFault,
    }
}
