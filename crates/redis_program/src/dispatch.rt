//! The top call: the words of a command line, and what they ask for.
ghost use Rattle.std.specs.Prelude.{◌≡◌, None, Some, IfSome, map, string_bytes};
ghost use Rattle.edge_links.specs.Counts.{Counted};
ghost use Rattle.command_line.specs.declared.settings.Asked.TheVariants as asked;
ghost use Rattle.command_line.specs.declared.settings.LimitSettings.{LimitSettings};
ghost use Rattle.command_line.specs.declared.settings.ScriptSettings.{ScriptSettings};
ghost use Rattle.command_line.specs.declared.settings.ServeSettings.{ServeSettings};
ghost use Rattle.command_line.specs.declared.settings.StormSettings.{StormSettings};
ghost use Rattle.command_line.specs.Commands.{command_of};
ghost use Rattle.serve_run.specs.Written.{NetFailed};
ghost use Rattle.redis_program.specs.declared.status.Status.TheVariants as status;
ghost use Rattle.redis_program.specs.Complete.{IsAccepting, ScriptCompletes, ServeCompletes};
ghost use Rattle.redis_program.specs.Headline.{Comes, EndsAs, IsVerdict, UsageGives, Writes};
ghost use Rattle.redis_program.specs.Headline.{limits_of, text_lines};
ghost use Rattle.redis_program.specs.Scripting.{AsksForScript, ScriptGives};
ghost use Rattle.redis_program.specs.Serving.{AsksToServe, ServeGives};
ghost use Rattle.redis_program.specs.Storming.{AsksForStorm, StormEnds};

use super::progress::{Progress, Terminal};
use super::schedule::{run_world, write_no_memory};
use super::script::run_script;
use super::serve::run_serve;
use super::status::Status;
use super::storm::run_storm;
use command_line::{Asked, LimitSettings, read_words};
use conn_pool::Served;
use edge_lines::{SinkFailed, write_all};
use edge_links::{Clock, Net, Sink, Source};
use resp_value::NoMemory;
use script_program::ScriptSession;
use serial_model::Limits;
use socket_links::{Wakeable, Watched, Watching};
use std::alloc::Global;
use std::sync::Wait;
use std::thread::Threads;
use world_run::law_one_history;

/// What a run of the program came to, with what a server served and the session of a script.
#[derive(Drop)]
pub struct Outcome<N: Net> {
    pub status: Status,
    pub served: Option<Served<N::Acceptor>>,
    pub session: Option<ScriptSession<N::Link>>,
}

/// Runs the program on the words behind its name. Those that ask for `world` have the schedule on
/// the input played, which is `run_world`; those that ask for `storm` have the schedule of a number
/// played, which is `run_storm`; those that ask for `serve` have what connects served over the net,
/// which is `run_serve`; and those that ask for `script` have the script on the input played over
/// links that the net dials, which is `run_script`. Words outside the definition are answered by
/// the line `usage`, and nothing is read.
///
/// What is promised of bytes holds where the source and the sink make theirs known, as those in
/// memory do. The body is the same over every source and sink, so over the standard streams it
/// does the same with the bytes that the system gives and takes; and if the call returns there,
/// which no proof says of a read that waits, the rest of the promises hold too.
pub fn run<R: Threads + Wait + Terminal + Sync, S: Source, K: Sink, N: Net, C: Clock + Sync>(
    rt: &R,
    alloc: Global,
    words: &[String],
    input: &mut S,
    output: &mut K,
    net: &mut N,
    clock: &C,
) -> Outcome<N>
where
    N::Link: Wakeable + Watched,
    N::Acceptor: Watching,
    ensures usage { command_of (map string_bytes words.now) ≡ None
        → UsageGives result.status (K.contents output.old) (K.contents output.new) }
    ensures usage_only { result.status ≡ status.Usage
        → command_of (map string_bytes words.now) ≡ None }
    ensures unread { command_of (map string_bytes words.now) ≡ None → input.new ≡ input.old }
    ensures inputless { AsksForStorm (map string_bytes words.now) → input.new ≡ input.old }
    ensures offline { ¬ AsksToServe (map string_bytes words.now)
        → ¬ AsksForScript (map string_bytes words.now) → net.new ≡ net.old }
    ensures unserved { ¬ AsksToServe (map string_bytes words.now) → result.served ≡ None }
    ensures unplayed { ¬ AsksForScript (map string_bytes words.now) → result.session ≡ None }
    ensures world { (settings : LimitSettings)
        → command_of (map string_bytes words.now) ≡ Some (asked.World settings)
        → Writes (Comes (limits_of settings) (S.left input.old) (S.left input.new)) result.status
        (K.contents output.old) (K.contents output.new) }
    ensures exact { (settings : LimitSettings)
        → command_of (map string_bytes words.now) ≡ Some (asked.World settings)
        → IfSome (S.left input.old)
        (λ text. Writes (EndsAs (limits_of settings) (text_lines text)) result.status
        (K.contents output.old) (K.contents output.new)) }
    ensures complete { (settings : LimitSettings)
        → command_of (map string_bytes words.now) ≡ Some (asked.World settings)
        → ¬ Counted (S.counts input.old).faults (S.counts input.new).faults
        → ¬ Counted (K.counts output.old).faults (K.counts output.new).faults
        → IfSome (S.left input.old)
        (λ text. IsVerdict (limits_of settings) (text_lines text) result.status) }
    ensures storm { (settings : StormSettings)
        → command_of (map string_bytes words.now) ≡ Some (asked.Storm settings)
        → Writes (StormEnds settings.number settings.steps) result.status
        (K.contents output.old) (K.contents output.new) }
    ensures serve { (settings : ServeSettings)
        → command_of (map string_bytes words.now) ≡ Some (asked.Serve settings)
        → ServeGives settings N.Acceptor.counts N.Acceptor.left result.served result.status
        (K.contents output.old) (K.contents output.new) (N.counts net.old) (N.counts net.new) }
    ensures served { (settings : ServeSettings)
        → command_of (map string_bytes words.now) ≡ Some (asked.Serve settings)
        → ¬ Counted (N.counts net.old).faults (N.counts net.new).faults
        → ¬ Counted (K.counts output.old).faults (K.counts output.new).faults
        → IsAccepting N.Acceptor.counts result.served
        → ServeCompletes settings N.Acceptor.counts result.served result.status }
    ensures script { (settings : ScriptSettings)
        → command_of (map string_bytes words.now) ≡ Some (asked.Script settings)
        → ScriptGives settings N.Link.left N.Link.contents N.Link.counts
        (S.left input.old) result.session result.status
        (S.counts input.old) (S.counts input.new) (N.counts net.old) (N.counts net.new)
        (K.contents output.old) (K.contents output.new) }
    ensures played { (settings : ScriptSettings)
        → command_of (map string_bytes words.now) ≡ Some (asked.Script settings)
        → ¬ Counted (S.counts input.old).faults (S.counts input.new).faults
        → ¬ Counted (N.counts net.old).faults (N.counts net.new).faults
        → ¬ Counted (K.counts output.old).faults (K.counts output.new).faults
        → ScriptCompletes settings N.Link.left N.Link.contents N.Link.counts
        (S.left input.old) result.session result.status }
    ensures net { result.status ≡ status.NetFault
        → NetFailed result.served (N.counts net.old) (N.counts net.new) }
    ensures done { ¬ AsksToServe (map string_bytes words.now)
        → ¬ AsksForStorm (map string_bytes words.now) → result.status ≡ status.Done
        → Counted (S.counts input.old).ends (S.counts input.new).ends }
    ensures read { result.status ≡ status.ReadFault
        → Counted (S.counts input.old).faults (S.counts input.new).faults }
    ensures write { result.status ≡ status.WriteFault
        → Counted (K.counts output.old).faults (K.counts output.new).faults }
{
    let asked = match read_words(alloc, words) {
        Ok(Some(asked)) => asked,
        Ok(None) => return Outcome {
            status: refuse(output),
            served: None,
            session: None,
        },
        Err(NoMemory) => {
            // of no line too
            law_one_history();
            return Outcome {
                status: write_no_memory(output),
                served: None,
                session: None,
            };
        }
    };
    match asked {
        Asked::World(settings) => Outcome {
            status: run_world(alloc, limits_of(settings), input, output),
            served: None,
            session: None,
        },
        Asked::Storm(settings) => Outcome {
            status: run_storm(
                alloc,
                settings.number,
                settings.steps,
                &mut Progress::new(rt, clock),
                output,
            ),
            served: None,
            session: None,
        },
        Asked::Serve(settings) => run_serve(rt, alloc, settings, output, net, clock),
        Asked::Script(settings) => run_script(rt, alloc, &settings, input, output, net),
    }
}

pub fn limits_of(settings: LimitSettings) -> Limits
    ensures { result ≡ limits_of settings }
{
    Limits {
        table_max: settings.table_max,
        out_max: settings.out_max,
        history_max: settings.history_max,
    }
}

/// Answers words that are not understood.
pub fn refuse<K: Sink>(output: &mut K) -> Status
    ensures gives { UsageGives result (K.contents output.old) (K.contents output.new) }
    ensures known { ¬ (result ≡ status.NoMemory) }
    ensures write { result ≡ status.WriteFault
        → Counted (K.counts output.old).faults (K.counts output.new).faults }
{
    match write_all(output, b"usage\n") {
        Ok(()) => Status::Usage,
        Err(SinkFailed) => Status::WriteFault,
    }
}
