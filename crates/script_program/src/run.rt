//! The run of a script with what it writes.
ghost use Rattle.std.specs.Prelude.{◌≡◌, ◌<◌, ◌≤◌, [], None, IfOk, IfSome, OnErr, OnOk, is_some};
ghost use Rattle.std.specs.List.{All};
ghost use Rattle.edge_links.specs.Counts.{Counted, FaultCounted, nought};
ghost use Rattle.script_text.specs.Scripts.{IsValidLine};
ghost use Rattle.shared_cache.specs.ClientFields.{IsClientMode};
ghost use Rattle.shared_client.specs.Setups.{setup_of};
ghost use Rattle.script_run.specs.Session.{is_pair};
ghost use Rattle.script_program.specs.declared.run.ScriptEnd.TheVariants as ended;
ghost use Rattle.script_program.specs.Complete.{Completes};
ghost use Rattle.script_program.specs.Written.{end_line, EndWrites, NoneWritten};
ghost use Rattle.script_program.specs.Written.{NotPlayed, SessionWrites, WritesScript};

use super::read::{ScriptRead, read_script};
use edge_lines::{SinkFailed, write_all};
use edge_links::{Link, Net, NetFailed, Sink, Source};
use resp_value::NoMemory;
use script_run::{Played, PumpedLink, SessionEnd, play_script, report};
use script_text::ScriptLine;
use shared_cache::Shape;
use shared_client::{ClientSetup, SharedClient};
use socket_links::Wakeable;
use std::alloc::Global;
use std::sync::Wait;
use std::thread::Threads;
use turn_lock::Closed;

/// How the run of a script ends.
#[derive(Clone, Copy, Debug, PartialEq, Eq)]
pub enum ScriptEnd {
    /// The session was played, and ended so.
    Played(SessionEnd),
    /// The first line outside the grammar; nothing was played.
    BadLine(u64),
    ReadFault,
    NetFault,
    /// Memory ran out before a session was played.
    NoMemory,
}

/// A session that was played.
#[derive(Drop)]
pub struct ScriptSession<L> {
    /// The client, with its log.
    pub client: Closed<SharedClient>,
    pub main: PumpedLink<L>,
    pub side: Option<PumpedLink<L>>,
}

/// What a script came to that wrote of it.
#[derive(Drop)]
pub struct WrittenScript<L> {
    pub session: Option<ScriptSession<L>>,
    pub end: Result<ScriptEnd, SinkFailed>,
}

/// Reads the script of the source, plays it on a client of that setup over links that the net
/// dials, Side first where there is one, and writes the answers and then the last line. Nothing is
/// dialled unless all lines are in the grammar.
pub fn play_and_write<R: Threads + Wait + Sync, S: Source, K: Sink, N: Net>(
    rt: &R,
    alloc: Global,
    setup: ClientSetup,
    host: &str,
    port: u16,
    input: &mut S,
    output: &mut K,
    net: &mut N,
) -> WrittenScript<N::Link>
where
    N::Link: Wakeable,
    requires mode { IsClientMode setup.mode }
    requires capacity { (0 < setup.capacity) × (setup.capacity ≤ 1000000) }
    requires log_max { 0 < setup.log_max }
    ensures writes { WritesScript N.Link.left N.Link.contents N.Link.counts (setup_of setup)
        (S.left input.old) result.session result.end (S.counts input.old) (S.counts input.new)
        (N.counts net.old) (N.counts net.new) (K.contents output.old) (K.contents output.new) }
    ensures write { OnErr result.end
        (Counted (K.counts output.old).faults (K.counts output.new).faults) }
    ensures complete { ¬ Counted (S.counts input.old).faults (S.counts input.new).faults
        → ¬ Counted (N.counts net.old).faults (N.counts net.new).faults
        → ¬ Counted (K.counts output.old).faults (K.counts output.new).faults
        → Completes N.Link.left N.Link.contents N.Link.counts (setup_of setup)
        (S.left input.old) result.session result.end }
{
    let lines = match read_script(alloc, input) {
        ScriptRead::Lines(lines) => lines,
        ScriptRead::BadLine(number) => return unplayed(alloc, ScriptEnd::BadLine(number), output),
        ScriptRead::Failed => return unplayed(alloc, ScriptEnd::ReadFault, output),
        ScriptRead::NoMemory => return unplayed(alloc, ScriptEnd::NoMemory, output),
    };
    match dial_all(net, host, port, setup.mode.shape) {
        Ok(links) => play_over(rt, alloc, setup, lines, links, output),
        Err(NetFailed) => unplayed(alloc, ScriptEnd::NetFault, output),
    }
}

// The links of a session.
#[derive(Drop)]
struct Links<L> {
    main: L,
    side: Option<L>,
}

// Dials a link for each that a client of this shape has, Side first.
fn dial_all<N: Net>(
    net: &mut N,
    host: &str,
    port: u16,
    shape: Shape,
) -> Result<Links<N::Link>, NetFailed>
    ensures side { IfOk result (λ l. is_some l.side ≡ is_pair shape) }
    ensures fresh { IfOk result (λ l. N.Link.counts l.main ≡ nought) }
    ensures side_fresh { IfOk result (λ l. IfSome l.side (λ k. N.Link.counts k ≡ nought)) }
    ensures same { OnOk result (N.counts net.new ≡ N.counts net.old) }
    ensures counts { OnErr result (FaultCounted (N.counts net.old) (N.counts net.new)) }
{
    let side = match shape {
        Shape::Single => None,
        Shape::Pair => Some(net.dial(host, port)?),
    };
    let main = net.dial(host, port)?;
    Ok(Links { main, side })
}

// Writes the last line of a run that played nothing.
fn unplayed<K: Sink, L>(alloc: Global, end: ScriptEnd, output: &mut K) -> WrittenScript<L>
    requires { NotPlayed end }
    ensures none { result.session ≡ None }
    ensures writes { NoneWritten end result.end (K.contents output.old) (K.contents output.new) }
    ensures write { OnErr result.end
        (Counted (K.counts output.old).faults (K.counts output.new).faults) }
{
    let end = match end {
        ScriptEnd::BadLine(number) => match format!(in alloc; "bad-line {number}\n") {
            Ok(line) => write_last(end, line.as_bytes(), output),
            Err(_) => write_last(ScriptEnd::NoMemory, b"no-memory\n", output),
        },
        ScriptEnd::ReadFault => write_last(end, b"read-fault\n", output),
        ScriptEnd::NetFault => write_last(end, b"net-fault\n", output),
        _ => write_last(ScriptEnd::NoMemory, b"no-memory\n", output),
    };
    WrittenScript { session: None, end }
}

// Writes the last line of that end.
fn write_last<K: Sink>(end: ScriptEnd, line: &[u8], output: &mut K) -> Result<ScriptEnd, SinkFailed>
    requires { line.now ≡ end_line end }
    ensures bytes { EndWrites result end [] (K.contents output.old) (K.contents output.new) }
    ensures counts { OnErr result
        (Counted (K.counts output.old).faults (K.counts output.new).faults) }
{
    write_all(output, line)?;
    Ok(end)
}

// Plays the lines over the links, and writes the answers and the last line.
fn play_over<R: Threads + Wait + Sync, K: Sink, L: Link + Wakeable + Send + Drop>(
    rt: &R,
    alloc: Global,
    setup: ClientSetup,
    lines: Vec<ScriptLine>,
    links: Links<L>,
    output: &mut K,
) -> WrittenScript<L>
    requires mode { IsClientMode setup.mode }
    requires capacity { (0 < setup.capacity) × (setup.capacity ≤ 1000000) }
    requires log_max { 0 < setup.log_max }
    requires lines { All IsValidLine lines.items }
    requires side { is_some links.side ≡ is_pair setup.mode.shape }
    requires fresh { L.counts links.main ≡ nought }
    requires side_fresh { IfSome links.side (λ l. L.counts l ≡ nought) }
    ensures writes { SessionWrites L.left L.contents L.counts (setup_of setup) lines.items
        result.session result.end (K.contents output.old) (K.contents output.new) }
    ensures write { OnErr result.end
        (Counted (K.counts output.old).faults (K.counts output.new).faults) }
{
    let Links { main, side } = links;
    let Ok(played) = play_script(rt, alloc, setup, lines, main, side) else {
        return unplayed(alloc, ScriptEnd::NoMemory, output);
    };
    let side_end = played.side_end();
    let Played {
        client,
        main,
        side,
        mut answers,
        lines,
    } = played;
    let mut text = Vec::new(alloc);
    let end = match report(
        lines.as_slice(),
        &mut answers,
        main.end,
        side_end,
        &mut text,
    ) {
        Ok(end) => end,
        Err(NoMemory) => SessionEnd::NoMemory,
    };
    let end = write_report(text.as_slice(), end, output);
    WrittenScript {
        session: Some(ScriptSession { client, main, side }),
        end,
    }
}

fn write_report<K: Sink>(
    text: &[u8],
    end: SessionEnd,
    output: &mut K,
) -> Result<ScriptEnd, SinkFailed>
    ensures bytes { EndWrites result (ended.Played end) text.now (K.contents output.old)
        (K.contents output.new) }
    ensures counts { OnErr result
        (Counted (K.counts output.old).faults (K.counts output.new).faults) }
{
    write_all(output, text)?;
    write_all(output, end.line())?;
    Ok(ScriptEnd::Played(end))
}
