//! The run of a storm: five lines about the schedule of a number.
ghost use Rattle.std.specs.Prelude.{◌≡◌, ◌≤◌};
ghost use Rattle.edge_links.specs.Counts.{Counted};
ghost use Rattle.world_run.specs.WorldState.{start};
ghost use Rattle.redis_program.specs.declared.status.Status.TheVariants as status;
ghost use Rattle.redis_program.specs.Headline.{Writes};
ghost use Rattle.redis_program.specs.Storming.{StormEnds, storm_limits};

#[cfg(test)]
mod tests;

use super::schedule::write_last;
use super::status::{Ending, Status};
use edge_lines::{SinkFailed, write_all};
use edge_links::Sink;
use resp_value::NoMemory;
use serial_model::Limits;
use std::alloc::Global;
use storm_run::{Unplayed, Watch, play_storm};
use world_run::{World, law_one_history};

/// Those of `world` where the words name none.
const LIMITS: Limits = Limits {
    table_max: 1_000_000,
    out_max: 8_388_608,
    history_max: 4_000_000,
};

/// Plays the schedule of a number with so many steps on a world of its own, and writes five lines
/// about it, or the one line that says why it was not played to its end. No line of its events is
/// kept.
pub fn run_storm<W: Watch, K: Sink>(
    alloc: Global,
    number: u64,
    steps: u64,
    watch: &mut W,
    output: &mut K,
) -> Status
    requires { steps ≤ 200000 }
    ensures gives { Writes (StormEnds number steps) result
        (K.contents output.old) (K.contents output.new) }
    ensures write { result ≡ status.WriteFault
        → Counted (K.counts output.old).faults (K.counts output.new).faults }
{
    match World::new(alloc, LIMITS) {
        Ok(mut world) => run_on(alloc, number, steps, &mut world, watch, output),
        Err(NoMemory) => write_last(alloc, Ending::NoMemory, output),
    }
}

/// The same on a world that was just made. It is lent, since each way out would let it go.
fn run_on<W: Watch, K: Sink>(
    alloc: Global,
    number: u64,
    steps: u64,
    world: &mut World,
    watch: &mut W,
    output: &mut K,
) -> Status
    requires fresh { world.old ≡ start storm_limits }
    requires few { steps ≤ 200000 }
    ensures gives { Writes (StormEnds number steps) result
        (K.contents output.old) (K.contents output.new) }
    ensures write { result ≡ status.WriteFault
        → Counted (K.counts output.old).faults (K.counts output.new).faults }
{
    law_one_history();
    match play_storm(alloc, number, steps, world, watch) {
        Ok(summary) => match write_all(output, summary.as_bytes()) {
            Ok(()) => Status::Done,
            Err(SinkFailed) => Status::WriteFault,
        },
        Err(Unplayed::HistoryFull) => write_last(alloc, Ending::HistoryFull, output),
        Err(Unplayed::NoMemory) => write_last(alloc, Ending::NoMemory, output),
    }
}
