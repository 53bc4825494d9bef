//! What is counted of a storm's transcript, and the five lines about a storm.
ghost use Rattle.std.specs.Prelude.{◌≡◌, ◌+◌, IfOk, OnOk, count_by, length, string_bytes};
ghost use Rattle.world_run.specs.Counts.{all_held};
ghost use Rattle.storm_run.specs.Storming.{five_lines, is_hit, is_miss};

use resp_value::NoMemory;
use script_text::{Line, Lines};
use std::alloc::Global;
use world_run::World;

/// How many answers came from a cache, and how many queries were sent.
#[derive(Clone, Copy)]
pub struct Tally {
    pub hits: u64,
    pub misses: u64,
}

impl Tally {
    /// Counts the answers among the lines.
    pub fn count(&mut self, lines: &Lines) -> Result<(), NoMemory>
        ensures hits { OnOk result (self.new.hits ≡ self.old.hits + count_by is_hit lines.now) }
        ensures misses { OnOk result
            (self.new.misses ≡ self.old.misses + count_by is_miss lines.now) }
    {
        for line in lines.as_slice() {
            match line {
                Line::Hit { .. } => self.hits = self.hits.checked_add(1).ok_or(NoMemory)?,
                Line::Miss(..) => self.misses = self.misses.checked_add(1).ok_or(NoMemory)?,
                _ => {}
            }
        }
        Ok(())
    }
}

/// The five lines about a world in which these answers were counted.
pub fn sum_up(alloc: Global, steps: u64, tally: Tally, world: &World) -> Result<String, NoMemory>
    ensures { IfOk result (λ s. string_bytes s ≡ five_lines steps (length world.now.links.past)
        tally.hits tally.misses (all_held world.now)) }
{
    let Tally { hits, misses } = tally;
    let entries = world.entries();
    let held = world.held()?;
    Ok(format!(in alloc;
        "steps {steps}\nentries {entries}\nhits {hits}\nmisses {misses}\nheld {held}\n"
    )?)
}
