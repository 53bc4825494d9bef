//! The client's log at run time: how many entries it has. The entries are for contracts alone.
ghost use Rattle.std.specs.Prelude.{◌≡◌, ◌+◌, ◌<◌, ◌≤◌, ◌∷◌, ◌^◌, [], OnOk, OnErr, length};
ghost use Rattle.shared_cache.specs.declared.log.LogEntry.TheVariants as entry;

use super::log::{LogEntry, Wire};
use past_entries::Past;
use resp_value::{NoMemory, Value};
use std::marker::Model;

/// All entries so far, which are in no memory. Contracts see the newest first.
#[derive(Drop)]
pub struct CountedLog {
    count: u64,
    past: Past<LogEntry>,
}

impl Model for CountedLog {
    ghost use Rattle.std.specs.Prelude.{◌≡◌, List, length};
    ghost use Rattle.std.specs.Coded.{codes};
    ghost use Rattle.resp_value.specs.TreeCoding.{tree_code};
    ghost use Rattle.shared_cache.specs.declared.log.LogEntry.{LogEntry};

    ghost Value = { List LogEntry };

    ghost coded = { Prim.hlevel (codes, tree_code) };

    ghost view = { λ g. g.past };

    ghost invariant = { λ g. g.count ≡ length g.past };
}

impl CountedLog {
    /// No entry.
    pub fn new() -> CountedLog
        ensures { result ≡ [] }
    {
        CountedLog {
            count: 0,
            past: Past::new(),
        }
    }

    /// How many entries there are.
    pub fn len(&self) -> u64
        ensures { result ≡ length self.now }
    {
        self.count
    }

    /// The entries.
    pub fn past(&self) -> &Past<LogEntry>
        ensures { result.now ≡ self.now }
    {
        &self.past
    }

    /// Whether so many entries more can be counted, beside those that are owed.
    pub fn reserve(&self, owed: usize, more: u64) -> Result<(), NoMemory>
        ensures ok { OnOk result (length self.now + owed + more < 2 ^ 64) }
        ensures err { OnErr result (2 ^ 64 ≤ length self.now + owed + more) }
    {
        let left = u64::MAX - self.count;
        let owed = owed as u64;
        if left < owed || left - owed < more {
            return Err(NoMemory);
        }
        Ok(())
    }

    /// Adds an entry. It takes no memory.
    pub fn record(&mut self, entry: &LogEntry)
        requires { length self.old + 1 < 2 ^ 64 }
        ensures { self.new ≡ entry.now ∷ self.old }
    {
        self.past.record(entry);
        self.count += 1;
    }

    // Adds an entry, and gives it back.
    fn recorded(&mut self, entry: LogEntry) -> LogEntry
        requires { length self.old + 1 < 2 ^ 64 }
        ensures log { self.new ≡ entry ∷ self.old }
        ensures entry { result ≡ entry }
    {
        self.record(&entry);
        entry
    }

    /// Adds a value that was got, and gives it back: nothing is copied for the log.
    pub fn record_got(&mut self, wire: Wire, value: Value) -> Value
        requires { length self.old + 1 < 2 ^ 64 }
        ensures log { self.new ≡ entry.Got wire value ∷ self.old }
        ensures value { result ≡ value }
    {
        match self.recorded(LogEntry::Got(wire, value)) {
            LogEntry::Got(_, value) => value,
            _ => unreachable!(),
        }
    }
}
