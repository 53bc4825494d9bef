//! The history as it is kept: its newest entries, and room for those that must not want memory.
ghost use Rattle.std.specs.Prelude.{◌≡◌, ◌∷◌, [], ◌+◌, ◌-◌, ◌<◌, ◌≤◌, OnOk, length, reverse, take};
ghost use Rattle.std.specs.Prelude.{vec_capacity, vec_len};
ghost use Rattle.serial_model.specs.History.{latest};
ghost use Rattle.server_book.specs.Log.{HasCounter, HasPlace, LogState, base, closable_after};
ghost use Rattle.server_book.specs.Log.{counted, kept, runs};

use past_entries::Past;
use resp_value::NoMemory;
use serial_model::Entry;
use std::alloc::Global;
use std::marker::Model;

/// The newest entries, and what must be known of all. Contracts see the whole history, which is in
/// no memory.
#[derive(Drop)]
pub struct Log {
    /// As soon as so many entries are kept, all are let go.
    most: u64,
    moment: u64,
    /// How many entries were let go.
    base: u64,
    recent: Vec<Entry>,
    /// How many connections can still be closed. Room is kept for their Closes.
    closable: usize,
    /// How many Runs of each connection there were.
    counts: Vec<u64>,
    past: Past<Entry>,
}

impl Model for Log {
    ghost use Rattle.std.specs.Prelude.{◌-◌, ◌^◌, length, min, vec_len, vec_capacity};
    ghost use Rattle.server_book.specs.Log.{AreCounted, IsLog, LogState};

    ghost Value = { LogState };

    ghost view = { λ g. record {
      most = g.most;
      past = g.past;
      closable = g.closable;
      free = min (vec_capacity g.recent - vec_len g.recent - g.closable)
          (2 ^ 64 - 1 - length g.past - g.closable);
      ids = vec_capacity g.counts - vec_len g.counts;
    } };

    ghost invariant = { λ g.
        IsLog g.most g.moment g.base g.closable (vec_capacity g.recent - vec_len g.recent)
        g.recent.items g.past
        × AreCounted g.counts.items g.past };
}

// Counts a connection that is new, or one more Run.
fn count(counts: &mut Vec<u64>, entry: &Entry)
    requires { let room = vec_capacity counts.old - vec_len counts.old in
        HasCounter counts.old.items room entry.now }
    ensures { counts.new.items ≡ counted counts.old.items entry.now }
{
    match entry {
        Entry::Admit { .. } => counts.push_reserved(0),
        Entry::Run { id, .. } => counts[(*id - 1) as usize] += 1,
        Entry::Tick { .. } | Entry::Take { .. } | Entry::Close { .. } => {}
    }
}

impl Log {
    pub fn new(alloc: Global, most: u64) -> Log
        requires { 0 < most }
        ensures { (result.past ≡ []) × (result.most ≡ most) × (result.closable ≡ 0) }
    {
        Log {
            most,
            moment: 0,
            base: 0,
            recent: Vec::new(alloc),
            closable: 0,
            counts: Vec::new(alloc),
            past: Past::new(),
        }
    }

    pub fn len(&self) -> u64
        ensures { result ≡ length self.now.past }
    {
        self.base + self.recent.len() as u64
    }

    /// How many entries were let go.
    pub fn base(&self) -> u64
        ensures { result ≡ base self.now.most self.now.past }
    {
        self.base
    }

    /// The entries that are kept, the first of them first.
    pub fn entries(&self) -> &[Entry]
        ensures { reverse result.now ≡ take (kept self.now.most self.now.past) self.now.past }
    {
        self.recent.as_slice()
    }

    /// How many Runs of a connection there were, where it was admitted.
    pub fn runs(&self, id: u64) -> Option<u64>
        ensures { result ≡ runs self.now.past id }
    {
        if id == 0 || id > self.counts.len() as u64 {
            return None;
        }
        Some(self.counts[(id - 1) as usize])
    }

    /// The greatest moment so far.
    pub fn moment(&self) -> u64
        ensures { result ≡ latest self.now.past }
    {
        self.moment
    }

    /// The number of the next entry, where there is a place for it.
    pub fn next(&self) -> u64
        requires { 0 < self.now.free + self.now.closable }
        ensures { result ≡ length self.now.past + 1 }
    {
        self.base + self.recent.len() as u64 + 1
    }

    /// Makes room for so many more entries and for a connection, beside what is kept for Closes.
    /// The numbers of entries can run out too.
    pub fn reserve(&mut self, more: usize) -> Result<(), NoMemory>
        ensures past { self.new.past ≡ self.old.past }
        ensures most { self.new.most ≡ self.old.most }
        ensures closable { self.new.closable ≡ self.old.closable }
        ensures ok { OnOk result ((more ≤ self.new.free) × (1 ≤ self.new.ids)) }
    {
        let left = u64::MAX - self.len() - self.closable as u64;
        if left < more as u64 {
            return Err(NoMemory);
        }
        self.counts.reserve(1)?;
        self.recent.reserve(self.closable + more)?;
        Ok(())
    }

    // The greatest moment with one more entry.
    fn moment_with(&self, entry: &Entry) -> u64
        ensures { result ≡ latest (entry.now ∷ self.now.past) }
    {
        match entry {
            Entry::Run { moment, .. } | Entry::Tick { moment } => *moment,
            Entry::Admit { .. } | Entry::Take { .. } | Entry::Close { .. } => self.moment,
        }
    }

    // How many connections can be closed after one more entry.
    fn closable_with(&self, entry: &Entry) -> usize
        requires { HasPlace self.now entry.now }
        ensures { result ≡ closable_after self.now.closable entry.now }
    {
        match entry {
            Entry::Admit { .. } => self.closable + 1,
            Entry::Run { .. } | Entry::Tick { .. } | Entry::Take { .. } => self.closable,
            Entry::Close { .. } => self.closable - 1,
        }
    }

    /// So many connections fewer can be closed. It takes no memory.
    pub fn release(&mut self, count: usize)
        requires { count ≤ self.old.closable }
        ensures past { self.new.past ≡ self.old.past }
        ensures most { self.new.most ≡ self.old.most }
        ensures closable { self.new.closable ≡ self.old.closable - count }
    {
        self.closable -= count;
    }

    /// Adds an entry where there is a place for it. It takes no memory.
    pub fn push(&mut self, entry: Entry)
        requires { HasPlace self.old entry }
        ensures past { self.new.past ≡ entry ∷ self.old.past }
        ensures most { self.new.most ≡ self.old.most }
        ensures closable { self.new.closable ≡ closable_after self.old.closable entry }
    {
        let moment = self.moment_with(&entry);
        let closable = self.closable_with(&entry);
        count(&mut self.counts, &entry);
        self.moment = moment;
        self.closable = closable;
        self.past.record(&entry);
        self.recent.push_reserved(entry);
        if self.recent.len() as u64 == self.most {
            self.base += self.most;
            self.recent.clear();
        }
    }
}
