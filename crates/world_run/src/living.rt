//! Which links may still move something, as far as that is known.
ghost use Rattle.std.specs.Prelude.{◌≡◌, ◌<◌, [], ℕ, OnOk, OnErr, length, max, slice_index_or};

use resp_value::NoMemory;
use std::alloc::Global;
use std::marker::Model;

/// For each place how far the links from there on are known to be over. Contracts see the list of
/// these places; 0 stands where nothing is known.
#[derive(Drop)]
pub struct Living {
    next: Vec<usize>,
}

impl Model for Living {
    ghost use Rattle.std.specs.Prelude.{ℕ, List};

    ghost Value = { List ℕ };

    ghost view = { λ l. l.next.items };
}

impl Living {
    /// Nothing is known; takes no memory yet.
    pub fn new(alloc: Global) -> Living
        ensures { result ≡ [] }
    {
        Living {
            next: Vec::new(alloc),
        }
    }

    /// The first place from this one on whose link is not known to be over.
    pub fn next(&self, from: usize) -> usize
        ensures { result ≡ max from (slice_index_or self.now from 0) }
    {
        match self.next.get(from) {
            Some(next) => from.max(*next),
            None => from,
        }
    }

    /// The links from the one place on and before the other are over.
    pub fn note(&mut self, from: usize, next: usize) -> Result<(), NoMemory>
        ensures ok { OnOk result (slice_index_or self.new from 0 ≡ next) }
        ensures err { OnErr result (slice_index_or self.new from 0
            ≡ slice_index_or self.old from 0) }
        ensures others { (at : ℕ) → (at ≡ from → ⊥)
            → slice_index_or self.new at 0 ≡ slice_index_or self.old at 0 }
    {
        self.reach(from)?;
        self.next[from] = next;
        Ok(())
    }

    // Nothing is known of the places up to this one that were not told.
    fn reach(&mut self, at: usize) -> Result<(), NoMemory>
        ensures there { OnOk result (at < length self.new) }
        ensures same { (k : ℕ) → slice_index_or self.new k 0 ≡ slice_index_or self.old k 0 }
    {
        'reach: while self.next.len() <= at {
            self.next.push(0)?;
        }
        Ok(())
    }
}
