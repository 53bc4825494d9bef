//! The ages of the rows that each connection holds.
ghost use Rattle.std.specs.Prelude.{◌≡◌, ◌<◌, ℕ, true, false, length, slice_index_or, OnOk};
ghost use Rattle.std.specs.Option.{option_map_or};
ghost use Rattle.track_table.specs.Holdings.{Keeps, KeepsBut, KeepsOthers, has, has_age};

use resp_value::NoMemory;
use std::alloc::Global;
use std::collections::{BTreeMap, BTreeSet};

/// The ages of each connection that has any.
#[derive(Drop)]
pub struct Holdings {
    alloc: Global,
    ages: BTreeMap<u64, BTreeSet<u64>>,
}

fn add_age(ages: &mut BTreeSet<u64>, age: u64) -> Result<(), NoMemory>
    ensures ok { OnOk result (has_age age ages.new.keys ≡ true) }
    ensures kept { (a : ℕ) → has_age a ages.old.keys ≡ true → has_age a ages.new.keys ≡ true }
{
    ages.insert(age)?;
    Ok(())
}

// Whether any age is left.
fn remove_age(ages: &mut BTreeSet<u64>, age: u64) -> bool
    ensures kept { (a : ℕ) → (a ≡ age → ⊥) → has_age a ages.old.keys ≡ true
        → has_age a ages.new.keys ≡ true }
    ensures gone { has_age age ages.new.keys ≡ false }
    ensures less { (a : ℕ) → has_age a ages.old.keys ≡ false → has_age a ages.new.keys ≡ false }
    ensures none { result ≡ false → (a : ℕ) → has_age a ages.new.keys ≡ false }
{
    let _ = ages.remove(&age);
    !ages.is_empty()
}

impl Holdings {
    /// It takes no memory.
    pub fn new(alloc: Global) -> Holdings {
        Holdings {
            alloc,
            ages: BTreeMap::new(alloc),
        }
    }

    /// The age is among those of the connection.
    pub fn add(&mut self, id: u64, age: u64) -> Result<(), NoMemory>
        ensures ok { OnOk result (has id age self.new.ages.entries ≡ true) }
        ensures kept { Keeps self.old.ages.entries self.new.ages.entries }
    {
        match self.ages.get_mut(&id) {
            Some(ages) => add_age(ages, age),
            None => {
                let mut ages = BTreeSet::new(self.alloc);
                add_age(&mut ages, age)?;
                self.ages.insert(id, ages)?;
                Ok(())
            }
        }
    }

    /// The age is no more among those of the connection. It takes no memory.
    pub fn remove(&mut self, id: u64, age: u64)
        ensures kept { KeepsBut id age self.old.ages.entries self.new.ages.entries }
        ensures gone { has id age self.new.ages.entries ≡ false }
        ensures less { (i a : ℕ) → has i a self.old.ages.entries ≡ false
            → has i a self.new.ages.entries ≡ false }
    {
        if let Some(ages) = self.ages.get_mut(&id) {
            if !remove_age(ages, age) {
                let _ = self.ages.remove(&id);
            }
        }
    }

    /// The age is among those of no connection that holds its row. It takes no memory.
    pub fn remove_all(&mut self, holders: &[u64], age: u64)
        ensures kept { KeepsOthers age self.old.ages.entries self.new.ages.entries }
        ensures gone { (n : ℕ) → n < length holders.now
            → has (slice_index_or holders.now n 0) age self.new.ages.entries ≡ false }
    {
        for (place, id) in holders.iter().enumerate() {
            self.remove(*id, age);
        }
    }

    /// The ages of a connection, which has none any more. It takes no memory.
    pub fn take(&mut self, id: u64) -> Option<BTreeSet<u64>>
        ensures ages { (a : ℕ) → has id a self.old.ages.entries
            ≡ option_map_or (λ s. has_age a s.keys) result false }
        ensures others { (i a : ℕ) → (i ≡ id → ⊥)
            → has i a self.old.ages.entries ≡ true → has i a self.new.ages.entries ≡ true }
    {
        self.ages.remove(&id)
    }

    /// It takes no memory.
    pub fn clear(&mut self) {
        self.ages.clear();
    }
}
