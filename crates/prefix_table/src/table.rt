//! The table of registered prefixes, as a list in byte order.
ghost use Rattle.std.specs.Prelude.{◌≡◌, ◌==◌, ◌++◌, [], OnOk, OnErr, IfOk, IfSome, List, ℕ};
ghost use Rattle.std.specs.Prelude.{length, option_map, true};
ghost use Rattle.id_set.specs.Ids.{Ascend};
ghost use Rattle.std.specs.Ordering.{is_lt};
ghost use Rattle.prefix_table.specs.Table.{byte_order, places_of, places_of_any, registered};
ghost use Rattle.prefix_table.specs.Table.{row_at, with_prefixes, without_connection};
ghost use Rattle.prefix_table.specs.Fronts.{IsFirstFrom, common};
ghost use Rattle.prefix_table.specs.Order.{IsTable};
ghost use Rattle.prefix_table.specs.Places.{IsPlace};
ghost use Rattle.prefix_table.specs.Withdrawals.{all_withdrawn, is_registered, withdrawn};

use id_set::IdSet;
use resp_value::{NoMemory, Octets, Words};
use std::alloc::Global;
use std::cmp::Ordering;
use std::marker::Model;

/// A prefix, with the connections that registered it.
#[derive(Drop)]
pub struct Registration {
    prefix: Octets,
    ids: IdSet,
}

impl Registration {
    fn comes_before(&self, prefix: &[u8]) -> bool
        ensures { result ≡ is_lt (byte_order self.now.prefix prefix.now) }
    {
        self.prefix.as_slice().cmp(prefix) == Ordering::Less
    }
}

// How many bytes at the front of both are the same.
fn common(a: &[u8], b: &[u8]) -> usize
    ensures { result ≡ common a.now b.now }
{
    let mut count = 0;
    'bytes: while count < a.len() && count < b.len() && a[count] == b[count] {
        count += 1;
    }
    count
}

/// The registered prefixes in byte order, each once, found by halving.
#[derive(Drop)]
pub struct PrefixTable {
    alloc: Global,
    rows: Vec<Registration>,
}

impl Model for PrefixTable {
    ghost use Rattle.std.specs.Prelude.{List};
    ghost use Rattle.prefix_table.specs.declared.table.Registration.{Registration};
    ghost use Rattle.prefix_table.specs.Order.{IsTable};

    ghost Value = { List Registration };

    ghost view = { λ t. t.rows.items };

    ghost invariant = { λ t. IsTable t.rows.items };
}

impl PrefixTable {
    /// No prefix. It takes no memory.
    pub fn new(alloc: Global) -> PrefixTable
        ensures { result ≡ [] }
    {
        PrefixTable {
            alloc,
            rows: Vec::new(alloc),
        }
    }

    pub fn is_empty(&self) -> bool
        ensures { result ≡ (length self.now == 0) }
    {
        self.rows.is_empty()
    }

    // The first place whose prefix does not come before this one, found by halving.
    fn first_from(&self, prefix: &[u8]) -> usize
        ensures { IsFirstFrom prefix.now self.now result }
    {
        let mut low = 0;
        let mut high = self.rows.len();
        'halves: while low < high {
            let middle = low + (high - low) / 2;
            if self.rows[middle].comes_before(prefix) {
                low = middle + 1;
            } else {
                high = middle;
            }
        }
        low
    }

    // The place of a prefix, or else the place where it goes.
    fn place_of(&self, prefix: &[u8]) -> Result<usize, usize>
        ensures { IsPlace prefix.now self.now result }
    {
        let place = self.first_from(prefix);
        match self.rows.get(place) {
            None => Err(place),
            Some(row) => match row.prefix.as_slice().cmp(prefix) {
                Ordering::Equal => Ok(place),
                _ => Err(place),
            },
        }
    }

    /// The connection registers the prefix, besides those that registered it already.
    pub fn add(&mut self, id: u64, prefix: &[u8]) -> Result<(), NoMemory>
        ensures ok { OnOk result (self.new ≡ registered id prefix.now self.old) }
        ensures err { OnErr result (self.new ≡ self.old) }
    {
        match self.place_of(prefix) {
            Ok(place) => {
                let row = &mut self.rows[place];
                row.ids.insert(id)?;
                Ok(())
            }
            Err(place) => {
                let prefix = Octets::from_slice(self.alloc, prefix)?;
                let mut ids = IdSet::new(self.alloc);
                ids.insert(id)?;
                self.rows.insert(place, Registration { prefix, ids })?;
                Ok(())
            }
        }
    }

    // Whether the connection registered the prefix. If so, once more changes nothing.
    fn registers(&self, id: u64, prefix: &[u8]) -> bool
        ensures is { result ≡ is_registered id prefix.now self.now }
        ensures again { result ≡ true → registered id prefix.now self.now ≡ self.now }
    {
        match self.place_of(prefix) {
            Ok(place) => self.rows[place].ids.as_slice().contains(&id),
            Err(_) => false,
        }
    }

    // Where the connection did not register the prefix yet, it goes last among those that are new.
    fn add_new(&mut self, id: u64, prefix: &[u8], new: &mut Words) -> Result<(), NoMemory>
        ensures ok { OnOk result (self.new ≡ registered id prefix.now self.old) }
        ensures back { OnOk result
            (all_withdrawn id new.new self.new ≡ all_withdrawn id new.old self.old) }
        ensures err { OnErr result ((self.new ≡ self.old) × (new.new ≡ new.old)) }
    {
        if self.registers(id, prefix) {
            return Ok(());
        }
        let copy = Octets::from_slice(self.alloc, prefix)?;
        self.add(id, prefix)?;
        match new.push(copy) {
            Ok(()) => Ok(()),
            Err(_) => {
                self.withdraw(id, prefix);
                Err(NoMemory)
            }
        }
    }

    /// The connection registers all these prefixes, besides those that registered them already.
    pub fn add_all(&mut self, id: u64, prefixes: &[Octets]) -> Result<(), NoMemory>
        ensures ok { OnOk result (self.new ≡ with_prefixes id prefixes.now self.old) }
        ensures err { OnErr result (self.new ≡ self.old) }
    {
        let mut new = Words::new(self.alloc);
        for (number, prefix) in prefixes.iter().enumerate() {
            match self.add_new(id, prefix.as_slice(), &mut new) {
                Ok(()) => {}
                Err(_) => {
                    self.withdraw_all(id, new.as_slice());
                    return Err(NoMemory);
                }
            }
        }
        Ok(())
    }

    // The connection registers the prefix no more. It takes no memory.
    fn withdraw(&mut self, id: u64, prefix: &[u8])
        ensures { self.new ≡ withdrawn id prefix.now self.old }
    {
        if let Ok(place) = self.place_of(prefix) {
            let row = &mut self.rows[place];
            row.ids.remove(id);
            if row.ids.as_slice().is_empty() {
                drop(self.rows.remove(place));
            }
        }
    }

    // The connection registers these prefixes no more; the last is withdrawn first.
    fn withdraw_all(&mut self, id: u64, prefixes: &[Octets])
        ensures { self.new ≡ all_withdrawn id prefixes.now self.old }
    {
        let mut left = prefixes.len();
        'prefixes: while left > 0 {
            left -= 1;
            self.withdraw(id, prefixes[left].as_slice());
        }
    }

    /// The connection has registered no prefix any more. It takes no memory.
    pub fn remove_connection(&mut self, id: u64)
        ensures { self.new ≡ without_connection id self.old }
    {
        for row in self.rows.iter_mut() {
            row.ids.remove(id);
        }
        self.rows.retain(|row| !row.ids.as_slice().is_empty());
    }

    /// Appends the places of the prefixes that the key starts with, in byte order of prefix. Each
    /// front of the key is looked up once, but for those that the prefix found before rules out.
    pub fn matching(&self, key: &[u8], places: &mut Vec<usize>) -> Result<(), NoMemory>
        ensures ok { OnOk result
            (places.new.items ≡ places.old.items ++ places_of key.now self.now) }
        ensures err { OnErr result (places.new.items ≡ places.old.items) }
    {
        let before = places.len();
        let mut front = 0;
        'fronts: while front <= key.len() {
            let place = self.first_from(&key[..front]);
            if place >= self.rows.len() {
                return Ok(());
            }
            let prefix = self.rows[place].prefix.as_slice();
            let common = common(prefix, key);
            if common < front {
                return Ok(());
            }
            if common == prefix.len() {
                match places.push(place) {
                    Ok(()) => {}
                    Err(_) => {
                        places.truncate(before);
                        return Err(NoMemory);
                    }
                }
            }
            front = common + 1;
        }
        Ok(())
    }

    /// The places of the prefixes that one of the keys starts with, in byte order of prefix, each
    /// once. It looks each key up, and sorts what it found.
    pub fn matching_any(&self, keys: &[Octets]) -> Result<Vec<usize>, NoMemory>
        ensures { IfOk result (λ places. places.items ≡ places_of_any keys.now self.now) }
    {
        let mut places = Vec::new(self.alloc);
        for (number, key) in keys.iter().enumerate() {
            self.matching(key.as_slice(), &mut places)?;
        }
        places.sort_unstable();
        places.dedup();
        Ok(places)
    }

    /// The prefix at a place, and the connections that registered it, in ascending order.
    pub fn at(&self, place: usize) -> Option<(&[u8], &[u64])>
        ensures row { option_map {U = List ℕ × List ℕ} (λ r. (r.0.now, r.1.now)) result
            ≡ row_at place self.now }
        ensures order { IfSome result (λ r. Ascend r.1.now) }
        ensures table { IsTable self.now }
    {
        if place < self.rows.len() {
            let row = &self.rows[place];
            Some((row.prefix.as_slice(), row.ids.as_slice()))
        } else {
            None
        }
    }
}
