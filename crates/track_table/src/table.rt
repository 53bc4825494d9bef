//! The table of remembered keys.
ghost use Rattle.std.specs.Prelude.{◌≡◌, ◌==◌, ◌-◌, ◌<◌, ℕ, List, [], true, OnOk, OnErr};
ghost use Rattle.std.specs.Prelude.{◌+◌, ◌++◌, IfOk, drop, false, length};
ghost use Rattle.std.specs.List.{list_any};
ghost use Rattle.track_table.specs.Table.{TableState, all_released, dropped, holders_of, kept};
ghost use Rattle.track_table.specs.Table.{released, remembered, with_keys, without_connection};
ghost use Rattle.track_table.specs.Table.{without_key, without_keys};
ghost use Rattle.id_set.specs.Ids.{Ascend};
ghost use Rattle.track_table.specs.Order.{IsTable};
ghost use Rattle.track_table.specs.Places.{IsPlace};
ghost use Rattle.track_table.specs.Aside.{HasRoom, all_put, first_key};

use super::aside::{Aside, Parted, put_all_back};
use super::rows::AgedRows;
use id_set::IdSet;
use resp_value::{NoMemory, Octets, Words};
use std::alloc::Global;
use std::marker::Model;

/// A remembered key, with the connections that hold it.
#[derive(Drop)]
pub struct Held {
    pub(super) key: Octets,
    pub(super) holders: IdSet,
}

impl Held {
    pub fn key(&self) -> &[u8]
        ensures { result.now ≡ self.now.key }
    {
        self.key.as_slice()
    }

    /// In ascending order.
    pub fn holders(&self) -> &[u64]
        ensures { result.now ≡ self.now.holders }
    {
        self.holders.as_slice()
    }
}

// The place of the first row with the key.
pub(super) fn place_of(rows: &[Held], key: &[u8]) -> Option<usize>
    ensures { IsPlace key.now rows.now result }
{
    for (place, row) in rows.iter().enumerate() {
        if row.key.as_slice() == key {
            return Some(place);
        }
    }
    None
}

// A copy of the key of the row behind this place.
fn key_behind(oldest: &[Held], young: &AgedRows, place: usize) -> Result<Option<Octets>, NoMemory>
    requires { place < length oldest.now }
    ensures { IfOk result (λ key. key ≡ first_key (drop (place + 1) (oldest.now ++ young.now))) }
{
    match oldest.get(place + 1) {
        Some(row) => Ok(Some(row.key.copy()?)),
        None => young.first_key(),
    }
}

// What the connection held among these rows, all but the rows that nobody holds.
fn forget_among(rows: &mut Vec<Held>, id: u64)
    ensures { rows.new.items ≡ without_connection id rows.old.items }
{
    for row in rows.iter_mut() {
        row.holders.remove(id);
    }
    rows.retain(|row| !row.holders.as_slice().is_empty());
}

/// Which connections hold which keys. The keys stand in order of age: a key is as old as the time
/// since which some connection has held it without a break. A key is found by a mark of its text;
/// the oldest, where there are more than the limit, by a scan.
#[derive(Drop)]
pub struct TrackTable {
    alloc: Global,
    limit: u64,
    oldest: Vec<Held>,
    rows: AgedRows,
}

impl Model for TrackTable {
    ghost use Rattle.std.specs.Prelude.{◌++◌};
    ghost use Rattle.track_table.specs.Table.{TableState};

    ghost Value = { TableState };

    ghost view = { λ t. record { limit = t.limit; rows = t.oldest.items ++ t.rows } };

    ghost use Rattle.track_table.specs.Order.{IsWhole};

    ghost invariant = { λ t. IsWhole t.limit t.oldest.items t.rows };
}

impl TrackTable {
    /// A table of no keys, that remembers at most so many. It takes no memory.
    pub fn new(alloc: Global, limit: u64) -> TrackTable
        requires { 0 < limit }
        ensures { result ≡ record { limit = limit; rows = [] } }
    {
        TrackTable {
            alloc,
            limit,
            oldest: Vec::new(alloc),
            rows: AgedRows::new(alloc),
        }
    }

    /// How many keys have a holder.
    pub fn len(&self) -> u64
        ensures count { result ≡ length self.now.rows }
        ensures table { IsTable self.now.rows }
    {
        self.oldest.len() as u64 + self.rows.len() as u64
    }

    /// The holders of a key, in ascending order.
    pub fn holders(&self, key: &[u8]) -> &[u64]
        ensures list { result.now ≡ holders_of key.now self.now.rows }
        ensures ascending { Ascend result.now }
    {
        match place_of(&self.oldest, key) {
            Some(place) => self.oldest[place].holders.as_slice(),
            None => self.rows.holders(key),
        }
    }

    /// The connection holds the key, besides those that hold it already.
    pub fn remember(&mut self, id: u64, key: &[u8]) -> Result<(), NoMemory>
        ensures limit { self.new.limit ≡ self.old.limit }
        ensures ok { OnOk result (self.new.rows ≡ remembered id key.now self.old.rows) }
        ensures err { OnErr result (self.new.rows ≡ self.old.rows) }
    {
        match place_of(&self.oldest, key) {
            Some(place) => {
                let row = &mut self.oldest[place];
                row.holders.insert(id)?;
                Ok(())
            }
            None => {
                self.oldest.reserve(1)?;
                self.rows.remember(id, key)?;
                if self.rows.len() as u64 > self.limit {
                    if let Some(row) = self.rows.pop_first() {
                        self.oldest.push_reserved(row);
                    }
                }
                Ok(())
            }
        }
    }

    fn holds(&self, id: u64, key: &[u8]) -> bool
        ensures { result ≡ list_any (λ h. h == id) (holders_of key.now self.now.rows) }
    {
        self.holders(key).contains(&id)
    }

    // Where the connection does not hold the key yet, it goes last among those that are new.
    fn remember_new(&mut self, id: u64, key: &[u8], new: &mut Words) -> Result<(), NoMemory>
        ensures limit { self.new.limit ≡ self.old.limit }
        ensures ok { OnOk result (self.new.rows ≡ remembered id key.now self.old.rows) }
        ensures back { OnOk result (all_released id new.new self.new.rows
            ≡ all_released id new.old self.old.rows) }
        ensures err { OnErr result ((self.new.rows ≡ self.old.rows) × (new.new ≡ new.old)) }
    {
        let alloc = self.alloc;
        if self.holds(id, key) {
            return Ok(());
        }
        let copy = Octets::from_slice(alloc, key)?;
        self.remember(id, key)?;
        match new.push(copy) {
            Ok(()) => Ok(()),
            Err(_) => {
                self.release(id, key);
                Err(NoMemory)
            }
        }
    }

    /// The connection holds these keys too. It answers those that it did not hold: once these are
    /// released the table is as before.
    pub fn remember_all(&mut self, id: u64, keys: &[Octets]) -> Result<Words, NoMemory>
        ensures limit { self.new.limit ≡ self.old.limit }
        ensures ok { OnOk result (self.new.rows ≡ with_keys id keys.now self.old.rows) }
        ensures back { IfOk result (λ new. all_released id new self.new.rows ≡ self.old.rows) }
        ensures err { OnErr result (self.new.rows ≡ self.old.rows) }
    {
        let mut new = Words::new(self.alloc);
        for (place, key) in keys.iter().enumerate() {
            match self.remember_new(id, key.as_slice(), &mut new) {
                Ok(()) => {}
                Err(_) => {
                    self.release_all(id, new.as_slice());
                    return Err(NoMemory);
                }
            }
        }
        Ok(new)
    }

    // The connection holds the key no more.
    fn release(&mut self, id: u64, key: &[u8])
        ensures limit { self.new.limit ≡ self.old.limit }
        ensures rows { self.new.rows ≡ released id key.now self.old.rows }
    {
        match place_of(&self.oldest, key) {
            Some(place) => {
                let row = &mut self.oldest[place];
                row.holders.remove(id);
                if row.holders.as_slice().is_empty() {
                    drop(self.oldest.remove(place));
                }
            }
            None => self.rows.release(id, key),
        }
    }

    /// The connection holds these keys no more; the last is released first. It takes no memory.
    pub fn release_all(&mut self, id: u64, keys: &[Octets])
        ensures limit { self.new.limit ≡ self.old.limit }
        ensures rows { self.new.rows ≡ all_released id keys.now self.old.rows }
    {
        let mut left = keys.len();
        'keys: while left > 0 {
            left -= 1;
            self.release(id, keys[left].as_slice());
        }
    }

    /// No connection holds the key any more. It takes no memory.
    pub fn forget_key(&mut self, key: &[u8])
        ensures limit { self.new.limit ≡ self.old.limit }
        ensures rows { self.new.rows ≡ without_key key.now self.old.rows }
    {
        self.oldest.retain(|row| row.key.as_slice() != key);
        self.rows.forget_key(key);
    }

    // The row with the key goes, and is the last of those that went.
    fn part(&mut self, key: &[u8], parted: &mut Vec<Parted>) -> Result<(), NoMemory>
        ensures limit { self.new.limit ≡ self.old.limit }
        ensures rows { OnOk result (self.new.rows ≡ without_key key.now self.old.rows) }
        ensures back { OnOk result (all_put parted.new.items self.new.rows
            ≡ all_put parted.old.items self.old.rows) }
        ensures err { OnErr result ((self.new.rows ≡ self.old.rows)
            × (parted.new.items ≡ parted.old.items)) }
    {
        parted.reserve(1)?;
        match place_of(&self.oldest, key) {
            Some(place) => {
                let next = key_behind(&self.oldest, &self.rows, place)?;
                let row = self.oldest.remove(place);
                parted.push_reserved(Parted { row, next });
            }
            None => {
                if let Some(row) = self.rows.part(key)? {
                    parted.push_reserved(row);
                }
            }
        }
        Ok(())
    }

    // Whether any of these keys has a holder.
    fn remembers_any(&self, keys: &[Octets]) -> bool
        requires { IsTable self.now.rows }
        ensures { result ≡ false → without_keys keys.now self.now.rows ≡ self.now.rows }
    {
        for (place, key) in keys.iter().enumerate() {
            if !self.holders(key.as_slice()).is_empty() {
                return true;
            }
        }
        false
    }

    /// No connection holds these keys any more. They can be put back, which takes no memory.
    pub fn set_aside(&mut self, keys: &[Octets]) -> Result<Aside, NoMemory>
        ensures limit { self.new.limit ≡ self.old.limit }
        ensures rows { OnOk result (self.new.rows ≡ without_keys keys.now self.old.rows) }
        ensures back { IfOk result (λ aside. all_put aside.parted self.new.rows ≡ self.old.rows) }
        ensures room { IfOk result (λ aside. HasRoom aside self.new.rows) }
        ensures err { OnErr result (self.new.rows ≡ self.old.rows) }
    {
        let count = self.len() as usize;
        let mut parted = Vec::new(self.alloc);
        if !self.remembers_any(keys) {
            let spare = Vec::new(self.alloc);
            return Ok(Aside { parted, spare });
        }
        let spare = Vec::with_capacity(self.alloc, count)?;
        for (place, key) in keys.iter().enumerate() {
            match self.part(key.as_slice(), &mut parted) {
                Ok(()) => {}
                Err(_) => {
                    self.put_back(Aside { parted, spare });
                    return Err(NoMemory);
                }
            }
        }
        Ok(Aside { parted, spare })
    }

    /// The keys are held as before they were set aside. It takes no memory.
    pub fn put_back(&mut self, aside: Aside)
        requires table { IsTable (all_put aside.parted self.old.rows) }
        requires room { HasRoom aside self.old.rows }
        ensures limit { self.new.limit ≡ self.old.limit }
        ensures rows { self.new.rows ≡ all_put aside.parted self.old.rows }
    {
        let Aside { parted, spare } = aside;
        if parted.is_empty() {
            return;
        }
        let mut rows = spare;
        let _ = rows.append(&mut self.oldest);
        self.rows.move_onto(&mut rows);
        put_all_back(&mut rows, parted);
        self.oldest = rows;
    }

    /// The connection holds no key any more. It goes through what it held, and takes no memory.
    pub fn forget_connection(&mut self, id: u64)
        ensures limit { self.new.limit ≡ self.old.limit }
        ensures rows { self.new.rows ≡ without_connection id self.old.rows }
    {
        forget_among(&mut self.oldest, id);
        self.rows.forget_connection(id);
    }

    /// No key is held any more. It takes no memory.
    pub fn clear(&mut self)
        ensures limit { self.new.limit ≡ self.old.limit }
        ensures rows { self.new.rows ≡ [] }
    {
        self.oldest.clear();
        self.rows.clear();
    }

    // How many keys there are past the limit.
    fn over(&self) -> usize
        ensures { result ≡ length self.now.rows - self.now.limit }
    {
        self.len().saturating_sub(self.limit) as usize
    }

    /// The keys past the limit, the oldest first.
    pub fn over_limit(&self) -> &[Held]
        ensures { result.now ≡ dropped self.now.limit self.now.rows }
    {
        let over = self.over();
        &self.oldest[..over]
    }

    /// Drops the keys past the limit. It takes no memory.
    pub fn drop_over_limit(&mut self)
        ensures limit { self.new.limit ≡ self.old.limit }
        ensures rows { self.new.rows ≡ kept self.old.limit self.old.rows }
    {
        let over = self.over();
        let left = self.oldest.len() - over;
        self.oldest.rotate_left(over);
        self.oldest.truncate(left);
    }
}
