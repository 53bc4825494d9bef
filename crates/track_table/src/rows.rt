//! Rows in order of age, of which each is found by its key.
ghost use Rattle.std.specs.Prelude.{◌≡◌, ◌++◌, ◌∷◌, [], OnOk, OnErr, IfSome, IfNone};
ghost use Rattle.std.specs.Prelude.{◌<◌, ◌≤◌, ◌+◌, ◌==◌, ◌^◌, IfOk, length, option_to_list};
ghost use Rattle.std.specs.Prelude.{vec_capacity, vec_len, ℕ, true, false};
ghost use Rattle.std.specs.List.{list_any};
ghost use Rattle.std.specs.BTreeMap.{IsOrdered, is_at};
ghost use Rattle.std.specs.Map.{remove_entry};
ghost use Rattle.std.specs.Ordering.{nat_cmp};
ghost use Rattle.std.specs.declared.ops.Bound.TheVariants.{Excluded, Unbounded};
ghost use Rattle.std.specs.BTreeMap.Range.{entries_between};
ghost use Rattle.track_table.specs.Aged.{AllBelow, IsHeldAt, IsIndexed, IsWritten, grown, rows_of};
ghost use Rattle.track_table.specs.Marks.{IsIn, IsOut, IsPut};
ghost use Rattle.track_table.specs.Holdings.{HoldsLess, KeepsOthers, has_age, holds_at};
ghost use Rattle.track_table.specs.Aside.{first_key, parted_of};
ghost use Rattle.track_table.specs.Table.{freed_of};
ghost use Rattle.id_set.specs.Ids.{Ascend};
ghost use Rattle.track_table.specs.Order.{IsTable};
ghost use Rattle.track_table.specs.Table.{holders_of, released, remembered, without_connection};
ghost use Rattle.track_table.specs.Table.{without_key};

use super::aside::Parted;
use super::holdings::Holdings;
use super::marks::{age_of, drop_age, put_age};
use super::table::Held;
use id_set::IdSet;
use resp_value::{NoMemory, Octets};
use std::alloc::Global;
use std::collections::{BTreeMap, BTreeSet};
use std::marker::Model;
use std::ops::Bound;

/// Rows by age, with what the age of each key is found by, and the ages of each connection.
#[derive(Drop)]
pub struct AgedRows {
    alloc: Global,
    rows: BTreeMap<u64, Held>,
    marks: BTreeMap<u64, u64>,
    others: BTreeMap<Vec<u8>, u64>,
    held: Holdings,
}

impl Model for AgedRows {
    ghost use Rattle.std.specs.Prelude.{List};
    ghost use Rattle.track_table.specs.declared.table.Held.{Held};
    ghost use Rattle.track_table.specs.Aged.{rows_of};
    ghost use Rattle.track_table.specs.Holdings.{IsKept};

    ghost Value = { List Held };

    ghost view = { λ a. rows_of a.rows.entries };

    ghost invariant = { λ a.
        IsKept a.rows.entries a.marks.entries a.others.entries a.held.ages.entries };
}

// An age above those of all rows.
fn next_age(rows: &BTreeMap<u64, Held>) -> Option<u64>
    ensures { IfSome result (λ age. AllBelow age rows.now.entries) }
{
    match rows.last_key_value() {
        Some((last, _)) => last.checked_add(1),
        None => Some(0),
    }
}

fn put_last(rows: &mut BTreeMap<u64, Held>, age: u64, row: Held) -> Result<(), NoMemory>
    requires { AllBelow age rows.old.entries }
    ensures ok { OnOk result (rows.new.entries ≡ rows.old.entries ++ (age, row) ∷ []) }
    ensures found { OnOk result (IsIn age row rows.old.entries rows.new.entries) }
    ensures err { OnErr result (rows.new.entries ≡ rows.old.entries) }
    ensures order { IsOrdered nat_cmp rows.new }
{
    rows.insert(age, row)?;
    Ok(())
}

// The row of the key goes last, in its age.
fn put_row(
    alloc: Global,
    rows: &mut BTreeMap<u64, Held>,
    marks: &mut BTreeMap<u64, u64>,
    others: &mut BTreeMap<Vec<u8>, u64>,
    row: Held,
    key: &[u8],
    age: u64,
) -> Result<(), NoMemory>
    requires { AllBelow age rows.old.entries }
    ensures ok { OnOk result (rows.new.entries ≡ rows.old.entries ++ (age, row) ∷ []) }
    ensures found { OnOk result (IsIn age row rows.old.entries rows.new.entries) }
    ensures put { OnOk result (IsPut key.now age marks.old.entries marks.new.entries
        others.old.entries others.new.entries) }
    ensures err { OnErr result ((rows.new.entries ≡ rows.old.entries)
        × (marks.new.entries ≡ marks.old.entries) × (others.new.entries ≡ others.old.entries)) }
    ensures order { IsOrdered nat_cmp rows.new }
{
    put_last(rows, age, row)?;
    match put_age(alloc, marks, others, key, age) {
        Ok(()) => Ok(()),
        Err(_) => {
            take_out(rows, age);
            Err(NoMemory)
        }
    }
}

fn take_out(rows: &mut BTreeMap<u64, Held>, age: u64)
    ensures entries { rows.new.entries ≡ remove_entry (is_at (nat_cmp age)) rows.old.entries }
    ensures found { IsOut age rows.old.entries rows.new.entries }
    ensures order { IsOrdered nat_cmp rows.new }
{
    let _ = rows.remove(&age);
}

fn add_holder(rows: &mut BTreeMap<u64, Held>, age: u64, id: u64) -> Result<(), NoMemory>
    ensures ok { OnOk result (IsWritten age (grown id) rows.old.entries rows.new.entries) }
    ensures err { OnErr result (rows.new.entries ≡ rows.old.entries) }
    ensures order { IsOrdered nat_cmp rows.new }
{
    if let Some(row) = rows.get_mut(&age) {
        row.holders.insert(id)?;
    }
    Ok(())
}

// Whether the key is held still.
fn take_holder(rows: &mut BTreeMap<u64, Held>, age: u64, id: u64) -> bool
    ensures row { IsWritten age (freed_of id) rows.old.entries rows.new.entries }
    ensures held { IsHeldAt age result rows.new.entries }
    ensures order { IsOrdered nat_cmp rows.new }
{
    match rows.get_mut(&age) {
        Some(row) => {
            row.holders.remove(id);
            !row.holders.as_slice().is_empty()
        }
        None => false,
    }
}

// The connection holds the row of this age no more.
fn release_at(
    rows: &mut BTreeMap<u64, Held>,
    marks: &mut BTreeMap<u64, u64>,
    others: &mut BTreeMap<Vec<u8>, u64>,
    id: u64,
    age: u64,
)
    requires { IsIndexed rows.old.entries marks.old.entries others.old.entries }
    ensures indexed { IsIndexed rows.new.entries marks.new.entries others.new.entries }
    ensures rows { without_connection id (rows_of rows.new.entries)
        ≡ without_connection id (rows_of rows.old.entries) }
    ensures less { HoldsLess rows.old.entries rows.new.entries }
    ensures gone { holds_at id age rows.new.entries ≡ false }
{
    let Some(_) = rows.get(&age) else {
        return;
    };
    if take_holder(rows, age, id) {
        return;
    }
    if let Some(row) = rows.remove(&age) {
        drop_age(marks, others, row.key(), age);
    }
}

// The connection holds none of the rows, of which it may hold those of these ages.
fn release_ages(
    rows: &mut BTreeMap<u64, Held>,
    marks: &mut BTreeMap<u64, u64>,
    others: &mut BTreeMap<Vec<u8>, u64>,
    id: u64,
    ages: BTreeSet<u64>,
)
    requires indexed { IsIndexed rows.old.entries marks.old.entries others.old.entries }
    requires all { (a : ℕ) → holds_at id a rows.old.entries ≡ true → has_age a ages.keys ≡ true }
    ensures indexed { IsIndexed rows.new.entries marks.new.entries others.new.entries }
    ensures rows { rows_of rows.new.entries ≡ without_connection id (rows_of rows.old.entries) }
    ensures less { HoldsLess rows.old.entries rows.new.entries }
    ensures gone { (a : ℕ) → holds_at id a rows.new.entries ≡ false }
{
    let mut left = ages;
    'ages: while let Some(age) = left.pop_first() {
        release_at(rows, marks, others, id, age);
    }
}

// The age is among those of nobody that holds its row.
fn drop_held(rows: &BTreeMap<u64, Held>, held: &mut Holdings, age: u64)
    ensures { KeepsOthers age held.old.ages.entries held.new.ages.entries }
{
    match rows.get(&age) {
        Some(row) => held.remove_all(row.holders(), age),
        None => {}
    }
}

// A copy of the key of the row that is next in age.
fn key_behind(rows: &BTreeMap<u64, Held>, age: u64) -> Result<Option<Octets>, NoMemory>
    ensures { IfOk result (λ key. key
        ≡ first_key (rows_of (entries_between nat_cmp (Excluded age) Unbounded rows.now.entries))) }
{
    match rows.range((Bound::Excluded(age), Bound::Unbounded)).next() {
        Some((_, row)) => Ok(Some(row.key.copy()?)),
        None => Ok(None),
    }
}

impl AgedRows {
    /// No rows. It takes no memory.
    pub fn new(alloc: Global) -> AgedRows
        ensures { result ≡ [] }
    {
        AgedRows {
            alloc,
            rows: BTreeMap::new(alloc),
            marks: BTreeMap::new(alloc),
            others: BTreeMap::new(alloc),
            held: Holdings::new(alloc),
        }
    }

    /// How many rows there are.
    pub fn len(&self) -> usize
        ensures count { result ≡ length self.now }
        ensures small { result < 2 ^ 63 }
        ensures table { IsTable self.now }
    {
        self.rows.len()
    }

    /// The holders of a key, in ascending order.
    pub fn holders(&self, key: &[u8]) -> &[u64]
        ensures list { result.now ≡ holders_of key.now self.now }
        ensures ascending { Ascend result.now }
    {
        match age_of(&self.rows, &self.marks, &self.others, key) {
            Some(age) => match self.rows.get(&age) {
                Some(row) => row.holders(),
                None => &[],
            },
            None => &[],
        }
    }

    pub fn holds(&self, id: u64, key: &[u8]) -> bool
        ensures { result ≡ list_any (λ h. h == id) (holders_of key.now self.now) }
    {
        self.holders(key).contains(&id)
    }

    /// A copy of the key of the oldest row.
    pub fn first_key(&self) -> Result<Option<Octets>, NoMemory>
        ensures { IfOk result (λ key. key ≡ first_key self.now) }
    {
        match self.rows.first_key_value() {
            Some((_, row)) => Ok(Some(row.key.copy()?)),
            None => Ok(None),
        }
    }

    // The connection holds a key that nobody held.
    fn push(&mut self, id: u64, row: Held, key: &[u8]) -> Result<(), NoMemory>
        requires key { key.now ≡ row.key }
        requires holders { row.holders ≡ id ∷ [] }
        requires table { IsTable (self.old ++ row ∷ []) }
        ensures ok { OnOk result (self.new ≡ self.old ++ row ∷ []) }
        ensures err { OnErr result (self.new ≡ self.old) }
    {
        let Some(age) = next_age(&self.rows) else {
            return Err(NoMemory);
        };
        self.held.add(id, age)?;
        let rows = &mut self.rows;
        match put_row(
            self.alloc,
            rows,
            &mut self.marks,
            &mut self.others,
            row,
            key,
            age,
        ) {
            Ok(()) => Ok(()),
            Err(_) => {
                self.held.remove(id, age);
                Err(NoMemory)
            }
        }
    }

    /// The connection holds the key, besides those that hold it already.
    pub fn remember(&mut self, id: u64, key: &[u8]) -> Result<(), NoMemory>
        ensures ok { OnOk result (self.new ≡ remembered id key.now self.old) }
        ensures err { OnErr result (self.new ≡ self.old) }
    {
        if self.holds(id, key) {
            return Ok(());
        }
        match age_of(&self.rows, &self.marks, &self.others, key) {
            Some(age) => {
                self.held.add(id, age)?;
                match add_holder(&mut self.rows, age, id) {
                    Ok(()) => Ok(()),
                    Err(_) => {
                        self.held.remove(id, age);
                        Err(NoMemory)
                    }
                }
            }
            None => {
                let text = Octets::from_slice(self.alloc, key)?;
                let mut holders = IdSet::new(self.alloc);
                holders.insert(id)?;
                self.push(id, Held { key: text, holders }, key)
            }
        }
    }

    /// The connection holds the key no more. It takes no memory.
    pub fn release(&mut self, id: u64, key: &[u8])
        ensures { self.new ≡ released id key.now self.old }
    {
        if let Some(age) = age_of(&self.rows, &self.marks, &self.others, key) {
            self.held.remove(id, age);
            if !take_holder(&mut self.rows, age, id) {
                take_out(&mut self.rows, age);
                drop_age(&mut self.marks, &mut self.others, key, age);
            }
        }
    }

    /// No connection holds the key any more. It takes no memory.
    pub fn forget_key(&mut self, key: &[u8])
        ensures { self.new ≡ without_key key.now self.old }
    {
        if let Some(age) = age_of(&self.rows, &self.marks, &self.others, key) {
            drop_held(&self.rows, &mut self.held, age);
            take_out(&mut self.rows, age);
            drop_age(&mut self.marks, &mut self.others, key, age);
        }
    }

    /// The row with the key, which goes, and the key of the row behind it.
    pub fn part(&mut self, key: &[u8]) -> Result<Option<Parted>, NoMemory>
        ensures parted { IfOk result (λ parted. parted ≡ parted_of key.now self.old) }
        ensures rows { OnOk result (self.new ≡ without_key key.now self.old) }
        ensures err { OnErr result (self.new ≡ self.old) }
    {
        let Some(age) = age_of(&self.rows, &self.marks, &self.others, key) else {
            return Ok(None);
        };
        let next = key_behind(&self.rows, age)?;
        drop_held(&self.rows, &mut self.held, age);
        let Some(row) = self.rows.remove(&age) else {
            return Ok(None);
        };
        drop_age(&mut self.marks, &mut self.others, key, age);
        Ok(Some(Parted { row, next }))
    }

    /// The rows go last among others, where there is room for them. It takes no memory.
    pub fn move_onto(&mut self, out: &mut Vec<Held>)
        requires { vec_len out.old + length self.old ≤ vec_capacity out.old }
        ensures rows { out.new.items ≡ out.old.items ++ self.old }
        ensures room { vec_capacity out.old ≤ vec_capacity out.new }
        ensures none { self.new ≡ [] }
    {
        'rows: while let Some(row) = self.pop_first() {
            out.push_reserved(row);
        }
    }

    /// The oldest row, which goes.
    pub fn pop_first(&mut self) -> Option<Held>
        ensures rows { self.old ≡ option_to_list result ++ self.new }
        ensures none { IfNone result (self.old ≡ []) }
    {
        let (age, row) = self.rows.pop_first()?;
        self.held.remove_all(row.holders(), age);
        drop_age(&mut self.marks, &mut self.others, row.key(), age);
        Some(row)
    }

    /// The connection holds no key any more. It goes through what it held, and takes no memory.
    pub fn forget_connection(&mut self, id: u64)
        ensures { self.new ≡ without_connection id self.old }
    {
        if let Some(ages) = self.held.take(id) {
            release_ages(&mut self.rows, &mut self.marks, &mut self.others, id, ages);
        }
    }

    /// No rows are left. It takes no memory.
    pub fn clear(&mut self)
        ensures { self.new ≡ [] }
    {
        self.rows.clear();
        self.marks.clear();
        self.others.clear();
        self.held.clear();
    }
}
