//! The fields of a hash behind a pointer, so that a key that holds a string has no room for them.
ghost use Rattle.std.specs.Prelude.{◌≡◌, ◌+◌, ◌-◌, ◌<◌, ◌^◌, [], IfOk, OnOk, OnErr, is_some, not};
ghost use Rattle.std.specs.Prelude.{false, if◌then◌else◌, option_map, slice_get, length};
ghost use Rattle.resp_value.specs.Tree.{in_turn};
ghost use Rattle.command_words.specs.Hashes.{field_get, field_set, field_remove, set_all};
ghost use Rattle.command_words.specs.Hashes.{remove_all};
ghost use Rattle.keyspace.specs.Places.{all_placed, placed_back};

use super::field_table::FieldTable;
use super::placed::Placed;
use resp_value::{NoMemory, Octets};
use std::alloc::Global;
use std::marker::Model;

/// The fields of a hash with their values; contracts see the list of pairs, whose names differ.
#[derive(Drop)]
pub struct Fields {
    alloc: Global,
    /// None until the first field comes.
    table: Option<Box<FieldTable>>,
}

impl Model for Fields {
    ghost use Rattle.std.specs.Prelude.{ℕ, List, []};
    ghost use Rattle.std.specs.Option.{option_map_or};

    ghost Value = { List (List ℕ × List ℕ) };

    ghost view = { λ f. option_map_or (λ table. table.value) f.table [] };
}

impl Fields {
    /// No fields; takes no memory yet.
    pub fn new(alloc: Global) -> Fields
        ensures { result ≡ [] }
    {
        Fields { alloc, table: None }
    }

    /// An equal list of fields, in the allocator of this one.
    pub fn copy(&self) -> Result<Fields, NoMemory>
        ensures { IfOk result (λ fields. fields ≡ self.now) }
    {
        let alloc = self.alloc;
        match &self.table {
            None => Ok(Fields { alloc, table: None }),
            Some(table) => {
                let table = Some(Box::new(alloc, table.copy()?)?);
                Ok(Fields { alloc, table })
            }
        }
    }

    /// The number of fields.
    pub fn len(&self) -> u64
        ensures len { result ≡ length self.now }
        ensures small { result < 2 ^ 63 }
    {
        match &self.table {
            None => 0,
            Some(table) => table.len(),
        }
    }

    /// The value of the field.
    pub fn get(&self, field: &[u8]) -> Option<&Octets>
        ensures { option_map (λ value. value.now) result ≡ field_get field.now self.now }
    {
        match &self.table {
            None => None,
            Some(table) => table.get(field),
        }
    }

    /// The field at this place in order of first insertion, with its value.
    pub fn at(&self, place: usize) -> Option<(&[u8], &Octets)>
        ensures { option_map (λ p. (p.0.now, p.1.now)) result ≡ slice_get self.now place }
    {
        match &self.table {
            None => None,
            Some(table) => table.at(place),
        }
    }

    /// Gives the field this value, in its place, or last where it is new; the answer is the value
    /// that it had. Its name is copied only where it is new.
    pub fn put(&mut self, field: &[u8], value: Octets) -> Result<Option<Octets>, NoMemory>
        ensures ok { OnOk result (self.new ≡ field_set field.now value self.old) }
        ensures had { IfOk result (λ had. had ≡ field_get field.now self.old) }
        ensures err { OnErr result (self.new ≡ self.old) }
    {
        match &mut self.table {
            Some(table) => table.put(field, value),
            None => {
                let mut table = FieldTable::new(self.alloc);
                let had = table.put(field, value)?;
                self.table = Some(Box::new(self.alloc, table)?);
                Ok(had)
            }
        }
    }

    /// Gives the field this value, in its place, or last where it is new: then the answer is true.
    pub fn set(&mut self, field: &[u8], value: Octets) -> Result<bool, NoMemory>
        ensures ok { OnOk result (self.new ≡ field_set field.now value self.old) }
        ensures is_new { IfOk result (λ b. b ≡ not (is_some (field_get field.now self.old))) }
        ensures err { OnErr result (self.new ≡ self.old) }
    {
        match &mut self.table {
            Some(table) => table.set(field, value),
            None => {
                let mut table = FieldTable::new(self.alloc);
                let is_new = table.set(field, value)?;
                self.table = Some(Box::new(self.alloc, table)?);
                Ok(is_new)
            }
        }
    }

    /// Sets fields from left to right, given in turn with their values; the answer is how many of
    /// them are new.
    pub fn set_all(&mut self, words: &[Octets]) -> Result<u64, NoMemory>
        ensures ok { OnOk result (self.new ≡ set_all (in_turn words.now) self.old) }
        ensures added { IfOk result (λ n. n ≡ length self.new - length self.old) }
        ensures small { IfOk result (λ n. n < 2 ^ 63) }
        ensures err { OnErr result (self.new ≡ self.old) }
    {
        match &mut self.table {
            Some(table) => table.set_all(words),
            None => {
                let mut table = FieldTable::new(self.alloc);
                let added = table.set_all(words)?;
                self.table = Some(Box::new(self.alloc, table)?);
                Ok(added)
            }
        }
    }

    /// Takes the field out, if it is there; the others keep their order. It moves the fields after
    /// that one.
    pub fn remove(&mut self, field: &[u8]) -> bool
        ensures gone { self.new ≡ field_remove field.now self.old }
        ensures was { result ≡ is_some (field_get field.now self.old) }
        ensures len { length self.new + (if result then 1 else 0) ≡ length self.old }
        ensures kept { result ≡ false → self.new ≡ self.old }
    {
        match &mut self.table {
            None => false,
            Some(table) => table.remove(field),
        }
    }

    /// Takes these fields out, each with the place that it had then; the others keep their order.
    /// Each moves the fields after it, and none is copied.
    pub fn take_all(&mut self, names: &[Octets]) -> Result<Vec<Placed>, NoMemory>
        ensures gone { OnOk result (self.new ≡ remove_all names.now self.old) }
        ensures went { IfOk result (λ v. length v.items ≡ length self.old - length self.new) }
        ensures kept { IfOk result (λ v. length v.items ≡ 0 → self.new ≡ self.old) }
        ensures back { IfOk result (λ v. placed_back (all_placed v.items) self.new ≡ self.old) }
        ensures err { OnErr result (self.new ≡ self.old) }
    {
        match &mut self.table {
            None => FieldTable::new(self.alloc).take_all(names),
            Some(table) => table.take_all(names),
        }
    }

    /// Fields that were taken out go to their places again, the last one first; one that is there
    /// stays as it is. Each moves the fields after it.
    pub fn put_back(&mut self, taken: &[Placed]) -> Result<(), NoMemory>
        ensures ok { OnOk result (self.new ≡ placed_back (all_placed taken.now) self.old) }
        ensures err { OnErr result (self.new ≡ self.old) }
    {
        match &mut self.table {
            Some(table) => table.put_back(taken),
            None => {
                let mut table = FieldTable::new(self.alloc);
                table.put_back(taken)?;
                self.table = Some(Box::new(self.alloc, table)?);
                Ok(())
            }
        }
    }
}
