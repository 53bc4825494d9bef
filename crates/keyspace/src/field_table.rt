//! The fields of a hash, in order of first insertion.
ghost use Rattle.std.specs.Prelude.{◌≡◌, ◌+◌, ◌-◌, ◌<◌, ◌^◌, [], IfOk, OnOk, OnErr, is_some, not};
ghost use Rattle.std.specs.Prelude.{false, if◌then◌else◌};
ghost use Rattle.std.specs.Prelude.{option_map, option_to_list, slice_get, length, vec_len};
ghost use Rattle.std.specs.Prelude.{vec_capacity, ◌≤◌};
ghost use Rattle.resp_value.specs.Tree.{in_turn};
ghost use Rattle.command_words.specs.Hashes.{field_get, field_set, field_remove, set_all};
ghost use Rattle.command_words.specs.Hashes.{remove_all};
ghost use Rattle.keyspace.specs.Places.{all_placed, placed_back};

use super::copies::{copies_in_turn, insert_in_room};
use super::placed::{Placed, copies_of, put_in_room};
use indexmap::IndexMap;
use resp_value::{NoMemory, Octets};
use std::alloc::Global;
use std::marker::Model;
use std::mem;

/// The fields of a hash with their values; contracts see the list of pairs, whose names differ.
#[derive(Drop)]
pub(crate) struct FieldTable {
    table: IndexMap<Vec<u8>, Octets>,
}

impl Model for FieldTable {
    ghost use Rattle.std.specs.Prelude.{ℕ, List, map};

    ghost Value = { List (List ℕ × List ℕ) };

    ghost view = { λ f. map (λ p. (p.0.items, p.1)) f.table.entries };
}

impl FieldTable {
    /// No fields; takes no memory yet.
    pub fn new(alloc: Global) -> FieldTable
        ensures { result ≡ [] }
    {
        FieldTable {
            table: IndexMap::new(alloc),
        }
    }

    /// An equal list of fields, in the allocator of this one.
    pub fn copy(&self) -> Result<FieldTable, NoMemory>
        ensures { IfOk result (λ table. table ≡ self.now) }
    {
        let mut table = IndexMap::new(*self.table.allocator());
        table.reserve(self.table.len())?;
        'fields: for place in 0..self.table.len() {
            let Some((field, value)) = self.at(place) else {
                unreachable!();
            };
            let name = Vec::from_slice(*self.table.allocator(), field)?;
            insert_in_room(&mut table, name, value.copy()?);
        }
        Ok(FieldTable { table })
    }

    /// The number of fields.
    pub fn len(&self) -> u64
        ensures len { result ≡ length self.now }
        ensures small { result < 2 ^ 63 }
    {
        self.table.len() as u64
    }

    /// The value of the field.
    pub fn get(&self, field: &[u8]) -> Option<&Octets>
        ensures { option_map (λ value. value.now) result ≡ field_get field.now self.now }
    {
        self.table.get(field)
    }

    /// The field at this place in order of first insertion, with its value.
    pub fn at(&self, place: usize) -> Option<(&[u8], &Octets)>
        ensures { option_map (λ p. (p.0.now, p.1.now)) result ≡ slice_get self.now place }
    {
        match self.table.get_index(place) {
            Some((field, value)) => Some((field.as_slice(), value)),
            None => None,
        }
    }

    /// Gives the field this value, in its place, or last where it is new; the answer is the value
    /// that it had. Its name is copied only where it is new.
    pub fn put(&mut self, field: &[u8], value: Octets) -> Result<Option<Octets>, NoMemory>
        ensures ok { OnOk result (self.new ≡ field_set field.now value self.old) }
        ensures had { IfOk result (λ had. had ≡ field_get field.now self.old) }
        ensures err { OnErr result (self.new ≡ self.old) }
    {
        match self.table.get_mut(field) {
            Some(place) => Ok(Some(mem::replace(place, value))),
            None => {
                let name = Vec::from_slice(*self.table.allocator(), field)?;
                let old = self.table.insert(name, value)?;
                Ok(old)
            }
        }
    }

    /// Gives the field this value, in its place, or last where it is new: then the answer is true.
    pub fn set(&mut self, field: &[u8], value: Octets) -> Result<bool, NoMemory>
        ensures ok { OnOk result (self.new ≡ field_set field.now value self.old) }
        ensures is_new { IfOk result (λ b. b ≡ not (is_some (field_get field.now self.old))) }
        ensures err { OnErr result (self.new ≡ self.old) }
    {
        let name = Vec::from_slice(*self.table.allocator(), field)?;
        let old = self.table.insert(name, value)?;
        Ok(old.is_none())
    }

    /// Sets fields from left to right, given in turn with their values; the answer is how many of
    /// them are new.
    pub fn set_all(&mut self, words: &[Octets]) -> Result<u64, NoMemory>
        ensures ok { OnOk result (self.new ≡ set_all (in_turn words.now) self.old) }
        ensures added { IfOk result (λ n. n ≡ length self.new - length self.old) }
        ensures small { IfOk result (λ n. n < 2 ^ 63) }
        ensures err { OnErr result (self.new ≡ self.old) }
    {
        let pairs = copies_in_turn(*self.table.allocator(), words)?;
        self.table.reserve(pairs.len())?;
        let before = self.table.len();
        'pairs: for (field, value) in pairs {
            insert_in_room(&mut self.table, field, value);
        }
        Ok((self.table.len() - before) as u64)
    }

    /// Takes the field out, if it is there; the others keep their order. It moves the fields after
    /// that one.
    pub fn remove(&mut self, field: &[u8]) -> bool
        ensures gone { self.new ≡ field_remove field.now self.old }
        ensures was { result ≡ is_some (field_get field.now self.old) }
        ensures len { length self.new + (if result then 1 else 0) ≡ length self.old }
        ensures kept { result ≡ false → self.new ≡ self.old }
    {
        self.table.shift_remove(field).is_some()
    }

    /// Takes the field out with its place, if it is there. It moves the fields after that one.
    fn take(&mut self, field: &[u8]) -> Option<Placed>
        ensures gone { self.new ≡ field_remove field.now self.old }
        ensures len { length self.new + (if is_some result then 1 else 0) ≡ length self.old }
        ensures back { placed_back (all_placed (option_to_list result)) self.new ≡ self.old }
    {
        // `len` is called for its clause that the names differ, which the proof cites.
        let _len = self.table.len();
        let (place, field, value) = self.table.shift_remove_full(field)?;
        Some(Placed {
            place,
            field,
            value,
        })
    }

    /// Takes the field out, if it is there; what went goes last. There is room for it.
    fn take_into(&mut self, field: &[u8], taken: &mut Vec<Placed>)
        requires { vec_len taken.old < vec_capacity taken.old }
        ensures gone { self.new ≡ field_remove field.now self.old }
        ensures went { length taken.new.items + length self.new
            ≡ length taken.old.items + length self.old }
        ensures back { placed_back (all_placed taken.new.items) self.new
            ≡ placed_back (all_placed taken.old.items) self.old }
        ensures len { vec_len taken.new ≤ vec_len taken.old + 1 }
        ensures capacity { vec_capacity taken.new ≡ vec_capacity taken.old }
    {
        if let Some(placed) = self.take(field) {
            taken.push_reserved(placed);
        }
    }

    /// Takes these fields out, each with the place that it had then; the others keep their order.
    /// Each moves the fields after it, and none is copied.
    pub fn take_all(&mut self, names: &[Octets]) -> Result<Vec<Placed>, NoMemory>
        ensures gone { OnOk result (self.new ≡ remove_all names.now self.old) }
        ensures went { IfOk result (λ v. length v.items ≡ length self.old - length self.new) }
        ensures kept { IfOk result (λ v. length v.items ≡ 0 → self.new ≡ self.old) }
        ensures back { IfOk result (λ v. placed_back (all_placed v.items) self.new ≡ self.old) }
        ensures err { OnErr result (self.new ≡ self.old) }
    {
        let mut taken = Vec::new(*self.table.allocator());
        taken.reserve(names.len())?;
        let mut left = names;
        'names: while let [name, others @ ..] = left {
            self.take_into(name.as_slice(), &mut taken);
            left = others;
        }
        Ok(taken)
    }

    /// Fields that were taken out go to their places again, the last one first; one that is there
    /// stays as it is. Each moves the fields after it.
    pub fn put_back(&mut self, taken: &[Placed]) -> Result<(), NoMemory>
        ensures ok { OnOk result (self.new ≡ placed_back (all_placed taken.now) self.old) }
        ensures err { OnErr result (self.new ≡ self.old) }
    {
        let mut left = copies_of(*self.table.allocator(), taken)?;
        self.table.reserve(left.len())?;
        'taken: while let Some(placed) = left.pop() {
            put_in_room(&mut self.table, placed);
        }
        Ok(())
    }
}
