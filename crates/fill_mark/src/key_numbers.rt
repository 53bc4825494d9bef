//! The numbers that each key is marked with.
ghost use Rattle.std.specs.Prelude.{◌≡◌, ◌++◌, ◌∷◌, [], IfOk, OnOk, OnErr};
ghost use Rattle.std.specs.FinMap as finite;
ghost use Rattle.fill_mark.specs.Tables.{numbers_at, marked_among};

use super::numbered::NumberedMarks;
use indexmap::IndexMap;
use resp_value::NoMemory;
use std::alloc::Global;
use std::marker::Model;

/// Numbers by key. A number stays until its key goes or gets a number, also where its mark went.
#[derive(Debug, Drop)]
pub struct KeyNumbers {
    table: IndexMap<Vec<u8>, Vec<u64>>,
}

impl Model for KeyNumbers {
    ghost use Rattle.std.specs.Prelude.{map};
    ghost use Rattle.std.specs.FinMap as finite;
    ghost use Rattle.std.specs.Coded.{coded_list, coded_ℕ};
    ghost use Rattle.fill_mark.specs.Tables.{KeyIndex};

    ghost Value = { KeyIndex };

    ghost coded = { finite.code (coded_list coded_ℕ) (coded_list coded_ℕ) };

    ghost view = { λ k. finite.from_entries (map (λ p. (p.0.items, p.1.items)) k.table.entries) };
}

// Those of the numbers that are marked, with room for one more.
fn marked_among(alloc: Global, numbers: &[u64], marks: &NumberedMarks) -> Result<Vec<u64>, NoMemory>
    ensures { IfOk result (λ v. v.items ≡ marked_among marks.now numbers.now) }
{
    let mut marked = Vec::new(alloc);
    marked.reserve(1)?;
    for number in numbers {
        if marks.query_of(*number).is_some() {
            marked.push(*number)?;
        }
    }
    Ok(marked)
}

impl KeyNumbers {
    /// No keys.
    pub fn new(alloc: Global) -> KeyNumbers
        ensures { result ≡ finite.empty }
    {
        KeyNumbers {
            table: IndexMap::new(alloc),
        }
    }

    pub fn numbers(&self, key: &[u8]) -> &[u64]
        ensures { result.now ≡ numbers_at key.now self.now }
    {
        match self.table.get(key) {
            Some(numbers) => numbers.as_slice(),
            None => &[],
        }
    }

    /// The key has this number too; those of its numbers that are not marked go.
    pub fn add(&mut self, key: &[u8], number: u64, marks: &NumberedMarks) -> Result<(), NoMemory>
        ensures ok { OnOk result (self.new ≡ finite.insert self.old key.now
            (marked_among marks.now (numbers_at key.now self.old) ++ number ∷ [])) }
        ensures err { OnErr result (self.new ≡ self.old) }
    {
        let alloc = *self.table.allocator();
        let mut numbers = marked_among(alloc, self.numbers(key), marks)?;
        numbers.push(number)?;
        self.table.insert(Vec::from_slice(alloc, key)?, numbers)?;
        Ok(())
    }

    /// The key has no numbers any more.
    pub fn remove(&mut self, key: &[u8])
        ensures { self.new ≡ finite.remove self.old key.now }
    {
        let _ = self.table.swap_remove(key);
    }

    /// No key has numbers any more.
    pub fn clear(&mut self)
        ensures { self.new ≡ finite.empty }
    {
        self.table.clear();
    }
}
