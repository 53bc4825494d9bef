//! Marks whose numbers ascend, found by number and by key.
ghost use Rattle.std.specs.Prelude.{◌≡◌, ◌<◌, [], OnOk, OnErr, option_copied};
ghost use Rattle.std.specs.List.{list_any};
ghost use Rattle.std.specs.Bool.{OnTrue};
ghost use Rattle.fill_mark.specs.declared.marks.Mark.{Mark};
ghost use Rattle.fill_mark.specs.Marks.{with_mark, query_marked, without_key, without_query};
ghost use Rattle.fill_mark.specs.Marks.{without_number};
ghost use Rattle.fill_mark.specs.Tables.{Among, is_marked, asks_of, number_of, without_listed};
ghost use Rattle.fill_mark.specs.Tables.{without_some};

use super::key_numbers::KeyNumbers;
use super::numbered::NumberedMarks;
use command_words::Query;
use resp_value::NoMemory;
use std::alloc::Global;
use std::marker::Model;

/// The marks, the oldest first.
#[derive(Debug, Drop)]
pub struct MarkTable {
    marks: NumberedMarks,
    keys: KeyNumbers,
}

impl Model for MarkTable {
    ghost use Rattle.std.specs.Prelude.{List};
    ghost use Rattle.fill_mark.specs.declared.marks.Mark.{Mark};
    ghost use Rattle.fill_mark.specs.Tables.{AreIndexed};

    ghost Value = { List Mark };

    ghost view = { λ t. t.marks };

    ghost invariant = { λ t. AreIndexed t.keys t.marks };
}

// The first of the numbers whose mark is of that query.
fn number_of(marks: &NumberedMarks, numbers: &[u64], query: &Query) -> Option<u64>
    ensures { result ≡ number_of query.now marks.now numbers.now }
{
    for number in numbers {
        if let Some(marked) = marks.query_of(*number) {
            if marked.is_same(query) {
                return Some(*number);
            }
        }
    }
    None
}

// Whether any of the numbers is marked.
fn is_any_marked(marks: &NumberedMarks, numbers: &[u64]) -> bool
    ensures { result ≡ list_any (is_marked marks.now) numbers.now }
{
    for number in numbers {
        if marks.query_of(*number).is_some() {
            return true;
        }
    }
    false
}

fn asks_of(marks: &NumberedMarks, number: u64, key: &[u8]) -> bool
    ensures { result ≡ asks_of key.now (query_marked number marks.now) }
{
    match marks.query_of(number) {
        Some(query) => query.key() == key,
        None => false,
    }
}

// The marks of the key among the numbers go.
fn void_listed(marks: &mut NumberedMarks, numbers: &[u64], key: &[u8])
    ensures { marks.new ≡ without_listed key.now numbers.now marks.old }
{
    for number in numbers {
        if asks_of(marks, *number, key) {
            let _ = marks.remove(*number);
        }
    }
}

fn void_number(marks: &mut NumberedMarks, number: Option<u64>)
    ensures { marks.new ≡ without_some number marks.old }
{
    if let Some(number) = number {
        let _ = marks.remove(number);
    }
}

impl MarkTable {
    /// No marks.
    pub fn new(alloc: Global) -> MarkTable
        ensures { result ≡ [] }
    {
        MarkTable {
            marks: NumberedMarks::new(alloc),
            keys: KeyNumbers::new(alloc),
        }
    }

    /// Whether the number is above those of all marks.
    pub fn are_below(&self, number: u64) -> bool
        ensures { OnTrue result ((m : Mark) → Among m self.now → m.number < number) }
    {
        self.marks.are_below(number)
    }

    /// A mark for a number above those of all marks; an older mark of the same query goes.
    pub fn begin(&mut self, number: u64, query: Query) -> Result<(), NoMemory>
        requires { (m : Mark) → Among m self.old → m.number < number }
        ensures ok { OnOk result (self.new ≡ with_mark number query self.old) }
        ensures err { OnErr result (self.new ≡ self.old) }
    {
        let older = number_of(&self.marks, self.keys.numbers(query.key()), &query);
        self.keys.add(query.key(), number, &self.marks)?;
        self.marks.push(number, query)?;
        void_number(&mut self.marks, older);
        Ok(())
    }

    /// The marks of that key go.
    pub fn void_key(&mut self, key: &[u8])
        ensures { self.new ≡ without_key key.now self.old }
    {
        void_listed(&mut self.marks, self.keys.numbers(key), key);
        self.keys.remove(key);
    }

    /// The mark of that query goes. Each is looked at.
    pub fn void_query(&mut self, query: &Query)
        ensures { self.new ≡ without_query query.now self.old }
    {
        self.marks.void_query(query);
    }

    /// All marks go.
    pub fn clear(&mut self)
        ensures { self.new ≡ [] }
    {
        self.marks.clear();
        self.keys.clear();
    }

    /// The query of that number, where it is marked.
    pub fn query_of(&self, number: u64) -> Option<&Query>
        ensures { option_copied result ≡ query_marked number self.now }
    {
        self.marks.query_of(number)
    }

    /// The query of that number, exactly where it is marked; the mark goes.
    pub fn settle(&mut self, number: u64) -> Option<Query>
        ensures query { result ≡ query_marked number self.old }
        ensures rest { self.new ≡ without_number number self.old }
    {
        let query = self.marks.remove(number)?;
        if !is_any_marked(&self.marks, self.keys.numbers(query.key())) {
            self.keys.remove(query.key());
        }
        Some(query)
    }
}
