//! Marks in a list, the oldest first: each is looked at.
ghost use Rattle.std.specs.Prelude.{◌≡◌, ◌==◌, ◌++◌, ◌∷◌, [], OnOk, OnErr, IfNone, MatchOption};
ghost use Rattle.std.specs.Prelude.{option_copied, length};
ghost use Rattle.fill_mark.specs.Marks.{with_mark, IsMarkAt, query_marked, without_key};
ghost use Rattle.fill_mark.specs.Marks.{without_number};

use super::marks::Mark;
use command_words::Query;
use resp_value::NoMemory;
use std::alloc::Global;
use std::marker::Model;

/// The marks, the oldest first. Numbers may come in any order, and more than once.
#[derive(Debug, Drop)]
pub struct MarkList {
    items: Vec<Mark>,
}

impl Model for MarkList {
    ghost use Rattle.std.specs.Prelude.{List};
    ghost use Rattle.fill_mark.specs.declared.marks.Mark.{Mark};

    ghost Value = { List Mark };

    ghost view = { λ m. m.items.items };
}

// Where the mark of that number is. Each is looked at.
fn place_of(marks: &[Mark], number: u64) -> Option<usize>
    ensures { MatchOption result (query_marked number marks.now ≡ None)
        (IsMarkAt number marks.now) }
{
    for (place, mark) in marks.iter().enumerate() {
        if mark.number == number {
            return Some(place);
        }
    }
    None
}

impl MarkList {
    /// No marks.
    pub fn new(alloc: Global) -> MarkList
        ensures { result ≡ [] }
    {
        MarkList {
            items: Vec::new(alloc),
        }
    }

    pub fn is_empty(&self) -> bool
        ensures { result ≡ (length self.now == 0) }
    {
        self.items.len() == 0
    }

    /// A mark for that number; an older mark of the same query goes.
    pub fn begin(&mut self, number: u64, query: Query) -> Result<(), NoMemory>
        ensures ok { OnOk result (self.new ≡ with_mark number query self.old) }
        ensures err { OnErr result (self.new ≡ self.old) }
    {
        self.items.reserve(1)?;
        self.items.retain(|mark| !mark.query.is_same(&query));
        self.items.push_reserved(Mark { number, query });
        Ok(())
    }

    /// The marks of that key go.
    pub fn void_key(&mut self, key: &[u8])
        ensures { self.new ≡ without_key key.now self.old }
    {
        self.items.retain(|mark| mark.query.key() != key);
    }

    /// All marks go.
    pub fn clear(&mut self)
        ensures { self.new ≡ [] }
    {
        self.items.clear();
    }

    /// The query of that number, where it is marked.
    pub fn query_of(&self, number: u64) -> Option<&Query>
        ensures query { option_copied result ≡ query_marked number self.now }
        ensures none { IfNone result (self.now ≡ without_number number self.now) }
    {
        let place = place_of(&self.items, number)?;
        Some(&self.items[place].query)
    }

    /// The query of that number, exactly where it is marked; the marks of that number go.
    pub fn settle(&mut self, number: u64) -> Option<Query>
        ensures query { result ≡ query_marked number self.old }
        ensures rest { self.new ≡ without_number number self.old }
    {
        let place = place_of(&self.items, number)?;
        let mark = self.items.remove(place);
        self.items.retain(|mark| mark.number != number);
        Some(mark.query)
    }
}
