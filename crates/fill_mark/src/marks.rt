//! The marks, the oldest first.
ghost use Rattle.std.specs.Prelude.{◌≡◌, [], OnOk, OnErr, IfNone, option_copied};
ghost use Rattle.fill_mark.specs.Marks.{with_mark, query_marked, without_key, without_number};

use super::mark_list::MarkList;
use super::mark_table::MarkTable;
use command_words::Query;
use resp_value::NoMemory;
use std::alloc::Global;
use std::marker::Model;

/// A fetch in flight: the number of its read, and what it asks.
#[derive(Debug, Drop)]
pub struct Mark {
    pub number: u64,
    pub query: Query,
}

/// The fetches that may fill the cache, the oldest first.
///
/// Marks whose numbers ascend are found by number and by key however many there are. From a number
/// that is not above all others on, until those from there have gone, each mark is looked at.
#[derive(Debug, Drop)]
pub struct Marks {
    table: MarkTable,
    // the newer ones
    rest: MarkList,
}

impl Model for Marks {
    ghost use Rattle.std.specs.Prelude.{List, ◌++◌};
    ghost use Rattle.fill_mark.specs.declared.marks.Mark.{Mark};

    ghost Value = { List Mark };

    ghost view = { λ m. m.table ++ m.rest };
}

impl Marks {
    /// No marks.
    pub fn new(alloc: Global) -> Marks
        ensures { result ≡ [] }
    {
        Marks {
            table: MarkTable::new(alloc),
            rest: MarkList::new(alloc),
        }
    }

    /// A mark for that number; an older mark of the same query goes.
    pub fn begin(&mut self, number: u64, query: Query) -> Result<(), NoMemory>
        ensures ok { OnOk result (self.new ≡ with_mark number query self.old) }
        ensures err { OnErr result (self.new ≡ self.old) }
    {
        if self.rest.is_empty() && self.table.are_below(number) {
            self.table.begin(number, query)?;
            return Ok(());
        }
        let marked = query.copy()?;
        self.rest.begin(number, query)?;
        self.table.void_query(&marked);
        Ok(())
    }

    /// The marks of that key go.
    pub fn void_key(&mut self, key: &[u8])
        ensures { self.new ≡ without_key key.now self.old }
    {
        self.table.void_key(key);
        self.rest.void_key(key);
    }

    /// All marks go.
    pub fn void_all(&mut self)
        ensures { self.new ≡ [] }
    {
        self.table.clear();
        self.rest.clear();
    }

    /// The query of that number, where it is marked.
    pub fn query_of(&self, number: u64) -> Option<&Query>
        ensures query { option_copied result ≡ query_marked number self.now }
        ensures none { IfNone result (self.now ≡ without_number number self.now) }
    {
        match self.table.query_of(number) {
            Some(query) => Some(query),
            None => self.rest.query_of(number),
        }
    }

    /// The query of that number, exactly where it is marked; the mark goes.
    pub fn settle(&mut self, number: u64) -> Option<Query>
        ensures query { result ≡ query_marked number self.old }
        ensures rest { self.new ≡ without_number number self.old }
    {
        let newer = self.rest.settle(number);
        self.table.settle(number).or(newer)
    }
}
