//! Marks whose numbers ascend, each found by its number.
ghost use Rattle.std.specs.Prelude.{◌≡◌, ◌<◌, ◌++◌, ◌∷◌, [], OnOk, OnErr};
ghost use Rattle.std.specs.Prelude.{option_copied};
ghost use Rattle.std.specs.Bool.{OnTrue};
ghost use Rattle.fill_mark.specs.declared.marks.Mark.{Mark};
ghost use Rattle.fill_mark.specs.Marks.{query_marked, without_number, without_query};
ghost use Rattle.fill_mark.specs.Tables.{Among};

use command_words::Query;
use resp_value::NoMemory;
use std::alloc::Global;
use std::collections::BTreeMap;
use std::marker::Model;

/// The marks, the oldest first, which is the least number first.
#[derive(Debug, Drop)]
pub struct NumberedMarks {
    queries: BTreeMap<u64, Query>,
}

impl Model for NumberedMarks {
    ghost use Rattle.std.specs.Prelude.{List, map};
    ghost use Rattle.std.specs.Ordering.{nat_cmp};
    ghost use Rattle.std.specs.BTreeMap.{IsOrdered};
    ghost use Rattle.fill_mark.specs.declared.marks.Mark.{Mark};
    ghost use Rattle.fill_mark.specs.Tables.{mark_of};

    ghost Value = { List Mark };

    ghost view = { λ m. map mark_of m.queries.entries };

    ghost invariant = { λ m. IsOrdered nat_cmp m.queries };
}

impl NumberedMarks {
    /// No marks.
    pub fn new(alloc: Global) -> NumberedMarks
        ensures { result ≡ [] }
    {
        NumberedMarks {
            queries: BTreeMap::new(alloc),
        }
    }

    /// The query of that number, where it is marked.
    pub fn query_of(&self, number: u64) -> Option<&Query>
        ensures { option_copied result ≡ query_marked number self.now }
    {
        self.queries.get(&number)
    }

    /// Whether the number is above those of all marks.
    pub fn are_below(&self, number: u64) -> bool
        ensures { OnTrue result ((m : Mark) → Among m self.now → m.number < number) }
    {
        match self.queries.last_key_value() {
            Some((last, _)) => *last < number,
            None => true,
        }
    }

    /// A mark for a number above those of all marks.
    pub fn push(&mut self, number: u64, query: Query) -> Result<(), NoMemory>
        requires { (m : Mark) → Among m self.old → m.number < number }
        ensures ok { OnOk result
            (self.new ≡ self.old ++ record { number = number; query = query } ∷ []) }
        ensures err { OnErr result (self.new ≡ self.old) }
    {
        self.queries.insert(number, query)?;
        Ok(())
    }

    /// The query of that number, exactly where it is marked; the mark goes.
    pub fn remove(&mut self, number: u64) -> Option<Query>
        ensures query { result ≡ query_marked number self.old }
        ensures rest { self.new ≡ without_number number self.old }
    {
        self.queries.remove(&number)
    }

    /// The mark of that query goes. Each is looked at.
    pub fn void_query(&mut self, query: &Query)
        ensures { self.new ≡ without_query query.now self.old }
    {
        self.queries.retain(|_, marked| !marked.is_same(query));
    }

    /// All marks go.
    pub fn clear(&mut self)
        ensures { self.new ≡ [] }
    {
        self.queries.clear();
    }
}
