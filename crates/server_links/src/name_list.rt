//! Names in the order in which they were added, each found without a look at the others.
ghost use Rattle.std.specs.Prelude.{◌≡◌, ◌++◌, ◌∷◌, [], None, OnOk, OnErr, List, position, ℕ};
ghost use Rattle.std.specs.Str.{bytes_eq};

use indexmap::IndexSet;
use resp_value::NoMemory;
use std::alloc::Global;
use std::marker::Model;

/// Names that differ. Contracts see the list of them.
#[derive(Drop)]
pub struct Names {
    table: IndexSet<Vec<u8>>,
}

impl Model for Names {
    ghost use Rattle.std.specs.Prelude.{ℕ, List, map};

    ghost Value = { List (List ℕ) };

    ghost view = { λ n. map (λ k. k.items) n.table.keys };
}

impl Names {
    /// No names; takes no memory yet.
    pub fn new(alloc: Global) -> Names
        ensures { result ≡ [] }
    {
        Names {
            table: IndexSet::new(alloc),
        }
    }

    /// The place of a name in the order of adding, counted from 0.
    pub fn place(&self, name: &[u8]) -> Option<usize>
        ensures { result ≡ position (λ n. bytes_eq n name.now) self.now }
    {
        self.table.get_index_of(name)
    }

    /// Adds a name behind the others.
    pub fn add(&mut self, name: &[u8]) -> Result<(), NoMemory>
        requires { position (λ n. bytes_eq n name.now) self.old ≡ None }
        ensures ok { OnOk result (self.new ≡ self.old ++ name.now ∷ []) }
        ensures err { OnErr result (self.new ≡ self.old) }
    {
        let name = Vec::from_slice(*self.table.allocator(), name)?;
        self.table.insert(name)?;
        Ok(())
    }

    /// Takes the last name out, if there is one.
    pub fn remove_last(&mut self)
        ensures { (before : List (List ℕ)) (name : List ℕ) → self.old ≡ before ++ name ∷ []
            → self.new ≡ before }
    {
        let _ = self.table.pop();
    }
}
