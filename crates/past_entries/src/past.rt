//! The type of no bytes. Its contracts speak of all entries that were ever added.
ghost use Rattle.std.specs.Prelude.{◌≡◌, ◌∷◌, [], List};
ghost use Rattle.std.specs.Coded.{coded_list};

use std::marker::{Model, PhantomData};

/// All entries so far. It takes no bytes. Contracts see the newest entry first.
pub struct Past<T> {
    // A private field, so that the type is made in this file alone.
    of: PhantomData<T>,
    ghost entries: { List T } by { coded_list T.code },
}

impl<T> Model for Past<T> {
    ghost use Rattle.std.specs.Prelude.{List};
    ghost use Rattle.std.specs.Coded.{coded_list};
    ghost use Rattle.std.specs.Borrow.{ftrue};

    ghost Value = { List T };

    ghost coded = { coded_list T.code };

    ghost view = { λ p. p.entries };

    ghost also_owns = { λ _. ftrue };
}

impl<T> Past<T> {
    /// The past before its first entry.
    pub fn new() -> Past<T>
        ensures { result ≡ [] }
    {
        Past { of: PhantomData }
    }

    // This past with one more entry. It does nothing at run time.
    fn with(&self, entry: &T) -> Past<T>
        ensures { result ≡ entry.now ∷ self.now }
    {
        let _ = entry;
        Past { of: PhantomData }
    }

    /// Adds an entry. It does nothing at run time.
    pub fn record(&mut self, entry: &T)
        ensures { self.new ≡ entry.now ∷ self.old }
    {
        *self = self.with(entry);
    }
}

impl<T> Drop for Past<T> {
    fn drop(self) {
        let Self { of: _ } = self;
    }
}

// It owns nothing.
unsafe impl<T> Send for Past<T> {}

unsafe impl<T> Sync for Past<T> {}
