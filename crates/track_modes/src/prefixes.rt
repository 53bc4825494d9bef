//! The prefixes that a connection tracks by, in byte order.
ghost use Rattle.std.specs.Prelude.{◌≡◌, [], OnOk, OnErr, IfOk, option_map};
ghost use Rattle.track_modes.specs.PrefixLists.{AreInOrder, IsPlaceFor, do_overlap, is_before};
ghost use Rattle.track_modes.specs.PrefixLists.{with_prefix, with_prefixes};

use resp_value::{NoMemory, Octets};
use std::alloc::Global;
use std::marker::Model;

/// Prefixes in byte order, each once.
#[derive(Debug, Drop)]
pub struct Prefixes {
    items: Vec<Octets>,
}

impl Model for Prefixes {
    ghost use Rattle.std.specs.Prelude.{List, ℕ};
    ghost use Rattle.track_modes.specs.PrefixLists.{AreInOrder};

    ghost Value = { List (List ℕ) };

    ghost view = { λ p. p.items.items };

    ghost invariant = { λ p. AreInOrder p.items.items };
}

fn is_before(a: &Octets, b: &Octets) -> bool
    ensures { result ≡ is_before a.now b.now }
{
    a.as_slice().cmp(&b.as_slice()).is_lt()
}

/// Whether one of the two starts with the other.
pub(crate) fn do_overlap(a: &Octets, b: &Octets) -> bool
    ensures { result ≡ do_overlap a.now b.now }
{
    let (a, b) = (a.as_slice(), b.as_slice());
    a.starts_with(b) || b.starts_with(a)
}

impl Prefixes {
    // No prefix; takes no memory yet.
    pub(crate) fn new(alloc: Global) -> Prefixes
        ensures { result ≡ [] }
    {
        Prefixes {
            items: Vec::new(alloc),
        }
    }

    /// The prefixes, in byte order.
    pub fn as_slice(&self) -> &[Octets]
        ensures list { result.now ≡ self.now }
        ensures order { AreInOrder self.now }
    {
        self.items.as_slice()
    }

    // The place of the first prefix that does not come before this one.
    fn place_for(&self, prefix: &Octets) -> usize
        ensures { IsPlaceFor prefix.now self.now result }
    {
        for (place, held) in self.items.iter().enumerate() {
            if !is_before(held, prefix) {
                return place;
            }
        }
        self.items.len()
    }

    // Adds a prefix at its place, where it is not there yet.
    pub(crate) fn add(&mut self, prefix: Octets) -> Result<(), NoMemory>
        ensures ok { OnOk result (self.new ≡ with_prefix prefix self.old) }
        ensures err { OnErr result (self.new ≡ self.old) }
    {
        let at = self.place_for(&prefix);
        if at < self.items.len() && !is_before(&prefix, &self.items[at]) {
            return Ok(());
        }
        self.items.insert(at, prefix)?;
        Ok(())
    }

    // Adds prefixes, each at its place. At want of memory some of them are added.
    pub(crate) fn add_all(&mut self, prefixes: &[Octets]) -> Result<(), NoMemory>
        ensures { OnOk result (self.new ≡ with_prefixes prefixes.now self.old) }
    {
        let mut rest = prefixes;
        while let [prefix, after @ ..] = rest {
            rest = after;
            self.add(prefix.copy()?)?;
        }
        Ok(())
    }

    // An equal list, in the allocator of this one.
    pub(crate) fn copy(&self) -> Result<Prefixes, NoMemory>
        ensures { IfOk result (λ p. p ≡ self.now) }
    {
        let mut items = Vec::new(*self.items.allocator());
        for prefix in self.items.iter() {
            items.push(prefix.copy()?)?;
        }
        Ok(Prefixes { items })
    }
}
