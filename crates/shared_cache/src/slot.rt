//! What is held of a query, with what finds its place among the others.
ghost use Rattle.std.specs.Prelude.{◌≡◌, ◌++◌, ◌∷◌, List, ℕ, IfOk, OnOk};
ghost use Rattle.std.specs.List.{flat_map};
ghost use Rattle.command_words.specs.Printed.{printed};
ghost use Rattle.command_words.specs.Queries.{key_of, same_query};
ghost use Rattle.shared_cache.specs.Held.{shown_words, order, is_before};
ghost use Rattle.shared_cache.specs.KeyReads.{is_get};

use super::entry::CacheEntry;
use command_words::{Query, put_printed};
use resp_value::{NoMemory, Octets};
use std::alloc::Global;
use std::cmp::Ordering;
use std::marker::Model;

/// A cache entry with its query's printed words: listing in their order takes no memory.
#[derive(Drop)]
pub struct Slot {
    entry: CacheEntry,
    shown: Octets,
    // its query is a GET
    get: bool,
}

impl Model for Slot {
    ghost use Rattle.std.specs.Prelude.{◌≡◌};
    ghost use Rattle.shared_cache.specs.declared.entry.CacheEntry.{CacheEntry};
    ghost use Rattle.shared_cache.specs.Held.{shown_words};
    ghost use Rattle.shared_cache.specs.KeyReads.{is_get};
    ghost use Rattle.std.specs.Coded.{codes};
    ghost use Rattle.resp_value.specs.TreeCoding.{tree_code};

    ghost Value = { CacheEntry };

    ghost coded = { Prim.hlevel (codes, tree_code) };

    ghost view = { λ o. o.entry };

    ghost invariant = { λ o. (o.shown ≡ shown_words o.entry.query)
        × (o.get ≡ is_get o.entry.query) };
}

fn put_rest(words: &[Octets], line: &mut Vec<u8>) -> Result<(), NoMemory>
    ensures { OnOk result
        (line.new.items ≡ line.old.items ++ flat_map (λ w. 32 ∷ printed w) words.now) }
{
    for word in words {
        line.push(b' ')?;
        put_printed(word.as_slice(), line)?;
    }
    Ok(())
}

fn shown_words(alloc: Global, query: &Query) -> Result<Octets, NoMemory>
    ensures { IfOk result (λ o. o ≡ shown_words query.now) }
{
    let mut line = Vec::new(alloc);
    match query.words().as_slice() {
        [first, rest @ ..] => {
            put_printed(first.as_slice(), &mut line)?;
            put_rest(rest, &mut line)?;
        }
        [] => {}
    }
    Ok(Octets::from_vec(line))
}

/// Whether the query is a GET, of which a key has one.
pub fn is_get(query: &Query) -> bool
    ensures { result ≡ is_get query.now }
{
    match query.words().as_slice() {
        [name, _] => name.as_slice() == b"GET".as_slice(),
        _ => false,
    }
}

impl Slot {
    pub fn new(alloc: Global, entry: CacheEntry) -> Result<Slot, NoMemory>
        ensures { IfOk result (λ o. o ≡ entry) }
    {
        let shown = shown_words(alloc, &entry.query)?;
        let get = is_get(&entry.query);
        Ok(Slot { entry, shown, get })
    }

    pub fn entry(&self) -> &CacheEntry
        ensures { result.now ≡ self.now }
    {
        &self.entry
    }

    /// Whether it is of this query of its key, which is a GET or not. The words of a GET, each a
    /// wait for memory, are not looked at.
    pub fn is_of(&self, query: &Query, get: bool) -> bool
        requires key { key_of self.now.query ≡ key_of query.now }
        requires get { get ≡ is_get query.now }
        ensures { result ≡ same_query self.now.query query.now }
    {
        match (self.get, get) {
            (true, true) => true,
            (false, false) => self.entry.query.is_same(query),
            _ => false,
        }
    }

    /// By byte order of the printed words, then by number.
    pub fn order(&self, other: &Slot) -> Ordering
        ensures { result ≡ order self.now other.now }
    {
        self.shown
            .as_slice()
            .cmp(other.shown.as_slice())
            .then(self.entry.number.cmp(&other.entry.number))
    }

    /// Whether it stands before the other in that order.
    pub fn comes_before(&self, other: &Slot) -> bool
        ensures { result ≡ is_before self.now other.now }
    {
        self.order(other).is_lt()
    }
}
