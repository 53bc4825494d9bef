//! What is held, by key: a look-up, a use, a fill and an invalidation cost the same however many
//! keys are held.
ghost use Rattle.std.specs.Prelude.{◌≡◌, ◌==◌, ◌<◌, ◌≤◌, ◌++◌, ◌∷◌, [], IfOk, OnOk, OnErr};
ghost use Rattle.std.specs.Prelude.{length};
ghost use Rattle.std.specs.Prelude.{is_some, true, false, option_copied, vec_capacity};
ghost use Rattle.command_words.specs.Queries.{key_of};
ghost use Rattle.std.specs.Map.{lookup_entry, remove_entry};
ghost use Rattle.std.specs.Str.{bytes_eq};
ghost use Rattle.lru.specs.LruCache.{promoted};
ghost use Rattle.shared_cache.specs.Held.{held_for, rank, ranked, held_in_place};
ghost use Rattle.shared_cache.specs.HeldKeys.{found_in, entries_of, others, stored, with_pairs};
ghost use Rattle.shared_cache.specs.HeldKeys.{forgotten, listed, seen, stored_alone, IsSortedAs};
ghost use Rattle.shared_cache.specs.KeyReads.{AreOfKey};

use super::entry::CacheEntry;
use super::slot::{Slot, is_get};
use super::slots::Slots;
use command_words::{Query, Written};
use lru::LruCache;
use resp_value::NoMemory;
use std::alloc::Global;
use std::marker::Model;
use std::num::NonZeroUsize;

/// The keys that are held, the one used last first, each with its entries in order of the fetches.
#[derive(Drop)]
pub struct HeldKeys {
    keys: LruCache<Vec<u8>, Slots>,
}

impl Model for HeldKeys {
    ghost use Rattle.std.specs.Prelude.{map};
    ghost use Rattle.std.specs.Coded.{codes};
    ghost use Rattle.resp_value.specs.TreeCoding.{tree_code};
    ghost use Rattle.shared_cache.specs.HeldKeys.{KeysHeld};

    ghost Value = { KeysHeld };

    ghost coded = { Prim.hlevel (codes, tree_code) };

    ghost view = { λ h. record {
      pairs = map (λ p. (p.0.items, p.1)) h.keys.entries;
      most = h.keys.cap;
    } };

    ghost use Rattle.shared_cache.specs.KeyReads.{AreOfKeys};

    ghost invariant = { λ h. AreOfKeys (map (λ p. (p.0.items, p.1)) h.keys.entries) };
}

fn entry_for<'a>(entries: &'a [Slot], query: &Query) -> Option<&'a CacheEntry>
    requires { AreOfKey (key_of query.now) entries.now }
    ensures { option_copied result ≡ held_for query.now entries.now }
{
    let get = is_get(query);
    for slot in entries {
        if slot.is_of(query, get) {
            return Some(slot.entry());
        }
    }
    None
}

fn rank(slot: &Slot, entries: &[Slot]) -> usize
    ensures count { result ≡ rank slot.now entries.now }
    ensures within { result ≤ length entries.now }
{
    let mut count = 0;
    let mut rest = entries;
    while let [other, after @ ..] = rest {
        if other.comes_before(slot) {
            count += 1;
        }
        rest = after;
    }
    count
}

fn put_slots<'a>(entries: &'a [Slot], slots: &mut Vec<&'a Slot>) -> Result<(), NoMemory>
    ensures { OnOk result (seen slots.new.items ≡ seen slots.old.items ++ entries.now) }
{
    for slot in entries {
        slots.push(slot)?;
    }
    Ok(())
}

fn entries_of<'a>(alloc: Global, slots: &[&'a Slot]) -> Result<Vec<&'a CacheEntry>, NoMemory>
    ensures { IfOk result (λ v. seen v.items ≡ seen slots.now) }
{
    let mut entries = Vec::new(alloc);
    for slot in slots {
        entries.push(slot.entry())?;
    }
    Ok(entries)
}

fn with_room(alloc: Global, entries: &[Slot]) -> Result<Vec<Slot>, NoMemory>
    ensures items { IfOk result (λ v. v.items ≡ []) }
    ensures room { IfOk result (λ v. length entries.now < vec_capacity v) }
{
    let mut room = Vec::new(alloc);
    room.reserve(entries.len() + 1)?;
    Ok(room)
}

impl HeldKeys {
    /// No key; so many may be held.
    pub fn new(alloc: Global, capacity: u64) -> Result<HeldKeys, NoMemory>
        requires { 0 < capacity }
        ensures { IfOk result (λ k. k ≡ record { pairs = []; most = capacity }) }
    {
        match NonZeroUsize::new(capacity as usize) {
            Some(most) => match LruCache::sparse(alloc, most) {
                Ok(keys) => Ok(HeldKeys { keys }),
                Err(_) => Err(NoMemory),
            },
            None => unreachable!(),
        }
    }

    /// What is held of the query.
    pub fn find(&self, query: &Query) -> Option<&CacheEntry>
        ensures { option_copied result ≡ found_in query.now self.now.pairs }
    {
        let entries = self.keys.peek(query.key())?;
        entry_for(entries.as_slice(), query)
    }

    /// The key was used.
    pub fn promote(&mut self, key: &[u8])
        ensures { self.new ≡ with_pairs (promoted (bytes_eq key.now) self.old.pairs) self.old }
    {
        let _ = self.keys.promote(key);
    }

    /// Nothing is held of the key any more.
    pub fn remove(&mut self, key: &[u8])
        ensures { self.new ≡ with_pairs (remove_entry (bytes_eq key.now) self.old.pairs) self.old }
    {
        let _ = self.keys.pop(key);
    }

    /// Nothing is held any more.
    pub fn clear(&mut self)
        ensures { self.new ≡ with_pairs [] self.old }
    {
        self.keys.clear();
    }

    /// What is written is no longer held.
    pub fn invalidate(&mut self, written: &Written)
        ensures { self.new ≡ with_pairs (forgotten written.now self.old.pairs) self.old }
    {
        match written {
            Written::Keys(keys) => {
                for key in keys.as_slice() {
                    self.remove(key.as_slice());
                }
            }
            Written::All => self.clear(),
        }
    }

    // Whether exactly so many of what is held come before the entry.
    fn is_at(&self, place: usize, slot: &Slot) -> bool
        ensures { result ≡ (rank slot.now (listed self.now.pairs) == place) }
    {
        let mut count = 0;
        for (_, entries) in self.keys.iter() {
            let more = rank(slot, entries.as_slice());
            if more > place - count {
                return false;
            }
            count += more;
        }
        count == place
    }

    fn entry_among<'a>(&self, place: usize, entries: &'a [Slot]) -> Option<&'a CacheEntry>
        ensures { option_copied result ≡ ranked place (listed self.now.pairs) entries.now }
    {
        for slot in entries {
            if self.is_at(place, slot) {
                return Some(slot.entry());
            }
        }
        None
    }

    /// The entry that so many come before, in byte order of the printed words. Each is compared
    /// with all.
    pub fn entry_at(&self, place: usize) -> Option<&CacheEntry>
        ensures { option_copied result ≡ held_in_place place (listed self.now.pairs) }
    {
        for (_, entries) in self.keys.iter() {
            match self.entry_among(place, entries.as_slice()) {
                Some(entry) => return Some(entry),
                None => {}
            }
        }
        None
    }

    // What is held, one key after the other.
    fn slots(&self, alloc: Global) -> Result<Vec<&Slot>, NoMemory>
        ensures { IfOk result (λ v. seen v.items ≡ listed self.now.pairs) }
    {
        let mut slots = Vec::new(alloc);
        for (_, entries) in self.keys.iter() {
            put_slots(entries.as_slice(), &mut slots)?;
        }
        Ok(slots)
    }

    /// What is held, in byte order of the printed words: one sort of it.
    pub fn in_order(&self, alloc: Global) -> Result<Vec<&CacheEntry>, NoMemory>
        ensures { IfOk result (λ v. IsSortedAs (listed self.now.pairs) (seen v.items)) }
    {
        let mut slots = self.slots(alloc)?;
        slots.sort_by(|left, right| left.order(right))?;
        entries_of(alloc, &slots)
    }

    // An empty list that has room for the entries of the key and one more.
    fn room_beside(&self, alloc: Global, key: &[u8]) -> Result<Vec<Slot>, NoMemory>
        ensures items { IfOk result (λ v. v.items ≡ []) }
        ensures room { IfOk result
            (λ v. length (entries_of key.now self.now.pairs) < vec_capacity v) }
    {
        match self.keys.peek(key) {
            Some(entries) => with_room(alloc, entries.as_slice()),
            None => with_room(alloc, &[]),
        }
    }

    // The entries of the key go out, and it is the one used last.
    fn take_entries(&mut self, alloc: Global, key: Vec<u8>) -> Result<Slots, NoMemory>
        ensures entries { IfOk result (λ s. s ≡ entries_of key.items self.old.pairs) }
        ensures of_key { IfOk result (λ s. AreOfKey key.items s) }
        ensures ok { OnOk result (self.new ≡ with_pairs
            ((key.items, []) ∷ others key.items self.old.most self.old.pairs) self.old) }
        ensures err { OnErr result (self.new ≡ self.old) }
    {
        match self.keys.put(key, Slots::none(alloc)) {
            Ok(old) => match old {
                Some(entries) => Ok(entries),
                None => Ok(Slots::none(alloc)),
            },
            Err(_) => Err(NoMemory),
        }
    }

    // The key, which is there, has these entries, and is the one used last.
    fn give_entries(&mut self, key: Vec<u8>, entries: Vec<Slot>)
        requires of_key { AreOfKey key.items entries.items }
        requires there { is_some (lookup_entry (bytes_eq key.items) self.old.pairs) ≡ true }
        ensures { self.new ≡ with_pairs ((key.items, entries.items)
            ∷ remove_entry (bytes_eq key.items) self.old.pairs) self.old }
    {
        match self.keys.put(key, Slots::many(entries)) {
            Ok(_) => {}
            Err(_) => unreachable!(),
        }
    }

    fn has_key(&self, key: &[u8]) -> bool
        ensures { result ≡ is_some (lookup_entry (bytes_eq key.now) self.now.pairs) }
    {
        self.keys.contains(key)
    }

    // The first entry of a key.
    fn put_first(&mut self, alloc: Global, entry: CacheEntry) -> Result<(), NoMemory>
        requires { is_some (lookup_entry (bytes_eq (key_of entry.query)) self.old.pairs) ≡ false }
        ensures ok { OnOk result
            (self.new ≡ with_pairs (stored self.old.most entry self.old.pairs) self.old) }
        ensures err { OnErr result (self.new ≡ self.old) }
    {
        match self.put_alone(alloc, entry) {
            Ok(()) => Ok(()),
            Err(_) => Err(NoMemory),
        }
    }

    /// The entry is all that is held of its key, which is the one used last. Where as many keys are
    /// held as may be, and this is none of them, the one used earliest leaves.
    pub fn put_alone(&mut self, alloc: Global, entry: CacheEntry) -> Result<(), NoMemory>
        ensures ok { OnOk result
            (self.new ≡ with_pairs (stored_alone self.old.most entry self.old.pairs) self.old) }
        ensures err { OnErr result (self.new ≡ self.old) }
    {
        let key = Vec::from_slice(alloc, entry.query.key())?;
        let slot = Slot::new(alloc, entry)?;
        match self.keys.put(key, Slots::one(slot)) {
            Ok(_) => Ok(()),
            Err(_) => Err(NoMemory),
        }
    }

    // An entry behind those that its key has.
    fn put_behind(&mut self, alloc: Global, entry: CacheEntry) -> Result<(), NoMemory>
        ensures ok { OnOk result
            (self.new ≡ with_pairs (stored self.old.most entry self.old.pairs) self.old) }
        ensures err { OnErr result (self.new ≡ self.old) }
    {
        let mut entries = self.room_beside(alloc, entry.query.key())?;
        let first = Vec::from_slice(alloc, entry.query.key())?;
        let second = Vec::from_slice(alloc, entry.query.key())?;
        let slot = Slot::new(alloc, entry)?;
        let old = self.take_entries(alloc, first)?;
        old.move_to(&mut entries);
        entries.push_reserved(slot);
        self.give_entries(second, entries);
        Ok(())
    }

    /// The entry is held, and its key is the one used last. Where as many keys are held as may be,
    /// and this is none of them, the one used earliest leaves.
    pub fn put(&mut self, alloc: Global, entry: CacheEntry) -> Result<(), NoMemory>
        ensures ok { OnOk result
            (self.new ≡ with_pairs (stored self.old.most entry self.old.pairs) self.old) }
        ensures err { OnErr result (self.new ≡ self.old) }
    {
        if self.has_key(entry.query.key()) {
            self.put_behind(alloc, entry)
        } else {
            self.put_first(alloc, entry)
        }
    }
}
