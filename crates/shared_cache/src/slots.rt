//! What is held of one key.
ghost use Rattle.std.specs.Prelude.{◌≡◌, ◌+◌, ◌<◌, ◌++◌, ◌∷◌, [], length, vec_len, vec_capacity};

use super::slot::Slot;
use std::alloc::Global;
use std::marker::Model;

#[derive(Drop)]
pub enum SlotList {
    /// The one entry of a key, where a list would be one more wait for memory.
    One(Slot),
    Many(Vec<Slot>),
}

/// What is held of one key, in order of the fetches.
#[derive(Drop)]
pub struct Slots {
    list: SlotList,
}

impl Model for Slots {
    ghost use Rattle.std.specs.Prelude.{List};
    ghost use Rattle.shared_cache.specs.declared.entry.CacheEntry.{CacheEntry};
    ghost use Rattle.std.specs.Coded.{codes};
    ghost use Rattle.resp_value.specs.TreeCoding.{tree_code};

    ghost Value = { List CacheEntry };

    ghost coded = { Prim.hlevel (codes, tree_code) };

    ghost use Rattle.shared_cache.specs.Slots.{slots_of};

    ghost view = { λ s. slots_of s.list };
}

impl Slots {
    pub fn none(alloc: Global) -> Slots
        ensures { result ≡ [] }
    {
        Slots {
            list: SlotList::Many(Vec::new(alloc)),
        }
    }

    pub fn one(slot: Slot) -> Slots
        ensures { result ≡ slot ∷ [] }
    {
        Slots {
            list: SlotList::One(slot),
        }
    }

    pub fn many(slots: Vec<Slot>) -> Slots
        ensures { result ≡ slots.items }
    {
        Slots {
            list: SlotList::Many(slots),
        }
    }

    pub fn as_slice(&self) -> &[Slot]
        ensures { result.now ≡ self.now }
    {
        match &self.list {
            SlotList::One(slot) => std::slice::from_ref(slot),
            SlotList::Many(slots) => slots.as_slice(),
        }
    }

    /// They go last, where there is room for them and one more.
    pub fn move_to(self, entries: &mut Vec<Slot>)
        requires { vec_len entries.old + length self < vec_capacity entries.old }
        ensures items { entries.new.items ≡ entries.old.items ++ self }
        ensures room { vec_len entries.new < vec_capacity entries.new }
    {
        match self.list {
            SlotList::One(slot) => entries.push_reserved(slot),
            SlotList::Many(slots) => move_all(slots, entries),
        }
    }
}

fn move_all(old: Vec<Slot>, entries: &mut Vec<Slot>)
    requires { vec_len entries.old + vec_len old < vec_capacity entries.old }
    ensures items { entries.new.items ≡ entries.old.items ++ old.items }
    ensures room { vec_len entries.new < vec_capacity entries.new }
{
    for entry in old {
        entries.push_reserved(entry);
    }
}
