//! The keyspace, as a finite map from keys to what they hold.
ghost use Rattle.std.specs.Prelude.{◌≡◌, ◌<◌, ◌^◌, [], OnOk, OnErr, IfOk, is_some, option_map};
ghost use Rattle.std.specs.FinMap as finite;
ghost use Rattle.std.specs.Borrow.{sem};
ghost use Rattle.resp_value.specs.Tree.{in_turn};
ghost use Rattle.command_words.specs.Space.{Text, held_at, content_at, with_deadline};
ghost use Rattle.command_words.specs.Keys.{renamed};
ghost use Rattle.command_words.specs.Strings.{put_all};
ghost use Rattle.keyspace.specs.Plain.{held_of, content_of};
ghost use Rattle.keyspace.specs.Lending.{lends_content, lends_held, with_content};

use super::copies::{copies_in_turn, insert_in_room};
use super::fields::Fields;
use indexmap::IndexMap;
use resp_value::{NoMemory, Octets};
use std::alloc::Global;
use std::marker::Model;
use std::mem;

/// What a key holds: a string or a hash.
#[derive(Drop)]
pub enum Content {
    Text(Octets),
    Fields(Fields),
}

/// What a key holds, and the moment after which it is gone.
#[derive(Drop)]
pub struct Held {
    pub content: Content,
    pub deadline: Option<u64>,
}

impl Content {
    /// An equal content, in the allocator of this one.
    pub fn copy(&self) -> Result<Content, NoMemory>
        ensures { IfOk result (λ content. content_of content ≡ content_of self.now) }
    {
        match self {
            Content::Text(value) => Ok(Content::Text(value.copy()?)),
            Content::Fields(fields) => Ok(Content::Fields(fields.copy()?)),
        }
    }
}

impl Held {
    /// An equal content with the same deadline, in the allocator of this one.
    pub fn copy(&self) -> Result<Held, NoMemory>
        ensures { IfOk result (λ held. held_of held ≡ held_of self.now) }
    {
        let content = self.content.copy()?;
        let deadline = self.deadline;
        Ok(Held { content, deadline })
    }
}

/// All keys with what they hold; contracts see a finite map.
#[derive(Drop)]
pub struct Keyspace {
    table: IndexMap<Vec<u8>, Held>,
}

impl Model for Keyspace {
    ghost use Rattle.std.specs.Prelude.{map};
    ghost use Rattle.std.specs.FinMap as finite;
    ghost use Rattle.std.specs.Coded.{coded_list, coded_ℕ};
    ghost use Rattle.command_words.specs.Space.{Space, held_code};

    ghost Value = { Space };

    ghost coded = { finite.code (coded_list coded_ℕ) held_code };

    ghost use Rattle.keyspace.specs.Plain.{held_of};

    ghost view = { λ s. finite.from_entries (map (λ p. (p.0.items, held_of p.1)) s.table.entries) };
}

impl Keyspace {
    /// No keys; takes no memory yet.
    pub fn new(alloc: Global) -> Keyspace
        ensures { result ≡ finite.empty }
    {
        Keyspace {
            table: IndexMap::new(alloc),
        }
    }

    /// What the key holds.
    pub fn get(&self, key: &[u8]) -> Option<&Held>
        ensures { option_map (λ held. held_of held.now) result ≡ held_at key.now self.now }
    {
        self.table.get(key)
    }

    /// The content of the key, for writing; its deadline stays.
    pub fn content_mut(&mut self, key: &[u8]) -> Option<&mut Content>
        ensures* writes_back { sem 𝓛 (lends_content self.entry key.now result) }
        ensures value { option_map (λ content. content_of content.now) result
            ≡ content_at key.now self.old }
    {
        match self.table.get_mut(key) {
            Some(held) => Some(&mut held.content),
            None => None,
        }
    }

    /// What the key holds, for writing.
    pub fn held_mut(&mut self, key: &[u8]) -> Option<&mut Held>
        ensures* writes_back { sem 𝓛 (lends_held self.entry key.now result) }
        ensures value { option_map (λ held. held_of held.now) result ≡ held_at key.now self.old }
    {
        match self.table.get_mut(key) {
            Some(held) => Some(held),
            None => None,
        }
    }

    /// The key holds this, whatever it held, which is the answer. Its name is copied only where it
    /// is new.
    pub fn replace(&mut self, key: &[u8], held: Held) -> Result<Option<Held>, NoMemory>
        ensures ok { OnOk result (self.new ≡ finite.insert self.old key.now (held_of held)) }
        ensures had { IfOk result (λ had. option_map held_of had ≡ held_at key.now self.old) }
        ensures err { OnErr result (self.new ≡ self.old) }
    {
        match self.table.get_mut(key) {
            Some(place) => Ok(Some(mem::replace(place, held))),
            None => {
                let name = Vec::from_slice(*self.table.allocator(), key)?;
                self.table.insert(name, held)?;
                Ok(None)
            }
        }
    }

    /// The key holds this, whatever it held. Its name is copied only where it is new.
    pub fn put(&mut self, key: &[u8], held: Held) -> Result<(), NoMemory>
        ensures ok { OnOk result (self.new ≡ finite.insert self.old key.now (held_of held)) }
        ensures err { OnErr result (self.new ≡ self.old) }
    {
        self.replace(key, held)?;
        Ok(())
    }

    /// What the key holds is moved out; an empty string with its deadline stands in its place.
    pub fn hollow(&mut self, key: &[u8]) -> Option<Held>
        ensures was { option_map held_of result ≡ held_at key.now self.old }
        ensures now { self.new ≡ with_content key.now (Text []) self.old }
    {
        let empty = Octets::from_vec(Vec::new(*self.table.allocator()));
        let held = self.table.get_mut(key)?;
        let deadline = held.deadline;
        let content = mem::replace(&mut held.content, Content::Text(empty));
        Some(Held { content, deadline })
    }

    /// Each key holds this string without a deadline, keys and strings in turn.
    pub fn put_texts(&mut self, words: &[Octets]) -> Result<(), NoMemory>
        ensures ok { OnOk result (self.new ≡ put_all (in_turn words.now) self.old) }
        ensures err { OnErr result (self.new ≡ self.old) }
    {
        let pairs = copies_in_turn(*self.table.allocator(), words)?;
        self.table.reserve(pairs.len())?;
        'pairs: for (key, text) in pairs {
            let held = Held {
                content: Content::Text(text),
                deadline: None,
            };
            insert_in_room(&mut self.table, key, held);
        }
        Ok(())
    }

    /// Takes the key out, with what it held.
    pub fn take(&mut self, key: &[u8]) -> Option<Held>
        ensures gone { self.new ≡ finite.remove self.old key.now }
        ensures was { option_map held_of result ≡ held_at key.now self.old }
    {
        self.table.swap_remove(key)
    }

    /// What one key holds goes to another with its deadline, and what that one held is gone; the
    /// answer is whether the first one is there.
    pub fn rename(&mut self, from: &[u8], to: &[u8]) -> Result<bool, NoMemory>
        ensures ok { OnOk result (self.new ≡ renamed from.now to.now self.old) }
        ensures was { IfOk result (λ was. was ≡ is_some (held_at from.now self.old)) }
        ensures err { OnErr result (self.new ≡ self.old) }
    {
        let name = Vec::from_slice(*self.table.allocator(), to)?;
        self.table.reserve(1)?;
        let Some(held) = self.table.swap_remove(from) else {
            return Ok(false);
        };
        insert_in_room(&mut self.table, name, held);
        Ok(true)
    }

    /// Gives the key this deadline, or none; the answer is whether the key is there.
    pub fn set_deadline(&mut self, key: &[u8], deadline: Option<u64>) -> bool
        ensures set { self.new ≡ with_deadline key.now deadline self.old }
        ensures was { result ≡ is_some (held_at key.now self.old) }
    {
        let Some(held) = self.table.get_mut(key) else {
            return false;
        };
        held.deadline = deadline;
        true
    }

    /// Takes all keys out.
    pub fn clear(&mut self)
        ensures { self.new ≡ finite.empty }
    {
        self.table.clear();
    }

    /// The number of keys.
    pub fn len(&self) -> u64
        ensures len { result ≡ finite.len self.now }
        ensures small { result < 2 ^ 63 }
    {
        self.table.len() as u64
    }
}
