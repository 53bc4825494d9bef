//! A queue of bytes: they are added at the end and leave from the front.
#![tactic(auto)]

ghost use Rattle.std.specs.Prelude.{◌≡◌, ◌≤◌, ◌+◌, ◌++◌, [], OnOk, OnErr, IfOk, length, take, drop};
ghost use Rattle.resp_value.specs.Spelling.{spelling};
ghost use Rattle.resp_value.specs.ValueTree.{tree_of};

use resp_value::{NoMemory, Octets, Proto, Value, put_value};
use std::alloc::Global;
use std::marker::Model;
use std::mem;

/// A list of bytes. Its front moves without a copy, and the room of what left is used again.
#[derive(Drop)]
pub struct ByteQueue {
    bytes: Vec<u8>,
    start: usize,
}

impl Model for ByteQueue {
    ghost use Rattle.std.specs.Prelude.{ℕ, List, ◌≤◌, length, drop};

    ghost Value = { List ℕ };

    ghost view = { λ q. drop q.start q.bytes.items };

    ghost invariant = { λ q. q.start ≤ length q.bytes.items };
}

impl ByteQueue {
    /// It takes no memory.
    pub fn new(alloc: Global) -> ByteQueue
        ensures { result ≡ [] }
    {
        ByteQueue {
            bytes: Vec::new(alloc),
            start: 0,
        }
    }

    pub fn as_slice(&self) -> &[u8]
        ensures { result.now ≡ self.now }
    {
        let (_, queued) = self.bytes.as_slice().split_at(self.start);
        queued
    }

    pub fn len(&self) -> usize
        ensures { result ≡ length self.now }
    {
        self.as_slice().len()
    }

    /// The bytes go last.
    pub fn add(&mut self, bytes: &[u8]) -> Result<(), NoMemory>
        ensures ok { OnOk result (self.new ≡ self.old ++ bytes.now) }
        ensures err { OnErr result (self.new ≡ self.old) }
    {
        self.make_room();
        self.bytes.extend_from_slice(bytes)?;
        Ok(())
    }

    /// The spelling of a value goes last. It answers of how many bytes it is.
    pub fn add_value(&mut self, proto: Proto, value: &Value) -> Result<usize, NoMemory>
        ensures ok { OnOk result (self.new ≡ self.old ++ spelling proto (tree_of value.now)) }
        ensures count { IfOk result (λ n. n ≡ length (spelling proto (tree_of value.now))) }
        ensures err { OnErr result (self.new ≡ self.old) }
    {
        self.make_room();
        let held = self.bytes.len();
        put_value(proto, value, &mut self.bytes)?;
        Ok(self.bytes.len() - held)
    }

    // The room of what left is used again, once that is most of it.
    fn make_room(&mut self)
        ensures { self.new ≡ self.old }
    {
        if self.start > self.bytes.len() / 2 {
            self.compact();
        }
    }

    /// Copies the queued bytes to where the buffer begins. They are fewer than those that left,
    /// so this costs a constant for each byte that ever left.
    fn compact(&mut self)
        ensures { self.new ≡ self.old }
    {
        let kept = self.bytes.len() - self.start;
        self.bytes.copy_within(self.start.., 0);
        self.bytes.truncate(kept);
        self.start = 0;
    }

    /// The first bytes, at most so many.
    pub fn front(&self, most: usize) -> Result<Octets, NoMemory>
        ensures { IfOk result (λ o. o ≡ take most self.now) }
    {
        let count = most.min(self.len());
        Octets::from_slice(*self.bytes.allocator(), &self.as_slice()[..count])
    }

    /// Takes `count` bytes out, and drops the `first` ones before them. They are moved within the
    /// buffer, which goes with them; what stands behind them is copied.
    pub fn cut(&mut self, first: usize, count: usize) -> Result<Octets, NoMemory>
        requires { first + count ≤ length self.old }
        ensures ok { OnOk result (self.new ≡ drop (first + count) self.old) }
        ensures cut { IfOk result (λ o. o ≡ take count (drop first self.old)) }
        ensures err { OnErr result (self.new ≡ self.old) }
    {
        let (_, behind) = self.as_slice().split_at(first + count);
        let behind = Vec::from_slice(*self.bytes.allocator(), behind)?;
        let behind = ByteQueue {
            bytes: behind,
            start: 0,
        };
        let mut taken = mem::replace(self, behind);
        taken.advance(first);
        taken.keep(count);
        Ok(taken.into_octets())
    }

    /// All bytes, in their buffer.
    fn into_octets(self) -> Octets
        ensures { result ≡ self }
    {
        let ByteQueue { bytes, start } = self;
        let mut bytes = bytes;
        let kept = bytes.len() - start;
        // Of a few bytes before them this is one move of all.
        bytes.rotate_left(start);
        bytes.truncate(kept);
        bytes.shrink_to_fit();
        Octets::from_vec(bytes)
    }

    /// Drops the first bytes, at most so many. It takes no memory.
    pub fn advance(&mut self, most: usize)
        ensures { self.new ≡ drop most self.old }
    {
        let count = most.min(self.len());
        self.start += count;
    }

    /// Keeps the first bytes, at most so many. It takes no memory.
    pub fn keep(&mut self, most: usize)
        ensures { self.new ≡ take most self.old }
    {
        let count = most.min(self.len());
        self.bytes.truncate(self.start + count);
    }

    /// Drops all bytes. It takes no memory.
    pub fn drop_all(&mut self)
        ensures { self.new ≡ [] }
    {
        self.bytes.clear();
        self.start = 0;
    }
}
