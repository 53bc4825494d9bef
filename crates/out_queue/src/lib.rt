//! What was sent to a connection and not taken yet.
#![tactic(auto)]

ghost use Rattle.std.specs.Prelude.{◌≡◌, ◌++◌, ◌<◌, ◌^◌, ◌+◌, ◌↔◌, IsTrue, [], OnOk, OnErr};
ghost use Rattle.std.specs.Prelude.{IfOk, IfSome, length, take, drop};
ghost use Rattle.resp_value.specs.Spelling.{spelling, head, counted};
ghost use Rattle.resp_value.specs.ValueTree.{tree_of};

mod segment;
mod segments;

use byte_queue::ByteQueue;
use itoa::Buffer;
use resp_value::{NoMemory, Octets, Proto, Value};
use segment::Segment;
use segments::{advance, copy_bytes, copy_front, cut};
use std::alloc::Global;
use std::collections::VecDeque;
use std::marker::Model;

/// How many bytes a queue may have held for its room to be kept once it is empty.
const ROOM_KEPT: u64 = 65_536;

/// From how many bytes on a blob is shared with the queue, and not copied into it.
const SHARED_FROM: usize = 4096;

/// What stands before a blob of so many bytes.
#[tactic(auto, unfolding(resp_value::specs::Spelling::head, resp_value::specs::Spelling::line))]
fn blob_head(alloc: Global, length: usize) -> Result<Octets, NoMemory>
    ensures { IfOk result (λ h. h ≡ head 36 length) }
{
    let mut digits = Buffer::new();
    let mut head = Octets::from_slice(alloc, b"$")?;
    head.append(digits.format(length).as_bytes())?;
    head.append(b"\r\n")?;
    Ok(head)
}

/// Shares may count as more bytes than there is memory.
fn sum_of(older: usize, before: usize, blob: usize) -> Option<usize>
    ensures sum { IfSome result (λ n. n ≡ older + before + blob) }
    ensures bound { IfSome result (λ n. n < 2 ^ 63) }
{
    let sum = older.checked_add(before)?.checked_add(blob)?;
    if sum <= usize::MAX / 2 {
        Some(sum)
    } else {
        None
    }
}

/// The bytes of messages, in the order in which the messages were added. Where one ends is not
/// kept: a connection takes bytes, not messages. A long blob is shared with the value that it came
/// in; all else is copied. The room of a queue that held many bytes is given
/// back once they were all taken, so that what waits, and not what once waited, takes memory.
#[derive(Drop)]
pub struct OutQueue {
    alloc: Global,
    /// What came up to the last long blob; a queue of short messages has no segments.
    older: VecDeque<Segment>,
    /// How many bytes these are.
    older_size: usize,
    bytes: ByteQueue,
    /// Whether it held more than `ROOM_KEPT` bytes since its room was last given back.
    is_large: bool,
}

impl Model for OutQueue {
    ghost use Rattle.std.specs.Prelude.{◌≡◌, ◌<◌, ◌^◌, ◌++◌, ℕ, List, length};
    ghost use Rattle.std.specs.List.{concat};

    ghost Value = { List ℕ };

    ghost view = { λ q. concat q.older.items ++ q.bytes };

    ghost invariant = { λ q. (q.older_size ≡ length (concat q.older.items))
        × (q.older_size < 2 ^ 63) };
}

impl OutQueue {
    /// It takes no memory.
    pub fn new(alloc: Global) -> OutQueue
        ensures { result ≡ [] }
    {
        OutQueue {
            alloc,
            older: VecDeque::new(alloc),
            older_size: 0,
            bytes: ByteQueue::new(alloc),
            is_large: false,
        }
    }

    /// How many bytes were not taken yet.
    pub fn size(&self) -> u64
        ensures { result ≡ length self.now }
    {
        (self.older_size + self.bytes.as_slice().len()) as u64
    }

    /// Whether there are more bytes than an output limit allows.
    pub fn is_over(&self, limit: u64) -> bool
        ensures { IsTrue result ↔ limit < length self.now }
    {
        self.size() > limit
    }

    /// The message goes last.
    pub fn add(&mut self, message: &[u8]) -> Result<(), NoMemory>
        ensures ok { OnOk result (self.new ≡ self.old ++ message.now) }
        ensures err { OnErr result (self.new ≡ self.old) }
    {
        self.bytes.add(message)?;
        self.note_size();
        Ok(())
    }

    /// The message goes last: a value, as it is spelled. It answers of how many bytes it is. A long
    /// blob is shared with the value.
    pub fn add_value(&mut self, proto: Proto, value: &Value) -> Result<u64, NoMemory>
        ensures ok { OnOk result (self.new ≡ self.old ++ spelling proto (tree_of value.now)) }
        ensures count { IfOk result (λ n. n ≡ length (spelling proto (tree_of value.now))) }
        ensures err { OnErr result (self.new ≡ self.old) }
    {
        let count = match value {
            Value::Blob(blob) if SHARED_FROM <= blob.as_slice().len() => self.add_blob(blob)?,
            _ => self.bytes.add_value(proto, value)?,
        };
        self.note_size();
        Ok(count as u64)
    }

    /// A blob goes last, shared with the value.
    fn add_blob(&mut self, blob: &Octets) -> Result<usize, NoMemory>
        ensures ok { OnOk result (self.new ≡ self.old ++ counted 36 blob.now) }
        ensures count { IfOk result (λ n. n ≡ length (counted 36 blob.now)) }
        ensures err { OnErr result (self.new ≡ self.old) }
    {
        let length = blob.as_slice().len();
        let head = blob_head(self.alloc, length)?;
        let mut before = self.bytes.front(self.bytes.len())?;
        before.append(head.as_slice())?;
        let share = blob.copy()?;
        let mut after = ByteQueue::new(self.alloc);
        after.add(b"\r\n")?;
        let Some(size) = sum_of(self.older_size, before.as_slice().len(), length) else {
            return Err(NoMemory);
        };
        self.older.reserve(2)?;
        self.older.push_back_reserved(Segment::new(before));
        self.older.push_back_reserved(Segment::new(share));
        self.older_size = size;
        self.bytes = after;
        Ok(head.as_slice().len() + length + 2)
    }

    fn note_size(&mut self)
        ensures { self.new ≡ self.old }
    {
        if self.is_over(ROOM_KEPT) {
            self.is_large = true;
        }
    }

    /// The first bytes, at most so many.
    pub fn front(&self, max: usize) -> Result<Octets, NoMemory>
        ensures { IfOk result (λ bytes. bytes ≡ take max self.now) }
    {
        if self.older.is_empty() {
            return self.bytes.front(max);
        }
        let most = self.size() as usize;
        let mut out = Vec::with_capacity(self.alloc, max.min(most))?;
        let (upper, lower) = self.older.as_slices();
        copy_front(upper, max, &mut out)?;
        copy_front(lower, max, &mut out)?;
        copy_bytes(self.bytes.as_slice(), max, &mut out)?;
        Ok(Octets::from_vec(out))
    }

    /// Drops the first bytes, at most so many. It takes no memory, and gives back the room of many
    /// bytes once none are left.
    pub fn advance(&mut self, max: usize)
        ensures { self.new ≡ drop max self.old }
    {
        self.pass(max);
        if self.is_large && self.size() == 0 {
            self.drop_all();
        }
    }

    fn pass(&mut self, max: usize)
        ensures { self.new ≡ drop max self.old }
    {
        let count = advance(&mut self.older, max);
        self.older_size -= count;
        self.bytes.advance(max - count);
    }

    /// Takes the first bytes, at most so many.
    pub fn take_bytes(&mut self, max: usize) -> Result<Octets, NoMemory>
        ensures taken { IfOk result (λ bytes. bytes ≡ take max self.old) }
        ensures left { OnOk result (self.new ≡ drop max self.old) }
        ensures err { OnErr result (self.new ≡ self.old) }
    {
        let taken = self.front(max)?;
        self.advance(max);
        Ok(taken)
    }

    /// Keeps the first bytes, at most so many, and drops what was added behind them. It takes no
    /// memory.
    pub fn keep(&mut self, most: usize)
        ensures { self.new ≡ take most self.old }
    {
        if most < self.older_size {
            cut(&mut self.older, self.older_size - most);
            self.older_size = most;
            self.bytes.drop_all();
        } else {
            self.bytes.keep(most - self.older_size);
        }
    }

    /// Drops all bytes, and gives back their room. It takes no memory.
    pub fn drop_all(&mut self)
        ensures { self.new ≡ [] }
    {
        self.older = VecDeque::new(self.alloc);
        self.older_size = 0;
        self.bytes = ByteQueue::new(self.alloc);
        self.is_large = false;
    }
}
