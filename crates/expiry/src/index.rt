//! The index of deadlines, in order of moment and key.
ghost use Rattle.std.specs.Prelude.{◌≡◌, ◌<◌, ℕ, true, [], length, OnOk, OnErr, option_map};
ghost use Rattle.expiry.specs.Index.{comes_before, is_same, has, with, without, is_due};
ghost use Rattle.expiry.specs.Index.{due, left, first_of};
ghost use Rattle.expiry.specs.Blocks.{begins_due, block_at, is_nil, joined};
ghost use Rattle.expiry.specs.Order.{IsOrdered};

use super::block::Block;
use super::blocks;
use resp_value::{NoMemory, Octets};
use std::alloc::Global;
use std::cmp::Ordering;
use std::marker::Model;

/// A key, and the moment in milliseconds after which it is gone.
#[derive(Drop)]
pub struct Deadline {
    pub at: u64,
    pub key: Octets,
}

impl Deadline {
    /// Whether it stands before the deadline of this moment and key.
    pub(crate) fn comes_before(&self, at: u64, key: &[u8]) -> bool
        ensures { result ≡ comes_before self.now (record { at = at; key = key.now }) }
    {
        self.at < at || (self.at == at && self.key.as_slice().cmp(key) == Ordering::Less)
    }

    /// Whether it stands behind the deadline of this moment and key.
    pub(crate) fn comes_after(&self, at: u64, key: &[u8]) -> bool
        ensures { result ≡ comes_before (record { at = at; key = key.now }) self.now }
    {
        at < self.at || (at == self.at && key.cmp(self.key.as_slice()) == Ordering::Less)
    }

    pub(crate) fn is_same(&self, at: u64, key: &[u8]) -> bool
        ensures { result ≡ is_same (record { at = at; key = key.now }) self.now }
    {
        self.at == at && self.key.as_slice() == key
    }
}

/// The deadlines of keys, the earliest first, and at one moment in byte order of the keys; each is
/// there once. They stand in blocks of some hundreds, which are found by halving: so a change moves
/// the deadlines of one block, and not half of all.
#[derive(Drop)]
pub struct DeadlineIndex {
    alloc: Global,
    blocks: Vec<Block>,
}

impl Model for DeadlineIndex {
    ghost use Rattle.std.specs.Prelude.{List};
    ghost use Rattle.expiry.specs.declared.index.Deadline.{Deadline};
    ghost use Rattle.expiry.specs.Blocks.{AreBlocks, joined};

    ghost Value = { List Deadline };

    ghost view = { λ i. joined i.blocks.items };

    ghost invariant = { λ i. AreBlocks i.blocks.items };
}

impl DeadlineIndex {
    /// No deadlines; takes no memory yet.
    pub fn new(alloc: Global) -> DeadlineIndex
        ensures { result ≡ [] }
    {
        DeadlineIndex {
            alloc,
            blocks: Vec::new(alloc),
        }
    }

    /// Whether there are no deadlines.
    pub fn is_empty(&self) -> bool
        ensures { result ≡ is_nil self.now }
    {
        match blocks::first(&self.blocks) {
            Some(_) => false,
            None => true,
        }
    }

    /// The key has this deadline, besides those that are there.
    pub fn set(&mut self, deadline: u64, key: &[u8]) -> Result<(), NoMemory>
        ensures ok { OnOk result
            (self.new ≡ with (record { at = deadline; key = key.now }) self.old) }
        ensures err { OnErr result (self.new ≡ self.old) }
    {
        blocks::set(self.alloc, &mut self.blocks, deadline, key)
    }

    /// The key does not have this deadline any more; the answer is whether it was there. It takes
    /// no memory.
    pub fn unset(&mut self, deadline: u64, key: &[u8]) -> bool
        ensures gone { self.new ≡ without (record { at = deadline; key = key.now }) self.old }
        ensures was { result ≡ has (record { at = deadline; key = key.now }) self.old }
    {
        blocks::unset(&mut self.blocks, deadline, key)
    }

    /// The first deadline, where it is before the moment.
    pub fn first_due(&self, moment: u64) -> Option<(u64, &[u8])>
        ensures { option_map (λ p. record { at = p.0; key = p.1.now }) result
            ≡ first_of (due moment self.now) }
    {
        let first = blocks::first(&self.blocks)?;
        if first.at < moment {
            Some((first.at, first.key.as_slice()))
        } else {
            None
        }
    }

    /// The blocks at the front that hold the deadlines before the moment, in order.
    pub fn due_blocks(&self, moment: u64) -> &[Block]
        ensures due { due moment (joined result.now) ≡ due moment self.now }
        ensures begun { (i : ℕ) → i < length result.now →
            begins_due moment (block_at result.now i) ≡ true }
        ensures ordered { IsOrdered self.now }
    {
        &self.blocks[..blocks::begun(&self.blocks, moment)]
    }

    /// The deadlines before the moment are gone. It takes no memory.
    pub fn drop_due(&mut self, moment: u64)
        ensures { self.new ≡ left moment self.old }
    {
        blocks::drop_due(&mut self.blocks, moment);
    }

    /// No deadlines are left. It takes no memory.
    pub fn clear(&mut self)
        ensures { self.new ≡ [] }
    {
        self.blocks.clear();
    }
}
