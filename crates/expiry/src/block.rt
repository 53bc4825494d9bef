//! A block of an index: deadlines that stand next to each other in it.
ghost use Rattle.std.specs.Prelude.{◌≡◌, ◌==◌, ◌++◌, ◌<◌, ◌∷◌, [], true, OnOk, OnErr, IfOk, length};
ghost use Rattle.std.specs.Prelude.{option_map, slice_get};
ghost use Rattle.expiry.specs.Index.{has, with, without, due, left};
ghost use Rattle.expiry.specs.Blocks.{begins_after, begins_due, is_past};
ghost use Rattle.expiry.specs.Order.{IsOrdered};
ghost use Rattle.expiry.specs.Places.{IsDueFront, IsPlaceFor};

use super::index::Deadline;
use resp_value::{NoMemory, Octets};
use std::alloc::Global;
use std::marker::Model;

/// How many deadlines a block holds before it is split, so that a change moves few of them.
const MOST: usize = 256;

/// Deadlines that stand next to each other in an index, in its order.
#[derive(Drop)]
pub struct Block {
    deadlines: Vec<Deadline>,
}

impl Model for Block {
    ghost use Rattle.std.specs.Prelude.{List};
    ghost use Rattle.expiry.specs.declared.index.Deadline.{Deadline};

    ghost Value = { List Deadline };

    ghost view = { λ b. b.deadlines.items };

    ghost use Rattle.expiry.specs.Order.{IsOrdered};

    ghost invariant = { λ b. IsOrdered b.deadlines.items };
}

impl Block {
    /// A block of one deadline.
    pub(crate) fn new(alloc: Global, at: u64, key: &[u8]) -> Result<Block, NoMemory>
        ensures { IfOk result (λ b. b ≡ record { at = at; key = key.now } ∷ []) }
    {
        let key = Octets::from_slice(alloc, key)?;
        let mut deadlines = Vec::new(alloc);
        deadlines.push(Deadline { at, key })?;
        Ok(Block { deadlines })
    }

    pub(crate) fn is_empty(&self) -> bool
        ensures { result ≡ (length self.now == 0) }
    {
        self.deadlines.is_empty()
    }

    /// Whether it is to be split before it grows.
    pub(crate) fn is_full(&self) -> bool
        ensures { result ≡ true → 1 < length self.now }
    {
        self.deadlines.len() >= MOST
    }

    pub(crate) fn first(&self) -> Option<&Deadline>
        ensures { option_map (λ d. d.now) result ≡ slice_get self.now 0 }
    {
        self.deadlines.first()
    }

    /// Whether its first deadline comes after that of this moment and key.
    pub(crate) fn begins_after(&self, at: u64, key: &[u8]) -> bool
        ensures { result ≡ begins_after (record { at = at; key = key.now }) self.now }
    {
        match self.deadlines.first() {
            None => false,
            Some(first) => first.comes_after(at, key),
        }
    }

    /// Whether its first deadline is before the moment.
    pub(crate) fn begins_due(&self, moment: u64) -> bool
        ensures { result ≡ begins_due moment self.now }
    {
        match self.deadlines.first() {
            None => false,
            Some(first) => first.at < moment,
        }
    }

    // The place of the first deadline that is not before this one.
    fn place_for(&self, at: u64, key: &[u8]) -> usize
        ensures { IsPlaceFor (record { at = at; key = key.now }) self.now result }
    {
        let mut low = 0;
        let mut high = self.deadlines.len();
        'halves: while low < high {
            let middle = low + (high - low) / 2;
            if self.deadlines[middle].comes_before(at, key) {
                low = middle + 1;
            } else {
                high = middle;
            }
        }
        low
    }

    /// The key has this deadline, besides those that are there.
    pub(crate) fn set(&mut self, alloc: Global, deadline: u64, key: &[u8]) -> Result<(), NoMemory>
        ensures ok { OnOk result
            (self.new ≡ with (record { at = deadline; key = key.now }) self.old) }
        ensures err { OnErr result (self.new ≡ self.old) }
    {
        let place = self.place_for(deadline, key);
        if place < self.deadlines.len() && self.deadlines[place].is_same(deadline, key) {
            return Ok(());
        }
        let key = Octets::from_slice(alloc, key)?;
        self.deadlines
            .insert(place, Deadline { at: deadline, key })?;
        Ok(())
    }

    /// The key does not have this deadline any more; the answer is whether it was there.
    pub(crate) fn unset(&mut self, deadline: u64, key: &[u8]) -> bool
        ensures gone { self.new ≡ without (record { at = deadline; key = key.now }) self.old }
        ensures was { result ≡ has (record { at = deadline; key = key.now }) self.old }
    {
        let place = self.place_for(deadline, key);
        if place < self.deadlines.len() && self.deadlines[place].is_same(deadline, key) {
            self.deadlines.remove(place);
            true
        } else {
            false
        }
    }

    // How many deadlines are before the moment.
    fn due_count(&self, moment: u64) -> usize
        ensures { IsDueFront moment self.now result }
    {
        for (place, deadline) in self.deadlines.iter().enumerate() {
            if deadline.at >= moment {
                return place;
            }
        }
        self.deadlines.len()
    }

    /// The deadlines before the moment, in order.
    pub fn due(&self, moment: u64) -> &[Deadline]
        ensures due { result.now ≡ due moment self.now }
        ensures ordered { IsOrdered self.now }
    {
        &self.deadlines[..self.due_count(moment)]
    }

    /// Whether all its deadlines are before the moment.
    pub(crate) fn is_past(&self, moment: u64) -> bool
        ensures { result ≡ is_past moment self.now }
    {
        match self.deadlines.last() {
            None => true,
            Some(last) => last.at < moment,
        }
    }

    /// The deadlines before the moment are gone. It takes no memory.
    pub(crate) fn drop_due(&mut self, moment: u64)
        ensures { self.new ≡ left moment self.old }
    {
        if self.due_count(moment) > 0 {
            self.deadlines.retain(|deadline| deadline.at >= moment);
        }
    }

    /// Its second half goes into a block of its own; of the last block of an index its last
    /// deadline alone, so that deadlines which come in order leave full blocks behind.
    pub(crate) fn split(&mut self, is_last: bool) -> Result<Block, NoMemory>
        requires { 1 < length self.old }
        ensures ok { IfOk result (λ b. self.old ≡ self.new ++ b) }
        ensures held { IfOk result (λ b. (0 < length self.new) × (0 < length b)) }
        ensures err { OnErr result (self.new ≡ self.old) }
    {
        let len = self.deadlines.len();
        let keep = if is_last { len - 1 } else { len / 2 };
        let deadlines = self.deadlines.split_off(keep)?;
        Ok(Block { deadlines })
    }
}
