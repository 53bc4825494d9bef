//! The blocks of an index, found by halving.
ghost use Rattle.std.specs.Prelude.{◌≡◌, ◌<◌, ◌≤◌, [], OnOk, OnErr, length, option_map};
ghost use Rattle.std.specs.Prelude.{drop, slice_get};
ghost use Rattle.std.specs.List.{remove};
ghost use Rattle.expiry.specs.Index.{has, left, with, without};
ghost use Rattle.expiry.specs.Blocks.{AreBlocks, AreHeld, IsBlockFor, IsBegun, IsPast, joined};

use super::block::Block;
use super::index::Deadline;
use resp_value::NoMemory;
use std::alloc::Global;

/// The block where the deadline is, or else goes.
fn block_for(blocks: &[Block], at: u64, key: &[u8]) -> usize
    requires { 0 < length blocks.now }
    ensures { IsBlockFor (record { at = at; key = key.now }) blocks.now result }
{
    let mut low = 0;
    let mut high = blocks.len();
    'halves: while low + 1 < high {
        let middle = low + (high - low) / 2;
        if blocks[middle].begins_after(at, key) {
            high = middle;
        } else {
            low = middle;
        }
    }
    low
}

/// The block at this place has room.
fn make_room(blocks: &mut Vec<Block>, place: usize) -> Result<(), NoMemory>
    requires there { place < length blocks.old.items }
    requires blocks { AreBlocks blocks.old.items }
    ensures same { joined blocks.new.items ≡ joined blocks.old.items }
    ensures blocks { AreBlocks blocks.new.items }
    ensures some { 0 < length blocks.new.items }
{
    if !blocks[place].is_full() {
        return Ok(());
    }
    blocks.reserve(1)?;
    let is_last = place + 1 == blocks.len();
    let after = blocks[place].split(is_last)?;
    match blocks.insert(place + 1, after) {
        Ok(()) => Ok(()),
        Err(_) => unreachable!(),
    }
}

/// The key has this deadline, besides those that are there.
pub(crate) fn set(
    alloc: Global,
    blocks: &mut Vec<Block>,
    at: u64,
    key: &[u8],
) -> Result<(), NoMemory>
    requires { AreBlocks blocks.old.items }
    ensures ok { OnOk result (joined blocks.new.items
        ≡ with (record { at = at; key = key.now }) (joined blocks.old.items)) }
    ensures err { OnErr result (joined blocks.new.items ≡ joined blocks.old.items) }
    ensures blocks { AreBlocks blocks.new.items }
{
    if blocks.is_empty() {
        let block = Block::new(alloc, at, key)?;
        blocks.push(block)?;
        return Ok(());
    }
    make_room(blocks, block_for(blocks, at, key))?;
    let place = block_for(blocks, at, key);
    blocks[place].set(alloc, at, key)
}

/// The block at this place goes, if it has no deadline.
fn remove_empty(blocks: &mut Vec<Block>, place: usize)
    requires there { place < length blocks.old.items }
    requires held { AreHeld (remove blocks.old.items place) }
    ensures same { joined blocks.new.items ≡ joined blocks.old.items }
    ensures held { AreHeld blocks.new.items }
{
    if blocks[place].is_empty() {
        blocks.remove(place);
    }
}

/// The key does not have this deadline any more; the answer is whether it was there.
pub(crate) fn unset(blocks: &mut Vec<Block>, at: u64, key: &[u8]) -> bool
    requires { AreBlocks blocks.old.items }
    ensures gone { joined blocks.new.items
        ≡ without (record { at = at; key = key.now }) (joined blocks.old.items) }
    ensures was { result ≡ has (record { at = at; key = key.now }) (joined blocks.old.items) }
    ensures blocks { AreBlocks blocks.new.items }
{
    if blocks.is_empty() {
        return false;
    }
    let place = block_for(blocks, at, key);
    let was = blocks[place].unset(at, key);
    remove_empty(blocks, place);
    was
}

/// The first deadline of all.
pub(crate) fn first(blocks: &[Block]) -> Option<&Deadline>
    requires { AreBlocks blocks.now }
    ensures { option_map (λ d. d.now) result ≡ slice_get (joined blocks.now) 0 }
{
    blocks.first()?.first()
}

/// How many blocks at the front begin with a deadline before the moment.
pub(crate) fn begun(blocks: &[Block], moment: u64) -> usize
    ensures { IsBegun moment blocks.now result }
{
    for (place, block) in blocks.iter().enumerate() {
        if !block.begins_due(moment) {
            return place;
        }
    }
    blocks.len()
}

// How many blocks at the front have no deadline but those before the moment.
fn past(blocks: &[Block], moment: u64) -> usize
    ensures { IsPast moment blocks.now result }
{
    for (place, block) in blocks.iter().enumerate() {
        if !block.is_past(moment) {
            return place;
        }
    }
    blocks.len()
}

/// So many blocks at the front go.
fn drop_front(blocks: &mut Vec<Block>, count: usize)
    requires { count ≤ length blocks.old.items }
    ensures { blocks.new.items ≡ drop count blocks.old.items }
{
    blocks.drain(..count);
}

/// The deadlines before the moment are gone.
pub(crate) fn drop_due(blocks: &mut Vec<Block>, moment: u64)
    requires { AreBlocks blocks.old.items }
    ensures left { joined blocks.new.items ≡ left moment (joined blocks.old.items) }
    ensures blocks { AreBlocks blocks.new.items }
{
    let gone = past(blocks, moment);
    drop_front(blocks, gone);
    if let Some(first) = blocks.first_mut() {
        first.drop_due(moment);
    }
}
