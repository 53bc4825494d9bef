//! The age of each key, found by a mark of 64 bits: the key's text stands in its row alone.
//!
//! Strangers choose the keys and may choose many of one mark. A key whose mark another has is found
//! by its text in an ordered map, so what it takes to find a key grows as the logarithm of their
//! count, whatever the keys are.
ghost use Rattle.std.specs.Prelude.{◌≡◌, ◌&&◌, if◌then◌else◌, ℕ, OnOk, OnErr, Some, None};
ghost use Rattle.std.specs.BTreeMap.{is_at};
ghost use Rattle.std.specs.Ordering.{nat_cmp};
ghost use Rattle.track_table.specs.Marks.{IsGone, IsPut, age_at, is_age, mark_at, other_at};
ghost use Rattle.track_table.specs.Marks.{is_hit as hit, mark_of as mark};

use super::table::Held;
use resp_value::NoMemory;
use std::alloc::Global;
use std::collections::BTreeMap;
use std::hash::{DefaultHasher, Hasher};

#[tactic(auto, unfolding(crate::specs::Marks::mark_of))]
fn mark_of(key: &[u8]) -> u64
    ensures { result ≡ mark key.now }
{
    let mut hasher = DefaultHasher::new();
    hasher.write(key);
    hasher.finish()
}

// Whether the row of this age is that of the key.
fn is_hit(rows: &BTreeMap<u64, Held>, age: u64, key: &[u8]) -> bool
    ensures { result ≡ hit key.now rows.now.entries (Some age) }
{
    match rows.get(&age) {
        Some(row) => row.key() == key,
        None => false,
    }
}

fn other_age(others: &BTreeMap<Vec<u8>, u64>, key: &[u8]) -> Option<u64>
    ensures { result ≡ other_at key.now others.now.entries }
{
    match others.get(key) {
        Some(age) => Some(*age),
        None => None,
    }
}

/// The age of a key. Where no key has a mark, none is reckoned.
pub fn age_of(
    rows: &BTreeMap<u64, Held>,
    marks: &BTreeMap<u64, u64>,
    others: &BTreeMap<Vec<u8>, u64>,
    key: &[u8],
) -> Option<u64>
    ensures { result
        ≡ age_at key.now rows.now.entries marks.now.entries others.now.entries }
{
    if marks.is_empty() {
        return other_age(others, key);
    }
    match marks.get(&mark_of(key)) {
        Some(age) => {
            if is_hit(rows, *age, key) {
                Some(*age)
            } else {
                other_age(others, key)
            }
        }
        None => other_age(others, key),
    }
}

/// The key, which had none, has this age.
pub fn put_age(
    alloc: Global,
    marks: &mut BTreeMap<u64, u64>,
    others: &mut BTreeMap<Vec<u8>, u64>,
    key: &[u8],
    age: u64,
) -> Result<(), NoMemory>
    ensures ok { OnOk result (IsPut key.now age marks.old.entries marks.new.entries
        others.old.entries others.new.entries) }
    ensures err { OnErr result ((marks.new.entries ≡ marks.old.entries)
        × (others.new.entries ≡ others.old.entries)) }
{
    let mark = mark_of(key);
    match marks.get(&mark) {
        Some(_) => {
            others.insert(Vec::from_slice(alloc, key)?, age)?;
        }
        None => {
            marks.insert(mark, age)?;
        }
    }
    Ok(())
}

// The mark has this age no more.
fn drop_mark(marks: &mut BTreeMap<u64, u64>, mark: u64, age: u64)
    ensures { (m : ℕ) → mark_at m marks.new.entries
        ≡ (if is_at (nat_cmp mark) m && is_age (mark_at m marks.old.entries) age then None
        else mark_at m marks.old.entries) }
{
    if let Some(at) = marks.get(&mark) {
        if *at == age {
            let _ = marks.remove(&mark);
        }
    }
}

/// The key, which had this age, has none any more. It takes no memory.
pub fn drop_age(
    marks: &mut BTreeMap<u64, u64>,
    others: &mut BTreeMap<Vec<u8>, u64>,
    key: &[u8],
    age: u64,
)
    ensures { IsGone key.now age marks.old.entries marks.new.entries
        others.old.entries others.new.entries }
{
    drop_mark(marks, mark_of(key), age);
    let _ = others.remove(key);
}
