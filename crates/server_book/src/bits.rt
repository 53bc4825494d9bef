//! Rows of bits, 64 a word.
ghost use Rattle.std.specs.Prelude.{◌≡◌, ◌<◌, ◌≤◌, ◌*◌, OnOk, length, ℕ};
ghost use Rattle.server_book.specs.Roster.{bit_in};

use resp_value::NoMemory;

pub fn is_set(words: &[u64], at: usize) -> bool
    requires { at < 64 * length words.now }
    ensures { result ≡ bit_in words.now at }
{
    words[at / 64] >> (at % 64) & 1 == 1
}

/// Sets a bit, or clears it, and leaves the others as they are.
pub fn put(words: &mut Vec<u64>, at: usize, on: bool)
    requires { at < 64 * length words.old.items }
    ensures length { length words.new.items ≡ length words.old.items }
    ensures here { bit_in words.new.items at ≡ on }
    ensures others { (other : ℕ) → (other ≡ at → ⊥)
        → bit_in words.new.items other ≡ bit_in words.old.items other }
{
    let mask = 1 << (at % 64);
    if on {
        words[at / 64] |= mask;
    } else {
        words[at / 64] &= !mask;
    }
}

/// Makes room for the bit of a next place.
pub fn make_room(words: &mut Vec<u64>, next: usize) -> Result<(), NoMemory>
    requires { next ≤ 64 * length words.old.items }
    ensures bits { (at : ℕ) → bit_in words.new.items at ≡ bit_in words.old.items at }
    ensures longer { length words.old.items ≤ length words.new.items }
    ensures room { OnOk result (next < 64 * length words.new.items) }
{
    if next / 64 == words.len() {
        words.push(0)?;
    }
    Ok(())
}
