//! Bytes of a byte string, which is shared and not copied.
ghost use Rattle.std.specs.Prelude.{◌≡◌, ◌≤◌, length, take, drop};

use resp_value::Octets;
use std::marker::Model;

/// The bytes of `bytes` from `start` to `end`.
#[derive(Drop)]
pub(crate) struct Segment {
    bytes: Octets,
    start: usize,
    end: usize,
}

impl Model for Segment {
    ghost use Rattle.std.specs.Prelude.{ℕ, List, ◌≤◌, length, take, drop};

    ghost Value = { List ℕ };

    ghost view = { λ s. drop s.start (take s.end s.bytes) };

    ghost invariant = { λ s. (s.start ≤ s.end) × (s.end ≤ length s.bytes) };
}

impl Segment {
    /// All bytes of it.
    pub(crate) fn new(bytes: Octets) -> Segment
        ensures { result ≡ bytes }
    {
        let end = bytes.as_slice().len();
        Segment {
            bytes,
            start: 0,
            end,
        }
    }

    pub(crate) fn as_slice(&self) -> &[u8]
        ensures { result.now ≡ self.now }
    {
        &self.bytes.as_slice()[self.start..self.end]
    }

    /// Drops the first bytes.
    pub(crate) fn advance(&mut self, count: usize)
        requires { count ≤ length self.old }
        ensures { self.new ≡ drop count self.old }
    {
        self.start += count;
    }

    /// Keeps the first bytes.
    pub(crate) fn keep(&mut self, count: usize)
        requires { count ≤ length self.old }
        ensures { self.new ≡ take count self.old }
    {
        self.end = self.start + count;
    }
}
