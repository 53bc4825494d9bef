//! Segments one after the other: what stands in a queue before its newest bytes.
ghost use Rattle.std.specs.Prelude.{◌≡◌, ◌++◌, ◌≤◌, ◌+◌, ◌-◌, ◌∷◌, [], ℕ, List};
ghost use Rattle.std.specs.Prelude.{IfOk, OnOk, OnErr, length, take, drop};
ghost use Rattle.std.specs.List.{concat};

use super::segment::Segment;
use resp_value::NoMemory;
use std::collections::VecDeque;

/// Copies the first bytes behind those in `out`, up to `most` with them.
pub(crate) fn copy_front(
    segments: &[Segment],
    most: usize,
    out: &mut Vec<u8>,
) -> Result<(), NoMemory>
    requires { length out.old.items ≤ most }
    ensures { OnOk result (out.new.items ≡ take most (out.old.items ++ concat segments.now)) }
{
    for segment in segments {
        copy_bytes(segment.as_slice(), most, out)?;
        if out.len() == most {
            return Ok(());
        }
    }
    Ok(())
}

/// Copies the first bytes behind those in `out`, up to `most` with them.
pub(crate) fn copy_bytes(bytes: &[u8], most: usize, out: &mut Vec<u8>) -> Result<(), NoMemory>
    requires { length out.old.items ≤ most }
    ensures { OnOk result (out.new.items ≡ take most (out.old.items ++ bytes.now)) }
{
    let count = bytes.len().min(most - out.len());
    out.extend_from_slice(&bytes[..count])?;
    Ok(())
}

/// Drops the first bytes, at most so many, and says how many.
pub(crate) fn advance(segments: &mut VecDeque<Segment>, most: usize) -> usize
    ensures rest { concat segments.new.items ≡ drop most (concat segments.old.items) }
    ensures most { result ≤ most }
    ensures count { result + length (concat segments.new.items)
        ≡ length (concat segments.old.items) }
{
    let mut left = most;
    'segments: while let Some(mut segment) = segments.pop_front() {
        let length = segment.as_slice().len();
        if left < length {
            segment.advance(left);
            segments.push_front_reserved(segment);
            return most;
        }
        left -= length;
    }
    most - left
}

/// Drops the last bytes.
pub(crate) fn cut(segments: &mut VecDeque<Segment>, count: usize)
    requires { count ≤ length (concat segments.old.items) }
    ensures { concat segments.new.items
        ≡ take (length (concat segments.old.items) - count) (concat segments.old.items) }
{
    let mut left = count;
    'segments: while let Some(mut segment) = segments.pop_back() {
        let length = segment.as_slice().len();
        if left < length {
            segment.keep(length - left);
            segments.push_back_reserved(segment);
            return;
        }
        left -= length;
    }
}
