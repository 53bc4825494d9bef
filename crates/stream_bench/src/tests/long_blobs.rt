//! A queue of long blobs, which it shares, between short messages, which it copies.
use super::octets::numbered;
use out_queue::OutQueue;
use resp_value::{NoMemory, Octets, Proto, Value, put_value};
use std::alloc::Global;
use std::test::Fail;

const LENGTHS: &str = "4096 0 70000 4095 4097 5000 12";

fn blob(alloc: Global, length: usize) -> Result<Value, NoMemory> {
    let bytes = numbered(alloc, length)?;
    Ok(Value::Blob(Octets::from_slice(alloc, bytes.as_slice())?))
}

/// Adds a message and a value, in the queue as in plain bytes, and whether it counts the same.
fn add(queue: &mut OutQueue, plain: &mut Vec<u8>, value: &Value) -> Result<bool, NoMemory> {
    queue.add(b"+OK\r\n")?;
    plain.extend_from_slice(b"+OK\r\n")?;
    let before = plain.len() as u64;
    let count = queue.add_value(Proto::Three, value)?;
    put_value(Proto::Three, value, plain)?;
    Ok(queue.size() == plain.len() as u64 && before.saturating_add(count) == queue.size())
}

fn fill(alloc: Global, queue: &mut OutQueue, plain: &mut Vec<u8>) -> Result<bool, NoMemory> {
    let mut is_right = true;
    for length in LENGTHS.split(' ') {
        let value = blob(alloc, length.parse().unwrap_or(0))?;
        is_right = add(queue, plain, &value)? && is_right;
    }
    Ok(is_right)
}

/// Whether the queue gives these bytes and no more, so many at a time.
fn gives(queue: &mut OutQueue, bytes: &[u8], most: usize) -> Result<bool, NoMemory> {
    let mut rest = bytes;
    for _ in 0..bytes.len() {
        let taken = queue.take_bytes(most)?;
        let Some((front, behind)) = rest.split_at_checked(taken.as_slice().len()) else {
            return Ok(false);
        };
        if front != taken.as_slice() {
            return Ok(false);
        }
        rest = behind;
        if rest.is_empty() {
            break;
        }
    }
    Ok(rest.is_empty() && queue.size() == 0)
}

fn is_taken(alloc: Global, most: usize) -> Result<bool, NoMemory> {
    let mut queue = OutQueue::new(alloc);
    let mut plain = Vec::new(alloc);
    Ok(fill(alloc, &mut queue, &mut plain)? && gives(&mut queue, plain.as_slice(), most)?)
}

#[test]
fn long_and_short_leave_in_order(rt: HostRuntime) -> Result<(), Fail> {
    for most in "97 4096 4107 65536 1000000".split(' ') {
        assert!(rt; is_taken(rt.alloc(), most.parse().unwrap_or(0))?, "{most}");
    }
    Ok(())
}

/// Whether, with so many bytes kept, a message that comes then follows them.
fn is_kept(alloc: Global, most: usize) -> Result<bool, NoMemory> {
    let mut queue = OutQueue::new(alloc);
    let mut plain = Vec::new(alloc);
    if !fill(alloc, &mut queue, &mut plain)? {
        return Ok(false);
    }
    queue.keep(most);
    plain.truncate(most);
    Ok(
        add(&mut queue, &mut plain, &blob(alloc, 4096)?)?
            && gives(&mut queue, plain.as_slice(), 5000)?,
    )
}

#[test]
fn a_long_blob_can_be_cut(rt: HostRuntime) -> Result<(), Fail> {
    for most in "0 4 5 12 13 4000 4109 4110 4111 4127 50000 80000 200000".split(' ') {
        assert!(rt; is_kept(rt.alloc(), most.parse().unwrap_or(0))?, "{most}");
    }
    Ok(())
}
