//! A queue of bytes against worked examples.
use byte_queue::ByteQueue;
use resp_value::NoMemory;
use std::process::Abort;
use std::test::Fail;

// What is added, how much is taken, the bytes of that, and what is left.
const STEPS: &str = "\
|3||
abcdef|0||abcdef
|2|ab|cdef
gh|5|cdefg|h
ij|9|hij|
k|1|k|";

/// The two parts of a row at the first stroke.
fn parts_of(row: &str) -> (&str, &str) {
    row.split_once('|').unwrap_or((row, ""))
}

/// Whether these bytes are at the front.
fn starts_with(queue: &ByteQueue, most: usize, front: &str) -> Result<bool, NoMemory> {
    let given = queue.front(most)?;
    Ok(given.as_slice() == front.as_bytes())
}

fn gives(queue: &mut ByteQueue, row: &str) -> Result<bool, NoMemory> {
    let (added, rest) = parts_of(row);
    let (most, rest) = parts_of(rest);
    let (front, left) = parts_of(rest);
    let most = most.parse().unwrap_or(0);
    queue.add(added.as_bytes())?;
    if !starts_with(queue, most, front)? {
        return Ok(false);
    }
    queue.advance(most);
    Ok(queue.as_slice() == left.as_bytes())
}

fn play<R: Abort>(rt: &R, queue: &mut ByteQueue) -> Result<(), Fail> {
    for row in STEPS.lines() {
        assert!(rt; gives(queue, row)?, "{row}");
    }
    assert_eq!(rt; queue.len(), 0);
    Ok(())
}

#[test]
fn bytes_leave_in_the_order_in_which_they_came(rt: HostRuntime) -> Result<(), Fail> {
    let mut queue = ByteQueue::new(rt.alloc());
    play(&rt, &mut queue)
}

// How many bytes are kept, and what is left.
const KEPT: &str = "\
9|abcde
3|abc";

fn take_back<R: Abort>(rt: &R, queue: &mut ByteQueue) -> Result<(), Fail> {
    queue.add(b"abc")?;
    queue.add(b"de")?;
    for row in KEPT.lines() {
        let (most, left) = parts_of(row);
        queue.keep(most.parse().unwrap_or(0));
        assert!(rt; queue.as_slice() == left.as_bytes(), "{row}");
    }
    queue.drop_all();
    assert_eq!(rt; queue.len(), 0);
    Ok(())
}

#[test]
fn what_was_added_last_can_be_taken_back(rt: HostRuntime) -> Result<(), Fail> {
    let mut queue = ByteQueue::new(rt.alloc());
    take_back(&rt, &mut queue)
}
