//! A limit that no law speaks of at its number.
use resp_stream::{StreamFault, ValueReader};
use resp_value::{NoMemory, Value};
use std::alloc::Global;
use std::test::Fail;

/// A blob of so many bytes, after the line that says how many.
fn put_blob(out: &mut Vec<u8>, head: &[u8], count: usize) -> Result<(), NoMemory> {
    out.extend_from_slice(head)?;
    for _ in 0..count / 4096 {
        out.extend_from_slice(&[b'x'; 4096])?;
    }
    for _ in 0..count % 4096 {
        out.push(b'x')?;
    }
    out.extend_from_slice(b"\r\n")?;
    Ok(())
}

/// The offset of the fault of four blobs that is too long a value, where it is one.
fn fault_of_four(alloc: Global, head: &[u8], count: usize) -> Result<Option<u64>, NoMemory> {
    let mut longest = Vec::new(alloc);
    put_blob(&mut longest, b"$16777216\r\n", 16777216)?;
    let mut last = Vec::new(alloc);
    put_blob(&mut last, head, count)?;
    fault_of(alloc, longest.as_slice(), last.as_slice())
}

fn fault_of(alloc: Global, longest: &[u8], last: &[u8]) -> Result<Option<u64>, NoMemory> {
    let mut reader = ValueReader::new(alloc);
    feed_four(&mut reader, longest, last)?;
    Ok(offset_of(&reader.next_value()))
}

fn feed_four(reader: &mut ValueReader, longest: &[u8], last: &[u8]) -> Result<(), NoMemory> {
    reader.feed(b"*4\r\n")?;
    for _ in 0..3 {
        reader.feed(longest)?;
    }
    reader.feed(last)
}

fn offset_of(answer: &Result<Option<Value>, StreamFault>) -> Option<u64> {
    match answer {
        Ok(Some(_)) => None,
        Ok(None) => Some(0),
        Err(StreamFault::TooLong { offset, .. }) => Some(*offset),
        Err(_) => Some(1),
    }
}

#[test]
fn the_limit_of_a_whole_value_is_exact(rt: HostRuntime) -> Result<(), Fail> {
    let whole = fault_of_four(rt.alloc(), b"$16777160\r\n", 16777160)?;
    assert!(rt; whole == None);
    let longer = fault_of_four(rt.alloc(), b"$16777161\r\n", 16777161)?;
    assert!(rt; longer == Some(67108864));
    Ok(())
}
