//! Byte strings of lengths around both limits, between which their bytes lie in the value, in a
//! piece of memory of their own, and in one that copies share.
use resp_value::{NoMemory, Octets};
use std::alloc::Global;
use std::test::Fail;

const LENGTHS: &str = "0 1 29 30 31 60 4095 4096 4097 65536";

/// So many bytes, of which no two neighbours are the same.
pub(crate) fn numbered(alloc: Global, length: usize) -> Result<Vec<u8>, NoMemory> {
    let mut bytes = Vec::new(alloc);
    for number in 0..length {
        bytes.push((number % 251) as u8)?;
    }
    Ok(bytes)
}

/// Whether it has these bytes, and others behind them.
fn is_joined(octets: &Octets, bytes: &[u8], more: &[u8]) -> bool {
    match octets.as_slice().split_at_checked(bytes.len()) {
        Some((front, back)) => front == bytes && back == more,
        None => false,
    }
}

/// Whether what is appended to a copy is there, and no other sees it.
fn is_apart(first: &Octets, bytes: &[u8], more: &[u8]) -> Result<bool, NoMemory> {
    let mut second = first.copy()?;
    let third = second.copy()?;
    second.append(more)?;
    let fourth = second.copy()?;
    second.append(b"!")?;
    Ok(
        is_joined(first, bytes, b"")
            && is_joined(&third, bytes, b"")
            && is_joined(&fourth, bytes, more)
            && second.as_slice().len() == bytes.len() + more.len() + 1,
    )
}

fn holds(alloc: Global, length: usize) -> Result<bool, NoMemory> {
    let bytes = numbered(alloc, length)?;
    let copied = Octets::from_slice(alloc, bytes.as_slice())?;
    let given = Octets::from_vec(numbered(alloc, length)?);
    let mut is_right = given.as_slice() == bytes.as_slice();
    for more in ["", "a", "thirty bytes and one for a test"] {
        is_right = is_right
            && is_apart(&copied, bytes.as_slice(), more.as_bytes())?
            && is_apart(&given, bytes.as_slice(), more.as_bytes())?;
    }
    Ok(is_right)
}

#[test]
fn a_copy_is_apart_from_its_source(rt: HostRuntime) -> Result<(), Fail> {
    for length in LENGTHS.split(' ') {
        assert!(rt; holds(rt.alloc(), length.parse().unwrap_or(0))?, "{length}");
    }
    Ok(())
}
