//! Long blobs that come in pieces, with other values behind them.
use super::octets::numbered;
use resp_stream::{StreamFault, ValueReader};
use resp_value::{NoMemory, Octets, Proto, Value, put_value};
use std::alloc::Global;
use std::test::Fail;

const LENGTHS: &str = "0 4095 4096 4097 70000";

const PIECES: &str = "1000 4095 4096 4103 4104 4105 4107 65536 1000000";

/// A blob, a number and the blob again, as they are spelled.
fn spelled(alloc: Global, length: usize) -> Result<Vec<u8>, NoMemory> {
    let blob = Value::Blob(Octets::from_vec(numbered(alloc, length)?));
    let mut text = Vec::new(alloc);
    put_value(Proto::Three, &blob, &mut text)?;
    put_value(Proto::Three, &Value::Number(7), &mut text)?;
    put_value(Proto::Three, &blob, &mut text)?;
    Ok(text)
}

/// The spelling of what is read, until more is needed, goes last.
fn read_all(reader: &mut ValueReader, out: &mut Vec<u8>) -> Result<bool, NoMemory> {
    for _ in 0..4 {
        match reader.next_value() {
            Ok(Some(value)) => put_value(Proto::Three, &value, out)?,
            Ok(None) => return Ok(true),
            Err(StreamFault::NoMemory) => return Err(NoMemory),
            Err(_) => return Ok(false),
        }
    }
    Ok(false)
}

fn feed_pieces(
    reader: &mut ValueReader,
    text: &[u8],
    most: usize,
    out: &mut Vec<u8>,
) -> Result<bool, NoMemory> {
    let mut left = text;
    for _ in 0..text.len() {
        let (piece, others) = left.split_at(most.min(left.len()));
        reader.feed(piece)?;
        if !read_all(reader, out)? {
            return Ok(false);
        }
        left = others;
        if left.is_empty() {
            break;
        }
    }
    Ok(out.as_slice() == text)
}

/// Whether the values are read as they were spelled, fed so many bytes at a time.
fn is_read(alloc: Global, length: usize, most: usize) -> Result<bool, NoMemory> {
    let text = spelled(alloc, length)?;
    let mut reader = ValueReader::new(alloc);
    let mut out = Vec::new(alloc);
    feed_pieces(&mut reader, text.as_slice(), most, &mut out)
}

#[test]
fn long_replies_are_read_however_they_are_cut(rt: HostRuntime) -> Result<(), Fail> {
    for length in LENGTHS.split(' ') {
        for most in PIECES.split(' ') {
            let count = length.parse().unwrap_or(0);
            let piece = most.parse().unwrap_or(1);
            assert!(rt; is_read(rt.alloc(), count, piece)?, "{length} {most}");
        }
    }
    Ok(())
}
