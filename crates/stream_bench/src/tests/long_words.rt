//! Requests with long words that come in pieces, with other requests behind them.
use super::octets::numbered;
use resp_stream::{RequestReader, StreamFault};
use resp_value::{NoMemory, Octets, Proto, Value, Values, put_value};
use std::alloc::Global;
use std::test::Fail;

const LENGTHS: &str = "0 4095 4096 4097 70000";

const PIECES: &str = "1000 4095 4096 4103 4104 4105 4107 65536 1000000";

/// An array of blobs of so many bytes each.
fn put_request(alloc: Global, lengths: &[usize], out: &mut Vec<u8>) -> Result<(), NoMemory> {
    let mut words = Values::new(alloc);
    for length in lengths {
        words.push(Value::Blob(Octets::from_vec(numbered(alloc, *length)?)))?;
    }
    put_value(Proto::Three, &Value::Array(words), out)
}

/// A request whose long word is its last, one whose long word is not, and two of one word.
fn spelled(alloc: Global, length: usize) -> Result<Vec<u8>, NoMemory> {
    let mut text = Vec::new(alloc);
    put_request(alloc, &[3, 5, length], &mut text)?;
    put_request(alloc, &[3, length, 5], &mut text)?;
    put_request(alloc, &[length], &mut text)?;
    put_request(alloc, &[4], &mut text)?;
    Ok(text)
}

/// The spelling of what is read, until more is needed, goes last.
fn read_all(
    alloc: Global,
    reader: &mut RequestReader,
    out: &mut Vec<u8>,
) -> Result<bool, NoMemory> {
    for _ in 0..5 {
        let words = match reader.next_request() {
            Ok(Some(words)) => words,
            Ok(None) => return Ok(true),
            Err(StreamFault::NoMemory) => return Err(NoMemory),
            Err(_) => return Ok(false),
        };
        let mut values = Values::new(alloc);
        for word in words.as_slice() {
            values.push(Value::Blob(word.copy()?))?;
        }
        put_value(Proto::Three, &Value::Array(values), out)?;
    }
    Ok(false)
}

fn feed_pieces(
    alloc: Global,
    reader: &mut RequestReader,
    text: &[u8],
    most: usize,
    out: &mut Vec<u8>,
) -> Result<bool, NoMemory> {
    let mut left = text;
    for _ in 0..text.len() {
        let (piece, others) = left.split_at(most.min(left.len()));
        reader.feed(piece)?;
        if !read_all(alloc, reader, out)? {
            return Ok(false);
        }
        left = others;
        if left.is_empty() {
            break;
        }
    }
    Ok(out.as_slice() == text)
}

/// Whether the requests are read as they were spelled, fed so many bytes at a time.
fn is_read(alloc: Global, length: usize, most: usize) -> Result<bool, NoMemory> {
    let text = spelled(alloc, length)?;
    let mut reader = RequestReader::new(alloc);
    let mut out = Vec::new(alloc);
    feed_pieces(alloc, &mut reader, text.as_slice(), most, &mut out)
}

#[test]
fn long_words_are_read_however_they_are_cut(rt: HostRuntime) -> Result<(), Fail> {
    for length in LENGTHS.split(' ') {
        for most in PIECES.split(' ') {
            let count = length.parse().unwrap_or(0);
            let piece = most.parse().unwrap_or(1);
            assert!(rt; is_read(rt.alloc(), count, piece)?, "{length} {most}");
        }
    }
    Ok(())
}
