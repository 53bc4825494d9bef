//! Reads pipelined requests, pipelined replies and large blobs through both readers, and prints how
//! many it read.
//!
//! `stream_bench gets 64` reads 64 MiB of requests; also `gets`, `replies`, `request_blobs`,
//! `reply_blobs`. `all` reads each, and so does no word.
#![tactic(auto)]

ghost use Rattle.std.specs.Prelude.{◌≡◌, ◌∷◌, [], IfOk, IfErr};
ghost use Rattle.resp_stream.specs.declared.fault.StreamFault.TheVariants as StreamFault;
ghost use Rattle.stream_bench.specs.Reading as reading;
ghost use Rattle.stream_bench.specs.Reading.{Counts, requests_in, values_in, Reads, new_readers};
ghost use Rattle.stream_bench.specs.Reading.{blob_of, NewReads, mebibytes_of, blobs_of};
ghost use Rattle.stream_bench.specs.Reading.{asked_of, Runs};

#[cfg(test)]
mod tests;

use resp_stream::{RequestReader, StreamFault, ValueReader};
use std::alloc::Global;
use std::rt::Runtime;
use std::{env, io};

/// How many bytes are fed at once, as a socket gives them.
const PIECE: usize = 65536;

/// The bytes, again and again, as often as 32 bytes fit into a piece.
fn repeated(alloc: Global, bytes: &[u8]) -> Result<Vec<u8>, StreamFault>
    ensures ok { IfOk result (λ piece. piece.items ≡ reading.repeated 2048 bytes.now) }
    ensures err { IfErr result (λ fault. fault ≡ StreamFault.NoMemory) }
{
    let mut piece = Vec::new(alloc);
    for _ in 0..PIECE / 32 {
        let Ok(()) = piece.extend_from_slice(bytes) else {
            return Err(StreamFault::NoMemory);
        };
    }
    Ok(piece)
}

fn feed_requests(reader: &mut RequestReader, piece: &[u8]) -> Result<u64, StreamFault>
    ensures { Counts (requests_in (piece.now ∷ []) reader.old) reader.new result }
{
    let Ok(()) = reader.feed(piece) else {
        return Err(StreamFault::NoMemory);
    };
    let mut requests = 0u64;
    for _ in 0..PIECE {
        match reader.next_request()? {
            Some(_) => {
                requests = requests.saturating_add(1);
            }
            None => {
                return Ok(requests);
            }
        }
    }
    Ok(requests)
}

fn feed_values(reader: &mut ValueReader, piece: &[u8]) -> Result<u64, StreamFault>
    ensures { Counts (values_in (piece.now ∷ []) reader.old) reader.new result }
{
    let Ok(()) = reader.feed(piece) else {
        return Err(StreamFault::NoMemory);
    };
    let mut values = 0u64;
    for _ in 0..PIECE {
        match reader.next_value()? {
            Some(_) => {
                values = values.saturating_add(1);
            }
            None => {
                return Ok(values);
            }
        }
    }
    Ok(values)
}

/// The first line of a blob of 16 MiB.
fn blob_head(requests: bool) -> &'static [u8]
    ensures { result.now ≡ reading.head_of requests }
{
    if requests {
        b"*1\r\n$16777216\r\n"
    } else {
        b"$16777216\r\n"
    }
}

/// A reader of each kind.
#[derive(Drop)]
struct Readers {
    requests: RequestReader,
    values: ValueReader,
}

impl Readers {
    fn new(alloc: Global) -> Readers
        ensures { result ≡ new_readers }
    {
        Readers {
            requests: RequestReader::new(alloc),
            values: ValueReader::new(alloc),
        }
    }

    /// Feeds one of them, and says how many requests or values it read.
    fn feed(&mut self, requests: bool, bytes: &[u8]) -> Result<u64, StreamFault>
        ensures { Reads requests (bytes.now ∷ []) self.old self.new result }
    {
        if requests {
            feed_requests(&mut self.requests, bytes)
        } else {
            feed_values(&mut self.values, bytes)
        }
    }

    /// Feeds the piece so many times.
    fn feed_often(&mut self, requests: bool, piece: &[u8], times: u64) -> Result<u64, StreamFault>
        ensures { Reads requests (reading.repeated times (piece.now ∷ []))
            self.old self.new result }
    {
        let mut count = 0u64;
        for _ in 0..times {
            count = count.saturating_add(self.feed(requests, piece)?);
        }
        Ok(count)
    }

    /// Feeds a blob of 16 MiB, 64 KiB at a time.
    fn feed_blob(&mut self, requests: bool, piece: &[u8]) -> Result<u64, StreamFault>
        ensures { Reads requests (blob_of requests piece.now) self.old self.new result }
    {
        let begun = self.feed(requests, blob_head(requests))?;
        let held = self.feed_often(requests, piece, 256)?;
        let ended = self.feed(requests, b"\r\n")?;
        Ok(begun.saturating_add(held).saturating_add(ended))
    }
}

/// So many MiB of one request or reply, pipelined.
fn pipelined(alloc: Global, requests: bool, bytes: &[u8], size: u64) -> Result<u64, StreamFault>
    ensures { NewReads requests (mebibytes_of bytes.now size) result }
{
    let piece = repeated(alloc, bytes)?;
    let mut readers = Readers::new(alloc);
    let mut count = 0u64;
    for _ in 0..size {
        let more = readers.feed_often(requests, piece.as_slice(), 16)?;
        count = count.saturating_add(more);
    }
    Ok(count)
}

/// So many blobs of 16 MiB, fed a piece at a time.
fn blobs(alloc: Global, requests: bool, size: u64) -> Result<u64, StreamFault>
    ensures { NewReads requests (blobs_of requests size) result }
{
    let piece = repeated(alloc, b"0123456789abcdef0123456789abcdef")?;
    let mut readers = Readers::new(alloc);
    let mut count = 0u64;
    for _ in 0..size {
        count = count.saturating_add(readers.feed_blob(requests, piece.as_slice())?);
    }
    Ok(count)
}

/// 32 bytes each.
const GET: &[u8] = b"*2\r\n$3\r\nGET\r\n$12\r\nuser:0000017\r\n";

const REPLY: &[u8] = b"$25\r\nthe value of the key 1234\r\n";

/// Reads `size` MiB in this way; nothing for another word.
fn run(alloc: Global, word: &str, size: u64) -> Option<Result<u64, StreamFault>>
    ensures { Runs (asked_of word.now size) result }
{
    match word {
        "gets" => Some(pipelined(alloc, true, GET, size)),
        "replies" => Some(pipelined(alloc, false, REPLY, size)),
        "request_blobs" => Some(blobs(alloc, true, size / 16)),
        "reply_blobs" => Some(blobs(alloc, false, size / 16)),
        _ => None,
    }
}

/// Prints how many were read in this way.
fn report<R: Runtime>(rt: &R, alloc: Global, name: &str, size: u64) -> io::Result<()> {
    match run(alloc, name, size) {
        Some(Ok(count)) => println!(rt; "{name} {count}"),
        Some(Err(_)) => println!(rt; "{name} failed"),
        None => println!(rt; "{name} is unknown"),
    }
}

fn main(rt: HostRuntime) -> io::Result<()> {
    let mut words = env::args(&rt)?;
    words.next();
    let word = words.next();
    let size = match words.next() {
        Some(size) => size.as_str().parse::<u64>().unwrap_or(1),
        None => 1,
    };
    for name in ["gets", "replies", "request_blobs", "reply_blobs"] {
        let is_asked = match &word {
            Some(word) => word.as_str() == name || word.as_str() == "all",
            None => true,
        };
        if is_asked {
            report(&rt, rt.alloc(), name, size)?;
        }
    }
    Ok(())
}
