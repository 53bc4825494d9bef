//! A source and a sink in memory, which fail at the calls that are named in advance.
ghost use Rattle.std.specs.Prelude.{◌≡◌, ◌≤◌, ◌<◌, [], length, IfOk, vec_capacity};
ghost use Rattle.std.specs.declared.option.Option.TheVariants.{Some};

use super::NoMemory;
use super::counts::Counts;
use super::streams::{Sink, Source, SourceRead, Wrote};
use std::alloc::Global;

/// Gives its bytes and then `End`. Reads are numbered from 1, and those in `fails` fail.
#[derive(Debug, Drop)]
pub struct MemorySource {
    bytes: Vec<u8>,
    at: usize,
    fails: Vec<u64>,
    reads: u64,
    counts: Counts,
    ghost in_range: { at ≤ length bytes.items },
}

impl MemorySource {
    ghost use Rattle.edge_links.specs.Counts.{nought};
    ghost use Rattle.edge_links.specs.Memory.{bytes_left, reads_made, reads_named};

    pub fn new(bytes: Vec<u8>, fails: Vec<u64>) -> Self
        ensures bytes { bytes_left result ≡ bytes.items }
        ensures made { reads_made result ≡ 0 }
        ensures named { reads_named result ≡ fails.items }
        ensures counts { ⟦<MemorySource as Source>⟧.counts result ≡ nought }
    {
        MemorySource {
            bytes,
            at: 0,
            fails,
            reads: 0,
            counts: Counts::new(),
        }
    }
}

impl Source for MemorySource {
    ghost use Rattle.edge_links.specs.Streams.{ReadGives, ReadCounts};
    ghost use Rattle.edge_links.specs.Memory.{bytes_left, next_call, read_answer, reads_made};
    ghost use Rattle.edge_links.specs.Memory.{reads_named};

    ghost left = { λ s. Some (bytes_left s) };

    ghost counts = { λ s. s.counts };

    fn read(&mut self, buf: &mut [u8]) -> SourceRead
        requires { 0 < length buf.old }
        ensures bytes { ReadGives result
            (Some (bytes_left self.old)) (Some (bytes_left self.new)) buf.new }
        ensures counts { ReadCounts result self.old.counts self.new.counts }
        ensures answer { result ≡ read_answer self.old (length buf.old) }
        ensures made { reads_made self.new ≡ next_call (reads_made self.old) }
        ensures named { reads_named self.new ≡ reads_named self.old }
    {
        self.reads = self.reads.saturating_add(1);
        if self.fails.contains(&self.reads) {
            self.counts.fault();
            return SourceRead::Failed;
        }
        let left = self.bytes.len() - self.at;
        if left == 0 {
            self.counts.end();
            return SourceRead::End;
        }
        let n = left.min(buf.len());
        let end = self.at + n;
        buf[..n].copy_from_slice(&self.bytes[self.at..end]);
        self.at = end;
        SourceRead::Bytes(n)
    }
}

/// Keeps what is written, up to its room. Writes are numbered from 1, and those in `fails` fail.
#[derive(Debug, Drop)]
pub struct MemorySink {
    bytes: Vec<u8>,
    room: usize,
    fails: Vec<u64>,
    writes: u64,
    counts: Counts,
    ghost taken: { room ≤ vec_capacity bytes },
}

impl MemorySink {
    ghost use Rattle.edge_links.specs.Counts.{nought};
    ghost use Rattle.edge_links.specs.Memory.{bytes_written, room_of, writes_made, writes_named};

    /// The room is reserved here, so that no write takes memory.
    pub fn new(alloc: Global, room: usize, fails: Vec<u64>) -> Result<Self, NoMemory>
        ensures bytes { IfOk result (λ s. bytes_written s ≡ []) }
        ensures room { IfOk result (λ s. room_of s ≡ room) }
        ensures made { IfOk result (λ s. writes_made s ≡ 0) }
        ensures named { IfOk result (λ s. writes_named s ≡ fails.items) }
        ensures counts { IfOk result (λ s. ⟦<MemorySink as Sink>⟧.counts s ≡ nought) }
    {
        match Vec::with_capacity(alloc, room) {
            Ok(bytes) => Ok(MemorySink {
                bytes,
                room,
                fails,
                writes: 0,
                counts: Counts::new(),
            }),
            Err(_) => Err(NoMemory),
        }
    }

    pub fn bytes(&self) -> &[u8]
        ensures { result.now ≡ bytes_written self.now }
    {
        self.bytes.as_slice()
    }
}

impl Sink for MemorySink {
    ghost use Rattle.edge_links.specs.Streams.{WriteTakes, WriteCounts};
    ghost use Rattle.edge_links.specs.Memory.{bytes_written, next_call, room_of, write_answer};
    ghost use Rattle.edge_links.specs.Memory.{writes_made, writes_named};

    ghost contents = { λ s. Some (bytes_written s) };

    ghost counts = { λ s. s.counts };

    fn write(&mut self, bytes: &[u8]) -> Wrote
        requires { 0 < length bytes.now }
        ensures bytes { WriteTakes result
            (Some (bytes_written self.old)) (Some (bytes_written self.new)) bytes.now }
        ensures counts { WriteCounts result self.old.counts self.new.counts }
        ensures answer { result ≡ write_answer self.old (length bytes.now) }
        ensures room { room_of self.new ≡ room_of self.old }
        ensures made { writes_made self.new ≡ next_call (writes_made self.old) }
        ensures named { writes_named self.new ≡ writes_named self.old }
    {
        self.writes = self.writes.saturating_add(1);
        let space = self.room.saturating_sub(self.bytes.len());
        let n = space.min(bytes.len());
        if n == 0 || self.fails.contains(&self.writes) {
            self.counts.fault();
            return Wrote::Failed;
        }
        match self.bytes.extend_from_slice(&bytes[..n]) {
            Ok(()) => Wrote::Took(n),
            Err(_) => unreachable!(),
        }
    }
}
