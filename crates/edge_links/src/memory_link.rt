//! A link in memory, which plays its steps in order and keeps what is written.
ghost use Rattle.std.specs.Prelude.{◌≡◌, ◌≤◌, ◌<◌, ◌-◌, ◌^◌, [], false, IfOk, length};
ghost use Rattle.std.specs.Io.KnownBytes.{Keeps};
ghost use Rattle.std.specs.declared.option.Option.TheVariants.{Some};

use super::NoMemory;
use super::counts::Counts;
use super::links::{Link, LinkRead};
use super::memory::MemorySink;
use super::streams::{Sink, Wrote};
use std::alloc::Global;
use std::collections::VecDeque;

/// What a read of a link in memory comes to.
#[derive(Debug, Drop)]
pub enum LinkStep {
    /// Reads give these bytes.
    Bytes(Vec<u8>),
    /// One read answers `Idle`.
    Idle,
    /// Reads answer `Idle` until so many bytes were written in all.
    Wait(u64),
    /// The same, but where so many reads have answered `Idle` before, every read from here on
    /// answers `End`.
    Await { bytes: u64, reads: u64 },
    /// One read fails.
    Fail,
    /// Every read from here on answers `End`.
    End,
}

/// Plays its steps and then gives `End`. It keeps what is written, up to its room. Writes are
/// numbered from 1.
#[derive(Debug, Drop)]
pub struct MemoryLink {
    step: LinkStep,
    // How many bytes of this step were given.
    at: usize,
    steps: VecDeque<LinkStep>,
    written: MemorySink,
    writes: u64,
    // The number of the write that fails, if not 0.
    failing: u64,
    // How many bytes a write takes at most.
    most: usize,
    counts: Counts,
    ghost takes_some: { 1 ≤ most },
}

impl MemoryLink {
    ghost use Rattle.edge_links.specs.Counts.{nought};
    ghost use Rattle.edge_links.specs.Memory.{bytes_written, room_of, writes_named};
    ghost use Rattle.edge_links.specs.MemoryLinks.{begun_anew, bytes_to_come, is_passed};
    ghost use Rattle.edge_links.specs.MemoryLinks.{link_writes, step_bytes};

    /// The room is reserved here, so that no write takes memory.
    pub fn new(alloc: Global, room: usize, steps: Vec<LinkStep>) -> Result<Self, NoMemory>
        ensures bytes { IfOk result (λ l. bytes_to_come l ≡ step_bytes steps.items) }
        ensures written { IfOk result (λ l. bytes_written l.written ≡ []) }
        ensures room { IfOk result (λ l. room_of l.written ≡ room) }
        ensures named { IfOk result (λ l. writes_named l.written ≡ []) }
        ensures writes { IfOk result (λ l. link_writes l ≡ record {
          made = 0;
          failing = 0;
          most = 2 ^ 64 - 1;
        }) }
        ensures counts { IfOk result (λ l. ⟦<MemoryLink as Link>⟧.counts l ≡ nought) }
    {
        let written = MemorySink::new(alloc, room, Vec::new(alloc))?;
        Ok(MemoryLink {
            step: LinkStep::Bytes(Vec::new(alloc)),
            at: 0,
            steps: VecDeque::from(steps),
            written,
            writes: 0,
            failing: 0,
            most: usize::MAX,
            counts: Counts::new(),
        })
    }

    /// The write of this number fails. It is one write alone: the number that was named before is
    /// forgotten, and 0 is that of none.
    pub fn fail_write(&mut self, nth: u64)
        ensures writes { link_writes self.new ≡ record (link_writes self.old) { failing = nth } }
        ensures left { bytes_to_come self.new ≡ bytes_to_come self.old }
        ensures written { self.new.written ≡ self.old.written }
        ensures counts { self.new.counts ≡ self.old.counts }
    {
        self.failing = nth;
    }

    /// A write takes at most so many bytes.
    pub fn take_most(&mut self, most: usize)
        requires { 1 ≤ most }
        ensures writes { link_writes self.new ≡ record (link_writes self.old) { most = most } }
        ensures left { bytes_to_come self.new ≡ bytes_to_come self.old }
        ensures written { self.new.written ≡ self.old.written }
        ensures counts { self.new.counts ≡ self.old.counts }
    {
        self.most = most;
    }

    /// What was written.
    pub fn bytes(&self) -> &[u8]
        ensures { result.now ≡ bytes_written self.now.written }
    {
        self.written.bytes()
    }

    pub(crate) fn begin_anew(&mut self)
        ensures { self.new ≡ begun_anew self.old }
    {
        self.counts = Counts::new();
    }

    // Whether the step has nothing to answer any more.
    fn is_passed(&self) -> bool
        ensures { result ≡ is_passed self.now }
    {
        match &self.step {
            LinkStep::Bytes(bytes) => bytes.len() <= self.at,
            LinkStep::Wait(count) => *count <= self.written.bytes().len() as u64,
            LinkStep::Await { bytes, .. } => *bytes <= self.written.bytes().len() as u64,
            _ => false,
        }
    }

    // Steps that have nothing to answer are left behind.
    fn pass(&mut self)
        ensures bytes { Keeps (bytes_to_come self.old) (bytes_to_come self.new) }
        ensures written { self.new.written ≡ self.old.written }
        ensures counts { self.new.counts ≡ self.old.counts }
        ensures passed { is_passed self.new ≡ false }
    {
        while self.is_passed() {
            match self.steps.pop_front() {
                Some(step) => {
                    self.step = step;
                    self.at = 0;
                }
                None => {
                    self.step = LinkStep::End;
                    break;
                }
            }
        }
    }
}

impl Link for MemoryLink {
    ghost use Rattle.edge_links.specs.Memory.{bytes_written, next_call, room_of, writes_named};
    ghost use Rattle.edge_links.specs.MemoryLinks.{bytes_to_come, link_write_answer, link_writes};
    ghost use Rattle.edge_links.specs.Streams.{WriteTakes, WriteCounts};

    ghost left = { bytes_to_come };

    ghost contents = { λ l. Some (bytes_written l.written) };

    ghost counts = { λ l. l.counts };

    fn read(&mut self, buf: &mut [u8]) -> LinkRead {
        self.pass();
        match &self.step {
            LinkStep::Bytes(bytes) => {
                let n = (bytes.len() - self.at).min(buf.len());
                let end = self.at + n;
                buf[..n].copy_from_slice(&bytes[self.at..end]);
                self.at = end;
                LinkRead::Bytes(n)
            }
            LinkStep::Idle => {
                self.step = LinkStep::Wait(0);
                self.counts.idle();
                LinkRead::Idle
            }
            LinkStep::Wait(_) => {
                self.counts.idle();
                LinkRead::Idle
            }
            LinkStep::Await { reads: 0, .. } => {
                self.step = LinkStep::End;
                self.counts.end();
                LinkRead::End
            }
            LinkStep::Await { bytes, reads } => {
                self.step = LinkStep::Await {
                    bytes: *bytes,
                    reads: *reads - 1,
                };
                self.counts.idle();
                LinkRead::Idle
            }
            LinkStep::Fail => {
                self.step = LinkStep::Wait(0);
                self.counts.fault();
                LinkRead::Failed
            }
            LinkStep::End => {
                self.counts.end();
                LinkRead::End
            }
        }
    }

    fn write(&mut self, bytes: &[u8]) -> Wrote
        requires { 0 < length bytes.now }
        ensures bytes { WriteTakes result (Some (bytes_written self.old.written))
            (Some (bytes_written self.new.written)) bytes.now }
        ensures unread { Keeps (bytes_to_come self.old) (bytes_to_come self.new) }
        ensures counts { WriteCounts result self.old.counts self.new.counts }
        ensures answer { result ≡ link_write_answer self.old (length bytes.now) }
        ensures writes { link_writes self.new
            ≡ record (link_writes self.old) { made = next_call (link_writes self.old).made } }
        ensures room { room_of self.new.written ≡ room_of self.old.written }
        ensures named { writes_named self.new.written ≡ writes_named self.old.written }
    {
        self.writes = self.writes.saturating_add(1);
        if self.writes == self.failing {
            self.counts.fault();
            return Wrote::Failed;
        }
        let (piece, _) = bytes.split_at(self.most.min(bytes.len()));
        let wrote = self.written.write(piece);
        if wrote == Wrote::Failed {
            self.counts.fault();
        }
        wrote
    }
}
