//! What a reader was fed and has not passed.
ghost use Rattle.std.specs.Prelude.{◌≡◌, ◌≤◌, ◌+◌, [], true, length, take, drop, is_some, None};
ghost use Rattle.std.specs.Prelude.{Some, IsOk, OnOk, OnErr, IfOk};
ghost use Rattle.resp_stream.specs.Stream.{fed, offset_by, stream_fault};
ghost use Rattle.resp_stream.specs.ReaderStates.{stream_of};

use super::fault::{Fault, StreamFault, stream_fault};
use byte_queue::ByteQueue;
use resp_value::{NoMemory, Octets};
use std::alloc::Global;

/// The bytes that were fed and not passed, with the offset of the first of them and the fault that
/// broke the stream.
#[derive(Drop)]
pub struct Input {
    before: u64,
    rest: ByteQueue,
    broken: Option<StreamFault>,
}

impl Input {
    pub(crate) fn new(alloc: Global) -> Input
        ensures { result ≡ record { before = 0; rest = []; broken = None } }
    {
        Input {
            before: 0,
            rest: ByteQueue::new(alloc),
            broken: None,
        }
    }

    /// The piece follows what was fed; after a fault it is dropped.
    pub(crate) fn feed(&mut self, piece: &[u8]) -> Result<(), NoMemory>
        ensures ok { OnOk result (stream_of self.new ≡ fed (stream_of self.old) piece.now) }
        ensures broken { self.new.broken ≡ self.old.broken }
        ensures err { OnErr result (self.new ≡ self.old) }
        ensures failed { is_some self.old.broken ≡ true → IsOk result }
    {
        if self.broken.is_some() {
            return Ok(());
        }
        self.rest.add(piece)
    }

    /// The fault that broke the stream.
    pub(crate) fn fault(&self) -> Option<StreamFault>
        ensures fault { result ≡ self.now.broken }
        ensures offset { self.now.before ≤ 18446744073709551615 }
    {
        // A number's range is known where it is read.
        let _before = self.before;
        self.broken
    }

    pub(crate) fn bytes(&self) -> &[u8]
        ensures { result.now ≡ self.now.rest }
    {
        self.rest.as_slice()
    }

    /// The first bytes are done.
    pub(crate) fn pass(&mut self, count: usize)
        ensures before { self.new.before ≡ offset_by self.old.before count }
        ensures rest { self.new.rest ≡ drop count self.old.rest }
        ensures broken { self.new.broken ≡ self.old.broken }
    {
        self.before = self.before.saturating_add(count as u64);
        self.rest.advance(count);
    }

    /// Cuts a blob out, by its place, and passes it with its end. Its copies share it, as far as
    /// there is memory for the count of its owners.
    pub(crate) fn cut(&mut self, first: usize, count: usize) -> Result<Octets, NoMemory>
        requires { first + count + 2 ≤ length self.old.rest }
        ensures before { OnOk result
            (self.new.before ≡ offset_by self.old.before (first + count + 2)) }
        ensures rest { OnOk result (self.new.rest ≡ drop (first + count + 2) self.old.rest) }
        ensures broken { self.new.broken ≡ self.old.broken }
        ensures cut { IfOk result (λ o. o ≡ take count (drop first self.old.rest)) }
        ensures err { OnErr result (self.new ≡ self.old) }
    {
        // A list's length is bounded where it is read.
        let _held = self.rest.len();
        let mut blob = self.rest.cut(first, count)?;
        self.before = self.before.saturating_add((first + count) as u64);
        self.pass(2);
        match blob.append(&[]) {
            Ok(()) | Err(_) => Ok(blob),
        }
    }

    /// Breaks the stream by a fault at the byte that comes after so many.
    pub(crate) fn fail(&mut self, fault: Fault, at: usize) -> StreamFault
        ensures fault { result ≡ stream_fault fault (offset_by self.old.before at) }
        ensures broken { self.new ≡ record self.old { broken = Some result } }
    {
        let fault = stream_fault(fault, self.before.saturating_add(at as u64));
        self.broken = Some(fault);
        fault
    }
}
