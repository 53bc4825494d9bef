//! What a link keeps whose socket doesn't wait: whether a read is due, and what is to be written.
ghost use Rattle.std.specs.Prelude.{◌≤◌, ◌<◌, length, IfSome};
ghost use Rattle.std.specs.declared.option.Option.TheVariants.{None};
ghost use Rattle.edge_links.specs.Streams.{WriteTakes};

use super::lookout::Sign;
use byte_queue::ByteQueue;
use edge_links::Wrote;
use std::alloc::Global;
use std::io::{ErrorKind, Write};
use std::net::TcpStream;

/// How long a peer may take nothing of what is to be written, in milliseconds.
const PATIENCE: u64 = 10_000;

/// How many bytes may have been kept for their room to be kept once they are written.
const ROOM_KEPT: usize = 65_536;

#[derive(Drop)]
pub(crate) struct Unblocked {
    alloc: Global,
    /// A sign came, or the last read filled its buffer.
    may_have_more: bool,
    is_ending: bool,
    /// What the socket didn't take yet.
    kept: ByteQueue,
    /// Whether more than `ROOM_KEPT` bytes were kept since none were.
    is_large: bool,
    /// At which moment the socket last took something, or was first asked to.
    moved_at: Option<u64>,
    is_lost: bool,
}

impl Unblocked {
    pub(crate) fn new(alloc: Global) -> Self {
        Unblocked {
            alloc,
            may_have_more: false,
            is_ending: false,
            kept: ByteQueue::new(alloc),
            is_large: false,
            moved_at: None,
            is_lost: false,
        }
    }

    pub(crate) fn told(&mut self, sign: Sign) {
        self.may_have_more = self.may_have_more || sign.can_read;
        self.is_ending = self.is_ending || sign.is_ending;
    }

    /// A read came back, and filled its buffer or not.
    pub(crate) fn has_read(&mut self, is_full: bool) {
        self.may_have_more = is_full;
    }

    pub(crate) fn is_due(&self) -> bool {
        self.may_have_more || self.is_ending || self.is_lost
    }

    pub(crate) fn is_lost(&self) -> bool {
        self.is_lost
    }

    pub(crate) fn is_behind(&self) -> bool {
        self.kept.len() > 0
    }

    /// Writes the bytes, or keeps what the socket doesn't take of them. Where it can do neither the
    /// link is lost, since nothing may follow on a part of them.
    pub(crate) fn write(&mut self, stream: &TcpStream, bytes: &[u8]) -> Wrote
        requires { 0 < length bytes.now }
        ensures { WriteTakes result None None bytes.now }
    {
        if !self.is_lost && self.has_sent_or_kept(stream, bytes) {
            return Wrote::Took(bytes.len());
        }
        self.lose();
        Wrote::Failed
    }

    fn has_sent_or_kept(&mut self, stream: &TcpStream, bytes: &[u8]) -> bool {
        let mut rest = bytes;
        if !self.is_behind() {
            let Some(taken) = taken_of(stream, bytes) else {
                return false;
            };
            let (_, behind) = bytes.split_at(taken);
            rest = behind;
        }
        let has_kept = self.kept.add(rest).is_ok();
        self.is_large = self.is_large || self.kept.len() > ROOM_KEPT;
        has_kept
    }

    pub(crate) fn flush(&mut self, stream: &TcpStream, now: u64) {
        if !self.is_behind() {
            return;
        }
        match taken_of(stream, self.kept.as_slice()) {
            None => self.lose(),
            Some(0) => {
                let since = *self.moved_at.get_or_insert(now);
                if now.saturating_sub(since) >= PATIENCE {
                    self.lose();
                }
            }
            Some(taken) => {
                self.kept.advance(taken);
                self.moved_at = Some(now);
                if !self.is_behind() {
                    self.rest();
                }
            }
        }
    }

    // Nothing is left to be written.
    fn rest(&mut self) {
        self.moved_at = None;
        if self.is_large {
            self.kept = ByteQueue::new(self.alloc);
            self.is_large = false;
        }
    }

    fn lose(&mut self) {
        self.is_lost = true;
        self.kept = ByteQueue::new(self.alloc);
    }
}

// How many of the bytes the socket takes without waiting, where it didn't fail.
fn taken_of(stream: &TcpStream, bytes: &[u8]) -> Option<usize>
    ensures { IfSome result (λ taken. taken ≤ length bytes.now) }
{
    let mut writer = stream;
    match writer.write(bytes) {
        Ok(taken) => Some(taken),
        Err(error) => match error.kind() {
            ErrorKind::WouldBlock | ErrorKind::Interrupted => Some(0),
            _ => None,
        },
    }
}
