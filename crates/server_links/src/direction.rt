//! One direction of a link: the bytes in flight, and perhaps an EOF after them.
ghost use Rattle.std.specs.Prelude.{◌≡◌, OnOk, OnErr, false, true};
ghost use Rattle.server_links.specs.Directions.{cut, finished, fresh, is_open, is_queued};
ghost use Rattle.server_links.specs.Directions.{past_eof, put, spent, without, without_bytes};

use byte_queue::ByteQueue;
use resp_value::NoMemory;
use std::alloc::Global;

/// A direction gets one EOF, ever.
#[derive(Clone, Copy, Debug, PartialEq, Eq)]
pub enum Eof {
    None,
    /// It follows the bytes in flight.
    Queued,
    Read,
}

#[derive(Drop)]
pub struct Direction {
    pub bytes: ByteQueue,
    pub eof: Eof,
}

impl Direction {
    pub fn new(alloc: Global) -> Direction
        ensures { result ≡ fresh }
    {
        Direction {
            bytes: ByteQueue::new(alloc),
            eof: Eof::None,
        }
    }

    pub fn is_open(&self) -> bool
        ensures { result ≡ is_open self.now.eof }
    {
        match self.eof {
            Eof::None => true,
            Eof::Queued | Eof::Read => false,
        }
    }

    pub fn is_queued(&self) -> bool
        ensures { result ≡ is_queued self.now.eof }
    {
        match self.eof {
            Eof::Queued => true,
            Eof::None | Eof::Read => false,
        }
    }

    /// Whether nothing is in flight, and the EOF was read.
    pub fn is_spent(&self) -> bool
        ensures spent { result ≡ true → self.now ≡ spent }
        ensures goes_on { result ≡ false → self.now ≡ spent → ⊥ }
    {
        match self.eof {
            Eof::Read => self.bytes.len() == 0,
            Eof::None | Eof::Queued => false,
        }
    }

    /// Bytes after an EOF go nowhere.
    pub fn put(&mut self, bytes: &[u8]) -> Result<(), NoMemory>
        ensures ok { OnOk result (self.new ≡ put bytes.now self.old) }
        ensures err { OnErr result (self.new ≡ self.old) }
    {
        match self.eof {
            Eof::None => self.bytes.add(bytes),
            Eof::Queued | Eof::Read => Ok(()),
        }
    }

    pub fn finish(&mut self)
        ensures { self.new ≡ finished self.old }
    {
        match self.eof {
            Eof::None => self.eof = Eof::Queued,
            Eof::Queued | Eof::Read => {}
        }
    }

    /// What is in flight is lost, and an EOF follows.
    pub fn cut(&mut self)
        ensures { self.new ≡ cut self.old }
    {
        self.bytes.drop_all();
        self.finish();
    }

    /// So many bytes were read.
    pub fn pass(&mut self, count: usize)
        ensures { self.new ≡ without count self.old }
    {
        self.bytes.advance(count);
    }

    /// All bytes were read.
    pub fn pass_all(&mut self)
        ensures { self.new ≡ without_bytes self.old }
    {
        self.bytes.drop_all();
    }

    /// An EOF that was queued was read.
    pub fn pass_eof(&mut self)
        ensures { self.new ≡ past_eof self.old }
    {
        match self.eof {
            Eof::Queued => self.eof = Eof::Read,
            Eof::None | Eof::Read => {}
        }
    }
}
