//! The requests of a stream.
ghost use Rattle.std.specs.Prelude.{◌≡◌, ◌<◌, true, false, length, IsOk, OnOk, OnErr};
ghost use Rattle.resp_stream.specs.Stream.{begun, fed};
ghost use Rattle.resp_stream.specs.Readers.{RequestGives, NotMemory, OnItem, IfFault};
ghost use Rattle.resp_stream.specs.RequestSteps.{IsLastAt};

use super::fault::StreamFault;
use super::input::Input;
use super::long_blob::BlobPlace;
use super::request::{Next, Progress, last_word, next_in, words_so_far};
use resp_value::{NoMemory, Octets, Words};
use std::alloc::Global;
use std::marker::Model;
use std::mem;

/// Reads the requests of a stream, however its bytes are cut.
///
/// After a fault of the bytes every later call answers the same fault, and what is fed is dropped.
/// After `NoMemory` the reader is as before.
#[derive(Drop)]
pub struct RequestReader {
    alloc: Global,
    input: Input,
    progress: Progress,
}

impl Model for RequestReader {
    ghost use Rattle.resp_stream.specs.Stream.{Stream, stream_code};
    ghost use Rattle.resp_stream.specs.ReaderStates.{stream_of, RequestState};

    ghost Value = { Stream };

    ghost coded = { stream_code };

    ghost view = { λ s. stream_of s.input };

    ghost invariant = { λ s. RequestState s.input s.progress };
}

impl RequestReader {
    /// A reader at offset 0.
    pub fn new(alloc: Global) -> RequestReader
        ensures { result ≡ begun }
    {
        RequestReader {
            alloc,
            input: Input::new(alloc),
            progress: Progress::Line { seen: 0 },
        }
    }

    /// The piece follows what was fed.
    pub fn feed(&mut self, piece: &[u8]) -> Result<(), NoMemory>
        ensures ok { OnOk result (self.new ≡ fed self.old piece.now) }
        ensures err { OnErr result (self.new ≡ self.old) }
        ensures failed { self.old.failed ≡ true → IsOk result }
    {
        self.input.feed(piece)
    }

    /// The next request, empty ones passed over; nothing where more bytes are needed.
    pub fn next_request(&mut self) -> Result<Option<Words>, StreamFault>
        ensures gives { RequestGives self.old self.new result }
        ensures words { OnItem result (λ ws. 0 < length ws) }
        ensures failed { self.old.failed ≡ true → IfFault result NotMemory }
    {
        if let Some(fault) = self.input.fault() {
            return Err(fault);
        }
        let progress = mem::replace(&mut self.progress, Progress::Line { seen: 0 });
        if let Some(place) = last_word(self.input.bytes(), &progress) {
            return self.cut(words_so_far(self.alloc, progress), place);
        }
        match next_in(self.alloc, self.input.bytes(), progress) {
            Err(_) => Err(StreamFault::NoMemory),
            Ok(Next::Whole { words, taken }) => {
                self.input.pass(taken);
                Ok(Some(words))
            }
            Ok(Next::More { passed, progress }) => {
                self.input.pass(passed);
                self.progress = progress;
                Ok(None)
            }
            Ok(Next::Faulty { passed, fault, at }) => {
                self.input.pass(passed);
                Err(self.input.fail(fault, at))
            }
        }
    }

    /// Answers the request of these words and a last one, which stands at this place, in the memory
    /// that it was fed into. The last one can't go back, so there is room for it first.
    fn cut(&mut self, words: Words, place: BlobPlace) -> Result<Option<Words>, StreamFault>
        requires place { IsLastAt self.old.rest words place.first place.count }
        requires open { self.old.failed ≡ false }
        ensures gives { RequestGives self.old self.new result }
        ensures words { OnItem result (λ ws. 0 < length ws) }
    {
        let mut words = words;
        let empty = Octets::from_vec(Vec::new(self.alloc));
        let Ok(()) = words.push(empty) else {
            return Err(StreamFault::NoMemory);
        };
        let Ok(word) = self.input.cut(place.first, place.count) else {
            return Err(StreamFault::NoMemory);
        };
        self.progress = Progress::Line { seen: 0 };
        words.set_last(word);
        Ok(Some(words))
    }
}
