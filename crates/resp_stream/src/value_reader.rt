//! The values of a stream.
ghost use Rattle.std.specs.Prelude.{◌≡◌, true, false, IsOk, OnOk, OnErr};
ghost use Rattle.resp_stream.specs.Stream.{begun, fed};
ghost use Rattle.resp_stream.specs.Readers.{ValueGives, NotMemory, IfFault};
ghost use Rattle.resp_stream.specs.ValueSteps.{IsBlobAt};

use super::fault::StreamFault;
use super::input::Input;
use super::long_blob::{BlobPlace, long_blob};
use super::stack::{ValueProgress, ValueReading, read_value};
use resp_value::{NoMemory, Value};
use std::alloc::Global;
use std::marker::Model;
use std::mem;

/// Reads the values of a stream, however its bytes are cut, in either protocol's spelling.
///
/// After a fault of the bytes every later call answers the same fault, and what is fed is dropped.
/// After `NoMemory` the reader is as before.
#[derive(Drop)]
pub struct ValueReader {
    alloc: Global,
    input: Input,
    progress: ValueProgress,
    /// The next value was begun and not whole.
    waits: bool,
}

impl Model for ValueReader {
    ghost use Rattle.resp_stream.specs.Stream.{Stream, stream_code};
    ghost use Rattle.resp_stream.specs.ReaderStates.{stream_of, ValueState};

    ghost Value = { Stream };

    ghost coded = { stream_code };

    ghost view = { λ s. stream_of s.input };

    ghost invariant = { λ s. ValueState s.input s.progress };
}

impl ValueReader {
    /// A reader at offset 0.
    pub fn new(alloc: Global) -> ValueReader
        ensures { result ≡ begun }
    {
        ValueReader {
            alloc,
            input: Input::new(alloc),
            progress: ValueProgress {
                at: 0,
                room: 8,
                seen: 0,
                stack: Vec::new(alloc),
            },
            waits: false,
        }
    }

    /// The piece follows what was fed.
    pub fn feed(&mut self, piece: &[u8]) -> Result<(), NoMemory>
        ensures ok { OnOk result (self.new ≡ fed self.old piece.now) }
        ensures err { OnErr result (self.new ≡ self.old) }
        ensures failed { self.old.failed ≡ true → IsOk result }
    {
        self.input.feed(piece)
    }

    /// The next whole value; nothing where more bytes are needed.
    pub fn next_value(&mut self) -> Result<Option<Value>, StreamFault>
        ensures gives { ValueGives self.old self.new result }
        ensures failed { self.old.failed ≡ true → IfFault result NotMemory }
    {
        if let Some(fault) = self.input.fault() {
            return Err(fault);
        }
        if mem::replace(&mut self.waits, false)
            && let Some(place) = long_blob(self.input.bytes())
        {
            return self.cut(place);
        }
        match read_value(self.alloc, self.input.bytes(), &mut self.progress) {
            Ok(ValueReading::More) => {
                self.waits = true;
                Ok(None)
            }
            Ok(ValueReading::Whole { value, taken }) => {
                self.input.pass(taken);
                self.progress.reset();
                Ok(Some(value))
            }
            Err(_) => {
                self.progress.reset();
                Err(StreamFault::NoMemory)
            }
            Ok(ValueReading::Faulty { fault, at }) => {
                self.progress.reset();
                Err(self.input.fail(fault, at))
            }
        }
    }

    /// Answers the blob at this place, in the memory that it was fed into.
    fn cut(&mut self, place: BlobPlace) -> Result<Option<Value>, StreamFault>
        requires place { IsBlobAt self.old.rest place.first place.count }
        requires open { self.old.failed ≡ false }
        ensures { ValueGives self.old self.new result }
    {
        let Ok(blob) = self.input.cut(place.first, place.count) else {
            return Err(StreamFault::NoMemory);
        };
        self.progress.reset();
        Ok(Some(Value::Blob(blob)))
    }
}
