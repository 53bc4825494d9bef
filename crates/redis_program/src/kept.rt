//! A source and a sink that keep what passed through them last, for what a person is told.
ghost use Rattle.std.specs.Prelude.{◌≡◌};

use edge_links::{Sink, Source, SourceRead, Wrote};
use std::alloc::Global;

/// A source that keeps the line that it gave last, and counts the lines.
#[derive(Drop)]
pub struct KeptSource<S: Source + Drop> {
    source: S,
    last: LastLine,
}

impl<S: Source + Drop> KeptSource<S> {
    pub fn new(alloc: Global, source: S) -> Self
        ensures bytes { ⟦<KeptSource<S> as Source>⟧.left result ≡ S.left source }
        ensures counts { ⟦<KeptSource<S> as Source>⟧.counts result ≡ S.counts source }
    {
        KeptSource {
            source,
            last: LastLine::new(alloc),
        }
    }

    /// The number of the line that was given last, from 1; 0 where none was.
    pub fn number(&self) -> u64 {
        self.last.number
    }

    /// The bytes of that line that were given, without its LF. Where memory for them ran out there
    /// are fewer.
    pub fn line(&self) -> &[u8] {
        self.last.bytes.as_slice()
    }
}

impl<S: Source + Drop> Source for KeptSource<S> {
    ghost left = { λ s. S.left s.source };

    ghost counts = { λ s. S.counts s.source };

    fn read(&mut self, buf: &mut [u8]) -> SourceRead {
        let answer = self.source.read(buf);
        if let SourceRead::Bytes(n) = answer {
            self.last.keep(&buf[..n]);
        }
        answer
    }
}

/// The last line of a stream of bytes, so far as it came.
#[derive(Drop)]
struct LastLine {
    bytes: Vec<u8>,
    number: u64,
    is_ended: bool,
}

impl LastLine {
    fn new(alloc: Global) -> Self {
        LastLine {
            bytes: Vec::new(alloc),
            number: 0,
            is_ended: true,
        }
    }

    fn keep(&mut self, bytes: &[u8]) {
        for byte in bytes {
            if self.is_ended {
                self.bytes.clear();
                self.number = self.number.saturating_add(1);
                self.is_ended = false;
            }
            if *byte == b'\n' {
                self.is_ended = true;
            } else {
                // Without memory for it the byte is left out: it serves an explanation alone.
                let _ = self.bytes.push(*byte);
            }
        }
    }
}

/// A sink that keeps the last byte that it took, but for an LF.
#[derive(Drop)]
pub struct KeptSink<K: Sink + Drop> {
    sink: K,
    last_byte: u8,
}

impl<K: Sink + Drop> KeptSink<K> {
    pub fn new(sink: K) -> Self
        ensures bytes { ⟦<KeptSink<K> as Sink>⟧.contents result ≡ K.contents sink }
        ensures counts { ⟦<KeptSink<K> as Sink>⟧.counts result ≡ K.counts sink }
    {
        KeptSink { sink, last_byte: 0 }
    }

    pub fn last_byte(&self) -> u8 {
        self.last_byte
    }
}

impl<K: Sink + Drop> Sink for KeptSink<K> {
    ghost contents = { λ s. K.contents s.sink };

    ghost counts = { λ s. K.counts s.sink };

    fn write(&mut self, bytes: &[u8]) -> Wrote {
        let answer = self.sink.write(bytes);
        if let Wrote::Took(n) = answer {
            self.last_byte = last_of(&bytes[..n], self.last_byte);
        }
        answer
    }
}

/// The last of the bytes that is no LF, and the one before them where there is none.
fn last_of(bytes: &[u8], before: u8) -> u8 {
    let mut last = before;
    for byte in bytes {
        if *byte != b'\n' {
            last = *byte;
        }
    }
    last
}
