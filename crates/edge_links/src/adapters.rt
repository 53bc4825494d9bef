//! std's readers and writers, standard input and output among them, as a source and a sink.
ghost use Rattle.std.specs.Prelude.{◌≡◌, IfOk};
ghost use Rattle.std.specs.Io.Buffered.{reader_remaining};
ghost use Rattle.edge_links.specs.Counts.{nought};

use super::NoMemory;
use super::counts::Counts;
use super::streams::{Sink, Source, SourceRead, Wrote};
use std::alloc::Global;
use std::io::{BufReader, Read, Write};

/// How many bytes are asked of a reader at once.
const PIECE: usize = 65_536;

/// A reader as a source, which asks for pieces of 64 KiB and gives of the piece it has.
///
/// A piece that came short is passed on at once. The bytes that are left are those of the reader,
/// so over standard input they are not known.
#[derive(Drop)]
pub struct ReaderSource<R: Read + Drop> {
    reader: BufReader<R>,
    counts: Counts,
}

impl<R: Read + Drop> ReaderSource<R> {
    pub fn new(alloc: Global, reader: R) -> Result<Self, NoMemory>
        ensures bytes { IfOk result
            (λ s. ⟦<ReaderSource<R> as Source>⟧.left s ≡ R.remaining reader) }
        ensures counts { IfOk result (λ s. ⟦<ReaderSource<R> as Source>⟧.counts s ≡ nought) }
    {
        match BufReader::with_capacity(alloc, PIECE, reader) {
            Ok(reader) => Ok(ReaderSource {
                reader,
                counts: Counts::new(),
            }),
            Err(_) => Err(NoMemory),
        }
    }
}

impl<R: Read + Drop> Source for ReaderSource<R> {
    ghost left = { λ s. reader_remaining R.remaining s.reader };

    ghost counts = { λ s. s.counts };

    fn read(&mut self, buf: &mut [u8]) -> SourceRead {
        match self.reader.read(buf) {
            Ok(0) => {
                self.counts.end();
                SourceRead::End
            }
            Ok(n) => SourceRead::Bytes(n),
            Err(_) => {
                self.counts.fault();
                SourceRead::Failed
            }
        }
    }
}

/// A writer as a sink, which hands on each piece at once. The bytes written are those of the
/// writer, so over standard output they are not known.
#[derive(Drop)]
pub struct WriterSink<W: Write + Drop> {
    writer: W,
    counts: Counts,
}

impl<W: Write + Drop> WriterSink<W> {
    pub fn new(writer: W) -> Self
        ensures bytes { ⟦<WriterSink<W> as Sink>⟧.contents result ≡ W.contents writer }
        ensures counts { ⟦<WriterSink<W> as Sink>⟧.counts result ≡ nought }
    {
        WriterSink {
            writer,
            counts: Counts::new(),
        }
    }
}

impl<W: Write + Drop> Sink for WriterSink<W> {
    ghost contents = { λ s. W.contents s.writer };

    ghost counts = { λ s. s.counts };

    fn write(&mut self, bytes: &[u8]) -> Wrote {
        match self.writer.write(bytes) {
            Ok(0) => {
                self.counts.fault();
                Wrote::Failed
            }
            Ok(n) => Wrote::Took(n),
            Err(_) => {
                self.counts.fault();
                Wrote::Failed
            }
        }
    }
}
