//! Lines of a source, read byte by byte, and bytes written whole to a sink.
ghost use Rattle.std.specs.Prelude.{◌≡◌};
ghost use Rattle.edge_lines.specs.Streams.{ReadsLine, LineCounts, WritesAll, AllCounts};

use edge_links::{Sink, Source, SourceRead, Wrote};
use std::alloc::Global;

/// What a line of a source came to. A line is given without its LF.
#[derive(Debug, Drop)]
pub enum LineRead {
    /// A line that an LF ended.
    Line(Vec<u8>),
    /// A line that the end of the source ended.
    Last(Vec<u8>),
    /// The source is at its end, and no byte came before it.
    End,
    /// The line has more bytes than a line may have.
    TooLong,
    Failed,
    NoMemory,
}

/// The sink failed.
#[derive(Clone, Copy, Debug, PartialEq, Eq)]
pub struct SinkFailed;

/// Reads the next line, and nothing after it. Without its LF it may have `longest` bytes.
pub fn read_line<S: Source>(alloc: Global, source: &mut S, longest: usize) -> LineRead
    ensures bytes { ReadsLine longest result (S.left source.old) (S.left source.new) }
    ensures counts { LineCounts result (S.counts source.old) (S.counts source.new) }
{
    let mut line = Vec::new(alloc);
    let mut byte = [0u8; 1];
    while line.len() <= longest {
        match source.read(&mut byte) {
            SourceRead::Bytes(_) => {
                if byte[0] == b'\n' {
                    return LineRead::Line(line);
                }
                match line.push(byte[0]) {
                    Ok(()) => {}
                    Err(_) => return LineRead::NoMemory,
                }
            }
            SourceRead::End => {
                return if line.is_empty() {
                    LineRead::End
                } else {
                    LineRead::Last(line)
                };
            }
            SourceRead::Failed => return LineRead::Failed,
        }
    }
    LineRead::TooLong
}

/// Writes all of the bytes, in as many writes as the sink wants.
pub fn write_all<K: Sink>(sink: &mut K, bytes: &[u8]) -> Result<(), SinkFailed>
    ensures bytes { WritesAll result (K.contents sink.old) (K.contents sink.new) bytes.now }
    ensures counts { AllCounts result (K.counts sink.old) (K.counts sink.new) }
{
    let mut rest = bytes;
    while !rest.is_empty() {
        match sink.write(rest) {
            Wrote::Took(n) => {
                let (_, more) = rest.split_at(n);
                rest = more;
            }
            Wrote::Failed => return Err(SinkFailed),
        }
    }
    Ok(())
}
