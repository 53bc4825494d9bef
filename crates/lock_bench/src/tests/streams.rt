//! What sources, sinks, clocks and nets answer, in memory and of the system.
use edge_links::*;
use std::alloc::{AllocError, Global};
use std::io;
use std::io::{Read, Write};
use std::test::Fail;

/// What each of so many reads of three bytes gave.
fn read_out<S: Source>(alloc: Global, source: &mut S, reads: usize) -> Result<String, AllocError> {
    let mut said = String::new(alloc);
    let mut buf = [0u8; 3];
    for _ in 0..reads {
        match source.read(&mut buf) {
            SourceRead::Bytes(n) => {
                for byte in &buf[..n] {
                    said.push(char::from(*byte))?;
                }
                said.push(' ')?;
            }
            SourceRead::End => said.push_str("end ")?,
            SourceRead::Failed => said.push_str("failed ")?,
        }
    }
    Ok(said)
}

/// The numbers of the reads or writes that fail.
fn fails_of(alloc: Global, text: &str) -> Result<Vec<u64>, AllocError> {
    let mut fails = Vec::new(alloc);
    for word in text.split(' ') {
        fails.push(word.parse().unwrap_or(0))?;
    }
    Ok(fails)
}

// The reads of a source of seven bytes that fail, and what five reads give.
const READS: &str = "\
0 0 = abc def g end end
1 0 = failed abc def g end
2 4 = abc failed def failed g
4 5 = abc def g failed failed";

fn gives(alloc: Global, row: &str) -> Result<bool, Fail> {
    let Some((fails, want)) = row.split_once(" = ") else {
        return Ok(false);
    };
    let bytes = Vec::from_array(alloc, *b"abcdefg")?;
    let mut source = MemorySource::new(bytes, fails_of(alloc, fails)?);
    let said = read_out(alloc, &mut source, 5)?;
    Ok(said.as_str().trim_end() == want)
}

#[test]
fn a_memory_source_fails_at_the_named_reads_and_loses_nothing(rt: HostRuntime) -> Result<(), Fail> {
    for row in READS.lines() {
        assert!(rt; gives(rt.alloc(), row)?, "{row}");
    }
    Ok(())
}

/// What each of three writes of `abc` gave.
fn write_out<S: Sink>(alloc: Global, sink: &mut S) -> Result<String, AllocError> {
    let mut said = String::new(alloc);
    for _ in 0..3u8 {
        match sink.write(b"abc") {
            Wrote::Took(3) => said.push_str("all ")?,
            Wrote::Took(2) => said.push_str("two ")?,
            Wrote::Took(_) => said.push_str("another ")?,
            Wrote::Failed => said.push_str("failed ")?,
        }
    }
    Ok(said)
}

// The room of a sink and the write that fails, then what three writes give, and what is kept.
const WRITES: &str = "\
0 0 = failed failed failed |
5 0 = all two failed |abcab
9 2 = all failed all |abcabc
9 0 = all all all |abcabcabc";

fn takes(alloc: Global, row: &str) -> Result<bool, Fail> {
    let Some((asked, want)) = row.split_once(" = ") else {
        return Ok(false);
    };
    let Some((room, fails)) = asked.split_once(' ') else {
        return Ok(false);
    };
    let fails = fails_of(alloc, fails)?;
    let mut sink = MemorySink::new(alloc, room.parse().unwrap_or(0), fails)?;
    is_written(alloc, &mut sink, want)
}

fn is_written(alloc: Global, sink: &mut MemorySink, want: &str) -> Result<bool, Fail> {
    let said = write_out(alloc, sink)?;
    let Some((answers, kept)) = want.split_once('|') else {
        return Ok(false);
    };
    Ok(said.as_str() == answers && sink.bytes() == kept.as_bytes())
}

#[test]
fn a_memory_sink_takes_what_fits_and_fails_at_the_named_writes(
    rt: HostRuntime,
) -> Result<(), Fail> {
    for row in WRITES.lines() {
        assert!(rt; takes(rt.alloc(), row)?, "{row}");
    }
    Ok(())
}

/// Gives `ab`, fails, gives `c`, and then nothing; takes two bytes, fails, and then takes nothing.
#[derive(Debug, Drop)]
struct Halting {
    calls: u8,
}

impl Read for Halting {
    fn read(&mut self, buf: &mut [u8]) -> io::Result<usize> {
        self.calls = self.calls.saturating_add(1);
        let piece = match self.calls {
            1 => "ab".as_bytes(),
            2 => return Err(io::Error::from(io::ErrorKind::WouldBlock)),
            3 => b"c",
            _ => b"",
        };
        let n = piece.len().min(buf.len());
        buf[..n].copy_from_slice(&piece[..n]);
        Ok(n)
    }
}

impl Write for Halting {
    fn write(&mut self, buf: &[u8]) -> io::Result<usize> {
        self.calls = self.calls.saturating_add(1);
        match self.calls {
            1 => Ok(buf.len().min(2)),
            2 => Err(io::Error::from(io::ErrorKind::WouldBlock)),
            _ => Ok(0),
        }
    }

    fn flush(&mut self) -> io::Result<()> {
        Ok(())
    }
}

#[test]
fn a_reader_source_passes_a_short_piece_on_and_goes_on_after_a_fault(
    rt: HostRuntime,
) -> Result<(), Fail> {
    let mut source = ReaderSource::new(rt.alloc(), Halting { calls: 0 })?;
    let said = read_out(rt.alloc(), &mut source, 5)?;
    assert_eq!(rt; said.as_str(), "ab failed c end end ");
    Ok(())
}

/// What each of five reads of one byte gave.
fn read_bytes<S: Source>(alloc: Global, source: &mut S) -> Result<String, AllocError> {
    let mut said = String::new(alloc);
    let mut byte = [0u8; 1];
    for _ in 0..5u8 {
        match source.read(&mut byte) {
            SourceRead::Bytes(_) => said.push(char::from(byte[0]))?,
            SourceRead::End => said.push_str(" end")?,
            SourceRead::Failed => said.push_str(" failed ")?,
        }
    }
    Ok(said)
}

#[test]
fn a_reader_source_keeps_what_a_read_leaves(rt: HostRuntime) -> Result<(), Fail> {
    let mut source = ReaderSource::new(rt.alloc(), Halting { calls: 0 })?;
    let said = read_bytes(rt.alloc(), &mut source)?;
    assert_eq!(rt; said.as_str(), "ab failed c end");
    Ok(())
}

#[test]
fn standard_input_is_a_source_that_ends(rt: HostRuntime) -> Result<(), Fail> {
    let mut source = ReaderSource::new(rt.alloc(), rt.stdin())?;
    assert!(rt; source.read(&mut [0]) == SourceRead::End);
    Ok(())
}

#[test]
fn a_writer_sink_takes_what_its_writer_takes_and_then_fails(rt: HostRuntime) {
    let mut sink = WriterSink::new(Halting { calls: 0 });
    for answer in [Wrote::Took(2), Wrote::Failed, Wrote::Failed] {
        assert!(rt; sink.write(b"abc") == answer);
    }
}

#[test]
fn standard_output_is_a_sink_that_takes_a_line_whole(rt: HostRuntime) {
    let mut sink = WriterSink::new(rt.stdout());
    assert!(rt; sink.write(b"a line\n") == Wrote::Took(7));
}

#[test]
fn the_system_clock_is_past_2024_and_a_fixed_clock_gives_its_moment(rt: HostRuntime) {
    fn shared<C: Clock + Sync>(clock: &C) -> u64 {
        clock.now_ms()
    }
    let moment = shared(&SystemClock::new(rt));
    assert!(rt; moment > 1_704_067_200_000 && moment < 10_000_000_000_000);
    assert_eq!(rt; shared(&FixedClock { ms: 7 }), 7);
}

#[test]
fn nobody_is_on_the_net_in_memory(rt: HostRuntime) {
    let mut net = MemoryNet::new();
    assert!(rt; net.listen(6379).is_err());
    assert!(rt; net.dial("localhost", 6379).is_err());
    assert!(rt; matches!(ClosedAcceptor::new().accept(), Accepted::Closed));
    let mut link = EndedLink::new();
    assert!(rt; link.read(&mut [0]) == LinkRead::End);
    assert!(rt; link.write(b"a") == Wrote::Failed);
}
