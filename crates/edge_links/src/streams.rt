//! A source and a sink of bytes.
ghost use Rattle.std.specs.Prelude.{◌≡◌, ◌<◌, ℕ, List, length};
ghost use Rattle.std.specs.declared.option.Option.{Option};
ghost use Rattle.edge_links.specs.Counts.{Counts};
ghost use Rattle.edge_links.specs.Streams.{ReadGives, ReadCounts, WriteTakes, WriteCounts};

/// What a read of a source gave. `Bytes(n)` filled the first n bytes of the buffer, at least one.
#[derive(Clone, Copy, Debug, PartialEq, Eq)]
pub enum SourceRead {
    Bytes(usize),
    End,
    Failed,
}

/// What a write took. `Took(n)` is the first n bytes, at least one.
#[derive(Clone, Copy, Debug, PartialEq, Eq)]
pub enum Wrote {
    Took(usize),
    Failed,
}

/// Bytes in order, and then the end. `Failed` loses none: the next read goes on from there.
pub trait Source {
    /// The bytes that are left, where they are known.
    ghost left: { Self → Option (List ℕ) };

    ghost counts: { Self → Counts };

    fn read(&mut self, buf: &mut [u8]) -> SourceRead
        requires { 0 < length buf.old }
        ensures bytes { ReadGives result (left self.old) (left self.new) buf.new }
        ensures counts { ReadCounts result (counts self.old) (counts self.new) };
}

/// Takes bytes in order.
pub trait Sink {
    /// The bytes that were written, where they are known.
    ghost contents: { Self → Option (List ℕ) };

    ghost counts: { Self → Counts };

    fn write(&mut self, bytes: &[u8]) -> Wrote
        requires { 0 < length bytes.now }
        ensures bytes { WriteTakes result (contents self.old) (contents self.new) bytes.now }
        ensures counts { WriteCounts result (counts self.old) (counts self.new) };
}
