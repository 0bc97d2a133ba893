//! Any reader as a source and any writer as a sink: the edge at which standard input and output are reached.

ghost use Rattle.std.specs.Prelude.{◌≡◌, ◌≢◌, ◌<◌, ◌≤◌, length, Ok, Err, is_ok, IfOk, IsOk, IsErr, IsErrOf, MatchResult};
ghost use Rattle.std.specs.Io.{ReadsAtMost, WritesAtMost};
ghost use Rattle.std.specs.Io.KnownBytes.{ReadConsumes, WriteAppends};
ghost use Rattle.base_core.specs.Counts.{Rose};
ghost use Rattle.byte_streams.specs.Streams.{count_after, written_of};

use crate::{ReadFault, Sink, SinkStop, Source};
use std::io;
use std::io::{Read, Write};

/// A source over a reader. It counts each failure, and tells the bytes that the reader tells: of standard input none.
#[derive(Drop)]
pub struct StdSource<R: Read + Drop> {
    reader: R,
    faults: u64,
}

impl<R: Read + Drop> StdSource<R> {
    /// A source over this reader, which did not fail yet.
    pub fn new(reader: R) -> StdSource<R>
        ensures { result ≡ record { reader = reader; faults = 0 } }
    {
        StdSource { reader, faults: 0 }
    }

    /// Keeps what the reader answered, and counts its failure.
    fn counted(&mut self, answer: io::Result<usize>) -> Result<usize, ReadFault>
        ensures kept { MatchResult answer (λ count. result ≡ Ok count) (λ _. IsErr result) }
        ensures counts { self.new
            ≡ record self.old { faults = count_after (is_ok answer) self.old.faults } }
        ensures later { self.old.faults ≤ self.new.faults }
    {
        match answer {
            Ok(count) => Ok(count),
            Err(_) => {
                self.faults = self.faults.saturating_add(1);
                Err(ReadFault)
            }
        }
    }
}

impl<R: Read + Drop> Source for StdSource<R> {
    ghost left = { λ s. R.remaining s.reader };

    ghost faults = { λ s. s.faults };

    fn read(&mut self, buffer: &mut [u8]) -> Result<usize, ReadFault>
        ensures bound { ReadsAtMost result buffer.new }
        ensures bytes { ReadConsumes (R.remaining self.old.reader)
            (R.remaining self.new.reader) result buffer.new }
        ensures later { self.old.faults ≤ self.new.faults }
        ensures cause { IsErr result → Rose self.old.faults self.new.faults }
        ensures quiet { IsOk result → self.new.faults ≡ self.old.faults }
        ensures counts { self.new.faults ≡ count_after (is_ok result) self.old.faults }
    {
        let answer = self.reader.read(buffer);
        self.counted(answer)
    }
}

/// A sink over a writer. It counts each failure, a write that takes no byte among them, and tells the bytes that the
/// writer tells: of standard output none.
#[derive(Drop)]
pub struct StdSink<W: Write + Drop> {
    writer: W,
    faults: u64,
}

impl<W: Write + Drop> StdSink<W> {
    /// A sink over this writer, which did not fail yet.
    pub fn new(writer: W) -> StdSink<W>
        ensures { result ≡ record { writer = writer; faults = 0 } }
    {
        StdSink { writer, faults: 0 }
    }

    /// Keeps what the writer answered to a piece that is empty or not, and counts its failure, or that it took no byte of some.
    fn counted(&mut self, answer: io::Result<usize>, nothing: bool) -> Result<usize, SinkStop>
        ensures kept { MatchResult answer (λ count. result ≡ written_of nothing count)
            (λ _. result ≡ Err SinkStop.Fault) }
        ensures counts { self.new
            ≡ record self.old { faults = count_after (is_ok result) self.old.faults } }
        ensures later { self.old.faults ≤ self.new.faults }
    {
        match answer {
            Ok(count) if count > 0 || nothing => Ok(count),
            _ => {
                self.faults = self.faults.saturating_add(1);
                Err(SinkStop::Fault)
            }
        }
    }
}

impl<W: Write + Drop> Sink for StdSink<W> {
    ghost written = { λ s. W.contents s.writer };

    ghost faults = { λ s. s.faults };

    fn write(&mut self, piece: &[u8]) -> Result<usize, SinkStop>
        ensures bound { WritesAtMost result piece.now }
        ensures takes { IfOk result (λ n. 0 < length piece.now → 0 < n) }
        ensures bytes { WriteAppends (W.contents self.old.writer)
            (W.contents self.new.writer) result piece.now }
        ensures later { self.old.faults ≤ self.new.faults }
        ensures cause { IsErrOf result SinkStop.Fault → Rose self.old.faults self.new.faults }
        ensures quiet { result ≢ Err SinkStop.Fault → self.new.faults ≡ self.old.faults }
        ensures counts { self.new.faults ≡ count_after (is_ok result) self.old.faults }
    {
        let answer = self.writer.write(piece);
        self.counted(answer, piece.is_empty())
    }
}
