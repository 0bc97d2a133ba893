//! The traits of sources and sinks.

ghost use Rattle.std.specs.Prelude.{◌≡◌, ◌≢◌, ◌<◌, ◌≤◌, ℕ, List, Option, Err, length, IfOk, IsOk, IsErr, IsErrOf};
ghost use Rattle.std.specs.Io.{ReadsAtMost, WritesAtMost};
ghost use Rattle.std.specs.Io.KnownBytes.{ReadConsumes, WriteAppends};
ghost use Rattle.base_core.specs.Counts.{Rose};

/// A source failed to read.
#[derive(Clone, Copy, PartialEq, Eq)]
pub struct ReadFault;

/// Why a sink took nothing.
#[derive(Clone, Copy, PartialEq, Eq)]
pub enum SinkStop {
    Fault,
    Memory,
}

/// Where bytes are read from. Its count of faults never falls: it rises where a fault is answered, and nowhere else.
pub trait Source {
    /// The bytes that are left, where the source tells them.
    ghost left: { Self → Option (List ℕ) };
    /// How often a read failed.
    ghost faults: { Self → ℕ };

    /// Reads a prefix of the bytes that are left into the front of the buffer, and answers how many.
    /// None for a buffer with room only where none is left.
    fn read(&mut self, buffer: &mut [u8]) -> Result<usize, ReadFault>
        ensures bound { ReadsAtMost result buffer.new }
        ensures bytes { ReadConsumes (left self.old) (left self.new) result buffer.new }
        ensures later { faults self.old ≤ faults self.new }
        ensures cause { IsErr result → Rose (faults self.old) (faults self.new) }
        ensures quiet { IsOk result → faults self.new ≡ faults self.old };
}

/// Where bytes are written to. Its count of faults never falls: it rises where a fault is answered, and nowhere else.
pub trait Sink {
    /// The bytes written so far, where the sink tells them.
    ghost written: { Self → Option (List ℕ) };
    /// How often a write failed.
    ghost faults: { Self → ℕ };

    /// Takes a prefix of the piece, at least one byte where it has one, and answers how many. A stopped write takes nothing.
    fn write(&mut self, piece: &[u8]) -> Result<usize, SinkStop>
        ensures bound { WritesAtMost result piece.now }
        ensures takes { IfOk result (λ n. 0 < length piece.now → 0 < n) }
        ensures bytes { WriteAppends (written self.old) (written self.new) result piece.now }
        ensures later { faults self.old ≤ faults self.new }
        ensures cause { IsErrOf result SinkStop.Fault → Rose (faults self.old) (faults self.new) }
        ensures quiet { result ≢ Err SinkStop.Fault → faults self.new ≡ faults self.old };
}
