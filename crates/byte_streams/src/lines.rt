//! The buffer between a source and the lines of its script.

ghost use Rattle.std.specs.Prelude.{◌≡◌, ◌≢◌, ◌≤◌, ℕ, [], length, true, false, None, Some, Err, OnOk, IfOk, IfErr, OnErr};
ghost use Rattle.std.specs.Io.KnownBytes.{Keeps};
ghost use Rattle.base_core.specs.Counts.{Rose};
ghost use Rattle.byte_streams.specs.declared.lines.ReadStop.TheVariants.{Memory};

use crate::cutting::{Piece, next_piece};
use crate::streams::Source;
use base_core::ListOf;
use std::alloc::{AllocError, AllocFailed, Global};
use std::marker::Model;

/// How many bytes are asked of a source at once.
const CHUNK: usize = 4096;

/// What comes next of a script.
#[derive(Drop)]
pub enum NextLine {
    /// The script has ended.
    End,
    /// The next line, or the script with it, has more bytes than it may.
    TooLong,
    /// A line's bytes without its end.
    Line(ListOf<u8>),
}

/// Why no line was read.
#[derive(Clone, Copy, PartialEq, Eq)]
pub enum ReadStop {
    /// The source failed.
    Fault,
    Memory,
}

impl From<AllocError> for ReadStop {
    ghost from_gives = { λ _ e. e ≡ Memory };

    fn from(_e: AllocError) -> ReadStop {
        ReadStop::Memory
    }
}

impl<T: Drop> From<AllocFailed<T>> for ReadStop {
    ghost from_gives = { λ _ e. e ≡ Memory };

    fn from(_e: AllocFailed<T>) -> ReadStop {
        ReadStop::Memory
    }
}

/// The bytes that were read and are no whole line yet.
#[derive(Drop)]
pub struct LineBuffer {
    bytes: Vec<u8>,
    /// How many of the bytes were taken.
    start: usize,
    /// How many bytes of the script were taken.
    taken: u64,
    ended: bool,
}

impl Model for LineBuffer {
    ghost use Rattle.std.specs.Prelude.{◌≤◌, drop, vec_len};
    ghost use Rattle.byte_streams.specs.declared.lines.NextLine.{NextLine};
    ghost use Rattle.byte_streams.specs.Cutting.{Pending, most_bytes};

    ghost Value = { Pending };

    ghost view = { λ b. record { bytes = drop b.start b.bytes.items; taken = b.taken; ended = b.ended } };

    ghost invariant = { λ b. (b.start ≤ vec_len b.bytes) × (b.taken ≤ most_bytes) };
}

impl LineBuffer {
    ghost use Rattle.byte_streams.specs.Cutting.{to_come, IsNextTold, KeepsLimits, IsWhole, IsKept, FitsSource, IsTaken, IsFilled, has_newline, most_in_line};

    /// Nothing was read yet.
    pub fn new(alloc: Global) -> LineBuffer
        ensures { result ≡ record { bytes = []; taken = 0; ended = false } }
    {
        LineBuffer {
            bytes: Vec::new(alloc),
            start: 0,
            taken: 0,
            ended: false,
        }
    }

    /// The next line of the script whose bytes are pending here or left with the source.
    ///
    /// # Errors
    /// `Fault` where the source failed, and then no line of the bytes that it gave is left whole; and `Memory` where memory ran
    /// out. Both leave what was read pending.
    pub fn next_line<S: Source>(&mut self, source: &mut S) -> Result<NextLine, ReadStop>
        requires { FitsSource self.old (S.left source.old) }
        ensures next { IfOk result
            (λ answer. IsNextTold self.old (S.left source.old) answer self.new
            (S.left source.new)) }
        ensures limits { IfOk result (λ answer. KeepsLimits answer self.old.taken self.new.taken) }
        ensures whole { IfOk result
            (λ answer. IsWhole answer self.new.ended (to_come self.old (S.left source.old))) }
        ensures ended { self.old.ended ≡ true → self.new.ended ≡ true }
        ensures fits { FitsSource self.new (S.left source.new) }
        ensures kept { OnErr result
            (IsKept self.old (S.left source.old) self.new (S.left source.new)) }
        ensures bare { IfErr result
            (λ stop. stop ≡ ReadStop.Fault
            → (self.new.ended ≡ false) × (has_newline self.new.bytes ≡ false)) }
        ensures faults { S.faults source.old ≤ S.faults source.new }
        ensures cause { IfErr result
            (λ stop. stop ≡ ReadStop.Fault → Rose (S.faults source.old) (S.faults source.new)) }
        ensures quiet { result ≢ Err ReadStop.Fault → S.faults source.new ≡ S.faults source.old }
    {
        loop {
            if let Some(answer) = self.take_line()? {
                return Ok(answer);
            }
            self.fill(source)?;
        }
    }

    /// Takes what can be told of the pending bytes; none where more bytes are wanted.
    fn take_line(&mut self) -> Result<Option<NextLine>, AllocError>
        ensures taken { IfOk result (λ answer. IsTaken self.old answer self.new) }
        ensures stop { OnErr result (self.new ≡ self.old) }
    {
        let pending = &self.bytes[self.start..];
        match next_piece(pending, self.taken, self.ended) {
            Piece::Open => Ok(None),
            Piece::End => Ok(Some(NextLine::End)),
            Piece::TooLong => Ok(Some(NextLine::TooLong)),
            Piece::Line(size, width) => {
                let line = Vec::from_slice(*self.bytes.allocator(), &pending[..size])?;
                self.start += width;
                self.taken += width as u64;
                Ok(Some(NextLine::Line(ListOf::from_vec(line))))
            }
        }
    }

    /// Reads more bytes behind those that are pending, or finds that the source has ended.
    fn fill<S: Source>(&mut self, source: &mut S) -> Result<(), ReadStop>
        requires { length self.old.bytes ≤ most_in_line }
        ensures read { OnOk result
            (IsFilled self.old (S.left source.old) self.new (S.left source.new)) }
        ensures stop { OnErr result
            ((self.new ≡ self.old) × Keeps (S.left source.old) (S.left source.new)) }
        ensures faults { S.faults source.old ≤ S.faults source.new }
        ensures cause { IfErr result
            (λ stop. stop ≡ ReadStop.Fault → Rose (S.faults source.old) (S.faults source.new)) }
        ensures quiet { result ≢ Err ReadStop.Fault → S.faults source.new ≡ S.faults source.old }
    {
        let mut bytes = Vec::from_slice(*self.bytes.allocator(), &self.bytes[self.start..])?;
        let kept = bytes.len();
        bytes.resize(kept + CHUNK, 0)?;
        let count = match source.read(&mut bytes[kept..]) {
            Ok(count) => count,
            Err(_) => return Err(ReadStop::Fault),
        };
        bytes.truncate(kept + count);
        self.bytes = bytes;
        self.start = 0;
        self.ended = count == 0;
        Ok(())
    }
}
