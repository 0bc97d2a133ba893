//! A source and a sink in memory, with lists of the calls that fail.

ghost use Rattle.std.specs.Prelude.{min, take, ◌≡◌, ◌≢◌, ◌<◌, ◌≤◌, ◌↔◌, ℕ, [], length, Err, IfOk, IsOk, IsErr, IsErrOf, Contains, Some};
ghost use Rattle.std.specs.Io.{ReadsAtMost, WritesAtMost};
ghost use Rattle.std.specs.Io.KnownBytes.{ReadConsumes, WriteAppends};
ghost use Rattle.base_core.specs.Counts.{Rose, one_more};
ghost use Rattle.base_core.specs.declared.refusal.Refusal.TheVariants.{Memory};

use crate::{ReadFault, Sink, SinkStop, Source};
use std::alloc::{AllocError, Global};
use std::marker::Model;

/// A source of given bytes.
#[derive(Drop)]
pub struct MemSource {
    bytes: Vec<u8>,
    /// How many of the bytes were read.
    place: usize,
    calls: u64,
    failing: Vec<u64>,
    faults: u64,
}

impl Model for MemSource {
    ghost use Rattle.std.specs.Prelude.{◌≤◌, drop, vec_len};
    ghost use Rattle.byte_streams.specs.Streams.{Reading};

    ghost Value = { Reading };

    ghost view = { λ s. record { left = drop s.place s.bytes.items; calls = s.calls; failing = s.failing.items; faults = s.faults } };

    ghost invariant = { λ s. s.place ≤ vec_len s.bytes };
}

impl MemSource {
    /// A source of these bytes; its reads of these numbers, from 1, fail. The only refusal is that memory ran out.
    pub fn new(alloc: Global, bytes: &[u8], failing: &[u64]) -> Result<MemSource, AllocError>
        ensures made { IfOk result
            (λ s. s ≡ record { left = bytes.now; calls = 0; failing = failing.now; faults = 0 }) }
    {
        Ok(MemSource {
            bytes: Vec::from_slice(alloc, bytes)?,
            place: 0,
            calls: 0,
            failing: Vec::from_slice(alloc, failing)?,
            faults: 0,
        })
    }
}

impl Source for MemSource {
    ghost left = { λ s. Some s.left };

    ghost faults = { λ s. s.faults };

    #[tactic(auto, using(crate::proofs::ReadingLemmas::reads_prefix))]
    fn read(&mut self, buffer: &mut [u8]) -> Result<usize, ReadFault>
        ensures bound { ReadsAtMost result buffer.new }
        ensures bytes { ReadConsumes (Some self.old.left) (Some self.new.left) result buffer.new }
        ensures later { self.old.faults ≤ self.new.faults }
        ensures cause { IsErr result → Rose self.old.faults self.new.faults }
        ensures quiet { IsOk result → self.new.faults ≡ self.old.faults }
        ensures counted { self.new.calls ≡ one_more self.old.calls }
        ensures fails { IsErr result ↔ Contains self.old.failing self.new.calls }
        ensures listed { self.new.failing ≡ self.old.failing }
    {
        self.calls = self.calls.saturating_add(1);
        if self.failing.contains(&self.calls) {
            self.faults = self.faults.saturating_add(1);
            return Err(ReadFault);
        }
        let count = fill(buffer, &self.bytes[self.place..]);
        self.place += count;
        Ok(count)
    }
}

#[tactic(auto, using(crate::proofs::ReadingLemmas::same_prefix))]
/// Copies a prefix of the bytes to the beginning of the buffer, as long as both allow, and answers its length.
fn fill(buffer: &mut [u8], bytes: &[u8]) -> usize
    ensures count { result ≡ min (length bytes.now) (length buffer.old) }
    ensures prefix { take result buffer.new ≡ take result bytes.now }
{
    let count = bytes.len().min(buffer.len());
    buffer[..count].copy_from_slice(&bytes[..count]);
    count
}

/// A sink that keeps what it takes.
#[derive(Drop)]
pub struct MemSink {
    bytes: Vec<u8>,
    calls: u64,
    failing: Vec<u64>,
    faults: u64,
}

impl Model for MemSink {
    ghost use Rattle.byte_streams.specs.Streams.{Writing};

    ghost Value = { Writing };

    ghost view = { λ s. record { written = s.bytes.items; calls = s.calls; failing = s.failing.items; faults = s.faults } };
}

impl MemSink {
    /// An empty sink; its writes of these numbers, from 1, fail. The only refusal is that memory ran out.
    pub fn new(alloc: Global, failing: &[u64]) -> Result<MemSink, AllocError>
        ensures made { IfOk result
            (λ s. s ≡ record { written = []; calls = 0; failing = failing.now; faults = 0 }) }
    {
        Ok(MemSink {
            bytes: Vec::new(alloc),
            calls: 0,
            failing: Vec::from_slice(alloc, failing)?,
            faults: 0,
        })
    }

    /// What was written.
    pub fn bytes(&self) -> &[u8]
        ensures { result.now ≡ self.now.written }
    {
        self.bytes.as_slice()
    }
}

impl Sink for MemSink {
    ghost written = { λ s. Some s.written };

    ghost faults = { λ s. s.faults };

    fn write(&mut self, piece: &[u8]) -> Result<usize, SinkStop>
        ensures bound { WritesAtMost result piece.now }
        ensures takes { IfOk result (λ n. 0 < length piece.now → 0 < n) }
        ensures bytes { WriteAppends (Some self.old.written)
            (Some self.new.written) result piece.now }
        ensures later { self.old.faults ≤ self.new.faults }
        ensures cause { IsErrOf result SinkStop.Fault → Rose self.old.faults self.new.faults }
        ensures quiet { result ≢ Err SinkStop.Fault → self.new.faults ≡ self.old.faults }
        ensures counted { self.new.calls ≡ one_more self.old.calls }
        ensures fails { IsErrOf result SinkStop.Fault ↔ Contains self.old.failing self.new.calls }
        ensures listed { self.new.failing ≡ self.old.failing }
    {
        self.calls = self.calls.saturating_add(1);
        if self.failing.contains(&self.calls) {
            self.faults = self.faults.saturating_add(1);
            return Err(SinkStop::Fault);
        }
        if self.bytes.extend_from_slice(piece).is_err() {
            return Err(SinkStop::Memory);
        }
        Ok(piece.len())
    }
}
