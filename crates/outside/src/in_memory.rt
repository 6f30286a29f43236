//! Sources and sinks in memory.

ghost use Rattle.std.specs.Prelude.{◌≡◌, ◌-◌, ◌^◌, ◌<◌, ◌≤◌, [], length, drop, Some, None, Ok, IsOk, IfOk, vec_capacity};
ghost use Rattle.std.specs.Io.{ReadsAtMost};
ghost use Rattle.std.specs.Io.KnownBytes.{ReadConsumes};
ghost use Rattle.outside.specs.Bounds.{zero_in_range};
ghost use Rattle.outside.specs.Faults.{faults_in, faults_in_range};

use crate::answers::{Failed, Memory};
use crate::failures::Failures;
use crate::streams::{Sink, Source};
use std::alloc::Global;

/// A source over bytes in memory that never fails.
#[derive(Debug, Drop)]
pub struct SureSource {
    content: Vec<u8>,
    at: usize,
    piece: usize,
    ghost within: { at ≤ length content.items },
    ghost some: { 0 < piece },
}

impl SureSource {
    ghost use Rattle.outside.specs.InMemory.{piece_of};

    /// A source of this content, which gives at most `piece` bytes a read.
    pub fn new(content: Vec<u8>, piece: usize) -> SureSource
        requires { 0 < piece }
        ensures left { ⟦<SureSource as Source>⟧.left result ≡ Some content.items }
        ensures piece { piece_of result ≡ piece }
        ensures faults { ⟦<SureSource as Source>⟧.faults result ≡ 0 }
    {
        SureSource {
            content,
            at: 0,
            piece,
        }
    }
}

impl Source for SureSource {
    ghost use Rattle.outside.specs.InMemory.{piece_of};

    ghost left = { λ source. Some (drop source.at source.content.items) };

    ghost faults = { λ _. 0 };

    ghost counted = { λ _. zero_in_range };

    fn read(&mut self, into: &mut [u8]) -> Result<usize, Failed>
        ensures bound { ReadsAtMost result into.new }
        ensures bytes { ReadConsumes (⟦<SureSource as Source>⟧.left self.old)
            (⟦<SureSource as Source>⟧.left self.new) result into.new }
        ensures sure { IsOk result }
        ensures piece { IfOk result (λ count. count ≤ piece_of self.old) }
        ensures same { piece_of self.new ≡ piece_of self.old }
    {
        let count = into.len().min(self.piece).min(self.content.len() - self.at);
        into[..count].copy_from_slice(&self.content[self.at..self.at + count]);
        self.at += count;
        Ok(count)
    }
}

/// A source over bytes in memory, some of whose reads fail.
#[derive(Debug, Drop)]
pub struct MemorySource {
    inner: SureSource,
    failures: Failures,
}

impl MemorySource {
    /// A source of this content, which gives at most `piece` bytes a read. `failing` has the
    /// numbers, from 0, of the reads that fail.
    pub fn new(content: Vec<u8>, piece: usize, failing: Vec<u64>) -> MemorySource
        requires { 0 < piece }
        ensures left { ⟦<MemorySource as Source>⟧.left result ≡ Some content.items }
        ensures faults { ⟦<MemorySource as Source>⟧.faults result ≡ 0 }
    {
        MemorySource {
            inner: SureSource::new(content, piece),
            failures: Failures::new(failing),
        }
    }
}

impl Source for MemorySource {
    ghost left = { λ source. ⟦<SureSource as Source>⟧.left source.inner };

    ghost faults = { λ source. faults_in source.failures.faults };

    ghost counted = { λ source. faults_in_range source.failures.faults };

    fn read(&mut self, into: &mut [u8]) -> Result<usize, Failed> {
        if self.failures.next_fails() {
            return Err(Failed);
        }
        self.inner.read(into)
    }
}

/// A sink that never fails, keeps nothing and doesn't tell what was written.
#[derive(Debug, Drop)]
pub struct SureSink;

impl SureSink {
    /// A sink that takes each piece whole.
    pub fn new() -> SureSink
        ensures written { ⟦<SureSink as Sink>⟧.written result ≡ None }
        ensures faults { ⟦<SureSink as Sink>⟧.faults result ≡ 0 }
    {
        SureSink
    }
}

impl Sink for SureSink {
    ghost written = { λ _. None };

    ghost faults = { λ _. 0 };

    ghost counted = { λ _. zero_in_range };

    fn write(&mut self, piece: &[u8]) -> Result<usize, Failed>
        ensures { result ≡ Ok (length piece.now) }
    {
        Ok(piece.len())
    }
}

/// A sink in memory with room for a fixed number of bytes, some of whose writes fail.
#[derive(Debug, Drop)]
pub struct MemorySink {
    bytes: Vec<u8>,
    room: usize,
    piece: usize,
    failures: Failures,
    ghost some: { 0 < piece },
    ghost within: { length bytes.items ≤ room },
    ghost taken_at_once: { room ≤ vec_capacity bytes },
}

impl MemorySink {
    ghost use Rattle.outside.specs.InMemory.{room_of};

    /// An empty sink with room for `room` bytes, which takes at most `piece` bytes a write.
    /// `failing` has the numbers, from 0, of the writes that fail. The room is taken here, so no
    /// write takes memory.
    pub fn new(
        alloc: Global,
        room: usize,
        piece: usize,
        failing: Vec<u64>,
    ) -> Result<MemorySink, Memory>
        requires { 0 < piece }
        ensures written { IfOk result
            (λ sink. ⟦<MemorySink as Sink>⟧.written sink ≡ Some []) }
        ensures room { IfOk result (λ sink. room_of sink ≡ room) }
        ensures faults { IfOk result (λ sink. ⟦<MemorySink as Sink>⟧.faults sink ≡ 0) }
    {
        let bytes = Vec::with_capacity(alloc, room)?;
        Ok(MemorySink {
            bytes,
            room,
            piece,
            failures: Failures::new(failing),
        })
    }

    /// What was written so far.
    pub fn taken(&self) -> &[u8]
        ensures written { ⟦<MemorySink as Sink>⟧.written self.now ≡ Some result.now }
        ensures fits { length result.now ≤ room_of self.now }
    {
        self.bytes.as_slice()
    }
}

impl Sink for MemorySink {
    ghost written = { λ sink. Some sink.bytes.items };

    ghost faults = { λ sink. faults_in sink.failures.faults };

    ghost counted = { λ sink. faults_in_range sink.failures.faults };

    fn write(&mut self, piece: &[u8]) -> Result<usize, Failed> {
        if self.failures.next_fails() {
            return Err(Failed);
        }
        let left = self.room - self.bytes.len();
        let count = piece.len().min(self.piece).min(left);
        if count == 0 && !piece.is_empty() {
            self.failures.faults.rise();
            return Err(Failed);
        }
        self.bytes.extend_from_slice(&piece[..count]).unwrap();
        Ok(count)
    }
}
