//! Sources and sinks over memory. They tell their bytes, and can be made to fail.

ghost use Rattle.std.specs.Prelude.{◌≡◌, ◌<◌, ◌-◌, ◌^◌, [], Some, false, true};

use std::alloc::Allocator;
use streams::{ByteSink, ByteSource, Failed};

/// Gives the bytes of a slice, so many at most in each read, and so many reads before one fails.
#[derive(Drop)]
pub struct MemorySource<'a> {
    rest: &'a [u8],
    piece: usize,
    reads: usize,
    failed: bool,
    ended: bool,
    ghost gives_some: { 0 < piece },
    ghost nothing_left: { ended ≡ true → rest.now ≡ [] },
}

impl<'a> MemorySource<'a> {
    /// Gives as much as each read asks for, and never fails.
    pub fn new(bytes: &'a [u8]) -> MemorySource<'a>
        ensures bytes { result.rest ≡ bytes.entry }
        ensures piece { result.piece ≡ 2 ^ 64 - 1 }
        ensures reads { result.reads ≡ 2 ^ 64 - 1 }
        ensures unmarked { result.failed ≡ false }
        ensures not_ended { result.ended ≡ false }
    {
        MemorySource {
            rest: bytes,
            piece: usize::MAX,
            reads: usize::MAX,
            failed: false,
            ended: false,
        }
    }

    /// Gives at most so many bytes in each read.
    pub fn in_pieces(mut self, piece: usize) -> MemorySource<'a>
        requires { 0 < piece }
        ensures piece { result.piece ≡ piece }
        ensures reads { result.reads ≡ self.entry.reads }
        ensures bytes { result.rest ≡ self.entry.rest }
        ensures mark { result.failed ≡ self.entry.failed }
        ensures ended { result.ended ≡ self.entry.ended }
    {
        self.piece = piece;
        self
    }

    /// Fails at each read after so many.
    pub fn failing_after(mut self, reads: usize) -> MemorySource<'a>
        ensures piece { result.piece ≡ self.entry.piece }
        ensures reads { result.reads ≡ reads }
        ensures bytes { result.rest ≡ self.entry.rest }
        ensures mark { result.failed ≡ self.entry.failed }
        ensures ended { result.ended ≡ self.entry.ended }
    {
        self.reads = reads;
        self
    }

    /// The bytes still to give.
    pub fn rest(&self) -> &[u8]
        ensures { result.now ≡ self.now.rest.now }
    {
        self.rest
    }
}

impl ByteSource for MemorySource<'_> {
    ghost remaining = { λ source. Some source.rest.now };

    ghost mark = { λ source. source.failed };

    ghost ended = { λ source. source.ended };

    fn read(&mut self, piece: &mut [u8]) -> Result<usize, Failed> {
        if self.ended {
            return Ok(0);
        }
        if self.reads == 0 {
            self.failed = true;
            return Err(Failed);
        }
        self.reads -= 1;
        let count = self.rest.len().min(piece.len()).min(self.piece);
        let (front, rest) = self.rest.split_at(count);
        piece[..count].copy_from_slice(front);
        self.rest = rest;
        self.ended = count == 0 && !piece.is_empty();
        Ok(count)
    }

    fn failed(&self) -> bool {
        self.failed
    }
}

/// Takes bytes into a vector, and fails once it has so many.
#[derive(Drop)]
pub struct MemorySink<A: Allocator> {
    bytes: Vec<u8, A>,
    room: usize,
    failed: bool,
}

impl<A: Allocator> MemorySink<A> {
    /// Has room for so many bytes, and takes its memory from this allocator.
    pub fn new(alloc: A, room: usize) -> MemorySink<A>
        ensures taken { result.bytes.items ≡ [] }
        ensures room { result.room ≡ room }
        ensures unmarked { result.failed ≡ false }
    {
        MemorySink {
            bytes: Vec::new(alloc),
            room,
            failed: false,
        }
    }

    /// The bytes taken so far.
    pub fn bytes(&self) -> &[u8]
        ensures { result.now ≡ self.now.bytes.items }
    {
        self.bytes.as_slice()
    }
}

impl<A: Allocator> ByteSink for MemorySink<A> {
    ghost taken = { λ sink. Some sink.bytes.items };

    ghost mark = { λ sink. sink.failed };

    fn write(&mut self, piece: &[u8]) -> Result<usize, Failed> {
        let count = piece.len().min(self.room);
        if count == 0 && !piece.is_empty() {
            self.failed = true;
            return Err(Failed);
        }
        match self.bytes.extend_from_slice(&piece[..count]) {
            Ok(()) => {
                self.room -= count;
                Ok(count)
            }
            Err(_) => {
                self.failed = true;
                Err(Failed)
            }
        }
    }

    fn failed(&self) -> bool {
        self.failed
    }
}
