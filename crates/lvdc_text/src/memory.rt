ghost use Rattle.std.specs.Prelude.{◌≡◌, ◌+◌, ◌<◌, ◌≤◌, [], ◌++◌, length, take, drop, Some, IfOk, vec_len, vec_capacity};

use crate::{Failed, Sink, Source};
use lvdc_word::NoMemory;
use std::alloc::Global;

/// Bytes in memory, to be read. No read of them fails.
#[derive(Drop)]
pub struct MemorySource {
    bytes: Vec<u8>,
    at: usize,
    ghost in_range: { at ≤ vec_len bytes },
}

impl MemorySource {
    /// A source of these bytes.
    pub fn new(bytes: Vec<u8>) -> MemorySource
        ensures left { drop result.at result.bytes.items ≡ bytes.items }
    {
        MemorySource { bytes, at: 0 }
    }
}

/// Copies what stands from `at` on into the front of `buf`, at most so many bytes.
pub(crate) fn copy_from(bytes: &[u8], at: usize, buf: &mut [u8], most: usize) -> usize
    requires at { at ≤ length bytes.now }
    requires most { 0 < most }
    ensures count { (result ≤ length buf.new) × (result ≤ most) × (at + result ≤ length bytes.now) }
    ensures bytes { drop at bytes.now ≡ take result buf.new ++ drop (at + result) bytes.now }
    ensures end { result ≡ 0 → 0 < length buf.new → drop (at + result) bytes.now ≡ [] }
{
    let (_, rest) = bytes.split_at(at);
    let count = most.min(rest.len()).min(buf.len());
    buf[..count].copy_from_slice(&rest[..count]);
    count
}

impl Source for MemorySource {
    ghost state = { λ s. record { left = Some (drop s.at s.bytes.items); faults = 0 } };

    fn read(&mut self, buf: &mut [u8]) -> Result<usize, Failed> {
        let count = copy_from(self.bytes.as_slice(), self.at, buf, usize::MAX);
        self.at += count;
        Ok(count)
    }
}

/// A sink that keeps what it takes, in room that was made before: it takes no memory while it writes, and no write fails.
#[derive(Drop)]
pub struct MemorySink {
    bytes: Vec<u8>,
    room: usize,
    ghost has_room: { vec_len bytes + room ≤ vec_capacity bytes },
}

impl MemorySink {
    /// A sink with no room. It takes no memory.
    pub fn new(alloc: Global) -> MemorySink
        ensures room { result.room ≡ 0 }
        ensures empty { result.bytes.items ≡ [] }
    {
        MemorySink {
            bytes: Vec::new(alloc),
            room: 0,
        }
    }

    /// A sink with room for so many bytes.
    pub fn with_room(alloc: Global, bytes: usize) -> Result<MemorySink, NoMemory>
        ensures room { IfOk result (λ sink. sink.room ≡ bytes) }
        ensures empty { IfOk result (λ sink. sink.bytes.items ≡ []) }
    {
        let room = bytes;
        let bytes = Vec::with_capacity(alloc, room)?;
        Ok(MemorySink { bytes, room })
    }

    /// What it has taken so far.
    pub fn bytes(&self) -> &[u8]
        ensures { result.now ≡ self.now.bytes.items }
    {
        self.bytes.as_slice()
    }
}

impl Sink for MemorySink {
    ghost state = { λ s. record { written = Some s.bytes.items; faults = 0; room = Some s.room } };

    fn write(&mut self, piece: &[u8]) -> Result<usize, Failed> {
        let count = self.room.min(piece.len());
        self.room -= count;
        match self.bytes.extend_from_slice(&piece[..count]) {
            Ok(()) => Ok(count),
            Err(_) => unreachable!(),
        }
    }
}
