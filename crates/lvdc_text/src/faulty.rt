ghost use Rattle.std.specs.Prelude.{◌≡◌, ◌+◌, ◌-◌, ◌^◌, ◌<◌, ◌≤◌, ◌↔◌, [], drop, length, min, Some, IsErr, IfOk, OnErr, Contains, vec_len, vec_capacity};
ghost use Rattle.std.specs.Io.{ReadsAtMost};
ghost use Rattle.std.specs.Io.KnownBytes.{ReadConsumes, WriteAppends};
ghost use Rattle.lvdc_text.specs.Causes.{CountsFailures};
ghost use Rattle.lvdc_text.specs.Room.{HasRoom, TakesSome, UsesRoom};

use crate::memory::copy_from;
use crate::{Failed, Sink, Source};
use lvdc_word::NoMemory;
use std::alloc::Global;

/// How many bytes one call gives or takes at most.
const MOST: usize = 64;

/// The calls so far, and those that are to fail by their numbers, from 1.
#[derive(Drop)]
struct Calls {
    fails: Vec<u64>,
    made: u64,
    faults: u64,
}

impl Calls {
    fn new(fails: Vec<u64>) -> Calls
        ensures fails { result.fails ≡ fails }
        ensures made { result.made ≡ 0 }
        ensures faults { result.faults ≡ 0 }
    {
        Calls {
            fails,
            made: 0,
            faults: 0,
        }
    }

    /// Counts one more call, which fails where it is named.
    fn begin(&mut self) -> Result<(), Failed>
        ensures cause { CountsFailures self.old.faults self.new.faults result }
        // A failure is counted once, up to the greatest u64.
        ensures by_one { OnErr result (self.new.faults ≡ min (self.old.faults + 1) (2 ^ 64 - 1)) }
        ensures fails { IsErr result ↔ Contains self.old.fails.items self.new.made }
        ensures kept { self.new.fails ≡ self.old.fails }
        ensures counted { self.new.made ≡ min (self.old.made + 1) (2 ^ 64 - 1) }
    {
        self.made = self.made.saturating_add(1);
        if self.fails.contains(&self.made) {
            self.faults = self.faults.saturating_add(1);
            return Err(Failed);
        }
        Ok(())
    }
}

/// Bytes in memory, to be read at most 64 at a time, where the calls named at the start fail.
#[derive(Drop)]
pub struct FaultySource {
    bytes: Vec<u8>,
    at: usize,
    calls: Calls,
    ghost in_range: { at ≤ vec_len bytes },
}

impl FaultySource {
    /// A source of these bytes. `fails` names the calls that fail by their numbers, from 1.
    pub fn new(bytes: Vec<u8>, fails: Vec<u64>) -> FaultySource
        ensures left { drop result.at result.bytes.items ≡ bytes.items }
        ensures fails { result.calls.fails ≡ fails }
        ensures made { result.calls.made ≡ 0 }
        ensures faults { result.calls.faults ≡ 0 }
    {
        FaultySource {
            bytes,
            at: 0,
            calls: Calls::new(fails),
        }
    }
}

impl Source for FaultySource {
    ghost state = { λ s. record { left = Some (drop s.at s.bytes.items); faults = s.calls.faults } };

    fn read(&mut self, buf: &mut [u8]) -> Result<usize, Failed>
        ensures bound { ReadsAtMost result buf.new }
        ensures bytes { ReadConsumes (Some (drop self.old.at self.old.bytes.items))
            (Some (drop self.new.at self.new.bytes.items)) result buf.new }
        ensures cause { CountsFailures self.old.calls.faults self.new.calls.faults result }
        // A failure is counted once, up to the greatest u64.
        ensures by_one { OnErr result
            (self.new.calls.faults ≡ min (self.old.calls.faults + 1) (2 ^ 64 - 1)) }
        // It fails at the calls that were named, and at no other.
        ensures fails { IsErr result ↔ Contains self.old.calls.fails.items self.new.calls.made }
        ensures kept { self.new.calls.fails ≡ self.old.calls.fails }
        ensures counted { self.new.calls.made ≡ min (self.old.calls.made + 1) (2 ^ 64 - 1) }
        ensures few { IfOk result (λ n. n ≤ MOST) }
    {
        self.calls.begin()?;
        let count = copy_from(self.bytes.as_slice(), self.at, buf, MOST);
        self.at += count;
        Ok(count)
    }
}

/// A sink that keeps what it takes, at most 64 bytes at a time, where the calls named at the start fail.
#[derive(Drop)]
pub struct FaultySink {
    bytes: Vec<u8>,
    room: usize,
    calls: Calls,
    ghost has_room: { vec_len bytes + room ≤ vec_capacity bytes },
}

impl FaultySink {
    /// A sink with room for so many bytes. `fails` names the calls that fail by their numbers, from 1.
    pub fn with_room(alloc: Global, bytes: usize, fails: Vec<u64>) -> Result<FaultySink, NoMemory>
        ensures room { IfOk result (λ sink. sink.room ≡ bytes) }
        ensures empty { IfOk result (λ sink. sink.bytes.items ≡ []) }
        ensures fails { IfOk result (λ sink. sink.calls.fails ≡ fails) }
        ensures made { IfOk result (λ sink. sink.calls.made ≡ 0) }
        ensures faults { IfOk result (λ sink. sink.calls.faults ≡ 0) }
    {
        let room = bytes;
        let bytes = Vec::with_capacity(alloc, room)?;
        let calls = Calls::new(fails);
        Ok(FaultySink { bytes, room, calls })
    }

    /// What it has taken so far.
    pub fn bytes(&self) -> &[u8]
        ensures { result.now ≡ self.now.bytes.items }
    {
        self.bytes.as_slice()
    }
}

impl Sink for FaultySink {
    ghost state = { λ s. record { written = Some s.bytes.items; faults = s.calls.faults; room = Some s.room } };

    fn write(&mut self, piece: &[u8]) -> Result<usize, Failed>
        requires { 0 < length piece.now → HasRoom (Some self.old.room) 1 }
        ensures count { TakesSome result piece.now }
        ensures bytes { WriteAppends (Some self.old.bytes.items) (Some self.new.bytes.items)
            result piece.now }
        ensures room { UsesRoom (Some self.old.room) (Some self.new.room) result }
        ensures cause { CountsFailures self.old.calls.faults self.new.calls.faults result }
        // A failure is counted once, up to the greatest u64.
        ensures by_one { OnErr result
            (self.new.calls.faults ≡ min (self.old.calls.faults + 1) (2 ^ 64 - 1)) }
        // It fails at the calls that were named, and at no other.
        ensures fails { IsErr result ↔ Contains self.old.calls.fails.items self.new.calls.made }
        ensures kept { self.new.calls.fails ≡ self.old.calls.fails }
        ensures counted { self.new.calls.made ≡ min (self.old.calls.made + 1) (2 ^ 64 - 1) }
        ensures few { IfOk result (λ n. n ≤ MOST) }
    {
        self.calls.begin()?;
        let count = self.room.min(piece.len()).min(MOST);
        self.room -= count;
        match self.bytes.extend_from_slice(&piece[..count]) {
            Ok(()) => Ok(count),
            Err(_) => unreachable!(),
        }
    }
}
