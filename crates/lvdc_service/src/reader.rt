ghost use Rattle.std.specs.Prelude.{◌≡◌, ◌≢◌, ◌<◌, ◌≤◌, ◌+◌, ◌++◌, ◌∷◌, List, ℕ, true, false, [], length, take, drop, slice_range, Ok, Err, IfOk, IfSome, IfNone, OnErr, IsErrOf, vec_len, vec_capacity};
ghost use Rattle.std.specs.Io.KnownBytes.{Consumes, IsAtEnd};
ghost use Rattle.lvdc_text.specs.Causes.{CountsFailures, Rose};
ghost use Rattle.lvdc_service.specs.Reading.{Uses, to_come, IsShort, IsLine};

use arrayvec::ArrayVec;
use lvdc_text::{Failed, Source};
use std::alloc::Global;
use std::marker::Model;
use thiserror::Error;

/// How many bytes are taken from a source at once.
const ROOM: usize = 4096;

#[derive(Debug)]
/// What stands where a line would begin.
#[derive(Drop)]
pub enum Line {
    /// A line that LF ends, without the LF.
    Ended(ArrayVec<u8, 255>),
    /// Nothing: the source is at its end.
    Nothing,
    /// Bytes without an LF: 256 of them, or as many as there are.
    Open,
}

/// Why the bytes of an input could not all be had.
#[derive(Clone, Copy, Debug, PartialEq, Eq, Error)]
pub enum InputEnd {
    /// A read failed.
    #[error("a read failed")]
    ReadFault,
    /// The source ends before the input does.
    #[error("the source ends in the input")]
    Short,
    /// There was no memory for the bytes; none of them was used.
    #[error("no memory")]
    NoMemory,
}

/// Bytes that were taken from a source and are still to be used.
#[derive(Drop)]
pub struct Reader {
    bytes: [u8; 4096],
    at: usize,
    end: usize,
}

impl Model for Reader {
    ghost Value = { List ℕ };

    ghost view = { λ r. slice_range r.bytes r.at r.end };

    ghost invariant = { λ r. (r.at ≤ r.end) × (r.end ≤ 4096) };
}

impl Reader {
    /// A reader that holds nothing.
    pub fn new() -> Reader
        ensures { result ≡ [] }
    {
        Reader {
            bytes: [0; ROOM],
            at: 0,
            end: 0,
        }
    }

    /// Does it hold nothing?
    fn is_empty(&self) -> bool
        ensures yes { result ≡ true → self.now ≡ [] }
        ensures no { result ≡ false → 0 < length self.now }
    {
        self.at == self.end
    }

    /// Reads once. What was held is given up.
    fn fill<S: Source>(&mut self, source: &mut S) -> Result<(), Failed>
        ensures taken { IfOk result (λ _. Consumes (S.state source.old).left (S.state source.new).left self.new) }
        ensures end { IfOk result (λ _. self.new ≡ [] → IsAtEnd (S.state source.new).left) }
        ensures failed { OnErr result ((self.new ≡ []) × Consumes (S.state source.old).left (S.state source.new).left []) }
        ensures cause { CountsFailures (S.state source.old).faults (S.state source.new).faults result }
    {
        self.at = 0;
        self.end = 0;
        self.end = source.read(&mut self.bytes)?;
        Ok(())
    }

    /// Sees to it that a byte is held, where one is to come; it reads only where none is held. Says whether one is.
    fn more<S: Source>(&mut self, source: &mut S) -> Result<bool, Failed>
        ensures used { Uses self.old (S.state source.old).left self.new (S.state source.new).left [] }
        ensures some { result ≡ Ok true → 0 < length self.new }
        ensures none { result ≡ Ok false → to_come self.new (S.state source.new).left ≡ [] }
        ensures cause { CountsFailures (S.state source.old).faults (S.state source.new).faults result }
    {
        if self.is_empty() {
            self.fill(source)?;
        }
        Ok(!self.is_empty())
    }

    /// Uses the first byte that is held.
    fn first(&mut self) -> u8
        requires { 0 < length self.old }
        ensures { self.old ≡ result ∷ self.new }
    {
        let byte = self.bytes[self.at];
        self.at += 1;
        byte
    }

    /// Uses bytes that are held, at most so many, and puts them behind those in a list that has room for them.
    fn give(&mut self, out: &mut Vec<u8>, most: usize)
        requires { vec_len out.old + most ≤ vec_capacity out.old }
        ensures given { out.new.items ≡ out.old.items ++ take most self.old }
        ensures kept { self.new ≡ drop most self.old }
        ensures room { vec_capacity out.old ≤ vec_capacity out.new }
    {
        let count = most.min(self.end - self.at);
        let pushed = out.extend_from_slice(&self.bytes[self.at..self.at + count]);
        prove!(pushed.is_ok());
        self.at += count;
    }

    /// Uses bytes that are held, at most so many, and says how many.
    fn pass(&mut self, most: usize) -> usize
        ensures kept { self.new ≡ drop result self.old }
        ensures held { result ≤ length self.old }
        ensures most { result ≤ most }
        ensures some { 0 < most → 0 < length self.old → 0 < result }
    {
        let count = most.min(self.end - self.at);
        self.at += count;
        count
    }

    /// The next byte, where one is to come.
    fn byte<S: Source>(&mut self, source: &mut S) -> Result<Option<u8>, Failed>
        ensures some { IfOk result (λ next. IfSome next (λ byte. Uses self.old (S.state source.old).left self.new (S.state source.new).left (byte ∷ []))) }
        ensures none { IfOk result (λ next. IfNone next (Uses self.old (S.state source.old).left self.new (S.state source.new).left []
            × (to_come self.new (S.state source.new).left ≡ []))) }
        ensures failed { OnErr result (Uses self.old (S.state source.old).left self.new (S.state source.new).left []) }
        ensures cause { CountsFailures (S.state source.old).faults (S.state source.new).faults result }
    {
        if self.more(source)? {
            Ok(Some(self.first()))
        } else {
            Ok(None)
        }
    }

    /// Uses the line that comes next, with its LF. It takes no memory, and no byte is used behind the LF or behind the 256th
    /// byte.
    pub fn line<S: Source>(&mut self, source: &mut S) -> Result<Line, Failed>
        ensures line { IfOk result (λ line. IsLine line self.old (S.state source.old).left self.new (S.state source.new).left) }
        ensures failed { OnErr result ((used : List ℕ) × Uses self.old (S.state source.old).left self.new (S.state source.new).left used) }
        ensures cause { CountsFailures (S.state source.old).faults (S.state source.new).faults result }
    {
        let mut line = ArrayVec::new();
        loop {
            match self.byte(source) {
                Ok(Some(byte)) => {
                    if byte == b'\n' {
                        return Ok(Line::Ended(line));
                    }
                    match line.try_push(byte) {
                        Ok(()) => {}
                        Err(_) => return Ok(Line::Open),
                    }
                }
                Ok(None) => {
                    if line.len() == 0 {
                        return Ok(Line::Nothing);
                    }
                    return Ok(Line::Open);
                }
                Err(failed) => return Err(failed),
            }
        }
    }

    /// Uses the next bytes, so many, and keeps them. Where there is no memory for them none was used.
    pub fn input<S: Source>(
        &mut self,
        alloc: Global,
        source: &mut S,
        count: usize,
    ) -> Result<Vec<u8>, InputEnd>
        ensures all { IfOk result (λ v. (length v.items ≡ count)
            × Uses self.old (S.state source.old).left self.new (S.state source.new).left v.items) }
        ensures short { IsErrOf result InputEnd.Short → IsShort self.old (S.state source.old).left self.new (S.state source.new).left count }
        ensures no_memory { IsErrOf result InputEnd.NoMemory → (self.new ≡ self.old) × (source.new ≡ source.old) }
        ensures fault { IsErrOf result InputEnd.ReadFault → Rose (S.state source.old).faults (S.state source.new).faults
            × (used : List ℕ) × Uses self.old (S.state source.old).left self.new (S.state source.new).left used }
        ensures later { (S.state source.old).faults ≤ (S.state source.new).faults }
        ensures quiet { result ≢ Err InputEnd.ReadFault → (S.state source.new).faults ≡ (S.state source.old).faults }
    {
        let mut input = match Vec::with_capacity(alloc, count) {
            Ok(input) => input,
            Err(_) => return Err(InputEnd::NoMemory),
        };
        while input.len() < count {
            let rest = count - input.len();
            match self.more(source) {
                Ok(true) => self.give(&mut input, rest),
                Ok(false) => return Err(InputEnd::Short),
                Err(_) => return Err(InputEnd::ReadFault),
            }
        }
        Ok(input)
    }

    /// Uses the next bytes, so many, and drops them piece by piece. It takes no memory.
    pub fn skip<S: Source>(&mut self, source: &mut S, count: usize) -> Result<(), InputEnd>
        ensures all { IfOk result (λ _. (used : List ℕ) × (length used ≡ count)
            × Uses self.old (S.state source.old).left self.new (S.state source.new).left used) }
        ensures short { IsErrOf result InputEnd.Short → IsShort self.old (S.state source.old).left self.new (S.state source.new).left count }
        ensures memory { result ≢ Err InputEnd.NoMemory }
        ensures fault { IsErrOf result InputEnd.ReadFault → Rose (S.state source.old).faults (S.state source.new).faults
            × (used : List ℕ) × Uses self.old (S.state source.old).left self.new (S.state source.new).left used }
        ensures later { (S.state source.old).faults ≤ (S.state source.new).faults }
        ensures quiet { result ≢ Err InputEnd.ReadFault → (S.state source.new).faults ≡ (S.state source.old).faults }
    {
        let mut rest = count;
        while rest > 0 {
            match self.more(source) {
                Ok(true) => rest -= self.pass(rest),
                Ok(false) => return Err(InputEnd::Short),
                Err(_) => return Err(InputEnd::ReadFault),
            }
        }
        Ok(())
    }
}
