ghost use Rattle.std.specs.Prelude.{◌≡◌, ◌+◌, ◌-◌, ◌^◌, ℕ, min, None, OnErr, Result};
ghost use Rattle.std.specs.Io.{ReadsAtMost};
ghost use Rattle.std.specs.Io.KnownBytes.{ReadConsumes, WriteAppends};
ghost use Rattle.std.specs.declared.io.Error.{Error};
ghost use Rattle.lvdc_text.specs.Causes.{CountsFailures};
ghost use Rattle.lvdc_text.specs.Room.{TakesSome, UsesRoom};
ghost use Rattle.lvdc_text.specs.Tries.{IsTried, TellsRead, TellsWrite};

use crate::retried::{read_tried, write_tried};
use crate::{Failed, Reads, Sink, Source, Writes};

/// A reader of std as a source. A read that is interrupted is made again. It counts the reads that failed; the count ends at the
/// greatest u64.
#[derive(Drop)]
pub struct StdSource<R: Reads> {
    inner: R,
    faults: u64,
}

impl<R: Reads> StdSource<R> {
    /// A source over this reader, with no failure counted.
    pub fn new(inner: R) -> StdSource<R>
        ensures inner { result.inner ≡ inner }
        ensures faults { result.faults ≡ 0 }
    {
        StdSource { inner, faults: 0 }
    }
}

impl<R: Reads> Source for StdSource<R> {
    ghost state = { λ s. record { left = R.left s.inner; faults = s.faults } };

    fn read(&mut self, buf: &mut [u8]) -> Result<usize, Failed>
        ensures bound { ReadsAtMost result buf.new }
        ensures bytes { ReadConsumes (R.left self.old.inner) (R.left self.new.inner) result buf.new }
        ensures cause { CountsFailures self.old.faults self.new.faults result }
        // A failure is counted once, up to the greatest u64.
        ensures by_one { OnErr result (self.new.faults ≡ min (self.old.faults + 1) (2 ^ 64 - 1)) }
        // It answers what the reader answered, once it wasn't interrupted.
        ensures told { (answer : Result ℕ Error)
            × IsTried R.reads (self.old.inner, buf.old) answer (self.new.inner, buf.new) × TellsRead answer result }
    {
        match read_tried(&mut self.inner, buf) {
            Ok(count) => Ok(count),
            Err(_) => {
                self.faults = self.faults.saturating_add(1);
                Err(Failed)
            }
        }
    }
}

/// A writer of std as a sink. A write that is interrupted is made again. It counts the writes that failed, one that took no byte
/// of some too; the count ends at the greatest u64. It doesn't tell its room.
#[derive(Drop)]
pub struct StdSink<W: Writes> {
    inner: W,
    faults: u64,
}

impl<W: Writes> StdSink<W> {
    /// A sink over this writer, with no failure counted.
    pub fn new(inner: W) -> StdSink<W>
        ensures inner { result.inner ≡ inner }
        ensures faults { result.faults ≡ 0 }
    {
        StdSink { inner, faults: 0 }
    }
}

impl<W: Writes> Sink for StdSink<W> {
    ghost state = { λ s. record { written = W.written s.inner; faults = s.faults; room = None } };

    fn write(&mut self, piece: &[u8]) -> Result<usize, Failed>
        ensures count { TakesSome result piece.now }
        ensures bytes { WriteAppends (W.written self.old.inner) (W.written self.new.inner) result piece.now }
        ensures room { UsesRoom None None result }
        ensures cause { CountsFailures self.old.faults self.new.faults result }
        // A failure is counted once, up to the greatest u64.
        ensures by_one { OnErr result (self.new.faults ≡ min (self.old.faults + 1) (2 ^ 64 - 1)) }
        // It answers what the writer answered, once it wasn't interrupted.
        ensures told { (answer : Result ℕ Error)
            × IsTried (W.writes piece.now) self.old.inner answer self.new.inner × TellsWrite piece.now answer result }
    {
        match write_tried(&mut self.inner, piece) {
            Ok(count) if count > 0 || piece.is_empty() => Ok(count),
            _ => {
                self.faults = self.faults.saturating_add(1);
                Err(Failed)
            }
        }
    }
}
