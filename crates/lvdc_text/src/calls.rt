ghost use Rattle.std.specs.Prelude.{ℕ, List, Result};
ghost use Rattle.std.specs.declared.io.Error.{Error};
ghost use Rattle.std.specs.declared.option.Option.{Option};
ghost use Rattle.std.specs.Io.{ReadsAtMost, WritesAtMost};
ghost use Rattle.std.specs.Io.KnownBytes.{ReadConsumes, WriteAppends};

use std::io::{Read, Result, Write};

/// What reads once when it is asked, as a reader of std does. A call may be interrupted, as by a signal.
pub trait Reads {
    // the bytes not yet read, where they are told
    ghost left: { Self → Option (List ℕ) };

    // what a call does: the reader and the buffer before it, its answer, and both after it
    ghost reads: { Self × List ℕ → Result ℕ Error → Self × List ℕ → Type 0 };

    /// Makes one call.
    fn read_once(&mut self, buf: &mut [u8]) -> Result<usize>
        ensures bound { ReadsAtMost result buf.new }
        ensures bytes { ReadConsumes (left self.old) (left self.new) result buf.new }
        ensures call { reads (self.old, buf.old) result (self.new, buf.new) };
}

/// What writes once when it is asked, as a writer of std does. A call may be interrupted, as by a signal.
pub trait Writes {
    // the bytes taken so far, where they are told
    ghost written: { Self → Option (List ℕ) };

    // what a call does with these bytes: the writer before it, its answer, and the writer after it
    ghost writes: { List ℕ → Self → Result ℕ Error → Self → Type 0 };

    /// Makes one call.
    fn write_once(&mut self, buf: &[u8]) -> Result<usize>
        ensures bound { WritesAtMost result buf.now }
        ensures bytes { WriteAppends (written self.old) (written self.new) result buf.now }
        ensures call { writes buf.now self.old result self.new };
}

// std tells no more of a call than this. So that a reader or a writer of std is called at all is said by the two bodies below alone.
impl<R: Read> Reads for R {
    ghost left = { R.remaining };

    ghost reads = { λ before answer after. ReadsAtMost answer after.1 × ReadConsumes (R.remaining before.0) (R.remaining after.0) answer after.1 };

    fn read_once(&mut self, buf: &mut [u8]) -> Result<usize> {
        self.read(buf)
    }
}

impl<W: Write> Writes for W {
    ghost written = { W.contents };

    ghost writes = { λ bytes before answer after. WritesAtMost answer bytes × WriteAppends (W.contents before) (W.contents after) answer bytes };

    fn write_once(&mut self, buf: &[u8]) -> Result<usize> {
        self.write(buf)
    }
}
