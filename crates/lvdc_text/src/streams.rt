ghost use Rattle.std.specs.Prelude.{◌<◌, length};
ghost use Rattle.std.specs.Io.{ReadsAtMost};
ghost use Rattle.std.specs.Io.KnownBytes.{ReadConsumes, WriteAppends};
ghost use Rattle.lvdc_text.specs.Causes.{CountsFailures};
ghost use Rattle.lvdc_text.specs.Room.{HasRoom, TakesSome, UsesRoom};
ghost use Rattle.lvdc_text.specs.Streams.{SourceState, SinkState};

use thiserror::Error;

/// A read or a write that did not happen: no byte was taken or given.
#[derive(Clone, Copy, Debug, PartialEq, Eq, Error)]
#[error("a read or a write failed")]
pub struct Failed;

/// Where bytes come from.
pub trait Source {
    // what it tells: the bytes not yet read, and how many reads have failed
    ghost state: { Self → SourceState };

    /// Fills the front of the buffer and answers how many bytes that took. For a buffer that isn't empty 0 is the end.
    fn read(&mut self, buf: &mut [u8]) -> Result<usize, Failed>
        ensures bound { ReadsAtMost result buf.new }
        ensures bytes { ReadConsumes (state self.old).left (state self.new).left result buf.new }
        ensures cause { CountsFailures (state self.old).faults (state self.new).faults result };
}

/// Where bytes go.
pub trait Sink {
    // what it tells: the bytes taken so far, how many writes have failed, and how many more bytes it takes
    ghost state: { Self → SinkState };

    /// Takes bytes from the front of the piece and answers how many: at least one where there is one.
    fn write(&mut self, piece: &[u8]) -> Result<usize, Failed>
        requires { 0 < length piece.now → HasRoom (state self.old).room 1 }
        ensures count { TakesSome result piece.now }
        ensures bytes { WriteAppends (state self.old).written (state self.new).written result piece.now }
        ensures room { UsesRoom (state self.old).room (state self.new).room result }
        ensures cause { CountsFailures (state self.old).faults (state self.new).faults result };
}
