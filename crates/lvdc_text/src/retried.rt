ghost use Rattle.std.specs.Prelude.{◌≡◌, ◌≢◌, false, IsTrue, IsErrAnd, IfErr};
ghost use Rattle.std.specs.Io.{ReadsAtMost, WritesAtMost};
ghost use Rattle.std.specs.IoError.{error_kind};
ghost use Rattle.std.specs.declared.io.ErrorKind.TheVariants as ErrorKind;
ghost use Rattle.std.specs.Io.KnownBytes.{ReadConsumes, WriteAppends};
ghost use Rattle.lvdc_text.specs.Tries.{IsTried};

use crate::{Reads, Writes};
use std::io::{Error, ErrorKind, Result};

/// How often a call is made at most; no signals come so often.
const TRIES: u64 = u64::MAX;

/// Was the call cut short before it did anything?
fn is_interrupted(answer: &Result<usize>) -> bool
    ensures cut { IsTrue result → IsErrAnd answer.now (λ error. error_kind error ≡ ErrorKind.Interrupted) }
    ensures other { result ≡ false → IfErr answer.now (λ error. error_kind error ≢ ErrorKind.Interrupted) }
{
    match answer {
        Err(error) => error.kind() == ErrorKind::Interrupted,
        Ok(_) => false,
    }
}

/// Reads once, and again while that is interrupted. All else is handed on at once.
pub fn read_tried<R: Reads>(reader: &mut R, buf: &mut [u8]) -> Result<usize>
    ensures bound { ReadsAtMost result buf.new }
    ensures bytes { ReadConsumes (R.left reader.old) (R.left reader.new) result buf.new }
    ensures tried { IsTried R.reads (reader.old, buf.old) result (reader.new, buf.new) }
    // What was interrupted was tried again.
    ensures retried { IfErr result (λ error. error_kind error ≢ ErrorKind.Interrupted) }
{
    for _made in 0..TRIES {
        let read = reader.read_once(buf);
        if !is_interrupted(&read) {
            return read;
        }
    }
    Err(Error::from(ErrorKind::TimedOut))
}

/// Writes once, and again while that is interrupted. All else is handed on at once.
pub fn write_tried<W: Writes>(writer: &mut W, buf: &[u8]) -> Result<usize>
    ensures bound { WritesAtMost result buf.now }
    ensures bytes { WriteAppends (W.written writer.old) (W.written writer.new) result buf.now }
    ensures tried { IsTried (W.writes buf.now) writer.old result writer.new }
    // What was interrupted was tried again.
    ensures retried { IfErr result (λ error. error_kind error ≢ ErrorKind.Interrupted) }
{
    for _made in 0..TRIES {
        let written = writer.write_once(buf);
        if !is_interrupted(&written) {
            return written;
        }
    }
    Err(Error::from(ErrorKind::TimedOut))
}
