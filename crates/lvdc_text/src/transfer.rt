ghost use Rattle.std.specs.Prelude.{◌≡◌, ◌+◌, ◌<◌, ◌≤◌, ◌-◌, ◌≢◌, length, take, IfOk, IfErr, OnOk, OnErr, IsErrOf, vec_len};
ghost use Rattle.std.specs.Io.KnownBytes.{Consumes, Appends, IsAtEnd};
ghost use Rattle.lvdc_text.specs.Causes.{CountsFailures, Rose};
ghost use Rattle.lvdc_text.specs.Room.{HasRoom, RoomFalls};
ghost use Rattle.lvdc_text.specs.Transfer.{KeepsWhatItTakes, TookCount, TookAtMost};

use crate::{Sink, Source};
use std::alloc::Global;
use thiserror::Error;

/// Why the bytes of a source could not all be had.
#[derive(Clone, Copy, Debug, PartialEq, Eq, Error)]
pub enum ReadEnd {
    /// A read failed.
    #[error("a read failed")]
    ReadFault,
    /// There was a byte past the limit.
    #[error("there are too many bytes")]
    TooLong,
    /// There was no memory for the bytes.
    #[error("no memory")]
    NoMemory,
}

/// A write failed after the first `written` bytes were taken.
#[derive(Clone, Copy, Debug, PartialEq, Eq, Error)]
#[error("a write failed after {written} bytes")]
pub struct WriteFault {
    /// How many bytes the sink had taken.
    pub written: usize,
}

/// Writes all the bytes, in pieces. Each turn writes at least one byte or ends.
pub fn write_all<K: Sink>(sink: &mut K, bytes: &[u8]) -> Result<(), WriteFault>
    requires { HasRoom (K.state sink.old).room (length bytes.now) }
    ensures all { OnOk result (Appends (K.state sink.old).written (K.state sink.new).written bytes.now) }
    ensures part { IfErr result (λ e. (e.written < length bytes.now)
        × Appends (K.state sink.old).written (K.state sink.new).written (take e.written bytes.now)) }
    ensures room { OnOk result (RoomFalls (K.state sink.old).room (K.state sink.new).room (length bytes.now)) }
    ensures cause { CountsFailures (K.state sink.old).faults (K.state sink.new).faults result }
{
    let mut written = 0;
    while written < bytes.len() {
        match sink.write(&bytes[written..]) {
            Ok(count) => written += count,
            Err(_) => return Err(WriteFault { written }),
        }
    }
    Ok(())
}

/// What one read came to.
#[derive(Clone, Copy)]
enum Turn {
    More,
    End,
}

/// Reads once, at most one byte more than the limit leaves, and keeps what came.
fn read_some<S: Source>(source: &mut S, bytes: &mut Vec<u8>, limit: usize) -> Result<Turn, ReadEnd>
    requires { vec_len bytes.old ≤ limit }
    // A turn takes at least one byte, or the source is at its end.
    ensures more { result ≡ Ok Turn.More → vec_len bytes.old < vec_len bytes.new }
    ensures end { result ≡ Ok Turn.End → IsAtEnd (S.state source.new).left }
    ensures kept { OnOk result (KeepsWhatItTakes (S.state source.old).left (S.state source.new).left
        bytes.old.items bytes.new.items) }
    ensures within { OnOk result (vec_len bytes.new ≤ limit) }
    ensures too_long { IsErrOf result ReadEnd.TooLong →
        TookCount (S.state source.old).left (S.state source.new).left (limit + 1 - vec_len bytes.old) }
    ensures no_more { OnErr result (result ≢ Err ReadEnd.TooLong →
        TookAtMost (S.state source.old).left (S.state source.new).left (limit - vec_len bytes.old)) }
    ensures later { (S.state source.old).faults ≤ (S.state source.new).faults }
    ensures fault { IsErrOf result ReadEnd.ReadFault → Rose (S.state source.old).faults (S.state source.new).faults }
    ensures quiet { result ≢ Err ReadEnd.ReadFault → (S.state source.new).faults ≡ (S.state source.old).faults }
{
    let mut buffer = [0u8; 4096];
    let room = limit - bytes.len();
    let most = room.min(buffer.len() - 1) + 1;
    let piece = &mut buffer[..most];
    match source.read(piece) {
        Ok(0) => Ok(Turn::End),
        Ok(count) => {
            if count > room {
                return Err(ReadEnd::TooLong);
            }
            match bytes.extend_from_slice(&piece[..count]) {
                Ok(()) => Ok(Turn::More),
                Err(_) => Err(ReadEnd::NoMemory),
            }
        }
        Err(_) => Err(ReadEnd::ReadFault),
    }
}

/// Reads all bytes up to the end of the source, in pieces, at most `limit`. It takes no more than one byte past the limit,
/// and memory only as the bytes come.
pub fn read_all<S: Source>(alloc: Global, source: &mut S, limit: usize) -> Result<Vec<u8>, ReadEnd>
    ensures all { IfOk result (λ v. Consumes (S.state source.old).left (S.state source.new).left v.items) }
    ensures end { OnOk result (IsAtEnd (S.state source.new).left) }
    ensures within { IfOk result (λ v. vec_len v ≤ limit) }
    // Byte limit + 1 was taken in this case and in no other.
    ensures too_long { IsErrOf result ReadEnd.TooLong →
        TookCount (S.state source.old).left (S.state source.new).left (limit + 1) }
    ensures no_more { OnErr result (result ≢ Err ReadEnd.TooLong →
        TookAtMost (S.state source.old).left (S.state source.new).left limit) }
    // A fault is answered only where the count rose, and always where it grew.
    ensures later { (S.state source.old).faults ≤ (S.state source.new).faults }
    ensures fault { IsErrOf result ReadEnd.ReadFault → Rose (S.state source.old).faults (S.state source.new).faults }
    ensures quiet { result ≢ Err ReadEnd.ReadFault → (S.state source.new).faults ≡ (S.state source.old).faults }
{
    let mut bytes = Vec::new(alloc);
    loop {
        match read_some(source, &mut bytes, limit) {
            Ok(Turn::More) => {}
            Ok(Turn::End) => return Ok(bytes),
            Err(end) => return Err(end),
        }
    }
}
