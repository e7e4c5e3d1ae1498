ghost use Rattle.std.specs.Prelude.{◌≡◌, ◌+◌, ◌≤◌, ◌++◌, length, decimal, codes, None};
ghost use Rattle.lvdc_service.specs.Served.{reply_line, reply_with, bad_frame_reply};
ghost use Rattle.lvdc_service.specs.Turns.{IsWritten};

use arrayvec::ArrayVec;
use itoa::Buffer;
use lvdc_text::{Sink, write_all};

/// Puts bytes at the end of a short line.
fn put(line: &mut ArrayVec<u8, 64>, bytes: &[u8])
    requires { length line.old.items + length bytes.now ≤ 64 }
    ensures { line.new.items ≡ line.old.items ++ bytes.now }
{
    let put = line.try_extend_from_slice(bytes);
    prove!(put.is_ok());
}

/// Puts a number at the end of a short line, in decimal digits.
fn put_number(line: &mut ArrayVec<u8, 64>, number: u64)
    requires { length line.old.items ≤ 44 }
    ensures number { line.new.items ≡ line.old.items ++ decimal number }
    ensures short { length line.new.items ≤ length line.old.items + 20 }
{
    let mut buffer = Buffer::new();
    put(line, buffer.format(number).as_bytes());
}

/// The line of a reply. It takes no memory.
fn line_of(status: u8, count: usize) -> ArrayVec<u8, 64>
    ensures { result.items ≡ reply_line status count }
{
    let mut line = ArrayVec::new();
    put(&mut line, b"REPLY ");
    put_number(&mut line, u64::from(status));
    put(&mut line, b" ");
    put_number(&mut line, count as u64);
    put(&mut line, b"\n");
    line
}

/// The refusal of what stands where the frame of this number would. It takes no memory.
pub(crate) fn bad_frame(number: u32) -> ArrayVec<u8, 64>
    ensures { result.items ≡ (bad_frame_reply number).text }
{
    let mut text = ArrayVec::new();
    put(&mut text, b"REFUSED BadFrame ");
    put_number(&mut text, u64::from(number));
    put(&mut text, b"\n");
    text
}

/// Writes a reply, and says whether all of it was written.
pub(crate) fn write_reply<K: Sink>(sink: &mut K, status: u8, text: &[u8]) -> bool
    requires { (K.state sink.old).room ≡ None }
    ensures { IsWritten result (K.state sink.old)
        (K.state sink.new) (reply_with status text.now) }
{
    let line = line_of(status, text.len());
    match write_all(sink, line.as_slice()) {
        Ok(()) => match write_all(sink, text) {
            Ok(()) => true,
            Err(_) => false,
        },
        Err(_) => false,
    }
}
