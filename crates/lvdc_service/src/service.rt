ghost use Rattle.std.specs.Prelude.{◌≡◌, length, None};
ghost use Rattle.lvdc_text.specs.Room.{HasRoom};
ghost use Rattle.lvdc_console.specs.Commands.{IsTold};
ghost use Rattle.lvdc_service.specs.Service.{IsServiceEnd};
ghost use Rattle.lvdc_service.specs.Served.{reply_with, usage_text};
ghost use Rattle.lvdc_service.specs.Turns.{stream, IsFinished, IsTurn};

use crate::Reader;
use crate::due::USAGE;
use crate::frame::{Next, next_frame};
use crate::write::{bad_frame, write_reply};
use lvdc_text::{Sink, Source, write_all};
use std::alloc::Global;

/// Writes the last reply, and answers the status that goes with it, or 8.
fn finish<K: Sink>(sink: &mut K, status: u8, text: &[u8]) -> u8
    requires { (K.state sink.old).room ≡ None }
    ensures { IsFinished (K.state sink.old)
        (K.state sink.new) (reply_with status text.now) result }
{
    if write_reply(sink, status, text) {
        status
    } else {
        8
    }
}

/// Uses the next frame and answers it. Where the service ends, it says with which status.
fn turn<S: Source, K: Sink>(
    alloc: Global,
    number: u32,
    reader: &mut Reader,
    source: &mut S,
    sink: &mut K,
) -> Option<u8>
    requires { (K.state sink.old).room ≡ None }
    ensures { IsTurn number (stream reader.old (S.state source.old))
        (stream reader.new (S.state source.new))
        (K.state sink.old)
        (K.state sink.new) result }
{
    match next_frame(alloc, reader, source) {
        Next::Request(due) => {
            if write_reply(sink, due.status(), due.text()) {
                None
            } else {
                Some(8)
            }
        }
        Next::Ended => Some(0),
        Next::BadFrame => Some(finish(sink, 2, bad_frame(number).as_slice())),
        Next::ReadFault => Some(finish(sink, 7, b"REFUSED ReadFault\n")),
    }
}

/// Answers the frames of a source, one reply to each, in their order, and answers the exit status. A reply is written before
/// any byte of the next frame is waited for. `sink` is one that doesn't tell its room.
pub fn serve<S: Source, K: Sink>(alloc: Global, source: &mut S, sink: &mut K) -> u8
    requires { (K.state sink.old).room ≡ None }

    // What is written is the replies that are due over the bytes of the source, and the status is the one that is due; where a
    // read failed, those to some first frames; where a write failed, a front of them.
    ensures { IsServiceEnd (S.state source.old)
        (S.state source.new)
        (K.state sink.old)
        (K.state sink.new) result }
{
    let mut reader = Reader::new();
    let mut number = 0;
    while number < u32::MAX {
        number += 1;
        match turn(alloc, number, &mut reader, source, sink) {
            Some(status) => return status,
            None => {}
        }
    }
    0
}

/// Writes the usage text, for a call of the program with words, and answers the status that goes with it, or 8.
pub fn refuse<K: Sink>(sink: &mut K) -> u8
    requires { HasRoom (K.state sink.old).room (length usage_text) }
    ensures { IsTold (K.state sink.old)
        (K.state sink.new) 1 usage_text result }
{
    match write_all(sink, USAGE) {
        Ok(()) => 1,
        Err(_) => 8,
    }
}
