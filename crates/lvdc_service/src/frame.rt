ghost use Rattle.std.specs.Prelude.{◌≡◌, ◌≤◌, ℕ, List, length, map, true, false, None, Some, All};
ghost use Rattle.std.specs.List.{list_all};
ghost use Rattle.lvdc_console.specs.Commands.{command_of, reads_for, limit_of, input_of};
ghost use Rattle.lvdc_console.specs.Words.{inquiry_of, most_bytes, IsInquiry};
ghost use Rattle.lvdc_service.specs.Frames.{is_word};
ghost use Rattle.lvdc_service.specs.Parts.{part_of, LiesIn};
ghost use Rattle.lvdc_service.specs.Served.{IsReplyTo};
ghost use Rattle.lvdc_service.specs.Turns.{due_reply, stream, IsNextInput, IsNext};

use crate::due::Due;
use crate::words::{command_of, inquiry_of};
use crate::{Header, InputEnd, Line, Reader, header_of};
use lvdc_console::{Command, Inquiry, inquire_over_rack, reply_over_rack};
use lvdc_text::Source;
use std::alloc::Global;

/// What comes of the bytes where a frame would begin.
#[derive(Drop)]
pub(crate) enum Next {
    /// A frame, and what its request is answered.
    Request(Due),
    /// No byte: the source is at its end.
    Ended,
    /// Bytes that are no frame.
    BadFrame,
    /// A read failed.
    ReadFault,
}

/// Uses the input of a request that is answered without it, and drops it.
fn pass<S: Source>(count: usize, reader: &mut Reader, source: &mut S, due: Due) -> Next
    ensures { (words : List (List ℕ)) → ((input : List ℕ) → length input ≡ count → IsReplyTo (record { words = words; input = input }) (due_reply due))
        → IsNextInput words count (stream reader.old (S.state source.old))
        (stream reader.new (S.state source.new)) result }
{
    match reader.skip(source, count) {
        Ok(()) => Next::Request(due),
        Err(InputEnd::Short) => Next::BadFrame,
        Err(_) => Next::ReadFault,
    }
}

/// What a command answers to an input.
fn carry_out(alloc: Global, command: Command, input: &[u8]) -> Due
    requires { length input.now ≤ limit_of command }
    ensures { (words : List (List ℕ)) (given : List ℕ) → command_of words ≡ Some command → input_of command given ≡ input.now
        → IsReplyTo (record { words = words; input = given }) (due_reply result) }
{
    match reply_over_rack(alloc, command, input) {
        Ok(reply) => Due::Replied(reply),
        Err(_) => Due::NoMemory,
    }
}

/// What a command that reads its input answers to so many bytes of it. Where it isn't carried out, they are dropped.
fn read_and_answer<S: Source>(
    alloc: Global,
    command: Command,
    count: usize,
    reader: &mut Reader,
    source: &mut S,
) -> Next
    requires { reads_for command ≡ true }
    ensures { (words : List (List ℕ)) → command_of words ≡ Some command
        → IsNextInput words count (stream reader.old (S.state source.old))
        (stream reader.new (S.state source.new)) result }
{
    if count > command.limit() {
        return pass(count, reader, source, Due::TooLong);
    }
    match reader.input(alloc, source, count) {
        Ok(input) => Next::Request(carry_out(alloc, command, input.as_slice())),
        Err(InputEnd::NoMemory) => pass(count, reader, source, Due::NoMemory),
        Err(InputEnd::Short) => Next::BadFrame,
        Err(InputEnd::ReadFault) => Next::ReadFault,
    }
}

/// What a command answers that passes over its input.
fn pass_and_answer<S: Source>(
    alloc: Global,
    command: Command,
    count: usize,
    reader: &mut Reader,
    source: &mut S,
) -> Next
    requires { reads_for command ≡ false }
    ensures { (words : List (List ℕ)) → command_of words ≡ Some command
        → IsNextInput words count (stream reader.old (S.state source.old))
        (stream reader.new (S.state source.new)) result }
{
    match reader.skip(source, count) {
        Ok(()) => Next::Request(carry_out(alloc, command, &[])),
        Err(InputEnd::Short) => Next::BadFrame,
        Err(_) => Next::ReadFault,
    }
}

/// What an inquiry answers to an input.
fn carry_out_inquiry(alloc: Global, inquiry: Inquiry, input: &[u8]) -> Due
    requires ranges { IsInquiry inquiry }
    requires few { length input.now ≤ most_bytes inquiry }
    ensures { (words : List (List ℕ)) → command_of words ≡ None → inquiry_of words ≡ Some inquiry
        → IsReplyTo (record { words = words; input = input.now }) (due_reply result) }
{
    match inquire_over_rack(alloc, inquiry, input) {
        Ok(reply) => Due::Replied(reply),
        Err(_) => Due::NoMemory,
    }
}

/// What an inquiry answers to so many bytes of input. Where it isn't answered, they are dropped.
fn read_and_inquire<S: Source>(
    alloc: Global,
    inquiry: Inquiry,
    count: usize,
    reader: &mut Reader,
    source: &mut S,
) -> Next
    requires { IsInquiry inquiry }
    ensures { (words : List (List ℕ)) → command_of words ≡ None → inquiry_of words ≡ Some inquiry
        → IsNextInput words count (stream reader.old (S.state source.old))
        (stream reader.new (S.state source.new)) result }
{
    if count > inquiry.most_bytes() {
        return pass(count, reader, source, Due::TooLong);
    }
    match reader.input(alloc, source, count) {
        Ok(input) => Next::Request(carry_out_inquiry(alloc, inquiry, input.as_slice())),
        Err(InputEnd::NoMemory) => pass(count, reader, source, Due::NoMemory),
        Err(InputEnd::Short) => Next::BadFrame,
        Err(InputEnd::ReadFault) => Next::ReadFault,
    }
}

/// What the request of a frame is answered whose words are no command line of `lvdc`.
fn answer_others<S: Source>(
    alloc: Global,
    line: &[u8],
    header: &Header,
    reader: &mut Reader,
    source: &mut S,
) -> Next
    requires within { All (LiesIn line.now) header.now.words.items }
    requires words { list_all is_word (map (part_of line.now) header.now.words.items) ≡ true }
    requires others { command_of (map (part_of line.now) header.now.words.items) ≡ None }
    ensures { IsNextInput (map (part_of line.now) header.now.words.items) header.now.count
        (stream reader.old (S.state source.old))
        (stream reader.new (S.state source.new)) result }
{
    match inquiry_of(line, header.words.as_slice()) {
        Some(inquiry) => read_and_inquire(alloc, inquiry, header.count, reader, source),
        None => pass(header.count, reader, source, Due::Usage),
    }
}

/// What the request of a frame is answered, whose line was used.
fn answer_frame<S: Source>(
    alloc: Global,
    line: &[u8],
    header: &Header,
    reader: &mut Reader,
    source: &mut S,
) -> Next
    requires within { All (LiesIn line.now) header.now.words.items }
    requires words { list_all is_word (map (part_of line.now) header.now.words.items) ≡ true }
    ensures { IsNextInput (map (part_of line.now) header.now.words.items) header.now.count
        (stream reader.old (S.state source.old))
        (stream reader.new (S.state source.new)) result }
{
    match command_of(line, header.words.as_slice()) {
        Some(command) => {
            if command.reads() {
                read_and_answer(alloc, command, header.count, reader, source)
            } else {
                pass_and_answer(alloc, command, header.count, reader, source)
            }
        }
        None => answer_others(alloc, line, header, reader, source),
    }
}

/// Uses the next frame, with all of its input, and finds what is due to it.
pub(crate) fn next_frame<S: Source>(alloc: Global, reader: &mut Reader, source: &mut S) -> Next
    ensures { IsNext (stream reader.old (S.state source.old))
        (stream reader.new (S.state source.new)) result }
{
    match reader.line(source) {
        Ok(Line::Ended(line)) => {
            let text = line.as_slice();
            match header_of(text) {
                Some(header) => answer_frame(alloc, text, &header, reader, source),
                None => Next::BadFrame,
            }
        }
        Ok(Line::Nothing) => Next::Ended,
        Ok(Line::Open) => Next::BadFrame,
        Err(_) => Next::ReadFault,
    }
}
