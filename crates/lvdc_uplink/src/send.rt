ghost use Rattle.std.specs.Prelude.{◌≡◌, ◌≤◌, ◌+◌, ◌*◌, ◌++◌, length, map, codes, decimal, OnOk, All};
ghost use Rattle.lvdc_text.specs.Lines.{IsWithin, part_of};
ghost use Rattle.lvdc_uplink.specs.Link.{after_text};
ghost use Rattle.lvdc_uplink.specs.History.{answers_from, link_after};
ghost use Rattle.lvdc_uplink.specs.Answers.{answer_line, answers_text};
ghost use Rattle.lvdc_uplink.specs.declared.answer.Answer.TheVariants.{Framed};

use crate::{Answer, Uplink};
use lvdc_text::{Line, Piece, part, put_line, put_text};
use lvdc_word::NoMemory;

/// Appends a name and a number, as a line.
fn put_number(out: &mut Vec<u8>, name: &[u8], number: u32) -> Result<(), NoMemory>
    ensures text { OnOk result (out.new.items ≡ out.old.items ++ ((name.now ++ codes " " ++ decimal number) ++ codes "\n")) }
    ensures short { OnOk result (length out.new.items ≤ length out.old.items + (length name.now + 12)) }
{
    put_line(out, name, &[Piece::Decimal(u64::from(number))])?;
    Ok(())
}

/// Appends that a frame of a load is staged, by the load's id and the frame's number.
fn put_frame(out: &mut Vec<u8>, id: u32, i: u8) -> Result<(), NoMemory>
    ensures text { OnOk result (out.new.items ≡ out.old.items ++ (answer_line (Framed id i) ++ codes "\n")) }
    ensures short { OnOk result (length out.new.items ≤ length out.old.items + 32) }
{
    let (id, number) = (Piece::Decimal(u64::from(id)), Piece::Small(i));
    put_line(out, b"ACK FRAME", &[id, number])?;
    Ok(())
}

/// Appends the line of an answer.
fn put_answer(out: &mut Vec<u8>, answer: Answer) -> Result<(), NoMemory>
    ensures text { OnOk result (out.new.items ≡ out.old.items ++ (answer_line answer ++ codes "\n")) }
    ensures short { OnOk result (length out.new.items ≤ length out.old.items + 32) }
{
    match answer {
        Answer::Opened(id) => put_number(out, b"ACK OPEN", id),
        Answer::Framed { id, i } => put_frame(out, id, i),
        Answer::Committed(id) => put_number(out, b"ACK COMMIT", id),
        Answer::Abandoned(id) => put_number(out, b"ACK ABANDON", id),
        Answer::Busy(id) => put_number(out, b"NAK Busy", id),
        Answer::Old(id) => put_number(out, b"NAK Old", id),
        Answer::Check(check) => put_line(out, b"NAK Check", &[Piece::Word(check)]),
        Answer::Differs(number) => put_number(out, b"NAK Differs", u32::from(number)),
        Answer::Missing(number) => put_number(out, b"NAK Missing", u32::from(number)),
        Answer::Form => put_text(out, b"NAK Form\n"),
        Answer::NoLoad => put_text(out, b"NAK NoLoad\n"),
        Answer::Range => put_text(out, b"NAK Range\n"),
    }
}

/// Sends a line, and appends the line of its answer.
fn send_line(uplink: &mut Uplink, text: &[u8], out: &mut Vec<u8>) -> Result<(), NoMemory>
    ensures link { OnOk result (uplink.new ≡ (after_text uplink.old text.now).link) }
    ensures text { OnOk result (out.new.items ≡ out.old.items ++ (answer_line (after_text uplink.old text.now).answer ++ codes "\n")) }
    ensures short { OnOk result (length out.new.items ≤ length out.old.items + 32) }
{
    let answer = uplink.message(text)?;
    put_answer(out, answer)
}

/// Sends these lines one after another, and appends the line of each answer.
pub(crate) fn send(
    uplink: &mut Uplink,
    bytes: &[u8],
    lines: &[Line],
    out: &mut Vec<u8>,
) -> Result<(), NoMemory>
    requires { All (IsWithin bytes.now) lines.now }
    ensures link { OnOk result (uplink.new ≡ link_after uplink.old (map (part_of bytes.now) lines.now)) }
    ensures text { OnOk result (out.new.items ≡ out.old.items ++ answers_text (answers_from uplink.old (map (part_of bytes.now) lines.now))) }
    ensures short { OnOk result (length out.new.items ≤ length out.old.items + 32 * length lines.now) }
{
    for line in lines {
        send_line(uplink, part(bytes, line), out)?;
    }
    Ok(())
}
