ghost use Rattle.std.specs.Prelude.{◌≡◌, ◌-◌, ◌^◌, ◌<◌, ◌≤◌, length, IfOk, IfErr, All, Ok, Err};
ghost use Rattle.lvdc_text.specs.Lines.{IsWithin};
ghost use Rattle.lvdc_uplink.specs.Input.{from_heading, end_of, by_end, parts_of};

use crate::PatchFault;
use crate::heading::{Heading, LineKind, kind_of};
use lvdc_text::{Line, part, place_of};

/// The lines from a heading on, which is to be the first that isn't skipped. `next` is one more than the last line.
fn from_heading<'a>(
    heading: Heading,
    bytes: &[u8],
    next: u32,
    lines: &'a [Line],
) -> Result<&'a [Line], PatchFault>
    requires size { length bytes.now < 2 ^ 32 - 1 }
    requires within { All (IsWithin bytes.now) lines.now }
    ensures found { IfOk result (λ found. from_heading heading bytes.now next lines.now ≡ Ok found.now) }
    ensures refusal { IfErr result (λ fault. from_heading heading bytes.now next lines.now ≡ Err fault) }
    ensures within { IfOk result (λ found. All (IsWithin bytes.now) found.now) }
    ensures some { IfOk result (λ found. 0 < length found.now) }
    ensures few { IfOk result (λ found. length found.now ≤ length lines.now) }
{
    for (index, line) in lines.iter().enumerate() {
        match kind_of(heading, part(bytes, line)) {
            LineKind::Long => return Err(PatchFault::BadLine(line.number)),
            LineKind::Skipped => {}
            LineKind::Due => return Ok(&lines[index..]),
            LineKind::Other => return Err(heading.missing(line.number)),
        }
    }
    Err(heading.missing(next))
}

/// The lines of the image, with its END, and those of the messages.
#[derive(Clone, Copy)]
pub(crate) struct Parts<'a> {
    pub(crate) image: &'a [Line],
    pub(crate) messages: &'a [Line],
}

/// The parts of the lines after IMAGE, whose own line has this number.
fn parts_after<'a>(
    bytes: &[u8],
    next: u32,
    number: u32,
    lines: &'a [Line],
) -> Result<Parts<'a>, PatchFault>
    requires size { length bytes.now < 2 ^ 32 - 1 }
    requires within { All (IsWithin bytes.now) lines.now }
    ensures parts { IfOk result (λ parts. by_end bytes.now next number lines.now (end_of bytes.now lines.now)
        ≡ Ok (record { image = parts.image.now; messages = parts.messages.now })) }
    ensures refusal { IfErr result (λ fault. by_end bytes.now next number lines.now (end_of bytes.now lines.now) ≡ Err fault) }
    ensures image { IfOk result (λ parts. All (IsWithin bytes.now) parts.image.now) }
    ensures messages { IfOk result (λ parts. All (IsWithin bytes.now) parts.messages.now) }
    ensures few { IfOk result (λ parts. length parts.messages.now ≤ length lines.now) }
{
    let Some(at) = place_of(b"END", bytes, lines) else {
        return Err(PatchFault::BadSection(number));
    };
    let (image, rest) = lines.split_at(at + 1);
    match from_heading(Heading::Uplink, bytes, next, rest) {
        Ok(found) => Ok(Parts {
            image,
            messages: &found[1..],
        }),
        Err(fault) => Err(fault),
    }
}

/// The parts of the lines.
pub(crate) fn parts_of<'a>(bytes: &[u8], lines: &'a [Line]) -> Result<Parts<'a>, PatchFault>
    requires size { length bytes.now < 2 ^ 32 - 1 }
    requires within { All (IsWithin bytes.now) lines.now }
    requires few { length lines.now ≤ length bytes.now }
    ensures parts { IfOk result (λ parts. parts_of bytes.now lines.now
        ≡ Ok (record { image = parts.image.now; messages = parts.messages.now })) }
    ensures refusal { IfErr result (λ fault. parts_of bytes.now lines.now ≡ Err fault) }
    ensures image { IfOk result (λ parts. All (IsWithin bytes.now) parts.image.now) }
    ensures messages { IfOk result (λ parts. All (IsWithin bytes.now) parts.messages.now) }
    ensures few { IfOk result (λ parts. length parts.messages.now ≤ length lines.now) }
{
    let next = lines.len() as u32 + 1;
    match from_heading(Heading::Image, bytes, next, lines) {
        Ok([line, rest @ ..]) => parts_after(bytes, next, line.number, rest),
        Ok([]) => Err(PatchFault::NoProgram(next)),
        Err(fault) => Err(fault),
    }
}
