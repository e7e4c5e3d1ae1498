ghost use Rattle.std.specs.Prelude.{◌≡◌, ◌≢◌, ◌-◌, ◌^◌, ◌<◌, length, map, codes, IfOk, IfErr, All, Ok, Err, None};
ghost use Rattle.std.specs.Str.{bytes_eq};
ghost use Rattle.lvdc_text.specs.Lines.{IsWithin, part_of, numbered};
ghost use Rattle.lvdc_image.specs.Image.{Contents, IsImageInRange, image_lines};
ghost use Rattle.lvdc_image.specs.Reading.{entry_in, placed_of, words_from, image_with, after_start, from_start, image_of};
ghost use Rattle.lvdc_image.specs.declared.fault.ImageFault.TheVariants.{NoMemory as WantsMemory};

use crate::entry::entry_in;
use crate::simplex::banks_in;
use crate::start::start_in;
use crate::{Image, ImageFault};
use lvdc_map::{Banks, Hop, Placed};
use lvdc_text::{Line, part};
use lvdc_word::Word;
use std::alloc::Global;

/// The word of a line, whose address must have at least this place in the order of all.
fn word_in(text: &[u8], number: u32, banks: Banks, least: usize) -> Result<Placed, ImageFault>
    ensures { result ≡ placed_of least number (entry_in banks text.now) }
{
    let Some(entry) = entry_in(text, banks) else {
        return Err(ImageFault::BadImageLine(number));
    };
    if entry.at.number() < least {
        return Err(ImageFault::AddressOrder(number));
    }
    if entry.value >= u64::from(Word::LIMIT) {
        return Err(ImageFault::BadWord(number));
    }
    Ok(Placed {
        at: entry.at,
        word: Word::within(entry.value as u32),
    })
}

/// Whether the text is the last line of an image.
fn is_end(text: &[u8]) -> bool
    ensures { result ≡ bytes_eq text.now (codes "END") }
{
    text == b"END".as_slice()
}

/// The words of the lines up to `END`, where the first line has the number `next`.
fn read_words(
    alloc: Global,
    bytes: &[u8],
    lines: &[Line],
    next: u32,
    banks: Banks,
) -> Result<Vec<Placed>, ImageFault>
    requires size { length bytes.now < 2 ^ 32 - 1 }
    requires within { All (IsWithin bytes.now) lines.now }
    ensures words { IfOk result (λ words.
        words_from banks 0 next (numbered bytes.now lines.now) ≡ Ok words.items) }
    ensures refusal { IfErr result (λ fault. fault ≢ WantsMemory →
        words_from banks 0 next (numbered bytes.now lines.now) ≡ Err fault) }
{
    let mut words = Vec::new(alloc);
    let mut least = 0;
    let mut next = next;
    for (index, line) in lines.iter().enumerate() {
        let text = part(bytes, line);
        if is_end(text) {
            return match lines.get(index + 1) {
                None => Ok(words),
                Some(after) => Err(ImageFault::BadImageLine(after.number)),
            };
        }
        let placed = match word_in(text, line.number, banks, least) {
            Ok(placed) => placed,
            Err(fault) => return Err(fault),
        };
        least = placed.at.number() + 1;
        next = line.number + 1;
        words.push(placed)?;
    }
    Err(ImageFault::BadImageLine(next))
}

/// The image with the words of these lines, of version 2 where it has a start constant.
fn read_rest(
    alloc: Global,
    bytes: &[u8],
    lines: &[Line],
    next: u32,
    start: Option<Hop>,
    banks: Banks,
) -> Result<Image, ImageFault>
    requires size { length bytes.now < 2 ^ 32 - 1 }
    requires within { All (IsWithin bytes.now) lines.now }
    requires duplex { start ≡ None → banks ≡ 0 }
    ensures image { IfOk result (λ image.
        image_with start banks (words_from banks 0 next (numbered bytes.now lines.now)) ≡ Ok image) }
    ensures refusal { IfErr result (λ fault. fault ≢ WantsMemory →
        image_with start banks (words_from banks 0 next (numbered bytes.now lines.now)) ≡ Err fault) }
{
    let words = read_words(alloc, bytes, lines, next, banks)?;
    Ok(match start {
        Some(start) => Image::with(words, start, banks),
        None => Image::from_words(words),
    })
}

/// The image from the line after START on, where that line has the number `next`.
fn read_after_start(
    alloc: Global,
    bytes: &[u8],
    lines: &[Line],
    next: u32,
    start: Hop,
) -> Result<Image, ImageFault>
    requires size { length bytes.now < 2 ^ 32 - 1 }
    requires within { All (IsWithin bytes.now) lines.now }
    ensures image { IfOk result (λ image.
        after_start start next (numbered bytes.now lines.now) ≡ Ok image) }
    ensures refusal { IfErr result (λ fault. fault ≢ WantsMemory →
        after_start start next (numbered bytes.now lines.now) ≡ Err fault) }
{
    let [line, rest @ ..] = lines else {
        return Err(ImageFault::BadImageLine(next));
    };
    match banks_in(part(bytes, line)) {
        Some(banks) => read_rest(alloc, bytes, rest, line.number + 1, Some(start), banks),
        None => read_rest(alloc, bytes, lines, next, Some(start), Banks::DUPLEX),
    }
}

/// The image of a text of version 2 from its second line on, where that line has the number `next`.
fn read_from_start(
    alloc: Global,
    bytes: &[u8],
    lines: &[Line],
    next: u32,
) -> Result<Image, ImageFault>
    requires size { length bytes.now < 2 ^ 32 - 1 }
    requires within { All (IsWithin bytes.now) lines.now }
    ensures image { IfOk result (λ image.
        from_start next (numbered bytes.now lines.now) ≡ Ok image) }
    ensures refusal { IfErr result (λ fault. fault ≢ WantsMemory →
        from_start next (numbered bytes.now lines.now) ≡ Err fault) }
{
    let [line, rest @ ..] = lines else {
        return Err(ImageFault::BadImageLine(next));
    };
    match start_in(part(bytes, line), line.number) {
        Ok(start) => read_after_start(alloc, bytes, rest, line.number + 1, start),
        Err(fault) => Err(fault),
    }
}

/// The image of the lines, in the version that the first of them names.
#[tactic(auto, unfolding(crate::specs::Reading::image_of))]
fn read_by_version(alloc: Global, bytes: &[u8], lines: &[Line]) -> Result<Image, ImageFault>
    requires size { length bytes.now < 2 ^ 32 - 1 }
    requires within { All (IsWithin bytes.now) lines.now }
    ensures image { IfOk result (λ image. image_of (numbered bytes.now lines.now) ≡ Ok image) }
    ensures refusal { IfErr result (λ fault. fault ≢ WantsMemory →
        image_of (numbered bytes.now lines.now) ≡ Err fault) }
{
    let [line, rest @ ..] = lines else {
        return Err(ImageFault::BadImageLine(1));
    };
    let text = part(bytes, line);
    if text == b"LVDC 1".as_slice() {
        read_rest(alloc, bytes, rest, line.number + 1, None, Banks::DUPLEX)
    } else if text == b"LVDC 2".as_slice() {
        read_from_start(alloc, bytes, rest, line.number + 1)
    } else {
        Err(ImageFault::BadImageLine(line.number))
    }
}

/// Reads an image from these lines of the bytes, which need not begin at line 1. A missing `END` is a refusal at one more
/// than the last line.
pub fn read_image(alloc: Global, bytes: &[u8], lines: &[Line]) -> Result<Image, ImageFault>
    requires size { length bytes.now < 2 ^ 32 - 1 }
    requires within { All (IsWithin bytes.now) lines.now }
    ensures image { IfOk result (λ image. image_of (numbered bytes.now lines.now) ≡ Ok image) }
    ensures refusal { IfErr result (λ fault. fault ≢ WantsMemory →
        image_of (numbered bytes.now lines.now) ≡ Err fault) }
    // Each image has one list of lines.
    ensures one { IfOk result (λ image. map (part_of bytes.now) lines.now ≡ image_lines image) }
    // The lines of an image are refused for want of memory alone.
    ensures each { (image : Contents) → IsImageInRange image → map (part_of bytes.now) lines.now ≡ image_lines image
        → IfErr result (λ fault. fault ≡ WantsMemory) }
{
    read_by_version(alloc, bytes, lines)
}
