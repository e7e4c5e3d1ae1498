ghost use Rattle.std.specs.Prelude.{◌≡◌, ◌<◌, ◌≤◌, ◌++◌, ◌∷◌, [], length, map, List, All, IfOk, IfSome, OnOk, Ok};
ghost use Rattle.lvdc_map.specs.Hop.{IsHopConstant};
ghost use Rattle.lvdc_text.specs.Lines.{lines_of, NumberedLine, numbered};
ghost use Rattle.lvdc_image.specs.Image.{IsPlaced, word_line, pair_name, simplex_line, simplex_lines, head_lines, image_lines, text_of, image_text};
ghost use Rattle.lvdc_image.specs.Reading.{texts, image_of};
ghost use Rattle.lvdc_image.specs.declared.TheConstants.{LONGEST_IMAGE};

use crate::Image;
use lvdc_map::{Banks, Hop, Placed};
use lvdc_text::{Piece, put, put_line, put_text};
use lvdc_word::NoMemory;
use std::alloc::Global;

/// Appends the line of a word.
fn put_word(out: &mut Vec<u8>, placed: &Placed) -> Result<(), NoMemory>
    ensures line { OnOk result (out.new.items ≡ out.old.items ++ text_of (word_line placed.now ∷ [])) }
    ensures placed { OnOk result (IsPlaced placed.now) }
{
    let (at, word) = (Piece::Address(placed.at), Piece::Word(placed.word));
    put(out, &[at, Piece::Bytes(b" "), word, Piece::Bytes(b"\n")])
}

/// Appends the lines of the words.
fn put_words(out: &mut Vec<u8>, words: &[Placed]) -> Result<(), NoMemory>
    ensures lines { OnOk result (out.new.items ≡ out.old.items ++ text_of (map word_line words.now)) }
    ensures placed { OnOk result (All IsPlaced words.now) }
{
    for placed in words {
        put_word(out, placed)?;
    }
    Ok(())
}

/// Appends the name of a pair after a space, where it is simplex.
fn put_pair(out: &mut Vec<u8>, banks: Banks, pair: u8) -> Result<(), NoMemory>
    requires { pair < 4 }
    ensures { OnOk result (out.new.items ≡ out.old.items ++ pair_name banks pair) }
{
    if banks.simplex(pair) {
        out.extend_from_slice(&[b' ', b'0' + pair])?;
    }
    Ok(())
}

/// Adds the line that names the simplex pairs, without an LF. After a want of memory `out` may have grown by a part of it.
pub fn put_simplex(out: &mut Vec<u8>, banks: Banks) -> Result<(), NoMemory>
    ensures { OnOk result (out.new.items ≡ out.old.items ++ simplex_line banks) }
{
    out.extend_from_slice(b"SIMPLEX")?;
    put_pair(out, banks, 0)?;
    put_pair(out, banks, 1)?;
    put_pair(out, banks, 2)?;
    put_pair(out, banks, 3)?;
    Ok(())
}

/// Appends the line that names the simplex pairs, where there are any.
fn put_banks(out: &mut Vec<u8>, banks: Banks) -> Result<(), NoMemory>
    ensures { OnOk result (out.new.items ≡ out.old.items ++ text_of (simplex_lines banks)) }
{
    if banks == Banks::DUPLEX {
        return Ok(());
    }
    put_simplex(out, banks)?;
    put_text(out, b"\n")
}

/// Appends the lines before the words.
fn put_head(out: &mut Vec<u8>, start: Option<Hop>, banks: Banks) -> Result<(), NoMemory>
    ensures lines { OnOk result (out.new.items ≡ out.old.items ++ text_of (head_lines start banks)) }
    ensures start { IfSome start IsHopConstant }
    ensures banks { banks < 16 }
{
    match start {
        None => put_text(out, b"LVDC 1\n"),
        Some(start) => {
            put_line(out, b"LVDC 2\nSTART", &[Piece::Word(start.to_word())])?;
            put_banks(out, banks)
        }
    }
}

/// The text of the image: version 2 where it has a start constant, else version 1. Each line ends with LF.
pub fn print_image(alloc: Global, image: &Image) -> Result<Vec<u8>, NoMemory>
    ensures text { IfOk result (λ text. text.items ≡ image_text image.now) }
    ensures short { IfOk result (λ text. length text.items ≤ LONGEST_IMAGE) }
    // The lines of the image, whatever their numbers, tell the image.
    ensures lines { IfOk result (λ text. (lines : List NumberedLine) →
        texts lines ≡ image_lines image.now → image_of lines ≡ Ok image.now) }
    // What was printed, read again, is the image.
    ensures back { IfOk result (λ text.
        image_of (numbered text.items (lines_of text.items)) ≡ Ok image.now) }
{
    let mut out = Vec::new(alloc);
    put_head(&mut out, image.start(), image.banks())?;
    put_words(&mut out, image.words())?;
    out.extend_from_slice(b"END\n")?;
    Ok(out)
}
