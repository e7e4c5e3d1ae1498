//! What a listing says of a place of memory.

ghost use Rattle.std.specs.Prelude.{◌≡◌, ◌++◌, OnOk, IfOk};
ghost use Rattle.lvdc_map.specs.Memory.{Memory, IsMemory};
ghost use Rattle.lvdc_text.specs.Pieces.{piece_text, IsFit};
ghost use Rattle.lvdc_place.specs.Placement.{IsInPairs};
ghost use Rattle.lvdc_asm.specs.Target.{IsHalf};
ghost use Rattle.lvdc_listing.specs.Places.{syllable_text, place_text, syllable_in, held_text, field_text};

use lvdc_map::Words;
use lvdc_place::Spot;
use lvdc_source::Body;
use lvdc_text::{Piece, put};
use lvdc_word::{NoMemory, Syllable, Word};
use std::alloc::Global;

/// The syllable of code, or a dash for words.
fn syllable_piece(syl: Option<u8>) -> Piece<'static>
    requires { IsHalf syl }
    ensures text { piece_text result ≡ syllable_text syl }
    ensures fit { IsFit result }
{
    match syl {
        None => Piece::Bytes(b"-"),
        Some(syl) => Piece::Octal(u64::from(syl), 1),
    }
}

/// Appends pair, sector, syllable and location.
pub(crate) fn put_place(out: &mut Vec<u8>, here: &Spot) -> Result<(), NoMemory>
    requires { IsHalf here.now.syl }
    ensures { OnOk result (out.new.items ≡ out.old.items ++ place_text here.now) }
{
    let pair = Piece::Octal(u64::from(here.at.pair), 1);
    let sector = Piece::Octal(u64::from(here.at.sector), 2);
    let loc = Piece::Octal(u64::from(here.at.loc), 3);
    let syl = syllable_piece(here.syl);
    put(
        out,
        &[
            pair,
            Piece::Bytes(b" "),
            sector,
            Piece::Bytes(b" "),
            syl,
            Piece::Bytes(b" "),
            loc,
        ],
    )
}

/// The syllable of a word that stands in this slot.
fn syllable_in(word: Word, syl: Option<u8>) -> Syllable
    ensures { result ≡ syllable_in word syl }
{
    let (one, zero) = word.split();
    if syl.unwrap_or(0) == 1 { one } else { zero }
}

/// Appends what stands for an item whose place holds this word.
fn put_held(out: &mut Vec<u8>, word: Word, syl: Option<u8>, body: &Body) -> Result<(), NoMemory>
    ensures { OnOk result (out.new.items ≡ out.old.items ++ held_text word syl body.now) }
{
    let blank = Piece::Bytes(b" ");
    match body {
        Body::Instruction { .. } => {
            let bits = syllable_in(word, syl).value();
            put(out, &[blank, Piece::Octal(u64::from(bits), 5)])
        }
        Body::Constant(_) => put(out, &[blank, Piece::Word(word)]),
        _ => Ok(()),
    }
}

/// The field of an item that stands here.
pub(crate) fn field(
    alloc: Global,
    memory: &Words,
    spot: Option<Spot>,
    body: &Body,
) -> Result<Vec<u8>, NoMemory>
    requires { IsInPairs spot }
    ensures { (m : Memory) → IsMemory memory.now m → IfOk result (λ field. field.items ≡ field_text m spot body.now) }
{
    let mut out = Vec::new(alloc);
    if let Some(here) = spot {
        put_place(&mut out, &here)?;
        put_held(&mut out, memory.word(here.at), here.syl, body)?;
    }
    Ok(out)
}
