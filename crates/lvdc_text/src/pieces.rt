//! Texts by pieces.

ghost use Rattle.std.specs.Prelude.{◌≡◌, ◌+◌, ◌^◌, ◌<◌, ◌≤◌, ◌++◌, take, length, OnOk, OnErr};
ghost use Rattle.lvdc_map.specs.Address.{IsAddress};
ghost use Rattle.lvdc_text.specs.Numbers.{octal_text};
ghost use Rattle.lvdc_text.specs.Pieces.{IsFit, AreFit, IsInRange, AreInRange, spot_text, piece_text, piece_room, pieces_text, pieces_room, fields_text, fields_room};

use crate::numbers::{fill_octal, put_decimal, put_octal};
use lvdc_map::Address;
use lvdc_word::{Cell, NoMemory, Word};

/// A piece of a text.
#[derive(Clone, Copy)]
pub enum Piece<'a> {
    Bytes(&'a [u8]),
    /// A number in decimal digits, without zeros in front.
    Decimal(u64),
    /// A number of one byte, in decimal digits.
    Small(u8),
    /// A number in so many octal digits, with zeros in front.
    Octal(u64, u8),
    /// A word in nine octal digits.
    Word(Word),
    /// The bits of a cell in ten octal digits.
    Cell(Cell),
    /// Bank, sector and location, as `p ss lll`.
    Address(Address),
}

fn word_text(word: Word) -> [u8; 9]
    ensures text { result ≡ octal_text 9 word }
    ensures range { word < 2 ^ 26 }
{
    let mut text = [b'0'; 9];
    fill_octal(&mut text, u64::from(word.value()));
    text
}

fn cell_text(cell: Cell) -> [u8; 10]
    ensures text { result ≡ octal_text 10 cell }
    ensures range { cell < 2 ^ 28 }
{
    let mut text = [b'0'; 10];
    fill_octal(&mut text, u64::from(cell.bits()));
    text
}

#[tactic(auto, unfolding(crate::specs::Numbers::octal_text))]
fn address_text(at: Address) -> [u8; 8]
    ensures text { result ≡ spot_text at }
    ensures range { IsAddress at }
{
    [
        b'0' + at.pair % 8,
        b' ',
        b'0' + at.sector / 8 % 8,
        b'0' + at.sector % 8,
        b' ',
        b'0' + at.loc / 8 / 8 % 8,
        b'0' + at.loc / 8 % 8,
        b'0' + at.loc % 8,
    ]
}

/// Appends a text. After a want of memory `out` is as before.
pub fn put_text(out: &mut Vec<u8>, text: &[u8]) -> Result<(), NoMemory>
    ensures text { OnOk result (out.new.items ≡ out.old.items ++ text.now) }
    ensures err { OnErr result (out.new.items ≡ out.old.items) }
{
    out.extend_from_slice(text)?;
    Ok(())
}

/// Appends a piece.
fn put_piece(out: &mut Vec<u8>, piece: &Piece) -> Result<(), NoMemory>
    requires { IsFit piece.now }
    ensures text { OnOk result (out.new.items ≡ out.old.items ++ piece_text piece.now) }
    ensures short { OnOk result (length out.new.items ≤ length out.old.items + piece_room piece.now) }
    ensures range { OnOk result (IsInRange piece.now) }
    ensures err { OnErr result (out.new.items ≡ out.old.items) }
{
    match *piece {
        Piece::Bytes(bytes) => out.extend_from_slice(bytes)?,
        Piece::Decimal(value) => put_decimal(out, value)?,
        Piece::Small(value) => put_decimal(out, u64::from(value))?,
        Piece::Octal(value, digits) => put_octal(out, value, digits)?,
        Piece::Word(word) => out.extend_from_slice(&word_text(word))?,
        Piece::Cell(cell) => out.extend_from_slice(&cell_text(cell))?,
        Piece::Address(at) => out.extend_from_slice(&address_text(at))?,
    }
    Ok(())
}

/// Appends the pieces. After a want of memory `out` may have grown by the first ones.
fn put_each(out: &mut Vec<u8>, pieces: &[Piece]) -> Result<(), NoMemory>
    requires { AreFit pieces.now }
    ensures text { OnOk result (out.new.items ≡ out.old.items ++ pieces_text pieces.now) }
    ensures short { OnOk result (length out.new.items ≤ length out.old.items + pieces_room pieces.now) }
    ensures ranges { OnOk result (AreInRange pieces.now) }
    ensures err { OnErr result (take (length out.old.items) out.new.items ≡ out.old.items) }
{
    for piece in pieces {
        put_piece(out, piece)?;
    }
    Ok(())
}

/// Appends the pieces, one after another. After a want of memory `out` is as before.
pub fn put(out: &mut Vec<u8>, pieces: &[Piece]) -> Result<(), NoMemory>
    requires { AreFit pieces.now }
    ensures text { OnOk result (out.new.items ≡ out.old.items ++ pieces_text pieces.now) }
    ensures short { OnOk result (length out.new.items ≤ length out.old.items + pieces_room pieces.now) }
    ensures ranges { OnOk result (AreInRange pieces.now) }
    ensures err { OnErr result (out.new.items ≡ out.old.items) }
{
    let before = out.len();
    match put_each(out, pieces) {
        Ok(()) => Ok(()),
        Err(error) => {
            out.truncate(before);
            Err(error)
        }
    }
}

/// Appends the pieces, each after a blank, and LF. After a want of memory `out` may have grown by the first of them.
fn put_fields(out: &mut Vec<u8>, pieces: &[Piece]) -> Result<(), NoMemory>
    requires { AreFit pieces.now }
    ensures text { OnOk result (out.new.items ≡ out.old.items ++ fields_text pieces.now) }
    ensures short { OnOk result (length out.new.items ≤ length out.old.items + fields_room pieces.now) }
    ensures ranges { OnOk result (AreInRange pieces.now) }
    ensures err { OnErr result (take (length out.old.items) out.new.items ≡ out.old.items) }
{
    for piece in pieces {
        out.extend_from_slice(b" ")?;
        put_piece(out, piece)?;
    }
    out.extend_from_slice(b"\n")?;
    Ok(())
}

/// Appends the name, the pieces and LF. After a want of memory `out` may have grown by the first of them.
fn put_name_and_fields(out: &mut Vec<u8>, name: &[u8], pieces: &[Piece]) -> Result<(), NoMemory>
    requires { AreFit pieces.now }
    ensures text { OnOk result (out.new.items ≡ out.old.items ++ name.now ++ fields_text pieces.now) }
    ensures short { OnOk result (length out.new.items ≤ length out.old.items + (length name.now + fields_room pieces.now)) }
    ensures ranges { OnOk result (AreInRange pieces.now) }
    ensures err { OnErr result (take (length out.old.items) out.new.items ≡ out.old.items) }
{
    out.extend_from_slice(name)?;
    put_fields(out, pieces)?;
    Ok(())
}

/// Appends a line: the name, each of the pieces after a blank, and LF. After a want of memory `out` is as before.
pub fn put_line(out: &mut Vec<u8>, name: &[u8], pieces: &[Piece]) -> Result<(), NoMemory>
    requires { AreFit pieces.now }
    ensures text { OnOk result (out.new.items ≡ out.old.items ++ name.now ++ fields_text pieces.now) }
    ensures short { OnOk result (length out.new.items ≤ length out.old.items + (length name.now + fields_room pieces.now)) }
    ensures ranges { OnOk result (AreInRange pieces.now) }
    ensures err { OnErr result (out.new.items ≡ out.old.items) }
{
    let before = out.len();
    match put_name_and_fields(out, name, pieces) {
        Ok(()) => Ok(()),
        Err(error) => {
            out.truncate(before);
            Err(error)
        }
    }
}
