ghost use Rattle.std.specs.Prelude.{◌≡◌, option_map, IfOk};
ghost use Rattle.lvdc_source.specs.Operands.{octal_of, decimal_of, hop_of, number_in, offset_of, place_in, either, address_in, constant_in, literal_in, operand_in};
ghost use Rattle.lvdc_source.specs.Numbers.{octals_of};
ghost use Rattle.lvdc_source.specs.Operands.{pair_of};

use crate::names::name_in;
use crate::numbers::{DIGITS, cut, octals, signed};
use crate::{Constant, Operand};
use lvdc_isa::Op;
use lvdc_text::{decimal, octal};
use lvdc_word::NoMemory;
use std::alloc::Global;

/// The most digits that are added to a name.
const OFFSET_DIGITS: u8 = 3;

/// The constant of an octal number.
pub(crate) fn octal_constant(text: &[u8]) -> Option<Constant>
    ensures { result ≡ octal_of text.now }
{
    octal(text, DIGITS).map(Constant::Oct)
}

/// The constant of a decimal number, with a sign or without one.
pub(crate) fn decimal_constant(text: &[u8]) -> Option<Constant>
    ensures { result ≡ decimal_of text.now }
{
    signed(text).map(Constant::Dec)
}

/// The HOP constant of a name.
pub(crate) fn hop_constant(alloc: Global, text: &[u8]) -> Result<Option<Constant>, NoMemory>
    ensures { IfOk result (λ constant. constant ≡ hop_of text.now) }
{
    Ok(name_in(alloc, text)?.map(Constant::HopOf))
}

/// The operand of an octal number.
fn number_in(text: &[u8]) -> Option<Operand>
    ensures { result ≡ number_in text.now }
{
    octal(text, DIGITS).map(Operand::Number)
}

/// What is added to a name, by the text after its plus sign.
fn offset_after(after: Option<&[u8]>) -> Option<u16>
    ensures { result ≡ offset_of (option_map (λ digits. digits.now) after.entry) }
{
    match after {
        Some(digits) => {
            let offset = decimal(digits, OFFSET_DIGITS)?;
            Some(offset as u16)
        }
        None => Some(0),
    }
}

/// The place of a name, or so many locations after it.
fn place_in(alloc: Global, text: &[u8]) -> Result<Option<Operand>, NoMemory>
    ensures { IfOk result (λ operand. operand ≡ place_in text.now) }
{
    let (name, after) = cut(text, b'+');
    let Some(name) = name_in(alloc, name)? else {
        return Ok(None);
    };
    let Some(offset) = offset_after(after) else {
        return Ok(None);
    };
    Ok(Some(Operand::Name { name, offset }))
}

/// The operand of an address.
#[tactic(auto, unfolding(crate::specs::Operands::address_in))]
fn address_in(alloc: Global, text: &[u8]) -> Result<Option<Operand>, NoMemory>
    ensures { IfOk result (λ operand. operand ≡ address_in text.now) }
{
    match number_in(text) {
        Some(number) => Ok(Some(number)),
        None => place_in(alloc, text),
    }
}

/// The constant of a literal.
fn constant_in(alloc: Global, text: &[u8]) -> Result<Option<Constant>, NoMemory>
    ensures { IfOk result (λ constant. constant ≡ constant_in text.now) }
{
    match text {
        [b'=', b'O', digits @ ..] => Ok(octal_constant(digits)),
        [b'=', b'D', digits @ ..] => Ok(decimal_constant(digits)),
        [b'=', b'H', name @ ..] => hop_constant(alloc, name),
        _ => Ok(None),
    }
}

/// The operand of a literal.
#[tactic(auto, unfolding(crate::specs::Operands::literal_in))]
fn literal_in(alloc: Global, text: &[u8]) -> Result<Option<Operand>, NoMemory>
    ensures { IfOk result (λ operand. operand ≡ literal_in text.now) }
{
    Ok(constant_in(alloc, text)?.map(Operand::Literal))
}

/// The operand of an address or a literal.
fn address_or_literal(alloc: Global, text: &[u8]) -> Result<Option<Operand>, NoMemory>
    ensures { IfOk result (λ operand. operand ≡ either (address_in text.now) (literal_in text.now)) }
{
    match address_in(alloc, text)? {
        Some(address) => Ok(Some(address)),
        None => literal_in(alloc, text),
    }
}

/// The operand of a pair and a sector.
fn pair_in(text: &[u8]) -> Option<Operand>
    ensures { result ≡ pair_of (octals_of text.now) }
{
    let numbers = octals(text)?;
    match numbers.as_slice() {
        [pair, sector] => Some(Operand::Pair(*pair, *sector)),
        _ => None,
    }
}

/// The operand of an operation of the machine, where the text has the form that the operation takes.
pub(crate) fn operand_in(alloc: Global, op: Op, text: &[u8]) -> Result<Option<Operand>, NoMemory>
    ensures { IfOk result (λ operand. operand ≡ operand_in op text.now) }
{
    match op {
        Op::Sto | Op::Tra | Op::Tnz | Op::Tmi => address_in(alloc, text),
        Op::Pio | Op::Shf => Ok(number_in(text)),
        Op::Cds => Ok(pair_in(text)),
        Op::WrongShift | Op::Exm => Ok(None),
        _ => address_or_literal(alloc, text),
    }
}
