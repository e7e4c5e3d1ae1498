ghost use Rattle.std.specs.Prelude.{◌≡◌, IfOk};
ghost use Rattle.std.specs.Option.{option_map};
ghost use Rattle.lvdc_source.specs.declared.item.Body.TheVariants.{Constant as TheConstant, Instruction};
ghost use Rattle.lvdc_text.specs.Numbers.{number_of};
ghost use Rattle.lvdc_source.specs.Numbers.{octals_of};
ghost use Rattle.lvdc_source.specs.Operands.{hop_of, operand_in, is_sector, org_of, words_of, use_of, room_of, body_in};

use crate::Body;
use crate::numbers::{DIGITS, octals};
use crate::operands::{decimal_constant, hop_constant, octal_constant, operand_in};
use crate::operation::Operation;
use lvdc_isa::Op;
use lvdc_map::Address;
use lvdc_text::decimal;
use lvdc_word::NoMemory;
use std::alloc::Global;

/// Is it a pair that the assembler names, and a sector?
fn is_sector(pair: u64, sector: u64) -> bool
    ensures { result ≡ is_sector pair sector }
{
    pair < 4 && sector < 16
}

/// The block of code at the place that ORG names.
fn org_in(text: &[u8]) -> Option<Body>
    ensures { result ≡ org_of (octals_of text.now) }
{
    let numbers = octals(text)?;
    match numbers.as_slice() {
        [pair, sector, syl, loc] if is_sector(*pair, *sector) && *syl < 2 && *loc < 256 => {
            let at = Address::new(*pair as u8, *sector as u8, *loc as u8)?;
            Some(Body::Org {
                at,
                syl: *syl as u8,
            })
        }
        _ => None,
    }
}

/// The block of words in the sector, or at the place, that WORDS names.
fn words_in(text: &[u8]) -> Option<Body>
    ensures { result ≡ words_of (octals_of text.now) }
{
    let numbers = octals(text)?;
    match numbers.as_slice() {
        [pair, sector] if is_sector(*pair, *sector) => Some(Body::Words {
            pair: *pair as u8,
            sector: *sector as u8,
            loc: None,
        }),
        [pair, sector, loc] if is_sector(*pair, *sector) && *loc < 256 => Some(Body::Words {
            pair: *pair as u8,
            sector: *sector as u8,
            loc: Some(*loc as u8),
        }),
        _ => None,
    }
}

/// The data pair and sector that USE names.
fn use_in(text: &[u8]) -> Option<Body>
    ensures { result ≡ use_of (octals_of text.now) }
{
    let numbers = octals(text)?;
    match numbers.as_slice() {
        [pair, sector] if is_sector(*pair, *sector) => Some(Body::Sector {
            pair: *pair as u8,
            sector: *sector as u8,
        }),
        _ => None,
    }
}

/// The room of so many words as BSS says.
fn room_in(text: &[u8]) -> Option<Body>
    ensures { result ≡ room_of (number_of 10 9 text.now) }
{
    match decimal(text, DIGITS) {
        Some(count) if 0 < count && count <= 256 => Some(Body::Room(count as u16)),
        _ => None,
    }
}

/// The word of a HOP constant.
fn hop_in(alloc: Global, text: &[u8]) -> Result<Option<Body>, NoMemory>
    ensures { IfOk result (λ said. said ≡ option_map (λ constant. TheConstant constant) (hop_of text.now)) }
{
    Ok(hop_constant(alloc, text)?.map(Body::Constant))
}

/// The instruction of an operation and its operand.
fn instruction_in(alloc: Global, op: Op, text: &[u8]) -> Result<Option<Body>, NoMemory>
    ensures { IfOk result (λ said. said ≡ option_map (λ operand. Instruction op operand) (operand_in op text.now)) }
{
    Ok(operand_in(alloc, op, text)?.map(|operand| Body::Instruction { op, operand }))
}

/// What an operation says with this operand, where the operand has its form.
#[tactic(auto, unfolding(crate::specs::Operands::body_in))]
pub(crate) fn body_in(
    alloc: Global,
    operation: Operation,
    text: &[u8],
) -> Result<Option<Body>, NoMemory>
    ensures { IfOk result (λ said. said ≡ body_in operation text.now) }
{
    match operation {
        Operation::Machine(op) => instruction_in(alloc, op, text),
        Operation::Oct => Ok(octal_constant(text).map(Body::Constant)),
        Operation::Dec => Ok(decimal_constant(text).map(Body::Constant)),
        Operation::Hopc => hop_in(alloc, text),
        Operation::Bss => Ok(room_in(text)),
        Operation::Code => Ok(Some(Body::Code)),
        Operation::Org => Ok(org_in(text)),
        Operation::Words => Ok(words_in(text)),
        Operation::Use => Ok(use_in(text)),
        Operation::End => Ok(None),
    }
}
