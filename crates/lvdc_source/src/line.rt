ghost use Rattle.std.specs.Prelude.{◌≡◌};
ghost use Rattle.lvdc_source.specs.Source.{is_bad_label, wrong_operand, by_operand, by_parts, meaning_of, Tells};

use crate::bodies::body_in;
use crate::meaning::Meaning;
use crate::names::{copy_of, is_name};
use crate::operation::{Operation, operation_in};
use crate::parts::{Parts, parts_of};
use crate::{Block, Item, SourceFault};
use lvdc_text::{is_comment, is_long};
use std::alloc::Global;

/// Is the label no name, or does it stand where none may?
fn is_bad_label(label: &[u8], operation: Option<Operation>) -> bool
    ensures { result ≡ is_bad_label label.now operation }
{
    if label.is_empty() {
        return false;
    }
    match operation {
        Some(operation) => !is_name(label) || operation.is_unlabelled(),
        None => !is_name(label),
    }
}

/// The refusal of an operation's operand on the line of this number.
fn wrong_operand(operation: Operation, number: u32) -> SourceFault
    ensures { result ≡ wrong_operand operation number }
{
    match operation {
        Operation::Bss | Operation::Org | Operation::Words | Operation::Use => {
            SourceFault::BadDirective(number)
        }
        _ => SourceFault::BadOperand(number),
    }
}

/// What a line with this operation means, by its operand.
fn by_operand(
    alloc: Global,
    operation: Operation,
    number: u32,
    label: &[u8],
    operand: &[u8],
) -> Result<Meaning, SourceFault>
    ensures { Tells result (by_operand operation number label.now operand.now) }
{
    if operation == Operation::End {
        return Ok(Meaning::End);
    }
    let Some(body) = body_in(alloc, operation, operand)? else {
        return Err(wrong_operand(operation, number));
    };
    let label = copy_of(alloc, label)?;
    Ok(Meaning::Item(Item {
        line: number,
        label,
        body,
    }))
}

/// What a line with these parts means in this kind of block.
fn by_parts(
    alloc: Global,
    block: Block,
    number: u32,
    parts: Parts<'_>,
) -> Result<Meaning, SourceFault>
    ensures { Tells result (by_parts block number
        (record { label = parts.entry.label.now; operation = parts.entry.operation.now; operand = parts.entry.operand.now })) }
{
    let operation = operation_in(parts.operation);
    if is_bad_label(parts.label, operation) {
        return Err(SourceFault::BadLabel(number));
    }
    let Some(operation) = operation else {
        return Err(SourceFault::UnknownOperation(number));
    };
    if operation.is_modified() {
        return Err(SourceFault::ExecuteModified(number));
    }
    if operation.is_misplaced(block) {
        return Err(SourceFault::BadDirective(number));
    }
    by_operand(alloc, operation, number, parts.label, parts.operand)
}

/// What a line means in this kind of block, or its first refusal.
#[tactic(auto, unfolding(crate::specs::Source::meaning_of))]
pub(crate) fn meaning_of(
    alloc: Global,
    block: Block,
    number: u32,
    text: &[u8],
) -> Result<Meaning, SourceFault>
    ensures { Tells result (meaning_of block (record { number = number; text = text.now })) }
{
    if is_long(text) {
        return Err(SourceFault::LineTooLong(number));
    }
    if is_comment(text) {
        return Ok(Meaning::Nothing);
    }
    by_parts(alloc, block, number, parts_of(text))
}
