ghost use Rattle.std.specs.Prelude.{◌≡◌, ◌≢◌, ◌-◌, ◌^◌, ◌<◌, length, IfOk, IfErr, All, Ok, Err, []};
ghost use Rattle.lvdc_text.specs.Lines.{IsWithin, numbered};
ghost use Rattle.lvdc_source.specs.Source.{after_end, source_of};
ghost use Rattle.lvdc_source.specs.declared.fault.SourceFault.TheVariants.{NoMemory as WantsMemory};

use crate::line::meaning_of;
use crate::meaning::Meaning;
use crate::{Block, Item, Program, SourceFault};
use lvdc_text::{Line, is_comment, is_long, part};
use std::alloc::Global;

/// Whether only comments stand on the lines after END.
fn after_end(bytes: &[u8], lines: &[Line]) -> Result<(), SourceFault>
    requires { All (IsWithin bytes.now) lines.now }
    ensures none { IfOk result (λ _. after_end (numbered bytes.now lines.now) ≡ Ok []) }
    ensures refusal { IfErr result (λ fault. after_end (numbered bytes.now lines.now) ≡ Err fault) }
{
    for line in lines {
        let text = part(bytes, line);
        if is_long(text) {
            return Err(SourceFault::LineTooLong(line.number));
        }
        if !is_comment(text) {
            return Err(SourceFault::AfterEnd(line.number));
        }
    }
    Ok(())
}

/// The items of the lines.
fn read_items(alloc: Global, bytes: &[u8], lines: &[Line]) -> Result<Vec<Item>, SourceFault>
    requires size { length bytes.now < 2 ^ 32 - 1 }
    requires within { All (IsWithin bytes.now) lines.now }
    ensures items { IfOk result (λ items. source_of (numbered bytes.now lines.now) ≡ Ok items.items) }
    ensures refusal { IfErr result (λ fault. fault ≢ WantsMemory →
        source_of (numbered bytes.now lines.now) ≡ Err fault) }
{
    let mut items = Vec::new(alloc);
    let mut block = Block::Nowhere;
    let mut next = 1;
    for (index, line) in lines.iter().enumerate() {
        let meaning = meaning_of(alloc, block, line.number, part(bytes, line))?;
        next = line.number + 1;
        match meaning {
            Meaning::Nothing => continue,
            Meaning::End => {
                after_end(bytes, &lines[index + 1..])?;
                return Ok(items);
            }
            Meaning::Item(item) => {
                block = block.after(&item.body);
                items.push(item)?;
            }
        }
    }
    Err(SourceFault::MissingEnd(next))
}

/// Reads a source from these lines of the bytes, which need not begin at line 1. A missing `END` is a refusal at one more
/// than the last line (the language is this project's profile).
pub fn parse_source(alloc: Global, bytes: &[u8], lines: &[Line]) -> Result<Program, SourceFault>
    requires size { length bytes.now < 2 ^ 32 - 1 }
    requires within { All (IsWithin bytes.now) lines.now }
    ensures items { IfOk result (λ program. source_of (numbered bytes.now lines.now) ≡ Ok program) }
    ensures refusal { IfErr result (λ fault. fault ≢ WantsMemory →
        source_of (numbered bytes.now lines.now) ≡ Err fault) }
{
    let items = read_items(alloc, bytes, lines)?;
    Ok(Program::of_items(items))
}
