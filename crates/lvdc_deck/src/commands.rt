ghost use Rattle.std.specs.Prelude.{◌≡◌, ◌≢◌, ◌≤◌, length, IfOk, IfErr, All, Ok, Err};
ghost use Rattle.lvdc_text.specs.Lines.{IsWithin, part_of};
ghost use Rattle.lvdc_deck.specs.Deck.{commands_from};
ghost use Rattle.lvdc_text.specs.declared.comment.TheConstants.{LONGEST_LINE};
ghost use Rattle.lvdc_deck.specs.declared.fault.DeckFault.TheVariants.{NoMemory as WantsMemory};

use crate::DeckFault;
use lvdc_text::{Line, is_comment, is_long, part};
use std::alloc::Global;

/// The commands of the lines after DEBUG.
pub(crate) fn commands_in(
    alloc: Global,
    bytes: &[u8],
    lines: &[Line],
) -> Result<Vec<Line>, DeckFault>
    requires { All (IsWithin bytes.now) lines.now }
    ensures commands { IfOk result (λ commands. commands_from bytes.now lines.now ≡ Ok commands.items) }
    ensures refusal { IfErr result (λ fault. fault ≢ WantsMemory → commands_from bytes.now lines.now ≡ Err fault) }
    ensures within { IfOk result (λ commands. All (IsWithin bytes.now) commands.items) }
    ensures short { IfOk result (λ commands. All (λ line. length (part_of bytes.now line) ≤ LONGEST_LINE) commands.items) }
{
    let mut commands = Vec::new(alloc);
    for line in lines {
        let text = part(bytes, line);
        if is_long(text) {
            return Err(DeckFault::BadLine(line.number));
        }
        if !is_comment(text) {
            commands.push(*line)?;
        }
    }
    Ok(commands)
}
