ghost use Rattle.std.specs.Prelude.{◌≡◌, ◌-◌, ◌^◌, ◌<◌, ◌≤◌, length, slice_index_or, IfOk};
ghost use Rattle.lvdc_command_asm.specs.Answers.{assembly_in, status_of};
ghost use Rattle.lvdc_macro.specs.declared.expansion.TheConstants.{LONGEST_EXPANSION};
ghost use Rattle.lvdc_command_asm.specs.Expanded.{expansion_in, assembled_text, status_by, text_by};

use lvdc_asm::{AsmFault, assemble};
use lvdc_image::print_image;
use lvdc_macro::{MacroFault, expand};
use lvdc_reply::{Reply, refusal};
use lvdc_text::lines;
use lvdc_word::{NoMemory, Seq};
use std::alloc::Global;

#[derive(Debug)]
/// What is asked for of a source with macros.
#[derive(Clone, Copy, PartialEq, Eq)]
pub enum Form {
    /// Its expansion, which is a source.
    Source,
    /// The image of its expansion.
    Image,
}

/// The source line that a line of the expansion came from; where it has no such line, the next one.
fn taken_back(origins: &[u32], line: u32, next: u32) -> u32
    ensures { result ≡ slice_index_or origins.now (line - 1) next }
{
    match origins.get(line.saturating_sub(1) as usize) {
        Some(origin) => *origin,
        None => next,
    }
}

/// The reply to an expansion that is assembled.
fn assembled(alloc: Global, bytes: &[u8], origins: &[u32], next: u32) -> Result<Reply, NoMemory>
    requires { length bytes.now ≤ LONGEST_EXPANSION }
    ensures status { IfOk result (λ reply. reply.status ≡ status_of (assembly_in bytes.now)) }
    ensures text { IfOk result (λ reply. reply.text ≡ assembled_text origins.now next (assembly_in bytes.now)) }
    ensures short { IfOk result (λ reply. length reply.text ≤ LONGEST_EXPANSION) }
{
    let found = lines(alloc, bytes)?;
    match assemble(alloc, bytes, found.as_slice()) {
        Ok(assembly) => {
            let text = print_image(alloc, assembly.image())?;
            Ok(Reply {
                status: 0,
                text: Seq::from_vec(text),
            })
        }
        Err(AsmFault::NoMemory) => Err(NoMemory),
        Err(fault) => refusal(
            alloc,
            3,
            fault.name(),
            taken_back(origins, fault.line(), next),
        ),
    }
}

/// The reply to a source with macros. It takes no device.
pub fn expand_bytes(alloc: Global, form: Form, bytes: &[u8]) -> Result<Reply, NoMemory>
    requires { length bytes.now < 2 ^ 32 - 1 }
    // 0 and what was asked for, or 3 and the first refusal, with a line of the source.
    ensures status { IfOk result (λ reply. reply.status ≡ status_by form (expansion_in bytes.now)) }
    ensures text { IfOk result (λ reply. reply.text ≡ text_by form bytes.now (expansion_in bytes.now)) }
    ensures short { IfOk result (λ reply. length reply.text ≤ LONGEST_EXPANSION) }
{
    let found = lines(alloc, bytes)?;
    let next = found.len() as u32 + 1;
    match expand(alloc, bytes, found.as_slice()) {
        Ok(expansion) => match form {
            Form::Source => Ok(Reply {
                status: 0,
                text: expansion.bytes,
            }),
            Form::Image => assembled(
                alloc,
                expansion.bytes.items(),
                expansion.origins.items(),
                next,
            ),
        },
        Err(MacroFault::NoMemory) => Err(NoMemory),
        Err(fault) => refusal(alloc, 3, fault.name(), fault.line()),
    }
}
