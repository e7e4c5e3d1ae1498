ghost use Rattle.std.specs.Prelude.{◌≡◌, ◌≢◌, ◌-◌, ◌^◌, ◌<◌, ◌≤◌, length, All, Ok, IfOk, OnOk};
ghost use Rattle.lvdc_text.specs.Lines.{IsWithin, lines_of};
ghost use Rattle.lvdc_reply.specs.Answer.{refusal_text};
ghost use Rattle.lvdc_asm.specs.Faults.{name_of, line_of};
ghost use Rattle.lvdc_asm.specs.declared.fault.AsmFault.TheVariants.{NoMemory as WantsMemory};
ghost use Rattle.lvdc_command_asm.specs.Answers.{assembly_in, product_text, status_of, text_of};
ghost use Rattle.lvdc_image.specs.declared.TheConstants.{LONGEST_IMAGE};
ghost use Rattle.lvdc_command_asm.specs.declared.TheConstants.{LONGEST_TEXT};
ghost use Rattle.lvdc_command_asm.specs.declared.reply.Product.TheVariants.{Image, Listing};

use lvdc_asm::{AsmFault, Assembly, assemble};
use lvdc_image::print_image;
use lvdc_listing::listing;
use lvdc_reply::{Reply, refusal};
use lvdc_text::{Line, lines};
use lvdc_word::{NoMemory, Seq};
use std::alloc::Global;

#[derive(Debug)]
/// What is asked for of a source.
#[derive(Clone, Copy, PartialEq, Eq)]
pub enum Product {
    /// The text of its image.
    Image,
    /// Its listing.
    Listing,
}

/// What was asked for of the source that was assembled, as text.
fn print(
    alloc: Global,
    product: Product,
    assembly: &Assembly,
    bytes: &[u8],
    lines: &[Line],
) -> Result<Vec<u8>, NoMemory>
    requires listed { product ≡ Listing → length bytes.now ≤ 2 ^ 20 }
    requires within { All (IsWithin bytes.now) lines.now }
    requires lines { lines.now ≡ lines_of bytes.now }
    requires assembled { assembly_in bytes.now ≡ Ok assembly.now }
    ensures text { IfOk result (λ text. text.items ≡ product_text product bytes.now assembly.now) }
    ensures short { IfOk result (λ text. length text.items ≤ LONGEST_TEXT) }
    ensures image { product ≡ Image → IfOk result (λ text. length text.items ≤ LONGEST_IMAGE) }
{
    match product {
        Product::Image => print_image(alloc, assembly.image()),
        Product::Listing => listing(alloc, assembly, bytes, lines),
    }
}

/// The reply to a source that was assembled.
fn tell(
    alloc: Global,
    product: Product,
    assembly: &Assembly,
    bytes: &[u8],
    lines: &[Line],
) -> Result<Reply, NoMemory>
    requires listed { product ≡ Listing → length bytes.now ≤ 2 ^ 20 }
    requires within { All (IsWithin bytes.now) lines.now }
    requires lines { lines.now ≡ lines_of bytes.now }
    requires assembled { assembly_in bytes.now ≡ Ok assembly.now }
    ensures status { IfOk result (λ reply. reply.status ≡ 0) }
    ensures text { IfOk result (λ reply. reply.text ≡ product_text product bytes.now assembly.now) }
    ensures short { IfOk result (λ reply. length reply.text ≤ LONGEST_TEXT) }
    ensures image { product ≡ Image → IfOk result (λ reply. length reply.text ≤ LONGEST_IMAGE) }
{
    let text = print(alloc, product, assembly, bytes, lines)?;
    Ok(Reply {
        status: 0,
        text: Seq::from_vec(text),
    })
}

/// The reply to a refused source.
fn refuse(alloc: Global, fault: AsmFault) -> Result<Reply, NoMemory>
    ensures refused { OnOk result (fault ≢ WantsMemory) }
    ensures status { IfOk result (λ reply. reply.status ≡ 3) }
    ensures text { IfOk result (λ reply. reply.text ≡ refusal_text (name_of fault) (line_of fault)) }
    ensures short { IfOk result (λ reply. length reply.text ≤ LONGEST_IMAGE) }
{
    match fault {
        AsmFault::NoMemory => Err(NoMemory),
        fault => refusal(alloc, 3, fault.name(), fault.line()),
    }
}

/// The reply to a source. It takes no device.
pub fn assemble_bytes(alloc: Global, product: Product, bytes: &[u8]) -> Result<Reply, NoMemory>
    requires size { length bytes.now < 2 ^ 32 - 1 }
    requires listed { product ≡ Listing → length bytes.now ≤ 2 ^ 20 }
    // 0 and the text that was asked for, or 3 and the source's first refusal.
    ensures status { IfOk result (λ reply. reply.status ≡ status_of (assembly_in bytes.now)) }
    ensures text { IfOk result (λ reply. reply.text ≡ text_of product bytes.now (assembly_in bytes.now)) }
    ensures short { IfOk result (λ reply. length reply.text ≤ LONGEST_TEXT) }
    ensures image { product ≡ Image → IfOk result (λ reply. length reply.text ≤ LONGEST_IMAGE) }
{
    let found = lines(alloc, bytes)?;
    match assemble(alloc, bytes, found.as_slice()) {
        Ok(assembly) => tell(alloc, product, &assembly, bytes, &found),
        Err(fault) => refuse(alloc, fault),
    }
}
