ghost use Rattle.std.specs.Prelude.{◌≡◌, ◌≤◌, ◌^◌, length, All, IfOk, Ok};
ghost use Rattle.lvdc_text.specs.Lines.{IsWithin, lines_of, numbered};
ghost use Rattle.lvdc_asm.specs.Assembly.{assembly_of};
ghost use Rattle.lvdc_listing.specs.Listing.{listing_text};
ghost use Rattle.lvdc_listing.specs.declared.TheConstants.{LONGEST_LISTING};

use crate::names::put_names;
use crate::pool::put_pool;
use crate::rows::put_lines;
use lvdc_asm::{Assembly, assembly_is_small};
use lvdc_map::Words;
use lvdc_text::Line;
use lvdc_word::NoMemory;
use std::alloc::Global;

/// The listing of the source that these lines of the bytes are, which was assembled.
pub fn listing(
    alloc: Global,
    assembly: &Assembly,
    bytes: &[u8],
    lines: &[Line],
) -> Result<Vec<u8>, NoMemory>
    requires size { length bytes.now ≤ 2 ^ 20 }
    requires within { All (IsWithin bytes.now) lines.now }
    requires assembled { assembly_of (numbered bytes.now lines.now) ≡ Ok assembly.now }
    ensures text { IfOk result (λ text. text.items ≡ listing_text assembly.now (numbered bytes.now lines.now)) }
    // Where the lines are all lines of the bytes.
    ensures short { lines.now ≡ lines_of bytes.now → IfOk result (λ text. length text.items ≤ LONGEST_LISTING) }
{
    assembly_is_small();
    let memory = Words::of_image(alloc, assembly.image().words())?;
    let mut out = Vec::new(alloc);
    put_lines(alloc, &mut out, &memory, assembly, bytes, lines)?;
    put_pool(&mut out, &memory, assembly)?;
    put_names(&mut out, assembly)?;
    Ok(out)
}
