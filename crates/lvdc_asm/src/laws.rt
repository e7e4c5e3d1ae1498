//! What assemblies are like, as laws over their definitions: functions that do little or nothing.

ghost use Rattle.std.specs.Prelude.{◌≡◌, List, length, Ok};
ghost use Rattle.lvdc_text.specs.Lines.{NumberedLine};
ghost use Rattle.lvdc_asm.specs.Assembly.{Assembled, IsSmall, assembly_of};

use lvdc_source::items_are_few;

/// An assembly has no more items than its source has lines, and no more pooled words than items.
pub fn assembly_is_small()
    ensures { (lines : List NumberedLine) (assembled : Assembled) → assembly_of lines ≡ Ok assembled → IsSmall assembled (length lines) }
{
    items_are_few();
}
