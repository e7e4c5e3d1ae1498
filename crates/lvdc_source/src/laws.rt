//! What sources are like, as laws over their definitions: functions that do nothing.

ghost use Rattle.std.specs.Prelude.{◌≡◌, List, length, Ok};
ghost use Rattle.lvdc_source.specs.Items.{AreFew, IsProgram};
ghost use Rattle.lvdc_text.specs.Lines.{NumberedLine};
ghost use Rattle.lvdc_source.specs.Source.{source_of, Follow};
ghost use Rattle.lvdc_source.specs.declared.item.Item.{Item};

/// A source has no more items than lines, and their labels are no longer than names are.
pub fn items_are_few()
    ensures { (lines : List NumberedLine) (items : List Item) → source_of lines ≡ Ok items → AreFew items (length lines) }
{}

/// What the lines of a source mean is a program: each line says what may be said in its block.
pub fn sources_are_programs()
    ensures { (lines : List NumberedLine) (items : List Item) → source_of lines ≡ Ok items → IsProgram items }
{}

/// The items of a source are of its lines, one after another.
pub fn items_follow_lines()
    ensures { (lines : List NumberedLine) (items : List Item) → source_of lines ≡ Ok items → Follow items lines }
{}
