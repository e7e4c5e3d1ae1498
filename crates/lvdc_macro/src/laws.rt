//! What expansions are like, as laws over their definitions: functions that do nothing.

ghost use Rattle.std.specs.Prelude.{◌≡◌, ◌≤◌, List, length, All, Ok};
ghost use Rattle.lvdc_text.specs.Lines.{NumberedLine};
ghost use Rattle.lvdc_macro.specs.Plain.{IsPlain, themselves};
ghost use Rattle.lvdc_macro.specs.Expansion.{expansion_of, bytes_of};
ghost use Rattle.lvdc_macro.specs.declared.expansion.TheConstants.{LONGEST_EXPANSION};

/// A source without macros is its own expansion, line by line, where its bytes aren't too many.
pub fn plain_source_is_its_own()
    ensures { (lines : List NumberedLine) → All IsPlain lines → length (bytes_of (themselves lines)) ≤ LONGEST_EXPANSION
        → expansion_of lines ≡ Ok (themselves lines) }
{}
