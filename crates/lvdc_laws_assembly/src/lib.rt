//! What an assembled source puts into its image, item by item and in the machine's words. These are laws over the definitions:
//! the contract of a function that does nothing when it runs.
#![tactic(auto)]

ghost use Rattle.std.specs.Prelude.{◌≡◌, ◌≢◌, ℕ, ◌<◌, true, List, [], Ok, None, Some, IfSome, is_some, slice_get, slice_index_or};
ghost use Rattle.lvdc_map.specs.Address.{Spot};
ghost use Rattle.lvdc_text.specs.Lines.{NumberedLine};
ghost use Rattle.lvdc_source.specs.declared.item.Item.{Item};
ghost use Rattle.lvdc_place.specs.Placement.{takes_place};
ghost use Rattle.lvdc_place.specs.declared.spot.Spot.{Spot as Place};
ghost use Rattle.lvdc_asm.specs.Assembly.{Assembled, assembly_of};
ghost use Rattle.lvdc_asm.specs.DataPlace.{DataPlace};
ghost use Rattle.lvdc_laws_assembly.specs.Holds.{HoldsLine};
ghost use Rattle.lvdc_laws_assembly.specs.Images.{word_at, half_of};
ghost use Rattle.lvdc_asm.specs.Hop.{target_of};
ghost use Rattle.lvdc_asm.specs.Target.{Target};
ghost use Rattle.lvdc_listing.specs.Listing.{listing_text};
ghost use Rattle.lvdc_laws_assembly.specs.Shown.{IsPrintable, ShowsImage};
ghost use Rattle.lvdc_laws_assembly.specs.Lines.{IsLine, IsBare, IsDefined};

/// Where a source is assembled its image holds each of its lines, and nothing else but the pooled words.
pub fn image_holds_lines()
    // Each instruction, constant and room stands somewhere.
    ensures stand { (lines : List NumberedLine) (assembled : Assembled) → assembly_of lines ≡ Ok assembled
        → (number : ℕ) (item : Item) → slice_get assembled.items number ≡ Some item → takes_place item.body ≡ true
        → is_some (slice_index_or assembled.plan.spots number None) ≡ true }
    // At the place of a line that makes code a machine fetches its instruction; at that of a constant the word is its value.
    ensures lines { (lines : List NumberedLine) (assembled : Assembled) → assembly_of lines ≡ Ok assembled
        → (number : ℕ) (item : Item) (here : Place) (assumed : DataPlace) → IsLine assembled number item here assumed
        → HoldsLine assembled here assumed item.body }
    // Where a word is pooled it stands.
    ensures pool { (lines : List NumberedLine) (assembled : Assembled) → assembly_of lines ≡ Ok assembled
        → (index : ℕ) → IfSome (slice_get assembled.pool index) (λ pooled. word_at assembled.words pooled.1 ≡ Some pooled.0.word) }
    // An address that no line and no pooled word has, has no word.
    ensures nothing { (lines : List NumberedLine) (assembled : Assembled) → assembly_of lines ≡ Ok assembled
        → (at : Spot) → IsBare assembled at 0 → IsBare assembled at 1 → word_at assembled.words at ≡ None }
    // A syllable without code is 0 where the other one of its word has some.
    ensures zero { (lines : List NumberedLine) (assembled : Assembled) → assembly_of lines ≡ Ok assembled
        → (at : Spot) (syl word : ℕ) → syl < 2 → IsBare assembled at syl → word_at assembled.words at ≡ Some word → half_of syl word ≡ 0 }
{
    lvdc_source::sources_are_programs();
    lvdc_place::placed_lines();
    lvdc_place::pooled_places();
}

/// The names of a source are the places of its lines: each label of its line, and no name of anything else.
pub fn names_are_lines()
    ensures labels { (lines : List NumberedLine) (assembled : Assembled) → assembly_of lines ≡ Ok assembled
        → (number : ℕ) (item : Item) (here : Place) (assumed : DataPlace) → IsLine assembled number item here assumed
        → item.label ≢ []
        → target_of assembled.plan item.label ≡ Some (record { at = here.at; syl = here.syl; assumed = assumed }) }
    ensures names { (lines : List NumberedLine) (assembled : Assembled) → assembly_of lines ≡ Ok assembled
        → (name : List ℕ) (target : Target) → target_of assembled.plan name ≡ Some target → IsDefined assembled name target }
{
    lvdc_source::sources_are_programs();
    lvdc_place::placed_lines();
    lvdc_place::pooled_places();
}

/// The listing of a source shows the image: what its octal fields say, read back by their columns, is each word that the image
/// has, and no other one.
pub fn listing_shows_image()
    ensures { (lines : List NumberedLine) (assembled : Assembled) → assembly_of lines ≡ Ok assembled → IsPrintable assembled lines
        → ShowsImage assembled (listing_text assembled lines) }
{
    lvdc_source::sources_are_programs();
    lvdc_source::items_follow_lines();
    lvdc_place::placed_lines();
    lvdc_place::pooled_places();
}
