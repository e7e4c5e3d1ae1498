//! What the definition of the uplink tells, as laws: functions that do nothing.

ghost use Rattle.std.specs.Prelude.{◌≡◌, ◌++◌, ◌∷◌, ℕ, List, true, false, All};
ghost use Rattle.lvdc_map.specs.Address.{Spot};
ghost use Rattle.lvdc_map.specs.Memory.{are_rising, loaded, memory_of, word_at};
ghost use Rattle.lvdc_image.specs.Image.{Contents, IsPlaced};
ghost use Rattle.lvdc_uplink.specs.Patching.{with_words, placed_by};
ghost use Rattle.lvdc_uplink.specs.Link.{Link, link_to, after_text, is_acknowledged, again};
ghost use Rattle.lvdc_uplink.specs.History.{answers_from, link_after, committed_from, AreAbove};
ghost use Rattle.lvdc_uplink.specs.Heard.{IsAsHeard, AreHeld, nothing_heard, heard_from};

/// A line that is not acknowledged changes nothing.
pub fn refused_changes_nothing()
    ensures { (link : Link) (text : List ℕ) → is_acknowledged (after_text link text).answer ≡ false → (after_text link text).link ≡ link }
{}

/// A line that was acknowledged, sent again directly, changes nothing. It is acknowledged again, but for ABANDON: that load is
/// not open any more.
pub fn repeated_changes_nothing()
    ensures answer { (link : Link) (text : List ℕ) → is_acknowledged (after_text link text).answer ≡ true
        → (after_text (after_text link text).link text).answer ≡ again (after_text link text).answer }
    ensures link { (link : Link) (text : List ℕ) → is_acknowledged (after_text link text).answer ≡ true
        → (after_text (after_text link text).link text).link ≡ (after_text link text).link }
{}

/// The image after any lines is the one before them, changed by the words of the committed loads, one load after another.
pub fn image_is_patched()
    ensures words { (link : Link) (texts : List (List ℕ)) → (link_after link texts).image
        ≡ record link.image { words = with_words link.image.words (placed_by (committed_from link texts)) } }
    ensures memory { (image : Contents) (texts : List (List ℕ)) (at : Spot) → are_rising image.words ≡ true → All IsPlaced image.words
        → word_at (memory_of (link_after (link_to image) texts).image.words) at
        ≡ word_at (loaded (placed_by (committed_from (link_to image) texts)) (memory_of image.words)) at }
{}

/// No load is committed twice: the ids of the loads that any lines commit rise strictly.
pub fn committed_once()
    ensures { (image : Contents) (texts : List (List ℕ)) → AreAbove 0 (committed_from (link_to image) texts) }
{}

/// Whoever hears lines from the first one on, each with its answer, knows the image and the open load by what is acknowledged
/// alone, and each acknowledgement says what is so.
pub fn lines_are_heard()
    ensures heard { (image : Contents) (texts : List (List ℕ)) →
        IsAsHeard image (heard_from texts (answers_from (link_to image) texts) nothing_heard) (link_after (link_to image) texts) }
    ensures held { (image : Contents) (texts : List (List ℕ)) → AreHeld texts (answers_from (link_to image) texts) nothing_heard }
{}

/// Of any lines one that is acknowledged may be sent twice: what is held after them all is the same.
pub fn doubled_changes_nothing()
    ensures { (link : Link) (before after : List (List ℕ)) (text : List ℕ) → is_acknowledged (after_text (link_after link before) text).answer ≡ true
        → link_after link (before ++ text ∷ text ∷ after) ≡ link_after link (before ++ text ∷ after) }
{
    repeated_changes_nothing();
}
