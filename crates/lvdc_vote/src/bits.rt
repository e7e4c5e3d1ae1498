ghost use Rattle.std.specs.Prelude.{◌≡◌, ℕ, ◌-◌, if◌then◌else◌, ◌==◌};
ghost use Rattle.std.specs.Int.{bit_at};
ghost use Rattle.lvdc_vote.specs.Bits.{majority, flipped, forced, TwoAre};

use lvdc_word::Word;

/// The word each of whose bits is the value that at least two of the three words have there.
pub fn majority(a: Word, b: Word, c: Word) -> Word
    ensures value { result ≡ majority a b c }
    ensures bits { (i : ℕ) → TwoAre (bit_at a i) (bit_at b i) (bit_at c i) (bit_at result i) }
{
    a.both(b).differ(a.both(c)).differ(b.both(c))
}

/// The word with the bits under the mask turned over.
pub fn flipped(word: Word, mask: Word) -> Word
    ensures value { result ≡ flipped word mask }
    ensures bits { (i : ℕ) → bit_at result i ≡ (if bit_at mask i == 1 then 1 - bit_at word i else bit_at word i) }
{
    word.differ(mask)
}

/// The word whose bits under the mask are those of `value`.
pub fn forced(word: Word, mask: Word, value: Word) -> Word
    ensures value { result ≡ forced word mask value }
    ensures bits { (i : ℕ) → bit_at result i ≡ (if bit_at mask i == 1 then bit_at value i else bit_at word i) }
{
    word.differ(word.differ(value).both(mask))
}
