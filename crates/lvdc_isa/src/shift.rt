ghost use Rattle.std.specs.Prelude.{◌≡◌};
ghost use Rattle.lvdc_isa.specs.Shift.{shifted};

use lvdc_word::Word;

/// The word shifted by the pattern of a shift, the low seven bits of its address. A pattern without a shift leaves nothing.
pub fn shifted(word: Word, pattern: u16) -> Word
    ensures { result ≡ shifted word pattern }
{
    match pattern {
        0o1 => word.right(1),
        0o2 => word.right(2),
        0o20 => word.left(1),
        0o40 => word.left(2),
        _ => Word::ZERO,
    }
}
