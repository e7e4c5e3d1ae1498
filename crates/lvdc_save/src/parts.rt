//! The parts of lines.

ghost use Rattle.std.specs.Prelude.{◌≡◌, ◌<◌, ◌^◌, ◌++◌, All, OnOk};
ghost use Rattle.lvdc_lines.specs.Noted.{lines_of};
ghost use Rattle.lvdc_save.specs.Lines.{number_after, word_after};

use lvdc_text::{put_decimal, put_octal, put_text};
use lvdc_word::{NoMemory, Word};

/// Adds a decimal number after a blank.
pub(crate) fn put_number(out: &mut Vec<u8>, number: u64) -> Result<(), NoMemory>
    ensures { OnOk result (out.new.items ≡ out.old.items ++ number_after number) }
{
    put_text(out, b" ")?;
    put_decimal(out, number)
}

/// Adds a word after a blank.
fn put_word(out: &mut Vec<u8>, word: Word) -> Result<(), NoMemory>
    ensures line { OnOk result (out.new.items ≡ out.old.items ++ word_after word) }
    ensures word { OnOk result (word < 2 ^ 26) }
{
    put_text(out, b" ")?;
    put_octal(out, u64::from(word.value()), 9)
}

/// Adds the words, each after a blank.
pub(crate) fn put_words(out: &mut Vec<u8>, words: &[Word]) -> Result<(), NoMemory>
    ensures line { OnOk result (out.new.items ≡ out.old.items ++ lines_of word_after words.now) }
    ensures words { OnOk result (All (λ word. word < 2 ^ 26) words.now) }
{
    for word in words {
        put_word(out, *word)?;
    }
    Ok(())
}

/// Adds the numbers of twins, each after a blank.
pub(crate) fn put_twins(out: &mut Vec<u8>, twins: &[u8]) -> Result<(), NoMemory>
    ensures { OnOk result (out.new.items ≡ out.old.items ++ lines_of number_after twins.now) }
{
    for twin in twins {
        put_number(out, u64::from(*twin))?;
    }
    Ok(())
}
