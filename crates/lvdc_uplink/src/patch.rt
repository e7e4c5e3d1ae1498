ghost use Rattle.std.specs.Prelude.{◌≡◌, true, OnOk, IfOk, IfErr};
ghost use Rattle.lvdc_map.specs.Memory.{are_rising};
ghost use Rattle.lvdc_uplink.specs.Patching.{with_word, IsAt, IsGapFor};

use lvdc_map::Placed;
use lvdc_word::NoMemory;

/// Where the word at the address of this number is among words whose addresses rise, or where one would go.
fn index_of(words: &[Placed], number: usize) -> Result<usize, usize>
    requires { are_rising words.now ≡ true }
    ensures found { IfOk result (IsAt words.now number) }
    ensures absent { IfErr result (IsGapFor words.now number) }
{
    words.binary_search_by_key(&number, |word| word.at.number())
}

/// Puts a word among words whose addresses rise; it takes the place of one at its address.
pub(crate) fn put_word(words: &mut Vec<Placed>, new: Placed) -> Result<(), NoMemory>
    requires rising { are_rising words.old.items ≡ true }
    ensures words { OnOk result (words.new.items ≡ with_word words.old.items new) }
    ensures rising { OnOk result (are_rising words.new.items ≡ true) }
{
    match index_of(words, new.at.number()) {
        Ok(index) => words[index] = new,
        Err(index) => words.insert(index, new)?,
    }
    Ok(())
}
