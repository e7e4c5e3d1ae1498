//! The rows of the pooled words.

ghost use Rattle.std.specs.Prelude.{◌≡◌, ◌++◌, ◌∷◌, [], map, OnOk};
ghost use Rattle.std.specs.Map.{values_of};
ghost use Rattle.lvdc_map.specs.Memory.{Memory, IsMemory};
ghost use Rattle.lvdc_text.specs.Joined.{text_of};
ghost use Rattle.lvdc_listing.specs.Rows.{pool_row};

use lvdc_asm::Assembly;
use lvdc_map::{Address, Words};
use lvdc_text::{Piece, put_line};
use lvdc_word::{NoMemory, Word};

/// Appends the row of a pooled word.
fn put_pooled(out: &mut Vec<u8>, at: Address, word: Word) -> Result<(), NoMemory>
    ensures { OnOk result (out.new.items ≡ out.old.items ++ text_of (pool_row (λ _. word) at ∷ [])) }
{
    let pair = Piece::Octal(u64::from(at.pair), 1);
    let sector = Piece::Octal(u64::from(at.sector), 2);
    let loc = Piece::Octal(u64::from(at.loc), 3);
    put_line(out, b"POOL", &[pair, sector, loc, Piece::Word(word)])
}

/// Appends the rows of the pooled words, in the order of their first use.
pub(crate) fn put_pool(
    out: &mut Vec<u8>,
    memory: &Words,
    assembly: &Assembly,
) -> Result<(), NoMemory>
    ensures { (m : Memory) → IsMemory memory.now m →
        OnOk result (out.new.items ≡ out.old.items ++ text_of (map (pool_row m) (values_of assembly.now.pool))) }
{
    for index in 0..assembly.pool_size() {
        let at = assembly.pooled(index);
        put_pooled(out, at, memory.word(at))?;
    }
    Ok(())
}
