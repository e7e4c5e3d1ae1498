//! Words at places where nothing is wrong.

ghost use Rattle.std.specs.Prelude.{◌≡◌, ℕ, true, Ok, None, false, Option, Some, IfSome};
ghost use Rattle.lvdc_map.specs.Banks.{is_there};
ghost use Rattle.lvdc_map.specs.Memory.{Memory, word_at};
ghost use Rattle.lvdc_fault.specs.Recoverable.{is_recovered};
ghost use Rattle.lvdc_model.specs.Known.{shows_since};
ghost use Rattle.lvdc_model.specs.Trial.{Trial};
ghost use Rattle.lvdc_model.specs.Twins as model;
ghost use Rattle.lvdc_model.specs.Twins.{read_answer};
ghost use Rattle.lvdc_memory.specs.Holds.{IsMemoryOf};

use crate::VotedMemory;
use lvdc_map::Address;
use lvdc_twin::shown_word_is_read;
use lvdc_word::Word;

impl VotedMemory {
    /// The word that is intended at an address, where each twin that holds the address shows its code: it can be recovered, and a read
    /// finds it and has nothing to mend. Nothing where one of them shows another cell.
    pub fn sound_word(&self, at: Address) -> Option<Word>
        requires { is_there self.now.twins.banks at ≡ true }
        ensures recovered { IfSome result (λ word. (o : Trial) (in_force : Option ℕ) (t : model.Twins) (i : Memory)
            → IsMemoryOf o in_force self.now t i
            → is_recovered o.opening.banks at (word_at i at) (λ twin. shows_since in_force o t twin at) ≡ true) }
        ensures answer { IfSome result (λ word. (o : Trial) (step : ℕ) (t : model.Twins) (i : Memory)
            → IsMemoryOf o (Some step) self.now t i
            → read_answer o step t at ≡ Ok (record { word = word; repaired = None; switched = false })) }
    {
        shown_word_is_read();
        let code = self.ledger.code(at);
        if self.twins.all_show(at, code) {
            Some(code.word())
        } else {
            None
        }
    }
}
