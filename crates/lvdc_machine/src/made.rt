ghost use Rattle.std.specs.Prelude.{◌≡◌};
ghost use Rattle.lvdc_machine.specs.Made.{of_port, without_a_word};

use lvdc_model::Repair;
use lvdc_modules::Wanted;
use lvdc_word::Word;

/// What a step made: its exchange by the votes, the word that a read of memory or of a port brought, 0 where nothing is read, and the
/// repair that the read noted.
#[derive(Clone, Copy)]
pub struct Made {
    pub wanted: Wanted,
    pub word: Word,
    pub repair: Option<Repair>,
}

impl Made {
    /// That of an exchange that brings no word.
    pub(crate) fn without_a_word(wanted: Wanted) -> Made
        ensures { result ≡ without_a_word wanted }
    {
        Made {
            wanted,
            word: Word::ZERO,
            repair: None,
        }
    }

    /// That of a read of a port, which brought this word.
    pub(crate) fn of_port(port: u8, word: Word) -> Made
        ensures { result ≡ of_port port word }
    {
        Made {
            wanted: Wanted::PortRead(port),
            word,
            repair: None,
        }
    }
}
