ghost use Rattle.std.specs.Prelude.{◌≡◌, ◌-◌, ◌^◌, ◌<◌, ◌∷◌, []};
ghost use Rattle.lvdc_port.specs.Causes.{never};
ghost use Rattle.lvdc_port.specs.declared.device.Kind.TheVariants.{Latch as LatchKind};

use crate::device::{Failed, Kind, PortDevice};
use lvdc_word::{NoMemory, Word};

/// One word, which a read answers and a write replaces.
#[derive(Drop)]
pub struct Latch {
    port: u8,
    word: Word,
    ghost is_word: { word < 2 ^ 26 },
}

impl Latch {
    /// A latch that holds 0.
    pub fn new(port: u8) -> Self
        ensures { ⟦<Latch as PortDevice>⟧.device_of result
            ≡ record { port = port; kind = LatchKind; state = 0 ∷ [] } }
    {
        Latch {
            port,
            word: Word::ZERO,
        }
    }
}

impl PortDevice for Latch {
    ghost device_of = { λ l. record { port = l.port; kind = LatchKind; state = l.word ∷ [] } };

    ghost spare = { λ l. 2 ^ 64 - 1 };

    ghost faults = { λ l. never };

    ghost told = { λ l. never };

    fn port(&self) -> u8 {
        self.port
    }

    fn kind(&self) -> Kind {
        Kind::Latch
    }

    fn faults(&self) -> u64 {
        0
    }

    fn supply(&mut self, _word: Word) -> Result<(), NoMemory> {
        Ok(())
    }

    fn prepare(&mut self, _writes: u64) -> Result<(), NoMemory> {
        Ok(())
    }

    fn read(&mut self, _time: Word) -> Result<Word, Failed> {
        Ok(self.word)
    }

    fn write(&mut self, _time: Word, word: Word) -> Result<(), Failed> {
        self.word = word;
        Ok(())
    }

    fn held(&self, index: usize) -> Option<Word> {
        if index == 0 { Some(self.word) } else { None }
    }
}
