ghost use Rattle.std.specs.Prelude.{◌≡◌, ◌-◌, [], vec_len, vec_capacity};
ghost use Rattle.lvdc_port.specs.Device.{AreWords};
ghost use Rattle.lvdc_port.specs.Causes.{never};
ghost use Rattle.lvdc_port.specs.declared.device.Kind.TheVariants.{Recorder as RecorderKind};

use crate::device::{Failed, Kind, PortDevice};
use lvdc_word::{NoMemory, Word};
use std::alloc::Global;

/// Every word that was written. A read answers 0.
#[derive(Drop)]
pub struct Recorder {
    port: u8,
    words: Vec<Word>,
    ghost are_words: { AreWords words.items },
}

impl Recorder {
    /// A recorder without words, and with no room until it is prepared.
    pub fn new(alloc: Global, port: u8) -> Self
        ensures { ⟦<Recorder as PortDevice>⟧.device_of result
            ≡ record { port = port; kind = RecorderKind; state = [] } }
    {
        Recorder {
            port,
            words: Vec::new(alloc),
        }
    }

    /// The words that were written, in order.
    pub fn words(&self) -> &[Word]
        ensures { result.now ≡ (⟦<Recorder as PortDevice>⟧.device_of self.now).state }
    {
        &self.words
    }
}

impl PortDevice for Recorder {
    ghost device_of = { λ r. record { port = r.port; kind = RecorderKind; state = r.words.items } };

    ghost spare = { λ r. vec_capacity r.words - vec_len r.words };

    ghost faults = { λ r. never };

    ghost told = { λ r. never };

    fn port(&self) -> u8 {
        self.port
    }

    fn kind(&self) -> Kind {
        Kind::Recorder
    }

    fn faults(&self) -> u64 {
        0
    }

    fn supply(&mut self, _word: Word) -> Result<(), NoMemory> {
        Ok(())
    }

    fn prepare(&mut self, writes: u64) -> Result<(), NoMemory> {
        self.words.reserve(writes as usize)?;
        Ok(())
    }

    fn read(&mut self, _time: Word) -> Result<Word, Failed> {
        Ok(Word::ZERO)
    }

    fn write(&mut self, _time: Word, word: Word) -> Result<(), Failed> {
        let pushed = self.words.push(word);
        prove!(pushed.is_ok());
        Ok(())
    }

    fn held(&self, index: usize) -> Option<Word> {
        self.words.get(index).copied()
    }
}
