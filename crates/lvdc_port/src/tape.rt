ghost use Rattle.std.specs.Prelude.{◌≡◌, ◌-◌, ◌^◌, ◌≤◌, [], drop, vec_len};
ghost use Rattle.lvdc_port.specs.Device.{AreWords};
ghost use Rattle.lvdc_port.specs.Causes.{never};
ghost use Rattle.lvdc_port.specs.declared.device.Kind.TheVariants.{Tape as TapeKind};

use crate::device::{Failed, Kind, PortDevice};
use lvdc_word::{NoMemory, Word};
use std::alloc::Global;

/// Words that are read one by one. An empty tape answers 0.
#[derive(Drop)]
pub struct Tape {
    port: u8,
    words: Vec<Word>,
    next: usize,
    ghost within: { next ≤ vec_len words },
    ghost are_words: { AreWords words.items },
}

impl Tape {
    /// A tape without words.
    pub fn new(alloc: Global, port: u8) -> Self
        ensures { ⟦<Tape as PortDevice>⟧.device_of result
            ≡ record { port = port; kind = TapeKind; state = [] } }
    {
        Tape {
            port,
            words: Vec::new(alloc),
            next: 0,
        }
    }

    /// The words still to come, in order.
    pub fn left(&self) -> &[Word]
        ensures { result.now ≡ (⟦<Tape as PortDevice>⟧.device_of self.now).state }
    {
        &self.words[self.next..]
    }
}

impl PortDevice for Tape {
    ghost device_of = { λ t. record { port = t.port; kind = TapeKind; state = drop t.next t.words.items } };

    ghost spare = { λ t. 2 ^ 64 - 1 };

    ghost faults = { λ t. never };

    ghost told = { λ t. never };

    fn port(&self) -> u8 {
        self.port
    }

    fn kind(&self) -> Kind {
        Kind::Tape
    }

    fn faults(&self) -> u64 {
        0
    }

    fn supply(&mut self, word: Word) -> Result<(), NoMemory> {
        self.words.push(word)?;
        Ok(())
    }

    fn prepare(&mut self, _writes: u64) -> Result<(), NoMemory> {
        Ok(())
    }

    fn read(&mut self, _time: Word) -> Result<Word, Failed> {
        if self.next == self.words.len() {
            return Ok(Word::ZERO);
        }
        let word = self.words[self.next];
        self.next += 1;
        Ok(word)
    }

    fn write(&mut self, _time: Word, _word: Word) -> Result<(), Failed> {
        Ok(())
    }

    fn held(&self, index: usize) -> Option<Word> {
        self.left().get(index).copied()
    }
}
