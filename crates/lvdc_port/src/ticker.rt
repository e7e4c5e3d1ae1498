ghost use Rattle.std.specs.Prelude.{◌≡◌, ◌-◌, ◌^◌, []};
ghost use Rattle.lvdc_port.specs.Causes.{never};
ghost use Rattle.lvdc_port.specs.declared.device.Kind.TheVariants.{Ticker as TickerKind};

use crate::device::{Failed, Kind, PortDevice};
use lvdc_word::{NoMemory, Word};

/// The time, which a read answers as it was passed in.
#[derive(Drop)]
pub struct Ticker {
    port: u8,
}

impl Ticker {
    /// A ticker, which holds no words.
    pub fn new(port: u8) -> Self
        ensures { ⟦<Ticker as PortDevice>⟧.device_of result
            ≡ record { port = port; kind = TickerKind; state = [] } }
    {
        Ticker { port }
    }
}

impl PortDevice for Ticker {
    ghost device_of = { λ t. record { port = t.port; kind = TickerKind; state = [] } };

    ghost spare = { λ t. 2 ^ 64 - 1 };

    ghost faults = { λ t. never };

    ghost told = { λ t. never };

    fn port(&self) -> u8 {
        self.port
    }

    fn kind(&self) -> Kind {
        Kind::Ticker
    }

    fn faults(&self) -> u64 {
        0
    }

    fn supply(&mut self, _word: Word) -> Result<(), NoMemory> {
        Ok(())
    }

    fn prepare(&mut self, _writes: u64) -> Result<(), NoMemory> {
        Ok(())
    }

    fn read(&mut self, time: Word) -> Result<Word, Failed> {
        Ok(time)
    }

    fn write(&mut self, _time: Word, _word: Word) -> Result<(), Failed> {
        Ok(())
    }

    fn held(&self, _index: usize) -> Option<Word> {
        None
    }
}
