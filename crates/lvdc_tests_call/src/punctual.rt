//! A device that looks at the time.
ghost use Rattle.std.specs.Prelude.{◌≡◌, ◌<◌, ◌^◌};
ghost use Rattle.lvdc_port.specs.Causes.{Rose};

use lvdc_port::{Failed, Kind, PortDevice};
use lvdc_word::{NoMemory, Word};

/// Passes each call on to a device, but for a write at another time than its own: that one fails.
#[derive(Drop)]
pub struct Punctual<D> {
    inner: D,
    time: Word,
    faults: u64,
    ghost is_word: { time < 2 ^ 26 },
}

impl<D: PortDevice> Punctual<D> {
    /// The device inside, and the time at which it takes words.
    pub fn new(inner: D, time: Word) -> Self
        ensures device { ⟦<Punctual<D> as PortDevice>⟧.device_of result ≡ D.device_of inner }
        ensures told { ⟦<Punctual<D> as PortDevice>⟧.told result ≡ time }
    {
        Punctual {
            inner,
            time,
            faults: 0,
        }
    }

    fn fail(&mut self) -> Failed
        ensures inner { self.new.inner ≡ self.old.inner }
        ensures time { self.new.time ≡ self.old.time }
        ensures rose { Rose self.old.faults self.new.faults }
    {
        self.faults = self.faults.saturating_add(1);
        Failed
    }
}

impl<D: PortDevice> PortDevice for Punctual<D> {
    ghost device_of = { λ p. D.device_of p.inner };

    ghost spare = { λ p. D.spare p.inner };

    ghost faults = { λ p. p.faults };

    ghost told = { λ p. p.time };

    fn port(&self) -> u8 {
        self.inner.port()
    }

    fn kind(&self) -> Kind {
        self.inner.kind()
    }

    fn faults(&self) -> u64 {
        self.faults
    }

    fn supply(&mut self, word: Word) -> Result<(), NoMemory> {
        self.inner.supply(word)
    }

    fn prepare(&mut self, writes: u64) -> Result<(), NoMemory> {
        self.inner.prepare(writes)
    }

    fn read(&mut self, time: Word) -> Result<Word, Failed> {
        match self.inner.read(time) {
            Ok(word) => Ok(word),
            Err(Failed) => Err(self.fail()),
        }
    }

    fn write(&mut self, time: Word, word: Word) -> Result<(), Failed> {
        if time != self.time {
            return Err(self.fail());
        }
        match self.inner.write(time, word) {
            Ok(()) => Ok(()),
            Err(Failed) => Err(self.fail()),
        }
    }

    fn held(&self, index: usize) -> Option<Word> {
        self.inner.held(index)
    }
}
