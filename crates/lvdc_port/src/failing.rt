ghost use Rattle.std.specs.Prelude.{◌≡◌, ◌+◌, ◌-◌, ◌^◌, ◌≤◌, ◌<◌, ◌↔◌, min, IsTrue, IsErr, IfOk, OnOk, OnErr, Contains};
ghost use Rattle.lvdc_port.specs.Causes.{HasCause, Rose};
ghost use Rattle.lvdc_port.specs.Device.{read_word, after_read, after_write, after_supply, AreWords};
ghost use Rattle.lvdc_port.specs.Times.{told_at};
ghost use Rattle.lvdc_port.specs.declared.device.Kind.TheVariants.{Tape as TapeKind, Recorder as RecorderKind};

use crate::device::{Failed, Kind, PortDevice};
use lvdc_word::{NoMemory, Word};

/// Passes each call on to a device, but for the reads and writes whose numbers stand in a list: these fail.
/// Reads and writes are counted together, from 1.
#[derive(Drop)]
pub struct Failing<D> {
    inner: D,
    fails: Vec<u64>,
    calls: u64,
    faults: u64,
}

impl<D: PortDevice> Failing<D> {
    /// The device inside, and the numbers of the calls that are to fail. Its count of faults begins at 0.
    pub fn new(inner: D, fails: Vec<u64>) -> Self
        ensures device { ⟦<Failing<D> as PortDevice>⟧.device_of result ≡ D.device_of inner }
        ensures spare { ⟦<Failing<D> as PortDevice>⟧.spare result ≡ D.spare inner }
        ensures faults { ⟦<Failing<D> as PortDevice>⟧.faults result ≡ 0 }
        ensures told { ⟦<Failing<D> as PortDevice>⟧.told result ≡ D.told inner }
        ensures inner { result.inner ≡ inner }
        ensures fails { result.fails ≡ fails }
        ensures calls { result.calls ≡ 0 }
    {
        Failing {
            inner,
            fails,
            calls: 0,
            faults: 0,
        }
    }

    fn is_due(&mut self) -> bool
        ensures due { IsTrue result ↔ Contains self.old.fails.items self.new.calls }
        ensures counted { self.new.calls ≡ min (self.old.calls + 1) (2 ^ 64 - 1) }
        ensures inner { self.new.inner ≡ self.old.inner }
        ensures fails { self.new.fails ≡ self.old.fails }
        ensures faults { self.new.faults ≡ self.old.faults }
    {
        self.calls = self.calls.saturating_add(1);
        self.fails.contains(&self.calls)
    }

    fn fail(&mut self) -> Failed
        ensures inner { self.new.inner ≡ self.old.inner }
        ensures fails { self.new.fails ≡ self.old.fails }
        ensures calls { self.new.calls ≡ self.old.calls }
        ensures faults { self.new.faults ≡ min (self.old.faults + 1) (2 ^ 64 - 1) }
        ensures rose { Rose self.old.faults self.new.faults }
    {
        self.faults = self.faults.saturating_add(1);
        Failed
    }
}

impl<D: PortDevice> PortDevice for Failing<D> {
    ghost device_of = { λ f. D.device_of f.inner };

    ghost spare = { λ f. D.spare f.inner };

    ghost faults = { λ f. f.faults };

    ghost told = { λ f. D.told f.inner };

    fn port(&self) -> u8 {
        self.inner.port()
    }

    fn kind(&self) -> Kind {
        self.inner.kind()
    }

    fn faults(&self) -> u64 {
        self.faults
    }

    fn supply(&mut self, word: Word) -> Result<(), NoMemory>
        ensures ok { OnOk result (D.device_of self.new.inner
            ≡ after_supply (D.device_of self.old.inner) word) }
        ensures err { OnErr result (D.device_of self.new.inner ≡ D.device_of self.old.inner) }
        ensures spare { D.spare self.new.inner ≡ D.spare self.old.inner }
        ensures faults { self.new.faults ≡ self.old.faults }
        ensures told { D.told self.new.inner ≡ D.told self.old.inner }
        ensures want { OnErr result ((D.device_of self.old.inner).kind ≡ TapeKind) }

        // It is no read and no write, so it isn't counted.
        ensures calls { self.new.calls ≡ self.old.calls }
        ensures fails { self.new.fails ≡ self.old.fails }
    {
        self.inner.supply(word)
    }

    fn prepare(&mut self, writes: u64) -> Result<(), NoMemory>
        ensures ok { OnOk result (writes ≤ D.spare self.new.inner) }
        ensures err { OnErr result (D.spare self.new.inner ≡ D.spare self.old.inner) }
        ensures device { D.device_of self.new.inner ≡ D.device_of self.old.inner }
        ensures faults { self.new.faults ≡ self.old.faults }
        ensures told { D.told self.new.inner ≡ D.told self.old.inner }
        ensures want { OnErr result ((D.device_of self.old.inner).kind ≡ RecorderKind) }
        ensures words { AreWords (D.device_of self.new.inner).state }

        // It is no read and no write, so it isn't counted.
        ensures calls { self.new.calls ≡ self.old.calls }
        ensures fails { self.new.fails ≡ self.old.fails }
    {
        self.inner.prepare(writes)
    }

    fn read(&mut self, time: Word) -> Result<Word, Failed>
        ensures word { IfOk result (λ word. word ≡ read_word (D.device_of self.old.inner) time) }
        ensures ok { OnOk result (D.device_of self.new.inner
            ≡ after_read (D.device_of self.old.inner)) }
        ensures err { OnErr result (D.device_of self.new.inner ≡ D.device_of self.old.inner) }
        ensures spare { D.spare self.new.inner ≡ D.spare self.old.inner }
        ensures told { D.told self.new.inner ≡ D.told self.old.inner }
        ensures cause { HasCause self.old.faults self.new.faults result }

        // A failure is counted once, up to the greatest u64.
        ensures by_one { OnErr result (self.new.faults ≡ min (self.old.faults + 1) (2 ^ 64 - 1)) }

        // A call of the list fails, and the device inside is not asked. Another fails where that device fails.
        ensures due { Contains self.old.fails.items self.new.calls
            → IsErr result × (self.new.inner ≡ self.old.inner) }
        ensures passed { ¬ Contains self.old.fails.items self.new.calls →
            HasCause (D.faults self.old.inner) (D.faults self.new.inner) result }
        ensures calls { self.new.calls ≡ min (self.old.calls + 1) (2 ^ 64 - 1) }
        ensures fails { self.new.fails ≡ self.old.fails }
    {
        if self.is_due() {
            return Err(self.fail());
        }
        match self.inner.read(time) {
            Ok(word) => Ok(word),
            Err(Failed) => Err(self.fail()),
        }
    }

    fn write(&mut self, time: Word, word: Word) -> Result<(), Failed>
        requires { 1 ≤ D.spare self.old.inner }
        ensures ok { OnOk result (D.device_of self.new.inner
            ≡ after_write (D.device_of self.old.inner) word) }
        ensures err { OnErr result (D.device_of self.new.inner ≡ D.device_of self.old.inner) }
        ensures spare { D.spare self.old.inner ≤ D.spare self.new.inner + 1 }
        ensures spare_err { OnErr result (D.spare self.new.inner ≡ D.spare self.old.inner) }
        ensures told { OnOk result (D.told self.new.inner ≡ told_at time (D.told self.old.inner)) }
        ensures told_err { OnErr result (D.told self.new.inner ≡ D.told self.old.inner) }
        ensures cause { HasCause self.old.faults self.new.faults result }

        // A failure is counted once, up to the greatest u64.
        ensures by_one { OnErr result (self.new.faults ≡ min (self.old.faults + 1) (2 ^ 64 - 1)) }

        // A call of the list fails, and the device inside is not asked. Another fails where that device fails.
        ensures due { Contains self.old.fails.items self.new.calls
            → IsErr result × (self.new.inner ≡ self.old.inner) }
        ensures passed { ¬ Contains self.old.fails.items self.new.calls →
            HasCause (D.faults self.old.inner) (D.faults self.new.inner) result }
        ensures calls { self.new.calls ≡ min (self.old.calls + 1) (2 ^ 64 - 1) }
        ensures fails { self.new.fails ≡ self.old.fails }
    {
        if self.is_due() {
            return Err(self.fail());
        }
        match self.inner.write(time, word) {
            Ok(()) => Ok(()),
            Err(Failed) => Err(self.fail()),
        }
    }

    fn held(&self, index: usize) -> Option<Word> {
        self.inner.held(index)
    }
}
