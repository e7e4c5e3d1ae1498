ghost use Rattle.std.specs.Prelude.{◌≡◌, ℕ, ◌+◌, ◌≤◌, IfOk, OnOk, OnErr, slice_get};
ghost use Rattle.lvdc_port.specs.Causes.{HasCause, IsSaidOf};
ghost use Rattle.lvdc_port.specs.Device.{Device, word_of_time, read_word, after_read, after_write, after_supply, AreWords};
ghost use Rattle.lvdc_port.specs.Times.{told_at};
ghost use Rattle.lvdc_port.specs.declared.device.Kind.TheVariants.{Tape as TapeKind, Recorder as RecorderKind};

use lvdc_word::{NoMemory, Word};
use thiserror::Error;

/// A device did not answer. What it holds and its room are as before the call.
#[derive(Clone, Copy, Debug, Error)]
#[error("the device failed")]
pub struct Failed;

/// What a device does at a read and at a write (this project's profile, as are all kinds).
#[derive(Clone, Copy, PartialEq, Eq)]
pub enum Kind {
    /// Words that are read one by one; writes are ignored.
    Tape,
    /// One word, which is read and replaced by a write.
    Latch,
    /// The time, which is read; writes are ignored.
    Ticker,
    /// Every word that was written; a read answers 0.
    Recorder,
}

/// The instruction time of this number, counted from 0, as a device is told it: modulo 2^26.
pub fn word_of_time(times: u64) -> Word
    ensures { result ≡ word_of_time times }
{
    Word::within((times % u64::from(Word::LIMIT)) as u32)
}

/// A device at a port of the machine. Its port and its kind never change.
pub trait PortDevice: Drop {
    // The device as plain data: its port, its kind and the words that it holds.
    ghost device_of: { Self → Device };

    // For how many writes it has room.
    ghost spare: { Self → ℕ };

    // How often it has failed; `never` for a device that never fails.
    ghost faults: { Self → ℕ };

    // At which time it took the last word that was written to it; `never` for a device that never looks at that time.
    ghost told: { Self → ℕ };

    /// The port at which the device stands, 000 to 377 octal.
    fn port(&self) -> u8
        ensures { result ≡ (device_of self.now).port };

    /// The row of the table of kinds by which it reads and writes.
    fn kind(&self) -> Kind
        ensures { result ≡ (device_of self.now).kind };

    /// How often a read or a write has failed; the greatest count stays. A device that never fails says 0.
    fn faults(&self) -> u64
        ensures { IsSaidOf (faults self.now) result };

    /// Puts a word behind those that a tape still has. Every other device ignores it.
    fn supply(&mut self, word: Word) -> Result<(), NoMemory>
        ensures ok { OnOk result (device_of self.new ≡ after_supply (device_of self.old) word) }
        ensures err { OnErr result (device_of self.new ≡ device_of self.old) }
        ensures spare { spare self.new ≡ spare self.old }
        ensures faults { faults self.new ≡ faults self.old }
        ensures told { told self.new ≡ told self.old }

        // Only a tape takes a word, so only a tape can want memory for one.
        ensures want { OnErr result ((device_of self.old).kind ≡ TapeKind) };

    /// Makes room for so many writes.
    fn prepare(&mut self, writes: u64) -> Result<(), NoMemory>
        ensures ok { OnOk result (writes ≤ spare self.new) }
        ensures err { OnErr result (spare self.new ≡ spare self.old) }
        ensures device { device_of self.new ≡ device_of self.old }
        ensures faults { faults self.new ≡ faults self.old }
        ensures told { told self.new ≡ told self.old }

        // Only a recorder keeps what is written, so only a recorder can want memory for it.
        ensures want { OnErr result ((device_of self.old).kind ≡ RecorderKind) }

        // What the device holds are words, numbers below 2^26.
        ensures words { AreWords (device_of self.new).state };

    /// Answers a word. The time is the number of the instruction time, from 0, modulo 2^26.
    fn read(&mut self, time: Word) -> Result<Word, Failed>
        ensures word { IfOk result (λ word. word ≡ read_word (device_of self.old) time) }
        ensures ok { OnOk result (device_of self.new ≡ after_read (device_of self.old)) }
        ensures err { OnErr result (device_of self.new ≡ device_of self.old) }
        ensures spare { spare self.new ≡ spare self.old }
        ensures told { told self.new ≡ told self.old }
        ensures cause { HasCause (faults self.old) (faults self.new) result };

    /// Takes a word. The time is the number of the instruction time, from 0, modulo 2^26.
    fn write(&mut self, time: Word, word: Word) -> Result<(), Failed>
        requires { 1 ≤ spare self.old }
        ensures ok { OnOk result (device_of self.new ≡ after_write (device_of self.old) word) }
        ensures err { OnErr result (device_of self.new ≡ device_of self.old) }
        ensures spare { spare self.old ≤ spare self.new + 1 }
        ensures spare_err { OnErr result (spare self.new ≡ spare self.old) }

        // With a word that it takes, a device that looks at the time of a write is told this one.
        ensures told { OnOk result (told self.new ≡ told_at time (told self.old)) }
        ensures told_err { OnErr result (told self.new ≡ told self.old) }
        ensures cause { HasCause (faults self.old) (faults self.new) result };

    /// The word at this index, from 0, of those that the device holds.
    fn held(&self, index: usize) -> Option<Word>
        ensures { result ≡ slice_get (device_of self.now).state index };
}
