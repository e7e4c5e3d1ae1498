ghost use Rattle.std.specs.Prelude.{◌≡◌, ◌+◌, ◌≤◌, [], length, IfOk, IfErr};
ghost use Rattle.lvdc_macro.specs.declared.fault.MacroFault.TheVariants.{TooManyCalls};
ghost use Rattle.lvdc_macro.specs.Expansion.{write};
ghost use Rattle.lvdc_macro.specs.Making.{progress_of, Meets};

use crate::MacroFault;
use lvdc_word::Seq;
use std::alloc::Global;
use std::marker::Model;

/// The most bytes of an expansion, each line with its LF (this project's profile).
pub const LONGEST_EXPANSION: usize = 1_048_576;

/// The most calls of a source (this project's profile).
pub const MOST_CALLS: u16 = 999;

/// A source that was written out.
#[derive(Drop)]
pub struct Expansion {
    /// Its lines, each ended by LF.
    pub bytes: Seq<u8>,
    /// For each line the number of the source line that it came from, counted from 1; of the outermost call for a line of a body.
    pub origins: Seq<u32>,
}

/// An expansion as far as it is written, and how many calls have begun.
#[derive(Drop)]
pub(crate) struct Writer {
    bytes: Vec<u8>,
    origins: Vec<u32>,
    calls: u16,
}

impl Model for Writer {
    ghost use Rattle.std.specs.Prelude.{◌≤◌, length};
    ghost use Rattle.lvdc_macro.specs.Making.{Out};

    ghost Value = { Out };

    ghost view = { λ w. record { bytes = w.bytes.items; origins = w.origins.items; calls = w.calls } };

    ghost invariant = { λ w. (length w.bytes.items ≤ 1048576) × (w.calls ≤ 999) };
}

impl Writer {
    /// Nothing is written yet.
    pub(crate) fn new(alloc: Global) -> Writer
        ensures { result ≡ record { bytes = []; origins = []; calls = 0 } }
    {
        Writer {
            bytes: Vec::new(alloc),
            origins: Vec::new(alloc),
            calls: 0,
        }
    }

    /// Writes a line, unless the expansion becomes too long by it.
    pub(crate) fn write(&mut self, text: &[u8], origin: u32) -> Result<(), MacroFault>
        ensures { Meets result (write origin (progress_of self.old) text.now) self.old self.new }
    {
        if text.len() >= LONGEST_EXPANSION - self.bytes.len() {
            return Err(MacroFault::ExpansionTooLong(origin));
        }
        self.bytes.extend_from_slice(text)?;
        self.bytes.push(b'\n')?;
        self.origins.push(origin)?;
        Ok(())
    }

    /// Begins a call: its number.
    pub(crate) fn begin_call(&mut self, origin: u32) -> Result<u16, MacroFault>
        ensures number { IfOk result (λ number. number ≡ self.old.calls + 1) }
        ensures begun { IfOk result (λ number. self.new ≡ record self.old { calls = number }) }
        ensures few { IfOk result (λ number. number ≤ MOST_CALLS) }
        ensures refusal { IfErr result (λ fault. (fault ≡ TooManyCalls origin) × (MOST_CALLS ≤ self.old.calls)) }
    {
        if self.calls == MOST_CALLS {
            return Err(MacroFault::TooManyCalls(origin));
        }
        self.calls += 1;
        Ok(self.calls)
    }

    /// All that was written.
    pub(crate) fn finish(self) -> Expansion
        ensures bytes { result.bytes ≡ self.bytes }
        ensures origins { result.origins ≡ self.origins }
        ensures short { length result.bytes ≤ LONGEST_EXPANSION }
    {
        Expansion {
            bytes: Seq::from_vec(self.bytes),
            origins: Seq::from_vec(self.origins),
        }
    }
}
