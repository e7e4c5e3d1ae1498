ghost use Rattle.std.specs.Prelude.{◌≡◌, refl};
ghost use Rattle.std.proofs.Common.{ap};
ghost use Rattle.lvdc_modules.specs.States.{decoder_latches, decoder_of};
ghost use Rattle.lvdc_modules.specs.Decoder.{decoder_at, decoder_row};
ghost use Rattle.lvdc_modules.specs.Seen.{here};

use crate::Bus;
use crate::seen::{Doing, doing_of};
use lvdc_map::Hop;
use lvdc_vote::{LogicModule, Vote, majority};
use lvdc_word::Word;

/// The latch of the decoder.
#[derive(Clone, Copy, PartialEq, Eq)]
pub struct DecoderState {
    /// INSTR, the syllable of the instruction.
    pub instr: Word,
}

impl Vote for DecoderState {
    ghost LATCHES = { 1 };

    ghost latches = { decoder_latches };

    const LATCHES: u8 = 1;

    fn latch(&self, _index: u8) -> Word {
        self.instr
    }

    fn vote(a: &Self, b: &Self, c: &Self) -> Self {
        DecoderState {
            instr: majority(a.instr, b.instr, c.instr),
        }
    }

    fn with(&self, _index: u8, word: Word) -> Self {
        DecoderState { instr: word }
    }

    fn same(&self, other: &Self) -> bool {
        self == other
    }

    fn copied(&self) -> Self {
        *self
    }

    ghost counted = { λ s. refl };

    ghost exact = { λ s t e. ap decoder_of e };
}

/// The instruction that the memory word has at the place.
pub(crate) fn decoder_at(bus: &Bus) -> DecoderState
    ensures { result ≡ decoder_at bus.now (here bus.now) }
{
    let syllable = Hop::of(bus.locator.place).syllable(bus.memory);
    DecoderState {
        instr: Word::within(u32::from(syllable.value())),
    }
}

/// The decoder, module 3: it keeps the instruction that was fetched.
pub struct Decoder;

impl LogicModule for Decoder {
    type State = DecoderState;

    type Bus = Bus;

    ghost next_of = { decoder_row };

    const NUMBER: u8 = 3;

    fn next(bus: &Bus) -> DecoderState {
        if doing_of(bus) == Doing::Fetching {
            decoder_at(bus)
        } else {
            bus.decoder
        }
    }

    ghost fits = { λ bus. refl };
}
