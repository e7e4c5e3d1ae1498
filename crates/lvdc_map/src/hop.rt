ghost use Rattle.std.specs.Prelude.{◌≡◌, ◌<◌};
ghost use Rattle.lvdc_map.specs.Hop.{IsHopConstant};

use crate::{Address, Banks, is_a9, low_bits};
use lvdc_word::{Syllable, Word};
use std::marker::Model;

#[derive(Debug)]
/// The fields of a HOP constant: where the next instruction is fetched, and where its operands stand. The layout is this
/// project's profile.
#[derive(Clone, Copy, PartialEq, Eq)]
pub struct Hop {
    /// The instruction module, 0 to 7.
    pub imod: u8,
    /// The instruction sector, 00 to 17 octal.
    pub isec: u8,
    /// The syllable, 0 or 1.
    pub syl: u8,
    /// The location, 000 to 377 octal.
    pub loc: u8,
    /// The data module, 0 to 7.
    pub dmod: u8,
    /// The data sector, 00 to 17 octal.
    pub dsec: u8,
    /// DUPIN, which is carried and has no effect.
    pub dupin: bool,
    /// DUPDN, which is carried and has no effect.
    pub dupdn: bool,
}

impl Model for Hop {
    ghost use Rattle.std.specs.Prelude.{◌<◌};
    ghost use Rattle.lvdc_map.specs.Hop.{HopConstant};

    ghost Value = { HopConstant };

    ghost view = { λ h. record {
      imod = h.imod;
      isec = h.isec;
      syl = h.syl;
      loc = h.loc;
      dmod = h.dmod;
      dsec = h.dsec;
      dupin = h.dupin;
      dupdn = h.dupdn;
    } };

    ghost invariant = { λ h. (h.imod < 8) × (h.isec < 16) × (h.syl < 2)
        × (h.dmod < 8) × (h.dsec < 16) };

    ghost inverse = { λ h. record {
      imod = h.imod;
      isec = h.isec;
      syl = h.syl;
      loc = h.loc;
      dmod = h.dmod;
      dsec = h.dsec;
      dupin = h.dupin;
      dupdn = h.dupdn;
    } };
}

impl Hop {
    ghost use Rattle.std.specs.Prelude.{true};
    ghost use Rattle.lvdc_map.specs.Banks.{is_there};
    ghost use Rattle.lvdc_map.specs.Hop.{hop_of, word_of_hop, after, fetch_of, syllable_at};
    ghost use Rattle.lvdc_map.specs.Place.{data_sector, jumped, with_data};

    /// The fields of a word. The spare bit is dropped.
    pub fn of(word: Word) -> Hop
        ensures { result ≡ hop_of word }
    {
        let w = word.value();
        Hop {
            imod: ((w >> 23) & 7) as u8,
            isec: ((w >> 19) & 15) as u8,
            syl: ((w >> 18) & 1) as u8,
            loc: ((w >> 10) & 255) as u8,
            dmod: ((w >> 7) & 7) as u8,
            dsec: ((w >> 3) & 15) as u8,
            dupin: (w >> 2) & 1 == 1,
            dupdn: (w >> 1) & 1 == 1,
        }
    }

    /// The word with these fields and spare bit 0.
    pub fn to_word(self) -> Word
        ensures { result ≡ word_of_hop self }
    {
        let bits: u32 = u32::from(self.imod) * (1 << 23)
            + u32::from(self.isec) * (1 << 19)
            + u32::from(self.syl) * (1 << 18)
            + u32::from(self.loc) * (1 << 10)
            + u32::from(self.dmod) * (1 << 7)
            + u32::from(self.dsec) * (1 << 3)
            + (if self.dupin { 4 } else { 0 })
            + (if self.dupdn { 2 } else { 0 });
        Word::within(bits)
    }

    /// The constant of the next location of the same sector; 000 comes after 377.
    pub fn after(self) -> Hop
        ensures { result ≡ after self }
    {
        Hop {
            loc: self.loc.wrapping_add(1),
            ..self
        }
    }

    /// The address from which the instruction is fetched.
    pub fn fetch(self, banks: Banks) -> Address
        ensures value { result ≡ fetch_of banks self }
        ensures there { is_there banks result ≡ true }
    {
        Address {
            pair: banks.of(self.imod),
            sector: self.isec,
            loc: self.loc,
        }
    }

    /// The syllable of the word fetched that is the instruction.
    pub fn syllable(self, word: Word) -> Syllable
        ensures { result ≡ syllable_at self word }
    {
        let (one, zero) = word.split();
        if self.syl == 1 { one } else { zero }
    }

    /// The sector in which an operand address stands: the residual one, or the data sector.
    pub fn data_sector(self, address: u16) -> u8
        ensures value { result ≡ data_sector self address }
        ensures small { result < 16 }
    {
        if is_a9(address) { 15 } else { self.dsec }
    }

    /// The constant after a transfer to the syllable and location of an address, in the same sector.
    pub fn jumped(self, address: u16) -> Hop
        ensures { result ≡ jumped self address }
    {
        Hop {
            syl: if is_a9(address) { 1 } else { 0 },
            loc: low_bits(address),
            ..self
        }
    }

    /// The constant with the data module, the data sector and DUPDN of an address.
    pub fn with_data(self, address: u16) -> Hop
        ensures { result ≡ with_data self address }
    {
        Hop {
            dmod: ((address >> 4) & 7) as u8,
            dsec: (address & 15) as u8,
            dupdn: is_a9(address),
            ..self
        }
    }
}

/// The fields of a HOP constant are in their ranges, by its type. The call has no effect.
pub fn is_hop_constant(start: Hop)
    ensures { IsHopConstant start }
{}
