ghost use Rattle.std.specs.Prelude.{◌≡◌, ◌+◌, ◌<◌};

use lvdc_map::Address;
use std::marker::Model;

/// A syllable of a word of memory, in pairs 0 to 3. Slots are ordered by pair, sector, syllable and location.
#[derive(Clone, Copy)]
pub(crate) struct Slot {
    pair: u8,
    sector: u8,
    syl: u8,
    loc: u8,
}

impl Model for Slot {
    ghost use Rattle.std.specs.Prelude.{◌<◌};
    ghost use Rattle.lvdc_place.specs.Slot.{Slot as Numbers};

    ghost Value = { Numbers };

    ghost view = { λ s. record { pair = s.pair; sector = s.sector; syl = s.syl; loc = s.loc } };

    ghost invariant = { λ s. (s.pair < 4) × (s.sector < 16) × (s.syl < 2) };

    ghost inverse = { λ s. record { pair = s.pair; sector = s.sector; syl = s.syl; loc = s.loc } };
}

impl Slot {
    ghost use Rattle.lvdc_place.specs.Slot.{IsSlot, number_of, slot_at, slot_after, with_syllable, sector_start, address_of, slot_of};

    /// The slot of this syllable in a word.
    pub(crate) fn of(at: Address, syl: u8) -> Slot
        requires pair { at.pair < 4 }
        requires syl { syl < 2 }
        ensures { result ≡ slot_of at syl }
    {
        Slot {
            pair: at.pair,
            sector: at.sector,
            syl,
            loc: at.loc,
        }
    }

    /// The slot of syllable 0 at a location of a sector.
    pub(crate) fn in_sector(pair: u8, sector: u8, loc: u8) -> Slot
        requires pair { pair < 4 }
        requires sector { sector < 16 }
        ensures { result ≡ record (sector_start pair sector) { loc = loc } }
    {
        Slot {
            pair,
            sector,
            syl: 0,
            loc,
        }
    }

    /// The first slot of the sector in which this one is.
    pub(crate) fn sector_start(self) -> Slot
        ensures value { result ≡ sector_start self.pair self.sector }
        ensures sector { self.sector < 16 }
    {
        Slot::in_sector(self.pair, self.sector, 0)
    }

    /// The slot at this place in the order of all.
    pub(crate) fn numbered(number: usize) -> Slot
        requires { number < 32768 }
        ensures { result ≡ slot_at number }
    {
        Slot {
            pair: (number / 8192) as u8,
            sector: (number / 512 % 16) as u8,
            syl: (number / 256 % 2) as u8,
            loc: (number % 256) as u8,
        }
    }

    /// Its place in the order of all, from 0.
    pub(crate) fn number(self) -> usize
        ensures value { result ≡ number_of self }
        ensures small { result < 32768 }
        ensures slot { IsSlot self }
    {
        usize::from(self.pair) * 8192
            + usize::from(self.sector) * 512
            + usize::from(self.syl) * 256
            + usize::from(self.loc)
    }

    /// The word that it belongs to.
    pub(crate) fn address(self) -> Address
        ensures address { result ≡ address_of self }
        ensures pair { result.pair < 4 }
    {
        Address {
            pair: self.pair,
            sector: self.sector,
            loc: self.loc,
        }
    }

    /// Its syllable, 0 or 1.
    pub(crate) fn syllable(self) -> u8
        ensures { result ≡ self.syl }
    {
        self.syl
    }

    /// Its location, 000 to 377 octal.
    pub(crate) fn loc(self) -> u8
        ensures value { result ≡ self.loc }
        ensures small { self.loc < 256 }
    {
        self.loc
    }

    /// The slot so many locations further on.
    pub(crate) fn onward(self, count: u16) -> Slot
        requires { self.loc + count < 256 }
        ensures { result ≡ slot_after self count }
    {
        Slot {
            loc: self.loc + count as u8,
            ..self
        }
    }

    /// The slot of this syllable in the same word.
    pub(crate) fn with_syllable(self, syl: u8) -> Slot
        requires { syl < 2 }
        ensures { result ≡ with_syllable self syl }
    {
        Slot { syl, ..self }
    }
}
