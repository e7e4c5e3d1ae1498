ghost use Rattle.std.specs.Prelude.{◌≡◌, ℕ, ◌+◌, ◌-◌, ◌<◌, ◌≤◌, true, false, not, IfOk, IfSome};
ghost use Rattle.std.specs.Option.{option_map};
ghost use Rattle.lvdc_place.specs.Fitting.{Fits};
ghost use Rattle.lvdc_place.specs.Slot.{slot_after, slot_at};
ghost use Rattle.lvdc_place.specs.Slots.{set_of, outside, never_free, with_saver, with_location, with_slot, with_slots, are_free, slots_at, block_slots, least, is_free_at, least_place};
ghost use Rattle.lvdc_place.specs.declared.block.Kind.TheVariants.{Words};

use crate::block::Kind;
use crate::slot::Slot;
use lvdc_word::NoMemory;
use std::alloc::Global;
use std::marker::Model;

/// How many slots four pairs have.
pub(crate) const SLOTS: usize = 32768;

/// Which slots are taken, in the order of their numbers.
#[derive(Drop)]
pub(crate) struct Taken {
    bits: Vec<bool>,
}

impl Model for Taken {
    ghost use Rattle.std.specs.Prelude.{◌≡◌, Bool, List, length};

    ghost Value = { List Bool };

    ghost view = { λ t. t.bits.items };

    ghost invariant = { λ t. length t.bits.items ≡ 32768 };
}

impl Taken {
    /// Before any block: location 375 of sector 17 alone.
    pub(crate) fn new(alloc: Global) -> Result<Taken, NoMemory>
        ensures { IfOk result (λ taken. set_of taken ≡ never_free) }
    {
        let mut taken = Taken::nothing(alloc)?;
        taken.reserve(0o375);
        Ok(taken)
    }

    /// No slot.
    fn nothing(alloc: Global) -> Result<Taken, NoMemory>
        ensures { IfOk result (λ taken. set_of taken ≡ outside) }
    {
        let bits = Vec::from_elem(alloc, false, SLOTS)?;
        Ok(Taken { bits })
    }

    /// From now on the two words of the HOP saver.
    pub(crate) fn reserve_saver(&mut self)
        ensures { set_of self.new ≡ with_saver (set_of self.old) }
    {
        self.reserve(0o376);
        self.reserve(0o377);
    }

    /// From now on this location of sector 17, in each pair.
    fn reserve(&mut self, loc: u8)
        ensures { set_of self.new ≡ with_location (set_of self.old) loc }
    {
        for pair in 0..4 {
            let word = Slot::in_sector(pair, 15, loc);
            self.take_location(&Kind::Words(word), word);
        }
    }

    fn is_free(&self, slot: Slot) -> bool
        ensures { result ≡ not (set_of self.now slot) }
    {
        !self.bits[slot.number()]
    }

    fn take(&mut self, slot: Slot)
        ensures { set_of self.new ≡ with_slot (set_of self.old) slot }
    {
        self.bits[slot.number()] = true;
    }

    /// Whether the slots that a line of such a block takes at a location are free.
    fn is_location_free(&self, kind: &Kind, slot: Slot) -> bool
        ensures { result ≡ are_free (set_of self.now) (slots_at kind.now slot) }
    {
        match kind {
            Kind::Code => self.is_free(slot),
            Kind::Words(_) => self.is_free(slot.with_syllable(0))
                && self.is_free(slot.with_syllable(1)),
        }
    }

    /// Takes the slots that a line of such a block takes at a location.
    pub(crate) fn take_location(&mut self, kind: &Kind, slot: Slot)
        ensures { set_of self.new ≡ with_slots (set_of self.old) (slots_at kind.now slot) }
    {
        match kind {
            Kind::Code => self.take(slot),
            Kind::Words(_) => {
                self.take(slot.with_syllable(0));
                self.take(slot.with_syllable(1));
            }
        }
    }

    /// Takes the slots of a block of so many locations.
    pub(crate) fn take_block(&mut self, kind: &Kind, first: Slot, size: u16)
        requires { Fits size first }
        ensures { set_of self.new ≡ with_slots (set_of self.old) (block_slots kind.now size first) }
    {
        for offset in 0..size {
            self.take_location(kind, first.onward(offset));
        }
    }

    /// How many locations from this one on are free for such a block, up to so many and up to the end of the sector.
    fn free_run(&self, kind: &Kind, first: Slot, most: u16) -> u16
        ensures most { result ≤ most }
        ensures within { first.loc + result ≤ 256 }
        ensures free { (k : ℕ) → k < result → are_free (set_of self.now) (slots_at kind.now (slot_after first k)) ≡ true }
        ensures end { result < most → are_free (set_of self.now) (slots_at kind.now (slot_after first result)) ≡ false }
    {
        let room = most.min(256 - u16::from(first.loc()));
        for run in 0..room {
            if !self.is_location_free(kind, first.onward(run)) {
                return run;
            }
        }
        room
    }

    /// Whether all slots of a block of so many locations are free.
    pub(crate) fn is_block_free(&self, kind: &Kind, first: Slot, size: u16) -> bool
        ensures { result ≡ are_free (set_of self.now) (block_slots kind.now size first) }
    {
        self.free_run(kind, first, size) == size
    }

    /// The least place, in the order of all slots from this number on and before the other, at which all slots of a block of
    /// so many locations are free.
    pub(crate) fn least_free(&self, kind: &Kind, size: u16, from: usize, end: usize) -> Option<Slot>
        requires { end ≤ 32768 }
        ensures place { result ≡ option_map slot_at (least (is_free_at (set_of self.now) kind.now size) from (end - from)) }
        ensures within { IfSome result (Fits size) }
    {
        let mut number = from;
        while number < end {
            let place = Slot::numbered(number);
            let run = self.free_run(kind, place, size);
            if run == size {
                return Some(place);
            }
            number += usize::from(run.max(1));
        }
        None
    }

    /// The least place of a block of so many words in the sector of a slot.
    pub(crate) fn least_in_sector(&self, home: Slot, size: u16) -> Option<Slot>
        ensures place { result ≡ least_place (set_of self.now) (Words home) size }
        ensures sector { IfSome result (λ place. (place.pair ≡ home.pair) × (place.sector ≡ home.sector)) }
        ensures free { IfSome result (λ place. are_free (set_of self.now) (block_slots (Words home) size place) ≡ true) }
        ensures within { IfSome result (Fits size) }
    {
        let from = home.sector_start().number();
        self.least_free(&Kind::Words(home), size, from, from + 256)
    }
}
