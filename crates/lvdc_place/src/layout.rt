ghost use Rattle.std.specs.Prelude.{◌≡◌, true, [], ◌∷◌, ◌<◌, None, IfSome, IfNone, length, slice_index_or};
ghost use Rattle.lvdc_place.specs.Placement.{AreInPairs};
ghost use Rattle.lvdc_place.specs.Slot.{slot_of};
ghost use Rattle.lvdc_place.specs.Slots.{set_of, are_free, pool_place, with_word};

use crate::Spot;
use crate::block::Kind;
use crate::slot::Slot;
use crate::taken::Taken;
use lvdc_map::Address;
use std::marker::Model;

/// Where the lines of a program stand, and which slots of memory are taken.
pub struct Layout {
    spots: Vec<Option<Spot>>,
    taken: Taken,
}

/// Its parts go in one call, which whoever lets it go doesn't look into.
impl Drop for Layout {
    fn drop(self) {
        let Layout { spots: _, taken: _ } = self;
    }
}

impl Model for Layout {
    ghost use Rattle.lvdc_place.specs.Placement.{LayoutView, AreInPairs};

    ghost Value = { LayoutView };

    ghost view = { λ l. record { spots = l.spots.items; bits = l.taken } };

    ghost invariant = { λ l. AreInPairs l.spots.items };
}

impl Layout {
    /// The layout of these spots, where these slots are taken.
    pub(crate) fn new(spots: Vec<Option<Spot>>, taken: Taken) -> Layout
        requires { AreInPairs spots.items }
        ensures { result ≡ record { spots = spots.items; bits = taken } }
    {
        Layout { spots, taken }
    }

    /// Where an item of the program stands, counted from 0; none for an item that takes no place.
    pub fn spot(&self, item: usize) -> Option<Spot>
        requires { item < length self.now.spots }
        ensures value { result ≡ slice_index_or self.now.spots item None }
        ensures pair { IfSome result (λ spot. spot.at.pair < 4) }
        ensures syllable { IfSome result (λ spot. IfSome spot.syl (λ syl. syl < 2)) }
    {
        self.spots[item]
    }

    /// The least location of a sector with both slots free, which are taken from now on; none where there is none, and then
    /// nothing changes. Locations 375, 376 and 377 of sector 17 are never free here.
    pub fn pool(&mut self, pair: u8, sector: u8) -> Option<Address>
        requires pair { pair < 4 }
        requires sector { sector < 16 }
        ensures place { result ≡ pool_place (set_of self.old.bits) pair sector }
        ensures taken { set_of self.new.bits ≡ with_word (set_of self.old.bits) result }
        ensures sector { IfSome result (λ at. (at.pair ≡ pair) × (at.sector ≡ sector)) }
        ensures free { IfSome result (λ at. are_free (set_of self.old.bits) (slot_of at 0 ∷ slot_of at 1 ∷ []) ≡ true) }
        ensures unchanged { IfNone result (self.new ≡ self.old) }
        ensures spots { self.new.spots ≡ self.old.spots }
    {
        let home = Slot::in_sector(pair, sector, 0);
        let place = match self.taken.least_in_sector(home, 1) {
            Some(place) => place,
            None => return None,
        };
        self.taken.take_location(&Kind::Words(home), place);
        Some(place.address())
    }
}
