ghost use Rattle.std.specs.Prelude.{◌≡◌, ◌<◌, IfOk, true};
ghost use Rattle.lvdc_map.specs.Memory.{are_rising, AllThere};

use crate::location::Location;
use lvdc_map::{Address, Placed};
use lvdc_word::{NoMemory, Syllable, Word};
use std::alloc::Global;
use std::marker::Model;

/// What a source puts into all locations of the four pairs, in the order of their addresses.
#[derive(Drop)]
pub(crate) struct Table {
    locations: Vec<Location>,
}

impl Model for Table {
    ghost use Rattle.std.specs.Prelude.{◌≡◌, List, length};
    ghost use Rattle.lvdc_asm.specs.declared.location.Location.{Location};

    ghost Value = { List Location };

    ghost view = { λ t. t.locations.items };

    ghost invariant = { λ t. length t.locations.items ≡ 16384 };
}

impl Table {
    ghost use Rattle.lvdc_asm.specs.Locations.{nothing, with_code, with_word, words_of};

    /// How many addresses the four pairs have.
    const COUNT: usize = 16384;

    /// Nothing stands anywhere.
    pub(crate) fn empty(alloc: Global) -> Result<Table, NoMemory>
        ensures { IfOk result (λ table. table ≡ nothing) }
    {
        Ok(Table {
            locations: Location::none(alloc, Self::COUNT)?,
        })
    }

    /// Puts a syllable of code into its slot.
    pub(crate) fn put_code(&mut self, at: Address, syl: u8, syllable: Syllable)
        requires { at.pair < 4 }
        ensures { self.new ≡ with_code self.old at syl syllable }
    {
        let location = &mut self.locations[at.number()];
        *location = location.with(syl, syllable);
    }

    /// Puts a word into both slots of its location.
    pub(crate) fn put_word(&mut self, at: Address, word: Word)
        requires { at.pair < 4 }
        ensures { self.new ≡ with_word self.old at word }
    {
        self.locations[at.number()] = Location::of_word(word);
    }

    /// The words of all locations where something stands, by rising address.
    pub(crate) fn words(&self, alloc: Global) -> Result<Vec<Placed>, NoMemory>
        ensures words { IfOk result (λ words. words.items ≡ words_of self.now) }
        ensures rising { IfOk result (λ words. are_rising words.items ≡ true) }
        ensures there { IfOk result (λ words. AllThere 0 words.items) }
    {
        let mut words = Vec::new(alloc);
        for (place, location) in self.locations.iter().enumerate() {
            let word = match location.word() {
                Some(word) => word,
                None => continue,
            };
            let at = Address::numbered(place);
            words.push(Placed { at, word })?;
        }
        Ok(words)
    }
}
