ghost use Rattle.std.specs.Prelude.{◌≡◌, IfSome};
ghost use Rattle.lvdc_place.specs.Fitting.{Fits};
ghost use Rattle.lvdc_place.specs.Slots.{set_of, least_place, with_slots, block_slots, with_block};
ghost use Rattle.lvdc_place.specs.declared.block.Kind.TheVariants.{Code};

use crate::block::{Block, Kind, SECTOR};
use crate::slot::Slot;
use crate::taken::{SLOTS, Taken};
use std::marker::Model;

/// Where floating blocks find room. For each size of a block of code it keeps how far the memory was looked through: slots
/// are taken and never given back, so what had no room then has none now.
#[derive(Drop)]
pub(crate) struct Search {
    taken: Taken,
    /// By the size of a block: the number of the slot from which it is looked for.
    starts: [usize; 257],
}

impl Model for Search {
    ghost use Rattle.std.specs.Prelude.{Bool, List};
    ghost use Rattle.lvdc_place.specs.Search.{StartsAt};

    ghost Value = { List Bool };

    ghost view = { λ s. s.taken };

    ghost invariant = { λ s. StartsAt s.taken s.starts };
}

impl Search {
    /// Where these slots are taken, and nothing was looked for.
    pub(crate) fn new(taken: Taken) -> Search
        ensures { result ≡ taken }
    {
        Search {
            taken,
            starts: [0; 257],
        }
    }

    /// The slots that are taken at the end.
    pub(crate) fn into_taken(self) -> Taken
        ensures { result ≡ self }
    {
        self.taken
    }

    /// The least place of a block of so many instructions.
    fn least_code(&mut self, size: u16) -> Option<Slot>
        ensures place { result ≡ least_place (set_of self.old) Code size }
        ensures within { IfSome result (Fits size) }
        ensures same { self.new ≡ self.old }
    {
        if size > SECTOR {
            return None;
        }
        let start = self.starts[usize::from(size)];
        let place = self.taken.least_free(&Kind::Code, size, start, SLOTS);
        self.starts[usize::from(size)] = match place {
            Some(place) => place.number(),
            None => SLOTS,
        };
        place
    }

    /// The least place of a floating block.
    fn least_place(&mut self, block: &Block) -> Option<Slot>
        ensures place { result ≡ least_place (set_of self.old) block.now.site.kind block.now.size }
        ensures within { IfSome result (Fits block.now.size) }
        ensures same { self.new ≡ self.old }
    {
        match block.site.kind {
            Kind::Code => self.least_code(block.size),
            Kind::Words(home) => self.taken.least_in_sector(home, block.size),
        }
    }

    /// Takes the slots of a block.
    fn take_block(&mut self, block: &Block, place: Slot)
        requires { Fits block.now.size place }
        ensures { set_of self.new ≡ with_slots (set_of self.old) (block_slots block.now.site.kind block.now.size place) }
    {
        self.taken.take_block(&block.site.kind, place, block.size);
    }

    /// A floating block takes its slots at the least place where all are free; none where there is no such place.
    pub(crate) fn float(&mut self, block: &Block) -> Option<Slot>
        ensures place { result ≡ least_place (set_of self.old) block.now.site.kind block.now.size }
        ensures taken { set_of self.new ≡ with_block (set_of self.old) block.now.site.kind block.now.size result }
        ensures within { IfSome result (Fits block.now.size) }
    {
        let place = self.least_place(block)?;
        self.take_block(block, place);
        Some(place)
    }
}
