ghost use Rattle.std.specs.Prelude.{◌≡◌, ℕ, ◌-◌, ◌<◌, false, Ok, IfOk, [], length, slice_index, slice_index_or};
ghost use Rattle.lvdc_word.specs.Cell.{code_of};
ghost use Rattle.lvdc_map.specs.Banks.{IsPlace};
ghost use Rattle.lvdc_map.specs.Memory.{AllThere};
ghost use Rattle.lvdc_twin.specs.Store.{nothing, slot_of};
ghost use Rattle.lvdc_twin.specs.Calls.{Begins};

use crate::Stuck;
use lvdc_map::{Address, Banks, Placed, Sectors};
use lvdc_word::{Cell, NoMemory, Word};
use std::alloc::Global;
use std::marker::Model;

/// How many places a twin has: four modules of 4,096 words.
pub(crate) const PLACES: usize = 16384;

/// The memory modules of four pairs, each with its twin. Every cell has parity (the published duplex memory; its rules of
/// repair are this project's profile).
pub struct Twins {
    pub(crate) banks: Banks,
    pub(crate) cells: Sectors<Cell>,
    pub(crate) stuck: Sectors<Stuck>,
    pub(crate) dead: [bool; 8],
    pub(crate) selected: [u8; 4],
    /// Where it is true, nothing is stuck at any place and no twin is dead: each twin shows what it stores. False says nothing.
    pub(crate) bare: bool,
}

/// Its parts go in one call, which whoever lets it go doesn't look into.
impl Drop for Twins {
    fn drop(self) {
        let Twins {
            banks: _,
            cells: _,
            stuck: _,
            dead: _,
            selected: _,
            bare: _,
        } = self;
    }
}

impl Model for Twins {
    ghost use Rattle.std.specs.Prelude.{◌≡◌};
    ghost use Rattle.lvdc_word.specs.Cell.{code_of};
    ghost use Rattle.lvdc_twin.specs.Store.{Store, IsNoted, nothing};

    ghost Value = { Store };

    ghost view = { λ t. record {
      banks = t.banks;
      cells = t.cells.items;
      stuck = t.stuck.items;
      dead = t.dead;
      selected = t.selected;
    } };

    ghost invariant = { λ t. IsNoted (record {
      banks = t.banks;
      cells = t.cells.items;
      stuck = t.stuck.items;
      dead = t.dead;
      selected = t.selected;
    }) t.bare × (t.cells.blank ≡ code_of 0) × (t.stuck.blank ≡ nothing) };
}

impl Twins {
    /// The memory that an image makes, with 0 where it has no word.
    pub fn new(alloc: Global, image: &[Placed], banks: Banks) -> Result<Twins, NoMemory>
        requires { AllThere banks image.now }
        ensures { IfOk result (λ t. Begins banks image.now t) }
    {
        let mut twins = Twins::blank(alloc, banks)?;
        twins.load(image);
        Ok(twins)
    }

    /// The memory of no image.
    fn blank(alloc: Global, banks: Banks) -> Result<Twins, NoMemory>
        ensures { IfOk result (λ t. Begins banks [] t) }
    {
        Ok(Twins {
            banks,
            cells: zeros(alloc)?,
            stuck: nothing_stuck(alloc)?,
            dead: [false; 8],
            selected: [0; 4],
            bare: true,
        })
    }

    /// Stores the words of an image.
    fn load(&mut self, image: &[Placed])
        requires there { AllThere self.old.banks image.now }
        requires blank { Begins self.old.banks [] self.old }
        ensures { Begins self.old.banks image.now self.new }
    {
        for placed in image {
            self.write(placed.at, placed.word);
        }
    }
}

/// A cell of 0 for each place of both twins.
pub(crate) fn zeros(alloc: Global) -> Result<Sectors<Cell>, NoMemory>
    ensures blank { IfOk result (λ v. v.blank ≡ code_of 0) }
    ensures length { IfOk result (λ v. length v.items ≡ 32768) }
    ensures zero { IfOk result (λ v. (slot : ℕ) → slot < 32768
        → slice_index v.items slot ≡ code_of 0) }
{
    let cells = Sectors::filled(alloc, Cell::encode(Word::ZERO))?;
    Ok(cells)
}

/// Nothing stuck at each place of both twins.
pub(crate) fn nothing_stuck(alloc: Global) -> Result<Sectors<Stuck>, NoMemory>
    ensures blank { IfOk result (λ v. v.blank ≡ nothing) }
    ensures length { IfOk result (λ v. length v.items ≡ 32768) }
    ensures nothing { IfOk result (λ v. (slot : ℕ)
        → slice_index_or v.items slot nothing ≡ nothing) }
{
    let zero = Cell::within(0);
    let stuck = Sectors::filled(
        alloc,
        Stuck {
            mask: zero,
            value: zero,
        },
    )?;
    Ok(stuck)
}

/// Where a physical place of a twin stands in a table.
#[inline(always)]
pub(crate) fn slot(twin: u8, place: Address) -> usize
    requires twin { twin < 2 }
    requires pair { place.pair < 4 }
    ensures value { result ≡ slot_of twin place }
    ensures small { result < 32768 }
    ensures place { IsPlace place }
{
    usize::from(twin) * PLACES + place.number()
}
