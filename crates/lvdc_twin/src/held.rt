ghost use Rattle.std.specs.Prelude.{◌≡◌, ℕ, ◌+◌, ◌*◌, ◌<◌, length, slice_index, All, IfOk, OnOk};
ghost use Rattle.lvdc_word.specs.Cell.{code_of};
ghost use Rattle.lvdc_map.specs.Address.{Spot};
ghost use Rattle.lvdc_map.specs.Memory.{word_at};
ghost use Rattle.lvdc_twin.specs.Cells.{NamesPlace, cells_of, HasCells, AreHeld, Gathers};
ghost use Rattle.lvdc_map.specs.Banks.{IsPlace};
ghost use Rattle.lvdc_twin.specs.Store.{IsStore, slot_of, stored_in};

use crate::Twins;
use crate::twins::{PLACES, nothing_stuck, slot, zeros};
use lvdc_map::{Address, Banks, Sectors};
use lvdc_word::{Cell, NoMemory, Word};
use std::alloc::Global;

/// A cell that a twin stores.
#[derive(Clone, Copy, PartialEq, Eq)]
pub struct Held {
    /// The twin, 0 or 1.
    pub twin: u8,
    /// The physical place, with its pair below 4.
    pub at: Address,
    pub cell: Cell,
}

impl Twins {
    /// The memory of these cells, with that of the word 0 at every other place; of two for one place the later one counts. In
    /// the four pairs these twins are selected, and nothing is stuck or dead.
    pub fn from_cells(
        alloc: Global,
        held: &[Held],
        selected: &[u8],
        banks: Banks,
    ) -> Result<Twins, NoMemory>
        requires places { All NamesPlace held.now }
        requires pairs { length selected.now ≡ 4 }
        requires twins { All (λ twin. twin < 2) selected.now }
        ensures { IfOk result (λ t. HasCells banks held.now selected.now t) }
    {
        Ok(Twins {
            banks,
            cells: laid_out(alloc, held)?,
            stuck: nothing_stuck(alloc)?,
            dead: [false; 8],
            selected: [selected[0], selected[1], selected[2], selected[3]],
            bare: true,
        })
    }

    /// The cell that a twin stores at a physical place, whatever is stuck or dead there.
    #[inline(always)]
    pub fn stored(&self, twin: u8, at: Address) -> Cell
        requires twin { twin < 2 }
        requires pair { at.pair < 4 }
        ensures value { result ≡ stored_in self.now twin at }
        ensures whole { IsStore self.now }
        ensures place { IsPlace at }
    {
        self.cells.at(slot(twin, at))
    }

    /// The twins that are selected in the four pairs.
    pub fn all_selected(&self) -> [u8; 4]
        ensures value { result ≡ self.now.selected }
        ensures twins { All (λ twin. twin < 2) result }
    {
        self.selected
    }

    /// The cells that are stored, but for those of the word 0, rising by twin and place.
    pub fn held(&self, alloc: Global) -> Result<Vec<Held>, NoMemory>
        ensures { IfOk result (λ held. AreHeld self.now held.items) }
    {
        let mut held = Vec::new(alloc);
        for sector in 0..Address::SECTORS {
            if !self.cells.is_blank(sector) {
                self.gather(sector, &mut held)?;
            }
        }
        Ok(held)
    }

    /// Adds the cells of a sector, of the 128 of both twins, but for those of the word 0.
    fn gather(&self, sector: usize, held: &mut Vec<Held>) -> Result<(), NoMemory>
        requires { sector < 128 }
        ensures { OnOk result (Gathers self.now.cells (256 * sector) held.old.items → Gathers self.now.cells (256 * sector + 256) held.new.items) }
    {
        let zero = Cell::encode(Word::ZERO);
        for slot in 256 * sector..256 * sector + 256 {
            let cell = self.cells.at(slot);
            if cell != zero {
                held.push(Held {
                    twin: (slot / PLACES) as u8,
                    at: Address::numbered(slot % PLACES),
                    cell,
                })?;
            }
        }
        Ok(())
    }
}

/// The tables of both twins with these cells, and that of the word 0 at every other place.
fn laid_out(alloc: Global, held: &[Held]) -> Result<Sectors<Cell>, NoMemory>
    requires { All NamesPlace held.now }
    ensures blank { IfOk result (λ v. v.blank ≡ code_of 0) }
    ensures length { IfOk result (λ v. length v.items ≡ 32768) }
    ensures cells { IfOk result (λ v. (twin : ℕ) → twin < 2 → (place : Spot) → IsPlace place
        → slice_index v.items (slot_of twin place) ≡ word_at (cells_of held.now twin) place) }
{
    let mut cells = zeros(alloc)?;
    for one in held {
        cells.put(slot(one.twin, one.at), one.cell);
    }
    Ok(cells)
}
