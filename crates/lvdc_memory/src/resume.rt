//! A memory that was saved: made again from its cells and intended words, and what it has of them.

ghost use Rattle.std.specs.Prelude.{◌≡◌, ℕ, ◌<◌, All, length, Option, None, IfOk};
ghost use Rattle.lvdc_map.specs.Memory.{Memory, AllThere};
ghost use Rattle.lvdc_twin.specs.Cells.{NamesPlace, AreHeld};
ghost use Rattle.lvdc_fault.specs.Ledger.{ArePlaced};
ghost use Rattle.lvdc_model.specs.Trial.{Trial};
ghost use Rattle.lvdc_model.specs.Twins as model;
ghost use Rattle.lvdc_memory.specs.Holds.{IsMemoryOf, StoreCells, AreIntended};

use crate::VotedMemory;
use lvdc_fault::Ledger;
use lvdc_map::{Banks, Placed};
use lvdc_twin::{Held, Twins};
use lvdc_word::{NoMemory, Seq};
use std::alloc::Global;

impl VotedMemory {
    /// The memory with these cells and these intended words, and those of the word 0 at all other places, in which these twins
    /// are selected. Nothing is in force.
    pub fn from_cells(
        alloc: Global,
        held: &[Held],
        selected: &[u8],
        words: &[Placed],
        banks: Banks,
    ) -> Result<VotedMemory, NoMemory>
        requires places { All NamesPlace held.now }
        requires pairs { length selected.now ≡ 4 }
        requires twins { All (λ twin. twin < 2) selected.now }
        requires there { AllThere banks words.now }
        ensures holds { IfOk result (λ m. (o : Trial) (t : model.Twins) (i : Memory)
            → o.opening.banks ≡ banks → StoreCells held.now t
            → t.selected ≡ selected.now → AreIntended words.now i → IsMemoryOf o None m t i) }
        ensures banks { IfOk result (λ m. m.twins.banks ≡ banks) }
    {
        Ok(VotedMemory {
            twins: Twins::from_cells(alloc, held, selected, banks)?,
            ledger: Ledger::new(alloc, words, banks)?,
        })
    }

    /// The stored cells but for those of the word 0, rising by twin and place.
    pub fn held(&self, alloc: Global) -> Result<Vec<Held>, NoMemory>
        ensures held { IfOk result (λ held. AreHeld self.now.twins held.items) }
        ensures cells { IfOk result (λ held. (o : Trial) (in_force : Option ℕ)
            (t : model.Twins) (i : Memory) → IsMemoryOf o in_force self.now t i
            → StoreCells held.items t) }
    {
        self.twins.held(alloc)
    }

    /// The twins that are selected in the four pairs.
    pub fn selected(&self, alloc: Global) -> Result<Vec<u8>, NoMemory>
        ensures pairs { IfOk result (λ selected. length selected.items ≡ 4) }
        ensures twins { IfOk result (λ selected. All (λ twin. twin < 2) selected.items) }
        ensures selected { IfOk result (λ selected. selected.items ≡ self.now.twins.selected) }
    {
        let mut selected = Vec::with_capacity(alloc, 4)?;
        selected.extend_from_slice(&self.twins.all_selected())?;
        Ok(selected)
    }

    /// The intended words other than 0, rising by address.
    pub fn placed(&self, alloc: Global) -> Result<Vec<Placed>, NoMemory>
        ensures placed { IfOk result (λ placed. ArePlaced self.now.ledger placed.items) }
        ensures there { IfOk result (λ placed. AllThere self.now.twins.banks placed.items) }
        ensures words { IfOk result (λ placed. (o : Trial) (in_force : Option ℕ)
            (t : model.Twins) (i : Memory) → IsMemoryOf o in_force self.now t i
            → AreIntended placed.items i) }
    {
        let placed = self.ledger.placed(alloc)?;
        Ok(placed)
    }

    /// The selected twins, the stored cells and the intended words, as lists that aren't changed any more.
    pub fn lists(&self, alloc: Global) -> Result<(Seq<u8>, Seq<Held>, Seq<Placed>), NoMemory>
        ensures pairs { IfOk result (λ lists. length lists.0 ≡ 4) }
        ensures twins { IfOk result (λ lists. All (λ twin. twin < 2) lists.0) }
        ensures selected { IfOk result (λ lists. lists.0 ≡ self.now.twins.selected) }
        ensures held { IfOk result (λ lists. AreHeld self.now.twins lists.1) }
        ensures cells { IfOk result (λ lists. (o : Trial) (in_force : Option ℕ)
            (t : model.Twins) (i : Memory) → IsMemoryOf o in_force self.now t i
            → StoreCells lists.1 t) }
        ensures placed { IfOk result (λ lists. ArePlaced self.now.ledger lists.2) }
        ensures there { IfOk result (λ lists. AllThere self.now.twins.banks lists.2) }
        ensures words { IfOk result (λ lists. (o : Trial) (in_force : Option ℕ)
            (t : model.Twins) (i : Memory) → IsMemoryOf o in_force self.now t i
            → AreIntended lists.2 i) }
    {
        let selected = self.selected(alloc)?;
        let cells = self.held(alloc)?;
        let words = self.placed(alloc)?;
        Ok((
            Seq::from_vec(selected),
            Seq::from_vec(cells),
            Seq::from_vec(words),
        ))
    }
}
