ghost use Rattle.std.specs.Prelude.{◌≡◌, ◌+◌, ◌≤◌, ◌<◌, List, All, length, IfOk, vec_len, vec_capacity};
ghost use Rattle.lvdc_fault.specs.Events.{IsEvent};
ghost use Rattle.lvdc_memory.specs.Holds.{IsMemoryOf};
ghost use Rattle.lvdc_memory.specs.Order.{AreOnMemory};
ghost use Rattle.lvdc_model.specs.Known.{last_made};
ghost use Rattle.lvdc_model.specs.Trial.{Trial};
ghost use Rattle.lvdc_model.specs.Voted.{Voted};
ghost use Rattle.lvdc_snapshot.specs.Snapshot.{IsWhole, Means};

use crate::lists::{once_more, with_room};
use lvdc_fault::Script;
use lvdc_map::{Banks, Placed};
use lvdc_memory::{MemoryEvents, VotedMemory};
use lvdc_model::Repair;
use lvdc_plain::Exchange;
use lvdc_twin::Held;
use lvdc_word::{NoMemory, Seq, Word};
use std::alloc::Global;

/// What a voted machine has between two instruction times, but for its script and its devices.
pub struct Snapshot {
    /// The steps made, a multiple of 3.
    pub steps: u64,
    /// 45 latches, by module, copy and index.
    pub latches: Seq<Word>,
    /// In how many steps each copy differed from the vote: 21 counts, by module and copy.
    pub differed: Seq<u64>,
    /// The twin that is selected, by pair.
    pub selected: Seq<u8>,
    /// The stored cells but for those of the word 0, rising by twin and place.
    pub cells: Seq<Held>,
    /// The intended words other than 0, rising by address.
    pub words: Seq<Placed>,
    /// The port exchanges, the oldest first.
    pub log: Seq<Exchange>,
    /// The repairs, the oldest first.
    pub repairs: Seq<Repair>,
    pub banks: Banks,
}

/// Its parts go in one call, which whoever lets it go doesn't look into.
impl Drop for Snapshot {
    fn drop(self) {
        let Snapshot {
            steps: _,
            latches: _,
            differed: _,
            selected: _,
            cells: _,
            words: _,
            log: _,
            repairs: _,
            banks: _,
        } = self;
    }
}

impl Snapshot {
    /// The same snapshot once more.
    pub fn once_more(&self, alloc: Global) -> Result<Snapshot, NoMemory>
        ensures { IfOk result (λ copy. copy ≡ self.now) }
    {
        let (latches, differed) = self.logic(alloc)?;
        let (selected, cells, words) = self.words(alloc)?;
        let (log, repairs) = self.noted(alloc)?;
        Ok(Snapshot {
            steps: self.steps,
            latches,
            differed,
            selected,
            cells,
            words,
            log,
            repairs,
            banks: self.banks,
        })
    }

    /// The latches and the counts.
    fn logic(&self, alloc: Global) -> Result<(Seq<Word>, Seq<u64>), NoMemory>
        ensures latches { IfOk result (λ lists. lists.0 ≡ self.now.latches) }
        ensures differed { IfOk result (λ lists. lists.1 ≡ self.now.differed) }
    {
        let latches = once_more(alloc, self.latches.items())?;
        let differed = once_more(alloc, self.differed.items())?;
        Ok((latches, differed))
    }

    /// The selected twins, the stored cells and the intended words.
    fn words(&self, alloc: Global) -> Result<(Seq<u8>, Seq<Held>, Seq<Placed>), NoMemory>
        ensures selected { IfOk result (λ lists. lists.0 ≡ self.now.selected) }
        ensures cells { IfOk result (λ lists. lists.1 ≡ self.now.cells) }
        ensures words { IfOk result (λ lists. lists.2 ≡ self.now.words) }
    {
        let selected = once_more(alloc, self.selected.items())?;
        let cells = once_more(alloc, self.cells.items())?;
        let words = once_more(alloc, self.words.items())?;
        Ok((selected, cells, words))
    }

    /// The port exchanges and the repairs.
    fn noted(&self, alloc: Global) -> Result<(Seq<Exchange>, Seq<Repair>), NoMemory>
        ensures log { IfOk result (λ lists. lists.0 ≡ self.now.log) }
        ensures repairs { IfOk result (λ lists. lists.1 ≡ self.now.repairs) }
    {
        let log = once_more(alloc, self.log.items())?;
        let repairs = once_more(alloc, self.repairs.items())?;
        Ok((log, repairs))
    }

    /// The memory that it means, in which what a script sticks and kills in the step before is in force; and the script's events on
    /// memory, by which it is.
    pub fn memory(
        &self,
        alloc: Global,
        script: &Script,
    ) -> Result<(MemoryEvents, VotedMemory), NoMemory>
        requires whole { IsWhole self.now }
        requires events { All IsEvent script.now }
        ensures events { IfOk result (λ made. AreOnMemory script.now made.0.events) }
        ensures last { IfOk result (λ made. made.0.last ≡ last_made self.now.steps) }
        ensures holds { IfOk result (λ made. (o : Trial) (v : Voted) → o.script ≡ script.now → o.opening.banks ≡ self.now.banks
            → Means self.now v → IsMemoryOf o made.0.last made.1 v.twins v.intended) }
        ensures banks { IfOk result (λ made. made.1.twins.banks ≡ self.now.banks) }
    {
        let mut on_memory = MemoryEvents::for_script(alloc, script)?;
        let mut memory = VotedMemory::from_cells(
            alloc,
            self.cells.items(),
            self.selected.items(),
            self.words.items(),
            self.banks,
        )?;
        on_memory.put_last_in_force(self.steps, &mut memory);
        Ok((on_memory, memory))
    }

    /// The port exchanges and the repairs, and room for so many more of each.
    pub fn into_noted(self, more: u64) -> Result<(Vec<Exchange>, Vec<Repair>), NoMemory>
        ensures log { IfOk result (λ noted. noted.0.items ≡ self.log) }
        ensures log_room { IfOk result (λ noted. vec_len noted.0 + more ≤ vec_capacity noted.0) }
        ensures repairs { IfOk result (λ noted. noted.1.items ≡ self.repairs) }
        ensures repairs_room { IfOk result (λ noted. vec_len noted.1 + more ≤ vec_capacity noted.1) }
    {
        let Snapshot {
            steps: _,
            latches: _,
            differed: _,
            selected: _,
            cells: _,
            words: _,
            log,
            repairs,
            banks: _,
        } = self;
        let log = with_room(log, more)?;
        let repairs = with_room(repairs, more)?;
        Ok((log, repairs))
    }
}
