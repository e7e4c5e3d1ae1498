ghost use Rattle.std.specs.Prelude.{◌≡◌, ◌%◌, List, All, IfOk, None};
ghost use Rattle.lvdc_map.specs.Address.{IsAddress};
ghost use Rattle.lvdc_port.specs.Device as device;
ghost use Rattle.lvdc_model.specs.Trial.{Trial};
ghost use Rattle.lvdc_model.specs.Voted.{Voted};
ghost use Rattle.lvdc_machine.specs.Shows.{Shows};
ghost use Rattle.lvdc_machine.specs.declared.mode.Mode.TheVariants.{Guarded};
ghost use Rattle.lvdc_snapshot.specs.Snapshot.{IsWhole, Means};

use crate::Machine;
use lvdc_fault::Script;
use lvdc_model::Repair;
use lvdc_plain::{Exchange, Unplug};
use lvdc_snapshot::Snapshot;
use lvdc_word::{NoMemory, Seq};
use std::alloc::Global;

impl Machine {
    /// What the machine has now: after whole instruction times, where no end has come.
    pub fn snapshot(&self, alloc: Global) -> Result<Snapshot, NoMemory>
        requires times { self.now.steps % 3 ≡ 0 }
        requires going { self.now.end ≡ None }
        ensures means { IfOk result (λ s. (o : Trial) (v : Voted) (ds : List device.Device) → Shows o self.now ds v → Means s v) }
        ensures whole { self.now.mode ≡ Guarded → IfOk result IsWhole }
        ensures banks { IfOk result (λ s. s.banks ≡ self.now.banks) }
        ensures steps { IfOk result (λ s. s.steps ≡ self.now.steps) }
        ensures addresses { IfOk result (λ s. All (λ placed. IsAddress placed.at) s.words) }
    {
        let (latches, differed) = self.logic.lists(alloc)?;
        let (selected, cells, words) = self.memory.lists(alloc)?;
        let (log, repairs) = noted_lists(alloc, &self.log, &self.repairs)?;
        Ok(Snapshot {
            steps: self.steps,
            latches,
            differed,
            selected,
            cells,
            words,
            log,
            repairs,
            banks: self.banks,
        })
    }

    /// The script that it was made with, once more.
    pub fn script(&self, alloc: Global) -> Result<Script, NoMemory>
        ensures { IfOk result (λ script. script ≡ self.now.script) }
    {
        let mut script = Script::new(alloc);
        for at in 0..self.script.len() {
            script.push(*self.script.event(at))?;
        }
        Ok(script)
    }

    /// The UNPLUG lines that it was made with, once more.
    pub fn unplugs(&self, alloc: Global) -> Result<Seq<Unplug>, NoMemory>
        ensures { IfOk result (λ unplugs. unplugs ≡ self.now.unplugs) }
    {
        let unplugs = Vec::from_slice(alloc, &self.unplugs)?;
        Ok(Seq::from_vec(unplugs))
    }
}

/// The port exchanges and the repairs, as they are.
fn noted_lists(
    alloc: Global,
    log: &[Exchange],
    noted: &[Repair],
) -> Result<(Seq<Exchange>, Seq<Repair>), NoMemory>
    ensures log { IfOk result (λ lists. lists.0 ≡ log.now) }
    ensures repairs { IfOk result (λ lists. lists.1 ≡ noted.now) }
{
    let lines = Vec::from_slice(alloc, log)?;
    let repairs = Vec::from_slice(alloc, noted)?;
    Ok((Seq::from_vec(lines), Seq::from_vec(repairs)))
}
