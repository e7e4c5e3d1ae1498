//! A machine that goes on from a snapshot.

ghost use Rattle.std.specs.Prelude.{◌≡◌, ℕ, ◌+◌, ◌-◌, ◌*◌, ◌≤◌, ◌<◌, ◌^◌, List, All, length, map, IfOk, None};
ghost use Rattle.lvdc_port.specs.Device as device;
ghost use Rattle.lvdc_port.specs.Devices.{AreDistinct};
ghost use Rattle.lvdc_plain.specs.Lists.{AreFit};
ghost use Rattle.lvdc_model.specs.Known.{last_made};
ghost use Rattle.lvdc_model.specs.Trial.{Trial};
ghost use Rattle.lvdc_model.specs.Voted.{Voted, voted_start};
ghost use Rattle.lvdc_fault.specs.Events.{IsEvent};
ghost use Rattle.lvdc_machine.specs.declared.mode.Mode.TheVariants.{Guarded};
ghost use Rattle.lvdc_machine.specs.declared.mode.Pace.TheVariants.{ByStep};
ghost use Rattle.lvdc_machine.specs.Resumed.{StandsFrom};
ghost use Rattle.lvdc_machine.specs.Calls.{IsFresh};
ghost use Rattle.lvdc_machine.specs.Room.{exchanges_to_come};
ghost use Rattle.lvdc_snapshot.specs.Snapshot.{IsWhole, Means, meant};
ghost use Rattle.lvdc_forces.specs.Parts.{AreForces};
ghost use Rattle.lvdc_machine.specs.Sound.{KnowsForce};
ghost use Rattle.lvdc_machine.specs.Stands.{Stands};
ghost use Rattle.lvdc_machine.specs.Steps.{run_of};
ghost use Rattle.lvdc_snapshot.specs.declared.snapshot.Snapshot.{Snapshot};
ghost use Rattle.lvdc_machine.specs.View.{View};

use crate::{Machine, Mode, Pace, Snapshot};
use lvdc_fault::Script;
use lvdc_forces::Forces;
use lvdc_logic::Logic;
use lvdc_plain::Unplug;
use lvdc_port::{PortDevice, prepare_all};
use lvdc_word::NoMemory;
use std::alloc::Global;

impl Machine {
    /// A machine that judges and goes on from a snapshot, up to so many instruction times in all. It makes room for all that
    /// may still be noted and for the devices' words. After a want of memory no device holds anything else than before.
    pub fn from_snapshot(
        alloc: Global,
        snapshot: Snapshot,
        script: Script,
        unplugs: Vec<Unplug>,
        limit: u64,
        devices: &mut Vec<Box<dyn PortDevice>>,
    ) -> Result<Machine, NoMemory>
        requires whole { IsWhole snapshot }
        requires steps { snapshot.steps ≤ 3 * limit }
        requires limit { limit ≤ Self.LIMIT }
        requires few { length script ≤ Self.EVENTS }
        requires events { All IsEvent script }
        requires distinct { AreDistinct (map device_of devices.old.items) }

        // It stands where the run from a state begins that the snapshot means, with these devices.
        ensures stands { IfOk result (λ machine. (o : Trial) (v : Voted) → o.script ≡ script → o.opening.unplugs ≡ unplugs.items
            → o.opening.banks ≡ snapshot.banks → Means snapshot v → v.devices ≡ map device_of devices.old.items
            → StandsFrom o v 0 machine (map device_of devices.new.items)) }
        ensures fresh { IfOk result (IsFresh Guarded ByStep limit snapshot.steps) }
        ensures fit { IfOk result (λ machine. AreFit device_of spare (exchanges_to_come machine) devices.new.items) }

        // In every case.
        ensures devices { map device_of devices.new.items ≡ map device_of devices.old.items }
        ensures faults { map faults devices.new.items ≡ map faults devices.old.items }
    {
        prepare_all(devices, 3 * limit - snapshot.steps)?;
        Machine::resumed(alloc, snapshot, script, unplugs, limit)
    }

    /// A machine that judges and goes on from a snapshot, with whatever devices.
    fn resumed(
        alloc: Global,
        snapshot: Snapshot,
        script: Script,
        unplugs: Vec<Unplug>,
        limit: u64,
    ) -> Result<Machine, NoMemory>
        requires whole { IsWhole snapshot }
        requires steps { snapshot.steps ≤ 3 * limit }
        requires limit { limit ≤ Self.LIMIT }
        requires events { All IsEvent script }
        ensures stands { (devices : List device.Device) → IfOk result (λ machine. (o : Trial) (v : Voted) → o.script ≡ script
            → o.opening.unplugs ≡ unplugs.items → o.opening.banks ≡ snapshot.banks → Means snapshot v → v.devices ≡ devices
            → StandsFrom o v 0 machine devices) }
        ensures fresh { IfOk result (IsFresh Guarded ByStep limit snapshot.steps) }
    {
        let steps = snapshot.steps;
        let banks = snapshot.banks;
        let logic = Logic::from_latches(snapshot.latches.items(), snapshot.differed.items());
        let (on_memory, memory) = snapshot.memory(alloc, &script)?;
        let forces = forces_before(alloc, &script, steps)?;
        let (log, repairs) = snapshot.into_noted(3 * limit - steps)?;
        Ok(Machine {
            banks,
            logic,
            memory,
            script,
            on_memory,
            forces,
            unplugs,
            log,
            repairs,
            steps,
            limit,
            mode: Mode::Guarded,
            pace: Pace::ByStep,
            end: None,
        })
    }
}

/// What is in force on the copies in the step before this one, if there is one.
fn forces_before(alloc: Global, script: &Script, steps: u64) -> Result<Forces, NoMemory>
    requires events { All IsEvent script.now }
    requires bound { steps < 2 ^ 63 }
    ensures fit { IfOk result (AreForces script.now) }
    ensures known { IfOk result (λ forces. KnowsForce script.now (last_made steps) forces.known) }
{
    let mut forces = Forces::for_script(alloc, script)?;
    if steps == 0 {
        return Ok(forces);
    }
    forces.go_to(script, steps - 1);
    Ok(forces)
}

/// A law, which does nothing when it runs. What stands where the run from a state of a trial's run is, stands where that run
/// is; the run of a trial is that from its start; and each snapshot means a state.
pub fn resumed_goes_on()
    ensures on { (o : Trial) (t n : ℕ) (before after : View) (ds left : List device.Device) → Stands o t before ds → before.end ≡ None
        → after.mode ≡ before.mode → StandsFrom o (run_of before.mode o t) n after left → Stands o (t + n) after left }
    ensures start { (o : Trial) (t : ℕ) (m : View) (ds : List device.Device) → Stands o t m ds → StandsFrom o (voted_start o) t m ds }
    ensures back { (o : Trial) (t : ℕ) (m : View) (ds : List device.Device) → StandsFrom o (voted_start o) t m ds → Stands o t m ds }
    ensures meant { (s : Snapshot) (ds : List device.Device) → Means s (meant s ds) }
{}
