//! The run that goes on from a saved state.

ghost use Rattle.std.specs.Prelude.{ℕ, map, OnOk, IfOk, IfErr};
ghost use Rattle.lvdc_port.specs.Devices.{AreDistinct};
ghost use Rattle.lvdc_plain.specs.Lists.{AreFit, Since};
ghost use Rattle.lvdc_model.specs.Trial.{Trial};
ghost use Rattle.lvdc_model.specs.Voted.{Voted};
ghost use Rattle.lvdc_machine.specs.Calls.{IsFresh};
ghost use Rattle.lvdc_machine.specs.Resumed.{StandsFrom};
ghost use Rattle.lvdc_machine.specs.Room.{exchanges_to_come};
ghost use Rattle.lvdc_machine.specs.declared.mode.Mode.TheVariants.{Guarded};
ghost use Rattle.lvdc_machine.specs.declared.mode.Pace.TheVariants.{ByStep};
ghost use Rattle.lvdc_command_resume.specs.Finished.{MeansOf, HasRun};
ghost use Rattle.lvdc_command_resume.specs.Restore.{left_of, HaveRefused};
ghost use Rattle.lvdc_command_resume.specs.Runs.{IsRunnable};

use crate::restore::{Unrestored, restore_devices};
use lvdc_machine::{Machine, Orders};
use lvdc_port::PortDevice;
use lvdc_save::Saved;
use std::alloc::Global;

/// The voted machine of a saved state, before the first step that is left.
#[derive(Drop)]
pub struct Opened {
    /// It judges, and its limit is the count of the saved run.
    pub machine: Machine,
    /// The orders that the saved text names.
    pub orders: Orders,
}

/// Gives the devices their states, and makes the machine of a saved state.
pub fn open_saved(
    alloc: Global,
    saved: Saved,
    devices: &mut Vec<Box<dyn PortDevice>>,
) -> Result<Opened, Unrestored>
    requires runnable { IsRunnable saved }
    requires distinct { AreDistinct (map device_of devices.old.items) }

    // It stands where the run from each state begins that the saved state means, and the devices are fit for all its exchanges.
    ensures stands { IfOk result (λ opened. (o : Trial) (v : Voted) → MeansOf saved (map device_of devices.old.items) o v
        → StandsFrom o v 0 opened.machine (map device_of devices.new.items)) }
    ensures fresh { IfOk result (λ opened. IsFresh Guarded ByStep saved.count saved.snapshot.steps opened.machine) }
    ensures fit { IfOk result (λ opened. AreFit device_of spare (exchanges_to_come opened.machine) devices.new.items) }
    ensures since { OnOk result (Since device_of faults devices.old.items devices.new.items) }
    ensures refused { IfErr result (λ e. HaveRefused device_of faults saved.states (left_of saved (map device_of devices.old.items)) e
        devices.old.items devices.new.items) }
{
    restore_devices(devices, &saved)?;
    let Saved {
        snapshot,
        count,
        unplugs,
        script,
        orders,
        ..
    } = saved;
    let machine = Machine::from_snapshot(
        alloc,
        snapshot,
        script,
        unplugs.into_vec(),
        count,
        devices,
    )?;
    Ok(Opened { machine, orders })
}

/// Gives the devices their states, and runs the machine of a saved state up to the count.
pub(crate) fn run_saved(
    alloc: Global,
    saved: Saved,
    devices: &mut Vec<Box<dyn PortDevice>>,
) -> Result<Machine, Unrestored>
    requires runnable { IsRunnable saved }
    requires distinct { AreDistinct (map device_of devices.old.items) }
    ensures run { IfOk result (λ machine. HasRun device_of faults saved devices.old.items devices.new.items machine) }
    ensures refused { IfErr result (λ e. HaveRefused device_of faults saved.states (left_of saved (map device_of devices.old.items)) e
        devices.old.items devices.new.items) }
{
    let times = saved.count - saved.snapshot.steps / 3;
    let Opened {
        mut machine,
        orders,
    } = open_saved(alloc, saved, devices)?;
    machine.run(&orders, times, devices);
    Ok(machine)
}
