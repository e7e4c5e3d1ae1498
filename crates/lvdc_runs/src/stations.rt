//! Stations of the fault-free run of a program: what a machine that judges has after some of its times. The run of a script goes on
//! from one at which it hasn't begun yet, over devices as the plain run leaves them there.

ghost use Rattle.std.specs.Prelude.{◌≡◌, ℕ, ◌*◌, ◌+◌, ◌/◌, ◌≤◌, ◌↔◌, length, map, IsTrue, IfOk, IfSome, IsSome, All};
ghost use Rattle.lvdc_fault.specs.Events.{IsEvent};
ghost use Rattle.lvdc_fault.specs.declared.TheConstants.{MOST_EVENTS, MOST_TIMES};
ghost use Rattle.lvdc_laws_runs.specs.Early.{AllBeginFrom};
ghost use Rattle.lvdc_port.specs.Devices.{AreDistinct};
ghost use Rattle.lvdc_plain.specs.Lists.{AreFit};
ghost use Rattle.lvdc_plain.specs.Run.{Opening, run};
ghost use Rattle.lvdc_machine.specs.Calls.{IsFresh};
ghost use Rattle.lvdc_machine.specs.Room.{exchanges_to_come};
ghost use Rattle.lvdc_snapshot.specs.Snapshot.{IsWhole};
ghost use Rattle.lvdc_machine.specs.Stands.{Stands};
ghost use Rattle.lvdc_machine.specs.Steps.{Keeps};
ghost use Rattle.lvdc_machine.specs.declared.mode.Mode.TheVariants.{Guarded};
ghost use Rattle.lvdc_machine.specs.declared.mode.Pace.TheVariants.{ByStep};
ghost use Rattle.lvdc_runs.specs.Scripts.{trial_under};
ghost use Rattle.lvdc_runs.specs.Stations.{IsStation, IsFaultFree, IsUnderWay};

use crate::laws::stations_have_plain_devices;
use lvdc_fault::Script;
use lvdc_laws_runs::machines_may_begin_late;
use lvdc_machine::{Machine, Orders, Snapshot};
use lvdc_plain::Unplug;
use lvdc_port::PortDevice;
use lvdc_word::NoMemory;
use std::alloc::Global;

/// Into how many parts the stations part the times of a program.
const PARTS: u64 = 16;

/// So many times, at least, lie between two stations: fewer are made as soon as a machine at a station.
const LEAST: u64 = 16;

/// So many scripts, at least, are worth a run for the stations.
const MANY: usize = 4;

/// Are so many scripts of a program of so many times worth a run for the stations?
pub fn are_worth_stations(scripts: usize, count: u64) -> bool
    ensures { IsTrue result ↔ ((4 ≤ scripts) × (256 ≤ count)) }
{
    scripts >= MANY && count >= PARTS * LEAST
}

/// The station so many times on, if no end comes before it.
fn next_station(
    alloc: Global,
    orders: &Orders,
    machine: &mut Machine,
    more: u64,
    devices: &mut Vec<Box<dyn PortDevice>>,
) -> Result<Option<Snapshot>, NoMemory>
    requires fault_free { IsFaultFree machine.old (map device_of devices.old.items) }
    requires left { machine.old.steps + 3 * more ≤ 3 * machine.old.limit }
    requires fit { AreFit device_of spare (exchanges_to_come machine.old) devices.old.items }
    ensures station { (p : Opening) → IsUnderWay p machine.old (map device_of devices.old.items)
        → IfOk result (λ next. IfSome next (IsStation p machine.old.limit)) }
    ensures under_way { (p : Opening) → IsUnderWay p machine.old (map device_of devices.old.items)
        → IfOk result (λ next. IsSome next → IsUnderWay p machine.new (map device_of devices.new.items)) }
    ensures steps { IfOk result (λ next. IsSome next → machine.new.steps ≡ machine.old.steps + 3 * more) }
    ensures keeps { Keeps machine.old machine.new }
    ensures fit { AreFit device_of spare (exchanges_to_come machine.new) devices.new.items }
{
    machine.run(orders, more, devices);
    if machine.ended().is_some() {
        return Ok(None);
    }
    let station = machine.snapshot(alloc)?;
    Ok(Some(station))
}

/// The stations of the fault-free run of a program, evenly spread over its times, up to the end of that run: also where a device fails.
pub fn stations_of(
    alloc: Global,
    orders: &Orders,
    machine: &mut Machine,
    count: u64,
    devices: &mut Vec<Box<dyn PortDevice>>,
) -> Result<Vec<Snapshot>, NoMemory>
    requires fault_free { IsFaultFree machine.old (map device_of devices.old.items) }
    requires starts { machine.old.steps ≡ 0 }
    requires limit { machine.old.limit ≡ count }
    requires fit { AreFit device_of spare (exchanges_to_come machine.old) devices.old.items }

    // Of each program whose fault-free run the machine makes.
    ensures { (p : Opening) → IsUnderWay p machine.old (map device_of devices.old.items)
        → IfOk result (λ stations. All (IsStation p count) stations.items) }
{
    let every = count / PARTS;
    let mut stations = Vec::new(alloc);
    let mut times = 0;
    for _ in 1..PARTS {
        if count - times < every {
            return Ok(stations);
        }
        match next_station(alloc, orders, machine, every, devices)? {
            Some(station) => stations.push(station)?,
            None => return Ok(stations),
        }
        times += every;
    }
    Ok(stations)
}

/// A machine that judges, at a station, under a script that begins there or later. The devices are to be those that the plain run
/// leaves after the times of the station; it makes room for the words that they may still be given.
pub fn machine_at(
    alloc: Global,
    station: &Snapshot,
    script: Script,
    unplugs: Vec<Unplug>,
    count: u64,
    devices: &mut Vec<Box<dyn PortDevice>>,
) -> Result<Machine, NoMemory>
    requires whole { IsWhole station.now }
    requires within { station.now.steps ≤ 3 * count }
    requires limit { count ≤ MOST_TIMES }
    requires few { length script ≤ MOST_EVENTS }
    requires events { All IsEvent script }
    requires later { AllBeginFrom station.now.steps script }
    requires distinct { AreDistinct (map device_of devices.old.items) }

    // It stands where the run of the script is.
    ensures stands { IfOk result (λ machine. (p : Opening) → IsStation p count station.now → p.unplugs ≡ unplugs.items
        → map device_of devices.old.items ≡ (run p (station.now.steps / 3)).devices
        → Stands (trial_under p script) station.now.steps machine (map device_of devices.new.items)) }
    ensures fresh { IfOk result (IsFresh Guarded ByStep count station.now.steps) }
    ensures fit { IfOk result (λ machine. AreFit device_of spare (exchanges_to_come machine) devices.new.items) }

    // In every case.
    ensures devices { map device_of devices.new.items ≡ map device_of devices.old.items }
    ensures faults { map faults devices.new.items ≡ map faults devices.old.items }
{
    machines_may_begin_late();
    stations_have_plain_devices();
    let snapshot = station.once_more(alloc)?;
    let machine = Machine::from_snapshot(alloc, snapshot, script, unplugs, count, devices)?;
    Ok(machine)
}
