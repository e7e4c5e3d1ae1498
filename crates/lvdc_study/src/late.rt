//! Runs that go on from stations of the fault-free run, each over devices of its own, which the plain machine brings there.

ghost use Rattle.std.specs.Prelude.{◌≡◌, ◌≤◌, ◌*◌, ◌/◌, length, map, All, OnOk, IfOk, IfErr};
ghost use Rattle.lvdc_fault.specs.Events.{IsEvent};
ghost use Rattle.lvdc_fault.specs.declared.TheConstants.{MOST_EVENTS};
ghost use Rattle.lvdc_laws_runs.specs.Early.{AllBeginFrom};
ghost use Rattle.lvdc_port.specs.Devices.{AreDistinct};
ghost use Rattle.lvdc_plain.specs.Lists.{Since};
ghost use Rattle.lvdc_plain.specs.Run.{run};
ghost use Rattle.lvdc_runs.specs.Scripts.{trial_under};
ghost use Rattle.lvdc_runs.specs.Ran.{HasRunWithin};
ghost use Rattle.lvdc_runs.specs.Stations.{IsStation};
ghost use Rattle.lvdc_study.specs.Failures.{HasFailed, FailsUnder, FailsPlainly};
ghost use Rattle.lvdc_study.specs.Study.{opening_over, IsProgram};
ghost use Rattle.lvdc_study.specs.Waypoints.{IsWaypoint};

use crate::laws::{fails_early, quiet_waypoints_are_stations};
use crate::runs::{failed_port, run_plain, run_script};
use crate::waypoint::waypoint_before;
use crate::{Program, Unstudied, Waypoint};
use lvdc_fault::Script;
use lvdc_machine::{Machine, Mode, Snapshot};
use lvdc_port::{PortDevice, supply_all};
use lvdc_runs::{machine_at, quiet_stations_leave_devices, station_before, stations_of};
use lvdc_word::NoMemory;
use std::alloc::Global;

/// Stations of the fault-free run of a program, over devices in their first states: up to the end of that run, also where a device fails.
pub fn make_stations(
    alloc: Global,
    program: &Program<'_>,
    devices: &mut Vec<Box<dyn PortDevice>>,
) -> Result<Vec<Snapshot>, NoMemory>
    requires program { IsProgram program.now }
    requires distinct { AreDistinct (map device_of devices.old.items) }
    ensures { IfOk result (λ stations. All (IsStation (opening_over program.now (map device_of devices.old.items)) program.now.count) stations.items) }
{
    supply_all(devices, program.supplies)?;
    let unplugs = Vec::from_slice(alloc, program.unplugs)?;
    let mut machine = Machine::new(
        alloc,
        program.image,
        program.banks,
        program.start,
        Script::new(alloc),
        unplugs,
        Mode::Guarded,
        program.count,
        devices,
    )?;
    stations_of(alloc, program.orders, &mut machine, program.count, devices)
}

/// Brings devices in their first states to where the plain run has them at a station. Where nothing went over a port before it, and no
/// device is taken away, they only get the words of the tapes.
fn bring_there(
    alloc: Global,
    program: &Program<'_>,
    station: &Snapshot,
    devices: &mut Vec<Box<dyn PortDevice>>,
) -> Result<(), Unstudied>
    requires program { IsProgram program.now }
    requires station { IsStation (opening_over program.now (map device_of devices.old.items)) program.now.count station.now }
    requires distinct { AreDistinct (map device_of devices.old.items) }
    ensures brought { OnOk result (map device_of devices.new.items ≡ (run (opening_over program.now (map device_of devices.old.items)) (station.now.steps / 3)).devices) }
    ensures distinct { OnOk result (AreDistinct (map device_of devices.new.items)) }
    ensures since { OnOk result (Since device_of faults devices.old.items devices.new.items) }
    ensures failed { IfErr result (λ e. HasFailed device_of faults e devices.old.items devices.new.items) }
    ensures fails { IfErr result (λ e. FailsPlainly (opening_over program.now (map device_of devices.old.items)) (station.now.steps / 3) e) }
{
    quiet_stations_leave_devices();
    if program.unplugs.is_empty() && station.log.items().is_empty() {
        supply_all(devices, program.supplies)?;
        return Ok(());
    }
    let early = Program {
        count: station.steps / 3,
        ..*program
    };
    match run_plain(alloc, &early, devices) {
        Ok(_) => Ok(()),
        Err(e) => Err(e),
    }
}

/// Brings devices there, if there are any.
fn bring(
    alloc: Global,
    program: &Program<'_>,
    station: &Snapshot,
    devices: &mut Vec<Box<dyn PortDevice>>,
) -> Result<(), Unstudied>
    requires program { IsProgram program.now }
    requires station { IsStation (opening_over program.now (map device_of devices.old.items)) program.now.count station.now }
    requires distinct { AreDistinct (map device_of devices.old.items) }
    ensures brought { OnOk result (map device_of devices.new.items ≡ (run (opening_over program.now (map device_of devices.old.items)) (station.now.steps / 3)).devices) }
    ensures distinct { OnOk result (AreDistinct (map device_of devices.new.items)) }
    ensures since { OnOk result (Since device_of faults devices.old.items devices.new.items) }
    ensures failed { IfErr result (λ e. HasFailed device_of faults e devices.old.items devices.new.items) }
    ensures fails { IfErr result (λ e. FailsPlainly (opening_over program.now (map device_of devices.old.items)) (station.now.steps / 3) e) }
{
    if devices.is_empty() {
        return Ok(());
    }
    bring_there(alloc, program, station, devices)
}

/// The voted machine that judges, after so many of the times of a program under a script that begins at a station or later, over devices
/// in their first states.
fn run_from(
    alloc: Global,
    program: &Program<'_>,
    station: &Snapshot,
    script: Script,
    times: u64,
    devices: &mut Vec<Box<dyn PortDevice>>,
) -> Result<Machine, Unstudied>
    requires program { IsProgram program.now }
    requires within { times ≤ program.now.count }
    requires ahead { station.now.steps ≤ 3 * times }
    requires few { length script ≤ MOST_EVENTS }
    requires events { All IsEvent script }
    requires station { IsStation (opening_over program.now (map device_of devices.old.items)) program.now.count station.now }
    requires later { AllBeginFrom station.now.steps script }
    requires distinct { AreDistinct (map device_of devices.old.items) }
    ensures judged { IfOk result (λ machine. HasRunWithin (trial_under (opening_over program.now (map device_of devices.old.items)) script) times program.now.count machine
        (map device_of devices.new.items)) }
    ensures since { OnOk result (Since device_of faults devices.old.items devices.new.items) }
    ensures failed { IfErr result (λ e. HasFailed device_of faults e devices.old.items devices.new.items) }
    ensures fails { IfErr result (λ e. FailsUnder (trial_under (opening_over program.now (map device_of devices.old.items)) script) times e) }
{
    fails_early();
    let begin = station.steps / 3;
    match bring(alloc, program, station, devices) {
        Ok(()) => {}
        Err(e) => return Err(e),
    }
    let unplugs = Vec::from_slice(alloc, program.unplugs)?;
    let mut machine = machine_at(alloc, station, script, unplugs, program.count, devices)?;
    machine.run(program.orders, times - begin, devices);
    match failed_port(&machine) {
        Some(port) => Err(Unstudied::Device(port)),
        None => Ok(machine),
    }
}

/// The voted machine that judges, after so many of the times of a program under a script, over devices in their first states. It makes
/// those from the last station before the first event.
fn run_late(
    alloc: Global,
    program: &Program<'_>,
    stations: &[Snapshot],
    script: Script,
    times: u64,
    devices: &mut Vec<Box<dyn PortDevice>>,
) -> Result<Machine, Unstudied>
    requires program { IsProgram program.now }
    requires within { times ≤ program.now.count }
    requires few { length script ≤ MOST_EVENTS }
    requires events { All IsEvent script }
    requires stations { All (IsStation (opening_over program.now (map device_of devices.old.items)) program.now.count) stations.now }
    requires distinct { AreDistinct (map device_of devices.old.items) }
    ensures judged { IfOk result (λ machine. HasRunWithin (trial_under (opening_over program.now (map device_of devices.old.items)) script) times program.now.count machine
        (map device_of devices.new.items)) }
    ensures since { OnOk result (Since device_of faults devices.old.items devices.new.items) }
    ensures failed { IfErr result (λ e. HasFailed device_of faults e devices.old.items devices.new.items) }
    ensures fails { IfErr result (λ e. FailsUnder (trial_under (opening_over program.now (map device_of devices.old.items)) script) program.now.count e) }
{
    match station_before(stations, &script, times) {
        Some(at) => run_from(alloc, program, &stations[at], script, times, devices),
        None => run_script(alloc, program, script, times, devices),
    }
}

/// The voted machine that judges, after so many of the times of a program under a script, over devices in their first states. It makes
/// those from the waypoint before the first event, if nothing went over a port before that, so that it is a station; else from the last
/// station.
pub(crate) fn run_near(
    alloc: Global,
    program: &Program<'_>,
    stations: &[Snapshot],
    waypoints: &[Waypoint],
    script: Script,
    times: u64,
    devices: &mut Vec<Box<dyn PortDevice>>,
) -> Result<Machine, Unstudied>
    requires program { IsProgram program.now }
    requires within { times ≤ program.now.count }
    requires few { length script ≤ MOST_EVENTS }
    requires events { All IsEvent script }
    requires stations { All (IsStation (opening_over program.now (map device_of devices.old.items)) program.now.count) stations.now }
    requires waypoints { All (IsWaypoint (opening_over program.now (map device_of devices.old.items)) program.now.count) waypoints.now }
    requires distinct { AreDistinct (map device_of devices.old.items) }
    ensures judged { IfOk result (λ machine. HasRunWithin (trial_under (opening_over program.now (map device_of devices.old.items)) script) times program.now.count machine
        (map device_of devices.new.items)) }
    ensures since { OnOk result (Since device_of faults devices.old.items devices.new.items) }
    ensures failed { IfErr result (λ e. HasFailed device_of faults e devices.old.items devices.new.items) }
    ensures fails { IfErr result (λ e. FailsUnder (trial_under (opening_over program.now (map device_of devices.old.items)) script) program.now.count e) }
{
    quiet_waypoints_are_stations();
    if let Some(at) = waypoint_before(waypoints, &script, times) {
        if waypoints[at].lines == 0 {
            let station = &waypoints[at].snapshot;
            return run_from(alloc, program, station, script, times, devices);
        }
    }
    run_late(alloc, program, stations, script, times, devices)
}
