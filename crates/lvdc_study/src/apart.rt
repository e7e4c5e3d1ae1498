//! The row of a script by a run from a waypoint, over whatever devices.

ghost use Rattle.std.specs.Prelude.{◌≡◌, ℕ, ◌*◌, ◌≤◌, List, All, IfOk, IfSome, IsOkAnd, true, map};
ghost use Rattle.lvdc_port.specs.Device as device;
ghost use Rattle.lvdc_port.specs.Devices.{AreDistinct};
ghost use Rattle.lvdc_plain.specs.Lists.{AreFit};
ghost use Rattle.lvdc_plain.specs.Run.{Opening};
ghost use Rattle.lvdc_fault.specs.declared.event.Event.{Event};
ghost use Rattle.lvdc_fault.specs.declared.verdict.Verdict.TheVariants.{Admissible};
ghost use Rattle.lvdc_withstands.specs.Form.{masks};
ghost use Rattle.lvdc_laws_runs.specs.Early.{AllBeginFrom};
ghost use Rattle.lvdc_model.specs.Judging.{first_bad};
ghost use Rattle.lvdc_machine.specs.Calls.{IsFresh};
ghost use Rattle.lvdc_machine.specs.Resumed.{StandsFrom};
ghost use Rattle.lvdc_machine.specs.Room.{exchanges_to_come};
ghost use Rattle.lvdc_machine.specs.declared.mode.Mode.TheVariants.{Guarded};
ghost use Rattle.lvdc_machine.specs.declared.mode.Pace.TheVariants.{ByStep};
ghost use Rattle.lvdc_snapshot.specs.Snapshot.{IsWhole};
ghost use Rattle.lvdc_runs.specs.Scripts.{IsScript, trial_under};
ghost use Rattle.lvdc_runs.specs.Ran.{HasRunPlainly};
ghost use Rattle.lvdc_runs.specs.Window.{IsWindow};
ghost use Rattle.lvdc_study.specs.Study.{opening_over, IsProgram, row_of};
ghost use Rattle.lvdc_study.specs.Waypoints.{IsWaypoint, TellsReplay};

use crate::laws::{admissible_comes_to_the_same, replayed_counts};
use crate::misled::row_misled;
use crate::replay::{goes_along, lines_from, machine_from, once_more, words_read};
use crate::study::{masks, row_with};
use crate::waypoint::{Waypoint, waypoint_before};
use crate::{Program, Row};
use lvdc_fault::{Named, Verdict};
use lvdc_machine::Machine;
use lvdc_plain::Plain;
use lvdc_port::{PortDevice, supply_all};
use lvdc_runs::{window_of, window_tells_all};
use lvdc_withstands::form_masks;
use lvdc_word::{NoMemory, Seq};
use std::alloc::Global;

/// The row of this name, by a machine that was made at a waypoint for so many times in all. None where it doesn't make them, or where its log
/// isn't that of the plain run.
fn row_along(
    program: &Program<'_>,
    plain: &Plain,
    from: &Waypoint,
    times: u64,
    name: Seq<u8>,
    made: &mut Result<Machine, NoMemory>,
    devices: &mut Vec<Box<dyn PortDevice>>,
) -> Result<Option<Row>, NoMemory>
    requires whole { IsWhole from.now.snapshot }
    requires ahead { from.now.snapshot.steps ≤ 3 * times }
    requires fresh { IfOk made.old (IsFresh Guarded ByStep times from.now.snapshot.steps) }
    requires fit { IfOk made.old (λ machine. AreFit device_of spare (exchanges_to_come machine) devices.old.items) }
    ensures { IfOk result (λ told. IfSome told (λ row. IsOkAnd made.old (λ machine. (p : Opening) (script : List Event) (count : ℕ) (at : IsWaypoint p count from.now)
        → times ≤ count → HasRunPlainly p count plain.now → AllBeginFrom from.now.snapshot.steps script → first_bad (trial_under p script) times ≡ Admissible
        → StandsFrom (trial_under p script) (record at.state { devices = map device_of devices.old.items }) 0 machine (map device_of devices.old.items)
        → TellsReplay (trial_under p script) times from.now.lines name row))) }
{
    match made {
        Ok(machine) => {
            if goes_along(program.orders, plain, from, times, machine, devices) {
                let verdict = Verdict::Admissible;
                Ok(Some(row_with(name, verdict, None, machine, true)))
            } else {
                Ok(None)
            }
        }
        Err(_) => Err(NoMemory),
    }
}

/// The row of a script that masks by form, by a run from a waypoint up to its last event, over whatever devices: they are given the words
/// that the plain run read on the way. None where these devices answer something else.
fn row_masked(
    alloc: Global,
    program: &Program<'_>,
    plain: &Plain,
    from: &Waypoint,
    times: u64,
    named: &Named,
    devices: &mut Vec<Box<dyn PortDevice>>,
) -> Result<Option<Row>, NoMemory>
    requires program { IsProgram program.now }
    requires script { IsScript named.now }
    requires whole { IsWhole from.now.snapshot }
    requires ahead { from.now.snapshot.steps ≤ 3 * times }
    requires window { IsWindow named.now.script times program.now.count }
    requires distinct { AreDistinct (map device_of devices.old.items) }

    // Of each opening of the program whose waypoint it is, and whose plain run the plain machine has made.
    ensures { IfOk result (λ made. IfSome made (λ row. (first : List device.Device) → HasRunPlainly (opening_over program.now first) program.now.count plain.now
        → IsWaypoint (opening_over program.now first) program.now.count from.now → AllBeginFrom from.now.snapshot.steps named.now.script
        → masks named.now.script program.now.banks program.now.count ≡ true → row ≡ row_of (opening_over program.now first) program.now.count named.now)) }
{
    admissible_comes_to_the_same();
    form_masks();
    replayed_counts();
    window_tells_all();
    let words = words_read(alloc, lines_from(plain.log(), from.lines), times)?;
    supply_all(devices, &words)?;
    let script = once_more(alloc, &named.script)?;
    let name = Vec::from_slice(alloc, named.name.items())?;
    row_along(
        program,
        plain,
        from,
        times,
        Seq::from_vec(name),
        &mut machine_from(alloc, program, from, script, times, devices),
        devices,
    )
}

/// The row of a script, beside the plain run of the same program, over whatever devices: they are given the words that the plain run read
/// from the waypoint before the first event on. Where the script masks by form the machine goes up to its last event, else until it has
/// rejoined the plain run. None where the script has no event, no waypoint is near, or these devices answer something else.
pub fn study_apart(
    alloc: Global,
    program: &Program<'_>,
    plain: &Plain,
    waypoints: &[Waypoint],
    named: &Named,
    devices: &mut Vec<Box<dyn PortDevice>>,
) -> Result<Option<Row>, NoMemory>
    requires program { IsProgram program.now }
    requires script { IsScript named.now }
    requires whole { All (λ w. IsWhole w.snapshot) waypoints.now }
    requires distinct { AreDistinct (map device_of devices.old.items) }

    // Of each opening of the program whose waypoints they are, and whose plain run the plain machine has made.
    ensures { IfOk result (λ made. IfSome made (λ row. (first : List device.Device) → HasRunPlainly (opening_over program.now first) program.now.count plain.now
        → All (IsWaypoint (opening_over program.now first) program.now.count) waypoints.now → row ≡ row_of (opening_over program.now first) program.now.count named.now)) }
{
    let times = window_of(&named.script, program.count);
    if times == 0 {
        return Ok(None);
    }
    let Some(at) = waypoint_before(waypoints, &named.script, times) else {
        return Ok(None);
    };
    let masking = masks(alloc, program, &named.script)?;
    let from = &waypoints[at];
    if masking {
        return row_masked(alloc, program, plain, from, times, named, devices);
    }
    row_misled(alloc, program, plain, waypoints, from, named, devices)
}
