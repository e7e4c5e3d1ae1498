//! The row of a script that may mislead a vote, by a run from a waypoint until it has rejoined the plain run, over devices that answer what
//! the plain run read.

ghost use Rattle.std.specs.Prelude.{◌≡◌, ℕ, ◌+◌, ◌*◌, ◌≤◌, ◌<◌, ◌%◌, false, List, All, IsTrue, IfOk, IfSome, IsOkAnd, None, length, map};
ghost use Rattle.lvdc_port.specs.Device as device;
ghost use Rattle.lvdc_port.specs.Devices.{AreDistinct};
ghost use Rattle.lvdc_plain.specs.Lists.{AreFit};
ghost use Rattle.lvdc_plain.specs.Run.{Opening};
ghost use Rattle.lvdc_fault.specs.Events.{IsEvent};
ghost use Rattle.lvdc_fault.specs.declared.TheConstants.{MOST_TIMES};
ghost use Rattle.lvdc_fault.specs.declared.event.Event.{Event};
ghost use Rattle.lvdc_fault.specs.declared.verdict.Verdict.TheVariants as verdicts;
ghost use Rattle.lvdc_withstands.specs.Form.{masks};
ghost use Rattle.lvdc_laws_runs.specs.Early.{AllBeginFrom};
ghost use Rattle.lvdc_laws_runs.specs.Joined.{AllEndBefore};
ghost use Rattle.lvdc_machine.specs.Calls.{IsFresh};
ghost use Rattle.lvdc_machine.specs.Room.{exchanges_to_come};
ghost use Rattle.lvdc_machine.specs.declared.mode.Mode.TheVariants.{Guarded};
ghost use Rattle.lvdc_machine.specs.declared.mode.Pace.TheVariants.{ByStep};
ghost use Rattle.lvdc_model.specs.Trial.{Trial};
ghost use Rattle.lvdc_model.specs.Voted.{Voted};
ghost use Rattle.lvdc_snapshot.specs.Snapshot.{IsWhole};
ghost use Rattle.lvdc_runs.specs.Scripts.{IsScript, trial_under};
ghost use Rattle.lvdc_runs.specs.Ran.{HasRunPlainly};
ghost use Rattle.lvdc_study.specs.Rejoins.{IsReplay, Replays, RowTellsMisled, TellsMisled};
ghost use Rattle.lvdc_study.specs.Study.{opening_over, IsProgram, row_of};
ghost use Rattle.lvdc_study.specs.Waypoints.{IsWaypoint};

use crate::onward::first_from;
use crate::rejoin::{has_rejoined_along, is_along};
use crate::replay::{lines_from, machine_from, once_more, words_read};
use crate::study::row_with;
use crate::{Program, Row, Waypoint};
use lvdc_fault::{Named, Verdict};
use lvdc_machine::{Machine, Mode, resumed_goes_on};
use lvdc_plain::Plain;
use lvdc_port::{PortDevice, supply_all};
use lvdc_runs::{is_admissible, times_to_the_last, verdict_of};
use lvdc_word::{NoMemory, Seq};
use std::alloc::Global;

/// At so many waypoints, at most, it is looked whether a run has rejoined the plain run.
const LOOKS: usize = 10;

/// May a machine that has ended go on up to the step of this number? It judges, and its log has no more lines than steps were made.
fn may_go_on(machine: &Machine, to: u64) -> bool
    ensures mode { IsTrue result → machine.now.mode ≡ Guarded }
    ensures few { IsTrue result → length machine.now.log ≤ machine.now.steps }
    ensures later { IsTrue result → machine.now.steps < to }
{
    matches!(machine.mode(), Mode::Guarded)
        && machine.log().len() as u64 <= machine.steps()
        && machine.steps() < to
}

/// Makes so many times more of a machine, through every fault from a step on that something is said against. What has been said, this or
/// that before; none where an end comes.
fn go_to(
    program: &Program<'_>,
    more: u64,
    said: Verdict,
    machine: &mut Machine,
    devices: &mut Vec<Box<dyn PortDevice>>,
) -> Result<Option<Verdict>, NoMemory>
    requires left { machine.old.steps + 3 * more ≤ 3 * machine.old.limit }
    requires limit { machine.old.limit ≤ MOST_TIMES }
    requires fit { AreFit device_of spare (exchanges_to_come machine.old) devices.old.items }
    requires replay { IsReplay said machine.old (map device_of devices.old.items) }
    ensures replays { IfOk result (λ made. IfSome made (λ verdict. (o : Trial) (first : Voted) (n : ℕ)
        → Replays o first n said machine.old (map device_of devices.old.items)
        → Replays o first (n + 3 * more) verdict machine.new (map device_of devices.new.items))) }
    ensures fit { IfOk result (λ made. IfSome made (λ _. AreFit device_of spare (exchanges_to_come machine.new) devices.new.items)) }
    ensures limit { IfOk result (λ made. IfSome made (λ _. machine.new.limit ≡ machine.old.limit)) }
    ensures steps { IfOk result (λ made. IfSome made (λ _. machine.new.steps ≡ machine.old.steps + 3 * more)) }
{
    let to = machine.steps() + 3 * more;
    machine.run(program.orders, more, devices);
    let verdict = verdict_of(machine);
    if is_admissible(&verdict) {
        return if machine.ended().is_some() {
            Ok(None)
        } else {
            Ok(Some(said))
        };
    }
    if !may_go_on(machine, to) {
        return Ok(None);
    }
    match machine.go_through(program.orders, to, devices) {
        Ok(_) => {}
        Err(NoMemory) => return Err(NoMemory),
    }
    if machine.ended().is_some() {
        return Ok(None);
    }
    Ok(Some(verdict))
}

/// Lets a machine that stands at a waypoint go on until it has rejoined the plain run at a later one, behind so many times. What has been
/// said against a step; none where it doesn't rejoin in its times, or where its log is no longer that of the plain run.
fn rejoins(
    alloc: Global,
    program: &Program<'_>,
    plain: &Plain,
    waypoints: &[Waypoint],
    from: &Waypoint,
    over: u64,
    machine: &mut Machine,
    devices: &mut Vec<Box<dyn PortDevice>>,
) -> Result<Option<Verdict>, NoMemory>
    requires whole { All (λ w. IsWhole w.snapshot) waypoints.now }
    requires from { IsWhole from.now.snapshot }
    requires steps { machine.old.steps ≡ from.now.snapshot.steps }
    requires limit { machine.old.limit ≤ MOST_TIMES }
    requires fit { AreFit device_of spare (exchanges_to_come machine.old) devices.old.items }
    requires replay { IsReplay verdicts.Admissible machine.old (map device_of devices.old.items) }

    // Of each program whose waypoints they are, and whose plain run the plain machine has made.
    ensures { IfOk result (λ told. IfSome told (λ said. (p : Opening) (script : List Event) (count : ℕ) (at : IsWaypoint p count from.now)
        → All (IsWaypoint p count) waypoints.now → HasRunPlainly p count plain.now → All IsEvent script → AllBeginFrom from.now.snapshot.steps script
        → AllEndBefore (3 * over) script
        → Replays (trial_under p script) (record at.state { devices = map device_of devices.old.items }) 0 verdicts.Admissible machine.old (map device_of devices.old.items)
        → TellsMisled (trial_under p script) count said machine.new)) }
{
    let most = 3 * machine.limit();
    let begin = 3 * over.min(machine.limit());
    let mut made = from.snapshot.steps;
    let mut said = Verdict::Admissible;
    for at in first_from(waypoints, begin)..waypoints.len() {
        let waypoint = &waypoints[at];
        let there = waypoint.snapshot.steps;
        if there < made || there > most {
            return Ok(None);
        }
        match go_to(program, (there - made) / 3, said, machine, devices) {
            Ok(Some(verdict)) => said = verdict,
            Ok(None) => return Ok(None),
            Err(NoMemory) => return Err(NoMemory),
        }
        made = there;
        if !is_along(plain, from, waypoint, machine) {
            return Ok(None);
        }
        if there / 3 >= over {
            match has_rejoined_along(alloc, plain, from, waypoint, machine) {
                Ok(true) => return Ok(Some(said)),
                Ok(false) => {}
                Err(NoMemory) => return Err(NoMemory),
            }
        }
    }
    Ok(None)
}

/// The row of this name, by a machine that was made at a waypoint. None where it doesn't rejoin the plain run.
fn row_rejoined(
    alloc: Global,
    program: &Program<'_>,
    plain: &Plain,
    waypoints: &[Waypoint],
    from: &Waypoint,
    over: u64,
    name: Seq<u8>,
    made: &mut Result<Machine, NoMemory>,
    devices: &mut Vec<Box<dyn PortDevice>>,
) -> Result<Option<Row>, NoMemory>
    requires whole { All (λ w. IsWhole w.snapshot) waypoints.now }
    requires from { IsWhole from.now.snapshot }
    requires steps { IfOk made.old (λ machine. machine.steps ≡ from.now.snapshot.steps) }
    requires limit { IfOk made.old (λ machine. machine.limit ≤ MOST_TIMES) }
    requires fit { IfOk made.old (λ machine. AreFit device_of spare (exchanges_to_come machine) devices.old.items) }
    requires replay { IfOk made.old (λ machine. IsReplay verdicts.Admissible machine (map device_of devices.old.items)) }
    ensures { IfOk result (λ told. IfSome told (λ row. IsOkAnd made.old (λ machine. (p : Opening) (script : List Event) (count : ℕ) (at : IsWaypoint p count from.now)
        → All (IsWaypoint p count) waypoints.now → HasRunPlainly p count plain.now → All IsEvent script → AllBeginFrom from.now.snapshot.steps script
        → AllEndBefore (3 * over) script
        → Replays (trial_under p script) (record at.state { devices = map device_of devices.old.items }) 0 verdicts.Admissible machine (map device_of devices.old.items)
        → RowTellsMisled (trial_under p script) count name row))) }
{
    match made {
        Ok(machine) => match rejoins(
            alloc, program, plain, waypoints, from, over, machine, devices,
        ) {
            Ok(Some(said)) => Ok(Some(row_with(name, said, None, machine, false))),
            Ok(None) => Ok(None),
            Err(NoMemory) => Err(NoMemory),
        },
        Err(_) => Err(NoMemory),
    }
}

/// Up to so many times a machine is made that begins at a waypoint under a script whose events are over after so many times: up to a
/// waypoint some way behind them. None where no waypoint lies behind them.
fn times_to_look(waypoints: &[Waypoint], from: &Waypoint, over: u64, count: u64) -> Option<u64>
    requires count { count ≤ MOST_TIMES }
    ensures { IfSome result (λ times. (from.now.snapshot.steps ≤ 3 * times) × (times ≤ MOST_TIMES)) }
{
    if over > count {
        return None;
    }
    let first = first_from(waypoints, 3 * over);
    if first >= waypoints.len() {
        return None;
    }
    let last = (waypoints.len() - 1).min(first + LOOKS);
    let times = waypoints[last].snapshot.steps / 3;
    if times <= count && from.snapshot.steps <= 3 * times {
        Some(times)
    } else {
        None
    }
}

/// The row of a script that doesn't mask by form, beside the plain run of the same program, by a run from a waypoint until it has rejoined the
/// plain run, over whatever devices: they are given the words that the plain run read on the way. None where it doesn't rejoin it soon, or
/// these devices answer something else.
pub(crate) fn row_misled(
    alloc: Global,
    program: &Program<'_>,
    plain: &Plain,
    waypoints: &[Waypoint],
    from: &Waypoint,
    named: &Named,
    devices: &mut Vec<Box<dyn PortDevice>>,
) -> Result<Option<Row>, NoMemory>
    requires program { IsProgram program.now }
    requires script { IsScript named.now }
    requires whole { All (λ w. IsWhole w.snapshot) waypoints.now }
    requires from { IsWhole from.now.snapshot }
    requires distinct { AreDistinct (map device_of devices.old.items) }

    // Of each opening of the program whose waypoints they are, and whose plain run the plain machine has made.
    ensures { IfOk result (λ made. IfSome made (λ row. (first : List device.Device) → HasRunPlainly (opening_over program.now first) program.now.count plain.now
        → All (IsWaypoint (opening_over program.now first) program.now.count) waypoints.now
        → IsWaypoint (opening_over program.now first) program.now.count from.now → AllBeginFrom from.now.snapshot.steps named.now.script
        → masks named.now.script program.now.banks program.now.count ≡ false → row ≡ row_of (opening_over program.now first) program.now.count named.now)) }
{
    resumed_goes_on();
    let over = times_to_the_last(&named.script);
    let Some(times) = times_to_look(waypoints, from, over, program.count) else {
        return Ok(None);
    };
    let words = words_read(alloc, lines_from(plain.log(), from.lines), times)?;
    supply_all(devices, &words)?;
    let script = once_more(alloc, &named.script)?;
    let name = Vec::from_slice(alloc, named.name.items())?;
    row_rejoined(
        alloc,
        program,
        plain,
        waypoints,
        from,
        over,
        Seq::from_vec(name),
        &mut machine_from(alloc, program, from, script, times, devices),
        devices,
    )
}
