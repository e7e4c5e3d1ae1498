//! Runs from waypoints, over devices that answer what the plain run read.

ghost use Rattle.std.specs.Prelude.{◌≡◌, ℕ, ◌+◌, ◌*◌, ◌/◌, ◌≤◌, List, All, IsTrue, IfOk, IfSome, None, length, map, drop};
ghost use Rattle.lvdc_port.specs.Devices.{AreDistinct};
ghost use Rattle.lvdc_plain.specs.Lists.{AreFit};
ghost use Rattle.lvdc_plain.specs.Run.{Opening};
ghost use Rattle.lvdc_fault.specs.Events.{IsEvent};
ghost use Rattle.lvdc_fault.specs.declared.TheConstants.{MOST_EVENTS, MOST_TIMES};
ghost use Rattle.lvdc_fault.specs.declared.verdict.Verdict.TheVariants.{Admissible};
ghost use Rattle.lvdc_laws_runs.specs.Early.{AllBeginFrom};
ghost use Rattle.lvdc_machine.specs.Calls.{IsFresh};
ghost use Rattle.lvdc_machine.specs.Resumed.{StandsFrom};
ghost use Rattle.lvdc_machine.specs.Room.{exchanges_to_come};
ghost use Rattle.lvdc_machine.specs.Steps.{Keeps};
ghost use Rattle.lvdc_machine.specs.declared.mode.Mode.TheVariants.{Guarded};
ghost use Rattle.lvdc_machine.specs.declared.mode.Pace.TheVariants.{ByStep};
ghost use Rattle.lvdc_fault.specs.declared.event.Event.{Event};
ghost use Rattle.lvdc_model.specs.Trial.{Trial};
ghost use Rattle.lvdc_model.specs.Voted.{Voted};
ghost use Rattle.lvdc_model.specs.Judging.{first_bad};
ghost use Rattle.lvdc_snapshot.specs.Snapshot.{IsWhole, Means};
ghost use Rattle.lvdc_runs.specs.Scripts.{trial_under};
ghost use Rattle.lvdc_runs.specs.Ran.{HasRunPlainly};
ghost use Rattle.lvdc_study.specs.Study.{opening_over, IsProgram};
ghost use Rattle.lvdc_study.specs.Waypoints.{IsPrefix, IsWaypoint, HasReplayed, words_read};

use crate::Program;
use crate::waypoint::{Waypoint, spacing, waypoint_of};
use lvdc_fault::Script;
use lvdc_laws_runs::machines_may_begin_late;
use lvdc_machine::{Machine, Mode, Orders, resumed_goes_on};
use lvdc_plain::{Exchange, Plain};
use lvdc_port::{PortDevice, Supply, supply_all};
use lvdc_word::NoMemory;
use std::alloc::Global;

/// The lines of a log from a position on; none past its end.
pub(crate) fn lines_from(log: &[Exchange], from: usize) -> &[Exchange]
    ensures { result.now ≡ drop from log.now }
{
    if from > log.len() {
        return &[];
    }
    &log[from..]
}

/// Does a log begin with these lines?
pub(crate) fn begins_with(log: &[Exchange], lines: &[Exchange]) -> bool
    ensures { IsTrue result → IsPrefix lines.now log.now }
{
    log.strip_prefix(lines).is_some()
}

/// The words that were read before so many times, by the lines of a log.
pub(crate) fn words_read(
    alloc: Global,
    log: &[Exchange],
    times: u64,
) -> Result<Vec<Supply>, NoMemory>
    ensures { IfOk result (λ words. words.items ≡ words_read times log.now) }
{
    let mut words = Vec::new(alloc);
    for line in log {
        if line.time >= times {
            return Ok(words);
        }
        if line.reading {
            words.push(Supply {
                port: line.port,
                word: line.word,
            })?;
        }
    }
    Ok(words)
}

/// A script once more.
pub(crate) fn once_more(alloc: Global, script: &Script) -> Result<Script, NoMemory>
    ensures { IfOk result (λ copy. copy ≡ script.now) }
{
    let mut copy = Script::new(alloc);
    for at in 0..script.len() {
        copy.push(*script.event(at))?;
    }
    Ok(copy)
}

/// A machine that judges, at a waypoint, under a script that begins there or later, for so many times in all, over whatever devices.
pub(crate) fn machine_from(
    alloc: Global,
    program: &Program<'_>,
    from: &Waypoint,
    script: Script,
    times: u64,
    devices: &mut Vec<Box<dyn PortDevice>>,
) -> Result<Machine, NoMemory>
    requires whole { IsWhole from.now.snapshot }
    requires ahead { from.now.snapshot.steps ≤ 3 * times }
    requires limit { times ≤ MOST_TIMES }
    requires few { length script ≤ MOST_EVENTS }
    requires events { All IsEvent script }
    requires distinct { AreDistinct (map device_of devices.old.items) }

    // It stands where the run from a state begins that the waypoint means, with these devices.
    ensures stands { IfOk result (λ machine. (o : Trial) (v : Voted) → o.script ≡ script → o.opening.unplugs ≡ program.now.unplugs.now
        → o.opening.banks ≡ from.now.snapshot.banks → Means from.now.snapshot v → v.devices ≡ map device_of devices.old.items
        → StandsFrom o v 0 machine (map device_of devices.new.items)) }
    ensures fresh { IfOk result (IsFresh Guarded ByStep times from.now.snapshot.steps) }
    ensures fit { IfOk result (λ machine. AreFit device_of spare (exchanges_to_come machine) devices.new.items) }
    ensures devices { map device_of devices.new.items ≡ map device_of devices.old.items }
{
    let unplugs = Vec::from_slice(alloc, program.unplugs)?;
    let snapshot = from.snapshot.once_more(alloc)?;
    Machine::from_snapshot(alloc, snapshot, script, unplugs, times, devices)
}

/// Makes so many times in all of a machine that stands at a waypoint. Have all been made, and is its log that of the plain run from the
/// waypoint on? Then whatever the devices hold, they have answered what the plain run read.
pub(crate) fn goes_along(
    orders: &Orders,
    plain: &Plain,
    from: &Waypoint,
    times: u64,
    machine: &mut Machine,
    devices: &mut Vec<Box<dyn PortDevice>>,
) -> bool
    requires whole { IsWhole from.now.snapshot }
    requires ahead { from.now.snapshot.steps ≤ 3 * times }
    requires fresh { IsFresh Guarded ByStep times from.now.snapshot.steps machine.old }
    requires fit { AreFit device_of spare (exchanges_to_come machine.old) devices.old.items }

    // Of each program whose waypoint it is, and whose plain run the plain machine has made.
    ensures replayed { IsTrue result → (p : Opening) (script : List Event) (count : ℕ) (at : IsWaypoint p count from.now) → times ≤ count
        → HasRunPlainly p count plain.now → AllBeginFrom from.now.snapshot.steps script → first_bad (trial_under p script) times ≡ Admissible
        → StandsFrom (trial_under p script) (record at.state { devices = map device_of devices.old.items }) 0 machine.old (map device_of devices.old.items)
        → HasReplayed (trial_under p script) times from.now.lines machine.new }
    ensures end { IsTrue result → machine.new.end ≡ None }
    ensures steps { IsTrue result → (o : Trial) (v : Voted) → v.steps ≡ from.now.snapshot.steps
        → StandsFrom o v 0 machine.old (map device_of devices.old.items) → machine.new.steps ≡ 3 * times }
    ensures keeps { Keeps machine.old machine.new }
    ensures distinct { AreDistinct (map device_of devices.new.items) }
{
    machines_may_begin_late();
    lvdc_laws_voted::no_faults_no_verdict();
    lvdc_laws_voted::judges_alone();
    lvdc_laws_voted::guarded_times();
    lvdc_laws_voted::ports_match();
    machine.run(orders, times - from.snapshot.steps / 3, devices);
    if machine.ended().is_some() {
        return false;
    }
    begins_with(lines_from(plain.log(), from.lines), machine.log())
}

/// The waypoint so many times on; none where the fault-free run has ended before it.
fn next_waypoint(
    alloc: Global,
    program: &Program<'_>,
    plain: &Plain,
    from: &Waypoint,
    every: u64,
    devices: &mut Vec<Box<dyn PortDevice>>,
) -> Result<Option<Waypoint>, NoMemory>
    requires whole { IsWhole from.now.snapshot }
    requires within { from.now.snapshot.steps / 3 + every ≤ MOST_TIMES }
    requires distinct { AreDistinct (map device_of devices.old.items) }
    ensures waypoint { IfOk result (λ next. IfSome next (λ w. (p : Opening) (count : ℕ) → IsWaypoint p count from.now
        → p.unplugs ≡ program.now.unplugs.now → from.now.snapshot.steps / 3 + every ≤ count → HasRunPlainly p count plain.now → IsWaypoint p count w)) }
    ensures whole { IfOk result (λ next. IfSome next (λ w. IsWhole w.snapshot)) }
    ensures steps { IfOk result (λ next. IfSome next (λ w. w.snapshot.steps ≡ 3 * (from.now.snapshot.steps / 3 + every))) }
    ensures distinct { AreDistinct (map device_of devices.new.items) }
{
    resumed_goes_on();
    lvdc_laws_voted::no_faults_no_verdict();
    lvdc_laws_voted::judges_alone();
    let times = from.snapshot.steps / 3 + every;
    let script = Script::new(alloc);
    let mut machine = match machine_from(alloc, program, from, script, times, devices) {
        Ok(machine) => machine,
        Err(NoMemory) => return Err(NoMemory),
    };
    if !goes_along(program.orders, plain, from, times, &mut machine, devices) {
        return Ok(None);
    }
    if from.lines > plain.log().len() {
        return Ok(None);
    }
    let lines = from.lines + machine.log().len();
    let waypoint = waypoint_of(alloc, &machine, lines)?;
    Ok(Some(waypoint))
}

/// The waypoint before the first step of a program, over devices in their first states, which are given the words of the tapes.
fn first_waypoint(
    alloc: Global,
    program: &Program<'_>,
    devices: &mut Vec<Box<dyn PortDevice>>,
) -> Result<Waypoint, NoMemory>
    requires program { IsProgram program.now }
    requires distinct { AreDistinct (map device_of devices.old.items) }
    ensures waypoint { IfOk result (IsWaypoint (opening_over program.now (map device_of devices.old.items)) program.now.count) }
    ensures whole { IfOk result (λ w. IsWhole w.snapshot) }
    ensures steps { IfOk result (λ w. w.snapshot.steps ≡ 0) }
    ensures distinct { AreDistinct (map device_of devices.new.items) }
{
    supply_all(devices, program.supplies)?;
    let unplugs = Vec::from_slice(alloc, program.unplugs)?;
    let machine = Machine::new(
        alloc,
        program.image,
        program.banks,
        program.start,
        Script::new(alloc),
        unplugs,
        Mode::Guarded,
        program.count,
        devices,
    )?;
    let waypoint = waypoint_of(alloc, &machine, 0)?;
    Ok(waypoint)
}

/// The waypoints of a program, over devices in their first states, evenly spread over its times up to the end of its run.
pub fn make_waypoints(
    alloc: Global,
    program: &Program<'_>,
    plain: &Plain,
    devices: &mut Vec<Box<dyn PortDevice>>,
) -> Result<Vec<Waypoint>, NoMemory>
    requires program { IsProgram program.now }
    requires plain { HasRunPlainly (opening_over program.now (map device_of devices.old.items)) program.now.count plain.now }
    requires distinct { AreDistinct (map device_of devices.old.items) }
    ensures { IfOk result (λ waypoints. All (IsWaypoint (opening_over program.now (map device_of devices.old.items)) program.now.count) waypoints.items) }
{
    let every = spacing(program);
    let mut waypoints = Vec::new(alloc);
    let mut last = first_waypoint(alloc, program, devices)?;
    let mut times = 0;
    for _ in 0..program.count / every {
        if program.count - times < every {
            break;
        }
        let next = next_waypoint(alloc, program, plain, &last, every, devices)?;
        waypoints.push(last)?;
        match next {
            Some(waypoint) => last = waypoint,
            None => return Ok(waypoints),
        }
        times += every;
    }
    waypoints.push(last)?;
    Ok(waypoints)
}
