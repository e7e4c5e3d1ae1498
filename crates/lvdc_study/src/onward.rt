//! A machine that has said something against a step goes on, through every fault, until it has rejoined the plain run.

ghost use Rattle.std.specs.Prelude.{◌≡◌, ◌*◌, ◌%◌, ◌≤◌, ◌<◌, ℕ, true, false, map, List, All, IsTrue, IfOk, IfErr};
ghost use Rattle.lvdc_fault.specs.Events.{IsEvent};
ghost use Rattle.lvdc_fault.specs.declared.TheConstants.{MOST_TIMES};
ghost use Rattle.lvdc_fault.specs.declared.event.Event.{Event};
ghost use Rattle.lvdc_port.specs.Devices.{has_port, AreDistinct};
ghost use Rattle.lvdc_plain.specs.Lists.{AreFit};
ghost use Rattle.lvdc_plain.specs.Run.{Opening};
ghost use Rattle.lvdc_laws_runs.specs.Joined.{AllEndBefore};
ghost use Rattle.lvdc_machine.specs.Onward.{HasRefused};
ghost use Rattle.lvdc_machine.specs.Room.{exchanges_to_come};
ghost use Rattle.lvdc_machine.specs.declared.mode.Mode.TheVariants.{Through};
ghost use Rattle.lvdc_model.specs.Trial.{Trial};
ghost use Rattle.lvdc_snapshot.specs.Snapshot.{IsWhole};
ghost use Rattle.lvdc_runs.specs.Scripts.{trial_under};
ghost use Rattle.lvdc_runs.specs.Ran.{HasRun, HasRunGuarded, HasRunPlainly, NoneFailed};
ghost use Rattle.lvdc_study.specs.Failures.{HasFailed, FailsUnder};
ghost use Rattle.lvdc_study.specs.Rejoins.{GoesOn, TellsRejoined};
ghost use Rattle.lvdc_study.specs.Waypoints.{IsWaypoint};

use crate::rejoin::{has_rejoined, is_near};
use crate::runs::{go_past, run_on};
use crate::{Program, Unstudied, Waypoint};
use lvdc_machine::Machine;
use lvdc_plain::Plain;
use lvdc_port::PortDevice;
use std::alloc::Global;

/// The position of the first waypoint at this step or behind it. Waypoints stand by rising steps, so it is found by halves.
pub(crate) fn first_from(waypoints: &[Waypoint], step: u64) -> usize {
    let mut low = 0;
    let mut high = waypoints.len();
    for _ in 0..64 {
        if low >= high {
            return low;
        }
        let middle = low + (high - low) / 2;
        if waypoints[middle].snapshot.steps < step {
            low = middle + 1;
        } else {
            high = middle;
        }
    }
    low
}

/// The steps of the waypoint at a position, if there is one and it lies ahead; else all.
fn steps_to(waypoints: &[Waypoint], at: usize, made: u64, most: u64) -> u64
    requires whole { All (λ w. IsWhole w.snapshot) waypoints.now }
    requires made { made < most }
    requires most { most % 3 ≡ 0 }
    ensures ahead { made < result }
    ensures within { result ≤ most }
    ensures whole { result % 3 ≡ 0 }
{
    if at < waypoints.len() {
        let there = waypoints[at].snapshot.steps;
        if made < there && there <= most {
            return there;
        }
    }
    most
}

/// Lets a machine that goes through every fault, and has made so many steps, go on from waypoint to waypoint until it has rejoined the plain
/// run there, after so many times, in which the events are over, or to the end. Has it? After a look in vain it goes on as far again before
/// the next one.
fn go_on(
    alloc: Global,
    program: &Program<'_>,
    plain: &Plain,
    waypoints: &[Waypoint],
    over: u64,
    from: u64,
    machine: &mut Machine,
    devices: &mut Vec<Box<dyn PortDevice>>,
) -> Result<bool, Unstudied>
    requires whole { All (λ w. IsWhole w.snapshot) waypoints.now }
    requires times { from % 3 ≡ 0 }
    requires within { from ≤ 3 * machine.old.limit }
    requires most { machine.old.steps ≤ from }
    requires unfailed { NoneFailed machine.old.end }
    requires limit { machine.old.limit ≤ MOST_TIMES }
    requires fit { AreFit device_of spare (exchanges_to_come machine.old) devices.old.items }
    ensures rejoined { IfOk result (λ is. IsTrue is → (p : Opening) (script : List Event) (count : ℕ) → All (IsWaypoint p count) waypoints.now
        → HasRunPlainly p count plain.now → All IsEvent script → AllEndBefore (3 * over) script
        → GoesOn (trial_under p script) from count machine.old (map device_of devices.old.items) → TellsRejoined (trial_under p script) count machine.new) }
    ensures run { IfOk result (λ is. is ≡ false → (o : Trial) (times : ℕ) → GoesOn o from times machine.old (map device_of devices.old.items)
        → HasRun Through o times machine.new) }
    ensures left { (port : ℕ) → has_port device_of port devices.new.items ≡ true → has_port device_of port devices.old.items ≡ true }
    ensures failed { IfErr result (λ e. HasFailed device_of faults e devices.old.items devices.new.items) }
    ensures fails { IfErr result (λ e. (o : Trial) (times : ℕ) → GoesOn o from times machine.old (map device_of devices.old.items) → FailsUnder o times e) }
{
    let most = 3 * machine.limit();
    let first = first_from(waypoints, from.max(3 * over.min(machine.limit())));
    let mut made = from;
    let mut again = first;
    for at in first..waypoints.len() {
        if made >= most {
            return Ok(false);
        }
        let waypoint = &waypoints[at];
        if at >= again && waypoint.snapshot.steps / 3 >= over && is_near(waypoint, machine) {
            if has_rejoined(alloc, plain, waypoint, machine)? {
                return Ok(true);
            }
            again = at.saturating_add(at - first).saturating_add(1);
        }
        let next = steps_to(waypoints, at + 1, made, most);
        match run_on(program, (next - made) / 3, machine, devices) {
            Ok(()) => {}
            Err(e) => return Err(e),
        }
        made = next;
    }
    match run_on(program, (most - made) / 3, machine, devices) {
        Ok(()) => Ok(false),
        Err(e) => Err(e),
    }
}

/// Lets a machine that has said something against a step go on from there, through every fault, over the same devices: until it has rejoined
/// the plain run at a waypoint, after so many times, in which the events are over, or to the end. Has it?
pub(crate) fn go_through(
    alloc: Global,
    program: &Program<'_>,
    plain: &Plain,
    waypoints: &[Waypoint],
    over: u64,
    machine: &mut Machine,
    devices: &mut Vec<Box<dyn PortDevice>>,
) -> Result<bool, Unstudied>
    requires whole { All (λ w. IsWhole w.snapshot) waypoints.now }
    requires refused { HasRefused machine.old }
    requires limit { machine.old.limit ≤ MOST_TIMES }
    requires distinct { AreDistinct (map device_of devices.old.items) }
    ensures rejoined { IfOk result (λ is. IsTrue is → (p : Opening) (script : List Event) (count : ℕ) → All (IsWaypoint p count) waypoints.now
        → HasRunPlainly p count plain.now → All IsEvent script → AllEndBefore (3 * over) script
        → HasRunGuarded (trial_under p script) count machine.old (map device_of devices.old.items) → TellsRejoined (trial_under p script) count machine.new) }
    ensures run { IfOk result (λ is. is ≡ false → (o : Trial) (times : ℕ) → HasRunGuarded o times machine.old (map device_of devices.old.items)
        → HasRun Through o times machine.new) }
    ensures left { (port : ℕ) → has_port device_of port devices.new.items ≡ true → has_port device_of port devices.old.items ≡ true }
    ensures failed { IfErr result (λ e. HasFailed device_of faults e devices.old.items devices.new.items) }
    ensures fails { IfErr result (λ e. (o : Trial) (times : ℕ) → HasRunGuarded o times machine.old (map device_of devices.old.items) → FailsUnder o times e) }
{
    let most = 3 * machine.limit();
    let made = machine.steps();
    let to = steps_to(
        waypoints,
        first_from(waypoints, (made + 1).max(3 * over.min(machine.limit()))),
        made,
        most,
    );
    match go_past(program, to, machine, devices) {
        Ok(()) => {}
        Err(e) => return Err(e),
    }
    go_on(alloc, program, plain, waypoints, over, to, machine, devices)
}
