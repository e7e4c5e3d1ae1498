//! Whether a run through every fault has rejoined the plain run: it has what the fault-free run has at a waypoint, also where it went on from
//! an earlier one.

ghost use Rattle.std.specs.Prelude.{◌≡◌, ℕ, ◌+◌, ◌*◌, ◌/◌, ◌≤◌, List, All, IsTrue, IfOk, length, drop};
ghost use Rattle.lvdc_port.specs.Device as device;
ghost use Rattle.lvdc_plain.specs.Run.{Opening};
ghost use Rattle.lvdc_fault.specs.Events.{IsEvent};
ghost use Rattle.lvdc_fault.specs.declared.event.Event.{Event};
ghost use Rattle.lvdc_fault.specs.declared.verdict.Verdict.{Verdict};
ghost use Rattle.lvdc_laws_runs.specs.Early.{AllBeginFrom};
ghost use Rattle.lvdc_laws_runs.specs.Joined.{AllEndBefore};
ghost use Rattle.lvdc_snapshot.specs.Snapshot.{IsWhole};
ghost use Rattle.lvdc_runs.specs.Scripts.{trial_under};
ghost use Rattle.lvdc_runs.specs.Ran.{HasRunPlainly};
ghost use Rattle.lvdc_study.specs.Rejoins.{GoesOn, Replays, TellsMisled, TellsRejoined};
ghost use Rattle.lvdc_study.specs.Waypoints.{IsPrefix, IsWaypoint};

use crate::Waypoint;
use crate::replay::{begins_with, lines_from};
use lvdc_machine::{Machine, Snapshot};
use lvdc_map::Placed;
use lvdc_plain::Plain;
use lvdc_runs::{are_same_registers, rejoined_is_same, through_is_guarded};
use lvdc_twin::Held;
use lvdc_word::{NoMemory, Word};
use std::alloc::Global;

/// Are they the same latches?
fn are_same_latches(one: &[Word], other: &[Word]) -> bool
    ensures { IsTrue result → one.now ≡ other.now }
{
    one == other
}

/// Are they the same cells?
fn are_same_cells(one: &[Held], other: &[Held]) -> bool
    ensures { IsTrue result → one.now ≡ other.now }
{
    one == other
}

/// Are they the same words at the same addresses?
fn are_same_words(one: &[Placed], other: &[Placed]) -> bool
    ensures { IsTrue result → one.now ≡ other.now }
{
    one == other
}

/// Have two snapshots the same latches, cells and intended words?
fn are_alike(one: &Snapshot, other: &Snapshot) -> bool
    ensures latches { IsTrue result → one.now.latches ≡ other.now.latches }
    ensures cells { IsTrue result → one.now.cells ≡ other.now.cells }
    ensures words { IsTrue result → one.now.words ≡ other.now.words }
{
    are_same_latches(one.latches.items(), other.latches.items())
        && are_same_cells(one.cells.items(), other.cells.items())
        && are_same_words(one.words.items(), other.words.items())
}

/// Is it worth asking whether a machine has rejoined the plain run at a waypoint, since it has the voted registers that are there?
pub(crate) fn is_near(waypoint: &Waypoint, machine: &Machine) -> bool {
    are_same_registers(&machine.visible(), &waypoint.registers)
}

/// Has a machine that goes through every fault rejoined the plain run at a waypoint?
pub(crate) fn has_rejoined(
    alloc: Global,
    plain: &Plain,
    waypoint: &Waypoint,
    machine: &Machine,
) -> Result<bool, NoMemory>
    requires whole { IsWhole waypoint.now.snapshot }

    // Then it tells what that run comes to, of each program whose waypoint it is, and whose plain run the plain machine has made.
    ensures { IfOk result (λ is. IsTrue is → (p : Opening) (script : List Event) (count steps : ℕ) (left : List device.Device)
        → IsWaypoint p count waypoint.now → HasRunPlainly p count plain.now → All IsEvent script → AllEndBefore waypoint.now.snapshot.steps script
        → GoesOn (trial_under p script) steps count machine.now left → TellsRejoined (trial_under p script) count machine.now) }
{
    rejoined_is_same();
    lvdc_laws_voted::judges_alone();
    lvdc_laws_voted::no_faults_no_verdict();
    lvdc_laws_voted::guarded_times();
    lvdc_laws_voted::ports_match();
    if machine.ended().is_some() || machine.steps() != waypoint.snapshot.steps {
        return Ok(false);
    }
    if machine.log().len() != waypoint.lines || !begins_with(plain.log(), machine.log()) {
        return Ok(false);
    }
    let now = machine.snapshot(alloc)?;
    Ok(are_alike(&now, &waypoint.snapshot))
}

/// Is the log of a machine that began at a waypoint that of the plain run from there up to a later one?
pub(crate) fn is_along(
    plain: &Plain,
    from: &Waypoint,
    waypoint: &Waypoint,
    machine: &Machine,
) -> bool
    ensures lines { IsTrue result → from.now.lines + length machine.now.log ≡ waypoint.now.lines }
    ensures prefix { IsTrue result → IsPrefix machine.now.log (drop from.now.lines plain.now.log) }
{
    if waypoint.lines < from.lines || machine.log().len() != waypoint.lines - from.lines {
        return false;
    }
    begins_with(lines_from(plain.log(), from.lines), machine.log())
}

/// Has a machine that began at a waypoint, and whose log is that of the plain run from there on, rejoined the plain run at a later one?
pub(crate) fn has_rejoined_along(
    alloc: Global,
    plain: &Plain,
    from: &Waypoint,
    waypoint: &Waypoint,
    machine: &Machine,
) -> Result<bool, NoMemory>
    requires whole { IsWhole waypoint.now.snapshot }
    requires lines { from.now.lines + length machine.now.log ≡ waypoint.now.lines }
    requires prefix { IsPrefix machine.now.log (drop from.now.lines plain.now.log) }

    // Then it tells what the run of its script comes to, of each program whose waypoints they are, and whose plain run the plain machine
    // has made.
    ensures { IfOk result (λ is. IsTrue is → (p : Opening) (script : List Event) (count n : ℕ) (said : Verdict) (devices left : List device.Device)
        (at : IsWaypoint p count from.now) → IsWaypoint p count waypoint.now → HasRunPlainly p count plain.now → All IsEvent script
        → AllBeginFrom from.now.snapshot.steps script → AllEndBefore waypoint.now.snapshot.steps script
        → from.now.snapshot.steps + n ≡ waypoint.now.snapshot.steps
        → Replays (trial_under p script) (record at.state { devices = devices }) n said machine.now left → TellsMisled (trial_under p script) count said machine.now) }
{
    lvdc_laws_runs::machines_may_begin_late();
    lvdc_laws_runs::joined_runs_stay_joined();
    lvdc_laws_runs::spared_memory_stores_words();
    lvdc_laws_voted::guarded_run();
    lvdc_laws_voted::guarded_times();
    lvdc_laws_voted::judges_alone();
    lvdc_laws_voted::no_faults_no_verdict();
    lvdc_laws_voted::ports_match();
    rejoined_is_same();
    through_is_guarded();
    if !is_near(waypoint, machine) {
        return Ok(false);
    }
    if machine.steps() != waypoint.snapshot.steps || machine.ended().is_some() {
        return Ok(false);
    }
    let now = machine.snapshot(alloc)?;
    Ok(are_alike(&now, &waypoint.snapshot))
}
