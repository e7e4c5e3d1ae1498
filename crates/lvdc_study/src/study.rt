//! The row of a script.

ghost use Rattle.std.specs.Prelude.{◌≡◌, [], ◌∷◌, replicate, map, true, All, OnOk, IfOk, IfErr};
ghost use Rattle.lvdc_fault.specs.declared.verdict.Verdict.TheVariants as verdicts;
ghost use Rattle.lvdc_withstands.specs.Form.{masks};
ghost use Rattle.lvdc_port.specs.Devices.{AreDistinct};
ghost use Rattle.lvdc_plain.specs.Run.{IsOpening};
ghost use Rattle.std.specs.declared.option.Option.TheVariants.{None};
ghost use Rattle.lvdc_runs.specs.Scripts.{trial_under, IsScript};
ghost use Rattle.lvdc_runs.specs.Ran.{HasRunPlainly};
ghost use Rattle.lvdc_runs.specs.Stations.{IsStation};
ghost use Rattle.lvdc_study.specs.Failures.{HasFailed, FailsUnder};
ghost use Rattle.lvdc_study.specs.Study.{opening_over, IsProgram, first_step, row_with, row_of};
ghost use Rattle.lvdc_study.specs.Waypoints.{IsWaypoint};

use crate::compare::first_difference;
use crate::late::run_near;
use crate::laws::{admissible_comes_to_the_same, judged_goes_through};
use crate::onward::go_through;
use crate::{Difference, Program, Row, Unstudied, Waypoint};
use lvdc_fault::{Named, Script, Verdict};
use lvdc_machine::{Machine, Snapshot};
use lvdc_map::{is_hop_constant, places_words};
use lvdc_model::Repair;
use lvdc_plain::Plain;
use lvdc_port::{PortDevice, prepare_all, supplies_words, words_stay};
use lvdc_report::all_counts;
use lvdc_runs::{
    is_admissible, through_is_shown, times_to_the_last, verdict_of, window_of, window_tells_all,
};
use lvdc_withstands::{first_unmet, form_masks};
use lvdc_word::{NoMemory, Seq};
use std::alloc::Global;

/// The step of the first repair.
fn first_step(repairs: &[Repair]) -> Option<u64>
    ensures { result ≡ first_step repairs.now }
{
    let repair = repairs.first()?;
    Some(repair.step)
}

/// The row of a name, with what a machine counted and repaired.
pub(crate) fn row_with(
    name: Seq<u8>,
    verdict: Verdict,
    difference: Option<Difference>,
    machine: &Machine,
    masks: bool,
) -> Row
    ensures { result ≡ row_with name verdict difference machine.now.counts machine.now.repairs masks }
{
    let repairs = machine.repairs();
    Row {
        name,
        verdict,
        difference,
        copies: all_counts(machine),
        repairs: repairs.len() as u64,
        first_repair: first_step(repairs),
        masks,
    }
}

/// The row of a name whose script has no event in the run.
fn idle_row(name: Seq<u8>, masks: bool) -> Row
    ensures { result ≡ row_with name verdicts.Admissible None (replicate 7 (0 ∷ 0 ∷ 0 ∷ [])) [] masks }
{
    Row {
        name,
        verdict: Verdict::Admissible,
        difference: None,
        copies: 0,
        repairs: 0,
        first_repair: None,
        masks,
    }
}

/// Over these devices, which hold words, a program opens with words and a HOP constant. They hold what they held.
fn opens_with_words(
    program: &Program<'_>,
    devices: &mut Vec<Box<dyn PortDevice>>,
) -> Result<(), NoMemory>
    ensures { OnOk result (IsOpening (opening_over program.now (map device_of devices.old.items))) }
{
    places_words(program.image);
    supplies_words(program.supplies);
    is_hop_constant(program.start);
    words_stay();
    prepare_all(devices, 0)
}

/// Whether a script masks by form in the run of a program.
pub(crate) fn masks(alloc: Global, program: &Program<'_>, script: &Script) -> Result<bool, NoMemory>
    ensures { IfOk result (λ answer. answer ≡ masks script.now program.now.banks program.now.count) }
{
    let unmet = first_unmet(alloc, script, program.banks, program.count)?;
    Ok(unmet.is_none())
}

/// The row of a script, beside the plain run of the same program, over devices in their first states. The machine that judges makes the
/// times from the last station before the first event up to the last event, or all that are left where an event is on memory; where the
/// script isn't admissible it goes on from there, through every fault, until it has rejoined the plain run at a waypoint. Where no event is
/// in the run, no machine is made.
pub fn study_script(
    alloc: Global,
    program: &Program<'_>,
    plain: &Plain,
    stations: &[Snapshot],
    waypoints: &[Waypoint],
    named: Named,
    devices: &mut Vec<Box<dyn PortDevice>>,
) -> Result<Row, Unstudied>
    requires program { IsProgram program.now }
    requires plain { HasRunPlainly (opening_over program.now (map device_of devices.old.items)) program.now.count plain.now }
    requires stations { All (IsStation (opening_over program.now (map device_of devices.old.items)) program.now.count) stations.now }
    requires waypoints { All (IsWaypoint (opening_over program.now (map device_of devices.old.items)) program.now.count) waypoints.now }
    requires script { IsScript named }
    requires distinct { AreDistinct (map device_of devices.old.items) }

    // The row of the definition. The orders of latching don't matter.
    ensures row { IfOk result (λ row. row ≡ row_of (opening_over program.now (map device_of devices.old.items)) program.now.count named) }

    // Each admissible script comes to what the plain run comes to, and one that masks by form is admissible.
    ensures same { IfOk result (λ row. row.verdict ≡ verdicts.Admissible → row.difference ≡ None) }
    ensures form { IfOk result (λ row. row.masks ≡ true → row.verdict ≡ verdicts.Admissible) }
    ensures failed { IfErr result (λ e. HasFailed device_of faults e devices.old.items devices.new.items) }
    ensures fails { IfErr result (λ e. FailsUnder (trial_under (opening_over program.now (map device_of devices.old.items)) named.script) program.now.count e) }
{
    admissible_comes_to_the_same();
    form_masks();
    judged_goes_through();
    through_is_shown();
    window_tells_all();
    let Named { name, script } = named;
    let masks = masks(alloc, program, &script)?;
    let times = window_of(&script, program.count);
    if times == 0 {
        opens_with_words(program, devices)?;
        return Ok(idle_row(name, masks));
    }
    let over = times_to_the_last(&script);
    let mut machine = run_near(alloc, program, stations, waypoints, script, times, devices)?;
    let verdict = verdict_of(&machine);
    if is_admissible(&verdict) {
        return Ok(row_with(name, verdict, None, &machine, masks));
    }
    match go_through(
        alloc,
        program,
        plain,
        waypoints,
        over,
        &mut machine,
        devices,
    ) {
        Ok(true) => return Ok(row_with(name, verdict, None, &machine, masks)),
        Ok(false) => {}
        Err(e) => return Err(e),
    }
    let difference = first_difference(&machine, plain);
    Ok(row_with(name, verdict, difference, &machine, masks))
}
