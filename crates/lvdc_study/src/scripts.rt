//! The rows of a study.

ghost use Rattle.std.specs.Prelude.{◌≡◌, false, All, IfOk, IfErr};
ghost use Rattle.lvdc_runs.specs.Scripts.{IsScript};
ghost use Rattle.lvdc_runs.specs.Ran.{HasRunPlainly};
ghost use Rattle.lvdc_runs.specs.Stations.{IsStation};
ghost use Rattle.lvdc_study.specs.Failures.{FailsInRuns};
ghost use Rattle.lvdc_study.specs.Study.{opening_over, rows_of, IsProgram};
ghost use Rattle.lvdc_study.specs.Waypoints.{IsWaypoint};
ghost use Rattle.lvdc_study.specs.declared.fault.Unstudied.TheVariants.{NoMemory as WantsMemory};

use crate::waypoint::are_worth_waypoints;
use crate::{Bench, Program, Row, Unstudied, Waypoint};
use lvdc_fault::Named;
use lvdc_machine::Snapshot;
use lvdc_plain::Plain;
use lvdc_runs::are_worth_stations;
use lvdc_word::NoMemory;
use std::alloc::Global;

/// The stations of a program for so many scripts; none where they aren't worth a run.
fn stations_for<B: Bench>(
    alloc: Global,
    program: &Program<'_>,
    scripts: usize,
    bench: &B,
) -> Result<Vec<Snapshot>, NoMemory>
    requires program { IsProgram program.now }
    ensures { IfOk result (λ stations. All (IsStation (opening_over program.now (B.devices bench.now)) program.now.count) stations.items) }
{
    if !are_worth_stations(scripts, program.count) {
        return Ok(Vec::new(alloc));
    }
    bench.make_stations(alloc, program)
}

/// The waypoints of a program for so many scripts; none where they aren't worth a run.
fn waypoints_for<B: Bench>(
    alloc: Global,
    program: &Program<'_>,
    plain: &Plain,
    scripts: usize,
    bench: &B,
) -> Result<Vec<Waypoint>, NoMemory>
    requires program { IsProgram program.now }
    requires plain { HasRunPlainly (opening_over program.now (B.devices bench.now)) program.now.count plain.now }
    ensures { IfOk result (λ waypoints. All (IsWaypoint (opening_over program.now (B.devices bench.now)) program.now.count) waypoints.items) }
{
    if !are_worth_waypoints(scripts, program.count) {
        return Ok(Vec::new(alloc));
    }
    bench.make_waypoints(alloc, program, plain)
}

/// Runs a program under each of these scripts, over the devices of a bench. The plain run is made once for all of them, and so are the
/// stations and the waypoints of the fault-free run, where there are many scripts.
pub fn study_scripts<B: Bench>(
    alloc: Global,
    program: &Program<'_>,
    scripts: Vec<Named>,
    bench: &B,
) -> Result<Vec<Row>, Unstudied>
    requires program { IsProgram program.now }
    requires scripts { All IsScript scripts.items }

    // The rows of the scripts, in their order. The orders of latching don't matter.
    ensures rows { IfOk result (λ rows. rows.items ≡ rows_of (opening_over program.now (B.devices bench.now)) program.now.count scripts.items) }
    ensures failed { IfErr result (λ e. FailsInRuns (opening_over program.now (B.devices bench.now)) program.now.count scripts.items e) }

    // Over devices that never fail, only memory is wanting.
    ensures unfailed { IfErr result (λ e. B.may_fail bench.now ≡ false → e ≡ WantsMemory) }
{
    let plain = match bench.run_plain(alloc, program) {
        Ok(plain) => plain,
        Err(e) => return Err(e),
    };
    let stations = stations_for(alloc, program, scripts.len(), bench)?;
    let waypoints = waypoints_for(alloc, program, &plain, scripts.len(), bench)?;
    let mut rows = Vec::with_capacity(alloc, scripts.len())?;
    for named in scripts {
        match bench.study_script(alloc, program, &plain, &stations, &waypoints, named) {
            Ok(row) => rows.push(row)?,
            Err(e) => return Err(e),
        }
    }
    Ok(rows)
}
