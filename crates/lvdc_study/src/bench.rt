//! Who runs a program over devices of its own.

ghost use Rattle.std.specs.Prelude.{◌≡◌, Bool, false, All, List, IfOk, IfErr};
ghost use Rattle.lvdc_port.specs.Device.{Device};
ghost use Rattle.lvdc_runs.specs.Scripts.{trial_under, IsScript};
ghost use Rattle.lvdc_runs.specs.Ran.{HasRunPlainly};
ghost use Rattle.lvdc_runs.specs.Stations.{IsStation};
ghost use Rattle.lvdc_study.specs.Failures.{FailsUnder, FailsPlainly};
ghost use Rattle.lvdc_study.specs.Study.{opening_over, IsProgram, row_of};
ghost use Rattle.lvdc_study.specs.Waypoints.{IsWaypoint};
ghost use Rattle.lvdc_study.specs.declared.fault.Unstudied.TheVariants.{NoMemory as WantsMemory};

use crate::{Program, Row, Unstudied, Waypoint};
use lvdc_fault::Named;
use lvdc_machine::Snapshot;
use lvdc_plain::Plain;
use lvdc_word::NoMemory;
use std::alloc::Global;

/// A bench on which programs are run: each run has devices of its own there, in their first states.
pub trait Bench {
    // The devices in their first states.
    ghost devices: { Self → List Device };

    // Whether one of them may fail.
    ghost may_fail: { Self → Bool };

    /// The plain machine after the times of a program.
    fn run_plain(&self, alloc: Global, program: &Program<'_>) -> Result<Plain, Unstudied>
        requires { IsProgram program.now }
        ensures run { IfOk result (λ plain. HasRunPlainly (opening_over program.now (devices self.now)) program.now.count plain) }
        ensures failed { IfErr result (λ e. FailsPlainly (opening_over program.now (devices self.now)) program.now.count e) }

        // Where none may fail, only memory is wanting.
        ensures unfailed { IfErr result (λ e. may_fail self.now ≡ false → e ≡ WantsMemory) };

    /// Stations of the fault-free run of a program, from which the runs of its scripts may go on.
    fn make_stations(&self, alloc: Global, program: &Program<'_>) -> Result<Vec<Snapshot>, NoMemory>
        requires { IsProgram program.now }
        ensures { IfOk result (λ stations. All (IsStation (opening_over program.now (devices self.now)) program.now.count) stations.items) };

    /// Waypoints of a program, whose plain run was made.
    fn make_waypoints(
        &self,
        alloc: Global,
        program: &Program<'_>,
        plain: &Plain,
    ) -> Result<Vec<Waypoint>, NoMemory>
        requires program { IsProgram program.now }
        requires plain { HasRunPlainly (opening_over program.now (devices self.now)) program.now.count plain.now }
        ensures { IfOk result (λ waypoints. All (IsWaypoint (opening_over program.now (devices self.now)) program.now.count) waypoints.items) };

    /// The row of a script, beside the plain run of the same program. Its run may go on from a station or a waypoint of that program.
    fn study_script(
        &self,
        alloc: Global,
        program: &Program<'_>,
        plain: &Plain,
        stations: &[Snapshot],
        waypoints: &[Waypoint],
        named: Named,
    ) -> Result<Row, Unstudied>
        requires program { IsProgram program.now }
        requires plain { HasRunPlainly (opening_over program.now (devices self.now)) program.now.count plain.now }
        requires stations { All (IsStation (opening_over program.now (devices self.now)) program.now.count) stations.now }
        requires waypoints { All (IsWaypoint (opening_over program.now (devices self.now)) program.now.count) waypoints.now }
        requires script { IsScript named }
        ensures row { IfOk result (λ row. row ≡ row_of (opening_over program.now (devices self.now)) program.now.count named) }
        ensures failed { IfErr result (λ e. FailsUnder (trial_under (opening_over program.now (devices self.now)) named.script) program.now.count e) }
        ensures unfailed { IfErr result (λ e. may_fail self.now ≡ false → e ≡ WantsMemory) };
}
