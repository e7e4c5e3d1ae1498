ghost use Rattle.std.specs.Prelude.{◌≡◌, List, All, IfOk, IfSome};
ghost use Rattle.lvdc_port.specs.Device.{Device};
ghost use Rattle.lvdc_snapshot.specs.Snapshot.{IsWhole};
ghost use Rattle.lvdc_runs.specs.Scripts.{IsScript};
ghost use Rattle.lvdc_runs.specs.Ran.{HasRunPlainly};
ghost use Rattle.lvdc_study.specs.Study.{opening_over, IsProgram, row_of};
ghost use Rattle.lvdc_study.specs.Waypoints.{IsWaypoint};

use lvdc_fault::Named;
use lvdc_machine::Snapshot;
use lvdc_plain::Plain;
use lvdc_study::{
    Bench, Program, Row, Unstudied, Waypoint, make_stations, make_waypoints, run_plain,
    study_apart, study_script,
};
use lvdc_word::NoMemory;
use std::alloc::Global;

/// The row of a script from a waypoint, where one can be told so.
fn study_apart_alone(
    alloc: Global,
    program: &Program<'_>,
    plain: &Plain,
    waypoints: &[Waypoint],
    named: &Named,
) -> Result<Option<Row>, NoMemory>
    requires program { IsProgram program.now }
    requires script { IsScript named.now }
    requires whole { All (λ w. IsWhole w.snapshot) waypoints.now }
    ensures { IfOk result (λ made. IfSome made (λ row. (first : List Device) → HasRunPlainly (opening_over program.now first) program.now.count plain.now
        → All (IsWaypoint (opening_over program.now first) program.now.count) waypoints.now → row ≡ row_of (opening_over program.now first) program.now.count named.now)) }
{
    let mut devices = Vec::new(alloc);
    study_apart(alloc, program, plain, waypoints, named, &mut devices)
}

/// So many scripts, at least, are worth waypoints in a campaign.
const MANY: usize = 16;

/// For each script there are so many instruction times of the program, at most, where they are.
const TIMES: usize = 64;

/// The bench of a campaign of so many scripts: no run has a device. Without devices a run from a station is cheap, so that only many scripts
/// are worth the waypoints.
#[derive(Drop)]
pub(crate) struct NoDevices {
    pub(crate) scripts: usize,
}

impl Bench for NoDevices {
    ghost use Rattle.std.specs.Prelude.{[], false};

    ghost devices = { λ _. [] };

    ghost may_fail = { λ _. false };

    fn run_plain(&self, alloc: Global, program: &Program<'_>) -> Result<Plain, Unstudied> {
        let mut devices = Vec::new(alloc);
        run_plain(alloc, program, &mut devices)
    }

    fn make_stations(
        &self,
        alloc: Global,
        program: &Program<'_>,
    ) -> Result<Vec<Snapshot>, NoMemory> {
        let mut devices = Vec::new(alloc);
        make_stations(alloc, program, &mut devices)
    }

    fn make_waypoints(
        &self,
        alloc: Global,
        program: &Program<'_>,
        plain: &Plain,
    ) -> Result<Vec<Waypoint>, NoMemory> {
        if self.scripts < MANY || self.scripts < program.count as usize / TIMES {
            return Ok(Vec::new(alloc));
        }
        let mut devices = Vec::new(alloc);
        make_waypoints(alloc, program, plain, &mut devices)
    }

    fn study_script(
        &self,
        alloc: Global,
        program: &Program<'_>,
        plain: &Plain,
        stations: &[Snapshot],
        waypoints: &[Waypoint],
        named: Named,
    ) -> Result<Row, Unstudied> {
        if let Some(row) = study_apart_alone(alloc, program, plain, waypoints, &named)? {
            return Ok(row);
        }
        let mut devices = Vec::new(alloc);
        study_script(
            alloc,
            program,
            plain,
            stations,
            waypoints,
            named,
            &mut devices,
        )
    }
}
