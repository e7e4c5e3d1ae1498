//! A study over a tape that fails.
ghost use Rattle.std.specs.Prelude.{◌≡◌, [], ◌∷◌, map, IfOk};
ghost use Rattle.lvdc_port.specs.Devices.{AreDistinct};
ghost use Rattle.lvdc_port.specs.declared.device.Kind.TheVariants.{Tape as TapeKind};

use crate::rows::{bytes, same};
use crate::told::replied;
use lvdc_command_study::study_bytes;
use lvdc_fault::Named;
use lvdc_machine::Snapshot;
use lvdc_plain::Plain;
use lvdc_port::{Failing, PortDevice, Tape};
use lvdc_study::{
    Bench, Program, Row, Unstudied, Waypoint, make_stations, make_waypoints, run_plain,
    study_script,
};
use lvdc_word::NoMemory;
use std::alloc::Global;
use std::process::Abort;
use std::test::Fail;

/// A bench with a tape at port 000, of which the call of this number fails in each run; 0 stands for none.
#[derive(Drop)]
struct OneTape {
    fails: u64,
}

/// The tape of a bench in its first state.
fn one_tape(alloc: Global, fails: u64) -> Result<Vec<Box<dyn PortDevice>>, NoMemory>
    ensures one { IfOk result (λ devices. map device_of devices.items ≡ record { port = 0; kind = TapeKind; state = [] } ∷ []) }
    ensures distinct { IfOk result (λ devices. AreDistinct (map device_of devices.items)) }
{
    let mut devices: Vec<Box<dyn PortDevice>> = Vec::new(alloc);
    let calls = Vec::from_slice(alloc, &[fails])?;
    devices.push(Box::new(alloc, Failing::new(Tape::new(alloc, 0), calls))?)?;
    Ok(devices)
}

impl Bench for OneTape {
    ghost use Rattle.std.specs.Prelude.{true, [], ◌∷◌};
    ghost use Rattle.lvdc_port.specs.declared.device.Kind.TheVariants.{Tape as TapeKind};

    ghost devices = { λ _. record { port = 0; kind = TapeKind; state = [] } ∷ [] };

    ghost may_fail = { λ _. true };

    fn run_plain(&self, alloc: Global, program: &Program<'_>) -> Result<Plain, Unstudied> {
        let mut devices = one_tape(alloc, self.fails)?;
        run_plain(alloc, program, &mut devices)
    }

    fn make_stations(
        &self,
        alloc: Global,
        program: &Program<'_>,
    ) -> Result<Vec<Snapshot>, NoMemory> {
        let mut devices = one_tape(alloc, self.fails)?;
        make_stations(alloc, program, &mut devices)
    }

    fn make_waypoints(
        &self,
        alloc: Global,
        program: &Program<'_>,
        plain: &Plain,
    ) -> Result<Vec<Waypoint>, NoMemory> {
        let mut devices = one_tape(alloc, self.fails)?;
        make_waypoints(alloc, program, plain, &mut devices)
    }

    fn study_script(
        &self,
        alloc: Global,
        program: &Program<'_>,
        plain: &Plain,
        stations: &[Snapshot],
        waypoints: &[Waypoint],
        named: Named,
    ) -> Result<Row, Unstudied> {
        let mut devices = one_tape(alloc, self.fails)?;
        study_script(
            alloc,
            program,
            plain,
            stations,
            waypoints,
            named,
            &mut devices,
        )
    }
}

/// The tape is read twice.
const STUDY: &str =
    "IMAGE\nLVDC 1\n0 00 000 000012400\n0 00 001 000012400\n0 00 002 000010002\nEND\nPORTS\nTAPE 000 5 6\nRUN 3\nCAMPAIGN\nSCRIPT A\n";

/// The study over a tape whose call of this number fails in each run is answered so.
fn comes(rt: &impl Abort, alloc: Global, fails: u64, due: &str) -> Result<(), Fail> {
    let study = bytes(STUDY);
    if study.len() > 1000 {
        return Err("a short study".into());
    }
    let devices = one_tape(alloc, 0)?;
    let reply = study_bytes(alloc, study, &devices, &OneTape { fails })?;
    same(rt, replied(alloc, &reply)?.as_str(), due);
    Ok(())
}

#[test]
fn a_tape_that_never_fails(rt: HostRuntime) -> Result<(), Fail> {
    comes(
        &rt,
        rt.alloc(),
        0,
        "0|SCRIPT A ADMISSIBLE SAME COPIES 0 REPAIRS 0 - FORM YES\nSTUDY 1 ADMISSIBLE 1 SAME 1 FORM 1\n",
    )
}

#[test]
fn a_tape_that_fails_has_its_port_told(rt: HostRuntime) -> Result<(), Fail> {
    comes(&rt, rt.alloc(), 2, "10|DEVICE 000\n")
}
