//! Runs of one program, each over devices in their first states.

ghost use Rattle.std.specs.Prelude.{◌≡◌, ◌+◌, ◌*◌, ◌≤◌, ◌<◌, ℕ, true, length, map, All, OnOk, IfOk, IfErr, MatchOption};
ghost use Rattle.lvdc_fault.specs.Events.{IsEvent};
ghost use Rattle.lvdc_port.specs.Devices.{has_port, AreDistinct};
ghost use Rattle.lvdc_plain.specs.Lists.{Since, AreFit};
ghost use Rattle.lvdc_plain.specs.Run.{run};
ghost use Rattle.lvdc_machine.specs.Onward.{HasRefused};
ghost use Rattle.lvdc_machine.specs.Room.{exchanges_to_come};
ghost use Rattle.lvdc_model.specs.Trial.{Trial};
ghost use Rattle.lvdc_fault.specs.declared.TheConstants.{MOST_EVENTS};
ghost use Rattle.lvdc_runs.specs.Scripts.{trial_under};
ghost use Rattle.lvdc_runs.specs.Ran.{HasRunPlainly, HasRunGuarded, HasRunWithin, NoneFailed, NonePlainlyFailed};
ghost use Rattle.lvdc_study.specs.Failures.{HasFailed, FailsUnder, FailsPlainly, EndsIn, EndsPlainlyIn};
ghost use Rattle.lvdc_study.specs.Rejoins.{GoesOn};
ghost use Rattle.lvdc_study.specs.Study.{opening_over, IsProgram};

use crate::{Program, Unstudied};
use lvdc_fault::Script;
use lvdc_machine::{Machine, Mode, Outcome};
use lvdc_plain::{Plain, PlainEnd};
use lvdc_port::{PortDevice, supply_all};
use lvdc_runs::plain_machine_has_run;
use lvdc_word::NoMemory;
use std::alloc::Global;

/// The port of the device whose failure is the end, if it is one.
pub(crate) fn failed_port(machine: &Machine) -> Option<u8>
    ensures { MatchOption result (NoneFailed machine.now.end) (λ port. EndsIn machine.now.end port) }
{
    match machine.ended() {
        Some(Outcome::Device { port, .. }) => Some(port),
        _ => None,
    }
}

/// The same of the plain machine.
fn plainly_failed_port(plain: &Plain) -> Option<u8>
    ensures { MatchOption result (NonePlainlyFailed plain.now.end) (λ port. EndsPlainlyIn plain.now.end port) }
{
    match plain.end() {
        Some(PlainEnd::Device { port, .. }) => Some(port),
        _ => None,
    }
}

/// The plain machine after the times of a program, over devices in their first states, which it brings to where the plain run has them.
pub fn run_plain(
    alloc: Global,
    program: &Program<'_>,
    devices: &mut Vec<Box<dyn PortDevice>>,
) -> Result<Plain, Unstudied>
    requires program { IsProgram program.now }
    requires distinct { AreDistinct (map device_of devices.old.items) }
    ensures run { IfOk result (λ plain. HasRunPlainly (opening_over program.now (map device_of devices.old.items)) program.now.count plain) }
    ensures brought { OnOk result (map device_of devices.new.items ≡ (run (opening_over program.now (map device_of devices.old.items)) program.now.count).devices) }
    ensures distinct { OnOk result (AreDistinct (map device_of devices.new.items)) }
    ensures since { OnOk result (Since device_of faults devices.old.items devices.new.items) }
    ensures failed { IfErr result (λ e. HasFailed device_of faults e devices.old.items devices.new.items) }
    ensures fails { IfErr result (λ e. FailsPlainly (opening_over program.now (map device_of devices.old.items)) program.now.count e) }
{
    plain_machine_has_run();
    supply_all(devices, program.supplies)?;
    let unplugs = Vec::from_slice(alloc, program.unplugs)?;
    let mut plain = Plain::new(
        alloc,
        program.image,
        program.banks,
        program.start,
        unplugs,
        program.count,
        devices,
    )?;
    plain.run(program.count, devices);
    match plainly_failed_port(&plain) {
        Some(port) => Err(Unstudied::Device(port)),
        None => Ok(plain),
    }
}

/// The voted machine that judges, after so many of the times of a program under a script, over devices in their first states.
pub(crate) fn run_script(
    alloc: Global,
    program: &Program<'_>,
    script: Script,
    times: u64,
    devices: &mut Vec<Box<dyn PortDevice>>,
) -> Result<Machine, Unstudied>
    requires program { IsProgram program.now }
    requires within { times ≤ program.now.count }
    requires few { length script ≤ MOST_EVENTS }
    requires events { All IsEvent script }
    requires distinct { AreDistinct (map device_of devices.old.items) }
    ensures judged { IfOk result (λ machine. HasRunWithin (trial_under (opening_over program.now (map device_of devices.old.items)) script) times program.now.count machine
        (map device_of devices.new.items)) }
    ensures since { OnOk result (Since device_of faults devices.old.items devices.new.items) }
    ensures failed { IfErr result (λ e. HasFailed device_of faults e devices.old.items devices.new.items) }
    ensures fails { IfErr result (λ e. FailsUnder (trial_under (opening_over program.now (map device_of devices.old.items)) script) times e) }
{
    supply_all(devices, program.supplies)?;
    let unplugs = Vec::from_slice(alloc, program.unplugs)?;
    let mut machine = Machine::new(
        alloc,
        program.image,
        program.banks,
        program.start,
        script,
        unplugs,
        Mode::Guarded,
        program.count,
        devices,
    )?;
    machine.run(program.orders, times, devices);
    match failed_port(&machine) {
        Some(port) => Err(Unstudied::Device(port)),
        None => Ok(machine),
    }
}

/// Lets a machine that has said something against a step go on with it, through every fault, up to the step of this number.
pub(crate) fn go_past(
    program: &Program<'_>,
    to: u64,
    machine: &mut Machine,
    devices: &mut Vec<Box<dyn PortDevice>>,
) -> Result<(), Unstudied>
    requires refused { HasRefused machine.old }
    requires later { machine.old.steps < to }
    requires within { to ≤ 3 * machine.old.limit }
    requires distinct { AreDistinct (map device_of devices.old.items) }
    ensures goes { OnOk result ((o : Trial) (times : ℕ) → HasRunGuarded o times machine.old (map device_of devices.old.items)
        → GoesOn o to times machine.new (map device_of devices.new.items)) }
    ensures limit { OnOk result (machine.new.limit ≡ machine.old.limit) }
    ensures most { OnOk result (machine.new.steps ≤ to) }
    ensures unfailed { OnOk result (NoneFailed machine.new.end) }
    ensures fit { OnOk result (AreFit device_of spare (exchanges_to_come machine.new) devices.new.items) }
    ensures since { OnOk result (Since device_of faults devices.old.items devices.new.items) }
    ensures left { (port : ℕ) → has_port device_of port devices.new.items ≡ true → has_port device_of port devices.old.items ≡ true }
    ensures failed { IfErr result (λ e. HasFailed device_of faults e devices.old.items devices.new.items) }
    ensures fails { IfErr result (λ e. (o : Trial) (times : ℕ) → HasRunGuarded o times machine.old (map device_of devices.old.items) → FailsUnder o times e) }
{
    match machine.go_through(program.orders, to, devices) {
        Ok(_) => {}
        Err(NoMemory) => return Err(Unstudied::NoMemory),
    }
    match failed_port(machine) {
        Some(port) => Err(Unstudied::Device(port)),
        None => Ok(()),
    }
}

/// Lets a machine that goes through every fault make so many times more.
pub(crate) fn run_on(
    program: &Program<'_>,
    more: u64,
    machine: &mut Machine,
    devices: &mut Vec<Box<dyn PortDevice>>,
) -> Result<(), Unstudied>
    requires left { machine.old.steps + 3 * more ≤ 3 * machine.old.limit }
    requires fit { AreFit device_of spare (exchanges_to_come machine.old) devices.old.items }
    requires unfailed { NoneFailed machine.old.end }
    ensures goes { OnOk result ((o : Trial) (steps times : ℕ) → GoesOn o steps times machine.old (map device_of devices.old.items)
        → GoesOn o (steps + 3 * more) times machine.new (map device_of devices.new.items)) }
    ensures limit { machine.new.limit ≡ machine.old.limit }
    ensures most { machine.new.steps ≤ machine.old.steps + 3 * more }
    ensures unfailed { OnOk result (NoneFailed machine.new.end) }
    ensures fit { AreFit device_of spare (exchanges_to_come machine.new) devices.new.items }
    ensures since { OnOk result (Since device_of faults devices.old.items devices.new.items) }
    ensures left { (port : ℕ) → has_port device_of port devices.new.items ≡ true → has_port device_of port devices.old.items ≡ true }
    ensures failed { IfErr result (λ e. HasFailed device_of faults e devices.old.items devices.new.items) }
    ensures fails { IfErr result (λ e. (o : Trial) (steps times : ℕ) → GoesOn o steps times machine.old (map device_of devices.old.items)
        → steps + 3 * more ≤ 3 * times → FailsUnder o times e) }
{
    machine.run(program.orders, more, devices);
    match failed_port(machine) {
        Some(port) => Err(Unstudied::Device(port)),
        None => Ok(()),
    }
}
