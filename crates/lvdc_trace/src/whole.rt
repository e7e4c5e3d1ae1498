//! A whole trace.

ghost use Rattle.std.specs.Prelude.{◌≡◌, ℕ, ◌+◌, ◌-◌, ◌*◌, ◌≤◌, ◌<◌, ◌^◌, ◌++◌, List, map, length, IfOk, OnOk, OnErr, None};
ghost use Rattle.lvdc_plain.specs.Lists.{AreFit};
ghost use Rattle.lvdc_fault.specs.declared.TheConstants.{MOST_TIMES};
ghost use Rattle.lvdc_model.specs.Trial.{Trial};
ghost use Rattle.lvdc_model.specs.Voted.{Voted};
ghost use Rattle.lvdc_machine.specs.Resumed.{StandsFrom};
ghost use Rattle.lvdc_machine.specs.Room.{exchanges_to_come};
ghost use Rattle.lvdc_trace.specs.Going.{GoesOn, GoesPart, count_by, text_by};
ghost use Rattle.lvdc_trace.specs.Traces.{title_line, last_line, blocks, steps_asked};

use crate::Window;
use crate::step::put_next;
use lvdc_machine::{Machine, Mode, Orders, Outcome};
use lvdc_port::PortDevice;
use lvdc_report::{LONGEST_REPORT, put_end};
use lvdc_word::NoMemory;
use std::alloc::Global;

/// The first line.
fn title_line(mode: Mode) -> &'static [u8]
    ensures { result.now ≡ title_line mode }
{
    match mode {
        Mode::Guarded => b"LVDC TRACE\n",
        Mode::Through => b"LVDC TRACE THROUGH\n",
    }
}

/// Adds the last line: the end, or whether all steps of the run were made.
fn put_last(out: &mut Vec<u8>, machine: &Machine, all: bool) -> Result<(), NoMemory>
    ensures line { OnOk result (out.new.items ≡ out.old.items ++ last_line machine.now.end all) }
    ensures short { OnOk result (length out.new.items ≤ length out.old.items + 65) }
{
    match machine.ended() {
        Some(end) => put_end(out, end)?,
        None if all => put_end(out, Outcome::Done)?,
        None => out.extend_from_slice(b"MORE\n")?,
    }
    Ok(())
}

/// Makes so many steps, fewer than three.
fn make_few(
    machine: &mut Machine,
    orders: &Orders,
    steps: u64,
    devices: &mut Vec<Box<dyn PortDevice>>,
)
    requires left { machine.old.steps + steps ≤ 3 * machine.old.limit }
    requires fit { AreFit device_of spare (exchanges_to_come machine.old) devices.old.items }
    ensures { GoesOn device_of spare faults steps machine.old machine.new devices.old.items devices.new.items }
{
    for _made in 0..steps {
        machine.phase(orders.at_step(machine.steps()), devices);
    }
}

/// Makes so many steps, by whole times as far as they go.
fn make_steps(
    machine: &mut Machine,
    orders: &Orders,
    steps: u64,
    devices: &mut Vec<Box<dyn PortDevice>>,
)
    requires left { machine.old.steps + steps ≤ 3 * machine.old.limit }
    requires fit { AreFit device_of spare (exchanges_to_come machine.old) devices.old.items }
    ensures { GoesOn device_of spare faults steps machine.old machine.new devices.old.items devices.new.items }
{
    machine.run(orders, steps / 3, devices);
    make_few(machine, orders, steps % 3, devices);
}

/// Makes so many steps, and adds the lines of each that is made.
fn put_steps(
    out: &mut Vec<u8>,
    machine: &mut Machine,
    orders: &Orders,
    count: u64,
    devices: &mut Vec<Box<dyn PortDevice>>,
) -> Result<(), NoMemory>
    requires left { machine.old.steps + count ≤ 3 * machine.old.limit }
    requires limit { machine.old.limit ≤ MOST_TIMES }
    requires fit { AreFit device_of spare (exchanges_to_come machine.old) devices.old.items }
    ensures goes { OnOk result (GoesOn device_of spare faults count machine.old machine.new devices.old.items devices.new.items) }
    ensures part { OnErr result (GoesPart device_of spare faults count machine.old machine.new devices.old.items devices.new.items) }
    ensures text { OnOk result ((o : Trial) (begin : Voted) (from : ℕ) → StandsFrom o begin from machine.old (map device_of devices.old.items)
        → out.new.items ≡ out.old.items ++ blocks machine.old.mode o begin from (count_by machine.new.end begin.steps from count)) }
    ensures short { OnOk result (length out.new.items ≤ length out.old.items + 1115 * count) }
{
    for index in 0..count {
        let order = orders.at_step(machine.steps());
        put_next(out, machine, order, index == 0, devices)?;
    }
    Ok(())
}

/// The trace of a run that goes on from where the machine stands: the steps of a window, which is counted from there, as far as they
/// are made. Each line ends with LF.
pub fn trace(
    alloc: Global,
    machine: &mut Machine,
    orders: &Orders,
    window: Window,
    devices: &mut Vec<Box<dyn PortDevice>>,
) -> Result<Vec<u8>, NoMemory>
    requires steps { machine.old.steps ≤ 3 * machine.old.limit }
    requires limit { machine.old.limit ≤ MOST_TIMES }
    requires first { window.first ≤ Window.LAST }
    requires count { window.count ≤ Window.MOST }
    requires fit { AreFit device_of spare (exchanges_to_come machine.old) devices.old.items }

    // The trace of the definition, over the run of each trial from each state at which the machine stood. Where a device fails, it is
    // that of the run up to this exchange.
    ensures text { IfOk result (λ text. (o : Trial) (begin : Voted) → StandsFrom o begin 0 machine.old (map device_of devices.old.items)
        → text.items ≡ text_by machine.new.end machine.old.mode o begin (3 * machine.old.limit - machine.old.steps) window) }

    // The run has gone on to the end of the window; after a want of memory by some of these steps.
    ensures goes { OnOk result (GoesOn device_of spare faults (steps_asked window (3 * machine.old.limit - machine.old.steps))
        machine.old machine.new devices.old.items devices.new.items) }
    ensures part { OnErr result (GoesPart device_of spare faults (steps_asked window (3 * machine.old.limit - machine.old.steps))
        machine.old machine.new devices.old.items devices.new.items) }

    // A step has 1,115 bytes at most, and the whole no more than a report.
    ensures short { IfOk result (λ text. length text.items ≤ 1115 * window.count + 100) }
    ensures size { IfOk result (λ text. length text.items ≤ LONGEST_REPORT) }
{
    let left = 3 * machine.limit() - machine.steps();
    let asked = (window.first + window.count).min(left);
    let from = window.first.min(left);
    let mut out = Vec::new(alloc);
    make_steps(machine, orders, from, devices);
    out.extend_from_slice(title_line(machine.mode()))?;
    put_steps(&mut out, machine, orders, asked - from, devices)?;
    put_last(&mut out, machine, left <= window.first + window.count)?;
    Ok(out)
}
