//! One step that is told.

ghost use Rattle.std.specs.Prelude.{◌≡◌, ℕ, ◌+◌, ◌*◌, ◌≤◌, ◌<◌, ◌^◌, ◌++◌, List, Some, map, length, OnOk};
ghost use Rattle.lvdc_vote.specs.Copies.{Copies};
ghost use Rattle.lvdc_plain.specs.Lists.{AreFit};
ghost use Rattle.lvdc_model.specs.Trial.{Trial};
ghost use Rattle.lvdc_model.specs.Voted.{Voted};
ghost use Rattle.lvdc_machine.specs.Made.{made_next, told_by};
ghost use Rattle.lvdc_machine.specs.Resumed.{state_from, StandsFrom};
ghost use Rattle.lvdc_machine.specs.Room.{exchanges_to_come};
ghost use Rattle.lvdc_trace.specs.Going.{GoesOn};
ghost use Rattle.lvdc_trace.specs.Steps.{step_text};
ghost use Rattle.lvdc_trace.specs.Traces.{block};
ghost use Rattle.lvdc_trace.specs.Votes.{AreVotes};

use crate::copies::{put_copies, put_faults};
use crate::exchange::{put_exchange, put_repair};
use crate::votes::{Votes, put_votes};
use lvdc_machine::{Machine, Made, Order};
use lvdc_port::PortDevice;
use lvdc_text::{Piece, put_line};
use lvdc_word::NoMemory;

/// Adds the lines of the step of this number, which the machine has made last, with the votes before it. Of the first step that
/// is told all votes are told.
fn put_step(
    out: &mut Vec<u8>,
    machine: &Machine,
    step: u64,
    made: &Made,
    first: bool,
    before: &Votes,
) -> Result<(), NoMemory>
    ensures text { OnOk result ((copies : List Copies) → machine.now.on_memory.last ≡ Some step → AreVotes before.now copies
        → out.new.items ≡ out.old.items ++ step_text first machine.now.script step made.now copies machine.now.copies) }
    ensures short { OnOk result (step < 10 ^ 7 → length out.new.items ≤ length out.old.items + 1115) }
{
    put_line(out, b"STEP", &[Piece::Decimal(step)])?;
    put_exchange(out, made)?;
    put_repair(out, &made.repair)?;
    put_faults(out, machine)?;
    put_votes(out, machine, first, before)?;
    put_copies(out, machine)?;
    Ok(())
}

/// Makes the next step, and adds its lines where it is made.
pub(crate) fn put_next(
    out: &mut Vec<u8>,
    machine: &mut Machine,
    order: &Order,
    first: bool,
    devices: &mut Vec<Box<dyn PortDevice>>,
) -> Result<(), NoMemory>
    requires left { machine.old.steps < 3 * machine.old.limit }
    requires fit { AreFit device_of spare (exchanges_to_come machine.old) devices.old.items }
    ensures goes { GoesOn device_of spare faults 1 machine.old machine.new devices.old.items devices.new.items }
    ensures text { OnOk result ((o : Trial) (v : Voted) (n : ℕ) → StandsFrom o v n machine.old (map device_of devices.old.items)
        → out.new.items ≡ out.old.items
        ++ block first (told_by machine.new.end (made_next machine.old.mode o (state_from machine.old.end machine.old.mode o v n))) o
        (state_from machine.old.end machine.old.mode o v n) (state_from machine.new.end machine.old.mode o v (n + 1))) }
    ensures short { OnOk result (machine.old.steps < 10 ^ 7 → length out.new.items ≤ length out.old.items + 1115) }
{
    let before = Votes::of(machine);
    let step = machine.steps();
    let told = machine.told_phase(order, devices);
    match &told {
        None => {}
        Some(made) => put_step(out, machine, step, made, first, &before)?,
    }
    Ok(())
}
