//! The copies of a machine after a step: which are wrong by the script, and which differ from their vote.

ghost use Rattle.std.specs.Prelude.{◌≡◌, ℕ, ◌+◌, ◌≤◌, ◌++◌, length, OnOk, Some};
ghost use Rattle.lvdc_fault.specs.Events.{IsCopy};
ghost use Rattle.lvdc_trace.specs.Steps.{fault_line, fault_lines, faults_text, told_copy, told_copies, copies_text};

use lvdc_debug::put_copy;
use lvdc_machine::Machine;
use lvdc_text::{Piece, put_line};
use lvdc_word::NoMemory;

/// Adds the line of a copy that was wrong in the step that was begun last, where it was.
fn put_fault(out: &mut Vec<u8>, machine: &Machine, number: u8, copy: u8) -> Result<(), NoMemory>
    requires { IsCopy number copy }
    ensures line { OnOk result ((step : ℕ) → machine.now.on_memory.last ≡ Some step
        → out.new.items ≡ out.old.items ++ fault_line machine.now.script step number copy) }
    ensures short { OnOk result (length out.new.items ≤ length out.old.items + 10) }
{
    if !machine.is_wrong(number, copy) {
        return Ok(());
    }
    put_line(out, b"FAULT", &[Piece::Small(number), Piece::Small(copy)])?;
    Ok(())
}

/// Adds those of the three copies of a module, 1 to 7.
fn put_module_faults(out: &mut Vec<u8>, machine: &Machine, number: u8) -> Result<(), NoMemory>
    requires first { 1 ≤ number }
    requires last { number ≤ 7 }
    ensures lines { OnOk result ((step : ℕ) → machine.now.on_memory.last ≡ Some step
        → out.new.items ≡ out.old.items ++ fault_lines machine.now.script step number) }
    ensures short { OnOk result (length out.new.items ≤ length out.old.items + 30) }
{
    put_fault(out, machine, number, 1)?;
    put_fault(out, machine, number, 2)?;
    put_fault(out, machine, number, 3)?;
    Ok(())
}

/// Adds the lines of all copies that were wrong in the step that was begun last, by module and copy.
pub(crate) fn put_faults(out: &mut Vec<u8>, machine: &Machine) -> Result<(), NoMemory>
    ensures lines { OnOk result ((step : ℕ) → machine.now.on_memory.last ≡ Some step
        → out.new.items ≡ out.old.items ++ faults_text machine.now.script step) }
    ensures short { OnOk result (length out.new.items ≤ length out.old.items + 210) }
{
    for before in 0..7 {
        put_module_faults(out, machine, before + 1)?;
    }
    Ok(())
}

/// Adds the line of a copy that differs from its vote, where it does.
fn put_told_copy(out: &mut Vec<u8>, machine: &Machine, number: u8, copy: u8) -> Result<(), NoMemory>
    requires { IsCopy number copy }
    ensures { OnOk result (out.new.items ≡ out.old.items ++ told_copy machine.now.copies number copy) }
{
    if machine.is_outvoted(number, copy) {
        put_copy(out, machine, number, copy)?;
    }
    Ok(())
}

/// Adds those of the three copies of a module, 1 to 7.
fn put_module_copies(out: &mut Vec<u8>, machine: &Machine, number: u8) -> Result<(), NoMemory>
    requires first { 1 ≤ number }
    requires last { number ≤ 7 }
    ensures { OnOk result (out.new.items ≡ out.old.items ++ told_copies machine.now.copies number) }
{
    put_told_copy(out, machine, number, 1)?;
    put_told_copy(out, machine, number, 2)?;
    put_told_copy(out, machine, number, 3)?;
    Ok(())
}

/// Adds the lines of all copies that differ from their votes, by module and copy.
pub(crate) fn put_copies(out: &mut Vec<u8>, machine: &Machine) -> Result<(), NoMemory>
    ensures { OnOk result (out.new.items ≡ out.old.items ++ copies_text machine.now.copies) }
{
    for before in 0..7 {
        put_module_copies(out, machine, before + 1)?;
    }
    Ok(())
}
