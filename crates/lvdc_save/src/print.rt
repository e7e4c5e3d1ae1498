ghost use Rattle.std.specs.Prelude.{◌≡◌, ℕ, ◌+◌, ◌^◌, ◌<◌, ◌≤◌, ◌++◌, [], length, map, OnOk, IfOk, All};
ghost use Rattle.lvdc_save.specs.Bounded.{IsBounded};
ghost use Rattle.lvdc_fault.specs.Events.{TIMES};
ghost use Rattle.lvdc_save.specs.declared.TheConstants.{MOST_WORDS, LONGEST_SAVED};
ghost use Rattle.lvdc_image.specs.Image.{IsPlaced};
ghost use Rattle.lvdc_vote.specs.Copies.{IsFullOrder};
ghost use Rattle.lvdc_save.specs.Printed.{IsSupply, IsUnplug, IsOfADeck, IsPrinted};
ghost use Rattle.lvdc_vote.specs.Numbers.{latches_of};
ghost use Rattle.lvdc_orders.specs.Orders.{orders_of};
ghost use Rattle.lvdc_snapshot.specs.Snapshot.{IsWhole};
ghost use Rattle.lvdc_lines.specs.Noted.{lines_of};
ghost use Rattle.lvdc_save.specs.declared.entry.Entry.TheVariants as says;
ghost use Rattle.lvdc_save.specs.Lines.{copy_line, entry_line};
ghost use Rattle.lvdc_save.specs.Saved.{module_at, latches_before, copy_state, copy_entries, simplex_entries, entries_of, saved_text};

use crate::Saved;
use crate::events::put_fault;
use crate::lines::{
    put_copy, put_count, put_held, put_order, put_placed, put_select, put_simplex_line, put_state,
    put_steps, put_unplug,
};
use lvdc_fault::Script;
use lvdc_lines::{put_log, put_repairs};
use lvdc_map::{Banks, Placed};
use lvdc_modules::latches;
use lvdc_orders::{COPIES, Orders};
use lvdc_plain::Unplug;
use lvdc_port::Supply;
use lvdc_snapshot::Snapshot;
use lvdc_text::put_text;
use lvdc_twin::Held;
use lvdc_word::NoMemory;
use std::alloc::Global;

/// Adds the SIMPLEX line, where a pair is simplex.
#[tactic(auto, unfolding(lvdc_lines::specs::Noted::lines_of))]
fn put_banks(out: &mut Vec<u8>, banks: Banks) -> Result<(), NoMemory>
    ensures lines { OnOk result (out.new.items ≡ out.old.items ++ lines_of entry_line (simplex_entries banks)) }
    ensures banks { banks < 16 }
{
    if banks == Banks::DUPLEX {
        return Ok(());
    }
    put_simplex_line(out, banks)
}

/// How many latches the copy of this index has; with those of the copies before it they are no more than all 45.
fn latches_at(index: usize) -> usize
    requires { index < 21 }
    ensures count { result ≡ latches_of (module_at index) }
    ensures within { latches_before index + result ≤ 45 }
{
    let number = (index / 3) as u8 + 1;
    usize::from(latches(number))
}

/// Adds the COPY line of this index, whose latches begin here, and answers where the next ones begin.
#[tactic(auto, using(crate::proofs::Printing::latches_next))]
fn put_copy_at(
    out: &mut Vec<u8>,
    snapshot: &Snapshot,
    index: usize,
    from: usize,
) -> Result<usize, NoMemory>
    requires latches { length snapshot.now.latches ≡ 45 }
    requires counts { length snapshot.now.differed ≡ 21 }
    requires index { index < 21 }
    requires from { from ≡ latches_before index }
    ensures line { OnOk result (out.new.items ≡ out.old.items ++ copy_line (copy_state snapshot.now index)) }
    ensures latches { OnOk result (All (λ latch. latch < 2 ^ 26) (copy_state snapshot.now index).latches) }
    ensures next { IfOk result (λ next. next ≡ latches_before (index + 1)) }
{
    let to = from + latches_at(index);
    let number = (index / 3) as u8 + 1;
    let copy = (index % 3) as u8 + 1;
    let count = snapshot.differed.items()[index];
    put_copy(
        out,
        number,
        copy,
        count,
        &snapshot.latches.items()[from..to],
    )?;
    Ok(to)
}

/// Adds the COPY lines.
fn put_copies(out: &mut Vec<u8>, snapshot: &Snapshot) -> Result<(), NoMemory>
    requires latches { length snapshot.now.latches ≡ 45 }
    requires counts { length snapshot.now.differed ≡ 21 }
    ensures lines { OnOk result (out.new.items ≡ out.old.items ++ lines_of entry_line (copy_entries snapshot.now)) }
    ensures latches { OnOk result ((index : ℕ) → index < 21 → All (λ latch. latch < 2 ^ 26) (copy_state snapshot.now index).latches) }
{
    let mut from = 0;
    for index in 0..COPIES {
        from = put_copy_at(out, snapshot, index, from)?;
    }
    Ok(())
}

/// Adds the CELL lines.
fn put_cells(out: &mut Vec<u8>, cells: &[Held]) -> Result<(), NoMemory>
    ensures lines { OnOk result (out.new.items ≡ out.old.items ++ lines_of entry_line (map says.Cell cells.now)) }
    ensures cells { OnOk result (All (λ held. held.cell < 2 ^ 28) cells.now) }
{
    for held in cells {
        put_held(out, held)?;
    }
    Ok(())
}

/// Adds the WORD lines.
fn put_words(out: &mut Vec<u8>, words: &[Placed]) -> Result<(), NoMemory>
    ensures lines { OnOk result (out.new.items ≡ out.old.items ++ lines_of entry_line (map says.Word words.now)) }
    ensures placed { OnOk result (All IsPlaced words.now) }
{
    for placed in words {
        put_placed(out, placed)?;
    }
    Ok(())
}

/// Adds the STATE lines.
fn put_states(out: &mut Vec<u8>, states: &[Supply]) -> Result<(), NoMemory>
    ensures lines { OnOk result (out.new.items ≡ out.old.items ++ lines_of entry_line (map says.State states.now)) }
    ensures printed { OnOk result (All IsSupply states.now) }
{
    for state in states {
        put_state(out, state)?;
    }
    Ok(())
}

/// Adds the UNPLUG lines.
fn put_unplugs(out: &mut Vec<u8>, unplugs: &[Unplug]) -> Result<(), NoMemory>
    ensures lines { OnOk result (out.new.items ≡ out.old.items ++ lines_of entry_line (map says.Unplug unplugs.now)) }
    ensures printed { OnOk result (All (λ unplug. unplug.time ≤ TIMES → IsUnplug unplug) unplugs.now) }
{
    for unplug in unplugs {
        put_unplug(out, unplug)?;
    }
    Ok(())
}

/// Adds the lines of the events.
fn put_script(out: &mut Vec<u8>, script: &Script) -> Result<(), NoMemory>
    ensures { OnOk result (out.new.items ≡ out.old.items ++ lines_of entry_line (map says.Fault script.now)) }
{
    for index in 0..script.len() {
        put_fault(out, script.event(index))?;
    }
    Ok(())
}

/// Adds the lines of the orders.
fn put_orders(out: &mut Vec<u8>, orders: &Orders) -> Result<(), NoMemory>
    ensures lines { OnOk result (out.new.items ≡ out.old.items ++ lines_of entry_line (map says.Order (orders_of orders.now))) }
    ensures short { OnOk result (length out.new.items ≤ length out.old.items + 352) }
    ensures full { OnOk result (All (IsFullOrder 21) (orders_of orders.now)) }
{
    for index in 0..orders.count() {
        put_order(out, orders.order(index))?;
    }
    Ok(())
}

/// Adds the saved text to an empty one.
fn put_saved(out: &mut Vec<u8>, saved: &Saved) -> Result<(), NoMemory>
    requires empty { out.old.items ≡ [] }
    requires whole { IsWhole saved.now.snapshot }
    ensures text { OnOk result (out.new.items ≡ saved_text saved.now) }
    ensures short { OnOk result (IsBounded MOST_WORDS saved.now → length out.new.items ≤ LONGEST_SAVED) }
    ensures printed { OnOk result (IsOfADeck saved.now → All IsPrinted (entries_of saved.now)) }
{
    let snapshot = &saved.snapshot;
    put_text(out, b"LVDC SAVE 1\n")?;
    put_steps(out, snapshot.steps)?;
    put_count(out, saved.count)?;
    put_banks(out, snapshot.banks)?;
    put_copies(out, snapshot)?;
    put_select(out, snapshot.selected.items())?;
    put_cells(out, snapshot.cells.items())?;
    put_words(out, snapshot.words.items())?;
    put_log(out, snapshot.log.items())?;
    put_repairs(out, snapshot.repairs.items())?;
    put_states(out, saved.states.items())?;
    put_unplugs(out, saved.unplugs.items())?;
    put_script(out, &saved.script)?;
    put_orders(out, &saved.orders)?;
    put_text(out, b"END\n")?;
    Ok(())
}

/// The saved text. Each line ends with LF.
pub fn print_saved(alloc: Global, saved: &Saved) -> Result<Vec<u8>, NoMemory>
    requires whole { IsWhole saved.now.snapshot }
    ensures text { IfOk result (λ text. text.items ≡ saved_text saved.now) }
    ensures short { IfOk result (λ text. IsBounded MOST_WORDS saved.now → length text.items ≤ LONGEST_SAVED) }
    // Each of its lines says its entry again.
    ensures printed { OnOk result (IsOfADeck saved.now → All IsPrinted (entries_of saved.now)) }
{
    let mut out = Vec::new(alloc);
    put_saved(&mut out, saved)?;
    Ok(out)
}
