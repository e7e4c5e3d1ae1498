ghost use Rattle.std.specs.Prelude.{◌≡◌, List, [], ◌∷◌, find, not, is_none, IfOk};
ghost use Rattle.lvdc_fault.specs.declared.event.Event.{Event};
ghost use Rattle.lvdc_withstands.specs.Form.{lines_in, is_met, masks, first_unmet};
ghost use Rattle.lvdc_withstands.specs.declared.condition.Condition.TheVariants.{Pairs, Places, Deaths};

use crate::condition::Condition;
use crate::copies::has_one_wrong;
use crate::lines::{are_duplex, are_lasting, are_seen, lines_in};
use crate::places::has_none_twice;
use crate::twins::are_sound;
use lvdc_fault::{Event, Script};
use lvdc_map::Banks;
use lvdc_word::NoMemory;
use std::alloc::Global;

/// The first condition of the form that a script doesn't meet in a run of so many times. Where it meets all, no step of that run
/// is inadmissible, whatever image and devices it has. Its time grows with the lines times the logarithm of their count.
pub fn first_unmet(
    alloc: Global,
    script: &Script,
    banks: Banks,
    count: u64,
) -> Result<Option<Condition>, NoMemory>
    ensures first { IfOk result (λ unmet. unmet ≡ first_unmet script.now banks count) }
    ensures none { IfOk result (λ unmet. is_none unmet ≡ masks script.now banks count) }
{
    let mut lines = lines_in(alloc, script, count)?;
    let on_memory = first_unmet_on_memory(alloc, banks, count, &lines)?;
    if has_one_wrong(&mut lines) {
        Ok(on_memory)
    } else {
        Ok(Some(Condition::Copies))
    }
}

/// The first of the conditions on memory that the lines of a run don't meet.
fn first_unmet_on_memory(
    alloc: Global,
    banks: Banks,
    count: u64,
    lines: &[Event],
) -> Result<Option<Condition>, NoMemory>
    ensures { IfOk result (λ unmet. (script : List Event) → lines.now ≡ lines_in count script
        → unmet ≡ find (λ condition. not (is_met script banks count condition)) (Pairs ∷ Places ∷ Deaths ∷ [])) }
{
    if !are_duplex(banks, lines) {
        return Ok(Some(Condition::Pairs));
    }
    if !are_seen(lines) {
        return Ok(Some(Condition::Places));
    }
    let are_apart = has_none_twice(alloc, lines)?;
    if !are_apart {
        return Ok(Some(Condition::Places));
    }
    if are_lasting(count, lines) && are_sound(lines) {
        Ok(None)
    } else {
        Ok(Some(Condition::Deaths))
    }
}
