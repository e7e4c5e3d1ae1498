//! Whether each module has at most one wrong copy, step by step, without going through the steps.

ghost use Rattle.std.specs.Prelude.{◌≡◌, ℕ, ◌*◌, ◌≤◌, false, List, MatchBool, MatchOption};
ghost use Rattle.std.specs.List.Sorted.{IsNonDecreasingBy};
ghost use Rattle.lvdc_fault.specs.declared.event.Event.{Event};
ghost use Rattle.lvdc_fault.specs.Script.{first_of, makes_wrong, is_within};
ghost use Rattle.lvdc_withstands.specs.Form.{lines_in, one_wrong_before};
ghost use Rattle.lvdc_withstands.specs.Copies.{NeverMeet, Meet, NeverTwoOf, HasTwoOf, NeverTwo, HasTwo, GoesOn, Meets};

use crate::lines::first_step;
use lvdc_fault::Event;

/// Has each module at most one wrong copy at each step of the run in which these lines begin? It sorts the lines.
pub(crate) fn has_one_wrong(lines: &mut Vec<Event>) -> bool
    ensures { (script : List Event) (count : ℕ) → lines.old.items ≡ lines_in count script → result ≡ one_wrong_before script (3 * count) }
{
    lines.sort_unstable_by_key(|line| first_step(line));
    has_never_two(lines)
}

/// Has no module ever two wrong copies? The lines stand by rising first step.
fn has_never_two(lines: &[Event]) -> bool
    requires { IsNonDecreasingBy first_of lines.now }
    ensures { MatchBool result (NeverTwo lines.now) (HasTwo lines.now) }
{
    for number in 1..=7 {
        if !has_never_two_of(lines, number) {
            return false;
        }
    }
    true
}

/// Has this module never two wrong copies? The lines stand by rising first step.
fn has_never_two_of(lines: &[Event], number: u8) -> bool
    requires { IsNonDecreasingBy first_of lines.now }
    ensures { MatchBool result (NeverTwoOf lines.now number) (HasTwoOf lines.now number) }
{
    if !are_apart(lines, number, 1, 2) {
        return false;
    }
    if !are_apart(lines, number, 1, 3) {
        return false;
    }
    are_apart(lines, number, 2, 3)
}

/// Are two copies of a module never wrong in the same step? The lines stand by rising first step.
fn are_apart(lines: &[Event], number: u8, one: u8, other: u8) -> bool
    requires { IsNonDecreasingBy first_of lines.now }
    ensures { MatchBool result (NeverMeet lines.now number one other) (Meet lines.now number one other) }
{
    let mut one_until = 0;
    let mut other_until = 0;
    for line in lines {
        match wrong_until(line, number, one, one_until, other_until) {
            Some(until) => one_until = until,
            None => return false,
        }
        match wrong_until(line, number, other, other_until, one_until) {
            Some(until) => other_until = until,
            None => return false,
        }
    }
    true
}

/// The step up to before which a copy is wrong with one line more; none where the line begins to act on it while another copy
/// is still wrong.
fn wrong_until(line: &Event, number: u8, copy: u8, mine: u128, others: u128) -> Option<u128>
    ensures { MatchOption result (Meets line.now number copy others) (λ until. GoesOn line.now number copy mine others until) }
{
    let Some(span) = span_on(line, number, copy) else {
        return Some(mine);
    };
    if u128::from(span.first) < others {
        return None;
    }
    Some(mine.max(u128::from(span.last) + 1))
}

/// The steps from the first to the last.
#[derive(Clone, Copy)]
struct Span {
    first: u64,
    last: u64,
}

/// The steps at which a line acts on a copy of a module, if there are any.
fn span_on(line: &Event, number: u8, copy: u8) -> Option<Span>
    ensures { MatchOption result ((step : ℕ) → makes_wrong step number copy line.now ≡ false)
        (λ span. (span.first ≡ first_of line.now) × (span.first ≤ span.last) × ((step : ℕ) → makes_wrong step number copy line.now ≡ is_within span.first span.last step)) }
{
    match *line {
        Event::Flip {
            module,
            copy: wrong,
            first,
            last,
            ..
        }
        | Event::Force {
            module,
            copy: wrong,
            first,
            last,
            ..
        }
        | Event::Lag {
            module,
            copy: wrong,
            first,
            last,
        }
        | Event::Deaf {
            module,
            copy: wrong,
            first,
            last,
        } if module == number && wrong == copy && first <= last => Some(Span { first, last }),
        _ => None,
    }
}
