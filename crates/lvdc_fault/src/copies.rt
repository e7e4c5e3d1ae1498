//! Which copy an event acts on.

ghost use Rattle.std.specs.Prelude.{◌≡◌, ℕ, ◌+◌, ◌/◌, ◌%◌, ◌<◌, IfSome};
ghost use Rattle.lvdc_fault.specs.Script.{acts_on, is_number, makes_wrong};
ghost use Rattle.lvdc_fault.specs.Events.{IsCopy, IsEvent};

use crate::Event;

/// The number of the copy that an event acts on in a step, if it acts on one: copy `n` is copy `n % 3` of module `n / 3`, both counted
/// from 0.
pub fn number_of_copy(event: &Event, step: u64) -> Option<usize>
    requires { IsEvent event.now }
    ensures within { IfSome result (λ number. number < 21) }
    ensures acts { (n : ℕ) → n < 21 → makes_wrong step (n / 3 + 1) (n % 3 + 1) event.now ≡ is_number n result }
{
    match *event {
        Event::Flip {
            module,
            copy,
            first,
            last,
            ..
        }
        | Event::Force {
            module,
            copy,
            first,
            last,
            ..
        }
        | Event::Lag {
            module,
            copy,
            first,
            last,
        }
        | Event::Deaf {
            module,
            copy,
            first,
            last,
        } => number_within(module, copy, first, last, step),
        _ => None,
    }
}

/// The number of this copy of this module, both counted from 1, where a step lies from the first to the last.
fn number_within(number: u8, copy: u8, first: u64, last: u64, step: u64) -> Option<usize>
    requires { IsCopy number copy }
    ensures within { IfSome result (λ found. found < 21) }
    ensures acts { (n : ℕ) → n < 21 → acts_on number copy first last step (n / 3 + 1) (n % 3 + 1) ≡ is_number n result }
{
    if step < first {
        return None;
    }
    if last < step {
        return None;
    }
    Some(3 * usize::from(number - 1) + usize::from(copy - 1))
}
