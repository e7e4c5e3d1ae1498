ghost use Rattle.std.specs.Prelude.{◌≡◌, ◌<◌, ◌≤◌, length, map, IfSome, IfNone};
ghost use Rattle.lvdc_macro.specs.Substitution.{arguments_of};

use arrayvec::ArrayVec;

/// The most arguments of a call (this project's profile).
pub const MOST_ARGUMENTS: usize = 9;

/// The arguments of a call, by its operand; none where there are too many.
pub(crate) fn arguments_of(operand: &[u8]) -> Option<ArrayVec<&[u8], MOST_ARGUMENTS>>
    ensures some { IfSome result (λ arguments. map (λ a. a.now) arguments.items ≡ arguments_of operand.now) }
    ensures few { IfSome result (λ arguments. length arguments.items ≤ MOST_ARGUMENTS) }
    ensures none { IfNone result (MOST_ARGUMENTS < length (arguments_of operand.now)) }
{
    let mut arguments = ArrayVec::new();
    if operand.is_empty() {
        return Some(arguments);
    }
    for argument in operand.split(|byte| *byte == b',') {
        if arguments.try_push(argument).is_err() {
            return None;
        }
    }
    Some(arguments)
}
