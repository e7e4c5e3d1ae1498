ghost use Rattle.std.specs.Prelude.{◌≡◌, ◌≢◌, ℕ, List, ◌+◌, ◌<◌, ◌≤◌, ◌∷◌, ◌++◌, true, length, drop, map, slice_index, IfOk, OnOk, IfErr, IfSome, IfNone};
ghost use Rattle.lvdc_macro.specs.declared.fault.MacroFault.TheVariants.{NoMemory as WantsMemory, ExpansionTooLong};
ghost use Rattle.lvdc_macro.specs.declared.expansion.TheConstants.{LONGEST_EXPANSION};
ghost use Rattle.lvdc_text.specs.Numbers.{is_digit};
ghost use Rattle.lvdc_macro.specs.Substitution.{three_digits, stands_for, substituted};

use crate::MacroFault;
use crate::arguments::MOST_ARGUMENTS;
use crate::expansion::LONGEST_EXPANSION;
use arrayvec::ArrayVec;
use lvdc_word::NoMemory;
use std::alloc::Global;

/// A call: its number, counted from 1, and its arguments.
#[derive(Clone, Drop)]
pub(crate) struct Call<'a> {
    pub(crate) number: u16,
    pub(crate) arguments: ArrayVec<&'a [u8], MOST_ARGUMENTS>,
}

/// The number in three decimal digits.
fn three_digits(number: u16) -> [u8; 3]
    requires { number < 1000 }
    ensures { result ≡ three_digits number }
{
    let digit = |n: u16| b'0' + (n % 10) as u8;
    [digit(number / 100), digit(number / 10), digit(number)]
}

impl Call<'_> {
    /// Adds what `&` and this digit stand for.
    fn put(&self, out: &mut Vec<u8>, digit: u8) -> Result<(), NoMemory>
        requires few { self.now.number < 1000 }
        requires digit { is_digit 10 digit ≡ true }
        ensures { OnOk result (out.new.items ≡ out.old.items ++ stands_for self.now.number (map (λ a. a.now) self.now.arguments.items) digit) }
    {
        if digit == b'0' {
            out.extend_from_slice(&three_digits(self.number))?;
        } else if let Some(argument) = self.arguments.get(usize::from(digit - b'1')) {
            out.extend_from_slice(argument)?;
        }
        Ok(())
    }

    /// The line of a body with what the call puts into it, unless it alone is longer than an expansion may be. The call stands in this
    /// line of the source.
    pub(crate) fn substituted(
        &self,
        alloc: Global,
        text: &[u8],
        origin: u32,
    ) -> Result<Vec<u8>, MacroFault>
        requires { self.now.number < 1000 }
        ensures line { IfOk result (λ line. line.items ≡ substituted self.now.number (map (λ a. a.now) self.now.arguments.items) text.now) }
        ensures short { IfOk result (λ line. length line.items < LONGEST_EXPANSION) }
        ensures refusal { IfErr result (λ fault. fault ≢ WantsMemory → (fault ≡ ExpansionTooLong origin)
            × (LONGEST_EXPANSION ≤ length (substituted self.now.number (map (λ a. a.now) self.now.arguments.items) text.now))) }
    {
        let mut out = Vec::new(alloc);
        let mut at = 0;
        while at < text.len() && out.len() < LONGEST_EXPANSION {
            match digit_at(text, at) {
                Some(digit) => {
                    self.put(&mut out, digit)?;
                    at += 2;
                }
                None => {
                    out.push(text[at])?;
                    at += 1;
                }
            }
        }
        if out.len() >= LONGEST_EXPANSION {
            return Err(MacroFault::ExpansionTooLong(origin));
        }
        Ok(out)
    }
}

/// The digit behind a `&` at this place, where one stands there.
fn digit_at(text: &[u8], at: usize) -> Option<u8>
    requires { at < length text.now }
    ensures digit { IfSome result (λ digit. is_digit 10 digit ≡ true) }
    ensures some { IfSome result (λ digit. drop at text.now ≡ 38 ∷ digit ∷ drop (at + 2) text.now) }
    ensures within { IfSome result (λ digit. at + 2 ≤ length text.now) }
    ensures none { IfNone result ((call : ℕ) (arguments : List (List ℕ)) →
        substituted call arguments (drop at text.now) ≡ slice_index text.now at ∷ substituted call arguments (drop (at + 1) text.now)) }
{
    match text.get(at + 1) {
        Some(digit) if text[at] == b'&' && digit.is_ascii_digit() => Some(*digit),
        _ => None,
    }
}
