ghost use Rattle.std.specs.Prelude.{◌-◌, ◌^◌, ◌<◌, ℕ, List, length, All, IfOk};
ghost use Rattle.lvdc_macro.specs.Macros.{meaning_of};
ghost use Rattle.lvdc_macro.specs.Making.{macros_of, Means, HasLinesOf};
ghost use Rattle.lvdc_text.specs.Lines.{IsWithin};

use crate::macros::Macros;
use lvdc_source::parts_by;
use lvdc_text::{Line, is_comment, tokens};
use lvdc_word::NoMemory;
use std::alloc::Global;

/// What a line is to the expansion.
#[derive(Clone, Copy)]
pub(crate) enum Meaning<'t, 'a> {
    /// It is written as it is.
    Text,
    /// It begins the macro of this name.
    Begin(&'t [u8]),
    /// It ends a macro.
    End {
        labelled: bool,
    },
    /// It calls the macro with this body.
    Call {
        labelled: bool,
        operand: &'t [u8],
        body: &'a [Line],
    },
}

/// What a line is, where these macros are defined.
pub(crate) fn meaning_of<'t, 'a>(
    alloc: Global,
    macros: &Macros<'a>,
    text: &'t [u8],
) -> Result<Meaning<'t, 'a>, NoMemory>
    requires { length text.now < 2 ^ 32 - 1 }
    ensures means { IfOk result (λ meaning. (bytes : List ℕ) → Means bytes meaning (meaning_of (macros_of bytes macros.now) text.now)) }
    ensures within { IfOk result (λ meaning. (bytes : List ℕ) → All (λ entry. All (IsWithin bytes) entry.1) macros.now → HasLinesOf bytes meaning) }
{
    if is_comment(text) {
        return Ok(Meaning::Text);
    }
    let words = tokens(alloc, text)?;
    let parts = parts_by(text, words.as_slice());
    let labelled = !parts.label.is_empty();
    if parts.operation == b"MACRO".as_slice() {
        Ok(Meaning::Begin(parts.label))
    } else if parts.operation == b"MEND".as_slice() {
        Ok(Meaning::End { labelled })
    } else {
        match macros.body(parts.operation) {
            Some(body) => Ok(Meaning::Call {
                labelled,
                operand: parts.operand,
                body,
            }),
            None => Ok(Meaning::Text),
        }
    }
}
