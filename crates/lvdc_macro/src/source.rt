ghost use Rattle.std.specs.Prelude.{◌≡◌, ◌≢◌, List, ◌+◌, ◌-◌, ◌^◌, ◌<◌, ◌≤◌, length, map, slice_index_or, All, IfOk, OnOk, IfErr, IfSome, Ok, Err, None};
ghost use Rattle.lvdc_text.specs.Lines.{IsWithin, part_of, numbered, numbered_line};
ghost use Rattle.lvdc_text.specs.declared.cutting.Line.{Line};
ghost use Rattle.lvdc_macro.specs.declared.fault.MacroFault.TheVariants.{NoMemory as WantsMemory};
ghost use Rattle.lvdc_macro.specs.declared.expansion.TheConstants.{LONGEST_EXPANSION};
ghost use Rattle.lvdc_macro.specs.Macros.{meaning_of};
ghost use Rattle.lvdc_macro.specs.Expansion.{called, after_line, expansion_of};
ghost use Rattle.lvdc_macro.specs.Making.{progress_of, macros_of, lines_named, Meets, ends_by, pending_of, state_of, Brings, Expands};

use crate::arguments::arguments_of;
use crate::expansion::Writer;
use crate::macros::Macros;
use crate::meaning::{Meaning, meaning_of};
use crate::substitution::Call;
use crate::{Expansion, MacroFault};
use lvdc_text::{Line, part};
use std::alloc::Global;

/// How deep calls may stand in one another; a call in the source is on the first level (this project's profile).
pub const MOST_LEVELS: u8 = 16;

/// A macro that was begun and isn't ended: its name, and the index of the first line of its body.
#[derive(Clone, Copy)]
struct Open<'a> {
    name: &'a [u8],
    first: usize,
}

/// A line that calls a macro: the line of the source that it came from, whether it has a label, its operand, and the body.
#[derive(Clone, Copy)]
struct Calling<'a> {
    origin: u32,
    labelled: bool,
    operand: &'a [u8],
    body: &'a [Line],
}

/// Writes what a call comes to, where so many levels of calls are left.
fn call(
    alloc: Global,
    bytes: &[u8],
    macros: &Macros<'_>,
    out: &mut Writer,
    left: u8,
    calling: Calling<'_>,
) -> Result<(), MacroFault>
    requires size { length bytes.now < 2 ^ 32 - 1 }
    requires body { All (IsWithin bytes.now) calling.body.now }
    requires bodies { All (λ entry. All (IsWithin bytes.now) entry.1) macros.now }
    ensures { Meets result (called left (macros_of bytes.now macros.now) calling.entry.origin (progress_of out.old) calling.entry.labelled calling.entry.operand.now
        (map (part_of bytes.now) calling.entry.body.now)) out.old out.new }
{
    let origin = calling.origin;
    let Some(arguments) = arguments_of(calling.operand) else {
        return Err(MacroFault::BadMacro(origin));
    };
    if calling.labelled {
        return Err(MacroFault::BadMacro(origin));
    }
    if left == 0 {
        return Err(MacroFault::TooDeep(origin));
    }
    let number = out.begin_call(origin)?;
    let entered = Call { number, arguments };
    for line in calling.body {
        let text = entered.substituted(alloc, part(bytes, line), origin)?;
        match meaning_of(alloc, macros, &text)? {
            Meaning::Text => out.write(&text, origin)?,
            Meaning::Call {
                labelled,
                operand,
                body,
            } => {
                let inner = Calling {
                    origin,
                    labelled,
                    operand,
                    body,
                };
                call(alloc, bytes, macros, out, left - 1, inner)?;
            }
            Meaning::Begin(_) => return Err(MacroFault::BadMacro(origin)),
            Meaning::End { .. } => return Err(MacroFault::BadMacro(origin)),
        }
    }
    Ok(())
}

/// A line outside of any definition: the macro that it begins, if it does.
fn outside<'a>(
    alloc: Global,
    bytes: &'a [u8],
    macros: &Macros<'a>,
    out: &mut Writer,
    index: usize,
    line: &Line,
) -> Result<Option<Open<'a>>, MacroFault>
    requires size { length bytes.now < 2 ^ 32 - 1 }
    requires within { IsWithin bytes.now line.now }
    requires index { index < 2 ^ 63 }
    requires bodies { All (λ entry. All (IsWithin bytes.now) entry.1) macros.now }
    ensures brings { IfOk result (λ begun. (lines : List Line) → Brings (after_line (state_of bytes.now macros.now None out.old) (numbered_line bytes.now line.now)) out.old out.new
        (state_of bytes.now macros.now (pending_of bytes.now lines (index + 1) begun) out.new)) }
    ensures begun { IfOk result (λ some. IfSome some (λ begun. (begun.first ≡ index + 1) × (lines_named macros.now begun.name.now ≡ None))) }
    ensures refusal { IfErr result (λ fault. fault ≢ WantsMemory
        → after_line (state_of bytes.now macros.now None out.old) (numbered_line bytes.now line.now) ≡ Err fault) }
{
    let text = part(bytes, line);
    match meaning_of(alloc, macros, text)? {
        Meaning::Text => {
            out.write(text, line.number)?;
            Ok(None)
        }
        Meaning::Begin(name) => {
            if !macros.may_be_named(name) {
                return Err(MacroFault::BadMacro(line.number));
            }
            Ok(Some(Open {
                name,
                first: index + 1,
            }))
        }
        Meaning::End { .. } => Err(MacroFault::BadMacro(line.number)),
        Meaning::Call {
            labelled,
            operand,
            body,
        } => {
            let calling = Calling {
                origin: line.number,
                labelled,
                operand,
                body,
            };
            call(alloc, bytes, macros, out, MOST_LEVELS, calling)?;
            Ok(None)
        }
    }
}

/// Whether a line inside of a definition ends it.
fn ends(alloc: Global, bytes: &[u8], macros: &Macros<'_>, line: &Line) -> Result<bool, MacroFault>
    requires size { length bytes.now < 2 ^ 32 - 1 }
    requires within { IsWithin bytes.now line.now }
    ensures ends { IfOk result (λ ends. ends_by line.now.number (meaning_of (macros_of bytes.now macros.now) (part_of bytes.now line.now)) ≡ Ok ends) }
    ensures refusal { IfErr result (λ fault. fault ≢ WantsMemory
        → ends_by line.now.number (meaning_of (macros_of bytes.now macros.now) (part_of bytes.now line.now)) ≡ Err fault) }
{
    match meaning_of(alloc, macros, part(bytes, line))? {
        Meaning::Text => Ok(false),
        Meaning::Call { .. } => Ok(false),
        Meaning::Begin(_) => Err(MacroFault::BadMacro(line.number)),
        Meaning::End { labelled } => {
            if labelled {
                return Err(MacroFault::BadMacro(line.number));
            }
            Ok(true)
        }
    }
}

/// A line of the source, where a definition is open or none is: the definition that is open after it.
fn after_line<'a>(
    alloc: Global,
    bytes: &'a [u8],
    lines: &'a [Line],
    macros: &mut Macros<'a>,
    out: &mut Writer,
    pending: Option<Open<'a>>,
    index: usize,
) -> Result<Option<Open<'a>>, MacroFault>
    requires size { length bytes.now < 2 ^ 32 - 1 }
    requires within { All (IsWithin bytes.now) lines.now }
    requires index { index < length lines.now }
    requires begun { IfSome pending (λ begun. (begun.first ≤ index) × (lines_named macros.old begun.name.now ≡ None)) }
    requires bodies { All (λ entry. All (IsWithin bytes.now) entry.1) macros.old }
    ensures brings { IfOk result (λ next. (d : Line) → Brings (after_line (state_of bytes.now macros.old (pending_of bytes.now lines.now index pending.entry) out.old)
        (numbered_line bytes.now (slice_index_or lines.now index d))) out.old out.new (state_of bytes.now macros.new (pending_of bytes.now lines.now (index + 1) next) out.new)) }
    ensures begun { IfOk result (λ next. IfSome next (λ begun. (begun.first ≤ index + 1) × (lines_named macros.new begun.name.now ≡ None))) }
    ensures bodies { OnOk result (All (λ entry. All (IsWithin bytes.now) entry.1) macros.new) }
    ensures refusal { IfErr result (λ fault. fault ≢ WantsMemory → (d : Line)
        → after_line (state_of bytes.now macros.old (pending_of bytes.now lines.now index pending.entry) out.old) (numbered_line bytes.now (slice_index_or lines.now index d)) ≡ Err fault) }
{
    let line = &lines[index];
    match pending {
        None => outside(alloc, bytes, macros, out, index, line),
        Some(begun) => {
            if ends(alloc, bytes, macros, line)? {
                macros.define(alloc, begun.name, &lines[begun.first..index])?;
                return Ok(None);
            }
            Ok(Some(begun))
        }
    }
}

/// Writes out a source with macros. The lines need not begin at line 1; a missing MEND is a refusal at one more than the last line
/// (the language is this project's profile).
pub fn expand(alloc: Global, bytes: &[u8], lines: &[Line]) -> Result<Expansion, MacroFault>
    requires size { length bytes.now < 2 ^ 32 - 1 }
    requires within { All (IsWithin bytes.now) lines.now }
    ensures expansion { IfOk result (λ expansion. Expands (expansion_of (numbered bytes.now lines.now)) expansion) }
    ensures short { IfOk result (λ expansion. length expansion.bytes ≤ LONGEST_EXPANSION) }
    ensures refusal { IfErr result (λ fault. fault ≢ WantsMemory → expansion_of (numbered bytes.now lines.now) ≡ Err fault) }
{
    let mut macros = Macros::new(alloc);
    let mut out = Writer::new(alloc);
    let mut pending = None;
    let mut next = 1;
    for (index, line) in lines.iter().enumerate() {
        pending = after_line(alloc, bytes, lines, &mut macros, &mut out, pending, index)?;
        next = line.number + 1;
    }
    match pending {
        Some(_) => Err(MacroFault::BadMacro(next)),
        None => Ok(out.finish()),
    }
}
