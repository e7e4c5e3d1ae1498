ghost use Rattle.std.specs.Prelude.{◌≡◌, ℕ, List, ◌++◌, ◌∷◌, [], OnOk, None, option_map};
ghost use Rattle.lvdc_macro.specs.Macros.{is_reserved, may_be_named};
ghost use Rattle.lvdc_macro.specs.Making.{lines_named, macros_of};

use lvdc_source::{is_name, is_operation};
use lvdc_text::{Index, Line};
use lvdc_word::NoMemory;
use std::alloc::Global;
use std::marker::Model;

/// The macros that a source has defined so far: their names and the lines of their bodies.
#[derive(Drop)]
pub(crate) struct Macros<'a> {
    table: Index<&'a [Line]>,
}

impl<'a> Model for Macros<'a> {
    ghost use Rattle.std.specs.Prelude.{ℕ, List, map};
    ghost use Rattle.lvdc_text.specs.declared.cutting.Line.{Line};

    ghost Value = { List (List ℕ × List Line) };

    ghost view = { λ m. map (λ e. (e.0, e.1.now)) m.table };
}

impl<'a> Macros<'a> {
    /// No macro is defined yet.
    pub(crate) fn new(alloc: Global) -> Macros<'a>
        ensures { result ≡ [] }
    {
        Macros {
            table: Index::new(alloc),
        }
    }

    /// The body of the macro of this name, where there is one.
    pub(crate) fn body(&self, name: &[u8]) -> Option<&'a [Line]>
        ensures { option_map (λ body. body.now) result ≡ lines_named self.now name.now }
    {
        self.table.get(name)
    }

    /// Whether a new macro may have this name.
    pub(crate) fn may_be_named(&self, name: &[u8]) -> bool
        ensures { (bytes : List ℕ) → result ≡ may_be_named (macros_of bytes self.now) name.now }
    {
        is_name(name) && !is_reserved(name) && self.body(name).is_none()
    }

    /// Adds a macro behind the others.
    pub(crate) fn define(
        &mut self,
        alloc: Global,
        name: &[u8],
        body: &'a [Line],
    ) -> Result<(), NoMemory>
        requires new { lines_named self.old name.now ≡ None }
        ensures added { OnOk result (self.new ≡ self.old ++ (name.now, body.now) ∷ []) }
    {
        self.table.add(alloc, name, body)
    }
}

/// Whether no macro may have this name: an operation of the assembler, MACRO or MEND.
fn is_reserved(name: &[u8]) -> bool
    ensures { result ≡ is_reserved name.now }
{
    is_operation(name) || name == b"MACRO".as_slice() || name == b"MEND".as_slice()
}
