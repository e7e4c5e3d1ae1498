ghost use Rattle.std.specs.Prelude.{◌≡◌, is_some};
ghost use Rattle.lvdc_source.specs.Operations.{operation_of, is_unlabelled, is_modified, is_misplaced};

use crate::Block;
use lvdc_isa::{Op, mnemonic};

/// What a line names in the place of its operation: an operation of the machine, or a directive.
#[derive(Clone, Copy, PartialEq, Eq)]
pub(crate) enum Operation {
    Machine(Op),
    Oct,
    Dec,
    Hopc,
    Bss,
    Code,
    Org,
    Words,
    Use,
    End,
}

/// The operation that a text names.
#[tactic(auto, unfolding(crate::specs::Operations::operation_of))]
pub(crate) fn operation_in(text: &[u8]) -> Option<Operation>
    ensures { result ≡ operation_of text.now }
{
    if text == b"OCT".as_slice() {
        Some(Operation::Oct)
    } else if text == b"DEC".as_slice() {
        Some(Operation::Dec)
    } else if text == b"HOPC".as_slice() {
        Some(Operation::Hopc)
    } else if text == b"BSS".as_slice() {
        Some(Operation::Bss)
    } else if text == b"CODE".as_slice() {
        Some(Operation::Code)
    } else if text == b"ORG".as_slice() {
        Some(Operation::Org)
    } else if text == b"WORDS".as_slice() {
        Some(Operation::Words)
    } else if text == b"USE".as_slice() {
        Some(Operation::Use)
    } else if text == b"END".as_slice() {
        Some(Operation::End)
    } else {
        mnemonic(text).map(Operation::Machine)
    }
}

/// Whether a text is an operation of the assembler, EXM among them.
pub fn is_operation(text: &[u8]) -> bool
    ensures { result ≡ is_some (operation_of text.now) }
{
    operation_in(text).is_some()
}

impl Operation {
    /// Is it a directive that no label may stand on?
    pub(crate) fn is_unlabelled(self) -> bool
        ensures { result ≡ is_unlabelled self }
    {
        matches!(
            self,
            Operation::Code | Operation::Org | Operation::Words | Operation::Use | Operation::End
        )
    }

    /// Does it execute a modified instruction, which this profile leaves out?
    pub(crate) fn is_modified(self) -> bool
        ensures { result ≡ is_modified self }
    {
        matches!(self, Operation::Machine(Op::Exm))
    }

    /// Does it stand in a kind of block that isn't its own?
    pub(crate) fn is_misplaced(self, block: Block) -> bool
        ensures { result ≡ is_misplaced block self }
    {
        match self {
            Operation::Machine(_) => block != Block::Code,
            Operation::Oct | Operation::Dec | Operation::Hopc | Operation::Bss => {
                block != Block::Words
            }
            _ => false,
        }
    }
}
