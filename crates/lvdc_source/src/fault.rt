ghost use Rattle.std.specs.Prelude.{◌≡◌, ◌≤◌, length};
ghost use Rattle.lvdc_source.specs.declared.fault.SourceFault.TheVariants.{NoMemory as WantsMemory};

use lvdc_word::NoMemory;
use std::alloc::AllocFailed;
use thiserror::Error;

/// Why a text is no source. Each cause but the want of memory names the line of the first refusal, counted from 1.
#[derive(Clone, Copy, Debug, Error)]
pub enum SourceFault {
    /// There was no memory for the items.
    #[error("no memory")]
    NoMemory,
    /// The line has above 120 bytes.
    #[error("line {0} is too long")]
    LineTooLong(u32),
    /// The label is no name, or it stands where none may.
    #[error("the label on line {0} is wrong")]
    BadLabel(u32),
    /// The line has no operation, or one that isn't known.
    #[error("the operation on line {0} is unknown")]
    UnknownOperation(u32),
    /// The operation is `EXM`, which this profile leaves out.
    #[error("line {0} executes a modified instruction")]
    ExecuteModified(u32),
    /// The line stands outside its kind of block, or a directive's operand is wrong or missing.
    #[error("the directive on line {0} is wrong")]
    BadDirective(u32),
    /// The operand is wrong or missing.
    #[error("the operand on line {0} is wrong")]
    BadOperand(u32),
    /// No line is `END`; the line is the one after the last.
    #[error("END is missing on line {0}")]
    MissingEnd(u32),
    /// A line after `END` that is no comment.
    #[error("line {0} stands after END")]
    AfterEnd(u32),
}

impl SourceFault {
    ghost use Rattle.lvdc_source.specs.Faults.{name_of, line_of};

    /// The name of the cause, as a refusal tells it.
    pub fn name(&self) -> &'static [u8]
        ensures name { result.now ≡ name_of self.now }
        ensures short { length result.now ≤ 16 }
    {
        match self {
            SourceFault::NoMemory => b"NoMemory",
            SourceFault::LineTooLong(_) => b"LineTooLong",
            SourceFault::BadLabel(_) => b"BadLabel",
            SourceFault::UnknownOperation(_) => b"UnknownOperation",
            SourceFault::ExecuteModified(_) => b"ExecuteModified",
            SourceFault::BadDirective(_) => b"BadDirective",
            SourceFault::BadOperand(_) => b"BadOperand",
            SourceFault::MissingEnd(_) => b"MissingEnd",
            SourceFault::AfterEnd(_) => b"AfterEnd",
        }
    }

    /// The line of the refusal, counted from 1; 0 where there was no memory.
    pub fn line(&self) -> u32
        ensures { result ≡ line_of self.now }
    {
        match self {
            SourceFault::NoMemory => 0,
            SourceFault::LineTooLong(line) => *line,
            SourceFault::BadLabel(line) => *line,
            SourceFault::UnknownOperation(line) => *line,
            SourceFault::ExecuteModified(line) => *line,
            SourceFault::BadDirective(line) => *line,
            SourceFault::BadOperand(line) => *line,
            SourceFault::MissingEnd(line) => *line,
            SourceFault::AfterEnd(line) => *line,
        }
    }
}

impl From<NoMemory> for SourceFault {
    ghost from_gives = { λ _ e. e ≡ WantsMemory };

    fn from(_: NoMemory) -> SourceFault {
        SourceFault::NoMemory
    }
}

impl<T: Drop> From<AllocFailed<T>> for SourceFault {
    ghost from_gives = { λ _ e. e ≡ WantsMemory };

    fn from(_: AllocFailed<T>) -> SourceFault {
        SourceFault::NoMemory
    }
}
