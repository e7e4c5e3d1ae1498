ghost use Rattle.std.specs.Prelude.{◌≡◌, ◌<◌};
ghost use Rattle.lvdc_isa.specs.Instr.{operation_code, takes_operand};

#[derive(Debug)]
/// What an instruction does. The eighteen mnemonics and their codes are this project's profile:
/// none names `WrongShift`, which is a shift whose pattern means nothing.
#[derive(Clone, Copy, PartialEq, Eq)]
pub enum Op {
    /// Goes on at the place, and with the data place, that the operand word names.
    Hop,
    /// Multiplies the accumulator by the operand; the product lands in PQ four instruction times later.
    Mpy,
    /// Subtracts the operand from the accumulator.
    Sub,
    /// Divides the accumulator by the operand; the quotient lands in PQ eight instruction times later.
    Div,
    /// Transfers where the accumulator is not zero.
    Tnz,
    /// Multiplies and holds the machine until the product lands, in the accumulator too.
    Mph,
    /// The accumulator and the operand, bit by bit.
    And,
    /// Adds the operand to the accumulator.
    Add,
    /// Transfers.
    Tra,
    /// The accumulator exclusive-or the operand, bit by bit.
    Xor,
    /// Writes the accumulator to a port, or reads it from one.
    Pio,
    /// Stores by the place: the accumulator into memory or into PQ, or the saver into its words.
    Sto,
    /// Transfers where the accumulator is negative.
    Tmi,
    /// Subtracts the accumulator from the operand.
    Rsu,
    /// Changes the data place.
    Cds,
    /// Shifts the accumulator, or clears it.
    Shf,
    /// A shift whose pattern means nothing: it stops the machine. It is written `SHF`.
    WrongShift,
    /// Stops the machine: in this project's profile no instruction is modified and executed.
    Exm,
    /// Clears the accumulator and adds the operand.
    Cla,
}

impl Op {
    /// Does the operation take an operand word?
    pub fn takes_operand(self) -> bool
        ensures { result ≡ takes_operand self }
    {
        matches!(
            self,
            Op::Hop
                | Op::Mpy
                | Op::Sub
                | Op::Div
                | Op::Mph
                | Op::And
                | Op::Add
                | Op::Xor
                | Op::Rsu
                | Op::Cla
        )
    }

    /// The four bits of the operation's code.
    pub(crate) fn code(self) -> u16
        ensures value { result ≡ operation_code self }
        ensures small { result < 16 }
    {
        match self {
            Op::Hop => 0,
            Op::Mpy => 1,
            Op::Sub => 2,
            Op::Div => 3,
            Op::Tnz => 4,
            Op::Mph => 5,
            Op::And => 6,
            Op::Add => 7,
            Op::Tra => 8,
            Op::Xor => 9,
            Op::Pio => 10,
            Op::Sto => 11,
            Op::Tmi => 12,
            Op::Rsu => 13,
            Op::Cds | Op::Shf | Op::WrongShift | Op::Exm => 14,
            Op::Cla => 15,
        }
    }
}
