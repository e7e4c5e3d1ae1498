ghost use Rattle.std.specs.Prelude.{◌≡◌, ◌≢◌, ◌<◌, IfSome, IfNone};
ghost use Rattle.lvdc_isa.specs.declared.op.Op.TheVariants.{WrongShift};
ghost use Rattle.lvdc_isa.specs.Mnemonics.{mnemonic_of, operation_named, octal_digit, printed};

use crate::{Instr, Op};

/// The operations that a mnemonic names.
const NAMED: [Op; 18] = [
    Op::Hop,
    Op::Mpy,
    Op::Sub,
    Op::Div,
    Op::Tnz,
    Op::Mph,
    Op::And,
    Op::Add,
    Op::Tra,
    Op::Xor,
    Op::Pio,
    Op::Sto,
    Op::Tmi,
    Op::Rsu,
    Op::Cds,
    Op::Shf,
    Op::Exm,
    Op::Cla,
];

/// The instruction as text: its mnemonic, a blank and three octal digits of its address.
pub fn print(instruction: Instr) -> [u8; 7]
    requires { instruction.address < 512 }
    ensures { result ≡ printed instruction }
{
    let [first, second, third] = name(instruction.op);
    let address = instruction.address;
    [
        first,
        second,
        third,
        b' ',
        octal_digit(address >> 6),
        octal_digit(address >> 3),
        octal_digit(address),
    ]
}

/// The operation that a mnemonic names, in capitals; None for every other text.
pub fn mnemonic(text: &[u8]) -> Option<Op>
    ensures value { result ≡ operation_named text.now }
    ensures named { IfSome result (λ op. text.now ≡ mnemonic_of op) }
    ensures unnamed { IfNone result ((op : Op) → text.now ≢ mnemonic_of op) }
    ensures read_back { (op : Op) → op ≢ WrongShift → text.now ≡ mnemonic_of op → result ≡ Some op }
{
    NAMED
        .iter()
        .find(|op| text == name(**op).as_slice())
        .copied()
}

/// The mnemonic of an operation.
fn name(op: Op) -> [u8; 3]
    ensures { result ≡ mnemonic_of op }
{
    match op {
        Op::Hop => *b"HOP",
        Op::Mpy => *b"MPY",
        Op::Sub => *b"SUB",
        Op::Div => *b"DIV",
        Op::Tnz => *b"TNZ",
        Op::Mph => *b"MPH",
        Op::And => *b"AND",
        Op::Add => *b"ADD",
        Op::Tra => *b"TRA",
        Op::Xor => *b"XOR",
        Op::Pio => *b"PIO",
        Op::Sto => *b"STO",
        Op::Tmi => *b"TMI",
        Op::Rsu => *b"RSU",
        Op::Cds => *b"CDS",
        Op::Shf | Op::WrongShift => *b"SHF",
        Op::Exm => *b"EXM",
        Op::Cla => *b"CLA",
    }
}

/// The lowest octal digit of a number.
fn octal_digit(n: u16) -> u8
    ensures { result ≡ octal_digit n }
{
    b'0' + (n & 7) as u8
}
