ghost use Rattle.std.specs.Prelude.{◌≡◌, ◌<◌};
ghost use Rattle.lvdc_isa.specs.Instr.{instr, operation, fourteen, is_shift, syllable_of, IsInstruction};

use crate::{Instr, Op};
use lvdc_word::Syllable;

/// The instruction that a syllable is; every syllable is one.
pub fn decode(syllable: Syllable) -> Instr
    ensures value { result ≡ instr syllable }
    ensures small { result.address < 512 }
    ensures instruction { IsInstruction result }
    ensures syllable { syllable_of result ≡ syllable }
{
    let s = syllable.value();
    let address = s & 511;
    Instr {
        op: operation(s >> 9, address),
        address,
    }
}

/// The syllable of an instruction that some syllable is. `decode` and `encode` are inverse to each other.
pub fn encode(instruction: Instr) -> Syllable
    requires { IsInstruction instruction }
    ensures value { result ≡ syllable_of instruction }
    ensures decoded { instr result ≡ instruction }
{
    Syllable::within(instruction.op.code() << 9 | instruction.address)
}

/// What a code means at an address.
fn operation(code: u16, address: u16) -> Op
    requires code { code < 16 }
    requires address { address < 512 }
    ensures { result ≡ operation code address }
{
    match code {
        0 => Op::Hop,
        1 => Op::Mpy,
        2 => Op::Sub,
        3 => Op::Div,
        4 => Op::Tnz,
        5 => Op::Mph,
        6 => Op::And,
        7 => Op::Add,
        8 => Op::Tra,
        9 => Op::Xor,
        10 => Op::Pio,
        11 => Op::Sto,
        12 => Op::Tmi,
        13 => Op::Rsu,
        14 => fourteen(address),
        15 => Op::Cla,
        _ => unreachable!(),
    }
}

/// What code 14 means, by A9 and A8.
fn fourteen(address: u16) -> Op
    requires { address < 512 }
    ensures { result ≡ fourteen address }
{
    match address >> 7 {
        0 | 2 => Op::Cds,
        3 => Op::Exm,
        _ => {
            if is_shift(address & 127) {
                Op::Shf
            } else {
                Op::WrongShift
            }
        }
    }
}

/// Does this pattern shift?
fn is_shift(pattern: u16) -> bool
    ensures { result ≡ is_shift pattern }
{
    pattern == 0 || pattern == 0o1 || pattern == 0o2 || pattern == 0o20 || pattern == 0o40
}
