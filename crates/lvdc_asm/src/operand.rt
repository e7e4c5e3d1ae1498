//! What operands come to, by themselves.

ghost use Rattle.std.specs.Prelude.{◌≡◌, ◌<◌, ◌+◌, IfOk, IfErr, IfSome};
ghost use Rattle.lvdc_asm.specs.Faults.{IsOwn};
ghost use Rattle.lvdc_asm.specs.Operands.{is_transfer, transfer_address, residual_address, data_address, reach, name_address, number_address, pair_address, octal_word, decimal_word, name_word};

use crate::AsmFault;
use crate::data::DataPlace;
use crate::target::Target;
use lvdc_isa::Op;
use lvdc_map::Address;
use lvdc_word::Word;

/// The last location of a sector.
const LAST: u32 = 0o377;

/// A9, the highest bit of an address.
const A9: u16 = 1 << 8;

/// Does the operation transfer by an address?
fn is_transfer(op: Op) -> bool
    ensures { result ≡ is_transfer op }
{
    matches!(op, Op::Tra | Op::Tnz | Op::Tmi)
}

/// The address by which a transfer that stands here goes on `offset` locations after a line.
fn transfer_address(here: Address, target: Target, offset: u16) -> Option<u16>
    requires { target.at.loc + offset < 256 }
    ensures value { result ≡ transfer_address here target offset target.syl }
    ensures small { IfSome result (λ address. address < 512) }
{
    let syl = target.syl?;
    if target.at.pair == here.pair && target.at.sector == here.sector {
        Some(u16::from(syl) * A9 + (u16::from(target.at.loc) + offset))
    } else {
        None
    }
}

/// The address of a location of the residual sector, unless it means PQ.
fn residual_address(loc: u16) -> Option<u16>
    requires { loc < 256 }
    ensures value { result ≡ residual_address loc }
    ensures small { IfSome result (λ address. address < 512) }
{
    if A9 + loc == 0o775 {
        None
    } else {
        Some(A9 + loc)
    }
}

/// The address that reaches `offset` locations after this one as data.
fn data_address(assumed: DataPlace, at: Address, offset: u16) -> Option<u16>
    requires { at.loc + offset < 256 }
    ensures value { result ≡ data_address assumed at offset }
    ensures small { IfSome result (λ address. address < 512) }
{
    let loc = u16::from(at.loc) + offset;
    if at.pair != assumed.pair {
        None
    } else if at.sector == assumed.sector {
        Some(loc)
    } else if at.sector == 15 {
        residual_address(loc)
    } else {
        None
    }
}

/// The address by which an instruction that stands here reaches `offset` locations after a line.
fn reach(op: Op, here: Address, assumed: DataPlace, target: Target, offset: u16) -> Option<u16>
    requires { target.at.loc + offset < 256 }
    ensures value { result ≡ reach op here assumed target offset }
    ensures small { IfSome result (λ address. address < 512) }
{
    if is_transfer(op) {
        transfer_address(here, target, offset)
    } else {
        data_address(assumed, target.at, offset)
    }
}

/// The address by which an instruction that stands here reaches `offset` locations after the line of a name.
pub(crate) fn name_address(
    line: u32,
    op: Op,
    here: Address,
    assumed: DataPlace,
    offset: u16,
    target: Option<Target>,
) -> Result<u16, AsmFault>
    ensures value { result ≡ name_address line op here assumed offset target }
    ensures own { IfErr result IsOwn }
    ensures small { IfOk result (λ address. address < 512) }
{
    let Some(target) = target else {
        return Err(AsmFault::UndefinedName(line));
    };
    if u32::from(target.at.loc) + u32::from(offset) > LAST {
        return Err(AsmFault::OutOfRange(line));
    }
    match reach(op, here, assumed, target, offset) {
        Some(address) => Ok(address),
        None => Err(AsmFault::OutOfSector(line)),
    }
}

/// The nine bits that a number gives an operation; a shift takes it as its pattern.
pub(crate) fn number_address(op: Op, n: u64) -> Option<u16>
    ensures value { result ≡ number_address op n }
    ensures small { IfSome result (λ address. address < 512) }
{
    match op {
        Op::Shf => match n {
            0 | 0o1 | 0o2 | 0o20 | 0o40 => Some(128 + n as u16),
            _ => None,
        },
        _ if n < 512 => Some(n as u16),
        _ => None,
    }
}

/// The nine bits by which CDS sets a pair and a sector.
pub(crate) fn pair_address(pair: u64, sector: u64) -> Option<u16>
    ensures value { result ≡ pair_address pair sector }
    ensures small { IfSome result (λ address. address < 512) }
{
    if pair < 4 && sector < 16 {
        Some(A9 + pair as u16 * 32 + sector as u16)
    } else {
        None
    }
}

/// The word of an octal number.
pub(crate) fn octal_word(n: u64) -> Option<Word>
    ensures { result ≡ octal_word n }
{
    if n < u64::from(Word::LIMIT) {
        Some(Word::within(n as u32))
    } else {
        None
    }
}

/// The word of a number with a sign.
pub(crate) fn decimal_word(n: i64) -> Option<Word>
    ensures { result ≡ decimal_word n }
{
    if n < -(1 << 25) || n >= 1 << 25 {
        None
    } else if n < 0 {
        Some(Word::within((n + (1 << 26)) as u32))
    } else {
        Some(Word::within(n as u32))
    }
}

/// The word of the HOP constant of a line of code.
pub(crate) fn name_word(line: u32, target: Option<Target>) -> Result<Word, AsmFault>
    ensures value { result ≡ name_word line target }
    ensures own { IfErr result IsOwn }
{
    let Some(target) = target else {
        return Err(AsmFault::UndefinedName(line));
    };
    match target.hop() {
        Some(hop) => Ok(hop.to_word()),
        None => Err(AsmFault::OutOfSector(line)),
    }
}
