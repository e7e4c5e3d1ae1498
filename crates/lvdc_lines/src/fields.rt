ghost use Rattle.std.specs.Prelude.{◌≡◌, ◌<◌, ◌≤◌, ◌^◌, Some, IfSome};
ghost use Rattle.lvdc_vote.specs.Numbers.{latches_of};
ghost use Rattle.lvdc_map.specs.Banks.{IsPlace};
ghost use Rattle.lvdc_fault.specs.Events.{STEPS, IsCopy, IsSpan};
ghost use Rattle.lvdc_lines.specs.Fields.{decimal_in, octal_in, step_in, twin_in, pair_in, cell_in, module_copy_in, index_in, span_in, place_in};

use lvdc_fault::MOST_TIMES;
use lvdc_map::Address;
use lvdc_modules::latches;
use lvdc_text::{octal, plain_decimal};
use lvdc_word::Cell;

/// The first step that no event names: three for each instruction time that a run may have.
const STEPS: u64 = 3 * MOST_TIMES;

/// The copy of a module.
#[derive(Clone, Copy, PartialEq, Eq)]
pub(crate) struct ModuleCopy {
    pub(crate) number: u8,
    pub(crate) copy: u8,
}

/// The steps at which an event acts.
#[derive(Clone, Copy, PartialEq, Eq)]
pub(crate) struct Span {
    pub(crate) first: u64,
    pub(crate) last: u64,
}

/// A decimal number without a needless zero, from `first` on and below `limit`.
pub fn decimal_in(first: u64, limit: u64, token: &[u8]) -> Option<u64>
    ensures value { result ≡ decimal_in first limit token.now }
    ensures range { IfSome result (λ n. (first ≤ n) × (n < limit)) }
{
    match plain_decimal(token, 7) {
        Some(number) if number >= first && number < limit => Some(number),
        _ => None,
    }
}

/// A number of at most so many octal digits, below `limit`.
pub fn octal_in(limit: u64, digits: u8, token: &[u8]) -> Option<u64>
    requires { digits ≤ 18 }
    ensures value { result ≡ octal_in limit digits token.now }
    ensures range { IfSome result (λ n. n < limit) }
{
    match octal(token, digits) {
        Some(number) if number < limit => Some(number),
        _ => None,
    }
}

/// A step that an event may name.
#[tactic(auto, unfolding(crate::specs::Fields::step_in))]
pub(crate) fn step_in(token: &[u8]) -> Option<u64>
    ensures value { result ≡ step_in token.now }
    ensures range { IfSome result (λ step. step < STEPS) }
{
    decimal_in(0, STEPS, token)
}

/// A twin: 0 or 1.
#[tactic(auto, unfolding(crate::specs::Fields::twin_in))]
pub(crate) fn twin_in(token: &[u8]) -> Option<u8>
    ensures value { result ≡ twin_in token.now }
    ensures range { IfSome result (λ twin. twin < 2) }
{
    let twin = decimal_in(0, 2, token)?;
    Some(twin as u8)
}

/// A pair: 0 to 3.
#[tactic(auto, unfolding(crate::specs::Fields::pair_in))]
pub(crate) fn pair_in(token: &[u8]) -> Option<u8>
    ensures value { result ≡ pair_in token.now }
    ensures range { IfSome result (λ pair. pair < 4) }
{
    let pair = octal_in(4, 1, token)?;
    Some(pair as u8)
}

/// Bits of a cell: one to ten octal digits.
#[tactic(auto, unfolding(crate::specs::Fields::cell_in))]
pub(crate) fn cell_in(token: &[u8]) -> Option<Cell>
    ensures value { result ≡ cell_in token.now }
    ensures range { IfSome result (λ cell. cell < 2 ^ 28) }
{
    let bits = octal_in(1 << 28, 10, token)?;
    Cell::new(bits as u32)
}

/// A module, 1 to 7, and one of its copies, 1 to 3.
#[tactic(auto, unfolding(crate::specs::Fields::module_copy_in))]
pub(crate) fn module_copy_in(number: &[u8], copy: &[u8]) -> Option<ModuleCopy>
    ensures value { result ≡ module_copy_in number.now copy.now }
    ensures range { IfSome result (λ named. IsCopy named.number named.copy) }
{
    let number = decimal_in(1, 8, number)?;
    let copy = decimal_in(1, 4, copy)?;
    Some(ModuleCopy {
        number: number as u8,
        copy: copy as u8,
    })
}

/// The index of a latch of the copy's module.
#[tactic(auto, unfolding(crate::specs::Fields::index_in))]
pub(crate) fn index_in(named: ModuleCopy, token: &[u8]) -> Option<u8>
    requires { IsCopy named.number named.copy }
    ensures value { result ≡ index_in (Some named) token.now }
    ensures range { IfSome result (λ index. index < latches_of named.number) }
{
    let index = decimal_in(0, u64::from(latches(named.number)), token)?;
    Some(index as u8)
}

/// The first and the last step, in order.
#[tactic(auto, unfolding(crate::specs::Fields::span_in))]
pub(crate) fn span_in(first: &[u8], last: &[u8]) -> Option<Span>
    ensures value { result ≡ span_in first.now last.now }
    ensures range { IfSome result (λ span. IsSpan span.first span.last) }
{
    let first = step_in(first)?;
    let last = step_in(last)?;
    if first <= last {
        Some(Span { first, last })
    } else {
        None
    }
}

/// A place of the twins: a pair, a sector and a location.
#[tactic(auto, unfolding(crate::specs::Fields::place_in))]
pub fn place_in(pair: &[u8], sector: &[u8], loc: &[u8]) -> Option<Address>
    ensures value { result ≡ place_in pair.now sector.now loc.now }
    ensures range { IfSome result IsPlace }
{
    let pair = pair_in(pair)?;
    let sector = octal_in(16, 2, sector)?;
    let loc = octal_in(256, 3, loc)?;
    Address::new(pair, sector as u8, loc as u8)
}
