//! What each line of a script says by itself.

ghost use Rattle.std.specs.Prelude.{◌≡◌, ◌*◌, ◌/◌, ◌%◌, ◌^◌, ◌<◌, nat_lt, IfOk};
ghost use Rattle.std.specs.List.{list_all};
ghost use Rattle.lvdc_fault.specs.Script.{first_of};
ghost use Rattle.lvdc_withstands.specs.Form.{lines_in, is_duplex_pair, is_duplex, is_odd, is_single, is_seen, is_lasting};

use lvdc_fault::{Event, Script};
use lvdc_map::Banks;
use lvdc_word::{Cell, NoMemory};
use std::alloc::Global;

/// The lines that begin in a run of so many times, in their order.
pub(crate) fn lines_in(alloc: Global, script: &Script, count: u64) -> Result<Vec<Event>, NoMemory>
    ensures { IfOk result (λ lines. lines.items ≡ lines_in count script.now) }
{
    let mut lines = Vec::new(alloc);
    for at in 0..script.len() {
        let line = script.event(at);
        if begins_in(count, line) {
            lines.push(*line)?;
        }
    }
    Ok(lines)
}

/// Does it begin in a run of so many times?
fn begins_in(count: u64, line: &Event) -> bool
    ensures { result ≡ nat_lt (first_of line.now) (3 * count) }
{
    u128::from(first_step(line)) < 3 * u128::from(count)
}

/// The first step at which it acts.
pub(crate) fn first_step(line: &Event) -> u64
    ensures { result ≡ first_of line.now }
{
    line.span().first
}

/// Does each line on memory name a duplex pair?
pub(crate) fn are_duplex(banks: Banks, lines: &[Event]) -> bool
    ensures { result ≡ list_all (is_duplex banks) lines.now }
{
    lines.iter().all(|line| is_duplex(banks, line))
}

/// Is each line on memory seen?
pub(crate) fn are_seen(lines: &[Event]) -> bool
    ensures { result ≡ list_all is_seen lines.now }
{
    lines.iter().all(|line| is_seen(line))
}

/// Is each twin that a line kills dead up to the last step?
pub(crate) fn are_lasting(count: u64, lines: &[Event]) -> bool
    ensures { result ≡ list_all (is_lasting count) lines.now }
{
    lines.iter().all(|line| is_lasting(count, line))
}

/// Does it name a duplex pair, if it is on memory?
fn is_duplex(banks: Banks, line: &Event) -> bool
    ensures { result ≡ is_duplex banks line.now }
{
    match *line {
        Event::Damage { at, .. } | Event::Stick { at, .. } => is_duplex_pair(banks, at.pair),
        Event::Dead { pair, .. } => is_duplex_pair(banks, pair),
        _ => true,
    }
}

/// Is a pair no simplex one? From 4 on there is none.
fn is_duplex_pair(banks: Banks, pair: u8) -> bool
    ensures { result ≡ is_duplex_pair banks pair }
{
    pair >= 4 || !banks.simplex(pair)
}

/// Does a reader of parity see it, if it damages a cell or makes bits stick?
fn is_seen(line: &Event) -> bool
    ensures { result ≡ is_seen line.now }
{
    match *line {
        Event::Damage { mask, .. } => is_odd(upper_half(mask)) || is_odd(lower_half(mask)),
        Event::Stick { mask, .. } => is_single(upper_half(mask)) && is_single(lower_half(mask)),
        _ => true,
    }
}

/// Is the twin that it kills dead up to the last step, if it kills one?
fn is_lasting(count: u64, line: &Event) -> bool
    ensures { result ≡ is_lasting count line.now }
{
    match *line {
        Event::Dead { last, .. } => 3 * u128::from(count) <= u128::from(last) + 1,
        _ => true,
    }
}

fn upper_half(mask: Cell) -> u32
    ensures value { result ≡ mask / 2 ^ 14 }
    ensures small { result < 2 ^ 14 }
{
    mask.bits() >> 14
}

fn lower_half(mask: Cell) -> u32
    ensures value { result ≡ mask % 2 ^ 14 }
    ensures small { result < 2 ^ 14 }
{
    mask.bits() & 0x3fff
}

fn is_odd(half: u32) -> bool
    requires { half < 2 ^ 14 }
    ensures { result ≡ is_odd half }
{
    half.count_ones() % 2 == 1
}

fn is_single(half: u32) -> bool
    requires { half < 2 ^ 14 }
    ensures { result ≡ is_single half }
{
    half.count_ones() <= 1
}
