//! Which places the lines damage or make stick.

ghost use Rattle.std.specs.Prelude.{◌≡◌, ℕ, false, is_some, length, slice_index_or, IfOk, filter_map};
ghost use Rattle.std.specs.List.{list_any};
ghost use Rattle.lvdc_map.specs.Address.{IsAddress};
ghost use Rattle.lvdc_withstands.specs.Form.{place_of, none_twice};
ghost use Rattle.lvdc_withstands.specs.Places.{Marks};

use lvdc_fault::Event;
use lvdc_map::{Address, Sectors};
use lvdc_word::NoMemory;
use std::alloc::Global;

/// Does a line damage a cell or make bits stick?
fn names_a_place(lines: &[Event]) -> bool
    ensures { result ≡ list_any (λ line. is_some (place_of line)) lines.now }
{
    lines.iter().any(|line| place_of(line).is_some())
}

/// Is no place damaged or made stick by two lines, in whichever twins? Where none is, it takes no room.
pub(crate) fn has_none_twice(alloc: Global, lines: &[Event]) -> Result<bool, NoMemory>
    ensures { IfOk result (λ answer. answer ≡ none_twice (filter_map place_of lines.now)) }
{
    if !names_a_place(lines) {
        return Ok(true);
    }
    let mut named = no_marks(alloc)?;
    for line in lines {
        if !is_first_to_name(line, &mut named) {
            return Ok(false);
        }
    }
    Ok(true)
}

/// A mark for each address, none of which is set.
fn no_marks(alloc: Global) -> Result<Sectors<bool>, NoMemory>
    ensures size { IfOk result (λ marks. length marks.items ≡ 32768) }
    ensures none { IfOk result (λ marks. (k : ℕ) → slice_index_or marks.items k false ≡ false) }
{
    let marks = Sectors::filled(alloc, false)?;
    Ok(marks)
}

/// Marks the place that a line names, if it names one. False where it is marked already.
fn is_first_to_name(line: &Event, named: &mut Sectors<bool>) -> bool
    requires { length named.old.items ≡ 32768 }
    ensures { Marks (place_of line.now) named.old.items named.new.items result }
{
    let Some(place) = place_of(line) else {
        return true;
    };
    is_address(place);
    let number = place.number();
    let is_first = !named.at(number);
    named.put(number, true);
    is_first
}

/// The numbers of an address are in their ranges, by its type.
fn is_address(at: Address)
    ensures { IsAddress at }
{}

/// The place where it damages a cell or makes bits stick.
fn place_of(line: &Event) -> Option<Address>
    ensures { result ≡ place_of line.now }
{
    match *line {
        Event::Damage { at, .. } | Event::Stick { at, .. } => Some(at),
        _ => None,
    }
}
