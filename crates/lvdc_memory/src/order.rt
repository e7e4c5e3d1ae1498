//! The events on memory, in an order in which all that act on one place of a twin stand together.

ghost use Rattle.std.specs.Prelude.{◌≡◌, ◌++◌, ◌∷◌, [], All, IfOk, OnOk};
ghost use Rattle.lvdc_fault.specs.Events.{IsEvent};
ghost use Rattle.lvdc_memory.specs.OnMemory.{on_memory};
ghost use Rattle.lvdc_memory.specs.Order.{number_of_event, number_of_pair, number_of_place, AreOnMemory};

use lvdc_fault::{Event, Script};
use lvdc_map::Address;
use lvdc_word::NoMemory;
use std::alloc::Global;

/// The events of a script that are on memory, those with one number together.
pub(crate) fn events_in_order(alloc: Global, script: &Script) -> Result<Vec<Event>, NoMemory>
    requires { All IsEvent script.now }
    ensures { IfOk result (λ events. AreOnMemory script.now events.items) }
{
    let mut events = events_on_memory(alloc, script)?;
    events.sort_by_key(|event| number_of_event(event))?;
    Ok(events)
}

/// The events of a script that are on memory, in its order.
fn events_on_memory(alloc: Global, script: &Script) -> Result<Vec<Event>, NoMemory>
    ensures { IfOk result (λ events. events.items ≡ on_memory script.now) }
{
    let mut events = Vec::new(alloc);
    for at in 0..script.len() {
        add_on_memory(&mut events, script.event(at))?;
    }
    Ok(events)
}

/// Appends an event that is on memory, and no other.
fn add_on_memory(events: &mut Vec<Event>, event: &Event) -> Result<(), NoMemory>
    ensures { OnOk result (events.new.items ≡ events.old.items ++ on_memory (event.now ∷ [])) }
{
    if event.is_on_memory() {
        events.push(*event)?;
    }
    Ok(())
}

/// The number of what an event sticks or kills; 0 where it does neither.
pub(crate) fn number_of_event(event: &Event) -> usize
    ensures { result ≡ number_of_event event.now }
{
    match *event {
        Event::Stick { twin, at, .. } => number_of_place(twin, at),
        Event::Dead { twin, pair, .. } => number_of_pair(twin, pair),
        _ => 0,
    }
}

/// The number of a twin of a pair, from 1.
pub(crate) fn number_of_pair(twin: u8, pair: u8) -> usize
    ensures { result ≡ number_of_pair twin pair }
{
    1 + (4 * usize::from(twin) + usize::from(pair))
}

/// The number of a place of a twin, from 9.
pub(crate) fn number_of_place(twin: u8, place: Address) -> usize
    ensures { result ≡ number_of_place twin place }
{
    9 + (2 * place.number() + usize::from(twin))
}
