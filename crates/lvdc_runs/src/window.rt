//! How many times of a run are made of a script: those in which its events act.

ghost use Rattle.std.specs.Prelude.{◌≡◌, ◌*◌, ◌≤◌, ◌↔◌, IsTrue};
ghost use Rattle.lvdc_fault.specs.Script.{span_of};
ghost use Rattle.lvdc_laws_runs.specs.Joined.{SparesMemory, AllEndBefore, AllSpareMemory};
ghost use Rattle.lvdc_runs.specs.Window.{IsWindow};

use lvdc_fault::{Event, Script};

/// The last step of an event.
fn last_of(event: &Event) -> u64
    ensures { result ≡ (span_of event.now).last }
{
    match *event {
        Event::Flip { last, .. }
        | Event::Force { last, .. }
        | Event::Lag { last, .. }
        | Event::Deaf { last, .. }
        | Event::Stick { last, .. }
        | Event::Dead { last, .. } => last,
        Event::Damage { step, .. } => step,
    }
}

/// Is an event not on memory?
fn spares_memory(event: &Event) -> bool
    ensures { IsTrue result → SparesMemory event.now }
{
    match *event {
        Event::Flip { .. } | Event::Force { .. } | Event::Lag { .. } | Event::Deaf { .. } => true,
        Event::Damage { .. } | Event::Stick { .. } | Event::Dead { .. } => false,
    }
}

/// Is no event of a script on memory?
fn all_spare_memory(script: &Script) -> bool
    ensures { IsTrue result → AllSpareMemory script.now }
{
    for at in 0..script.len() {
        if !spares_memory(script.event(at)) {
            return false;
        }
    }
    true
}

/// The times with whose steps the last event of a script has ended.
pub fn times_to_the_last(script: &Script) -> u64
    ensures { AllEndBefore (3 * result) script.now }
{
    let mut times = 0;
    for at in 0..script.len() {
        let ends = last_of(script.event(at)) / 3 + 1;
        if ends > times {
            times = ends;
        }
    }
    times
}

/// The times of so many that are made of a script: up to its last event, and all of them where an event is on memory.
pub fn window_of(script: &Script, count: u64) -> u64
    ensures { IsWindow script.now result count }
{
    if !all_spare_memory(script) {
        return count;
    }
    times_to_the_last(script).min(count)
}
