//! How the memory begins a step: what the events that are new in it stick and kill is put in force, and nothing else.

ghost use Rattle.std.specs.Prelude.{◌≡◌, ◌≢◌, ◌<◌, false, [], ◌∷◌, length, All};
ghost use Rattle.lvdc_fault.specs.Events.{IsEvent};
ghost use Rattle.lvdc_memory.specs.Changes.{Changes};
ghost use Rattle.lvdc_memory.specs.Events.{AreOld};
ghost use Rattle.lvdc_memory.specs.News.{is_new, new_events, was_within};
ghost use Rattle.lvdc_memory.specs.Parts.{part_at, AreParts, AreRight};

use crate::VotedMemory;
use crate::parts::{Part, is_dead_now, part_of, stuck_now};
use lvdc_fault::{Event, Span};
use lvdc_twin::changes_are_local;

/// A step that begins: the events on memory, their parts, which are right at it, the last step before it, if there was one, and the
/// step whose damage is done, if one's is.
#[derive(Clone, Copy)]
pub(crate) struct Beginning<'a> {
    pub(crate) events: &'a [Event],
    pub(crate) parts: &'a [Part],
    pub(crate) last: Option<u64>,
    pub(crate) step: u64,
    pub(crate) damaged: Option<u64>,
}

impl Beginning<'_> {
    /// Was a part made right for this step? Elsewhere no event is new.
    fn is_changed(&self, number: usize) -> bool
        requires { number < length self.now.parts.now }
        ensures { result ≡ false → (part_at self.now.parts.now number).since ≢ self.now.step }
    {
        self.parts[number].since == self.step
    }
}

/// Does an event change what is in force where a step comes after this one? Damage does at its step.
fn is_new(event: &Event, before: Option<u64>, step: u64) -> bool
    ensures { result ≡ is_new before step event.now }
{
    match *event {
        Event::Damage { step: damaged, .. } => damaged == step,
        _ => {
            let span = event.span();
            was_within(span, before) != span.has(step)
        }
    }
}

/// Does a step, if there is one, lie in a span?
fn was_within(span: Span, step: Option<u64>) -> bool
    ensures { result ≡ was_within span.first span.last step }
{
    match step {
        Some(before) => span.has(before),
        None => false,
    }
}

impl VotedMemory {
    /// Puts in force what the events that are new stick and kill, and does their damage.
    pub(crate) fn change(&mut self, by: &Beginning<'_>)
        requires events { All IsEvent by.now.events.now }
        requires parts { AreParts by.now.events.now by.now.parts.now }
        requires right { AreRight by.now.events.now by.now.step by.now.parts.now }
        requires old { AreOld by.now.events.now by.now.parts.now by.now.last by.now.step }
        ensures changes { Changes by.now.events.now by.now.step by.now.damaged
            (new_events by.now.last by.now.step by.now.events.now) self.old.twins self.new.twins }
        ensures banks { self.new.twins.banks ≡ self.old.twins.banks }
        ensures ledger { self.new.ledger ≡ self.old.ledger }
    {
        for number in 0..by.parts.len() {
            if by.is_changed(number) {
                self.change_part(by, part_of(by.events, number));
            }
        }
    }

    /// The same of the events of a part.
    fn change_part(&mut self, by: &Beginning<'_>, events: &[Event])
        requires events { All IsEvent events.now }
        requires parts { AreParts by.now.events.now by.now.parts.now }
        requires right { AreRight by.now.events.now by.now.step by.now.parts.now }
        ensures changes { Changes by.now.events.now by.now.step by.now.damaged
            (new_events by.now.last by.now.step events.now) self.old.twins self.new.twins }
        ensures banks { self.new.twins.banks ≡ self.old.twins.banks }
        ensures ledger { self.new.ledger ≡ self.old.ledger }
    {
        for event in events {
            if is_new(event, by.last, by.step) {
                self.change_one(by, event);
            }
        }
    }

    /// The same of one event, new or not.
    fn change_one(&mut self, by: &Beginning<'_>, event: &Event)
        requires event { IsEvent event.now }
        requires parts { AreParts by.now.events.now by.now.parts.now }
        requires right { AreRight by.now.events.now by.now.step by.now.parts.now }
        ensures changes { Changes by.now.events.now by.now.step by.now.damaged (event.now ∷ []) self.old.twins self.new.twins }
        ensures banks { self.new.twins.banks ≡ self.old.twins.banks }
        ensures ledger { self.new.ledger ≡ self.old.ledger }
    {
        changes_are_local();
        match *event {
            Event::Damage {
                twin,
                at,
                step,
                mask,
            } => {
                if by.damaged == Some(step) {
                    self.twins.damage(twin, at, mask);
                }
            }
            Event::Stick { twin, at, .. } => {
                let stuck = stuck_now(by.events, by.parts, by.step, twin, at);
                self.twins.stick(twin, at, stuck.mask, stuck.value);
            }
            Event::Dead { twin, pair, .. } => {
                let dead = is_dead_now(by.events, by.parts, by.step, twin, pair);
                self.twins.dead(twin, pair, dead);
            }
            _ => {}
        }
    }
}
