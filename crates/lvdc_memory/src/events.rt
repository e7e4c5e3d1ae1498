//! The events of a script that are on memory, kept from step to step: one that begins, or that ends and isn't damage, costs its part of
//! them and a look at the parts, and nothing else.

ghost use Rattle.std.specs.Prelude.{◌≡◌, ℕ, ◌<◌, true, All, IfOk, IfSome, IsSomeAnd, None, Some};
ghost use Rattle.lvdc_map.specs.Memory.{Memory};
ghost use Rattle.lvdc_fault.specs.Events.{IsEvent};
ghost use Rattle.lvdc_model.specs.Exchanges.{damages};
ghost use Rattle.lvdc_model.specs.Known.{last_made};
ghost use Rattle.lvdc_model.specs.Trial.{Trial};
ghost use Rattle.lvdc_model.specs.Twins as model;
ghost use Rattle.lvdc_memory.specs.Changes.{damages_in};
ghost use Rattle.lvdc_memory.specs.Holds.{IsMemoryOf};
ghost use Rattle.lvdc_memory.specs.Order.{AreOnMemory};

use crate::VotedMemory;
use crate::changed::Beginning;
use crate::order::events_in_order;
use crate::parts::{Part, parts_of, renew_all};
use lvdc_fault::{Event, Script};
use lvdc_word::NoMemory;
use std::alloc::Global;
use std::marker::Model;

/// The events of a script that are on memory: what they stick and kill is put in force step by step. They are made for one script.
pub struct MemoryEvents {
    events: Vec<Event>,
    parts: Vec<Part>,
    last: Option<u64>,
    until: u64,
}

/// Its parts go in one call, which whoever lets it go doesn't look into.
impl Drop for MemoryEvents {
    fn drop(self) {
        let MemoryEvents {
            events: _,
            parts: _,
            last: _,
            until: _,
        } = self;
    }
}

impl Model for MemoryEvents {
    ghost use Rattle.lvdc_memory.specs.Events.{MemoryEvents, AreKept};

    ghost Value = { MemoryEvents };

    ghost view = { λ m. record { events = m.events.items; last = m.last } };

    ghost invariant = { AreKept };
}

impl MemoryEvents {
    /// Those of a script, of which nothing is in force. It takes room for them alone.
    pub fn for_script(alloc: Global, script: &Script) -> Result<MemoryEvents, NoMemory>
        requires { All IsEvent script.now }
        ensures events { IfOk result (λ m. AreOnMemory script.now m.events) }
        ensures last { IfOk result (λ m. m.last ≡ None) }
    {
        let events = events_in_order(alloc, script)?;
        let parts = parts_of(alloc, &events)?;
        Ok(MemoryEvents {
            events,
            parts,
            last: None,
            until: 0,
        })
    }

    /// Begins a step of the memory: damages cells, and puts in force what is stuck and dead. Where since the last step no event begins
    /// and none has ended but damage, the step is noted alone.
    #[inline(always)]
    pub fn begin(&mut self, step: u64, memory: &mut VotedMemory)
        ensures events { self.new.events ≡ self.old.events }
        ensures last { self.new.last ≡ Some step }
        ensures banks { memory.new.twins.banks ≡ memory.old.twins.banks }
        ensures begun { (o : Trial) (t : model.Twins) (i : Memory) → AreOnMemory o.script self.old.events
            → IsMemoryOf o self.old.last memory.old t i → IsMemoryOf o (Some step) memory.new (damages step o.script t) i }
    {
        if lasts(self.last, self.until, step) {
            self.last = Some(step);
        } else {
            self.change(step, Some(step), memory);
        }
    }

    /// Puts in force what is stuck and dead in the step before this one, if there is one.
    pub fn put_last_in_force(&mut self, steps: u64, memory: &mut VotedMemory)
        requires none { self.old.last ≡ None }
        ensures events { self.new.events ≡ self.old.events }
        ensures last { self.new.last ≡ last_made steps }
        ensures banks { memory.new.twins.banks ≡ memory.old.twins.banks }
        ensures forced { (o : Trial) (t : model.Twins) (i : Memory) → AreOnMemory o.script self.old.events
            → IsMemoryOf o None memory.old t i → IsMemoryOf o (last_made steps) memory.new t i }
    {
        if steps > 0 {
            self.change(steps - 1, None, memory);
        }
    }

    /// Puts in force what is stuck and dead in a step, and does its damage, if it is to be done.
    #[inline(never)]
    fn change(&mut self, step: u64, damaged: Option<u64>, memory: &mut VotedMemory)
        requires own { IfSome damaged (λ other. other ≡ step) }
        ensures events { self.new.events ≡ self.old.events }
        ensures last { self.new.last ≡ Some step }
        ensures banks { memory.new.twins.banks ≡ memory.old.twins.banks }
        ensures begun { (o : Trial) (t : model.Twins) (i : Memory) → AreOnMemory o.script self.old.events
            → IsMemoryOf o self.old.last memory.old t i → IsMemoryOf o (Some step) memory.new (damages_in damaged o.script t) i }
    {
        self.until = renew_all(&self.events, &mut self.parts, self.last, step);
        memory.change(&Beginning {
            events: &self.events,
            parts: &self.parts,
            last: self.last,
            step,
            damaged,
        });
        self.last = Some(step);
    }
}

/// Where this step is in force, is what is known of the parts right at a later one too, if it is up to a third?
fn lasts(last: Option<u64>, until: u64, step: u64) -> bool
    ensures { result ≡ true → IsSomeAnd last (λ before. (before < step) × (step < until)) }
{
    match last {
        Some(before) => before < step && step < until,
        None => false,
    }
}
