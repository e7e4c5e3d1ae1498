ghost use Rattle.std.specs.Prelude.{◌≡◌, ◌<◌, [], ◌∷◌, ◌++◌, length, slice_get, Some, OnOk, OnErr};

use crate::Event;
use lvdc_word::NoMemory;
use std::alloc::Global;
use std::marker::Model;

/// The events of a run, in the order of their lines. Contracts see it as their list.
#[derive(Drop)]
pub struct Script {
    events: Vec<Event>,
}

impl Model for Script {
    ghost use Rattle.std.specs.Prelude.{List};
    ghost use Rattle.lvdc_fault.specs.declared.event.Event.{Event};

    ghost Value = { List Event };

    ghost view = { λ s. s.events.items };
}

impl Script {
    /// The script without events. It takes no memory.
    pub fn new(alloc: Global) -> Script
        ensures { result ≡ [] }
    {
        Script {
            events: Vec::new(alloc),
        }
    }

    /// Appends an event.
    pub fn push(&mut self, event: Event) -> Result<(), NoMemory>
        ensures pushed { OnOk result (self.new ≡ self.old ++ event ∷ []) }
        ensures unchanged { OnErr result (self.new ≡ self.old) }
    {
        self.events.push(event)?;
        Ok(())
    }

    /// How many events it has.
    pub fn len(&self) -> usize
        ensures { result ≡ length self.now }
    {
        self.events.len()
    }

    /// The event at a position, from 0.
    pub fn event(&self, index: usize) -> &Event
        requires { index < length self.now }
        ensures { slice_get self.now index ≡ Some result.now }
    {
        &self.events[index]
    }
}
