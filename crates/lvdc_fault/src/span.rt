ghost use Rattle.std.specs.Prelude.{◌≡◌, ℕ, ◌≤◌, ◌<◌, ◌^◌};
ghost use Rattle.lvdc_fault.specs.Script.{is_within, span_of, is_on_memory};

use crate::Event;

/// The steps from the first to the last.
#[derive(Clone, Copy)]
pub struct Span {
    pub first: u64,
    pub last: u64,
}

impl Span {
    /// Does a step lie from the first to the last?
    pub fn has(self, step: u64) -> bool
        ensures { result ≡ is_within self.first self.last step }
    {
        self.first <= step && step <= self.last
    }

    /// The first step after this one at which the span begins or has ended.
    pub fn change_after(self, step: u64) -> u64
        ensures later { step < 2 ^ 63 → step < result }
        ensures stays { (t : ℕ) → step ≤ t → t < result → is_within self.first self.last t ≡ is_within self.first self.last step }
    {
        if step < self.first {
            self.first
        } else if step <= self.last {
            self.last.saturating_add(1)
        } else {
            u64::MAX
        }
    }
}

impl Event {
    /// The steps of an event: damage is at its step alone.
    pub fn span(&self) -> Span
        ensures { result ≡ span_of self.now }
    {
        match *self {
            Event::Flip { first, last, .. }
            | Event::Force { first, last, .. }
            | Event::Lag { first, last, .. }
            | Event::Deaf { first, last, .. }
            | Event::Stick { first, last, .. }
            | Event::Dead { first, last, .. } => Span { first, last },
            Event::Damage { step, .. } => Span {
                first: step,
                last: step,
            },
        }
    }

    /// Is an event on memory, and not on a copy?
    pub fn is_on_memory(&self) -> bool
        ensures { result ≡ is_on_memory self.now }
    {
        match *self {
            Event::Damage { .. } | Event::Stick { .. } | Event::Dead { .. } => true,
            _ => false,
        }
    }
}
