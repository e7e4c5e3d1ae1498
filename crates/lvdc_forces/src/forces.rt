//! What a script puts in force on the copies, kept from step to step: an event that begins or ends costs its part of the script, and
//! nothing else.

ghost use Rattle.std.specs.Prelude.{◌≡◌, ℕ, ◌+◌, ◌*◌, ◌≤◌, ◌<◌, ◌^◌, true, length, All, IfOk, OnOk, List, [], ◌∷◌, ◌++◌};
ghost use Rattle.lvdc_fault.specs.declared.event.Event.{Event};
ghost use Rattle.lvdc_fault.specs.Events.{IsEvent};
ghost use Rattle.lvdc_fault.specs.Script.{is_wrong, wrong_module};
ghost use Rattle.lvdc_forces.specs.InForce.{IsInForce};
ghost use Rattle.lvdc_forces.specs.Parts.{events_of_part, no_part, part_of_script, AreForces, IsRightAt, IsRightUntil};

use crate::in_force::InForce;
use crate::known::Known;
use crate::part::Part;
use crate::parts::renew;
use lvdc_fault::Script;
use lvdc_word::NoMemory;
use std::alloc::Global;

/// What is in force on the copies, by the parts of a script. It is made for one script, and asked by step.
pub struct Forces {
    pub(crate) at: u64,
    pub(crate) until: u64,
    pub(crate) parts: Vec<Part>,
    pub(crate) known: Known,
}

/// Its parts go in one call, which whoever lets it go doesn't look into.
impl Drop for Forces {
    fn drop(self) {
        let Forces {
            at: _,
            until: _,
            parts: _,
            known: _,
        } = self;
    }
}

impl Forces {
    /// Those of a script, of which nothing is known.
    pub fn for_script(alloc: Global, script: &Script) -> Result<Forces, NoMemory>
        ensures { IfOk result (AreForces script.now) }
    {
        let count = script.len() / 256 + 1;
        let mut parts = Vec::with_capacity(alloc, count)?;
        add_unknown(count, &mut parts)?;
        Ok(Forces {
            at: 0,
            until: 0,
            parts,
            known: Known::none(),
        })
    }

    /// Goes to a step. Where no event that acts on a copy begins or has ended since the last one, the step is noted alone.
    #[inline(always)]
    pub fn go_to(&mut self, script: &Script, step: u64)
        requires fit { AreForces script.now self.old }
        requires events { All IsEvent script.now }
        requires bound { step < 2 ^ 63 }
        ensures fit { AreForces script.now self.new }
        ensures known { IsRightAt script.now step self.new.known }
    {
        if self.lasts(step) {
            self.at = step;
        } else {
            self.renew(script, step);
        }
    }

    /// What is in force on the copies.
    pub fn in_force(&self) -> &InForce
        ensures { result.now ≡ self.now.known.force }
    {
        &self.known.force
    }

    /// The lowest module with two wrong copies.
    pub fn wrong_module(&self) -> Option<u8>
        ensures { result ≡ self.now.known.wrong }
    {
        self.known.wrong
    }

    /// Is this copy of this module wrong? Modules are 1 to 7 and copies 1 to 3.
    pub fn has(&self, number: u8, copy: u8) -> bool
        requires first_number { 1 ≤ number }
        requires last_number { number ≤ 7 }
        requires first_copy { 1 ≤ copy }
        requires last_copy { copy ≤ 3 }
        ensures { (script : List Event) (step : ℕ) → IsRightAt script step self.now.known → result ≡ is_wrong script step number copy }
    {
        self.known.force.marks[3 * usize::from(number - 1) + usize::from(copy - 1)]
    }

    /// Is what is known right at the step too?
    fn lasts(&self, step: u64) -> bool
        ensures at { result ≡ true → self.now.at ≤ step }
        ensures until { result ≡ true → step < self.now.until }
    {
        self.at <= step && step < self.until
    }

    /// Works out anew the parts in which an event begins or has ended, and what is known.
    #[inline(never)]
    fn renew(&mut self, script: &Script, step: u64)
        requires fit { AreForces script.now self.old }
        requires events { All IsEvent script.now }
        requires bound { step < 2 ^ 63 }
        ensures fit { AreForces script.now self.new }
        ensures known { IsRightAt script.now step self.new.known }
    {
        self.until = renew_all(script, self.at, step, &mut self.parts);
        self.known = Known::of_parts(&self.parts);
        self.at = step;
    }
}

/// Adds so many parts, of which nothing is known, to none.
fn add_unknown(count: usize, parts: &mut Vec<Part>) -> Result<(), NoMemory>
    requires { parts.old.items ≡ [] }
    ensures count { OnOk result (length parts.new.items ≡ count) }
    ensures unknown { OnOk result ((k : ℕ) → part_of_script parts.new.items k ≡ no_part) }
{
    for _made in 0..count {
        add_one(parts)?;
    }
    Ok(())
}

/// Adds a part of which nothing is known.
fn add_one(parts: &mut Vec<Part>) -> Result<(), NoMemory>
    ensures { OnOk result (parts.new.items ≡ parts.old.items ++ no_part ∷ []) }
{
    parts.extend_from_slice(&[Part::none()])?;
    Ok(())
}

/// Makes all parts right from a step on, which were right from another on, and answers the first step at which one isn't.
fn renew_all(script: &Script, at: u64, step: u64, parts: &mut Vec<Part>) -> u64
    requires events { All IsEvent script.now }
    requires few { 256 * length parts.old.items ≤ length script.now + 256 }
    requires bound { step < 2 ^ 63 }
    ensures length { length parts.new.items ≡ length parts.old.items }
    ensures right { ((k : ℕ) → k < length parts.old.items → IsRightUntil (events_of_part script.now k) at (part_of_script parts.old.items k))
        → (k : ℕ) → k < length parts.old.items → IsRightUntil (events_of_part script.now k) step (part_of_script parts.new.items k) }
    ensures later { step < result }
    ensures until { (k : ℕ) → k < length parts.old.items → result ≤ (part_of_script parts.new.items k).until }
{
    let mut until = u64::MAX;
    for number in 0..parts.len() {
        until = until.min(renew(script, number, at, step, &mut parts[number]));
    }
    until
}
