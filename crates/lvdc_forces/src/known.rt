//! What is known of all copies by what the parts of a script do to them.

ghost use Rattle.std.specs.Prelude.{◌≡◌, ℕ, ◌+◌, ◌-◌, ◌*◌, ◌≤◌, ◌<◌, ◌||◌, ◌&&◌, length, All, List, find, [], ◌∷◌, None};
ghost use Rattle.std.specs.List.{list_any};
ghost use Rattle.lvdc_fault.specs.Events.{IsEvent};
ghost use Rattle.lvdc_fault.specs.Script.{are_two};
ghost use Rattle.lvdc_fault.specs.declared.event.Event.{Event};
ghost use Rattle.lvdc_forces.specs.InForce.{faults_at, mark_at, nothing_in_force};
ghost use Rattle.lvdc_forces.specs.Parts.{faults_in, total_of, IsRightAt};
ghost use Rattle.lvdc_forces.specs.Shares.{share_at, share_of};

use crate::in_force::{Faults, InForce};
use crate::part::Part;
use crate::parts::add_part;
use crate::shares::Share;

/// What is in force on each copy, which copies are wrong, and the lowest module with two of them.
#[derive(Clone, Copy)]
pub struct Known {
    pub(crate) force: InForce,
    pub(crate) wrong: Option<u8>,
}

impl Known {
    /// Nothing is in force.
    pub(crate) fn none() -> Known
        ensures { result ≡ record { force = nothing_in_force; wrong = None } }
    {
        Known {
            force: InForce::none(),
            wrong: None,
        }
    }

    /// What is known by the parts of a script.
    pub(crate) fn of_parts(parts: &[Part]) -> Known
        ensures { (script : List Event) (step : ℕ) → All IsEvent script
            → ((n : ℕ) → n < 21 → total_of parts.now n (length parts.now) ≡ share_of script step n) → IsRightAt script step result }
    {
        if !name_any(parts) {
            return Known::none();
        }
        let shares = totals(parts);
        let marks = marks_of(&shares);
        let copies = copies_of(&shares);
        Known {
            force: InForce {
                any: any_of(&marks),
                deaf: any_deaf(&copies),
                marks,
                copies,
            },
            wrong: lowest_of(&marks),
        }
    }
}

/// Does any part name a copy?
fn name_any(parts: &[Part]) -> bool
    ensures { result ≡ list_any (λ part. part.names_any) parts.now }
{
    parts.iter().any(|part| part.names_any)
}

/// What all parts do to each copy.
fn totals(parts: &[Part]) -> [Share; 21]
    ensures { (n : ℕ) → n < 21 → share_at result n ≡ total_of parts.now n (length parts.now) }
{
    let mut shares = [Share::none(); 21];
    for part in parts {
        add_part(part, &mut shares);
    }
    shares
}

/// Which copies an event acts on.
fn marks_of(shares: &[Share; 21]) -> [bool; 21]
    ensures { (n : ℕ) → n < 21 → mark_at result n ≡ (share_at shares.now n).named }
{
    let mut marks = [false; 21];
    for number in 0..21 {
        marks[number] = shares[number].named;
    }
    marks
}

/// What is in force on each copy.
fn copies_of(shares: &[Share; 21]) -> [Faults; 21]
    ensures { (n : ℕ) → n < 21 → faults_at result n ≡ faults_in (share_at shares.now n) }
{
    let mut copies = [Faults::none(); 21];
    for number in 0..21 {
        copies[number] = faults_of(&shares[number]);
    }
    copies
}

/// What is in force on a copy.
fn faults_of(share: &Share) -> Faults
    ensures { result ≡ faults_in share.now }
{
    if share.named {
        Faults {
            deaf: share.deaf,
            harm: share.harm(),
        }
    } else {
        Faults::none()
    }
}

/// Is any copy marked?
fn any_of(marks: &[bool; 21]) -> bool
    ensures { result ≡ list_any (λ mark. mark) marks.now }
{
    marks.iter().any(|mark| *mark)
}

/// Is any copy deaf?
fn any_deaf(copies: &[Faults; 21]) -> bool
    ensures { result ≡ list_any (λ copy. copy.deaf) copies.now }
{
    copies.iter().any(|copy| copy.deaf)
}

/// The lowest module with two marked copies.
fn lowest_of(marks: &[bool; 21]) -> Option<u8>
    ensures { result ≡ find (λ m. are_two (λ c. mark_at marks.now (3 * (m - 1) + (c - 1)))) (1 ∷ 2 ∷ 3 ∷ 4 ∷ 5 ∷ 6 ∷ 7 ∷ []) }
{
    for number in 1..=7 {
        if has_two(marks, number) {
            return Some(number);
        }
    }
    None
}

/// Has this module two marked copies?
fn has_two(marks: &[bool; 21], number: u8) -> bool
    requires first { 1 ≤ number }
    requires last { number ≤ 7 }
    ensures { result ≡ are_two (λ c. mark_at marks.now (3 * (number - 1) + (c - 1))) }
{
    let first = 3 * usize::from(number - 1);
    two_of(marks[first], marks[first + 1], marks[first + 2])
}

/// Do two of the three hold?
fn two_of(one: bool, two: bool, three: bool) -> bool
    ensures { result ≡ ((one && two) || (one && three) || (two && three)) }
{
    one && two || one && three || two && three
}
