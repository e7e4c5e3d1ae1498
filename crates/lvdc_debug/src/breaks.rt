ghost use Rattle.std.specs.Prelude.{◌≡◌, ◌↔◌, ◌≤◌, [], length, false, IfOk, IsErr, OnErr};
ghost use Rattle.lvdc_debug.specs.Breaks.{is_same_spot, is_set, takes, with_break};

use crate::Spot2;
use arrayvec::ArrayVec;
use std::marker::Model;
use thiserror::Error;

/// Sixteen other breakpoints are set.
#[derive(Clone, Copy, Debug, PartialEq, Eq, Error)]
#[error("no room for one more breakpoint")]
pub struct BreaksFull;

/// The breakpoints of a session, at most sixteen. Contracts see the list of them, the first one set first.
#[derive(Drop)]
pub struct Breaks {
    spots: ArrayVec<Spot2, 16>,
}

impl Model for Breaks {
    ghost use Rattle.std.specs.Prelude.{◌≤◌, List, length};
    ghost use Rattle.lvdc_debug.specs.declared.command.Spot2.{Spot2};

    ghost Value = { List Spot2 };

    ghost view = { λ b. b.spots.items };

    ghost invariant = { λ b. length b.spots.items ≤ 16 };
}

/// Is this the same address and the same syllable?
fn is_same_spot(a: &Spot2, b: &Spot2) -> bool
    ensures { result ≡ is_same_spot a.now b.now }
{
    a.at.pair == b.at.pair && a.at.sector == b.at.sector && a.at.loc == b.at.loc && a.syl == b.syl
}

impl Breaks {
    /// No breakpoint.
    pub fn new() -> Breaks
        ensures { result ≡ [] }
    {
        Breaks {
            spots: ArrayVec::new(),
        }
    }

    /// How many there are.
    pub fn count(&self) -> usize
        ensures value { result ≡ length self.now }
        ensures most { result ≤ 16 }
    {
        self.spots.len()
    }

    /// Is the place a breakpoint?
    pub fn has(&self, spot: &Spot2) -> bool
        ensures { result ≡ is_set self.now spot.now }
    {
        for set in self.spots.as_slice() {
            if is_same_spot(spot, set) {
                return true;
            }
        }
        false
    }

    /// Sets a breakpoint, and answers how many there are then. One that is set already changes nothing.
    pub fn set(&mut self, spot: Spot2) -> Result<usize, BreaksFull>
        ensures count { IfOk result (λ count. count ≡ length self.new) }
        ensures breaks { self.new ≡ with_break self.old spot }

        // Exactly where sixteen others are set, and then nothing changes.
        ensures full { IsErr result ↔ (takes self.old spot ≡ false) }
        ensures unchanged { OnErr result (self.new ≡ self.old) }
        ensures most { length self.new ≤ 16 }
    {
        if self.has(&spot) {
            return Ok(self.spots.len());
        }
        match self.spots.try_push(spot) {
            Ok(()) => Ok(self.spots.len()),
            Err(_) => Err(BreaksFull),
        }
    }
}
