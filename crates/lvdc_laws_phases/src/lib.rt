//! Three phases of the seven modules are one instruction time of the plain machine. These are laws over the definitions of
//! both: each is the contract of a function that does nothing when it runs, and that a proof cites by calling it.
//!
//! `phases_stand` is the whole law as the voted machine uses it, of lists of latches; it rests on the laws over a bus. `IsPhase` (in `specs/Phase.antt`) says
//! when the latches stand for a plain state, a latch a line; `PhaseLaw` (in `specs/Standing.antt`) says what then follows.
#![tactic(auto)]

ghost use Rattle.std.specs.Prelude.{ℕ, ◌<◌, ◌^◌};
ghost use Rattle.lvdc_map.specs.Address.{Spot};
ghost use Rattle.lvdc_map.specs.Hop.{HopConstant, IsHopConstant};
ghost use Rattle.lvdc_map.specs.Memory.{Memory, word_at};
ghost use Rattle.lvdc_plain.specs.Plain.{started};
ghost use Rattle.lvdc_modules.specs.Rows.{bus_of, start_latches};
ghost use Rattle.lvdc_laws_phases.specs.Work.{UnitIsRight};
ghost use Rattle.lvdc_laws_phases.specs.Phase.{IsPhase};
ghost use Rattle.lvdc_laws_phases.specs.Standing.{FirstLaw, SecondLaw, ThirdLaw, WishLaw, WordsLaw, PhaseLaw, Standing};

use lvdc_mul::{divide_lands, multiply_lands};

/// The unit, for each kind of work that is issued.
fn unit_is_right()
    ensures { UnitIsRight }
{
    multiply_lands();
    divide_lands();
}

/// From latches that stand for a running plain state, with the exchange of each phase answered: after the first phase they
/// stand in the second, after the second in the third, and after the third for the state one instruction time later,
/// stopped or not.
pub fn three_phases()
    ensures first { FirstLaw }
    ensures second { SecondLaw }
    ensures third { ThirdLaw }
{
    unit_is_right();
}

/// What the latches wish for in each phase is what the plain machine exchanges in it: the fetch, the read of the operand,
/// and the port exchange or the store.
pub fn phase_wishes()
    ensures { WishLaw }
{}

/// An instruction time of words leaves words.
pub fn times_keep_words()
    ensures { WordsLaw }
{}

/// At the start the seven modules stand for the plain machine at the start.
pub fn start_stands()
    ensures phase { (start : HopConstant) (banks : ℕ) (words : Memory) → IsHopConstant start
        → IsPhase 0 (bus_of (start_latches start) 0 0) (started banks start words) }
    ensures stands { (start : HopConstant) (banks : ℕ) (words : Memory)
        → IsHopConstant start → ((at : Spot) → word_at words at < 2 ^ 26)
        → Standing 0 (start_latches start) (started banks start words) }
{}

/// Three phases of lists of latches are one instruction time of the plain machine.
pub fn phases_stand()
    ensures { PhaseLaw Standing }
{
    three_phases();
    phase_wishes();
    times_keep_words();
}
