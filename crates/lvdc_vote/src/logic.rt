ghost use Rattle.std.specs.Prelude.{◌≡◌, ℕ, List, length};

use crate::vote::Vote;

/// A module of the logic: its state, the bus that it reads, and its next state.
pub trait LogicModule {
    /// Its latches.
    type State: Vote;

    /// What it reads: the votes, and what came from memory and ports.
    type Bus;

    /// The latches that follow from what the bus has.
    ghost next_of: { Self.Bus → List ℕ };

    /// Which of the modules it is, from 1.
    const NUMBER: u8;

    /// The state that follows from what the bus has.
    fn next(bus: &Self::Bus) -> Self::State
        ensures { Self.State.latches result ≡ next_of bus.now };

    /// As many latches follow as a state has.
    ghost fits: { (bus : Self.Bus) → length (next_of bus) ≡ Self.State.LATCHES };
}
