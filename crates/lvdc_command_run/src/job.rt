/// Which machine runs a deck.
#[derive(Clone, Copy, Debug, PartialEq, Eq)]
pub enum Engine {
    /// The voted machine, up to the first inadmissible step.
    Guarded,
    /// The voted machine, through every fault.
    Through,
    /// The plain machine, which knows no script.
    Plain,
}

/// What is to be run.
#[derive(Clone, Copy, PartialEq, Eq)]
pub enum Job {
    /// The deck that bytes mean.
    Deck(Engine),
    /// The deck that a number draws, by the voted machine up to the first inadmissible step.
    Soak(u32),
}
