ghost use Rattle.std.specs.Prelude.{◌≡◌, ◌≤◌};
ghost use Rattle.lvdc_machine.specs.Room.{pace_of, exchanges_left, repairs_left};

/// How a machine goes through a fault script (this project's profile).
#[derive(Clone, Copy, PartialEq, Eq)]
pub enum Mode {
    /// Each step is judged, and the first one that isn't admissible ends the run.
    Guarded,
    /// No step is judged.
    Through,
}

/// For how many exchanges a machine has room.
#[derive(Clone, Copy)]
pub enum Pace {
    /// One port exchange and two repairs in each instruction time.
    ByTime,
    /// One port exchange and one repair in each step.
    ByStep,
}

impl Pace {
    /// That of a machine that is made for this mode.
    pub fn of(mode: Mode) -> Pace
        ensures { result ≡ pace_of mode }
    {
        match mode {
            Mode::Guarded => Pace::ByTime,
            Mode::Through => Pace::ByStep,
        }
    }

    /// The port exchanges for which a machine of so many times has room.
    pub fn exchanges(self, limit: u64) -> u64
        requires { limit ≤ 1000000 }
        ensures { result ≡ exchanges_left self 0 limit }
    {
        match self {
            Pace::ByTime => limit,
            Pace::ByStep => 3 * limit,
        }
    }

    /// The repairs for which it has room.
    pub fn repairs(self, limit: u64) -> u64
        requires { limit ≤ 1000000 }
        ensures { result ≡ repairs_left self 0 limit }
    {
        match self {
            Pace::ByTime => 2 * limit,
            Pace::ByStep => 3 * limit,
        }
    }
}
