ghost use Rattle.std.specs.Prelude.{◌≡◌, ◌-◌, ◌≤◌, [], ◌∷◌, replicate, slice_index_or};
ghost use Rattle.lvdc_logic.specs.Counts.{counts_in};

/// Of each copy of each module, in how many steps it differed from the vote.
#[derive(Clone, Copy)]
pub struct Counts {
    pub timer: [u64; 3],
    pub locator: [u64; 3],
    pub decoder: [u64; 3],
    pub selector: [u64; 3],
    pub accumulator: [u64; 3],
    pub multiplier: [u64; 3],
    pub exchange: [u64; 3],
}

impl Counts {
    /// No copy has differed.
    pub fn none() -> Counts
        ensures { counts_in result ≡ replicate 7 (0 ∷ 0 ∷ 0 ∷ []) }
    {
        Counts {
            timer: [0; 3],
            locator: [0; 3],
            decoder: [0; 3],
            selector: [0; 3],
            accumulator: [0; 3],
            multiplier: [0; 3],
            exchange: [0; 3],
        }
    }

    /// Those of a module, 1 to 7.
    pub fn of_module(&self, number: u8) -> [u64; 3]
        requires first { 1 ≤ number }
        requires last { number ≤ 7 }
        ensures { result ≡ slice_index_or (counts_in self.now) (number - 1) [] }
    {
        match number {
            1 => self.timer,
            2 => self.locator,
            3 => self.decoder,
            4 => self.selector,
            5 => self.accumulator,
            6 => self.multiplier,
            _ => self.exchange,
        }
    }
}
