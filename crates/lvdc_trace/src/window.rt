ghost use Rattle.std.specs.Prelude.{◌≡◌};
ghost use Rattle.lvdc_trace.specs.Traces.{window_after};

/// The steps that a trace tells: so many, from the first on. Steps are counted from 0, three in an instruction time.
#[derive(Clone, Copy, PartialEq, Eq)]
pub struct Window {
    pub first: u64,
    pub count: u64,
}

impl Window {
    /// The greatest number of a first step.
    pub const LAST: u64 = 3_000_000;

    /// The most steps that are told.
    pub const MOST: u64 = 100_000;

    /// The same window, counted from where so many steps were made: where it begins before that, it begins there.
    pub(crate) fn after(self, steps: u64) -> Window
        ensures { result ≡ window_after steps self }
    {
        Window {
            first: self.first.saturating_sub(steps),
            count: self.count,
        }
    }
}
