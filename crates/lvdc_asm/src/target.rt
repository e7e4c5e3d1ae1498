ghost use Rattle.std.specs.Prelude.{◌≡◌};
ghost use Rattle.lvdc_asm.specs.Hop.{hop_to};

use crate::data::DataPlace;
use lvdc_map::{Address, Hop};
use std::marker::Model;

/// Where the line that defines a name stands, with the syllable of code, and the data place that is assumed there.
#[derive(Clone, Copy)]
pub(crate) struct Target {
    pub(crate) at: Address,
    pub(crate) syl: Option<u8>,
    pub(crate) assumed: DataPlace,
}

impl Model for Target {
    ghost use Rattle.std.specs.Prelude.{◌<◌};
    ghost use Rattle.lvdc_asm.specs.Target.{Target, IsHalf};

    ghost Value = { Target };

    ghost view = { λ t. record { at = t.at; syl = t.syl; assumed = t.assumed } };

    ghost invariant = { λ t. (t.at.pair < 4) × IsHalf t.syl };

    ghost inverse = { λ t. record { at = t.at; syl = t.syl; assumed = t.assumed } };
}

impl Target {
    /// The HOP constant that goes there; none where no code stands there.
    pub(crate) fn hop(self) -> Option<Hop>
        ensures { result ≡ hop_to self }
    {
        let syl = self.syl?;
        Some(Hop {
            imod: self.at.pair * 2,
            isec: self.at.sector,
            syl,
            loc: self.at.loc,
            dmod: self.assumed.pair * 2,
            dsec: self.assumed.sector,
            dupin: true,
            dupdn: true,
        })
    }
}
