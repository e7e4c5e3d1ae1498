ghost use Rattle.std.specs.Prelude.{◌≡◌, ◌<◌};
ghost use Rattle.lvdc_asm.specs.Data.{data_after, SetsData};

use lvdc_source::Body;
use std::marker::Model;

/// The pair and the sector that a source assumes as data place.
#[derive(Clone, Copy)]
pub(crate) struct DataPlace {
    pub(crate) pair: u8,
    pub(crate) sector: u8,
}

impl Model for DataPlace {
    ghost use Rattle.std.specs.Prelude.{◌<◌};
    ghost use Rattle.lvdc_asm.specs.DataPlace.{DataPlace};

    ghost Value = { DataPlace };

    ghost view = { λ d. record { pair = d.pair; sector = d.sector } };

    ghost invariant = { λ d. (d.pair < 4) × (d.sector < 16) };

    ghost inverse = { λ d. record { pair = d.pair; sector = d.sector } };
}

impl DataPlace {
    ghost use Rattle.lvdc_asm.specs.DataPlace.{first_data};

    /// What is assumed before the first USE.
    pub(crate) fn first() -> DataPlace
        ensures { result ≡ first_data }
    {
        DataPlace { pair: 0, sector: 1 }
    }

    /// What is assumed from the line after this one on.
    pub(crate) fn after(self, body: &Body) -> DataPlace
        requires { SetsData body.now }
        ensures { result ≡ data_after self body.now }
    {
        match *body {
            Body::Sector { pair, sector } => DataPlace { pair, sector },
            _ => self,
        }
    }
}
