//! A part of a script: what its events do to the copies, and whether they name any.

ghost use Rattle.std.specs.Prelude.{◌≡◌};
ghost use Rattle.std.specs.List.{list_any};

use crate::shares::Share;

/// What the events of a part do to each of the 21 copies, up to the first step at which one of them begins or has ended, and whether
/// they name any copy till then. Copy `n` is copy `n % 3` of module `n / 3`, both counted from 0.
#[derive(Clone, Copy)]
pub struct Part {
    pub(crate) until: u64,
    pub(crate) names_any: bool,
    pub(crate) shares: [Share; 21],
    ghost told: { names_any ≡ list_any (λ share. share.named) shares },
}

impl Part {
    ghost use Rattle.lvdc_forces.specs.Parts.{no_part};

    /// Nothing is known.
    pub(crate) fn none() -> Part
        ensures { result ≡ no_part }
    {
        Part {
            until: 0,
            names_any: false,
            shares: [Share::none(); 21],
        }
    }

    /// A part whose events do this up to a step.
    pub(crate) fn of_shares(shares: [Share; 21], until: u64) -> Part
        ensures shares { result.shares ≡ shares }
        ensures until { result.until ≡ until }
    {
        Part {
            until,
            names_any: any_named(&shares),
            shares,
        }
    }
}

/// Is any copy named?
fn any_named(shares: &[Share; 21]) -> bool
    ensures { result ≡ list_any (λ share. share.named) shares.now }
{
    shares.iter().any(|share| share.named)
}
