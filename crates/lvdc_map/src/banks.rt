ghost use Rattle.std.specs.Prelude.{◌≡◌, ◌<◌, ◌%◌, ◌||◌, ℕ, true, false, SomeIff};
ghost use Rattle.lvdc_map.specs.Address.{Spot};
ghost use Rattle.lvdc_map.specs.Banks.{is_simplex, bank_of, is_there, holds, HasBank};

use crate::Address;
use std::marker::Model;

#[derive(Debug)]
/// Which of the four pairs of memory modules are simplex. The two modules of a duplex pair hold the same words, those of
/// a simplex pair words of their own (this project's profile of the published memory).
#[derive(Clone, Copy, PartialEq, Eq)]
pub struct Banks {
    simplex: u8,
}

impl Model for Banks {
    ghost use Rattle.std.specs.Prelude.{ℕ, ◌<◌};

    ghost Value = { ℕ };

    ghost view = { λ b. b.simplex };

    ghost invariant = { λ b. b.simplex < 16 };

    ghost inverse = { λ n. record { simplex = n } };
}

impl Banks {
    ghost use Rattle.lvdc_map.specs.Banks.{is_simplex, union, bank_of, is_there, holds};

    /// Every pair is duplex.
    pub const DUPLEX: Banks = Banks { simplex: 0 };

    /// Bit p of the number marks pair p as simplex. None from 16 on.
    pub fn new(simplex: u8) -> Option<Banks>
        ensures { SomeIff result (simplex < 16) simplex }
    {
        if simplex < 16 {
            Some(Banks { simplex })
        } else {
            None
        }
    }

    /// Do the two modules of this pair hold words of their own?
    pub fn simplex(self, pair: u8) -> bool
        requires { pair < 4 }
        ensures { result ≡ is_simplex self pair }
    {
        (self.simplex >> pair) & 1 == 1
    }

    /// The pairs that are simplex in one or the other.
    #[tactic(auto, using(crate::proofs::Unions::union_is_small))]
    pub fn union(self, other: Banks) -> Banks
        ensures value { result ≡ union self other }
        ensures pairs { (pair : ℕ) → is_simplex result pair
            ≡ (is_simplex self pair || is_simplex other pair) }
        // No bank that is there in one of them goes.
        ensures there { (at : Spot) → is_there self at ≡ true → is_there result at ≡ true }
    {
        Banks {
            simplex: self.simplex | other.simplex,
        }
    }

    /// The bank that the number of a module means. Its low bit counts in a simplex pair alone.
    pub fn of(self, number: u8) -> u8
        requires { number < 8 }
        ensures value { result ≡ bank_of self number }
        ensures small { result < 8 }
    {
        let pair = number / 2;
        if self.simplex(pair) {
            pair + 4 * (number % 2)
        } else {
            pair
        }
    }

    /// Is the bank of this address there?
    pub fn has(self, at: Address) -> bool
        ensures { result ≡ is_there self at }
    {
        at.pair < 4 || self.simplex(at.pair - 4)
    }

    /// Does this twin, 0 or 1, hold this address? Both hold those of a duplex pair, one holds those of a simplex pair.
    pub fn holds(self, twin: u8, at: Address) -> bool
        ensures { result ≡ holds self twin at }
    {
        if self.simplex(at.pair % 4) {
            twin == at.pair / 4
        } else {
            at.pair < 4
        }
    }
}

/// The bank that the number of a module means is there, and both twins hold the addresses of a duplex pair that are there.
pub fn banks_are_held()
    ensures there { (banks number : ℕ) (at : Spot) → number < 8 → at.pair ≡ bank_of banks number
        → HasBank banks at }
    ensures duplex { (banks twin : ℕ) (at : Spot) → HasBank banks at
        → is_simplex banks (at.pair % 4) ≡ false → holds banks twin at ≡ true }
{}

const _: () = prove!(Banks::DUPLEX.simplex == 0);
