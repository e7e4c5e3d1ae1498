ghost use Rattle.std.specs.Prelude.{◌≡◌, ◌<◌, true, SomeIff};
ghost use Rattle.lvdc_map.specs.Address.{Spot, is_same};

use std::marker::Model;

#[derive(Debug)]
/// A place of one word in memory. Addresses are ordered by bank, sector and location.
#[derive(Clone, Copy, PartialEq, Eq, PartialOrd, Ord)]
pub struct Address {
    /// The bank: 0 to 3 is that pair, in a simplex pair its even module; 4 to 7 is the odd module of simplex pair 0 to 3.
    pub pair: u8,
    /// 00 to 17 octal; sector 17 is the residual one.
    pub sector: u8,
    /// 000 to 377 octal.
    pub loc: u8,
}

impl Model for Address {
    ghost use Rattle.std.specs.Prelude.{◌<◌};
    ghost use Rattle.lvdc_map.specs.Address.{Spot};

    ghost Value = { Spot };

    ghost view = { λ a. record { pair = a.pair; sector = a.sector; loc = a.loc } };

    ghost invariant = { λ a. (a.pair < 8) × (a.sector < 16) };

    ghost inverse = { λ a. record { pair = a.pair; sector = a.sector; loc = a.loc } };
}

impl Address {
    ghost use Rattle.lvdc_map.specs.Address.{number_of, spot_at};
    ghost use Rattle.lvdc_map.specs.Banks.{home, IsPlace};

    /// How many addresses the eight banks have.
    pub const COUNT: usize = 32768;

    /// How many sectors the eight banks have, each of 256 addresses that follow each other in their order.
    pub const SECTORS: usize = 128;

    /// The address with these numbers, where its bank is below 8 and its sector below 20 octal.
    pub fn new(pair: u8, sector: u8, loc: u8) -> Option<Address>
        ensures { SomeIff result ((pair < 8) × (sector < 16))
            (record { pair = pair; sector = sector; loc = loc }) }
    {
        if pair < 8 && sector < 16 {
            Some(Address { pair, sector, loc })
        } else {
            None
        }
    }

    /// Its place in the order of all addresses, from 0.
    pub fn number(self) -> usize
        ensures value { result ≡ number_of self }
        ensures small { result < 32768 }
    {
        usize::from(self.pair) * 4096 + usize::from(self.sector) * 256 + usize::from(self.loc)
    }

    /// The address at this place in the order of all addresses.
    pub fn numbered(number: usize) -> Address
        requires { number < 32768 }
        ensures { result ≡ spot_at number }
    {
        Address {
            pair: (number / 4096) as u8,
            sector: (number / 256 % 16) as u8,
            loc: (number % 256) as u8,
        }
    }

    /// Its physical place, the same in each twin that holds it: its bank is the pair, 0 to 3.
    pub fn home(self) -> Address
        ensures value { result ≡ home self }
        ensures place { IsPlace result }
        ensures bank { self.pair < 8 }
    {
        Address {
            pair: self.pair % 4,
            ..self
        }
    }
}

/// Addresses that are the same are equal.
pub fn same_address()
    ensures { (a b : Spot) → is_same a b ≡ true → a ≡ b }
{}
