ghost use Rattle.std.specs.Prelude.{◌≡◌, ◌↔◌, true, nat_lt, length, IsSome};
ghost use Rattle.std.specs.List.{list_all};
ghost use Rattle.lvdc_vote.specs.Copies.{IsFullOrder};
ghost use Rattle.lvdc_orders.specs.Orders.{names_once, is_order, order_of, plain_order};

use arrayvec::ArrayVec;
use std::default::Default;
use std::marker::Model;

/// How many copies latch in a step: three of each of the seven modules.
pub const COPIES: usize = 21;

/// An order in which the 21 copies latch. Number 3(m-1)+(c-1) is copy c of module m (this project's profile).
#[derive(Drop)]
pub struct Order {
    copies: ArrayVec<u8, 21>,
}

impl Model for Order {
    ghost use Rattle.std.specs.Prelude.{◌≡◌, ℕ, List, length};
    ghost use Rattle.lvdc_vote.specs.Copies.{IsFullOrder};

    ghost Value = { List ℕ };

    ghost view = { λ o. o.copies.items };

    ghost invariant = { λ o. (length o.copies.items ≡ 21) × IsFullOrder 21 o.copies.items };
}

/// Does no number stand twice in the list?
fn names_once(copies: &[u8]) -> bool
    ensures { result ≡ names_once copies.now }
{
    for (at, copy) in copies.iter().enumerate() {
        if copies[at + 1..].contains(copy) {
            return false;
        }
    }
    true
}

/// Are all numbers those of copies?
fn are_copies(copies: &[u8]) -> bool
    ensures { result ≡ list_all (λ c. nat_lt c 21) copies.now }
{
    copies.iter().all(|copy| usize::from(*copy) < COPIES)
}

/// Does the list name each copy once?
fn is_order(copies: &[u8]) -> bool
    ensures value { result ≡ is_order copies.now }
    ensures count { result ≡ true → length copies.now ≡ 21 }
    ensures full { (result ≡ true) ↔ IsFullOrder 21 copies.now }
{
    copies.len() == COPIES && are_copies(copies) && names_once(copies)
}

impl Order {
    /// The order of these numbers, where they are a permutation of 0 to 20.
    pub fn new(copies: &[u8]) -> Option<Order>
        ensures order { result ≡ order_of copies.now }
        ensures full { IsSome result ↔ IsFullOrder 21 copies.now }
    {
        if !is_order(copies) {
            return None;
        }
        match ArrayVec::try_from(copies) {
            Ok(copies) => Some(Order { copies }),
            Err(_) => unreachable!(),
        }
    }

    /// The numbers of the copies, in this order.
    pub fn copies(&self) -> &[u8]
        ensures copies { result.now ≡ self.now }
        ensures count { length result.now ≡ 21 }
        ensures full { IsFullOrder 21 result.now }
    {
        self.copies.as_slice()
    }
}

impl Default for Order {
    ghost is_default = { λ order. order ≡ plain_order };

    /// From copy 1 of module 1 to copy 3 of module 7.
    fn default() -> Order {
        Order {
            copies: ArrayVec::from([
                0, 1, 2, 3, 4, 5, 6, 7, 8, 9, 10, 11, 12, 13, 14, 15, 16, 17, 18, 19, 20,
            ]),
        }
    }
}
