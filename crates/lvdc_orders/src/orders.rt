ghost use Rattle.std.specs.Prelude.{◌≡◌, ◌↔◌, ◌<◌, ◌≤◌, ◌++◌, ◌∷◌, [], length, slice_index_or, IsErr, OnOk, OnErr};
ghost use Rattle.lvdc_orders.specs.Orders.{plain_order, orders_of, order_at};

use crate::{Order, OrdersFull};
use arrayvec::ArrayVec;
use std::marker::Model;

/// The most orders of a run (this project's profile).
pub const MOST_ORDERS: usize = 16;

/// One to sixteen orders, which take turns step by step. Contracts see the list of those that were added; while there are
/// none, the plain one is in force.
#[derive(Drop)]
pub struct Orders {
    plain: Order,
    added: ArrayVec<Order, 16>,
}

impl Model for Orders {
    ghost use Rattle.std.specs.Prelude.{◌≡◌, ◌≤◌, ℕ, List, length};
    ghost use Rattle.lvdc_orders.specs.Orders.{plain_order};

    ghost Value = { List (List ℕ) };

    ghost view = { λ o. o.added.items };

    ghost invariant = { λ o. (o.plain ≡ plain_order) × (length o.added.items ≤ 16) };
}

impl Orders {
    /// The one order from copy 1 of module 1 to copy 3 of module 7.
    pub fn plain() -> Orders
        ensures { result ≡ [] }
    {
        Orders {
            plain: Order::default(),
            added: ArrayVec::new(),
        }
    }

    /// Adds an order after the others. The first one takes the place of the plain one.
    pub fn add(&mut self, order: Order) -> Result<(), OrdersFull>
        ensures added { OnOk result (self.new ≡ self.old ++ order ∷ []) }
        ensures full { IsErr result ↔ (length self.old ≡ 16) }
        ensures unchanged { OnErr result (self.new ≡ self.old) }
        ensures most { length self.old ≤ 16 }
    {
        match self.added.try_push(order) {
            Ok(()) => Ok(()),
            Err(_) => Err(OrdersFull),
        }
    }

    /// How many orders take turns, 1 to 16.
    pub fn count(&self) -> usize
        ensures value { result ≡ length (orders_of self.now) }
        ensures some { 0 < result }
        ensures most { result ≤ 16 }
    {
        self.added.len().max(1)
    }

    /// The order whose turn is at this index, from 0.
    pub fn order(&self, index: usize) -> &Order
        requires { index < length (orders_of self.now) }
        ensures { result.now ≡ slice_index_or (orders_of self.now) index plain_order }
    {
        match self.added.get(index) {
            Some(order) => order,
            None => &self.plain,
        }
    }

    /// The order of this step.
    pub fn at_step(&self, step: u64) -> &Order
        ensures { result.now ≡ order_at self.now step }
    {
        let count = self.count();
        if count == 1 {
            return self.order(0);
        }
        self.order((step % count as u64) as usize)
    }
}
