ghost use Rattle.std.specs.Prelude.{◌≡◌};
ghost use Rattle.lvdc_source.specs.Items.{IsProgram};

use crate::Item;
use std::marker::Model;

/// The items of a source, in the order of their lines.
#[derive(Drop)]
pub struct Program {
    items: Vec<Item>,
}

impl Model for Program {
    ghost use Rattle.std.specs.Prelude.{List};
    ghost use Rattle.lvdc_source.specs.declared.item.Item.{Item};
    ghost use Rattle.lvdc_source.specs.Items.{IsProgram};

    ghost Value = { List Item };

    ghost view = { λ p. p.items.items };

    ghost invariant = { λ p. IsProgram p.items.items };
}

impl Program {
    /// The program of these items. It takes no memory.
    pub fn of_items(items: Vec<Item>) -> Program
        requires { IsProgram items.items }
        ensures { result ≡ items.items }
    {
        Program { items }
    }

    /// The items, in source order.
    pub fn items(&self) -> &[Item]
        ensures items { result.now ≡ self.now }
        ensures program { IsProgram result.now }
    {
        &self.items
    }
}
