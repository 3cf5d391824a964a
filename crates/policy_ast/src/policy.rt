ghost use Rattle.std.specs.Prelude.{◌≡◌, ◌<◌, ◌^◌, length};

use crate::Item;
use sqlite_items::Items;
use std::marker::Model;

/// An item and the line, counted from 1, of the token with which it begins.
#[derive(Drop)]
pub struct PlacedItem {
    pub line: u32,
    pub item: Item,
}

/// The items of a policy in their order, fewer than 2^32 of them. Contracts see it as the list of items with their lines.
#[derive(Drop)]
pub struct Policy {
    items: Items<PlacedItem>,
}

impl Model for Policy {
    ghost use Rattle.std.specs.Prelude.{List, ◌<◌, ◌^◌, length};
    ghost use Rattle.std.specs.Coded.{coded_list};
    ghost use Rattle.policy_ast.specs.declared.policy.PlacedItem.{PlacedItem};
    ghost use Rattle.policy_ast.specs.contracts.policy.PlacedItem as placed_item;

    ghost Value = { List PlacedItem };

    ghost coded = { coded_list placed_item.the_row.coded };

    ghost view = { λ p. p.items };

    ghost invariant = { λ p. length p.items < 2 ^ 32 };
}

impl Policy {
    pub fn new(items: Items<PlacedItem>) -> Policy
        requires { length items < 2 ^ 32 }
        ensures { result ≡ items }
    {
        Policy { items }
    }

    /// The items in their order.
    pub fn items(&self) -> &[PlacedItem]
        ensures value { result.now ≡ self.now }
        ensures few { length self.now < 2 ^ 32 }
    {
        self.items.as_slice()
    }
}
