//! Which item a name means: the first of that name.

ghost use Rattle.std.specs.Prelude.{◌≡◌, position, slice_get};
ghost use Rattle.std.specs.Option.{option_copied};
ghost use Rattle.policy_rules.specs.Names.{is_named, item_named, name_of, number_named};
ghost use Rattle.policy_rules.specs.WellTyped.{items_of};

use policy_ast::{Item, Name, PlacedItem};

/// The name of an item; `use` has none.
fn name_of(item: &Item) -> Option<&Name>
    ensures { option_copied result ≡ name_of item.now }
{
    match item {
        Item::Use(_) => None,
        Item::Let(name, _) => Some(name),
        Item::Enum(name, _) => Some(name),
        Item::Struct(name, _) => Some(name),
        Item::Effect(name, _) => Some(name),
        Item::Fact { name, .. } => Some(name),
        Item::Command(name, _) => Some(name),
        Item::Function { name, .. } => Some(name),
        Item::FinishFunction { name, .. } => Some(name),
        Item::Action { name, .. } => Some(name),
    }
}

pub fn is_named(item: &Item, name: &[u8]) -> bool
    ensures { result ≡ is_named name.now item.now }
{
    match name_of(item) {
        Some(own) => name == own.as_str().as_bytes(),
        None => false,
    }
}

/// The item that a name means.
pub fn item_named<'a>(items: &'a [PlacedItem], name: &[u8]) -> Option<&'a Item>
    ensures { option_copied result ≡ item_named (items_of items.now) name.now }
{
    for placed in items {
        if is_named(&placed.item, name) {
            return Some(&placed.item);
        }
    }
    None
}

fn position_named(items: &[PlacedItem], name: &[u8]) -> Option<usize>
    ensures { result ≡ position (λ p. is_named name.now p.item) items.now }
{
    items.iter().position(|placed| is_named(&placed.item, name))
}

/// The number of the item that a name means, counted from 0.
pub fn number_named(items: &[PlacedItem], name: &[u8]) -> Option<usize>
    ensures { result ≡ number_named (items_of items.now) name.now }
{
    position_named(items, name)
}
