ghost use Rattle.std.specs.Prelude.{◌≡◌, slice_get};
ghost use Rattle.std.specs.Option.{option_copied};

use crate::Ty;
use sqlite_items::Items;

/// What a type that names an item needs to know of it.
#[derive(Drop)]
pub enum Shape {
    /// An enum, with the number of its variants.
    Variants(u32),
    /// A struct, with the types of its fields in declared order.
    Fields(Items<Ty>),
    Neither,
}

/// One shape for each item of a policy, in the order of the items.
#[derive(Drop)]
pub struct Shapes {
    pub items: Items<Shape>,
}

impl Shapes {
    /// The shape of the item of this number.
    pub fn at(&self, item: u32) -> Option<&Shape>
        ensures { option_copied result ≡ slice_get self.now.items item }
    {
        sqlite_items::at(self.items.as_slice(), item as usize)
    }
}
