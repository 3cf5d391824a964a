ghost use Rattle.std.specs.Prelude.{◌≡◌, ◌<◌, ◌^◌, length};

use crate::Name;
use sqlite_items::Items;
use std::marker::Model;

/// The variants of an enum in their order, fewer than 2^32 of them. Contracts see it as the list of names.
#[derive(Drop)]
pub struct VariantNames {
    names: Items<Name>,
}

impl Model for VariantNames {
    ghost use Rattle.std.specs.Prelude.{List, ℕ, ◌<◌, ◌^◌, length};

    ghost Value = { List (List ℕ) };

    ghost view = { λ v. v.names };

    ghost invariant = { λ v. length v.names < 2 ^ 32 };
}

impl VariantNames {
    pub fn new(names: Items<Name>) -> VariantNames
        requires { length names < 2 ^ 32 }
        ensures { result ≡ names }
    {
        VariantNames { names }
    }

    pub fn as_slice(&self) -> &[Name]
        ensures value { result.now ≡ self.now }
        ensures few { length self.now < 2 ^ 32 }
    {
        self.names.as_slice()
    }
}
