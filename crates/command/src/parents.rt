ghost use Rattle.std.specs.Prelude.{◌≡◌, ◌≤◌, [], ◌∷◌, length};

use base_bytes::Id;
use std::marker::Model;

/// The ids of a command's parents, the left one first: none, one or two of them, which contracts see as their list.
#[derive(Drop)]
pub struct Parents {
    ids: [Id; 2],
    len: usize,
}

impl Model for Parents {
    ghost use Rattle.std.specs.Prelude.{List, ℕ, ◌≤◌, take};

    ghost Value = { List (List ℕ) };

    ghost view = { λ p. take p.len p.ids };

    ghost invariant = { λ p. p.len ≤ 2 };
}

impl Parents {
    pub fn none() -> Parents
        ensures { result ≡ [] }
    {
        Parents {
            ids: [Id::new([0; 32]), Id::new([0; 32])],
            len: 0,
        }
    }

    pub fn one(parent: &Id) -> Parents
        ensures { result ≡ parent.now ∷ [] }
    {
        Parents {
            ids: [*parent, *parent],
            len: 1,
        }
    }

    pub fn two(left: &Id, right: &Id) -> Parents
        ensures { result ≡ left.now ∷ right.now ∷ [] }
    {
        Parents {
            ids: [*left, *right],
            len: 2,
        }
    }

    pub fn as_slice(&self) -> &[Id]
        ensures value { result.now ≡ self.now }
        ensures few { length self.now ≤ 2 }
    {
        &self.ids[..self.len]
    }
}
