ghost use Rattle.std.specs.Prelude.{◌≡◌, length};

use std::marker::Model;

/// An identifier of 32 bytes, which contracts see as the list of them. Ids are ordered byte by byte.
#[derive(Clone, Copy, Debug, PartialEq, Eq, PartialOrd, Ord, Hash)]
pub struct Id {
    bytes: [u8; 32],
}

impl Model for Id {
    ghost use Rattle.std.specs.Prelude.{List, ℕ};

    ghost Value = { List ℕ };

    ghost view = { λ id. id.bytes };

    ghost inverse = { λ bytes. record { bytes = bytes } };
}

impl Id {
    pub fn new(bytes: [u8; 32]) -> Id
        ensures { result ≡ bytes }
    {
        Id { bytes }
    }

    pub fn as_slice(&self) -> &[u8]
        ensures value { result.now ≡ self.now }
        ensures length { length result.now ≡ 32 }
    {
        &self.bytes
    }
}
