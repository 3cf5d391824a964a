ghost use Rattle.std.specs.Prelude.{◌≡◌, ◌≤◌, ◌↔◌, length, IsSome, IfSome};

use std::marker::Model;

/// The tag of a command: 0 to 64 bytes in a fixed array, which contracts see as the list of them.
#[derive(Debug, Drop)]
pub struct Tag {
    len: usize,
    bytes: [u8; 64],
}

impl Model for Tag {
    ghost use Rattle.std.specs.Prelude.{List, ℕ, ◌≤◌, take};

    ghost Value = { List ℕ };

    ghost view = { λ t. take t.len t.bytes };

    ghost invariant = { λ t. t.len ≤ 64 };
}

impl Tag {
    /// The tag of these bytes, and None exactly where they are more than 64.
    pub fn from_slice(bytes: &[u8]) -> Option<Tag>
        ensures found { IsSome result ↔ (length bytes.now ≤ 64) }
        ensures value { IfSome result (λ t. t ≡ bytes.now) }
    {
        if bytes.len() > 64 {
            return None;
        }
        let len = bytes.len();
        let mut all = [0; 64];
        all[..len].copy_from_slice(bytes);
        Some(Tag { len, bytes: all })
    }

    pub fn as_slice(&self) -> &[u8]
        ensures value { result.now ≡ self.now }
        ensures length { length self.now ≤ 64 }
    {
        &self.bytes[..self.len]
    }

    /// Takes no memory.
    pub fn copy(&self) -> Tag
        ensures { result ≡ self.now }
    {
        Tag {
            len: self.len,
            bytes: self.bytes,
        }
    }
}
