ghost use Rattle.std.specs.Prelude.{◌≡◌, []};
ghost use Rattle.command.specs.working.Taking.{Adds};

use base_bytes::{Bytes, NoMemory};
use sha2::{Digest, Sha256};
use std::alloc::Global;
use std::convert::Infallible;

/// What takes a command's bytes piece by piece: a list that grows, or a digest that is made on the way.
pub trait Pieces {
    ghost use Rattle.std.specs.Prelude.{List, ℕ, OnOk};

    /// The bytes that were taken so far.
    ghost holds: { Self → List ℕ → Type 0 };

    /// Why a piece could not be taken.
    type Refusal: Drop;

    fn add(&mut self, piece: &[u8]) -> Result<(), Self::Refusal>
        ensures { OnOk result (Adds holds self.old piece.now self.new) };
}

/// Bytes that grow, and the memory that they grow in.
#[derive(Drop)]
pub struct Growing {
    pub alloc: Global,
    pub bytes: Bytes,
}

impl Growing {
    /// No bytes yet.
    pub fn new(alloc: Global) -> Growing
        ensures { result.bytes ≡ [] }
    {
        Growing {
            alloc,
            bytes: Bytes::new(alloc),
        }
    }
}

impl Pieces for Growing {
    ghost use Rattle.std.specs.Prelude.{◌≡◌};

    ghost holds = { λ growing taken. growing.bytes ≡ taken };

    type Refusal = NoMemory;

    fn add(&mut self, piece: &[u8]) -> Result<(), NoMemory> {
        self.bytes.extend(self.alloc, piece)
    }
}

impl Pieces for Sha256 {
    ghost use Rattle.sha2.specs.Hashers.{Holds256};

    ghost holds = { Holds256 };

    type Refusal = Infallible;

    fn add(&mut self, piece: &[u8]) -> Result<(), Infallible> {
        self.update(piece);
        Ok(())
    }
}
