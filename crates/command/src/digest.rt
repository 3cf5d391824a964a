ghost use Rattle.std.specs.Prelude.{◌≡◌};
ghost use Rattle.command.specs.Wire.{IsFormed, IsInForm, command_id};

use crate::command::Command;
use crate::writing::write;
use base_bytes::Id;
use sha2::{Digest, Sha256};

/// The id of a command: SHA-256 of its bytes, which are never gathered. Takes no memory.
pub fn id_of(command: &Command) -> Id
    requires { IsInForm command.now }
    ensures id { result ≡ command_id command.now }
    ensures formed { IsFormed command.now }
{
    let mut hasher = Sha256::new();
    match write(&mut hasher, command) {
        Ok(()) => Id::new(hasher.finalize()),
        Err(never) => match never {},
    }
}
