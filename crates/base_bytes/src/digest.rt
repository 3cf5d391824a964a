ghost use Rattle.std.specs.Prelude.{◌≡◌};
ghost use Rattle.sha2.specs.Sha256.{sha256 as sha256_of};

use crate::Id;
use sha2::{Digest, Sha256};

/// SHA-256 of FIPS 180-4. Takes no memory.
pub fn sha256(bytes: &[u8]) -> Id
    ensures { result ≡ sha256_of bytes.now }
{
    Id::new(Sha256::digest(bytes))
}
