//! What is known of identifiers.

ghost use Rattle.std.specs.Prelude.{◌≡◌, length};
ghost use Rattle.policy_types.specs.Fitting.{IsId};

use base_bytes::Id;

/// So many bytes are an identifier.
fn known_id(_bytes: &[u8])
    requires { length _bytes.now ≡ 32 }
    ensures { IsId _bytes.now }
{}

/// An identifier is 32 bytes.
pub(crate) fn is_id(id: &Id)
    ensures { IsId id.now }
{
    known_id(id.as_slice());
}
