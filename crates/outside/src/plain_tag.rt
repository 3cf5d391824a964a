// The shipped tag and author id: digests of a fixed text and what they are for.
ghost use Rattle.std.specs.Prelude.{◌≡◌};
ghost use Rattle.outside.specs.Envelope.{plain_tag, is_plain_tag, author_id};

use base_bytes::{Id, Tag, Text};
use sha2::{Digest, Sha256};

// The digest that a plain tag holds.
fn tag_digest(author: &Id, body: &[u8]) -> [u8; 32]
    ensures { result ≡ plain_tag author.now body.now }
{
    let mut hasher = Sha256::new();
    hasher.update(b"aranya-tag:");
    hasher.update(author.as_slice());
    hasher.update(body);
    hasher.finalize()
}

/// The plain tag of the body by this author.
pub fn make_tag(author: &Id, body: &[u8]) -> Tag
    ensures { result ≡ plain_tag author.now body.now }
{
    Tag::from_slice(&tag_digest(author, body)).unwrap()
}

/// Whether the tag is that one.
pub fn opens_tag(author: &Id, body: &[u8], tag: &Tag) -> bool
    ensures { result ≡ is_plain_tag author.now body.now tag.now }
{
    let digest = tag_digest(author, body);
    digest.as_slice() == tag.as_slice()
}

/// The author id of the replica with this name. Takes no memory.
pub fn author_of(name: &Text) -> Id
    ensures { result ≡ author_id name.now }
{
    let mut hasher = Sha256::new();
    hasher.update(b"aranya-device:");
    hasher.update(name.as_slice());
    Id::new(hasher.finalize())
}
