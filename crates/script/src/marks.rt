//! Fixed bytes and marks.

ghost use Rattle.std.specs.Prelude.{◌≡◌};
ghost use Rattle.std.specs.Option.{option_copied};
ghost use Rattle.script.specs.working.Readers.{Reads, after, mark_at, rest_seen};

use crate::runs::unspaced;
use base_bytes::Unread;

/// The bytes behind others, where they begin with these.
pub fn after<'a>(front: &[u8], bytes: &'a [u8]) -> Option<&'a [u8]>
    ensures { option_copied result ≡ after front.now bytes.now }
{
    if bytes.starts_with(front) {
        Some(&bytes[front.len()..])
    } else {
        None
    }
}

/// The bytes behind a mark, where it is all that stands in front but spaces.
pub fn mark<'a>(mark: &[u8], bytes: &'a [u8]) -> Option<&'a [u8]>
    ensures { option_copied result ≡ mark_at mark.now bytes.now }
{
    after(mark, unspaced(bytes))
}

/// The bytes behind a mark that must stand there.
pub fn expect<'a>(mark: &[u8], bytes: &'a [u8]) -> Result<&'a [u8], Unread>
    ensures { Reads rest_seen result (mark_at mark.now bytes.now) }
{
    after(mark, unspaced(bytes)).ok_or(Unread::Malformed)
}
