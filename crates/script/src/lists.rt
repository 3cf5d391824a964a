//! What stands behind a member of a list.

ghost use Rattle.script.specs.working.Separators.{StandsBehind};

use crate::marks::{expect, mark};
use base_bytes::Unread;

/// What stands behind a member of a list, and the bytes behind that.
pub enum Separator<'a> {
    Close(&'a [u8]),
    Comma(&'a [u8]),
}

/// The mark that closes a list, or the comma behind one of its members.
pub fn behind_member<'a>(close: &[u8], bytes: &'a [u8]) -> Result<Separator<'a>, Unread>
    ensures { StandsBehind close.now bytes.now result }
{
    if let Some(rest) = mark(close, bytes) {
        return Ok(Separator::Close(rest));
    }
    let rest = expect(b",", bytes)?;
    Ok(Separator::Comma(rest))
}
