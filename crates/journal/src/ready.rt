ghost use Rattle.std.specs.Prelude.{◌<◌, ◌^◌};

use crate::end::End;
use base_bytes::Bytes;

/// A commit in the form of its record, made for one end of a journal.
#[derive(Drop)]
pub struct Ready {
    pub(crate) bytes: Bytes,
    pub(crate) from: End,
    pub(crate) to: End,
    ghost near: { from.gate < 2 ^ 63 },
}
