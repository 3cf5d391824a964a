ghost use Rattle.std.specs.Prelude.{◌≡◌, ◌<◌, ◌^◌, ◌≤◌, Some, IfOk, IfSome, length};
ghost use Rattle.aranyad.specs.Ending.{ReadHalts};
ghost use Rattle.aranyad.specs.Loading.{limited};

use crate::ending::Halt;
use base_bytes::{Bytes, Text};
use outside::{Files, ReadFail};
use std::alloc::Global;

/// A file's bytes, and None where it has more than the limit.
pub fn read_limited<F: Files>(
    alloc: Global,
    files: &mut F,
    name: Text,
    limit: u64,
) -> Result<Option<Bytes>, Halt>
    requires { limit < 2 ^ 32 }
    ensures found { IfOk result (λ found. IfSome (F.holds files.old) (λ at. limited limit (at name) ≡ Some found)) }
    ensures short { IfOk result (λ found. IfSome found (λ bytes. length bytes ≤ limit)) }
    ensures holds { F.holds files.new ≡ F.holds files.old }
    ensures cause { ReadHalts name (F.faults files.old) (F.faults files.new) (F.last files.new) result }
{
    match files.read(alloc, name, limit) {
        Ok(bytes) => {
            if bytes.len() as u64 > limit {
                Ok(None)
            } else {
                Ok(Some(bytes))
            }
        }
        Err(ReadFail::Failed) => Err(Halt::Read),
        Err(ReadFail::NoMemory) => Err(Halt::Memory),
    }
}
