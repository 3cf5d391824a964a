use base_bytes::{NoMemory, Text};
use journal::OpenFault;

/// Why a run stops.
#[derive(Drop)]
pub enum RunStop {
    /// A disk failed.
    DiskFault,
    /// The envelope made no tag.
    SealFault,
    /// What the disk of the replica of this name reads is refused.
    Journal(Text, OpenFault),
    NoMemory,
}

impl From<NoMemory> for RunStop {
    ghost use Rattle.std.specs.Prelude.{◌≡◌};
    ghost use Rattle.world.specs.declared.stop.RunStop.TheVariants as stop;

    ghost from_gives = { λ _ error. error ≡ stop.NoMemory };

    fn from(_error: NoMemory) -> RunStop {
        RunStop::NoMemory
    }
}
