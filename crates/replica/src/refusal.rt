use base_bytes::{Id, NoMemory};
use journal::OpenFault;
use outside::DiskStep;
use transaction::ActFault;

/// Why a replica doesn't do what it is asked. It is then as it was before, but for a failed disk, behind which it is down.
#[derive(Drop)]
pub enum Refusal {
    /// It has no graph id.
    NoGraph,
    /// It has a graph id.
    HasGraph,
    /// The action was refused.
    Act(ActFault),
    /// The bytes are no such message.
    Malformed,
    /// The message is about another graph, of this id.
    OtherGraph(Id),
    /// The disk failed in this step.
    DiskFault(DiskStep),
    /// The disk failed in an earlier call, in this step.
    Down(DiskStep),
    /// What the disk reads is refused.
    Journal(OpenFault),
    NoMemory,
}

impl From<NoMemory> for Refusal {
    ghost use Rattle.std.specs.Prelude.{◌≡◌};
    ghost use Rattle.replica.specs.declared.refusal.Refusal.TheVariants as refusal;

    ghost from_gives = { λ _ error. error ≡ refusal.NoMemory };

    fn from(_error: NoMemory) -> Refusal {
        Refusal::NoMemory
    }
}
