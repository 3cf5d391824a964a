//! Why a line or a command was refused, as texts name it; and why a run stops.

ghost use Rattle.std.specs.Prelude.{◌≡◌, Some, MatchResult};
ghost use Rattle.world.specs.Reasons.{action_refusal, command_refusal, line_refusal, policy_refusal, word_of};
ghost use Rattle.world.specs.working.Stopping.{IsStopBy};
ghost use Rattle.replica.specs.declared.refusal.Refusal.TheVariants as refusal;

use crate::stop::RunStop;
use accept::Reason;
use base_bytes::Text;
use policy_meaning::{FaultKind, Why};
use replica::Refusal;
use script_texts::{CommandRefusal, FaultWord, LineRefusal};
use transaction::ActFault;

/// The word of a fault.
fn word_of(kind: FaultKind) -> FaultWord
    ensures { result ≡ word_of kind }
{
    match kind {
        FaultKind::Unwrap => FaultWord::Unwrap,
        FaultKind::Exists => FaultWord::Exists,
        FaultKind::Missing => FaultWord::Missing,
        FaultKind::Differs => FaultWord::Differs,
        FaultKind::Turns => FaultWord::Turns,
        FaultKind::TooLong => FaultWord::TooLong,
    }
}

/// Why the policy doesn't accept a command.
fn policy_refusal(why: Why) -> CommandRefusal
    ensures { result ≡ policy_refusal why }
{
    match why {
        Why::UnknownCommand => CommandRefusal::UnknownCommand,
        Why::WrongKind => CommandRefusal::WrongKind,
        Why::Payload => CommandRefusal::Payload,
        Why::Check => CommandRefusal::Check,
        Why::Fault(kind) => CommandRefusal::Fault(word_of(kind)),
    }
}

/// Why a command isn't taken.
pub fn command_refusal(reason: &Reason) -> CommandRefusal
    ensures { result ≡ command_refusal reason.now }
{
    match reason {
        Reason::Collision { .. } => CommandRefusal::Collision,
        Reason::OtherInit => CommandRefusal::OtherInit,
        Reason::MissingParent(id) => CommandRefusal::MissingParent(*id),
        Reason::WrongCut { .. } => CommandRefusal::WrongCut,
        Reason::BadEnvelope => CommandRefusal::BadEnvelope,
        Reason::Policy(why) => policy_refusal(*why),
        Reason::ParallelFinalize(id) => CommandRefusal::ParallelFinalize(*id),
        Reason::Full => CommandRefusal::Full,
    }
}

/// Why an action is refused, or why it stops the run.
fn action_refusal(why: ActFault) -> Result<LineRefusal, RunStop>
    ensures { MatchResult result (λ named. action_refusal why ≡ Some named) (λ stop. IsStopBy (refusal.Act why) stop) }
{
    match why {
        ActFault::NoGraph => Ok(LineRefusal::NoGraph),
        ActFault::UnknownAction => Ok(LineRefusal::UnknownAction),
        ActFault::Arguments => Ok(LineRefusal::Arguments),
        ActFault::Check => Ok(LineRefusal::Check),
        ActFault::Fault(kind) => Ok(LineRefusal::Fault(word_of(kind))),
        ActFault::CommandPolicy(name, why) => {
            Ok(LineRefusal::Command(name, policy_refusal(why)))
        }
        ActFault::SealFault => Err(RunStop::SealFault),
        ActFault::Collision(id) => Ok(LineRefusal::Collision(id)),
        ActFault::Full => Ok(LineRefusal::Full),
        ActFault::NoMemory => Err(RunStop::NoMemory),
    }
}

/// Why a line is refused, or why it stops the run. No call answers a fault of a disk yet.
pub fn line_refusal(why: Refusal) -> Result<LineRefusal, RunStop>
    ensures { MatchResult result (λ named. line_refusal why ≡ Some named) (λ stop. IsStopBy why stop) }
{
    match why {
        Refusal::NoGraph => Ok(LineRefusal::NoGraph),
        Refusal::HasGraph => Ok(LineRefusal::HasGraph),
        Refusal::Act(why) => action_refusal(why),
        Refusal::Malformed => Ok(LineRefusal::Malformed),
        Refusal::OtherGraph(id) => Ok(LineRefusal::OtherGraph(id)),
        Refusal::DiskFault(_) | Refusal::Down(_) | Refusal::Journal(_) => Err(RunStop::DiskFault),
        Refusal::NoMemory => Err(RunStop::NoMemory),
    }
}
