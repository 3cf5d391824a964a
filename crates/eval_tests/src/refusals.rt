// Faults as the printed texts name them.
use base_bytes::NoMemory;
use policy_meaning::{FaultKind, Why};
use script_texts::{CommandRefusal, FaultWord, LineRefusal};
use transaction::ActFault;

fn fault_word(kind: FaultKind) -> FaultWord {
    match kind {
        FaultKind::Unwrap => FaultWord::Unwrap,
        FaultKind::Exists => FaultWord::Exists,
        FaultKind::Missing => FaultWord::Missing,
        FaultKind::Differs => FaultWord::Differs,
        FaultKind::Turns => FaultWord::Turns,
        FaultKind::TooLong => FaultWord::TooLong,
    }
}

/// Why the policy doesn't accept a command.
pub fn policy_refusal(why: Why) -> CommandRefusal {
    match why {
        Why::UnknownCommand => CommandRefusal::UnknownCommand,
        Why::WrongKind => CommandRefusal::WrongKind,
        Why::Payload => CommandRefusal::Payload,
        Why::Check => CommandRefusal::Check,
        Why::Fault(kind) => CommandRefusal::Fault(fault_word(kind)),
    }
}

/// Why an action is refused. A failed seal ends a run, and has no text.
pub fn line_refusal(fault: ActFault) -> Result<Option<LineRefusal>, NoMemory> {
    Ok(Some(match fault {
        ActFault::NoGraph => LineRefusal::NoGraph,
        ActFault::UnknownAction => LineRefusal::UnknownAction,
        ActFault::Arguments => LineRefusal::Arguments,
        ActFault::Check => LineRefusal::Check,
        ActFault::Fault(kind) => LineRefusal::Fault(fault_word(kind)),
        ActFault::CommandPolicy(name, why) => LineRefusal::Command(name, policy_refusal(why)),
        ActFault::SealFault => return Ok(None),
        ActFault::Collision(id) => LineRefusal::Collision(id),
        ActFault::Full => LineRefusal::Full,
        ActFault::NoMemory => return Err(NoMemory),
    }))
}
