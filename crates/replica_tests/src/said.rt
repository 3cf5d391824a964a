// What a call of a replica is expected to answer.
use accept::Reason;
use policy_meaning::{FaultKind, Why};
use replica::{Published, Refusal, Taken};
use transaction::ActFault;

/// What a call says, in short.
#[derive(Clone, Copy, Debug, PartialEq, Eq)]
pub enum Said {
    /// Commands, merges, cut and entries.
    Published(usize, usize, usize, usize),
    /// Added, repeated, refused with the last reason, cut and entries.
    Taken(usize, usize, usize, &'static str, usize, usize),
    /// A message, which is kept behind the others.
    Message,
    Joined,
    /// No request follows.
    Done,
    Holds(usize),
    Refused(&'static str),
    NoMemory,
}

fn why(why: Why) -> &'static str {
    match why {
        Why::UnknownCommand => "command unknown",
        Why::WrongKind => "command of wrong kind",
        Why::Payload => "command payload",
        Why::Check => "command check",
        Why::Fault(_) => "command fault",
    }
}

fn fault(kind: FaultKind) -> &'static str {
    match kind {
        FaultKind::Unwrap => "fault unwrap",
        _ => "another fault",
    }
}

fn act(fault_of: &ActFault) -> &'static str {
    match fault_of {
        ActFault::NoGraph => "no graph of an action",
        ActFault::UnknownAction => "unknown action",
        ActFault::Arguments => "arguments",
        ActFault::Check => "check",
        ActFault::Fault(kind) => fault(*kind),
        ActFault::CommandPolicy(_, cause) => why(*cause),
        ActFault::SealFault => "seal",
        ActFault::Collision(_) => "collision",
        ActFault::Full => "full",
        ActFault::NoMemory => "no memory of an action",
    }
}

fn reason(reason: &Reason) -> &'static str {
    match reason {
        Reason::Collision { .. } => "collision",
        Reason::OtherInit => "other init",
        Reason::MissingParent(_) => "missing parent",
        Reason::WrongCut { .. } => "wrong cut",
        Reason::BadEnvelope => "bad envelope",
        Reason::Policy(cause) => why(*cause),
        Reason::ParallelFinalize(_) => "parallel finalize",
        Reason::Full => "full",
    }
}

pub fn refused(refusal: &Refusal) -> Said {
    match refusal {
        Refusal::NoGraph => Said::Refused("no graph"),
        Refusal::HasGraph => Said::Refused("has graph"),
        Refusal::Act(fault) => Said::Refused(act(fault)),
        Refusal::Malformed => Said::Refused("malformed"),
        Refusal::OtherGraph(_) => Said::Refused("other graph"),
        Refusal::DiskFault(_) => Said::Refused("disk fault"),
        Refusal::Down(_) => Said::Refused("down"),
        Refusal::Journal(_) => Said::Refused("journal"),
        Refusal::NoMemory => Said::NoMemory,
    }
}

pub fn published(answer: Result<Published, Refusal>) -> Said {
    match answer {
        Ok(told) => Said::Published(told.commands, told.merges, told.cut, told.entries),
        Err(refusal) => refused(&refusal),
    }
}

fn told(taken: &Taken) -> Said {
    let all = taken.refused.as_slice();
    let mut last = "";
    for one in all {
        last = reason(&one.1);
    }
    Said::Taken(
        taken.added,
        taken.repeats,
        all.len(),
        last,
        taken.cut,
        taken.entries,
    )
}

pub fn taken(answer: Result<Taken, Refusal>) -> Said {
    match answer {
        Ok(taken) => told(&taken),
        Err(refusal) => refused(&refusal),
    }
}
