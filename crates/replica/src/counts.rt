ghost use Rattle.std.specs.Prelude.{◌≡◌, [], ◌∷◌, ◌++◌, length, map, IfOk, OnOk};

use accept::Reason;
use base_bytes::{Id, NoMemory};
use std::alloc::Global;
use std::marker::Model;

/// What an action published: how many commands and merges, the length of the longest front that the braids before and after share, and how
/// many entries stand behind it.
#[derive(Clone, Copy, Debug, PartialEq, Eq)]
pub struct Published {
    pub commands: usize,
    pub merges: usize,
    pub cut: usize,
    pub entries: usize,
}

/// The commands that a take refused, by their ids, each with the reason, in the order in which they came. Contracts see the list.
#[derive(Drop)]
pub struct Refused {
    refused: Vec<(Id, Reason)>,
}

impl Model for Refused {
    ghost use Rattle.std.specs.Prelude.{List, map};
    ghost use Rattle.accept.specs.Takes.{Refusal};

    ghost Value = { List Refusal };

    ghost view = { λ it. map (λ r. record { id = r.0; why = r.1 }) it.refused.items };
}

/// A copy of the reason.
fn copy_of(alloc: Global, reason: &Reason) -> Result<Reason, NoMemory>
    ensures { IfOk result (λ it. it ≡ reason.now) }
{
    match reason {
        Reason::Collision { id, held } => Ok(Reason::Collision {
            id: *id,
            held: held.copy(alloc)?,
        }),
        Reason::OtherInit => Ok(Reason::OtherInit),
        Reason::MissingParent(id) => Ok(Reason::MissingParent(*id)),
        Reason::WrongCut { stated, real } => Ok(Reason::WrongCut {
            stated: *stated,
            real: *real,
        }),
        Reason::BadEnvelope => Ok(Reason::BadEnvelope),
        Reason::Policy(why) => Ok(Reason::Policy(*why)),
        Reason::ParallelFinalize(id) => Ok(Reason::ParallelFinalize(*id)),
        Reason::Full => Ok(Reason::Full),
    }
}

/// A copy of the refused command.
fn copied(alloc: Global, refused: &(Id, Reason)) -> Result<(Id, Reason), NoMemory>
    ensures { IfOk result (λ it. it ≡ refused.now) }
{
    let reason = copy_of(alloc, &refused.1)?;
    Ok((refused.0, reason))
}

fn copied_all(alloc: Global, all: &[(Id, Reason)]) -> Result<Vec<(Id, Reason)>, NoMemory>
    ensures { IfOk result (λ it. it.items ≡ all.now) }
{
    let mut copies = Vec::new(alloc);
    for one in all {
        copies.push(copied(alloc, one)?)?;
    }
    Ok(copies)
}

impl Refused {
    /// None is refused. Takes no memory.
    pub fn new(alloc: Global) -> Refused
        ensures { result ≡ [] }
    {
        Refused {
            refused: Vec::new(alloc),
        }
    }

    pub fn as_slice(&self) -> &[(Id, Reason)]
        ensures { map (λ r. record { id = r.0; why = r.1 }) result.now ≡ self.now }
    {
        self.refused.as_slice()
    }

    /// One more, behind the others.
    pub fn push(&mut self, id: Id, reason: Reason) -> Result<(), NoMemory>
        ensures { OnOk result (self.new ≡ self.old ++ record { id = id; why = reason } ∷ []) }
    {
        self.refused.push((id, reason))?;
        Ok(())
    }

    /// These too, behind the others.
    pub fn append(&mut self, more: Refused) -> Result<(), NoMemory>
        ensures { OnOk result (self.new ≡ self.old ++ more) }
    {
        let Refused {
            refused: mut others,
        } = more;
        self.refused.append(&mut others)?;
        Ok(())
    }

    pub fn copy(&self, alloc: Global) -> Result<Refused, NoMemory>
        ensures { IfOk result (λ it. it ≡ self.now) }
    {
        let refused = copied_all(alloc, self.as_slice())?;
        Ok(Refused { refused })
    }
}

/// What a take came to: how many commands were added and how many were held already, those that were refused, whether the responder has more,
/// the length of the longest front that the braids before and after share, and how many entries stand behind it.
#[derive(Drop)]
pub struct Taken {
    pub added: usize,
    pub repeats: usize,
    pub refused: Refused,
    pub more: bool,
    pub cut: usize,
    pub entries: usize,
}

impl Taken {
    pub fn copy(&self, alloc: Global) -> Result<Taken, NoMemory>
        ensures { IfOk result (λ it. it ≡ self.now) }
    {
        let refused = self.refused.copy(alloc)?;
        Ok(Taken {
            added: self.added,
            repeats: self.repeats,
            refused,
            more: self.more,
            cut: self.cut,
            entries: self.entries,
        })
    }
}
