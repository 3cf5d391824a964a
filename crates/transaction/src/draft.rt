ghost use Rattle.std.specs.Prelude.{◌≡◌, ◌≤◌, false, [], ◌∷◌, ◌++◌, None, Some, IfOk, IfNone, IfSome, OnOk, length};
ghost use Rattle.std.specs.Cmp.Lexicographic.{slice_cmp};
ghost use Rattle.std.specs.Ordering.{nat_cmp};
ghost use Rattle.std.specs.declared.cmp.Ordering.TheVariants.{Less};
ghost use Rattle.std.specs.List.{All};
ghost use Rattle.command.specs.Closed.{has_id};
ghost use Rattle.command.specs.Wire.{IsFormed, command_id};
ghost use Rattle.policy_meaning.specs.declared.ends.Posted.TheVariants as posted;
ghost use Rattle.transaction.specs.Drafts.{with_id};
ghost use Rattle.transaction.specs.Merging.{with_merge};
ghost use Rattle.transaction.specs.Publishing.{has_head, with_command};
ghost use Rattle.transaction.specs.working.Steps.{IsTip};

use crate::ActFault;
use crate::new_commands::NewCommands;
use base_bytes::{Id, NoMemory};
use braid_run::{Entries, Entry, Outcome};
use command::{Command, Commands};
use policy_meaning::{Effects, Posted};
use std::alloc::Global;
use std::collections::BTreeSet;
use std::marker::Model;

/// What an action has made so far.
#[derive(Drop)]
pub struct Drafted {
    heads: BTreeSet<Id>,
    commands: NewCommands,
    entries: Entries,
    refusal: Option<ActFault>,
}

impl Model for Drafted {
    ghost use Rattle.std.specs.Coded.{codes};
    ghost use Rattle.base_bytes.specs.contracts.value.Value as value;
    ghost use Rattle.transaction.specs.Drafts.{Draft};

    ghost Value = { Draft };

    ghost coded = { Prim.hlevel (codes, value.the_row.coded) };

    ghost view = { λ it. record { heads = it.heads.keys; commands = it.commands; entries = it.entries.all; refusal = it.refusal } };
}

impl Drafted {
    /// Nothing is made, and there are no heads yet. Takes no memory.
    pub fn new(alloc: Global) -> Drafted
        ensures { result ≡ record { heads = []; commands = []; entries = []; refusal = None } }
    {
        Drafted {
            heads: BTreeSet::new(alloc),
            commands: NewCommands::new(alloc),
            entries: Entries::new(alloc),
            refusal: None,
        }
    }

    /// One head more.
    pub fn add_head(&mut self, id: Id) -> Result<(), NoMemory>
        ensures { OnOk result (self.new ≡ record self.old { heads = with_id self.old.heads id }) }
    {
        self.heads.insert(id)?;
        Ok(())
    }

    pub fn head_count(&self) -> usize
        ensures { result ≡ length self.now.heads }
    {
        self.heads.len()
    }

    #[tactic(auto, using(crate::proofs::DraftFacts::headed))]
    pub fn has_head(&self) -> bool
        ensures { result ≡ has_head self.now.heads }
    {
        self.heads.len() > 0
    }

    pub fn command_count(&self) -> usize
        ensures { result ≡ length self.now.commands }
    {
        self.commands.len()
    }

    /// The head of the smallest id.
    pub fn tip(&self) -> Option<Id>
        ensures { IsTip result self.now.heads }
    {
        self.heads.first().copied()
    }

    /// Whether a command of this id was made.
    pub fn has_made(&self, id: &Id) -> bool
        ensures { result ≡ has_id self.now.commands id.now }
    {
        self.commands.has(id)
    }

    /// Takes out the two heads of smallest ids, where there are two.
    pub fn two_smallest(&mut self) -> Option<(Id, Id)>
        ensures two { IfSome result (λ two. self.old.heads ≡ two.0 ∷ two.1 ∷ self.new.heads) }
        ensures ascend { IfSome result (λ two. slice_cmp nat_cmp two.0 two.1 ≡ Less) }
        ensures stays { self.new ≡ record self.old { heads = self.new.heads } }
        ensures few { IfNone result ((length self.old.heads ≤ 1) × (self.new.heads ≡ self.old.heads)) }
    {
        if self.heads.len() < 2 {
            return None;
        }
        let left = self.heads.pop_first()?;
        let right = self.heads.pop_first()?;
        Some((left, right))
    }

    /// Adds a merge, which has this id and is a head.
    pub fn add_merge(&mut self, alloc: Global, merge: Command, id: Id) -> Result<(), NoMemory>
        requires id { id ≡ command_id merge }
        requires formed { IsFormed merge }
        requires fresh { has_id self.old.commands id ≡ false }
        ensures added { OnOk result (self.new ≡ with_merge self.old self.old.heads merge) }
        ensures refusal { self.new.refusal ≡ self.old.refusal }
    {
        self.heads.insert(id)?;
        self.commands.push(alloc, merge, id)
    }

    /// Adds a command that passed, which has this id and is the one head, with its entry.
    pub fn add_command(
        &mut self,
        alloc: Global,
        command: Command,
        id: Id,
        effects: Effects,
    ) -> Result<(), NoMemory>
        requires id { id ≡ command_id command }
        requires formed { IsFormed command }
        requires fresh { has_id self.old.commands id ≡ false }
        ensures added { OnOk result (self.new ≡ with_command self.old command effects) }
        ensures refusal { self.new.refusal ≡ self.old.refusal }
    {
        self.heads.clear();
        self.heads.insert(id)?;
        self.commands.push(alloc, command, id)?;
        self.entries.push(
            alloc,
            Entry {
                id,
                outcome: Outcome::Pass,
                effects,
            },
        )
    }

    /// Notes why a command is refused. Takes no memory.
    pub fn refuse(&mut self, why: ActFault) -> Posted
        ensures noted { self.new ≡ record self.old { refusal = Some why } }
        ensures refused { result ≡ posted.Refused }
    {
        self.refusal = Some(why);
        Posted::Refused
    }

    /// What was made, and why a command was refused.
    pub fn into_parts(self) -> DraftParts
        ensures parts { (result.commands ≡ self.commands) × (result.entries.all ≡ self.entries) × (result.refusal ≡ self.refusal) }
        ensures formed { All IsFormed self.commands }
    {
        let Drafted {
            commands,
            entries,
            refusal,
            ..
        } = self;
        DraftParts {
            commands: commands.into_commands(),
            entries,
            refusal,
        }
    }
}

/// What was made, and why a command was refused, where one was.
#[derive(Drop)]
pub struct DraftParts {
    pub commands: Commands,
    pub entries: Entries,
    pub refusal: Option<ActFault>,
}
