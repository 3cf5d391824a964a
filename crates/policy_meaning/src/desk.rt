ghost use Rattle.std.specs.Prelude.{◌≡◌, IfOk, OnOk};
ghost use Rattle.policy_meaning.specs.Desks.{Publishes, Stay};
ghost use Rattle.policy_meaning.specs.Typed.{AreTyped, IsCommandOf};

use crate::Posted;
use base_bytes::{NoMemory, Steps, Values};
use fact_store::FactBase;
use std::alloc::Global;
use std::sync::ledger::Ledger;

/// What takes the commands that an action publishes. What it does is a relation of its own, which tells the answer, the facts behind it and the ticks.
pub trait Desk<F: FactBase>: Drop {
    ghost use Rattle.std.specs.Prelude.{List};
    ghost use Rattle.fact_store.specs.declared.row.Row.{Row};
    ghost use Rattle.policy_ast.specs.declared.policy.PlacedItem.{PlacedItem};
    ghost use Rattle.policy_meaning.specs.Desks.{Posting};

    /// The policy that declares what is published.
    ghost policy: { Self → List PlacedItem };

    /// What the desk keeps from one state to a later one, whatever was answered.
    ghost keeps: { Self → Self → Type 0 };

    /// From this state and these facts a publish may go so, and leave that state.
    ghost publishes: { Self → List Row → Posting → Self → Type 0 };

    /// Takes a command of this number and these fields, which are of the declared types, or doesn't. The facts are those of the policy's types
    /// before, and after every answer but out of memory.
    fn publish<L: Ledger>(
        &mut self,
        alloc: Global,
        command: u32,
        fields: Values,
        facts: &mut F,
        steps: &mut Steps<L>,
    ) -> Result<Posted, NoMemory>
        requires declared { IsCommandOf (policy self.old) command fields }
        requires typed { AreTyped (policy self.old) (F.rows facts.old) }
        ensures publishes { IfOk result (λ posted. Publishes publishes self.old (F.rows facts.old) command fields posted steps.old steps.new self.new (F.rows facts.new)) }
        ensures stay { IfOk result (λ posted. Stay posted (F.rows facts.old) (F.rows facts.new)) }
        ensures keeps { keeps self.old self.new }
        ensures policy { policy self.new ≡ policy self.old }
        ensures typed { OnOk result (AreTyped (policy self.old) (F.rows facts.new)) };

    ghost keeps_itself: { (desk : Self) → keeps desk desk };

    ghost keeps_on: { (a b c : Self) → keeps a b → keeps b c → keeps a c };
}
