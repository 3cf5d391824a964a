//! What runs a policy by walking its tree.

ghost use Rattle.std.specs.Prelude.{◌≡◌, ◌+◌, IfOk, OnOk};
ghost use Rattle.policy_meaning.specs.Blocks.{Runs, effects_of, policy_block, recall_block};
ghost use Rattle.policy_meaning.specs.Desks.{ActionRun};
ghost use Rattle.policy_meaning.specs.Typed.{AreEffectsOf, AreTyped};
ghost use Rattle.policy_rules.specs.WellTyped.{IsWellTyped};

use crate::actions::action_end;
use crate::blocks::{policy_verdict, recall_verdict};
use base_bytes::{Id, NoMemory, Steps, Values};
use fact_store::FactBase;
use policy_ast::Policy;
use policy_meaning::{ActionEnd, Call, Desk, Runner, Verdict};
use policy_types::Checked;
use std::alloc::Global;
use std::marker::Model;
use std::sync::ledger::Ledger;

/// Runs a well-typed policy over its tree. Contracts see it as the policy, as they see a `Policy`.
#[derive(Drop)]
pub struct TreeRunner {
    checked: Checked,
}

impl Model for TreeRunner {
    ghost use Rattle.std.specs.Prelude.{List};
    ghost use Rattle.std.specs.Coded.{coded_list};
    ghost use Rattle.policy_ast.specs.contracts.policy.PlacedItem as placed_item;
    ghost use Rattle.policy_ast.specs.declared.policy.PlacedItem.{PlacedItem};

    ghost Value = { List PlacedItem };

    ghost coded = { coded_list placed_item.the_row.coded };

    ghost view = { λ runner. runner.checked };
}

impl TreeRunner {
    /// A runner of the policy. Takes no memory.
    pub fn new(policy: Checked) -> TreeRunner
        ensures { result ≡ policy }
    {
        TreeRunner { checked: policy }
    }
}

impl Runner for TreeRunner {
    ghost rules = { λ runner. runner };

    fn policy(&self) -> &Policy {
        self.checked.policy()
    }

    fn run_command<F: FactBase, L: Ledger>(
        &self,
        alloc: Global,
        call: &Call,
        facts: &mut F,
        steps: &mut Steps<L>,
    ) -> Result<Verdict, NoMemory> {
        steps.tick();
        policy_verdict(alloc, &self.checked, call, facts)
    }

    fn run_recall<F: FactBase, L: Ledger>(
        &self,
        alloc: Global,
        call: &Call,
        facts: &mut F,
        steps: &mut Steps<L>,
    ) -> Result<Verdict, NoMemory> {
        steps.tick();
        recall_verdict(alloc, &self.checked, call, facts)
    }

    fn run_action<F: FactBase, P: Desk<F>, L: Ledger>(
        &self,
        alloc: Global,
        action: u32,
        args: &Values,
        device: &Id,
        facts: &mut F,
        desk: &mut P,
        steps: &mut Steps<L>,
    ) -> Result<ActionEnd, NoMemory> {
        action_end(
            alloc,
            &self.checked,
            action,
            args,
            device,
            facts,
            desk,
            steps,
        )
    }
}
