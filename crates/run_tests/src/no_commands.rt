ghost use Rattle.std.specs.Prelude.{◌≡◌, []};

use base_bytes::{Id, NoMemory, Steps, Values};
use fact_store::FactBase;
use policy_ast::Policy;
use policy_meaning::{ActionEnd, Call, Desk, Runner, Verdict};
use sqlite_items::Items;
use std::alloc::Global;
use std::sync::ledger::Ledger;

/// A runner of the policy of no items. No command is a call by it, so its running calls are never made.
#[derive(Drop)]
pub struct NoCommands {
    policy: Policy,
    ghost none: { policy ≡ [] },
}

impl NoCommands {
    pub fn new(alloc: Global) -> NoCommands {
        NoCommands {
            policy: Policy::new(Items::new(alloc)),
        }
    }
}

impl Runner for NoCommands {
    ghost rules = { λ runner. runner.policy };

    fn policy(&self) -> &Policy {
        &self.policy
    }

    fn run_command<F: FactBase, L: Ledger>(
        &self,
        _alloc: Global,
        _call: &Call,
        _facts: &mut F,
        steps: &mut Steps<L>,
    ) -> Result<Verdict, NoMemory> {
        steps.tick();
        Err(NoMemory)
    }

    fn run_recall<F: FactBase, L: Ledger>(
        &self,
        _alloc: Global,
        _call: &Call,
        _facts: &mut F,
        steps: &mut Steps<L>,
    ) -> Result<Verdict, NoMemory> {
        steps.tick();
        Err(NoMemory)
    }

    fn run_action<F: FactBase, P: Desk<F>, L: Ledger>(
        &self,
        _alloc: Global,
        _action: u32,
        _args: &Values,
        _device: &Id,
        _facts: &mut F,
        _desk: &mut P,
        _steps: &mut Steps<L>,
    ) -> Result<ActionEnd, NoMemory> {
        Err(NoMemory)
    }
}
