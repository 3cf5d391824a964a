ghost use Rattle.std.specs.Prelude.{◌≡◌, ◌+◌, IfOk, OnOk};
ghost use Rattle.policy_meaning.specs.Blocks.{Runs, effects_of, policy_block, recall_block};
ghost use Rattle.policy_meaning.specs.Desks.{ActionRun};
ghost use Rattle.policy_meaning.specs.Typed.{AreEffectsOf, AreTyped, IsActionOf, IsCommandOf};
ghost use Rattle.policy_rules.specs.WellTyped.{IsWellTyped};

use crate::{ActionEnd, Call, Desk, Verdict};
use base_bytes::{Id, NoMemory, Steps, Values};
use fact_store::FactBase;
use policy_ast::Policy;
use std::alloc::Global;
use std::sync::ledger::Ledger;

/// What runs the blocks of a well-typed policy. Whatever the way in which it does, each call answers what the blocks mean.
pub trait Runner: Drop {
    ghost use Rattle.std.specs.Prelude.{List};
    ghost use Rattle.policy_ast.specs.declared.policy.PlacedItem.{PlacedItem};

    /// The policy.
    ghost rules: { Self → List PlacedItem };

    /// The policy, which is well typed. Takes no memory.
    fn policy(&self) -> &Policy
        ensures policy { result.now ≡ rules self.now }
        ensures well_typed { IsWellTyped (rules self.now) };

    /// Runs the policy block of a command over the facts, and takes a tick. After a pass the facts are those behind its writes; after a failed check
    /// or a fault they are as before; without memory they are open.
    fn run_command<F: FactBase, L: Ledger>(
        &self,
        alloc: Global,
        call: &Call,
        facts: &mut F,
        steps: &mut Steps<L>,
    ) -> Result<Verdict, NoMemory>
        requires declared { IsCommandOf (rules self.now) call.now.command call.now.fields }
        requires typed { AreTyped (rules self.now) (F.rows facts.old) }
        ensures runs { IfOk result (λ verdict. Runs (policy_block (rules self.now) call.now (F.rows facts.old)) verdict (F.rows facts.old) (F.rows facts.new)) }
        ensures typed { OnOk result (AreTyped (rules self.now) (F.rows facts.new)) }
        ensures effects { IfOk result (λ verdict. AreEffectsOf (rules self.now) (effects_of verdict)) }
        ensures tick { steps.new ≡ steps.old + 1 };

    /// The same of the recall block. An absent one passes, with no writes.
    fn run_recall<F: FactBase, L: Ledger>(
        &self,
        alloc: Global,
        call: &Call,
        facts: &mut F,
        steps: &mut Steps<L>,
    ) -> Result<Verdict, NoMemory>
        requires declared { IsCommandOf (rules self.now) call.now.command call.now.fields }
        requires typed { AreTyped (rules self.now) (F.rows facts.old) }
        ensures runs { IfOk result (λ verdict. Runs (recall_block (rules self.now) call.now (F.rows facts.old)) verdict (F.rows facts.old) (F.rows facts.new)) }
        ensures typed { OnOk result (AreTyped (rules self.now) (F.rows facts.new)) }
        ensures effects { IfOk result (λ verdict. AreEffectsOf (rules self.now) (effects_of verdict)) }
        ensures tick { steps.new ≡ steps.old + 1 };

    /// Runs the body of an action over the facts, and calls the desk at each publish. It takes just the ticks that the desk takes. The facts are
    /// those that the publishes left, whatever the end, so callers work on a copy; without memory they are open.
    fn run_action<F: FactBase, P: Desk<F>, L: Ledger>(
        &self,
        alloc: Global,
        action: u32,
        args: &Values,
        device: &Id,
        facts: &mut F,
        desk: &mut P,
        steps: &mut Steps<L>,
    ) -> Result<ActionEnd, NoMemory>
        requires declared { IsActionOf (rules self.now) action args.now }
        requires policy { P.policy desk.old ≡ rules self.now }
        requires typed { AreTyped (rules self.now) (F.rows facts.old) }
        ensures runs { IfOk result (λ end. ActionRun P.publishes (rules self.now) action args.now device.now desk.old (F.rows facts.old) end steps.old steps.new desk.new (F.rows facts.new)) }
        ensures keeps { P.keeps desk.old desk.new }
        ensures policy { P.policy desk.new ≡ rules self.now }
        ensures typed { OnOk result (AreTyped (rules self.now) (F.rows facts.new)) };
}
