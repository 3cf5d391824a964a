//! The policy block and the recall block of a command.

ghost use Rattle.std.specs.Prelude.{◌≡◌, Err, IfOk, List, OnOk};
ghost use Rattle.std.specs.Option.{option_copied};
ghost use Rattle.fact_store.specs.declared.row.Row.{Row};
ghost use Rattle.policy_meaning.specs.Applying.{Ended};
ghost use Rattle.policy_meaning.specs.Blocks.{Runs, body_ended, called_sections, effects_of, policy_block, policy_body, recall_block, recall_body};
ghost use Rattle.policy_meaning.specs.Typed.{AreEffectsOf, AreTyped, IsCommandOf};
ghost use Rattle.policy_rules.specs.WellTyped.{items_of};
ghost use Rattle.policy_eval.specs.working.Ending.{EndsSo};
ghost use Rattle.policy_expressions.specs.declared.stop.Stop.TheVariants as stop;

use crate::finish::listed;
use crate::flow::Flow;
use crate::ids::is_id;
use crate::limits::{LONGEST, TURNS};
use crate::statements::run_all;
use base_bytes::NoMemory;
use fact_store::FactBase;
use policy_ast::{Item, Section, Stmt};
use policy_expressions::{Answer, Env, Known, Setting, Stop, apply_or_leave};
use policy_meaning::{Call, Effects, Verdict};
use policy_types::Checked;
use policy_types::laws::blocks_are_never_stuck;
use std::alloc::Global;

/// Runs a block of a command.
fn run_block<'a, F: FactBase>(
    alloc: Global,
    known: &Known<'a>,
    call: &Call,
    facts: &mut F,
    body: &'a [Stmt],
) -> Answer<Effects>
    ensures { EndsSo result (body_ended known.now call.now (F.rows facts.old) body.now) (F.rows facts.old) (F.rows facts.new) }
{
    let setting = Setting::of_command(call);
    let mut env = Env::new(alloc);
    let mut turns = TURNS;
    match run_all(
        alloc, known, &*facts, &setting, LONGEST, &mut env, &mut turns, body,
    )? {
        Flow::Goes => Ok(Effects::new(alloc)),
        Flow::Returns(_) => Err(Stop::Stuck),
        Flow::Reached(statements) => {
            let changes = listed(
                alloc, known, &*facts, &setting, &mut env, &mut turns, statements,
            )?;
            apply_or_leave(alloc, changes, facts)
        }
    }
}

/// The block of the first section of policy.
fn policy_body(sections: &[Section]) -> Option<&[Stmt]>
    ensures { option_copied result ≡ policy_body sections.now }
{
    for section in sections {
        if let Section::Policy(body) = section {
            return Some(body.as_slice());
        }
    }
    None
}

fn recall_body(sections: &[Section]) -> Option<&[Stmt]>
    ensures { option_copied result ≡ recall_body sections.now }
{
    for section in sections {
        if let Section::Recall(body) = section {
            return Some(body.as_slice());
        }
    }
    None
}

/// The sections of the command that is called.
fn called_sections<'a>(checked: &'a Checked, call: &Call) -> Option<&'a [Section]>
    ensures { option_copied result ≡ called_sections checked.now call.now }
{
    match checked.policy().items().get(call.command as usize) {
        Some(placed) => match &placed.item {
            Item::Command(_, sections) => Some(sections.as_slice()),
            _ => None,
        },
        None => None,
    }
}

/// Runs the policy block of a command.
fn run_policy<F: FactBase>(
    alloc: Global,
    checked: &Checked,
    call: &Call,
    facts: &mut F,
) -> Answer<Effects>
    ensures { EndsSo result (policy_block checked.now call.now (F.rows facts.old)) (F.rows facts.old) (F.rows facts.new) }
{
    let Some(sections) = called_sections(checked, call) else {
        return Err(Stop::Stuck);
    };
    let Some(body) = policy_body(sections) else {
        return Err(Stop::Stuck);
    };
    let known = Known::new(alloc, checked)?;
    run_block(alloc, &known, call, facts, body)
}

/// Runs the recall block of a command; where it has none, nothing is done.
fn run_recall<F: FactBase>(
    alloc: Global,
    checked: &Checked,
    call: &Call,
    facts: &mut F,
) -> Answer<Effects>
    ensures { EndsSo result (recall_block checked.now call.now (F.rows facts.old)) (F.rows facts.old) (F.rows facts.new) }
{
    let Some(sections) = called_sections(checked, call) else {
        return Err(Stop::Stuck);
    };
    let Some(body) = recall_body(sections) else {
        return Ok(Effects::new(alloc));
    };
    let known = Known::new(alloc, checked)?;
    run_block(alloc, &known, call, facts, body)
}

/// The verdict by how a block ended, which wasn't stuck.
fn verdict_of(found: Answer<Effects>) -> Result<Verdict, NoMemory>
    requires { found ≡ Err stop.Stuck → ⊥ }
    ensures { (ended : Ended) (old new : List Row) → EndsSo found ended old new → IfOk result (λ verdict. Runs ended verdict old new) }
{
    match found {
        Ok(effects) => Ok(Verdict::Pass(effects)),
        Err(Stop::Check) => Ok(Verdict::Check),
        Err(Stop::Fault(kind)) => Ok(Verdict::Fault(kind)),
        Err(Stop::Stuck) => unreachable!(),
        Err(Stop::NoMemory) => Err(NoMemory),
    }
}

/// How the policy block of a command ends.
pub(crate) fn policy_verdict<F: FactBase>(
    alloc: Global,
    checked: &Checked,
    call: &Call,
    facts: &mut F,
) -> Result<Verdict, NoMemory>
    requires declared { IsCommandOf checked.now call.now.command call.now.fields }
    requires typed { AreTyped checked.now (F.rows facts.old) }
    ensures runs { IfOk result (λ verdict. Runs (policy_block checked.now call.now (F.rows facts.old)) verdict (F.rows facts.old) (F.rows facts.new)) }
    ensures typed { OnOk result (AreTyped checked.now (F.rows facts.new)) }
    ensures effects { IfOk result (λ verdict. AreEffectsOf checked.now (effects_of verdict)) }
{
    let _policy = checked.policy();
    blocks_are_never_stuck();
    is_id(&call.author);
    is_id(&call.id);
    verdict_of(run_policy(alloc, checked, call, facts))
}

/// How its recall block ends.
pub(crate) fn recall_verdict<F: FactBase>(
    alloc: Global,
    checked: &Checked,
    call: &Call,
    facts: &mut F,
) -> Result<Verdict, NoMemory>
    requires declared { IsCommandOf checked.now call.now.command call.now.fields }
    requires typed { AreTyped checked.now (F.rows facts.old) }
    ensures runs { IfOk result (λ verdict. Runs (recall_block checked.now call.now (F.rows facts.old)) verdict (F.rows facts.old) (F.rows facts.new)) }
    ensures typed { OnOk result (AreTyped checked.now (F.rows facts.new)) }
    ensures effects { IfOk result (λ verdict. AreEffectsOf checked.now (effects_of verdict)) }
{
    let _policy = checked.policy();
    blocks_are_never_stuck();
    is_id(&call.author);
    is_id(&call.id);
    verdict_of(run_recall(alloc, checked, call, facts))
}
