//! Statements of actions.

ghost use Rattle.std.specs.Prelude.{◌≡◌, ℕ, List, Some, IfOk, IfSome, IsTrue, OnOk};
ghost use Rattle.base_bytes.specs.declared.value.Value.{Value};
ghost use Rattle.fact_store.specs.Rows.{are_keys};
ghost use Rattle.fact_store.specs.declared.wanted.Wanted.{Wanted};
ghost use Rattle.policy_expressions.specs.Answers.{Gives, Keeps, Leaves};
ghost use Rattle.policy_meaning.specs.Actions.{each_row, inside, published};
ghost use Rattle.policy_meaning.specs.Outcomes.{Done, Out};
ghost use Rattle.policy_meaning.specs.Typed.{AreTyped, IsCommandOf};
ghost use Rattle.policy_meaning.specs.Values.{struct_parts};
ghost use Rattle.policy_rules.specs.WellTyped.{items_of};
ghost use Rattle.policy_eval.specs.working.Acting.{Acts, GivesRows, GoesWell, posted_as, standing};
ghost use Rattle.policy_eval.specs.working.Deeds.{deed, deeds, else_deed, row_entered, row_entering, rows_matching};

use crate::cause::{Cause, caused};
use crate::expressions::{value_of, wanted_of};
use crate::flow::body_taken;
use crate::limits::LONGEST;
use base_bytes::{Steps, Value, Values};
use fact_store::{FactBase, Row, Wanted};
use policy_ast::{Else, IfStmt, Name, Stmt};
use policy_expressions::{
    Answer, Env, Known, Setting, Stop, check_of, let_in, row_value, take_turn, truth_of,
};
use policy_meaning::{Desk, FaultKind, Posted};
use std::alloc::Global;
use std::sync::ledger::Ledger;

/// The number and the fields of a struct.
fn parts_of(value: Value) -> Option<(u32, Values)>
    ensures { result ≡ struct_parts value }
{
    match value {
        Value::Struct(item, fields) => Some((item, fields)),
        _ => None,
    }
}

/// What the desk's answer comes to.
fn posted_as(posted: Posted) -> Result<(), Cause>
    ensures { result ≡ posted_as posted }
{
    match posted {
        Posted::Taken => Ok(()),
        Posted::TooLong => Err(Cause::Stop(Stop::Fault(FaultKind::TooLong))),
        Posted::Refused => Err(Cause::Refused),
    }
}

/// Brings a command of this number and these fields to the desk.
fn bring<F: FactBase, P: Desk<F>, L: Ledger>(
    alloc: Global,
    facts: &mut F,
    desk: &mut P,
    steps: &mut Steps<L>,
    command: u32,
    fields: Values,
) -> Result<(), Cause>
    requires typed { AreTyped (P.policy desk.old) (F.rows facts.old) }
    requires declared { IsCommandOf (P.policy desk.old) command fields }
    ensures acts { (turns : ℕ) → Acts P.publishes (P.policy desk.old) result tt (published (Some (command, fields))) (standing desk.old (F.rows facts.old) turns steps.old) (standing desk.new (F.rows facts.new) turns steps.new) }
    ensures keeps { P.keeps desk.old desk.new }
    ensures policy { P.policy desk.new ≡ P.policy desk.old }
{
    let posted = desk.publish(alloc, command, fields, facts, steps)?;
    posted_as(posted)
}

/// Brings a command to the desk.
fn publish<F: FactBase, P: Desk<F>, L: Ledger>(
    alloc: Global,
    facts: &mut F,
    desk: &mut P,
    steps: &mut Steps<L>,
    value: Value,
) -> Result<(), Cause>
    requires typed { AreTyped (P.policy desk.old) (F.rows facts.old) }
    requires declared { IfSome (struct_parts value) (λ parts. IsCommandOf (P.policy desk.old) parts.0 parts.1) }
    ensures acts { (turns : ℕ) → Acts P.publishes (P.policy desk.old) result tt (published (struct_parts value)) (standing desk.old (F.rows facts.old) turns steps.old) (standing desk.new (F.rows facts.new) turns steps.new) }
    ensures keeps { P.keeps desk.old desk.new }
    ensures policy { P.policy desk.new ≡ P.policy desk.old }
{
    let Some((command, fields)) = parts_of(value) else {
        return Err(Cause::Stop(Stop::Stuck));
    };
    bring(alloc, facts, desk, steps, command, fields)
}

/// The rows that match.
fn selected<F: FactBase>(alloc: Global, facts: &F, wanted: &Wanted) -> Answer<Vec<Row>>
    requires keys { IsTrue (are_keys wanted.now.keys) }
    ensures { (turns : ℕ) → GivesRows result turns (rows_matching (F.rows facts.now) (Done wanted.now turns)) }
{
    Ok(facts.select(alloc, wanted)?)
}

/// The rows that a `map` goes through.
fn rows_of<F: FactBase>(alloc: Global, facts: &F, found: Answer<Wanted>) -> Answer<Vec<Row>>
    requires keys { IfOk found (λ wanted. IsTrue (are_keys wanted.keys)) }
    ensures { (turns : ℕ) (out : Out Wanted) → Gives found turns out → GivesRows result turns (rows_matching (F.rows facts.now) out) }
{
    let wanted = found?;
    selected(alloc, facts, &wanted)
}

/// The value of a row, behind a turn that is taken.
fn entering(turns: &mut u32, row: Row) -> Answer<Value>
    ensures { Gives result turns.new (row_entering row turns.old) }
{
    take_turn(turns)?;
    Ok(row_value(row)?)
}

/// Takes a turn, and names a row.
fn enter_row<'a>(env: &mut Env<'a>, turns: &mut u32, name: &'a Name, row: Row) -> Answer<()>
    ensures gives { Leaves result env.new turns.new (row_entered name.now env.old row turns.old) }
    ensures kept { Keeps env.old env.new }
{
    let found = entering(turns, row);
    let_in(env, name, found)
}

/// One statement. The names that it introduces stay.
#[cycle(act)]
fn act<'a, F: FactBase, P: Desk<F>, L: Ledger>(
    alloc: Global,
    known: &Known<'a>,
    setting: &Setting<'_>,
    facts: &mut F,
    desk: &mut P,
    steps: &mut Steps<L>,
    env: &mut Env<'a>,
    turns: &mut u32,
    s: &'a Stmt,
) -> Result<(), Cause>
    requires policy { items_of (P.policy desk.old) ≡ known.now }
    requires typed { AreTyped (P.policy desk.old) (F.rows facts.old) }
    requires goes { GoesWell (P.policy desk.old) (deed known.now setting.now s.now env.old) (F.rows facts.old) turns.old }
    ensures acts { Acts P.publishes (P.policy desk.old) result env.new (deed known.now setting.now s.now env.old) (standing desk.old (F.rows facts.old) turns.old steps.old) (standing desk.new (F.rows facts.new) turns.new steps.new) }
    ensures kept { OnOk result (Keeps env.old env.new) }
    ensures keeps { P.keeps desk.old desk.new }
    ensures policy { P.policy desk.new ≡ P.policy desk.old }
{
    match s {
        Stmt::Let(one) => {
            let found = value_of(
                alloc, known, &*facts, setting, LONGEST, env, turns, &one.value,
            );
            caused(let_in(env, &one.name, found))
        }
        Stmt::Check(e) => {
            let found = value_of(alloc, known, &*facts, setting, LONGEST, env, turns, e);
            caused(check_of(found))
        }
        Stmt::If(x) => {
            let found = value_of(alloc, known, &*facts, setting, LONGEST, env, turns, &x.head);
            let holds = truth_of(found)?;
            if holds {
                act_block(
                    alloc,
                    known,
                    setting,
                    facts,
                    desk,
                    steps,
                    env,
                    turns,
                    x.then.as_slice(),
                )
            } else {
                act_else(alloc, known, setting, facts, desk, steps, env, turns, x)
            }
        }
        Stmt::Match(e, arms) => {
            let found = value_of(alloc, known, &*facts, setting, LONGEST, env, turns, e);
            let body = body_taken(known, arms.as_slice(), found)?;
            act_block(alloc, known, setting, facts, desk, steps, env, turns, body)
        }
        Stmt::Map(p, name, body) => {
            let found = wanted_of(alloc, known, &*facts, setting, LONGEST, env, turns, p);
            let rows = rows_of(alloc, &*facts, found)?;
            act_rows(
                alloc,
                known,
                setting,
                facts,
                desk,
                steps,
                env,
                turns,
                name,
                body.as_slice(),
                rows,
            )
        }
        Stmt::Publish(e) => {
            let value = value_of(alloc, known, &*facts, setting, LONGEST, env, turns, e)?;
            publish(alloc, facts, desk, steps, value)
        }
        Stmt::Finish(_) => Err(Cause::Stop(Stop::Stuck)),
        Stmt::Return(_) => Err(Cause::Stop(Stop::Stuck)),
    }
}

/// Statements one after another. The names that they introduce end with them.
#[cycle(act)]
pub(crate) fn act_block<'a, F: FactBase, P: Desk<F>, L: Ledger>(
    alloc: Global,
    known: &Known<'a>,
    setting: &Setting<'_>,
    facts: &mut F,
    desk: &mut P,
    steps: &mut Steps<L>,
    env: &mut Env<'a>,
    turns: &mut u32,
    body: &'a [Stmt],
) -> Result<(), Cause>
    requires policy { items_of (P.policy desk.old) ≡ known.now }
    requires typed { AreTyped (P.policy desk.old) (F.rows facts.old) }
    requires goes { GoesWell (P.policy desk.old) (inside (deeds known.now setting.now body.now) env.old) (F.rows facts.old) turns.old }
    ensures acts { Acts P.publishes (P.policy desk.old) result env.new (inside (deeds known.now setting.now body.now) env.old) (standing desk.old (F.rows facts.old) turns.old steps.old) (standing desk.new (F.rows facts.new) turns.new steps.new) }
    ensures kept { OnOk result (env.new ≡ env.old) }
    ensures keeps { P.keeps desk.old desk.new }
    ensures policy { P.policy desk.new ≡ P.policy desk.old }
{
    let outside = env.len();
    for s in body {
        act(alloc, known, setting, facts, desk, steps, env, turns, s)?;
    }
    env.truncate(outside);
    Ok(())
}

/// What follows `else`, if anything.
#[cycle(act)]
fn act_else<'a, F: FactBase, P: Desk<F>, L: Ledger>(
    alloc: Global,
    known: &Known<'a>,
    setting: &Setting<'_>,
    facts: &mut F,
    desk: &mut P,
    steps: &mut Steps<L>,
    env: &mut Env<'a>,
    turns: &mut u32,
    x: &'a IfStmt<Stmt>,
) -> Result<(), Cause>
    requires policy { items_of (P.policy desk.old) ≡ known.now }
    requires typed { AreTyped (P.policy desk.old) (F.rows facts.old) }
    requires goes { GoesWell (P.policy desk.old) (inside (else_deed known.now setting.now x.now.otherwise) env.old) (F.rows facts.old) turns.old }
    ensures acts { Acts P.publishes (P.policy desk.old) result env.new (inside (else_deed known.now setting.now x.now.otherwise) env.old) (standing desk.old (F.rows facts.old) turns.old steps.old) (standing desk.new (F.rows facts.new) turns.new steps.new) }
    ensures kept { OnOk result (env.new ≡ env.old) }
    ensures keeps { P.keeps desk.old desk.new }
    ensures policy { P.policy desk.new ≡ P.policy desk.old }
{
    match &x.otherwise {
        None => Ok(()),
        Some(Else::Block(body)) => {
            act_block(
                alloc,
                known,
                setting,
                facts,
                desk,
                steps,
                env,
                turns,
                body.as_slice(),
            )
        }
        Some(Else::If(s)) => {
            let outside = env.len();
            act(
                alloc,
                known,
                setting,
                facts,
                desk,
                steps,
                env,
                turns,
                s.get(),
            )?;
            env.truncate(outside);
            Ok(())
        }
    }
}

/// A block for each of the rows, in their order, each with a turn of its own and the row under the name.
#[cycle(act)]
fn act_rows<'a, F: FactBase, P: Desk<F>, L: Ledger>(
    alloc: Global,
    known: &Known<'a>,
    setting: &Setting<'_>,
    facts: &mut F,
    desk: &mut P,
    steps: &mut Steps<L>,
    env: &mut Env<'a>,
    turns: &mut u32,
    name: &'a Name,
    body: &'a [Stmt],
    rows: Vec<Row>,
) -> Result<(), Cause>
    requires policy { items_of (P.policy desk.old) ≡ known.now }
    requires typed { AreTyped (P.policy desk.old) (F.rows facts.old) }
    requires goes { GoesWell (P.policy desk.old) (each_row name.now (deeds known.now setting.now body.now) env.old rows.items) (F.rows facts.old) turns.old }
    ensures acts { Acts P.publishes (P.policy desk.old) result env.new (each_row name.now (deeds known.now setting.now body.now) env.old rows.items) (standing desk.old (F.rows facts.old) turns.old steps.old) (standing desk.new (F.rows facts.new) turns.new steps.new) }
    ensures kept { OnOk result (env.new ≡ env.old) }
    ensures keeps { P.keeps desk.old desk.new }
    ensures policy { P.policy desk.new ≡ P.policy desk.old }
{
    let outside = env.len();
    for row in rows {
        enter_row(env, turns, name, row)?;
        act_block(alloc, known, setting, facts, desk, steps, env, turns, body)?;
        env.truncate(outside);
    }
    Ok(())
}
