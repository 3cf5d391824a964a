//! What `finish` lists. Nothing is written before all is listed.

ghost use Rattle.std.specs.Prelude.{◌≡◌, option_map};
ghost use Rattle.policy_expressions.specs.Answers.{Gives, Leaves};
ghost use Rattle.policy_eval.specs.working.Listing.{behind, change_listed, finish_call, stmt_listed, stmts_listed};
ghost use Rattle.policy_eval.specs.working.ListingSteps.{finish_parts, finish_parts_of, kept_parts};
ghost use Rattle.policy_rules.specs.Calls.{longest_chain};

use crate::expressions::{bound_values, value_of, values_of, wanted_of};
use crate::limits::LONGEST;
use base_bytes::Values;
use fact_store::FactBase;
use policy_ast::{Field, FinishStmt, Item, Name};
use policy_expressions::{
    Answer, Change, Changes, Env, Known, Setting, Stop, create_of, delete_of, emit_of, push_change,
    take_turn, update_of,
};
use std::alloc::Global;

/// A write or an effect, by the values of its expressions in written order. A call of a finish function is none.
fn change<'a, F: FactBase>(
    alloc: Global,
    known: &Known<'a>,
    facts: &F,
    setting: &Setting<'_>,
    env: &mut Env<'a>,
    turns: &mut u32,
    s: &'a FinishStmt,
) -> Answer<Change>
    ensures gives { Gives result turns.new (change_listed known.now (F.rows facts.now) setting.now s.now env.old turns.old) }
    ensures kept { env.new ≡ env.old }
{
    match s {
        FinishStmt::Create { fact, keys, values } => {
            let keys = bound_values(
                alloc,
                known,
                facts,
                setting,
                LONGEST,
                env,
                turns,
                keys.as_slice(),
            )?;
            let values = values.as_slice();
            let found = bound_values(alloc, known, facts, setting, LONGEST, env, turns, values);
            create_of(alloc, known, fact, keys, values, found)
        }
        FinishStmt::Update { from, to } => {
            let old = wanted_of(alloc, known, facts, setting, LONGEST, env, turns, from)?;
            let to = to.as_slice();
            let found = bound_values(alloc, known, facts, setting, LONGEST, env, turns, to);
            update_of(alloc, known, &from.fact, old, to, found)
        }
        FinishStmt::Delete { fact, keys } => {
            let found = bound_values(
                alloc,
                known,
                facts,
                setting,
                LONGEST,
                env,
                turns,
                keys.as_slice(),
            );
            delete_of(known, fact, found)
        }
        FinishStmt::Emit(e) => {
            emit_of(value_of(alloc, known, facts, setting, LONGEST, env, turns, e))
        }
        FinishStmt::Call(_, _) => Err(Stop::Stuck),
    }
}

/// A statement, behind what is listed already. So many calls of finish functions may still nest.
#[cycle(list)]
fn list_one<'a, F: FactBase>(
    alloc: Global,
    known: &Known<'a>,
    facts: &F,
    setting: &Setting<'_>,
    depth: u32,
    env: &mut Env<'a>,
    turns: &mut u32,
    changes: &mut Changes,
    s: &'a FinishStmt,
) -> Answer<()>
    ensures lists { Leaves result changes.new turns.new (behind changes.old (stmt_listed known.now (F.rows facts.now) setting.now depth s.now env.old turns.old)) }
    ensures kept { env.new ≡ env.old }
{
    match s {
        FinishStmt::Call(name, arguments) => {
            let values = values_of(
                alloc,
                known,
                facts,
                setting,
                LONGEST,
                env,
                turns,
                arguments.as_slice(),
            )?;
            list_call(alloc, known, facts, depth, turns, changes, name, values)
        }
        _ => {
            let found = change(alloc, known, facts, setting, env, turns, s);
            push_change(changes, found)
        }
    }
}

/// Statements one after another.
#[cycle(list)]
fn list_all<'a, F: FactBase>(
    alloc: Global,
    known: &Known<'a>,
    facts: &F,
    setting: &Setting<'_>,
    depth: u32,
    env: &mut Env<'a>,
    turns: &mut u32,
    changes: &mut Changes,
    statements: &'a [FinishStmt],
) -> Answer<()>
    ensures lists { Leaves result changes.new turns.new (behind changes.old (stmts_listed known.now (F.rows facts.now) setting.now depth statements.now env.old turns.old)) }
    ensures kept { env.new ≡ env.old }
{
    for s in statements {
        list_one(alloc, known, facts, setting, depth, env, turns, changes, s)?;
    }
    Ok(())
}

/// A finish function that is called: its parameters and its body.
#[derive(Clone, Copy)]
struct FinishCallee<'a> {
    parameters: &'a [Field],
    body: &'a [FinishStmt],
}

/// The item as a finish function.
fn finish_parts_of<'a>(item: &'a Item) -> Option<FinishCallee<'a>>
    ensures { option_map kept_parts result ≡ finish_parts_of item.now }
{
    match item {
        Item::FinishFunction {
            parameters,
            body,
            ..
        } => Some(FinishCallee {
            parameters: parameters.as_slice(),
            body: body.as_slice(),
        }),
        _ => None,
    }
}

/// The finish function of this name.
fn finish_parts<'a>(known: &Known<'a>, name: &Name) -> Option<FinishCallee<'a>>
    ensures { option_map kept_parts result ≡ finish_parts known.now name.now }
{
    match known.item_named(name) {
        Some(item) => finish_parts_of(item),
        None => None,
    }
}

/// A call of a finish function. In it an expression knows its names alone.
#[cycle(list)]
fn list_call<'a, F: FactBase>(
    alloc: Global,
    known: &Known<'a>,
    facts: &F,
    depth: u32,
    turns: &mut u32,
    changes: &mut Changes,
    name: &Name,
    values: Values,
) -> Answer<()>
    ensures { Leaves result changes.new turns.new (behind changes.old (finish_call known.now (F.rows facts.now) depth name.now values turns.old)) }
{
    if depth == 0 {
        return Err(Stop::Stuck);
    }
    let Some(callee) = finish_parts(known, name) else {
        return Err(Stop::Stuck);
    };
    take_turn(turns)?;
    let mut env = Env::of_parameters(alloc, callee.parameters, values)?;
    let setting = Setting::none();
    let body = callee.body;
    list_all(
        alloc,
        known,
        facts,
        &setting,
        depth - 1,
        &mut env,
        turns,
        changes,
        body,
    )
}

/// What a `finish` block lists.
pub(crate) fn listed<'a, F: FactBase>(
    alloc: Global,
    known: &Known<'a>,
    facts: &F,
    setting: &Setting<'_>,
    env: &mut Env<'a>,
    turns: &mut u32,
    statements: &'a [FinishStmt],
) -> Answer<Changes>
    ensures { Gives result turns.new (stmts_listed known.now (F.rows facts.now) setting.now longest_chain statements.now env.old turns.old) }
{
    let mut changes = Changes::new(alloc);
    list_all(
        alloc,
        known,
        facts,
        setting,
        LONGEST,
        env,
        turns,
        &mut changes,
        statements,
    )?;
    Ok(changes)
}
