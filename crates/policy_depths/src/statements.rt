//! The numbers of the functions and finish functions that statements call.

ghost use Rattle.std.specs.Prelude.{◌≡◌, OnOk};
ghost use Rattle.std.specs.List.{list_all};
ghost use Rattle.policy_rules.specs.Calls.{a_finish_function};
ghost use Rattle.policy_depths.specs.working.Gathering.{Gathers, call_passes, called_number, else_statement_passes, finish_passes, statement_passes};

use crate::expressions::{push_binds, push_expression, push_expressions, push_pattern};
use base_bytes::NoMemory;
use policy_ast::{Arm, Else, FinishStmt, IfStmt, Item, Name, Stmt};
use policy_heads::Heads;
use sqlite_items::Items;

/// The number of the finish function that is called by this name.
fn finish_number(heads: &Heads<'_>, name: &Name) -> Option<usize>
    ensures { result ≡ called_number heads.now a_finish_function name.now }
{
    match heads.item_named(name) {
        Some(Item::FinishFunction { .. }) => heads.number_named(name),
        _ => None,
    }
}

fn push_finish_function(
    heads: &Heads<'_>,
    numbers: &mut Items<usize>,
    name: &Name,
) -> Result<(), NoMemory>
    ensures { OnOk result (Gathers numbers.old numbers.new (λ test. call_passes heads.now test a_finish_function name.now)) }
{
    if let Some(number) = finish_number(heads, name) {
        numbers.push(number)?;
    }
    Ok(())
}

/// Adds what a statement of `finish` calls.
fn push_finish(
    heads: &Heads<'_>,
    numbers: &mut Items<usize>,
    s: &FinishStmt,
) -> Result<(), NoMemory>
    ensures { OnOk result (Gathers numbers.old numbers.new (λ test. finish_passes heads.now test s.now)) }
{
    match s {
        FinishStmt::Create { keys, values, .. } => {
            push_binds(heads, numbers, keys.as_slice())?;
            push_binds(heads, numbers, values.as_slice())
        }
        FinishStmt::Update { from, to } => {
            push_pattern(heads, numbers, from)?;
            push_binds(heads, numbers, to.as_slice())
        }
        FinishStmt::Delete { keys, .. } => push_binds(heads, numbers, keys.as_slice()),
        FinishStmt::Emit(e) => push_expression(heads, numbers, e),
        FinishStmt::Call(name, arguments) => {
            push_finish_function(heads, numbers, name)?;
            push_expressions(heads, numbers, arguments.as_slice())
        }
    }
}

/// The same of all of these.
pub fn push_finishes(
    heads: &Heads<'_>,
    numbers: &mut Items<usize>,
    all: &[FinishStmt],
) -> Result<(), NoMemory>
    ensures { OnOk result (Gathers numbers.old numbers.new (λ test. list_all (λ s. finish_passes heads.now test s) all.now)) }
{
    for s in all {
        push_finish(heads, numbers, s)?;
    }
    Ok(())
}

/// Adds what the statement calls.
#[cycle(statements)]
fn push_statement(heads: &Heads<'_>, numbers: &mut Items<usize>, s: &Stmt) -> Result<(), NoMemory>
    ensures { OnOk result (Gathers numbers.old numbers.new (λ test. statement_passes heads.now test s.now)) }
{
    match s {
        Stmt::Let(one) => push_expression(heads, numbers, &one.value),
        Stmt::Check(e) => push_expression(heads, numbers, e),
        Stmt::If(x) => {
            push_expression(heads, numbers, &x.head)?;
            push_statements(heads, numbers, x.then.as_slice())?;
            push_else(heads, numbers, x)
        }
        Stmt::Match(e, arms) => {
            push_expression(heads, numbers, e)?;
            push_arms(heads, numbers, arms.as_slice())
        }
        Stmt::Finish(all) => push_finishes(heads, numbers, all.as_slice()),
        Stmt::Map(p, _, body) => {
            push_pattern(heads, numbers, p)?;
            push_statements(heads, numbers, body.as_slice())
        }
        Stmt::Publish(e) => push_expression(heads, numbers, e),
        Stmt::Return(e) => push_expression(heads, numbers, e),
    }
}

/// The same of all of these.
#[cycle(statements)]
pub fn push_statements(
    heads: &Heads<'_>,
    numbers: &mut Items<usize>,
    all: &[Stmt],
) -> Result<(), NoMemory>
    ensures { OnOk result (Gathers numbers.old numbers.new (λ test. list_all (λ s. statement_passes heads.now test s) all.now)) }
{
    for s in all {
        push_statement(heads, numbers, s)?;
    }
    Ok(())
}

/// The same of what follows `else`, if anything.
#[cycle(statements)]
fn push_else(
    heads: &Heads<'_>,
    numbers: &mut Items<usize>,
    x: &IfStmt<Stmt>,
) -> Result<(), NoMemory>
    ensures { OnOk result (Gathers numbers.old numbers.new (λ test. else_statement_passes heads.now test x.now.otherwise)) }
{
    match &x.otherwise {
        None => Ok(()),
        Some(Else::Block(body)) => {
            for s in body.as_slice() {
                push_statement(heads, numbers, s)?;
            }
            Ok(())
        }
        Some(Else::If(other)) => push_statement(heads, numbers, other.get()),
    }
}

#[cycle(statements)]
fn push_arms(
    heads: &Heads<'_>,
    numbers: &mut Items<usize>,
    arms: &[Arm<Stmt>],
) -> Result<(), NoMemory>
    ensures { OnOk result (Gathers numbers.old numbers.new (λ test. list_all (λ a. list_all (λ s. statement_passes heads.now test s) a.body) arms.now)) }
{
    for arm in arms {
        for s in arm.body.as_slice() {
            push_statement(heads, numbers, s)?;
        }
    }
    Ok(())
}
