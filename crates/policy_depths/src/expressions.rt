//! The numbers of the functions that expressions call.

ghost use Rattle.std.specs.Prelude.{◌≡◌, ◌&&◌, OnOk};
ghost use Rattle.std.specs.List.{list_all};
ghost use Rattle.policy_rules.specs.Calls.{a_function};
ghost use Rattle.policy_rules.specs.Expressions.{value_part};
ghost use Rattle.policy_depths.specs.working.Gathering.{Gathers, call_passes, called_number, else_passes, expression_passes, gap_passes};

use base_bytes::NoMemory;
use policy_ast::{Bind, ElseExpr, Expr, IfExpr, Item, Name, Pattern};
use policy_heads::Heads;
use sqlite_items::Items;

/// The number of the function that is called by this name.
fn function_number(heads: &Heads<'_>, name: &Name) -> Option<usize>
    ensures { result ≡ called_number heads.now a_function name.now }
{
    match heads.item_named(name) {
        Some(Item::Function { .. }) => heads.number_named(name),
        _ => None,
    }
}

fn push_function(heads: &Heads<'_>, numbers: &mut Items<usize>, name: &Name) -> Result<(), NoMemory>
    ensures { OnOk result (Gathers numbers.old numbers.new (λ test. call_passes heads.now test a_function name.now)) }
{
    if let Some(number) = function_number(heads, name) {
        numbers.push(number)?;
    }
    Ok(())
}

/// Adds what the expression calls.
#[cycle(calls)]
pub fn push_expression(
    heads: &Heads<'_>,
    numbers: &mut Items<usize>,
    e: &Expr,
) -> Result<(), NoMemory>
    ensures { OnOk result (Gathers numbers.old numbers.new (λ test. expression_passes heads.now test e.now)) }
{
    match e {
        Expr::Or(a, b) => {
            push_expression(heads, numbers, a.get())?;
            push_expression(heads, numbers, b.get())
        }
        Expr::And(a, b) => {
            push_expression(heads, numbers, a.get())?;
            push_expression(heads, numbers, b.get())
        }
        Expr::Compare(a, _, b) => {
            push_expression(heads, numbers, a.get())?;
            push_expression(heads, numbers, b.get())
        }
        Expr::Arithmetic(_, a, b) => {
            push_expression(heads, numbers, a.get())?;
            push_expression(heads, numbers, b.get())
        }
        Expr::Is(a, _) => push_expression(heads, numbers, a.get()),
        Expr::Unary(_, a) => push_expression(heads, numbers, a.get()),
        Expr::Field(a, _) => push_expression(heads, numbers, a.get()),
        Expr::Some(a) => push_expression(heads, numbers, a.get()),
        Expr::Literal(_) => Ok(()),
        Expr::None => Ok(()),
        Expr::This => Ok(()),
        Expr::Name(_) => Ok(()),
        Expr::ForeignCall(_, _, arguments) => {
            push_expressions(heads, numbers, arguments.as_slice())
        }
        Expr::Call(name, arguments) => {
            push_function(heads, numbers, name)?;
            push_expressions(heads, numbers, arguments.as_slice())
        }
        Expr::Struct(_, binds) => push_binds(heads, numbers, binds.as_slice()),
        Expr::Query(p) => push_pattern(heads, numbers, p),
        Expr::Exists(p) => push_pattern(heads, numbers, p),
        Expr::Count(_, _, p) => push_pattern(heads, numbers, p),
        Expr::If(x) => {
            let x = x.get();
            push_expression(heads, numbers, &x.head)?;
            push_then(heads, numbers, x)?;
            push_otherwise(heads, numbers, x)
        }
    }
}

#[cycle(calls)]
pub fn push_expressions(
    heads: &Heads<'_>,
    numbers: &mut Items<usize>,
    all: &[Expr],
) -> Result<(), NoMemory>
    ensures { OnOk result (Gathers numbers.old numbers.new (λ test. list_all (λ e. expression_passes heads.now test e) all.now)) }
{
    for e in all {
        push_expression(heads, numbers, e)?;
    }
    Ok(())
}

#[cycle(calls)]
pub fn push_binds(
    heads: &Heads<'_>,
    numbers: &mut Items<usize>,
    binds: &[Bind<Expr>],
) -> Result<(), NoMemory>
    ensures { OnOk result (Gathers numbers.old numbers.new (λ test. list_all (λ b. expression_passes heads.now test b.value) binds.now)) }
{
    for bind in binds {
        push_expression(heads, numbers, &bind.value)?;
    }
    Ok(())
}

#[cycle(calls)]
pub fn push_pattern(
    heads: &Heads<'_>,
    numbers: &mut Items<usize>,
    p: &Pattern<Expr>,
) -> Result<(), NoMemory>
    ensures { OnOk result (Gathers numbers.old numbers.new (λ test. list_all (λ f. gap_passes heads.now test f.value) p.now.keys
        && list_all (λ f. gap_passes heads.now test f.value) (value_part p.now.values))) }
{
    for key in p.keys.as_slice() {
        if let Some(e) = &key.value {
            push_expression(heads, numbers, e)?;
        }
    }
    if let Some(values) = &p.values {
        for value in values.as_slice() {
            if let Some(e) = &value.value {
                push_expression(heads, numbers, e)?;
            }
        }
    }
    Ok(())
}

/// The same of the block behind the head of an `if` expression.
#[cycle(calls)]
fn push_then(
    heads: &Heads<'_>,
    numbers: &mut Items<usize>,
    x: &IfExpr<Expr>,
) -> Result<(), NoMemory>
    ensures { OnOk result (Gathers numbers.old numbers.new (λ test. list_all (λ l. expression_passes heads.now test l.value) x.now.then.lets
        && expression_passes heads.now test x.now.then.value)) }
{
    for one in x.then.lets.as_slice() {
        push_expression(heads, numbers, &one.value)?;
    }
    push_expression(heads, numbers, &x.then.value)
}

/// The same of what follows `else`.
#[cycle(calls)]
fn push_otherwise(
    heads: &Heads<'_>,
    numbers: &mut Items<usize>,
    x: &IfExpr<Expr>,
) -> Result<(), NoMemory>
    ensures { OnOk result (Gathers numbers.old numbers.new (λ test. else_passes heads.now test x.now.otherwise)) }
{
    match &x.otherwise {
        ElseExpr::Block(block) => {
            for one in block.lets.as_slice() {
                push_expression(heads, numbers, &one.value)?;
            }
            push_expression(heads, numbers, &block.value)
        }
        ElseExpr::If(e) => push_expression(heads, numbers, e),
    }
}
