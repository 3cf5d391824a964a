//! The types of expressions. A block of an `if` puts its names behind the scope, and they are taken off behind it.

ghost use Rattle.std.specs.Prelude.{length};
ghost use Rattle.policy_rules.specs.Expressions.{value_part};
ghost use Rattle.policy_infer.specs.working.Answers.{Infers, InfersEach, InfersWithin};
ghost use Rattle.policy_infer.specs.working.Types.{bind_types, block_of, gap_types_of, otherwise_of, type_of, types_of};

use crate::foreign::foreign_call_type;
use crate::forms::{
    Typed, calculation_of, choice_of, compare_of, literal_type, logic_of, name_type, none_type,
    presence_of, some_of, this_type, unary_of,
};
use crate::scope::Scope;
use crate::uses::{
    AllTyped, GapsTyped, call_of, count_type, counted, field_of, introduce, pattern_type,
    query_type, struct_literal_of, with_gap_type, with_type,
};
use policy_ast::{Bind, ElseExpr, Expr, IfExpr, Pattern};
use policy_heads::Heads;
use policy_rules::{Context, NamedType};
use sqlite_items::Items;
use std::alloc::Global;

/// The type of an expression.
#[cycle(infer)]
pub fn infer(
    alloc: Global,
    heads: &Heads<'_>,
    context: &Context,
    scope: &mut Scope,
    e: &Expr,
) -> Typed
    ensures { Infers result (type_of heads.now context.now e.now) scope.old scope.new }
{
    match e {
        Expr::Or(a, b) => {
            let first = infer(alloc, heads, context, scope, a.get());
            logic_of(first, infer(alloc, heads, context, scope, b.get()))
        }
        Expr::And(a, b) => {
            let first = infer(alloc, heads, context, scope, a.get());
            logic_of(first, infer(alloc, heads, context, scope, b.get()))
        }
        Expr::Compare(a, op, b) => {
            let first = infer(alloc, heads, context, scope, a.get());
            compare_of(*op, first, infer(alloc, heads, context, scope, b.get()))
        }
        Expr::Is(a, _) => presence_of(infer(alloc, heads, context, scope, a.get())),
        Expr::Unary(op, a) => unary_of(*op, infer(alloc, heads, context, scope, a.get())),
        Expr::Field(a, name) => {
            let found = infer(alloc, heads, context, scope, a.get());
            field_of(alloc, heads, name, found)
        }
        Expr::Literal(literal) => literal_type(alloc, heads, literal),
        Expr::None => none_type(alloc),
        Expr::Some(a) => some_of(alloc, infer(alloc, heads, context, scope, a.get())),
        Expr::This => this_type(alloc, context),
        Expr::Name(name) => name_type(alloc, heads, context, scope, name),
        Expr::ForeignCall(of, called, arguments) => {
            foreign_call_type(context, of, called, arguments.as_slice())
        }
        Expr::Call(called, arguments) => {
            let found = infer_all(alloc, heads, context, scope, arguments.as_slice());
            call_of(alloc, heads, called, found)
        }
        Expr::Struct(name, binds) => {
            let binds = binds.as_slice();
            let found = infer_binds(alloc, heads, context, scope, binds);
            struct_literal_of(alloc, heads, name, binds, found)
        }
        Expr::Arithmetic(op, a, b) => {
            let first = infer(alloc, heads, context, scope, a.get());
            calculation_of(
                alloc,
                *op,
                first,
                infer(alloc, heads, context, scope, b.get()),
            )
        }
        Expr::Query(p) => {
            let keys = pattern_keys(alloc, heads, context, scope, p);
            let values = pattern_values(alloc, heads, context, scope, p);
            pattern_type(alloc, heads, p, keys, values, query_type(alloc, &p.fact))
        }
        Expr::Exists(p) => {
            let keys = pattern_keys(alloc, heads, context, scope, p);
            let values = pattern_values(alloc, heads, context, scope, p);
            pattern_type(alloc, heads, p, keys, values, Ok(NamedType::Bool))
        }
        Expr::Count(op, n, p) => {
            let keys = pattern_keys(alloc, heads, context, scope, p);
            let values = pattern_values(alloc, heads, context, scope, p);
            counted(
                n,
                pattern_type(alloc, heads, p, keys, values, Ok(count_type(*op))),
            )
        }
        Expr::If(x) => {
            let x = x.get();
            let head = infer(alloc, heads, context, scope, &x.head);
            let outside = scope.len();
            let first = infer_then(alloc, heads, context, scope, x);
            scope.truncate(outside);
            let second = infer_otherwise(alloc, heads, context, scope, x);
            scope.truncate(outside);
            choice_of(head, first, second)
        }
    }
}

/// The types of a list of expressions.
#[cycle(infer)]
pub fn infer_all(
    alloc: Global,
    heads: &Heads<'_>,
    context: &Context,
    scope: &mut Scope,
    es: &[Expr],
) -> AllTyped
    ensures { InfersEach result (types_of heads.now context.now es.now) scope.old scope.new (length es.now) }
{
    let mut types = Items::new(alloc);
    for e in es {
        types = with_type(types, infer(alloc, heads, context, scope, e))?;
    }
    Ok(types)
}

/// The types of the expressions that are bound.
#[cycle(infer)]
pub fn infer_binds(
    alloc: Global,
    heads: &Heads<'_>,
    context: &Context,
    scope: &mut Scope,
    binds: &[Bind<Expr>],
) -> AllTyped
    ensures { InfersEach result (bind_types heads.now context.now binds.now) scope.old scope.new (length binds.now) }
{
    let mut types = Items::new(alloc);
    for bind in binds {
        types = with_type(types, infer(alloc, heads, context, scope, &bind.value))?;
    }
    Ok(types)
}

/// The types of what a pattern gives for keys.
#[cycle(infer)]
pub fn pattern_keys(
    alloc: Global,
    heads: &Heads<'_>,
    context: &Context,
    scope: &mut Scope,
    p: &Pattern<Expr>,
) -> GapsTyped
    ensures { InfersEach result (gap_types_of heads.now context.now p.now.keys) scope.old scope.new (length p.now.keys) }
{
    let mut types = Items::new(alloc);
    for field in p.keys.as_slice() {
        let Some(e) = &field.value else {
            types.push(None)?;
            continue;
        };
        types = with_gap_type(types, infer(alloc, heads, context, scope, e))?;
    }
    Ok(types)
}

/// The types of what a pattern gives for values.
#[cycle(infer)]
pub fn pattern_values(
    alloc: Global,
    heads: &Heads<'_>,
    context: &Context,
    scope: &mut Scope,
    p: &Pattern<Expr>,
) -> GapsTyped
    ensures { InfersEach result (gap_types_of heads.now context.now (value_part p.now.values)) scope.old scope.new (length (value_part p.now.values)) }
{
    let mut types = Items::new(alloc);
    let Some(fields) = &p.values else {
        return Ok(types);
    };
    for field in fields.as_slice() {
        let Some(e) = &field.value else {
            types.push(None)?;
            continue;
        };
        types = with_gap_type(types, infer(alloc, heads, context, scope, e))?;
    }
    Ok(types)
}

/// The type of the block behind the head of an `if`.
#[cycle(infer)]
fn infer_then(
    alloc: Global,
    heads: &Heads<'_>,
    context: &Context,
    scope: &mut Scope,
    x: &IfExpr<Expr>,
) -> Typed
    ensures { InfersWithin result (block_of heads.now context.now x.now.then) scope.old scope.new }
{
    for one in x.then.lets.as_slice() {
        let found = infer(alloc, heads, context, scope, &one.value);
        introduce(alloc, heads, context, scope, &one.name, found)?;
    }
    infer(alloc, heads, context, scope, &x.then.value)
}

/// The type of what follows `else`.
#[cycle(infer)]
fn infer_otherwise(
    alloc: Global,
    heads: &Heads<'_>,
    context: &Context,
    scope: &mut Scope,
    x: &IfExpr<Expr>,
) -> Typed
    ensures { InfersWithin result (otherwise_of heads.now context.now x.now.otherwise) scope.old scope.new }
{
    let b = match &x.otherwise {
        ElseExpr::If(e) => return infer(alloc, heads, context, scope, e),
        ElseExpr::Block(b) => b,
    };
    for one in b.lets.as_slice() {
        let found = infer(alloc, heads, context, scope, &one.value);
        introduce(alloc, heads, context, scope, &one.name, found)?;
    }
    infer(alloc, heads, context, scope, &b.value)
}
