//! Calls of functions.

ghost use Rattle.std.specs.Prelude.{◌≡◌, option_map};
ghost use Rattle.policy_expressions.specs.Answers.{Gives};
ghost use Rattle.policy_meaning.specs.Functions.{called};
ghost use Rattle.policy_rules.specs.Names.{item_named};
ghost use Rattle.policy_eval.specs.working.Callees.{callee_parts, parts_of, parts_named};

use crate::flow::returned;
use crate::statements::run_all;
use base_bytes::{Value, Values};
use fact_store::FactBase;
use policy_ast::{Field, Item, Name, Stmt};
use policy_expressions::{Answer, Env, Known, Setting, Stop, take_turn};
use std::alloc::Global;

/// A function that is called: its parameters and its body.
#[derive(Clone, Copy)]
struct Callee<'a> {
    parameters: &'a [Field],
    body: &'a [Stmt],
}

/// The item as a function.
fn parts_of<'a>(item: &'a Item) -> Option<Callee<'a>>
    ensures { option_map callee_parts result ≡ parts_of item.now }
{
    match item {
        Item::Function {
            parameters,
            body,
            ..
        } => Some(Callee {
            parameters: parameters.as_slice(),
            body: body.as_slice(),
        }),
        _ => None,
    }
}

/// The function of this name.
fn parts_named<'a>(known: &Known<'a>, name: &Name) -> Option<Callee<'a>>
    ensures { option_map callee_parts result ≡ parts_named known.now name.now }
{
    match known.item_named(name) {
        Some(item) => parts_of(item),
        None => None,
    }
}

/// The value of a call of a function with these arguments, where calls stand in chains of at most `depth`. The arguments have had their values; a turn
/// is taken as its body begins.
#[cycle(value_of)]
pub fn called<'a, F: FactBase>(
    alloc: Global,
    known: &Known<'a>,
    facts: &F,
    depth: u32,
    turns: &mut u32,
    name: &Name,
    values: Values,
) -> Answer<Value>
    ensures { Gives result turns.new (called known.now (F.rows facts.now) depth name.now values turns.old) }
{
    if depth == 0 {
        return Err(Stop::Stuck);
    }
    let Some(callee) = parts_named(known, name) else {
        return Err(Stop::Stuck);
    };
    take_turn(turns)?;
    let mut env = Env::of_parameters(alloc, callee.parameters, values)?;
    let setting = Setting::none();
    let body = callee.body;
    let flow = run_all(
        alloc,
        known,
        facts,
        &setting,
        depth - 1,
        &mut env,
        turns,
        body,
    );
    returned(flow)
}
