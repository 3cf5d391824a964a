//! What statements come to, and what each small step of them makes of the value that it has.

ghost use Rattle.std.specs.Prelude.{◌≡◌, ◌≤◌, ℕ, List, IfOk, length};
ghost use Rattle.base_bytes.specs.declared.value.Value.{Value};
ghost use Rattle.policy_ast.specs.declared.finish.FinishStmt.{FinishStmt};
ghost use Rattle.policy_expressions.specs.Answers.{Gives, Keeps};
ghost use Rattle.policy_meaning.specs.Arms.{first_body};
ghost use Rattle.policy_meaning.specs.Environments.{Env};
ghost use Rattle.policy_meaning.specs.Finish.{Listing};
ghost use Rattle.policy_meaning.specs.Functions.{no_listing};
ghost use Rattle.policy_meaning.specs.Outcomes.{Out, or_stuck};
ghost use Rattle.policy_meaning.specs.Statements.{Ran, Run, within};
ghost use Rattle.policy_eval.specs.working.ActionRooms.{arms_room, deeds_room};
ghost use Rattle.policy_eval.specs.working.Endings.{Comes, GivesBody, Runs, goes_on};
ghost use Rattle.policy_eval.specs.working.Rooms.{IsAmongArms};
ghost use Rattle.policy_eval.specs.working.Steps.{body_of, checked_of, let_of, return_of, value_returned};

use base_bytes::Value;
use policy_ast::{Arm, FinishStmt, Name, Stmt};
use policy_expressions::{Answer, Env, Known, Stop, check_of, first_body, let_in};

/// What statements come to.
#[derive(Drop)]
pub enum Flow<'a> {
    /// The next statement runs.
    Goes,
    /// A value is returned.
    Returns(Value),
    /// They have come to a `finish`, whose statements are still to be listed, with the names in scope as they are now.
    Reached(&'a [FinishStmt]),
}

/// Whether the next statement runs.
pub fn goes(flow: &Answer<Flow<'_>>) -> bool
    ensures { result ≡ goes_on flow.now }
{
    matches!(flow, Ok(Flow::Goes))
}

/// `let`: one more name in scope. Whatever the answer, the names that were there are still the first.
pub fn let_flow<'a>(env: &mut Env<'a>, name: &'a Name, found: Answer<Value>) -> Answer<Flow<'a>>
    ensures comes { (lists : List FinishStmt → Listing) (turns : ℕ) (out : Out Value) → Gives found turns out → Comes result lists env.new turns (let_of name.now env.old out) }
    ensures kept { Keeps env.old env.new }
{
    let_in(env, name, found)?;
    Ok(Flow::Goes)
}

/// `check`: goes on where the value is true.
pub fn check_flow<'a>(found: Answer<Value>) -> Answer<Flow<'a>>
    ensures { (lists : List FinishStmt → Listing) (env : Env) (turns : ℕ) (out : Out Value) → Gives found turns out → Comes result lists env turns (checked_of env out) }
{
    check_of(found)?;
    Ok(Flow::Goes)
}

/// `return`
pub fn return_flow<'a>(found: Answer<Value>) -> Answer<Flow<'a>>
    ensures { (lists : List FinishStmt → Listing) (env behind : Env) (turns : ℕ) (out : Out Value) → Gives found turns out → Comes result lists env turns (return_of behind out) }
{
    let value = found?;
    Ok(Flow::Returns(value))
}

/// The value that the statements of a function return. No `finish` stands in them.
pub fn returned(flow: Answer<Flow<'_>>) -> Answer<Value>
    ensures { (env : Env) (turns : ℕ) (out : Out Ran) → Comes flow.entry no_listing env turns out → Gives result turns (value_returned out) }
{
    match flow? {
        Flow::Returns(value) => Ok(value),
        _ => Err(Stop::Stuck),
    }
}

/// A block ends: where the statements behind it go on, the names behind the first `outside` are forgotten.
pub fn block_end<'a>(env: &mut Env<'a>, outside: usize, flow: Answer<Flow<'a>>) -> Answer<Flow<'a>>
    ensures { (does : (List FinishStmt → Listing) → Run) (before : Env) (turns left : ℕ) → outside ≡ length before → Runs flow.entry does before env.old turns left
        → Runs result (λ lists. within (does lists)) before env.new turns left }
{
    if !goes(&flow) {
        return flow;
    }
    env.truncate(outside);
    flow
}

/// The body of the first arm that takes a value.
fn body_taking<'a>(known: &Known<'_>, arms: &'a [Arm<Stmt>], value: &Value) -> Answer<&'a [Stmt]>
    ensures gives { (turns : ℕ) → GivesBody result turns (or_stuck (first_body known.now value.now arms.now) turns) }
    ensures among { IfOk result (λ body. IsAmongArms body.now arms.now) }
    ensures within { IfOk result (λ body. deeds_room body.now ≤ arms_room arms.now) }
{
    match first_body(known, value, arms) {
        Some(body) => Ok(body),
        None => Err(Stop::Stuck),
    }
}

/// The body of the first arm that takes the value that was found.
pub fn body_taken<'a>(
    known: &Known<'_>,
    arms: &'a [Arm<Stmt>],
    found: Answer<Value>,
) -> Answer<&'a [Stmt]>
    ensures gives { (turns : ℕ) (out : Out Value) → Gives found turns out → GivesBody result turns (body_of known.now arms.now out) }
    ensures among { IfOk result (λ body. IsAmongArms body.now arms.now) }
    ensures within { IfOk result (λ body. deeds_room body.now ≤ arms_room arms.now) }
{
    let value = found?;
    body_taking(known, arms, &value)
}
