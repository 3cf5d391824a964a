//! Lists of statements that end in a return, whichever way they go.

ghost use Rattle.std.specs.Prelude.{◌≡◌, ◌&&◌};
ghost use Rattle.policy_rules.specs.Statements.{always_returns, ends_in_return};
ghost use Rattle.policy_infer.specs.working.Returns.{arms_return};

use policy_ast::{Arm, Else, Stmt};

fn both(a: bool, b: bool) -> bool
    ensures { result ≡ (a && b) }
{
    a && b
}

/// Whether a statement ends in a return.
#[cycle(returning)]
fn always_returns(s: &Stmt) -> bool
    ensures { result ≡ always_returns s.now }
{
    match s {
        Stmt::Return(_) => true,
        Stmt::If(x) => {
            let then = ends_in_return(x.then.as_slice());
            let Some(otherwise) = &x.otherwise else {
                return false;
            };
            match otherwise {
                Else::If(other) => both(then, always_returns(other.get())),
                Else::Block(other) => both(then, ends_in_return(other.as_slice())),
            }
        }
        Stmt::Match(_, arms) => arms_return(arms.as_slice()),
        Stmt::Let(_) | Stmt::Check(_) | Stmt::Finish(_) | Stmt::Map(_, _, _) | Stmt::Publish(_) =>
            false,
    }
}

/// Whether each arm of a `match` does.
#[cycle(returning)]
fn arms_return(arms: &[Arm<Stmt>]) -> bool
    ensures { result ≡ arms_return arms.now }
{
    for arm in arms {
        let body = arm.body.as_slice();
        if body.is_empty() {
            return false;
        }
        if !always_returns(&body[body.len() - 1]) {
            return false;
        }
    }
    true
}

/// Whether a list of statements ends in a return: a `return`, an `if` with `else` whose branches all end so, or a `match` whose arms
/// all do. Takes no memory.
#[cycle(returning)]
pub fn ends_in_return(body: &[Stmt]) -> bool
    ensures { result ≡ ends_in_return body.now }
{
    if body.is_empty() {
        return false;
    }
    always_returns(&body[body.len() - 1])
}
