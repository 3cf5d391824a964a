//! Which expressions may stand inside `finish`.

ghost use Rattle.std.specs.Prelude.{◌≡◌, map};
ghost use Rattle.policy_rules.specs.Finish.{are_plain, are_plain_or_gaps, is_plain, is_plain_or_gap};

use policy_ast::{Bind, Expr, Free};

/// Whether an expression has only literals, names, `this`, fields, struct literals, `Some` and `None`.
#[cycle(plain)]
pub fn is_plain(e: &Expr) -> bool
    ensures { result ≡ is_plain e.now }
{
    match e {
        Expr::Literal(_) | Expr::Name(_) | Expr::This | Expr::None => true,
        Expr::Field(a, _) => is_plain(a.get()),
        Expr::Some(a) => is_plain(a.get()),
        Expr::Struct(_, binds) => are_plain_binds(binds.as_slice()),
        Expr::Or(_, _)
        | Expr::And(_, _)
        | Expr::Compare(_, _, _)
        | Expr::Is(_, _)
        | Expr::Unary(_, _)
        | Expr::ForeignCall(_, _, _)
        | Expr::Call(_, _)
        | Expr::Arithmetic(_, _, _)
        | Expr::Query(_)
        | Expr::Exists(_)
        | Expr::Count(_, _, _)
        | Expr::If(_) => false,
    }
}

/// Whether all of the expressions that are bound may.
#[cycle(plain)]
pub fn are_plain_binds(binds: &[Bind<Expr>]) -> bool
    ensures { result ≡ are_plain (map (λ b. b.value) binds.now) }
{
    for bind in binds {
        if !is_plain(&bind.value) {
            return false;
        }
    }
    true
}

/// Whether all of these may.
pub fn are_plain(es: &[Expr]) -> bool
    ensures { result ≡ are_plain es.now }
{
    for e in es {
        if !is_plain(e) {
            return false;
        }
    }
    true
}

/// A `?`, or an expression that may.
fn is_plain_or_gap(gap: &Option<Expr>) -> bool
    ensures { result ≡ is_plain_or_gap gap.now }
{
    match gap {
        Some(e) => is_plain(e),
        None => true,
    }
}

/// Whether all expressions of a part of a pattern may.
pub fn are_plain_fields(fields: &[Free<Expr>]) -> bool
    ensures { result ≡ are_plain_or_gaps fields.now }
{
    for field in fields {
        if !is_plain_or_gap(&field.value) {
            return false;
        }
    }
    true
}
