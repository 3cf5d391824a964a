//! Tests of what was found: they are passed, or there is a reason why not.

ghost use Rattle.std.specs.Prelude.{◌≡◌, ◌&&◌, Bool, Option};
ghost use Rattle.std.specs.Option.{is_some};
ghost use Rattle.policy_rules.specs.declared.types.NamedType.{NamedType};
ghost use Rattle.policy_rules.specs.Inference.{is_bool, is_int, only_if};
ghost use Rattle.policy_infer.specs.working.Answers.{Allows, Judges};
ghost use Rattle.policy_infer.specs.working.Behind.{is_bool_of};
ghost use Rattle.policy_infer.specs.working.Parts.{is_number_of};

use crate::forms::Typed;
use crate::refusal::Refusal;
use policy_rules::NamedType;

/// That something is well typed, or why it isn't.
pub type Allowed = Result<(), Refusal>;

/// The test is passed.
pub fn allowed(is_passed: bool) -> Allowed
    ensures { Allows result is_passed }
{
    if is_passed {
        Ok(())
    } else {
        Err(Refusal::IllTyped)
    }
}

pub fn both_hold(first: Allowed, second: Allowed) -> Allowed
    ensures { (a b : Bool) → Allows first a → Allows second b → Allows result (a && b) }
{
    first?;
    second
}

/// What was found, where the test is passed.
pub fn only_where(passed: Allowed, found: Typed) -> Typed
    ensures { (b : Bool) (o : Option NamedType) → Allows passed b → Judges found o → Judges result (only_if b o) }
{
    passed?;
    found
}

pub fn is_bool(t: &NamedType) -> bool
    ensures { result ≡ is_bool t.now }
{
    matches!(t, NamedType::Bool)
}

fn is_int(t: &NamedType) -> bool
    ensures { result ≡ is_int t.now }
{
    matches!(t, NamedType::Int)
}

/// What `check` and the head of an `if` take.
pub fn check_of(found: Typed) -> Allowed
    ensures { (o : Option NamedType) → Judges found o → Allows result (is_bool_of o) }
{
    let t = found?;
    allowed(is_bool(&t))
}

/// What the operations on numbers take.
pub fn is_number(found: Typed) -> Allowed
    ensures { (o : Option NamedType) → Judges found o → Allows result (is_number_of o) }
{
    let t = found?;
    allowed(is_int(&t))
}

/// That a type was found.
pub fn is_typed(found: Typed) -> Allowed
    ensures { (o : Option NamedType) → Judges found o → Allows result (is_some o) }
{
    let _t = found?;
    Ok(())
}
