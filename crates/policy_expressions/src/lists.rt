//! Lists that grow by what an evaluation gives.

ghost use Rattle.std.specs.Prelude.{ℕ};
ghost use Rattle.base_bytes.specs.declared.value.Value.{Value};
ghost use Rattle.policy_meaning.specs.Finish.{Change as Listed};
ghost use Rattle.policy_meaning.specs.Outcomes.{Out};
ghost use Rattle.policy_expressions.specs.Answers.{Gives, Keeps, Leaves};
ghost use Rattle.policy_expressions.specs.Forms.{one_given, one_more, one_named};

use crate::change::{Change, Changes};
use crate::env::Env;
use crate::stop::Answer;
use base_bytes::{Value, Values};
use policy_ast::Name;
use sqlite_items::Items;

/// One more value.
pub fn push_value(values: &mut Values, found: Answer<Value>) -> Answer<()>
    ensures { (turns : ℕ) (out : Out Value) → Gives found turns out → Leaves result values.new turns (one_more values.old out) }
{
    values.push(found?)?;
    Ok(())
}

/// One more value of a pattern.
pub fn push_gap(values: &mut Items<Option<Value>>, found: Answer<Value>) -> Answer<()>
    ensures { (turns : ℕ) (out : Out Value) → Gives found turns out → Leaves result values.new turns (one_given values.old out) }
{
    values.push(Some(found?))?;
    Ok(())
}

/// One more change.
pub fn push_change(changes: &mut Changes, found: Answer<Change>) -> Answer<()>
    ensures { (turns : ℕ) (out : Out Listed) → Gives found turns out → Leaves result changes.new turns (one_more changes.old out) }
{
    changes.push(found?)?;
    Ok(())
}

/// `let`: one more name in scope. Whatever the answer, the names that were there are still the first.
pub fn let_in<'a>(env: &mut Env<'a>, name: &'a Name, found: Answer<Value>) -> Answer<()>
    ensures gives { (turns : ℕ) (out : Out Value) → Gives found turns out → Leaves result env.new turns (one_named env.old name.now out) }
    ensures kept { Keeps env.old env.new }
{
    env.push(name, found?)?;
    Ok(())
}
