//! What holds of the definitions alone, whoever runs a policy.

ghost use Rattle.std.specs.Prelude.{List};
ghost use Rattle.policy_ast.specs.declared.policy.PlacedItem.{PlacedItem};
ghost use Rattle.policy_meaning.specs.Laws.{CommandsHaveOneCall};

/// A command is the call whose fields its payload spells, and no other; it is none where the policy declares no command of its name, or where its payload
/// spells no values of the fields.
pub fn commands_have_one_call()
    ensures { (policy : List PlacedItem) → CommandsHaveOneCall policy }
{}
