ghost use Rattle.std.specs.Prelude.{ℕ, List};
ghost use Rattle.base_bytes.specs.declared.value.Value.{Value};
ghost use Rattle.fact_store.specs.declared.row.Row.{Row};
ghost use Rattle.policy_ast.specs.declared.policy.PlacedItem.{PlacedItem};
ghost use Rattle.policy_meaning.specs.Typed.{AreTyped, IsActionOf, IsCommandOf};
ghost use Rattle.policy_meaning.specs.declared.call.Call.{Call};
ghost use Rattle.policy_rules.specs.WellTyped.{IsWellTyped};
ghost use Rattle.policy_types.specs.Fitting.{IsId};
ghost use Rattle.policy_types.specs.NeverStuck.{ActionsGoWell, BlocksEndWell, ExpressionsGive, FinishLists, FunctionsGive, PatternsAsk};
ghost use Rattle.policy_types.specs.Ranks.{HasRanks};
ghost use Rattle.policy_types.specs.Resolved.{ResolvesTyped};

/// An expression of a well-typed policy gives a value of its type, or a check fails, or there is a fault. A pattern asks for rows of its fact by key
/// values, or ends so.
pub fn expressions_are_never_stuck()
    ensures expressions { (policy : List PlacedItem) → IsWellTyped policy → ExpressionsGive policy }
    ensures patterns { (policy : List PlacedItem) → IsWellTyped policy → PatternsAsk policy }
{}

/// A call of a function of a well-typed policy gives a value of the declared type, or a check fails, or there is a fault.
pub fn functions_are_never_stuck()
    ensures { (policy : List PlacedItem) → IsWellTyped policy → FunctionsGive policy }
{}

/// A `finish` block of a well-typed policy lists typed writes and effects, or a check fails, or there is a fault.
pub fn finish_is_never_stuck()
    ensures { (policy : List PlacedItem) → IsWellTyped policy → FinishLists policy }
{}

/// The blocks of a command of a well-typed policy pass, with typed facts and effects, or a check fails, or there is a fault. So the command passes, is
/// recalled or is void.
pub fn blocks_are_never_stuck()
    ensures { (policy : List PlacedItem) (call : Call) (rows : List Row) → IsWellTyped policy → IsCommandOf policy call.command call.fields → IsId call.author → IsId call.id → AreTyped policy rows
        → BlocksEndWell policy call rows }
{}

/// An action of a well-typed policy is done, or it stops for a failed check, a fault or a refusal, or it publishes a command next; what it publishes
/// are commands of the policy with fields of the declared types.
pub fn actions_are_never_stuck()
    ensures { (policy : List PlacedItem) (action : ℕ) (arguments : List Value) (device : List ℕ) (rows : List Row) → IsWellTyped policy → IsActionOf policy action arguments → IsId device
        → AreTyped policy rows → ActionsGoWell policy action arguments device rows }
{}

/// What an argument resolves to at a type of a well-typed policy is of that type.
pub fn resolved_arguments_are_typed()
    ensures { (policy : List PlacedItem) → IsWellTyped policy → ResolvesTyped policy }
{}

/// In a well-typed policy a function calls only what is of a smaller rank than its own, so none reaches itself.
pub fn functions_have_ranks()
    ensures { (policy : List PlacedItem) → IsWellTyped policy → HasRanks policy }
{}
