ghost use Rattle.std.specs.Prelude.{◌≡◌, true, List};
ghost use Rattle.base_bytes.specs.Reaching.{NoneReachesItself};
ghost use Rattle.policy_ast.specs.declared.expr.Expr.{Expr};
ghost use Rattle.policy_ast.specs.declared.item.Item.{Item};
ghost use Rattle.policy_ast.specs.declared.policy.PlacedItem.{PlacedItem};
ghost use Rattle.policy_rules.specs.ExistingTypes.{HasCommand, are_there, is_there};
ghost use Rattle.policy_rules.specs.Expressions.{HasType};
ghost use Rattle.policy_rules.specs.Laws.{AreJudged, HasOneType, HasOneVerdict};
ghost use Rattle.policy_rules.specs.Scopes.{Scope};
ghost use Rattle.policy_rules.specs.Shapes.{shapes_of};
ghost use Rattle.policy_rules.specs.WellTyped.{IsWellTyped, items_of};
ghost use Rattle.policy_rules.specs.declared.context.Context.{Context};
ghost use Rattle.policy_rules.specs.declared.types.NamedType.{NamedType};

/// An expression has at most one type in a scope, and it is the type that is inferred.
pub fn types_are_inferred()
    ensures { (items : List Item) (context : Context) (scope : Scope) (e : Expr) → HasOneType items context scope e }
{}

/// A statement or an item is well typed exactly where it is found so, and the scope behind a statement is the one that is found.
pub fn statements_and_items_are_judged()
    ensures { (items : List Item) → AreJudged items }
{}

/// A policy is well typed, or one line is that of its first item that isn't.
pub fn policies_have_one_verdict()
    ensures { (policy : List PlacedItem) → HasOneVerdict policy }
{}

/// No struct of a well-typed policy reaches itself, so a value of each of its types is finite.
pub fn structs_are_finite()
    ensures { (policy : List PlacedItem) → IsWellTyped policy → NoneReachesItself (shapes_of (items_of policy)) }
{}

/// In a well-typed policy each type of an expression is there: the enums and structs that it names are items of the policy.
pub fn types_exist()
    ensures { (policy : List PlacedItem) (context : Context) (scope : Scope) (e : Expr) (t : NamedType) → IsWellTyped policy → HasCommand (items_of policy) context
        → are_there (items_of policy) scope ≡ true → HasType (items_of policy) context scope e t → is_there (items_of policy) t ≡ true }
{}
