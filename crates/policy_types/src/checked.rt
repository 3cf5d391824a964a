ghost use Rattle.std.specs.Prelude.{◌≡◌};
ghost use Rattle.policy_rules.specs.WellTyped.{IsWellTyped};

use policy_ast::Policy;
use std::marker::Model;

/// A policy that is well typed. Contracts see it as the list of items with their lines, as they see a `Policy`.
#[derive(Drop)]
pub struct Checked {
    policy: Policy,
}

impl Model for Checked {
    ghost use Rattle.std.specs.Prelude.{List};
    ghost use Rattle.std.specs.Coded.{coded_list};
    ghost use Rattle.policy_ast.specs.contracts.policy.PlacedItem as placed_item;
    ghost use Rattle.policy_ast.specs.declared.policy.PlacedItem.{PlacedItem};
    ghost use Rattle.policy_rules.specs.WellTyped.{IsWellTyped};

    ghost Value = { List PlacedItem };

    ghost coded = { coded_list placed_item.the_row.coded };

    ghost view = { λ c. c.policy };

    ghost invariant = { λ c. IsWellTyped c.policy };
}

impl Checked {
    /// The policy, which has to be well typed. Takes no memory.
    pub fn new(policy: Policy) -> Checked
        requires well_typed { IsWellTyped policy }
        ensures { result ≡ policy }
    {
        Checked { policy }
    }

    /// The policy that was checked.
    pub fn policy(&self) -> &Policy
        ensures policy { result.now ≡ self.now }
        ensures well_typed { IsWellTyped self.now }
    {
        &self.policy
    }

    /// The policy that was checked, without what is known of it.
    pub fn into_policy(self) -> Policy
        ensures policy { result ≡ self }
        ensures well_typed { IsWellTyped self }
    {
        self.policy
    }
}
