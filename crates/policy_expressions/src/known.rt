ghost use Rattle.std.specs.Prelude.{◌≡◌, ◌<◌, ◌^◌, length, map, option_map, IfOk, IfSome, IsTrue};
ghost use Rattle.std.specs.Option.{option_copied};
ghost use Rattle.policy_expressions.specs.Policies.{AreItems, names_at};
ghost use Rattle.policy_rules.specs.FieldLists.{are_distinct};
ghost use Rattle.policy_rules.specs.Heads.{enum_named, fact_named, struct_named};
ghost use Rattle.policy_rules.specs.Names.{item_named, number_named};
ghost use Rattle.policy_heads.specs.Views.{fact_view};
ghost use Rattle.policy_rules.specs.Scopes.{names_in};
ghost use Rattle.policy_rules.specs.WellTyped.{items_of};

use base_bytes::NoMemory;
use policy_ast::{Item, Name};
use policy_heads::{FactHead, Heads};
use policy_rules::Named;
use policy_types::Checked;
use std::alloc::Global;
use std::marker::Model;

/// The items of a well-typed policy, each to be found by its name. Contracts see it as the list of the items. It is made once, and no look-up takes
/// memory.
#[derive(Drop)]
pub struct Known<'a> {
    heads: Heads<'a>,
}

impl<'a> Model for Known<'a> {
    ghost use Rattle.std.specs.Prelude.{List};
    ghost use Rattle.std.specs.Coded.{coded_list};
    ghost use Rattle.policy_ast.specs.declared.item.Item.{Item};
    ghost use Rattle.policy_ast.specs.contracts.item.Item as item_contract;
    ghost use Rattle.policy_expressions.specs.Policies.{AreItems};

    ghost Value = { List Item };

    ghost coded = { coded_list item_contract.the_row.coded };

    ghost view = { λ k. k.heads };

    ghost invariant = { λ k. AreItems k.heads };
}

impl<'a> Known<'a> {
    /// The items of the policy.
    pub fn new(alloc: Global, checked: &'a Checked) -> Result<Known<'a>, NoMemory>
        ensures { IfOk result (λ known. known ≡ items_of checked.now) }
    {
        let policy = checked.policy();
        let _items = policy.items();
        let heads = Heads::new(alloc, policy)?;
        Ok(Known { heads })
    }

    /// The table of the items, with more look-ups.
    pub fn heads(&self) -> &Heads<'a>
        ensures heads { result.now ≡ self.now }
        ensures items { AreItems self.now }
    {
        &self.heads
    }

    /// The number of the item that a name means, counted from 0.
    pub fn number_named(&self, name: &Name) -> Option<u32>
        ensures number { result ≡ number_named self.now name.now }
        ensures within { IfSome result (λ number. number < length self.now) }
    {
        match self.heads.number_named(name) {
            Some(number) => Some(number as u32),
            None => None,
        }
    }

    /// The variants of the enum that a name means. They are distinct, and an ordinal has 16 bits.
    pub fn variants_named(&self, name: &Name) -> Option<&'a [Name]>
        ensures variants { option_copied result ≡ enum_named self.now name.now }
        ensures few { IfSome result (λ variants. length variants.now < 2 ^ 16) }
        ensures distinct { IfSome result (λ variants. IsTrue (are_distinct variants.now)) }
    {
        self.heads.enum_named(name)
    }

    /// The fields of the struct that a name means. Their names are distinct.
    pub(crate) fn struct_named(&self, name: &Name) -> Option<&[Named]>
        ensures fields { option_copied result ≡ struct_named self.now name.now }
        ensures distinct { IfSome result (λ fields. IsTrue (are_distinct (names_in fields.now))) }
    {
        self.heads.struct_named(name)
    }

    /// What is known of the fact that a name means. Its values have distinct names.
    pub(crate) fn fact_named(&self, name: &Name) -> Option<FactHead<'_>>
        ensures fact { option_map fact_view result ≡ fact_named self.now name.now }
        ensures distinct { IfSome result (λ head. IsTrue (are_distinct (names_in head.values.now))) }
    {
        self.heads.fact_named(name)
    }

    /// The fields of the item of this number, where it is a struct type.
    pub(crate) fn fields_at(&self, number: u32) -> &[Named]
        ensures { map (λ f. f.name) result.now ≡ names_at self.now number }
    {
        let number = number as usize;
        if number < self.heads.len() {
            match self.heads.struct_at(number) {
                Some(fields) => fields,
                None => &[],
            }
        } else {
            &[]
        }
    }

    /// The item that a name means.
    pub fn item_named(&self, name: &Name) -> Option<&'a Item>
        ensures { option_copied result ≡ item_named self.now name.now }
    {
        self.heads.item_named(name)
    }
}
