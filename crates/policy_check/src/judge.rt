ghost use Rattle.std.specs.Prelude.{◌≡◌, ◌<◌, ◌&&◌, Some, IfOk, length, slice_get, take};
ghost use Rattle.policy_ast.specs.declared.item.Item.{Item};
ghost use Rattle.policy_rules.specs.Names.{names_of};
ghost use Rattle.policy_rules.specs.WellTyped.{items_of};
ghost use Rattle.policy_rules.specs.ItemJudging.{is_of_kind, item_is};

use crate::commands::is_command;
use crate::functions::{is_action, is_finish_function, is_function};
use base_bytes::NoMemory;
use policy_ast::{Item, Policy};
use policy_depths::{allowed_chains, allowed_nestings};
use policy_heads::Heads;
use policy_items::{are_effect_fields, are_fact_fields, are_fields, are_variants, is_free_name};
use sqlite_items::Items;
use std::alloc::Global;
use std::marker::Model;

/// What items are judged by: the heads of all, and of which of them nothing nests too deep or calls too long a chain. Contracts see
/// it as the list of the items.
#[derive(Drop)]
pub struct Judge<'a> {
    heads: Heads<'a>,
    nestings: Items<bool>,
    chains: Items<bool>,
}

impl<'a> Model for Judge<'a> {
    ghost use Rattle.std.specs.Prelude.{◌≡◌, List, map};
    ghost use Rattle.std.specs.Coded.{coded_list};
    ghost use Rattle.policy_ast.specs.declared.item.Item.{Item};
    ghost use Rattle.policy_ast.specs.contracts.item.Item as item_contract;
    ghost use Rattle.policy_rules.specs.Calls.{may_chain};
    ghost use Rattle.policy_rules.specs.Nesting.{may_nest};

    ghost Value = { List Item };

    ghost coded = { coded_list item_contract.the_row.coded };

    ghost view = { λ j. j.heads };

    ghost invariant = { λ j. (j.nestings ≡ map (may_nest j.heads) j.heads) × (j.chains ≡ map (may_chain j.heads) j.heads) };
}

/// Whether the item of this number is as its kind asks.
fn is_of_kind(
    alloc: Global,
    heads: &Heads<'_>,
    number: usize,
    item: &Item,
) -> Result<bool, NoMemory>
    requires within { number < length heads.now }
    requires there { slice_get heads.now number ≡ Some item.now }
    ensures { IfOk result (λ is. is ≡ is_of_kind heads.now item.now) }
{
    match item {
        Item::Use(_) => Ok(true),
        Item::Let(_, value) => Ok(heads.is_literal(value)),
        Item::Enum(_, variants) => are_variants(alloc, variants.as_slice()),
        Item::Struct(_, fields) => are_fields(alloc, heads, fields.as_slice()),
        Item::Effect(_, fields) => are_effect_fields(alloc, heads, fields.as_slice()),
        Item::Fact { keys, values, .. } => {
            are_fact_fields(alloc, heads, keys.as_slice(), values.as_slice())
        }
        Item::Command(name, sections) => is_command(alloc, heads, name, sections.as_slice()),
        Item::Function {
            parameters,
            result,
            body,
            ..
        } => is_function(
            alloc,
            heads,
            parameters.as_slice(),
            result,
            heads.fields_at(number),
            body.as_slice(),
        ),
        Item::FinishFunction {
            parameters,
            body,
            ..
        } => is_finish_function(
            alloc,
            heads,
            parameters.as_slice(),
            heads.fields_at(number),
            body.as_slice(),
        ),
        Item::Action {
            parameters,
            body,
            ..
        } => is_action(
            alloc,
            heads,
            parameters.as_slice(),
            heads.fields_at(number),
            body.as_slice(),
        ),
    }
}

fn holds(table: &[bool], number: usize) -> bool
    requires { number < length table.now }
    ensures { slice_get table.now number ≡ Some result }
{
    table[number]
}

fn all_hold(is_free: bool, is_of_kind: bool, nests: bool, chains: bool) -> bool
    ensures { result ≡ (is_free && (is_of_kind && (nests && chains))) }
{
    is_free && is_of_kind && nests && chains
}

impl<'a> Judge<'a> {
    pub fn new(alloc: Global, policy: &'a Policy) -> Result<Judge<'a>, NoMemory>
        ensures { IfOk result (λ judge. judge ≡ items_of policy.now) }
    {
        let heads = Heads::new(alloc, policy)?;
        let nestings = allowed_nestings(alloc, &heads)?;
        let chains = allowed_chains(alloc, &heads)?;
        Ok(Judge {
            heads,
            nestings,
            chains,
        })
    }

    /// How many items there are.
    pub fn len(&self) -> usize
        ensures { result ≡ length self.now }
    {
        self.heads.len()
    }

    /// Whether the item of this number is well typed.
    pub fn is_item(&self, alloc: Global, number: usize) -> Result<bool, NoMemory>
        requires { number < length self.now }
        ensures { IfOk result (λ is. (i : Item) → slice_get self.now number ≡ Some i → is ≡ item_is self.now (names_of (take number self.now)) i) }
    {
        let item = self.heads.item_at(number);
        let is_of_kind = is_of_kind(alloc, &self.heads, number, item)?;
        let is_free = is_free_name(&self.heads, number, item);
        let nests = holds(self.nestings.as_slice(), number);
        let chains = holds(self.chains.as_slice(), number);
        Ok(all_hold(is_free, is_of_kind, nests, chains))
    }
}
