ghost use Rattle.std.specs.Prelude.{◌≡◌, ◌++◌, map, false, unwrap_or, option_map, IfOk, OnOk, ℕ, List};
ghost use Rattle.std.specs.Option.{option_copied};
ghost use Rattle.policy_rules.specs.Heads.{fact_head, finish_parameters, function_head, variants, written_fields};
ghost use Rattle.policy_rules.specs.Names.{is_among};
ghost use Rattle.policy_rules.specs.Types.{declared};
ghost use Rattle.policy_heads.specs.Views.{fact_view, function_view};
ghost use Rattle.policy_heads.specs.working.Kept.{form_type, kept_fields, kept_type, kept_variants};

use crate::fields::{command_fields, push_effect_fields, push_fields};
use crate::names::NameSet;
use crate::types::{copy_type, written_type};
use base_bytes::NoMemory;
use policy_ast::{Item, Literal, Name};
use policy_rules::{Named, NamedType};
use sqlite_items::Items;
use std::alloc::Global;
use std::marker::Model;

/// What is known of a fact: its mark, its keys and its values.
#[derive(Clone, Copy)]
pub struct FactHead<'a> {
    pub is_immutable: bool,
    pub keys: &'a [Named],
    pub values: &'a [Named],
}

/// What is known of a function: its parameters and the type of its result.
#[derive(Clone, Copy)]
pub struct FunctionHead<'a> {
    pub parameters: &'a [Named],
    pub result: &'a NamedType,
}

/// An item, with its fields, its type and its variants as they are asked for. Contracts see it as the item.
#[derive(Drop)]
pub struct Head<'a> {
    item: &'a Item,
    fields: Items<Named>,
    ty: NamedType,
    variants: NameSet<'a>,
}

impl<'a> Model for Head<'a> {
    ghost use Rattle.std.specs.Prelude.{◌≡◌};
    ghost use Rattle.policy_ast.specs.declared.item.Item.{Item};
    ghost use Rattle.policy_ast.specs.contracts.item.Item as item_contract;
    ghost use Rattle.policy_heads.specs.working.Kept.{IsKept};

    ghost Value = { Item };

    ghost coded = { item_contract.the_row.coded };

    ghost view = { λ h. h.item.now };

    ghost invariant = { λ h. IsKept h.item.now h.fields h.ty h.variants };
}

/// The fields of a struct type, a fact's keys and then its values, or the parameters of what has a body.
fn kept_fields(alloc: Global, item: &Item) -> Result<Items<Named>, NoMemory>
    ensures { IfOk result (λ fields. fields ≡ kept_fields item.now) }
{
    let mut fields = Items::new(alloc);
    match item {
        Item::Struct(_, own) => push_fields(alloc, &mut fields, own.as_slice())?,
        Item::Effect(_, own) => push_effect_fields(alloc, &mut fields, own.as_slice())?,
        Item::Fact { keys, values, .. } => {
            push_fields(alloc, &mut fields, keys.as_slice())?;
            push_fields(alloc, &mut fields, values.as_slice())?;
        }
        Item::Command(_, sections) => {
            push_fields(alloc, &mut fields, command_fields(sections.as_slice()))?;
        }
        Item::Function { parameters, .. } => {
            push_fields(alloc, &mut fields, parameters.as_slice())?;
        }
        Item::FinishFunction { parameters, .. } => {
            push_fields(alloc, &mut fields, parameters.as_slice())?;
        }
        Item::Action { parameters, .. } => {
            push_fields(alloc, &mut fields, parameters.as_slice())?;
        }
        _ => {}
    }
    Ok(fields)
}

/// The type of a literal by its form alone.
pub fn form_type(alloc: Global, literal: &Literal) -> Result<NamedType, NoMemory>
    ensures { IfOk result (λ t. t ≡ form_type literal.now) }
{
    match literal {
        Literal::Number(_) => Ok(NamedType::Int),
        Literal::Text(_) => Ok(NamedType::Str),
        Literal::True | Literal::False => Ok(NamedType::Bool),
        Literal::Variant(name, _) => Ok(NamedType::Enum(name.copy(alloc)?)),
    }
}

/// The type of a function's result, or that of the literal of a `let` by its form.
fn kept_type(alloc: Global, item: &Item) -> Result<NamedType, NoMemory>
    ensures { IfOk result (λ t. t ≡ kept_type item.now) }
{
    match item {
        Item::Let(_, literal) => form_type(alloc, literal),
        Item::Function { result, .. } => written_type(alloc, result),
        _ => Ok(NamedType::Never),
    }
}

/// The variants of an enum.
fn kept_variants<'a>(alloc: Global, item: &'a Item) -> Result<NameSet<'a>, NoMemory>
    ensures { IfOk result (λ set. (q : List ℕ) → is_among q set ≡ is_among q (kept_variants item.now)) }
{
    match item {
        Item::Enum(_, variants) => NameSet::from_slice(alloc, variants.as_slice()),
        _ => Ok(NameSet::new(alloc)),
    }
}

impl<'a> Head<'a> {
    pub fn new(alloc: Global, item: &'a Item) -> Result<Head<'a>, NoMemory>
        ensures { IfOk result (λ head. head ≡ item.now) }
    {
        let fields = kept_fields(alloc, item)?;
        let ty = kept_type(alloc, item)?;
        let variants = kept_variants(alloc, item)?;
        Ok(Head {
            item,
            fields,
            ty,
            variants,
        })
    }

    pub fn item(&self) -> &'a Item
        ensures { result.now ≡ self.now }
    {
        self.item
    }

    pub fn fields(&self) -> &[Named]
        ensures { result.now ≡ kept_fields self.now }
    {
        self.fields.as_slice()
    }

    pub fn ty(&self) -> &NamedType
        ensures { result.now ≡ kept_type self.now }
    {
        &self.ty
    }

    pub fn struct_fields(&self) -> Option<&[Named]>
        ensures { option_copied result ≡ option_map declared (written_fields self.now) }
    {
        match self.item {
            Item::Struct(_, _) | Item::Effect(_, _) | Item::Fact { .. } | Item::Command(_, _) =>
                Some(self.fields()),
            _ => None,
        }
    }

    pub fn variants(&self) -> Option<&'a [Name]>
        ensures { option_copied result ≡ variants self.now }
    {
        match self.item {
            Item::Enum(_, variants) => Some(variants.as_slice()),
            _ => None,
        }
    }

    pub fn is_variant(&self, name: &Name) -> bool
        ensures { result ≡ unwrap_or (option_map (is_among name.now) (variants self.now)) false }
    {
        self.variants.contains(name)
    }

    pub fn fact(&self) -> Option<FactHead<'_>>
        ensures { option_map fact_view result ≡ fact_head self.now }
    {
        match self.item {
            Item::Fact {
                is_immutable,
                keys,
                ..
            } => {
                let (keys, values) = self.fields().split_at(keys.as_slice().len());
                Some(FactHead {
                    is_immutable: *is_immutable,
                    keys,
                    values,
                })
            }
            _ => None,
        }
    }

    pub fn function(&self) -> Option<FunctionHead<'_>>
        ensures { option_map function_view result ≡ function_head self.now }
    {
        match self.item {
            Item::Function { .. } => Some(FunctionHead {
                parameters: self.fields(),
                result: self.ty(),
            }),
            _ => None,
        }
    }

    pub fn finish_parameters(&self) -> Option<&[Named]>
        ensures { option_copied result ≡ finish_parameters self.now }
    {
        match self.item {
            Item::FinishFunction { .. } => Some(self.fields()),
            _ => None,
        }
    }
}
