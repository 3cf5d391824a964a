ghost use Rattle.std.specs.Prelude.{◌≡◌, ◌||◌, [], ◌∷◌, map, true, false, not, take, if◌then◌else◌, option_map, option_and_then, Some, None, IfOk, OnOk, IfSome, ◌<◌, ◌^◌, length, slice_get, ℕ, List};
ghost use Rattle.policy_ast.specs.declared.item.Item.{Item};
ghost use Rattle.std.specs.Option.{is_some, option_copied, option_or};
ghost use Rattle.base_bytes.specs.Values.{fits_int, fits_text};
ghost use Rattle.policy_rules.specs.Heads.{enum_named, fact_named, finish_function_named, function_named, is_command, is_effect, let_named, literal_type, names_item, struct_named, type_exists, written_fields};
ghost use Rattle.policy_rules.specs.Types.{declared};
ghost use Rattle.policy_rules.specs.Names.{is_among, is_named, item_named, name_of, names_of, number_named};
ghost use Rattle.policy_rules.specs.Scopes.{let_name, let_names};
ghost use Rattle.policy_rules.specs.WellTyped.{items_of};
ghost use Rattle.policy_heads.specs.Views.{fact_view, function_view, is_variant};
ghost use Rattle.policy_heads.specs.working.Kept.{kept_fields, kept_number};

use crate::head::{FactHead, FunctionHead, Head, form_type};
use crate::names::NameSet;
use base_bytes::{NoMemory, Text};
use policy_ast::{FieldType, Item, Literal, Name, PlacedItem, Policy};
use policy_rules::{Named, NamedType};
use std::alloc::Global;
use std::collections::BTreeMap;
use std::marker::Model;

/// The items of a policy, each to be found by its name, which means the first item of that name. Contracts see it as the list of the
/// items. It is made once, in time that grows as the policy does but for look-ups in maps; no look-up takes memory.
#[derive(Drop)]
pub struct Heads<'a> {
    heads: Vec<Head<'a>>,
    numbers: BTreeMap<&'a [u8], usize>,
    lets: NameSet<'a>,
}

impl<'a> Model for Heads<'a> {
    ghost use Rattle.std.specs.Prelude.{List};
    ghost use Rattle.std.specs.Coded.{coded_list};
    ghost use Rattle.policy_ast.specs.declared.item.Item.{Item};
    ghost use Rattle.policy_ast.specs.contracts.item.Item as item_contract;
    ghost use Rattle.policy_heads.specs.working.Kept.{AreKept};

    ghost Value = { List Item };

    ghost coded = { coded_list item_contract.the_row.coded };

    ghost view = { λ h. h.heads.items };

    ghost invariant = { λ h. AreKept h.heads.items h.numbers h.lets };
}

/// The name of an item; `use` has none.
pub fn name_of(item: &Item) -> Option<&Name>
    ensures { option_copied result ≡ name_of item.now }
{
    match item {
        Item::Use(_) => None,
        Item::Let(name, _) => Some(name),
        Item::Enum(name, _) => Some(name),
        Item::Struct(name, _) => Some(name),
        Item::Effect(name, _) => Some(name),
        Item::Fact { name, .. } => Some(name),
        Item::Command(name, _) => Some(name),
        Item::Function { name, .. } => Some(name),
        Item::FinishFunction { name, .. } => Some(name),
        Item::Action { name, .. } => Some(name),
    }
}

fn heads_of<'a>(alloc: Global, items: &'a [PlacedItem]) -> Result<Vec<Head<'a>>, NoMemory>
    ensures { IfOk result (λ heads. heads.items ≡ items_of items.now) }
{
    let mut heads = Vec::new(alloc);
    for placed in items {
        heads.push(Head::new(alloc, &placed.item)?)?;
    }
    Ok(heads)
}

/// Puts the number of an item under its name, unless an earlier item has that name.
fn put_number<'a>(
    numbers: &mut BTreeMap<&'a [u8], usize>,
    item: &'a Item,
    number: usize,
) -> Result<(), NoMemory>
    ensures { OnOk result ((q : List ℕ) → kept_number numbers.new q ≡ option_or (kept_number numbers.old q) (if is_named q item.now then Some number else None)) }
{
    let Some(name) = name_of(item) else {
        return Ok(());
    };
    let name = name.as_str().as_bytes();
    if !numbers.contains_key(name) {
        numbers.insert(name, number)?;
    }
    Ok(())
}

fn numbers_of<'a>(
    alloc: Global,
    items: &'a [PlacedItem],
) -> Result<BTreeMap<&'a [u8], usize>, NoMemory>
    ensures { IfOk result (λ numbers. (q : List ℕ) → kept_number numbers q ≡ number_named (items_of items.now) q) }
{
    let mut numbers = BTreeMap::new(alloc);
    for number in 0..items.len() {
        put_number(&mut numbers, &items[number].item, number)?;
    }
    Ok(numbers)
}

fn put_let<'a>(lets: &mut NameSet<'a>, item: &'a Item) -> Result<(), NoMemory>
    ensures { OnOk result ((q : List ℕ) → is_among q lets.new ≡ (is_among q lets.old || is_among q (let_names (item.now ∷ [])))) }
{
    if let Item::Let(name, _) = item {
        lets.insert(name)?;
    }
    Ok(())
}

fn lets_of<'a>(alloc: Global, items: &'a [PlacedItem]) -> Result<NameSet<'a>, NoMemory>
    ensures { IfOk result (λ lets. (q : List ℕ) → is_among q lets ≡ is_among q (let_names (items_of items.now))) }
{
    let mut lets = NameSet::new(alloc);
    for placed in items {
        put_let(&mut lets, &placed.item)?;
    }
    Ok(lets)
}

/// Whether a text is short enough for a value.
fn fits_text(text: &Text) -> bool
    ensures { result ≡ fits_text text.now }
{
    text.as_slice().len() < 1 << 32
}

impl<'a> Heads<'a> {
    /// The items of the policy.
    pub fn new(alloc: Global, policy: &'a Policy) -> Result<Heads<'a>, NoMemory>
        ensures { IfOk result (λ heads. heads ≡ items_of policy.now) }
    {
        let items = policy.items();
        let heads = heads_of(alloc, items)?;
        let numbers = numbers_of(alloc, items)?;
        let lets = lets_of(alloc, items)?;
        Ok(Heads {
            heads,
            numbers,
            lets,
        })
    }

    /// How many items there are.
    pub fn len(&self) -> usize
        ensures { result ≡ length self.now }
    {
        self.heads.len()
    }

    /// The number of the item that a name means, counted from 0.
    pub fn number_named(&self, name: &Name) -> Option<usize>
        ensures number { result ≡ number_named self.now name.now }
        ensures within { IfSome result (λ number. number < length self.now) }
    {
        self.numbers.get(name.as_str().as_bytes()).copied()
    }

    fn head_named(&self, name: &Name) -> Option<&Head<'a>>
        ensures { option_copied result ≡ item_named self.now name.now }
    {
        match self.number_named(name) {
            Some(number) => Some(&self.heads[number]),
            None => None,
        }
    }

    /// The item that a name means.
    pub fn item_named(&self, name: &Name) -> Option<&'a Item>
        ensures { option_copied result ≡ item_named self.now name.now }
    {
        match self.head_named(name) {
            Some(head) => Some(head.item()),
            None => None,
        }
    }

    /// The fields of the struct that a name means.
    pub fn struct_named(&self, name: &Name) -> Option<&[Named]>
        ensures { option_copied result ≡ struct_named self.now name.now }
    {
        match self.head_named(name) {
            Some(head) => head.struct_fields(),
            None => None,
        }
    }

    /// The variants of the enum that a name means.
    pub fn enum_named(&self, name: &Name) -> Option<&'a [Name]>
        ensures { option_copied result ≡ enum_named self.now name.now }
    {
        match self.head_named(name) {
            Some(head) => head.variants(),
            None => None,
        }
    }

    /// Whether the enum that a name means has this variant, by a look-up in a set.
    pub fn is_variant(&self, name: &Name, variant: &Name) -> bool
        ensures { result ≡ is_variant self.now name.now variant.now }
    {
        match self.head_named(name) {
            Some(head) => head.is_variant(variant),
            None => false,
        }
    }

    /// What is known of the fact that a name means.
    pub fn fact_named(&self, name: &Name) -> Option<FactHead<'_>>
        ensures { option_map fact_view result ≡ fact_named self.now name.now }
    {
        match self.head_named(name) {
            Some(head) => head.fact(),
            None => None,
        }
    }

    /// What is known of the function that a name means.
    pub fn function_named(&self, name: &Name) -> Option<FunctionHead<'_>>
        ensures { option_map function_view result ≡ function_named self.now name.now }
    {
        match self.head_named(name) {
            Some(head) => head.function(),
            None => None,
        }
    }

    /// The parameters of the finish function that a name means.
    pub fn finish_function_named(&self, name: &Name) -> Option<&[Named]>
        ensures { option_copied result ≡ finish_function_named self.now name.now }
    {
        match self.head_named(name) {
            Some(head) => head.finish_parameters(),
            None => None,
        }
    }

    /// Whether the name means a command.
    pub fn is_command_named(&self, name: &Name) -> bool
        ensures { result ≡ names_item is_command self.now name.now }
    {
        matches!(self.item_named(name), Some(Item::Command(_, _)))
    }

    /// Whether the name means an effect.
    pub fn is_effect_named(&self, name: &Name) -> bool
        ensures { result ≡ names_item is_effect self.now name.now }
    {
        matches!(self.item_named(name), Some(Item::Effect(_, _)))
    }

    /// Whether the literal has a type.
    pub fn is_literal(&self, literal: &Literal) -> bool
        ensures { result ≡ is_some (literal_type self.now literal.now) }
    {
        match literal {
            Literal::Number(number) => {
                let _number = *number;
                true
            }
            Literal::Text(text) => fits_text(text),
            Literal::True | Literal::False => true,
            Literal::Variant(name, variant) => self.is_variant(name, variant),
        }
    }

    /// The type of a literal, and None where it has none.
    pub fn literal_type(
        &self,
        alloc: Global,
        literal: &Literal,
    ) -> Result<Option<NamedType>, NoMemory>
        ensures { IfOk result (λ t. t ≡ literal_type self.now literal.now) }
    {
        if !self.is_literal(literal) {
            return Ok(None);
        }
        Ok(Some(form_type(alloc, literal)?))
    }

    /// The type of the policy's `let` of this name.
    pub fn let_named(&self, name: &Name) -> Option<&NamedType>
        ensures { option_copied result ≡ let_named self.now name.now }
    {
        let Some(head) = self.head_named(name) else {
            return None;
        };
        match head.item() {
            Item::Let(_, literal) if self.is_literal(literal) => Some(head.ty()),
            _ => None,
        }
    }

    /// Whether a `let` item has this name, be it the first item of the name or not.
    pub fn is_let_name(&self, name: &Name) -> bool
        ensures { result ≡ is_among name.now (let_names self.now) }
    {
        self.lets.contains(name)
    }

    /// Whether each enum and each struct that a written type names is there.
    pub fn type_exists(&self, written: &FieldType) -> bool
        ensures { result ≡ type_exists self.now written.now }
    {
        match written {
            FieldType::Enum(name) => self.enum_named(name).is_some(),
            FieldType::Struct(name) => self.struct_named(name).is_some(),
            FieldType::Optional(inner) => self.type_exists(inner.get()),
            FieldType::Int | FieldType::Bool | FieldType::Str | FieldType::Raw | FieldType::Ident =>
                true,
        }
    }

    /// The fields of a struct type, a fact's keys and then its values, or the parameters of what has a body, of the item of this number.
    pub fn fields_at(&self, number: usize) -> &[Named]
        requires { number < length self.now }
        ensures { (i : Item) → slice_get self.now number ≡ Some i → result.now ≡ kept_fields i }
    {
        self.heads[number].fields()
    }

    /// The item of this number.
    pub fn item_at(&self, number: usize) -> &'a Item
        requires { number < length self.now }
        ensures { slice_get self.now number ≡ Some result.now }
    {
        self.heads[number].item()
    }

    /// The fields of the item of this number, where it is a struct type.
    pub fn struct_at(&self, number: usize) -> Option<&[Named]>
        requires { number < length self.now }
        ensures { (i : Item) → slice_get self.now number ≡ Some i → option_copied result ≡ option_map declared (written_fields i) }
    {
        self.heads[number].struct_fields()
    }

    /// Whether the item of this number, which has this name, is the first of that name.
    pub fn is_first(&self, number: usize, name: &Name) -> bool
        requires { option_and_then name_of (slice_get self.now number) ≡ Some name.now }
        ensures { result ≡ not (is_among name.now (names_of (take number self.now))) }
    {
        match self.number_named(name) {
            Some(first) => first == number,
            None => false,
        }
    }
}
