//! In which items structs nest no deeper than they may.

ghost use Rattle.std.specs.Prelude.{◌≡◌, map, true, option_map, unwrap_or, IfOk, OnOk, ℕ, List, Bool, [], Some};
ghost use Rattle.std.specs.Prelude.{slice_get, ◌<◌, length};
ghost use Rattle.std.specs.List.{list_all};
ghost use Rattle.std.specs.Option.{option_copied};
ghost use Rattle.policy_ast.specs.declared.item.Item.{Item};
ghost use Rattle.policy_rules.specs.Nesting.{may_nest, struct_passes};
ghost use Rattle.policy_depths.specs.working.Gathering.{AreGathered, Gathers, fields_pass_by, struct_number, struct_passes_by, structs_pass};

use crate::rounds::round;
use base_bytes::NoMemory;
use policy_ast::Name;
use policy_heads::Heads;
use policy_rules::{Named, NamedType};
use sqlite_items::Items;
use std::alloc::Global;

/// So many structs may nest, the outermost counted.
const DEEPEST: usize = 8;

/// The name of the struct inside a type.
fn struct_inside(t: &NamedType) -> Option<&Name>
    ensures { (test : List ℕ → Bool) → struct_passes test t.now ≡ unwrap_or (option_map test (option_copied result)) true }
{
    match t {
        NamedType::Struct(name) => Some(name),
        NamedType::Optional(inner) => struct_inside(inner.get()),
        _ => None,
    }
}

/// The number of the struct that a name means.
fn struct_number(heads: &Heads<'_>, name: &Name) -> Option<usize>
    ensures { result ≡ struct_number heads.now name.now }
{
    match heads.struct_named(name) {
        Some(_) => heads.number_named(name),
        None => None,
    }
}

fn push_struct(heads: &Heads<'_>, numbers: &mut Items<usize>, name: &Name) -> Result<(), NoMemory>
    ensures { OnOk result (Gathers numbers.old numbers.new (λ test. struct_passes_by heads.now test name.now)) }
{
    if let Some(number) = struct_number(heads, name) {
        numbers.push(number)?;
    }
    Ok(())
}

fn push_type(heads: &Heads<'_>, numbers: &mut Items<usize>, t: &NamedType) -> Result<(), NoMemory>
    ensures { OnOk result (Gathers numbers.old numbers.new (λ test. struct_passes (struct_passes_by heads.now test) t.now)) }
{
    match struct_inside(t) {
        Some(name) => push_struct(heads, numbers, name),
        None => Ok(()),
    }
}

fn push_fields(
    heads: &Heads<'_>,
    numbers: &mut Items<usize>,
    fields: &[Named],
) -> Result<(), NoMemory>
    ensures { OnOk result (Gathers numbers.old numbers.new (λ test. fields_pass_by heads.now test fields.now)) }
{
    for field in fields {
        push_type(heads, numbers, &field.ty)?;
    }
    Ok(())
}

/// The numbers of the structs that the fields of an item hold.
fn structs_of(alloc: Global, heads: &Heads<'_>, number: usize) -> Result<Items<usize>, NoMemory>
    requires { number < length heads.now }
    ensures { IfOk result (λ numbers. (i : Item) → slice_get heads.now number ≡ Some i → (test : ℕ → Bool) → list_all test numbers ≡ structs_pass heads.now test i) }
{
    let mut numbers = Items::new(alloc);
    if let Some(fields) = heads.struct_at(number) {
        push_fields(heads, &mut numbers, fields)?;
    }
    Ok(numbers)
}

fn structs(alloc: Global, heads: &Heads<'_>) -> Result<Items<Items<usize>>, NoMemory>
    ensures { IfOk result (λ all. AreGathered (structs_pass heads.now) heads.now all) }
{
    let mut all = Items::new(alloc);
    for number in 0..heads.len() {
        all.push(structs_of(alloc, heads, number)?)?;
    }
    Ok(all)
}

/// For each item, whether it is no struct type, or structs nest in it no deeper than they may. The structs of fields are looked up
/// once; then each turn goes over them once.
pub fn allowed_nestings(alloc: Global, heads: &Heads<'_>) -> Result<Items<bool>, NoMemory>
    ensures { IfOk result (λ allowed. allowed ≡ map (may_nest heads.now) heads.now) }
{
    let all = structs(alloc, heads)?;
    round(alloc, all.as_slice(), DEEPEST)
}
