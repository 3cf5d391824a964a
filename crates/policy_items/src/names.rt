ghost use Rattle.std.specs.Prelude.{◌≡◌, IfOk, Some, slice_get, take};
ghost use Rattle.policy_rules.specs.FieldLists.{are_distinct};
ghost use Rattle.policy_rules.specs.Items.{are_variants, is_free_name};
ghost use Rattle.policy_rules.specs.Names.{is_among, name_of, names_of};

use base_bytes::NoMemory;
use policy_ast::{Item, Name};
use policy_heads::{Heads, NameSet, name_of};
use std::alloc::Global;

/// So many variants may stand in an enum.
const MOST: usize = 1024;

fn are_distinct(alloc: Global, names: &[Name]) -> Result<bool, NoMemory>
    ensures { IfOk result (λ are. are ≡ are_distinct names.now) }
{
    let mut set = NameSet::new(alloc);
    for name in names {
        if !set.insert(name)? {
            return Ok(false);
        }
    }
    Ok(true)
}

/// 1 to 1,024 distinct variants.
pub fn are_variants(alloc: Global, variants: &[Name]) -> Result<bool, NoMemory>
    ensures { IfOk result (λ are. are ≡ are_variants variants.now) }
{
    if variants.is_empty() || variants.len() > MOST {
        return Ok(false);
    }
    are_distinct(alloc, variants)
}

/// Whether the name of the item of this number isn't that of an earlier item, and isn't `Envelope`.
pub fn is_free_name(heads: &Heads<'_>, number: usize, item: &Item) -> bool
    requires { slice_get heads.now number ≡ Some item.now }
    ensures { result ≡ is_free_name (names_of (take number heads.now)) (name_of item.now) }
{
    match name_of(item) {
        Some(name) => heads.is_first(number, name) && name.as_str() != "Envelope",
        None => true,
    }
}
