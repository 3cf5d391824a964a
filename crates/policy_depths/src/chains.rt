//! Which items begin no chain of calls that is too long.

ghost use Rattle.std.specs.Prelude.{◌≡◌, map, IfOk, OnOk, ℕ, Bool};
ghost use Rattle.std.specs.List.{list_all};
ghost use Rattle.policy_rules.specs.Calls.{may_chain, section_calls};
ghost use Rattle.policy_depths.specs.working.Gathering.{AreGathered, Gathers, call_passes, item_passes};

use crate::rounds::round;
use crate::statements::{push_finishes, push_statements};
use base_bytes::NoMemory;
use policy_ast::{Item, Section};
use policy_heads::Heads;
use sqlite_items::Items;
use std::alloc::Global;

/// So many calls may follow one another, and the item in which they begin is a step before the first.
const LONGEST: usize = 17;

fn push_section(
    heads: &Heads<'_>,
    numbers: &mut Items<usize>,
    section: &Section,
) -> Result<(), NoMemory>
    ensures { OnOk result (Gathers numbers.old numbers.new (λ test. section_calls (call_passes heads.now test) section.now)) }
{
    match section {
        Section::Policy(body) => push_statements(heads, numbers, body.as_slice()),
        Section::Recall(body) => push_statements(heads, numbers, body.as_slice()),
        _ => Ok(()),
    }
}

fn push_sections(
    heads: &Heads<'_>,
    numbers: &mut Items<usize>,
    sections: &[Section],
) -> Result<(), NoMemory>
    ensures { OnOk result (Gathers numbers.old numbers.new (λ test. list_all (section_calls (call_passes heads.now test)) sections.now)) }
{
    for section in sections {
        push_section(heads, numbers, section)?;
    }
    Ok(())
}

#[tactic(auto, unfolding(crate::specs::working::Gathering::item_passes))]
fn push_item(heads: &Heads<'_>, numbers: &mut Items<usize>, item: &Item) -> Result<(), NoMemory>
    ensures { OnOk result (Gathers numbers.old numbers.new (λ test. item_passes heads.now test item.now)) }
{
    match item {
        Item::Command(_, sections) => push_sections(heads, numbers, sections.as_slice()),
        Item::Function { body, .. } => push_statements(heads, numbers, body.as_slice()),
        Item::FinishFunction { body, .. } => push_finishes(heads, numbers, body.as_slice()),
        Item::Action { body, .. } => push_statements(heads, numbers, body.as_slice()),
        _ => Ok(()),
    }
}

/// The numbers of what the item calls.
fn calls_of(alloc: Global, heads: &Heads<'_>, item: &Item) -> Result<Items<usize>, NoMemory>
    ensures { IfOk result (λ numbers. (test : ℕ → Bool) → list_all test numbers ≡ item_passes heads.now test item.now) }
{
    let mut numbers = Items::new(alloc);
    push_item(heads, &mut numbers, item)?;
    Ok(numbers)
}

fn calls(alloc: Global, heads: &Heads<'_>) -> Result<Items<Items<usize>>, NoMemory>
    ensures { IfOk result (λ all. AreGathered (item_passes heads.now) heads.now all) }
{
    let mut all = Items::new(alloc);
    for number in 0..heads.len() {
        let item = heads.item_at(number);
        all.push(calls_of(alloc, heads, item)?)?;
    }
    Ok(all)
}

/// For each item, whether no chain of calls that begins in it is longer than it may be. The calls are looked up once; then each
/// turn goes over them once.
pub fn allowed_chains(alloc: Global, heads: &Heads<'_>) -> Result<Items<bool>, NoMemory>
    ensures { IfOk result (λ allowed. allowed ≡ map (may_chain heads.now) heads.now) }
{
    let all = calls(alloc, heads)?;
    round(alloc, all.as_slice(), LONGEST)
}
