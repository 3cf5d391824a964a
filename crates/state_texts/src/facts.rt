//! The line `facts`.

ghost use Rattle.std.specs.Prelude.{◌≡◌, ◌≤◌, ◌<◌, ◌^◌, ◌++◌, ◌+◌, IfOk, OnOk, flat_map, length, slice_get};
ghost use Rattle.std.specs.Option.{option_copied};
ghost use Rattle.policy_meaning.specs.Typed.{AreTyped};
ghost use Rattle.policy_rules.specs.WellTyped.{items_of};
ghost use Rattle.state_texts.specs.Naming.{key_names, names_in, value_names};
ghost use Rattle.state_texts.specs.States.{facts_text, row_line};
ghost use Rattle.state_texts.specs.working.Below.{row_line_of, rows_of};

use crate::lines::Lines;
use crate::names::{item_at, item_name};
use crate::naming::named_row;
use base_bytes::{Bytes, NoMemory, Text};
use fact_store::{FactBase, Row, Wanted};
use policy_ast::{Field, Item, PlacedItem, Policy};
use script_texts::row_text;
use sqlite_items::Items;
use std::alloc::Global;

/// The line of a row, whose fields are these.
fn row_line(
    alloc: Global,
    items: &[PlacedItem],
    keys: &[Field],
    values: &[Field],
    row: &Row,
) -> Result<Bytes, NoMemory>
    ensures text { IfOk result (λ text. text ≡ row_line_of (items_of items.now) (names_in keys.now) (names_in values.now) row.now) }
    ensures some { IfOk result (λ text. 0 < length text) }
{
    let name = item_name(alloc, items, row.fact)?;
    let keys = named_row(alloc, items, keys, row.keys.as_slice())?;
    let values = named_row(alloc, items, values, row.values.as_slice())?;
    row_text(alloc, &name, keys.as_slice(), values.as_slice())
}

fn push_rows(
    alloc: Global,
    into: &mut Lines,
    items: &[PlacedItem],
    keys: &[Field],
    values: &[Field],
    rows: &[Row],
) -> Result<(), NoMemory>
    requires few { into.old.count ≤ length into.old.text }
    ensures few { OnOk result (into.new.count ≤ length into.new.text) }
    ensures counted { OnOk result (into.new.count ≡ into.old.count + length rows.now) }
    ensures text { OnOk result (into.new.text ≡ into.old.text ++ flat_map (row_line_of (items_of items.now) (names_in keys.now) (names_in values.now)) rows.now) }
{
    for row in rows {
        let line = row_line(alloc, items, keys, values, row)?;
        into.push(alloc, line.as_slice())?;
    }
    Ok(())
}

/// The keys of a fact, and no fields of another item.
fn key_fields(item: Option<&Item>) -> &[Field]
    ensures { names_in result.now ≡ key_names (option_copied item.entry) }
{
    match item {
        Some(Item::Fact { keys, .. }) => keys.as_slice(),
        _ => &[],
    }
}

fn value_fields(item: Option<&Item>) -> &[Field]
    ensures { names_in result.now ≡ value_names (option_copied item.entry) }
{
    match item {
        Some(Item::Fact { values, .. }) => values.as_slice(),
        _ => &[],
    }
}

/// The lines of all rows of the fact of this number.
#[tactic(auto, using(crate::proofs::RowFacts::lines_of))]
fn push_fact<F: FactBase>(
    alloc: Global,
    into: &mut Lines,
    items: &[PlacedItem],
    number: u32,
    facts: &F,
) -> Result<(), NoMemory>
    requires few { into.old.count ≤ length into.old.text }
    ensures few { OnOk result (into.new.count ≤ length into.new.text) }
    ensures counted { OnOk result (into.new.count ≡ into.old.count + length (rows_of number (F.rows facts.now))) }
    ensures text { OnOk result (into.new.text ≡ into.old.text ++ flat_map (row_line (items_of items.now)) (rows_of number (F.rows facts.now))) }
{
    let wanted = Wanted {
        fact: number,
        keys: Items::new(alloc),
        values: Items::new(alloc),
    };
    let rows = facts.select(alloc, &wanted)?;
    let item = item_at(items, number);
    push_rows(
        alloc,
        into,
        items,
        key_fields(item),
        value_fields(item),
        rows.as_slice(),
    )
}

/// `facts A: N`, and behind it a line for each row, in fact order.
#[tactic(auto, using(crate::proofs::RowFacts::below_next, crate::proofs::RowFacts::below_none, crate::proofs::RowFacts::below_all))]
pub fn facts_text<F: FactBase>(
    alloc: Global,
    policy: &Policy,
    name: &Text,
    facts: &F,
) -> Result<Bytes, NoMemory>
    requires typed { AreTyped policy.now (F.rows facts.now) }
    ensures { IfOk result (λ text. text ≡ facts_text (items_of policy.now) name.now (F.rows facts.now)) }
{
    let items = policy.items();
    let mut lines = Lines::new(alloc);
    for number in 0..items.len() {
        push_fact(alloc, &mut lines, items, number as u32, facts)?;
    }
    lines.headed(alloc, "facts", name)
}
