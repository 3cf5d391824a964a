//! The line `effects`.

ghost use Rattle.std.specs.Prelude.{◌≡◌, ◌≤◌, ◌<◌, ◌++◌, ◌+◌, IfOk, OnOk, flat_map, length};
ghost use Rattle.policy_rules.specs.WellTyped.{items_of};
ghost use Rattle.state_texts.specs.States.{all_effects, effect_line, effects_text, entry_lines, is_recalled};

use crate::lines::Lines;
use crate::naming::named;
use base_bytes::{Bytes, NoMemory, Text, Value, copy_values};
use braid_run::{Entry, Outcome};
use policy_ast::PlacedItem;
use policy_meaning::Effect;
use script_texts::effect_text;
use std::alloc::Global;

fn is_recalled(outcome: Outcome) -> bool
    ensures { result ≡ is_recalled outcome }
{
    match outcome {
        Outcome::Recalled => true,
        Outcome::Pass | Outcome::Void => false,
    }
}

fn effect_line(
    alloc: Global,
    items: &[PlacedItem],
    outcome: Outcome,
    effect: &Effect,
) -> Result<Bytes, NoMemory>
    ensures text { IfOk result (λ text. text ≡ effect_line (items_of items.now) outcome effect.now) }
    ensures some { IfOk result (λ text. 0 < length text) }
{
    let fields = copy_values(alloc, effect.fields.as_slice())?;
    let value = named(alloc, items, &Value::Struct(effect.effect, fields))?;
    effect_text(alloc, &value, is_recalled(outcome))
}

fn push_effects(
    alloc: Global,
    into: &mut Lines,
    items: &[PlacedItem],
    outcome: Outcome,
    effects: &[Effect],
) -> Result<(), NoMemory>
    requires few { into.old.count ≤ length into.old.text }
    ensures few { OnOk result (into.new.count ≤ length into.new.text) }
    ensures counted { OnOk result (into.new.count ≡ into.old.count + length effects.now) }
    ensures text { OnOk result (into.new.text ≡ into.old.text ++ flat_map (effect_line (items_of items.now) outcome) effects.now) }
{
    for effect in effects {
        let line = effect_line(alloc, items, outcome, effect)?;
        into.push(alloc, line.as_slice())?;
    }
    Ok(())
}

/// `effects A: N`, and behind it a line for each effect in the order of the braid, with the word `recalled` where its command was recalled.
pub fn effects_text(
    alloc: Global,
    items: &[PlacedItem],
    name: &Text,
    entries: &[Entry],
) -> Result<Bytes, NoMemory>
    ensures { IfOk result (λ text. text ≡ effects_text (items_of items.now) name.now entries.now) }
{
    let mut lines = Lines::new(alloc);
    for entry in entries {
        push_effects(
            alloc,
            &mut lines,
            items,
            entry.outcome,
            entry.effects.as_slice(),
        )?;
    }
    lines.headed(alloc, "effects", name)
}
