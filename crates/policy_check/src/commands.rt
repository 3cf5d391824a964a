//! Commands: their sections, their attributes and their blocks.

ghost use Rattle.std.specs.Prelude.{◌≡◌, ◌&&◌, [], IfOk};
ghost use Rattle.policy_rules.specs.Commands.{are_attributes, attributes_of, has_its_sections};
ghost use Rattle.policy_rules.specs.Items.{in_command};
ghost use Rattle.policy_rules.specs.ItemJudging.{section_is, sections_are};
ghost use Rattle.policy_rules.specs.Judging.{body_is};

use base_bytes::NoMemory;
use policy_ast::{Name, Section};
use policy_heads::Heads;
use policy_infer::body_is;
use policy_items::{are_attributes, are_fields, attributes_of, has_its_sections};
use policy_rules::{Block, Context};
use std::alloc::Global;

fn in_command(alloc: Global, name: &Name) -> Result<Context, NoMemory>
    ensures { IfOk result (λ context. context ≡ in_command name.now) }
{
    let name = name.copy(alloc)?;
    Ok(Context {
        block: Block::Command,
        this: Some(name),
        result: None,
    })
}

/// Whether a section of the command of this name is well typed.
fn section_is(
    alloc: Global,
    heads: &Heads<'_>,
    name: &Name,
    context: &Context,
    section: &Section,
) -> Result<bool, NoMemory>
    requires { context.now ≡ in_command name.now }
    ensures { IfOk result (λ is. is ≡ section_is heads.now name.now section.now) }
{
    match section {
        Section::Attributes(_) => Ok(true),
        Section::Fields(fields) => are_fields(alloc, heads, fields.as_slice()),
        Section::Seal => Ok(true),
        Section::Open => Ok(true),
        Section::Policy(body) => body_is(alloc, heads, context, &[], body.as_slice()),
        Section::Recall(body) => body_is(alloc, heads, context, &[], body.as_slice()),
    }
}

fn sections_are(
    alloc: Global,
    heads: &Heads<'_>,
    name: &Name,
    sections: &[Section],
) -> Result<bool, NoMemory>
    ensures { IfOk result (λ are. are ≡ sections_are heads.now name.now sections.now) }
{
    let context = in_command(alloc, name)?;
    for section in sections {
        if !section_is(alloc, heads, name, &context, section)? {
            return Ok(false);
        }
    }
    Ok(true)
}

/// Whether a command of this name with these sections is well typed.
pub fn is_command(
    alloc: Global,
    heads: &Heads<'_>,
    name: &Name,
    sections: &[Section],
) -> Result<bool, NoMemory>
    ensures { IfOk result (λ is. is ≡ (has_its_sections sections.now && (are_attributes (attributes_of sections.now) && sections_are heads.now name.now sections.now))) }
{
    if !has_its_sections(sections) || !are_attributes(attributes_of(sections)) {
        return Ok(false);
    }
    sections_are(alloc, heads, name, sections)
}
