//! Puts items. A list of items has `; ` between each two.

use crate::page::Page;
use crate::shown_leaves::{put_field, put_fields, put_literal, put_type};
use crate::shown_stmt::{put_block, put_finish};
use policy_ast::{Attribute, EffectField, Field, Item, Name, PlacedItem, Section};

pub fn put_items(page: &mut Page, items: &[PlacedItem]) {
    let mut is_first = true;
    for placed in items {
        page.put_between(is_first, "; ");
        put_item(page, &placed.item);
        is_first = false;
    }
}

/// The words with which an item begins.
pub fn kind_of(item: &Item) -> &'static str {
    match item {
        Item::Use(_) => "use",
        Item::Let(_, _) => "let",
        Item::Enum(_, _) => "enum",
        Item::Struct(_, _) => "struct",
        Item::Effect(_, _) => "effect",
        Item::Fact { is_immutable, .. } => {
            if *is_immutable {
                "immutable fact"
            } else {
                "fact"
            }
        }
        Item::Command(_, _) => "command",
        Item::Function { .. } => "function",
        Item::FinishFunction { .. } => "finish function",
        Item::Action { .. } => "action",
    }
}

fn put_item(page: &mut Page, item: &Item) {
    page.put(kind_of(item));
    page.put(" ");
    match item {
        Item::Use(name) => page.put(name.as_str()),
        Item::Let(name, literal) => {
            page.put(name.as_str());
            page.put(" = ");
            put_literal(page, literal);
        }
        Item::Enum(name, variants) => {
            page.put(name.as_str());
            put_variants(page, variants.as_slice());
        }
        Item::Struct(name, fields) => {
            page.put(name.as_str());
            page.put(" {");
            put_fields(page, fields.as_slice());
            page.put("}");
        }
        Item::Effect(name, fields) => {
            page.put(name.as_str());
            put_effect_fields(page, fields.as_slice());
        }
        Item::Fact {
            name,
            keys,
            values,
            ..
        } => {
            page.put(name.as_str());
            page.put("[");
            put_fields(page, keys.as_slice());
            page.put("]=>{");
            put_fields(page, values.as_slice());
            page.put("}");
        }
        Item::Command(name, sections) => {
            page.put(name.as_str());
            put_sections(page, sections.as_slice());
        }
        _ => put_callable(page, item),
    }
}

/// An item with parameters.
fn put_callable(page: &mut Page, item: &Item) {
    match item {
        Item::Function {
            name,
            parameters,
            result,
            body,
        } => {
            put_head(page, name, parameters.as_slice());
            put_type(page, result);
            page.put(" ");
            put_block(page, body.as_slice());
        }
        Item::FinishFunction {
            name,
            parameters,
            body,
        } => {
            put_head(page, name, parameters.as_slice());
            put_finish(page, body.as_slice());
        }
        Item::Action {
            name,
            parameters,
            body,
        } => {
            put_head(page, name, parameters.as_slice());
            put_block(page, body.as_slice());
        }
        _ => page.put("?"),
    }
}

fn put_head(page: &mut Page, name: &Name, parameters: &[Field]) {
    page.put(name.as_str());
    page.put("(");
    put_fields(page, parameters);
    page.put(") ");
}

fn put_variants(page: &mut Page, variants: &[Name]) {
    page.put(" {");
    let mut is_first = true;
    for variant in variants {
        page.put_between(is_first, ", ");
        page.put(variant.as_str());
        is_first = false;
    }
    page.put("}");
}

fn put_effect_fields(page: &mut Page, fields: &[EffectField]) {
    page.put(" {");
    let mut is_first = true;
    for field in fields {
        page.put_between(is_first, ", ");
        put_field(page, &field.field);
        if field.is_dynamic {
            page.put(" dynamic");
        }
        is_first = false;
    }
    page.put("}");
}

fn put_sections(page: &mut Page, sections: &[Section]) {
    page.put(" {");
    let mut is_first = true;
    for section in sections {
        page.put_between(is_first, "; ");
        put_section(page, section);
        is_first = false;
    }
    page.put("}");
}

fn put_section(page: &mut Page, section: &Section) {
    match section {
        Section::Attributes(attributes) => put_attributes(page, attributes.as_slice()),
        Section::Fields(fields) => {
            page.put("fields {");
            put_fields(page, fields.as_slice());
            page.put("}");
        }
        Section::Seal => page.put("seal"),
        Section::Open => page.put("open"),
        Section::Policy(body) => {
            page.put("policy ");
            put_block(page, body.as_slice());
        }
        Section::Recall(body) => {
            page.put("recall ");
            put_block(page, body.as_slice());
        }
    }
}

fn put_attributes(page: &mut Page, attributes: &[Attribute]) {
    page.put("attributes {");
    let mut is_first = true;
    for attribute in attributes {
        page.put_between(is_first, ", ");
        page.put(attribute.name.as_str());
        page.put(": ");
        put_literal(page, &attribute.value);
        is_first = false;
    }
    page.put("}");
}
