//! Puts what holds no expression: literals, operators, types and fields.

use crate::page::Page;
use policy_ast::{
    Arithmetic, Comparison, Count, Field, FieldType, Literal, PatternLiteral, Presence, Unary,
};

pub fn put_literal(page: &mut Page, literal: &Literal) {
    match literal {
        Literal::Number(number) => page.put_number(*number),
        Literal::Text(text) => {
            page.put("\"");
            page.put(text.as_str());
            page.put("\"");
        }
        Literal::True => page.put("true"),
        Literal::False => page.put("false"),
        Literal::Variant(item, variant) => {
            page.put(item.as_str());
            page.put("::");
            page.put(variant.as_str());
        }
    }
}

pub fn put_pattern_literal(page: &mut Page, literal: &PatternLiteral) {
    match literal {
        PatternLiteral::Literal(literal) => put_literal(page, literal),
        PatternLiteral::None => page.put("None"),
    }
}

pub fn comparison_text(comparison: Comparison) -> &'static str {
    match comparison {
        Comparison::Equal => " == ",
        Comparison::NotEqual => " != ",
        Comparison::Less => " < ",
        Comparison::LessOrEqual => " <= ",
        Comparison::Greater => " > ",
        Comparison::GreaterOrEqual => " >= ",
    }
}

pub fn presence_text(presence: Presence) -> &'static str {
    match presence {
        Presence::Some => " is Some",
        Presence::None => " is None",
    }
}

pub fn sign_text(sign: Unary) -> &'static str {
    match sign {
        Unary::Not => "!",
        Unary::Unwrap => "unwrap ",
        Unary::CheckUnwrap => "check_unwrap ",
    }
}

pub fn arithmetic_text(arithmetic: Arithmetic) -> &'static str {
    match arithmetic {
        Arithmetic::Add => "add",
        Arithmetic::Sub => "sub",
        Arithmetic::SaturatingAdd => "saturating_add",
        Arithmetic::SaturatingSub => "saturating_sub",
    }
}

pub fn count_text(count: Count) -> &'static str {
    match count {
        Count::AtLeast => "at_least ",
        Count::AtMost => "at_most ",
        Count::Exactly => "exactly ",
        Count::CountUpTo => "count_up_to ",
    }
}

pub fn put_type(page: &mut Page, field_type: &FieldType) {
    match field_type {
        FieldType::Int => page.put("int"),
        FieldType::Bool => page.put("bool"),
        FieldType::Str => page.put("string"),
        FieldType::Raw => page.put("bytes"),
        FieldType::Ident => page.put("id"),
        FieldType::Enum(name) => {
            page.put("enum ");
            page.put(name.as_str());
        }
        FieldType::Struct(name) => {
            page.put("struct ");
            page.put(name.as_str());
        }
        FieldType::Optional(inner) => {
            page.put("optional ");
            put_type(page, inner.get());
        }
    }
}

pub fn put_field(page: &mut Page, field: &Field) {
    page.put(field.name.as_str());
    page.put(" ");
    put_type(page, &field.field_type);
}

pub fn put_fields(page: &mut Page, fields: &[Field]) {
    let mut is_first = true;
    for field in fields {
        page.put_between(is_first, ", ");
        put_field(page, field);
        is_first = false;
    }
}
