//! Puts expressions with parentheses round each that has parts and no brackets of its own.

use crate::page::Page;
use crate::shown_leaves::{
    arithmetic_text, comparison_text, count_text, presence_text, put_literal, sign_text,
};
use policy_ast::{Bind, ElseExpr, Expr, IfExpr, Pattern};

#[cycle(expr)]
pub fn put_expr(page: &mut Page, expr: &Expr) {
    match expr {
        Expr::Literal(literal) => put_literal(page, literal),
        Expr::None => page.put("None"),
        Expr::This => page.put("this"),
        Expr::Name(name) => page.put(name.as_str()),
        Expr::Some(inner) => {
            page.put("Some(");
            put_expr(page, inner.get());
            page.put(")");
        }
        Expr::Call(name, arguments) => {
            page.put(name.as_str());
            put_arguments(page, arguments.as_slice());
        }
        Expr::ForeignCall(module, name, arguments) => {
            page.put(module.as_str());
            page.put("::");
            page.put(name.as_str());
            put_arguments(page, arguments.as_slice());
        }
        Expr::Struct(name, binds) => {
            page.put(name.as_str());
            page.put(" {");
            put_binds(page, binds.as_slice());
            page.put("}");
        }
        _ => {
            page.put("(");
            put_open(page, expr);
            page.put(")");
        }
    }
}

/// An expression that has no brackets of its own.
#[cycle(expr)]
fn put_open(page: &mut Page, expr: &Expr) {
    match expr {
        Expr::Or(first, second) => {
            put_expr(page, first.get());
            page.put(" || ");
            put_expr(page, second.get());
        }
        Expr::And(first, second) => {
            put_expr(page, first.get());
            page.put(" && ");
            put_expr(page, second.get());
        }
        Expr::Compare(first, comparison, second) => {
            put_expr(page, first.get());
            page.put(comparison_text(*comparison));
            put_expr(page, second.get());
        }
        Expr::Is(inner, presence) => {
            put_expr(page, inner.get());
            page.put(presence_text(*presence));
        }
        Expr::Unary(sign, inner) => {
            page.put(sign_text(*sign));
            put_expr(page, inner.get());
        }
        Expr::Field(inner, name) => {
            put_expr(page, inner.get());
            page.put(".");
            page.put(name.as_str());
        }
        _ => put_words(page, expr),
    }
}

/// An expression that begins with a word of its own.
#[cycle(expr)]
fn put_words(page: &mut Page, expr: &Expr) {
    match expr {
        Expr::Arithmetic(arithmetic, first, second) => {
            page.put(arithmetic_text(*arithmetic));
            page.put(" ");
            put_expr(page, first.get());
            page.put(", ");
            put_expr(page, second.get());
        }
        Expr::Query(pattern) => {
            page.put("query ");
            put_pattern(page, pattern);
        }
        Expr::Exists(pattern) => {
            page.put("exists ");
            put_pattern(page, pattern);
        }
        Expr::Count(count, number, pattern) => {
            page.put(count_text(*count));
            page.put_number(*number);
            page.put(" ");
            put_pattern(page, pattern);
        }
        Expr::If(parts) => put_choice(page, parts.get()),
        _ => page.put("?"),
    }
}

#[cycle(expr)]
pub fn put_arguments(page: &mut Page, arguments: &[Expr]) {
    page.put("(");
    let mut is_first = true;
    for argument in arguments {
        page.put_between(is_first, ", ");
        put_expr(page, argument);
        is_first = false;
    }
    page.put(")");
}

#[cycle(expr)]
pub fn put_binds(page: &mut Page, binds: &[Bind<Expr>]) {
    let mut is_first = true;
    for bind in binds {
        put_name(page, is_first, bind.name.as_str());
        put_expr(page, &bind.value);
        is_first = false;
    }
}

#[cycle(expr)]
pub fn put_pattern(page: &mut Page, pattern: &Pattern<Expr>) {
    page.put(pattern.fact.as_str());
    page.put("[");
    let mut is_first = true;
    for free in pattern.keys.as_slice() {
        put_name(page, is_first, free.name.as_str());
        match &free.value {
            Some(value) => put_expr(page, value),
            None => page.put("?"),
        }
        is_first = false;
    }
    page.put("]");
    if let Some(values) = &pattern.values {
        page.put("=>{");
        let mut is_first = true;
        for free in values.as_slice() {
            put_name(page, is_first, free.name.as_str());
            match &free.value {
                Some(value) => put_expr(page, value),
                None => page.put("?"),
            }
            is_first = false;
        }
        page.put("}");
    }
}

/// What stands before a value in a list of them.
fn put_name(page: &mut Page, is_first: bool, name: &str) {
    page.put_between(is_first, ", ");
    page.put(name);
    page.put(": ");
}

#[cycle(expr)]
fn put_choice(page: &mut Page, parts: &IfExpr<Expr>) {
    page.put("if ");
    put_expr(page, &parts.head);
    page.put(" {");
    for binding in parts.then.lets.as_slice() {
        put_let(page, binding.name.as_str(), &binding.value);
    }
    page.put(": ");
    put_expr(page, &parts.then.value);
    page.put("} else ");
    match &parts.otherwise {
        ElseExpr::Block(block) => {
            page.put("{");
            for binding in block.lets.as_slice() {
                put_let(page, binding.name.as_str(), &binding.value);
            }
            page.put(": ");
            put_expr(page, &block.value);
            page.put("}");
        }
        ElseExpr::If(inner) => put_expr(page, inner),
    }
}

#[cycle(expr)]
fn put_let(page: &mut Page, name: &str, value: &Expr) {
    page.put("let ");
    page.put(name);
    page.put(" = ");
    put_expr(page, value);
    page.put("; ");
}
