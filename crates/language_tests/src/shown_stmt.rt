//! Puts statements, those of finish blocks among them. A list of statements has `; ` between each two.

use crate::page::Page;
use crate::shown_expr::{put_arguments, put_binds, put_expr, put_pattern};
use crate::shown_leaves::put_pattern_literal;
use policy_ast::{Arm, ArmPattern, Else, FinishStmt, IfStmt, PatternLiteral, Stmt};

#[cycle(stmt)]
fn put_stmt(page: &mut Page, stmt: &Stmt) {
    match stmt {
        Stmt::Let(binding) => {
            page.put("let ");
            page.put(binding.name.as_str());
            page.put(" = ");
            put_expr(page, &binding.value);
        }
        Stmt::Check(expr) => {
            page.put("check ");
            put_expr(page, expr);
        }
        Stmt::Publish(expr) => {
            page.put("publish ");
            put_expr(page, expr);
        }
        Stmt::Return(expr) => {
            page.put("return ");
            put_expr(page, expr);
        }
        Stmt::Finish(stmts) => {
            page.put("finish ");
            put_finish(page, stmts.as_slice());
        }
        Stmt::If(parts) => put_choice(page, parts),
        Stmt::Match(head, arms) => {
            page.put("match ");
            put_expr(page, head);
            page.put(" ");
            put_arms(page, arms.as_slice());
        }
        Stmt::Map(pattern, row, body) => {
            page.put("map ");
            put_pattern(page, pattern);
            page.put(" as ");
            page.put(row.as_str());
            page.put(" ");
            put_block(page, body.as_slice());
        }
    }
}

#[cycle(stmt)]
pub fn put_block(page: &mut Page, stmts: &[Stmt]) {
    page.put("{");
    let mut is_first = true;
    for stmt in stmts {
        page.put_between(is_first, "; ");
        put_stmt(page, stmt);
        is_first = false;
    }
    page.put("}");
}

#[cycle(stmt)]
fn put_choice(page: &mut Page, parts: &IfStmt<Stmt>) {
    page.put("if ");
    put_expr(page, &parts.head);
    page.put(" {");
    let mut is_first = true;
    for stmt in parts.then.as_slice() {
        page.put_between(is_first, "; ");
        put_stmt(page, stmt);
        is_first = false;
    }
    page.put("}");
    match &parts.otherwise {
        None => {}
        Some(Else::Block(body)) => {
            page.put(" else {");
            let mut is_first = true;
            for stmt in body.as_slice() {
                page.put_between(is_first, "; ");
                put_stmt(page, stmt);
                is_first = false;
            }
            page.put("}");
        }
        Some(Else::If(inner)) => {
            page.put(" else ");
            put_stmt(page, inner.get());
        }
    }
}

#[cycle(stmt)]
fn put_arms(page: &mut Page, arms: &[Arm<Stmt>]) {
    page.put("{");
    let mut is_first_arm = true;
    for arm in arms {
        page.put_between(is_first_arm, "; ");
        put_arm_pattern(page, &arm.pattern);
        page.put(" => {");
        let mut is_first = true;
        for stmt in arm.body.as_slice() {
            page.put_between(is_first, "; ");
            put_stmt(page, stmt);
            is_first = false;
        }
        page.put("}");
        is_first_arm = false;
    }
    page.put("}");
}

fn put_arm_pattern(page: &mut Page, pattern: &ArmPattern) {
    match pattern {
        ArmPattern::Any => page.put("_"),
        ArmPattern::Literals(literals) => put_alternatives(page, literals.as_slice()),
    }
}

fn put_alternatives(page: &mut Page, literals: &[PatternLiteral]) {
    let mut is_first = true;
    for literal in literals {
        page.put_between(is_first, " | ");
        put_pattern_literal(page, literal);
        is_first = false;
    }
}

pub fn put_finish(page: &mut Page, stmts: &[FinishStmt]) {
    page.put("{");
    let mut is_first = true;
    for stmt in stmts {
        page.put_between(is_first, "; ");
        put_finish_stmt(page, stmt);
        is_first = false;
    }
    page.put("}");
}

fn put_finish_stmt(page: &mut Page, stmt: &FinishStmt) {
    match stmt {
        FinishStmt::Create { fact, keys, values } => {
            page.put("create ");
            page.put(fact.as_str());
            page.put("[");
            put_binds(page, keys.as_slice());
            page.put("]=>{");
            put_binds(page, values.as_slice());
            page.put("}");
        }
        FinishStmt::Update { from, to } => {
            page.put("update ");
            put_pattern(page, from);
            page.put(" to {");
            put_binds(page, to.as_slice());
            page.put("}");
        }
        FinishStmt::Delete { fact, keys } => {
            page.put("delete ");
            page.put(fact.as_str());
            page.put("[");
            put_binds(page, keys.as_slice());
            page.put("]");
        }
        FinishStmt::Emit(expr) => {
            page.put("emit ");
            put_expr(page, expr);
        }
        FinishStmt::Call(name, arguments) => {
            page.put(name.as_str());
            put_arguments(page, arguments.as_slice());
        }
    }
}
