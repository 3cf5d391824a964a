//! Statements of finish blocks and of finish functions.

ghost use Rattle.policy_ast.specs.grammar.Policies.{kinds};
ghost use Rattle.policy_ast.proofs.grammar.ReadingStatements.{read_create, read_delete, read_finish_block, read_finish_call, read_update};
ghost use Rattle.policy_parse.specs.working.Reads.{Reads, part_read};

use crate::expressions::expression;
use crate::lists::{Member, many};
use crate::parts::{Parsed, built, higher};
use crate::patterns::{arguments, binds, pattern};
use crate::tokens::{after_word, expect, expect_word, name};
use policy_ast::{FinishStmt, Part, Token, symbols};
use sqlite_items::Items;
use std::alloc::Global;

/// `{ .. }`
pub fn finish_block<'a>(
    alloc: Global,
    limit: usize,
    tokens: &'a [Token],
) -> Parsed<'a, Items<FinishStmt>>
    ensures { Reads part_read result (read_finish_block limit (kinds tokens.now)) }
{
    let rest = expect(symbols::OPEN_BRACE, tokens)?;
    many(alloc, limit, symbols::CLOSE_BRACE, rest)
}

impl Member for FinishStmt {
    ghost use Rattle.policy_ast.proofs.grammar.ReadingStatements.{read_finish_stmt};

    ghost reads = { read_finish_stmt };

    #[tactic(auto, unfolding(policy_ast::proofs::grammar::ReadingStatements::read_finish_stmt))]
    fn read<'a>(alloc: Global, limit: usize, tokens: &'a [Token]) -> Parsed<'a, FinishStmt> {
        if let Some(rest) = after_word("create", tokens) {
            return create(alloc, limit, rest);
        }
        if let Some(rest) = after_word("update", tokens) {
            return update(alloc, limit, rest);
        }
        if let Some(rest) = after_word("delete", tokens) {
            return delete(alloc, limit, rest);
        }
        if let Some(rest) = after_word("emit", tokens) {
            let (found, rest) = expression(alloc, limit, false, rest)?;
            let height = found.height;
            let tree = FinishStmt::Emit(found.tree.into_inner());
            return built(limit, tree, height, rest);
        }
        call(alloc, limit, tokens)
    }
}

/// What follows `create`: `Fact[key: expr, ..]=>{value: expr, ..}`
fn create<'a>(alloc: Global, limit: usize, tokens: &'a [Token]) -> Parsed<'a, FinishStmt>
    ensures { Reads part_read result (read_create limit (kinds tokens.now)) }
{
    let (fact, rest) = name(alloc, tokens)?;
    let rest = expect(symbols::OPEN_BRACKET, rest)?;
    let (keys, rest) = binds(alloc, limit, symbols::CLOSE_BRACKET, rest)?;
    let rest = expect(symbols::ARROW, rest)?;
    let rest = expect(symbols::OPEN_BRACE, rest)?;
    let (values, rest) = binds(alloc, limit, symbols::CLOSE_BRACE, rest)?;
    let height = higher(keys.height, values.height);
    let tree = FinishStmt::Create {
        fact,
        keys: keys.tree,
        values: values.tree,
    };
    built(limit, tree, height, rest)
}

/// What follows `update`: a pattern, `to` and `{value: expr, ..}`
fn update<'a>(alloc: Global, limit: usize, tokens: &'a [Token]) -> Parsed<'a, FinishStmt>
    ensures { Reads part_read result (read_update limit (kinds tokens.now)) }
{
    let (from, rest) = pattern(alloc, limit, tokens)?;
    let rest = expect_word("to", rest)?;
    let rest = expect(symbols::OPEN_BRACE, rest)?;
    let (to, rest) = binds(alloc, limit, symbols::CLOSE_BRACE, rest)?;
    let height = higher(from.height, to.height);
    let tree = FinishStmt::Update {
        from: from.tree,
        to: to.tree,
    };
    built(limit, tree, height, rest)
}

/// What follows `delete`: `Fact[key: expr, ..]`
fn delete<'a>(alloc: Global, limit: usize, tokens: &'a [Token]) -> Parsed<'a, FinishStmt>
    ensures { Reads part_read result (read_delete limit (kinds tokens.now)) }
{
    let (fact, rest) = name(alloc, tokens)?;
    let rest = expect(symbols::OPEN_BRACKET, rest)?;
    let (keys, rest) = binds(alloc, limit, symbols::CLOSE_BRACKET, rest)?;
    let height = keys.height;
    let tree = FinishStmt::Delete {
        fact,
        keys: keys.tree,
    };
    built(limit, tree, height, rest)
}

/// A call of a finish function
fn call<'a>(alloc: Global, limit: usize, tokens: &'a [Token]) -> Parsed<'a, FinishStmt>
    ensures { Reads part_read result (read_finish_call limit (kinds tokens.now)) }
{
    let (callee, rest) = name(alloc, tokens)?;
    let rest = expect(symbols::OPEN_PAREN, rest)?;
    let (found, rest) = arguments(alloc, limit, rest)?;
    let height = found.height;
    let tree = FinishStmt::Call(callee, found.tree);
    built(limit, tree, height, rest)
}
