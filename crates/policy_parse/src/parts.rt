//! Parts with their heights.

ghost use Rattle.std.specs.Prelude.{◌≡◌, ◌<◌, ◌-◌, IfOk, length, max, suc};
ghost use Rattle.policy_ast.specs.declared.expr.Expr.TheVariants.{Field};
ghost use Rattle.policy_ast.specs.grammar.Fixed.{dot};
ghost use Rattle.policy_ast.specs.grammar.Parts.{appended, nothing_yet};
ghost use Rattle.policy_ast.specs.grammar.Policies.{kinds};
ghost use Rattle.policy_ast.proofs.grammar.Reading.{built, chain, node_added};
ghost use Rattle.policy_ast.proofs.grammar.ReadingFields.{read_name};
ghost use Rattle.policy_parse.specs.working.Reads.{Reads, part_read};

use crate::tokens::{after, name};
use crate::unparsed::Unparsed;
use base_bytes::NoMemory;
use policy_ast::{Expr, Part, Token, symbols};
use sqlite_items::{Boxed, Items};
use std::alloc::Global;

/// What a reader answers: the part with which the tokens begin, and the tokens behind it.
pub type Parsed<'a, T> = Result<(Part<T>, &'a [Token]), Unparsed>;

pub fn higher(a: usize, b: usize) -> usize
    ensures { result ≡ max a b }
{
    if a < b { b } else { a }
}

/// The node above parts of this height, where it isn't higher than the limit.
pub fn built<T: Drop>(limit: usize, tree: T, height: usize, rest: &[Token]) -> Parsed<T>
    ensures { Reads part_read result (built limit tree height (kinds rest.now)) }
{
    if height < limit {
        let height = height + 1;
        Ok((Part { tree, height }, rest))
    } else {
        Err(Unparsed::NoMatch)
    }
}

/// The same, said of the limit of what lies inside, which is one less.
pub fn built_within<T: Drop>(depth: usize, tree: T, height: usize, rest: &[Token]) -> Parsed<T>
    requires { 0 < depth }
    ensures { Reads part_read result (built (suc (depth - 1)) tree height (kinds rest.now)) }
{
    built(depth, tree, height, rest)
}

/// Such a node in a box.
pub fn node<'a, T: Drop>(
    alloc: Global,
    depth: usize,
    tree: T,
    height: usize,
    rest: &'a [Token],
) -> Parsed<'a, Boxed<T>>
    requires { 0 < depth }
    ensures { Reads part_read result (built (suc (depth - 1)) tree height (kinds rest.now)) }
{
    let tree = Boxed::new(alloc, tree)?;
    built_within(depth, tree, height, rest)
}

/// A list of nothing.
pub fn nothing_yet<T: Drop>(alloc: Global) -> Part<Items<T>>
    ensures { result ≡ nothing_yet }
{
    Part {
        tree: Items::new(alloc),
        height: 0,
    }
}

/// A list with one more part at its end.
pub fn appended<T: Drop>(list: Part<Items<T>>, one: Part<T>) -> Result<Part<Items<T>>, NoMemory>
    ensures { IfOk result (λ all. all ≡ appended list one) }
{
    let mut tree = list.tree;
    tree.push(one.tree)?;
    let height = higher(list.height, one.height);
    Ok(Part { tree, height })
}

/// A part whose tree lies in no box.
pub fn unboxed<T: Drop>(one: Part<Boxed<T>>) -> Part<T>
    ensures { result ≡ one }
{
    Part {
        tree: one.tree.into_inner(),
        height: one.height,
    }
}

/// `.name`, any number of times, behind an expression
#[tactic(auto, using(crate::proofs::Turns::chain_turn, crate::proofs::Turns::chain_full))]
pub fn dots<'a>(
    alloc: Global,
    depth: usize,
    first: Part<Boxed<Expr>>,
    tokens: &'a [Token],
) -> Parsed<'a, Boxed<Expr>>
    requires { 0 < depth }
    ensures { Reads part_read result (chain dot (node_added (suc (depth - 1)) Field) read_name (length tokens.now) first (kinds tokens.now)) }
{
    let mut whole = first;
    let mut rest = tokens;
    let mut turns = tokens.len();
    while let Some(behind) = after(symbols::DOT, rest) {
        if turns == 0 {
            return Err(Unparsed::NoMatch);
        }
        turns -= 1;
        let (field, behind) = name(alloc, behind)?;
        let tree = Expr::Field(whole.tree, field);
        let (both, behind) = node(alloc, depth, tree, whole.height, behind)?;
        whole = both;
        rest = behind;
    }
    Ok((whole, rest))
}
