ghost use Rattle.std.specs.Prelude.{◌≡◌, ◌<◌, ◌^◌, [], IfOk, IfErr, List, length};
ghost use Rattle.policy_ast.specs.declared.policy.PlacedItem.{PlacedItem};
ghost use Rattle.policy_ast.specs.grammar.Policies.{Spells};
ghost use Rattle.policy_ast.proofs.grammar.ReadingItems.{read_placed, read_run};
ghost use Rattle.policy_parse.specs.working.Reads.{Reads};
ghost use Rattle.policy_parse.specs.working.Runs.{placed_read, run_read};
ghost use Rattle.policy_parse.specs.Faults.{HasCause, IsTheOne};

use crate::items::item;
use crate::unparsed::{Unparsed, or_none};
use base_bytes::NoMemory;
use policy_ast::{PlacedItem, Policy, Token};
use sqlite_items::Items;
use std::alloc::Global;

/// Why no policy was read.
#[derive(Clone, Copy, Debug, PartialEq, Eq)]
pub enum SyntaxFault {
    /// The tokens spell none. The line is that of the first token behind the longest run of whole items.
    Syntax { item_line: u32 },
    /// There was not enough memory.
    NoMemory,
}

/// How many nodes may stand on one path of an item.
const MAX_HEIGHT: usize = 64;

/// The one policy that the tokens spell. It is refused as a syntax fault exactly where they spell none.
pub fn parse(alloc: Global, tokens: &[Token]) -> Result<Policy, SyntaxFault>
    requires { length tokens.now < 2 ^ 32 }
    ensures policy { IfOk result (λ policy. Spells tokens.now policy) }
    ensures only { (policy : List PlacedItem) → Spells tokens.now policy → IsTheOne policy result }
    ensures cause { IfErr result (HasCause tokens.now) }
{
    match items(alloc, tokens) {
        Ok((found, rest)) => match rest {
            [first, ..] => Err(SyntaxFault::Syntax {
                item_line: first.line,
            }),
            [] => Ok(Policy::new(found)),
        },
        Err(NoMemory) => Err(SyntaxFault::NoMemory),
    }
}

/// Items as long as one can be read, and the tokens that are left.
fn items(alloc: Global, tokens: &[Token]) -> Result<(Items<PlacedItem>, &[Token]), NoMemory>
    requires { length tokens.now < 2 ^ 32 }
    ensures { IfOk result (λ p. run_read p ≡ read_run (length tokens.now) [] tokens.now) }
{
    let mut found = Items::new(alloc);
    let mut rest = tokens;
    for _ in 0..tokens.len() {
        let Some((one, behind)) = or_none(placed(alloc, rest))? else {
            return Ok((found, rest));
        };
        found.push(one)?;
        rest = behind;
    }
    Ok((found, rest))
}

/// The item with which tokens begin, and the tokens behind it.
fn placed(alloc: Global, tokens: &[Token]) -> Result<(PlacedItem, &[Token]), Unparsed>
    requires { length tokens.now < 2 ^ 32 }
    ensures { Reads placed_read result (read_placed tokens.now) }
{
    let [first, others @ ..] = tokens else {
        return Err(Unparsed::NoMatch);
    };
    let (one, left) = item(alloc, MAX_HEIGHT, tokens)?;
    let behind = &others[others.len() - left.len()..];
    let line = first.line;
    let item = one.tree;
    Ok((PlacedItem { line, item }, behind))
}
