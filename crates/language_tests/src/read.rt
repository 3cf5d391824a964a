//! Reads a document by `tokens` and `parse`, and shows what comes of it.

ghost use Rattle.std.specs.Prelude.{◌<◌, ◌^◌, length};

use crate::page::Page;
use crate::shown_item::{kind_of, put_items};
use base_bytes::NoMemory;
use policy_ast::{PlacedItem, Policy, Token};
use policy_lex::tokens;
use policy_parse::{SyntaxFault, parse};
use std::alloc::Global;

/// The items of a document, or `syntax, line N`, or `no tokens`.
pub fn items_shown(alloc: Global, document: &str) -> Result<String, NoMemory> {
    let mut page = Page::new(alloc);
    match policy_of(alloc, document)? {
        Reading::Policy(policy) => put_items(&mut page, policy.items()),
        other => put_fault(&mut page, &other),
    }
    page.into_text()
}

/// The same of a document with one policy block, which has this text between a front and a back.
pub fn block_shown(
    alloc: Global,
    front: &str,
    source: &str,
    back: &str,
) -> Result<String, NoMemory> {
    let block = joined(alloc, front, source, back)?;
    let document = joined(
        alloc,
        "---\npolicy-version: 2\n---\n```policy\n",
        block.as_str(),
        "\n```\n",
    )?;
    items_shown(alloc, document.as_str())
}

pub fn joined(alloc: Global, front: &str, middle: &str, back: &str) -> Result<String, NoMemory> {
    let mut page = Page::new(alloc);
    page.put(front);
    page.put(middle);
    page.put(back);
    page.into_text()
}

const KINDS: [&str; 11] = [
    "use",
    "let",
    "enum",
    "struct",
    "effect",
    "fact",
    "immutable fact",
    "command",
    "function",
    "finish function",
    "action",
];

/// How many items a document has, in all and of each kind that it has, or a fault as above.
pub fn kinds_shown(alloc: Global, document: &str) -> Result<String, NoMemory> {
    let mut page = Page::new(alloc);
    match policy_of(alloc, document)? {
        Reading::Policy(policy) => put_kinds(&mut page, policy.items()),
        other => put_fault(&mut page, &other),
    }
    page.into_text()
}

#[derive(Drop)]
enum Reading {
    Policy(Policy),
    Syntax(u32),
    NoTokens,
}

fn policy_of(alloc: Global, document: &str) -> Result<Reading, NoMemory> {
    if document.len() > 100000 {
        return Err(NoMemory);
    }
    match tokens(alloc, document.as_bytes()) {
        Ok(found) => policy_of_tokens(alloc, found.as_slice()),
        Err(_) => Ok(Reading::NoTokens),
    }
}

fn policy_of_tokens(alloc: Global, tokens: &[Token]) -> Result<Reading, NoMemory>
    requires { length tokens.now < 2 ^ 32 }
{
    match parse(alloc, tokens) {
        Ok(policy) => Ok(Reading::Policy(policy)),
        Err(SyntaxFault::Syntax { item_line }) => Ok(Reading::Syntax(item_line)),
        Err(SyntaxFault::NoMemory) => Err(NoMemory),
    }
}

fn put_fault(page: &mut Page, reading: &Reading) {
    match reading {
        Reading::Syntax(line) => {
            page.put("syntax, line ");
            page.put_number(*line as i64);
        }
        _ => page.put("no tokens"),
    }
}

fn put_kinds(page: &mut Page, items: &[PlacedItem]) {
    page.put_count(items.len());
    for kind in KINDS {
        let count = items
            .iter()
            .filter(|placed| kind_of(&placed.item) == kind)
            .count();
        if count > 0 {
            page.put(", ");
            page.put_count(count);
            page.put(" ");
            page.put(kind);
        }
    }
}
