//! Tables of policies with their verdicts: what the check of types answers of each is held against the table.

ghost use Rattle.std.specs.Prelude.{◌<◌, ◌^◌, length};

use base_bytes::NoMemory;
use language_tests::Page;
use policy_ast::{Policy, Token};
use policy_check::{TypeFault, check};
use policy_lex::tokens;
use policy_parse::{SyntaxFault, parse};
use std::alloc::Global;

const SEAL: &str = "seal { return envelope::do_seal(serialize(this)) }";

const OPEN: &str = "open { return deserialize(envelope::do_open(envelope)) }";

/// The first row of a table whose policy has another verdict than the row says, with that verdict; an empty text where there is none. A row is a line of
/// the verdict, a colon, a space and what the row shows, and then the policy. `SEAL` and `OPEN` stand for the two sections that are always the same.
pub fn first_difference(alloc: Global, table: &str) -> Result<String, NoMemory> {
    let mut page = Page::new(alloc);
    for row in table.split("# ").skip(1) {
        let (head, source) = row.split_once("\n").unwrap_or((row, ""));
        let (want, title) = head.split_once(": ").unwrap_or((head, ""));
        let found = verdict(alloc, source)?;
        if found.as_str() != want {
            page.put(title);
            page.put(": ");
            page.put(found.as_str());
            break;
        }
    }
    page.into_text()
}

/// `ok N` for a well-typed policy of N items, or its fault and its line. The policy's text begins in line 5 of the document.
pub fn verdict(alloc: Global, source: &str) -> Result<String, NoMemory> {
    let mut page = Page::new(alloc);
    page.put("---\npolicy-version: 2\n---\n```policy\n");
    put_filled(&mut page, source);
    page.put("\n```\n");
    let document = page.into_text()?;
    verdict_of(alloc, document.as_str())
}

fn put_filled(page: &mut Page, source: &str) {
    let mut is_first = true;
    for piece in source.split("SEAL") {
        page.put_between(is_first, SEAL);
        put_open(page, piece);
        is_first = false;
    }
}

fn put_open(page: &mut Page, source: &str) {
    let mut is_first = true;
    for piece in source.split("OPEN") {
        page.put_between(is_first, OPEN);
        page.put(piece);
        is_first = false;
    }
}

/// The same of a whole document.
pub fn verdict_of(alloc: Global, document: &str) -> Result<String, NoMemory> {
    let mut page = Page::new(alloc);
    match found_of(alloc, document)? {
        Found::Items(count) => put_counted(&mut page, "ok ", count),
        Found::Type(line) => put_counted(&mut page, "type, line ", line as usize),
        Found::Syntax(line) => put_counted(&mut page, "syntax, line ", line as usize),
        Found::NoTokens => page.put("no tokens"),
    }
    page.into_text()
}

fn put_counted(page: &mut Page, text: &str, count: usize) {
    page.put(text);
    page.put_count(count);
}

#[derive(Drop)]
enum Found {
    Items(usize),
    Type(u32),
    Syntax(u32),
    NoTokens,
}

fn found_of(alloc: Global, document: &str) -> Result<Found, NoMemory> {
    if document.len() > 1000000 {
        return Err(NoMemory);
    }
    match tokens(alloc, document.as_bytes()) {
        Ok(found) => found_of_tokens(alloc, found.as_slice()),
        Err(_) => Ok(Found::NoTokens),
    }
}

fn found_of_tokens(alloc: Global, tokens: &[Token]) -> Result<Found, NoMemory>
    requires { length tokens.now < 2 ^ 32 }
{
    match parse(alloc, tokens) {
        Ok(policy) => found_of_policy(alloc, policy),
        Err(SyntaxFault::Syntax { item_line }) => Ok(Found::Syntax(item_line)),
        Err(SyntaxFault::NoMemory) => Err(NoMemory),
    }
}

fn found_of_policy(alloc: Global, policy: Policy) -> Result<Found, NoMemory> {
    match check(alloc, policy) {
        Ok(checked) => Ok(Found::Items(checked.policy().items().len())),
        Err(TypeFault::IllTyped { item_line }) => Ok(Found::Type(item_line)),
        Err(TypeFault::NoMemory) => Err(NoMemory),
    }
}
