use base_bytes::NoMemory;
use policy_ast::{Token, TokenKind};
use policy_lex::{LexFault, tokens};
use std::alloc::Global;

/// The tokens of a document, each by its text, its number, its text in quotation marks or the place of its symbol in `<>`,
/// or the fault with its line.
pub fn shown(alloc: Global, document: &str) -> Result<String, NoMemory> {
    shown_bytes(alloc, document.as_bytes())
}

/// The same of bytes.
pub fn shown_bytes(alloc: Global, document: &[u8]) -> Result<String, NoMemory> {
    if document.len() > 10000 {
        return Err(NoMemory);
    }
    match tokens(alloc, document) {
        Ok(found) => all_shown(alloc, found.as_slice()),
        Err(fault) => fault_shown(alloc, fault),
    }
}

fn all_shown(alloc: Global, tokens: &[Token]) -> Result<String, NoMemory> {
    let mut text = String::new(alloc);
    for token in tokens {
        let piece = kind_shown(alloc, &token.kind)?;
        if !text.is_empty() {
            text.push_str(" ")?;
        }
        text.push_str(piece.as_str())?;
    }
    Ok(text)
}

fn kind_shown(alloc: Global, kind: &TokenKind) -> Result<String, NoMemory> {
    let text = match kind {
        TokenKind::Word(word) => format!(in alloc; "{}", word.as_str())?,
        TokenKind::Number(number) => format!(in alloc; "{number}")?,
        TokenKind::Quoted(text) => format!(in alloc; "\"{}\"", text.as_str())?,
        TokenKind::Symbol(place) => format!(in alloc; "<{place}>")?,
    };
    Ok(text)
}

fn fault_shown(alloc: Global, fault: LexFault) -> Result<String, NoMemory> {
    let text = match fault {
        LexFault::NotUtf8(line) => format!(in alloc; "not UTF-8, line {line}")?,
        LexFault::NoFrontMatter => format!(in alloc; "no front matter")?,
        LexFault::WrongVersion(line) => format!(in alloc; "wrong version, line {line}")?,
        LexFault::OpenBlock(line) => format!(in alloc; "open block, line {line}")?,
        LexFault::BadToken(line) => format!(in alloc; "bad token, line {line}")?,
        LexFault::NoMemory => return Err(NoMemory),
    };
    Ok(text)
}
