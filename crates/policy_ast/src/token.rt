use base_bytes::Text;

/// What a token is.
#[derive(Drop)]
pub enum TokenKind {
    /// A word with its text, reserved or not.
    Word(Text),
    /// A decimal number with its value.
    Number(i64),
    /// A text in quotation marks, with its escapes resolved.
    Quoted(Text),
    /// A symbol by its place in the list of symbols, as the constants of `symbols` give it.
    Symbol(u8),
}

/// A token and where it stands: its line, counted from 1, and the slice `start..end` of the document's bytes.
#[derive(Drop)]
pub struct Token {
    pub kind: TokenKind,
    pub line: u32,
    pub start: usize,
    pub end: usize,
}
