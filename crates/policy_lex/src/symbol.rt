ghost use Rattle.std.specs.Prelude.{◌≡◌, ◌<◌, ◌≤◌, IfSome, length, position, take};
ghost use Rattle.std.specs.Str.{bytes_eq};
ghost use Rattle.policy_ast.specs.Symbols.{symbols};
ghost use Rattle.policy_ast.specs.TokenForms.{sized_symbol, symbol_at};

use policy_ast::{TokenKind, Version};

/// The symbols of version 2, by their places.
const SYMBOLS: [&str; 24] = [
    "{", "}", "[", "]", "(", ")", ",", ":", "::", ".", "?", "=", "=>", "==", "!=", "<", "<=", ">",
    ">=", "&&", "||", "|", "!", "_",
];

/// The longest symbol that bytes begin with, and how many bytes it takes.
#[tactic(auto, unfolding(policy_ast::specs::TokenForms::symbol_at))]
pub fn symbol_at(version: Version, bytes: &[u8]) -> Option<(TokenKind, usize)>
    requires { 0 < length bytes.now }
    ensures symbol { result ≡ symbol_at version bytes.now }
    ensures some { IfSome result (λ token. 0 < token.1) }
    ensures within { IfSome result (λ token. token.1 ≤ length bytes.now) }
{
    sized_symbol(version, first_bytes(bytes, 2)).or(sized_symbol(version, first_bytes(bytes, 1)))
}

/// The first bytes, so many or all where there are no more.
fn first_bytes(bytes: &[u8], count: usize) -> &[u8]
    ensures bytes { result.now ≡ take count bytes.now }
    ensures within { length result.now ≤ length bytes.now }
    ensures some { 0 < count → 0 < length bytes.now → 0 < length result.now }
{
    if count < bytes.len() {
        &bytes[..count]
    } else {
        bytes
    }
}

fn sized_symbol(version: Version, spelled: &[u8]) -> Option<(TokenKind, usize)>
    ensures symbol { result ≡ sized_symbol version spelled.now }
    ensures size { IfSome result (λ token. token.1 ≡ length spelled.now) }
{
    let place = symbol_place(version, spelled)?;
    Some((TokenKind::Symbol(place), spelled.len()))
}

/// The place of a symbol among those of a version.
fn symbol_place(version: Version, spelled: &[u8]) -> Option<u8>
    ensures { result ≡ position (bytes_eq spelled.now) (symbols version) }
{
    match version {
        Version::Two => Some(place_among(&SYMBOLS, spelled)? as u8),
    }
}

fn place_among(words: &[&str], spelled: &[u8]) -> Option<usize>
    ensures place { result ≡ position (λ word. bytes_eq spelled.now word.now) words.now }
    ensures within { IfSome result (λ place. place < length words.now) }
{
    words.iter().position(|word| spelled == word.as_bytes())
}
