ghost use Rattle.std.specs.Prelude.{◌≡◌, ◌<◌, ◌≤◌, IfSome, length, not};
ghost use Rattle.std.specs.List.{take_while};
ghost use Rattle.policy_ast.specs.Lines.{is_line_feed};
ghost use Rattle.policy_ast.specs.TokenForms.{block_comment_at, comment_end, trivia_at, line_comment_at, separator_at};

use crate::prefix::behind;

/// How many bytes of trivia bytes begin with: a separator or a comment.
pub fn trivia_at(bytes: &[u8]) -> Option<usize>
    ensures value { result ≡ trivia_at bytes.now }
    ensures some { IfSome result (λ size. 0 < size) }
    ensures within { IfSome result (λ size. size ≤ length bytes.now) }
{
    separator_at(bytes)
        .or(line_comment_at(bytes))
        .or(block_comment_at(bytes))
}

#[tactic(auto, unfolding(policy_ast::specs::TokenForms::separator_at))]
fn separator_at(bytes: &[u8]) -> Option<usize>
    ensures value { result ≡ separator_at bytes.now }
    ensures some { IfSome result (λ size. 0 < size) }
    ensures within { IfSome result (λ size. size ≤ length bytes.now) }
{
    if bytes.starts_with(b" ") || bytes.starts_with(b"\t") || bytes.starts_with(b"\n") {
        Some(1)
    } else if bytes.starts_with(b"\r\n") {
        Some(2)
    } else {
        None
    }
}

#[tactic(auto, unfolding(policy_ast::specs::TokenForms::line_comment_at))]
fn line_comment_at(bytes: &[u8]) -> Option<usize>
    ensures value { result ≡ line_comment_at bytes.now }
    ensures some { IfSome result (λ size. 0 < size) }
    ensures within { IfSome result (λ size. size ≤ length bytes.now) }
{
    Some(line_length(behind(b"//", bytes)?) + 2)
}

/// How many bytes there are up to the first line feed.
fn line_length(bytes: &[u8]) -> usize
    ensures value { result ≡ length (take_while (λ c. not (is_line_feed c)) bytes.now) }
    ensures within { result ≤ length bytes.now }
{
    bytes.iter().take_while(|byte| **byte != b'\n').count()
}

#[tactic(auto, unfolding(policy_ast::specs::TokenForms::block_comment_at))]
fn block_comment_at(bytes: &[u8]) -> Option<usize>
    ensures value { result ≡ block_comment_at bytes.now }
    ensures some { IfSome result (λ size. 0 < size) }
    ensures within { IfSome result (λ size. size ≤ length bytes.now) }
{
    let rest = behind(b"/*", bytes)?;
    Some(comment_end(rest)? + 2)
}

/// How many bytes there are up to the first `*/`, and with it.
fn comment_end(bytes: &[u8]) -> Option<usize>
    ensures value { result ≡ comment_end bytes.now }
    ensures within { IfSome result (λ size. size ≤ length bytes.now) }
{
    for i in 0..bytes.len() {
        if bytes[i..].starts_with(b"*/") {
            return Some(i + 2);
        }
    }
    None
}
