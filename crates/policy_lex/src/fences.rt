ghost use Rattle.std.specs.Prelude.{◌≡◌, ◌≤◌, length, not};
ghost use Rattle.std.specs.List.{list_any, take_while};
ghost use Rattle.policy_ast.specs.Fences.{backticks, behind_backticks, is_backtick, is_closing, is_fence, opens_policy};
ghost use Rattle.policy_ast.specs.Spaces.{is_space, unindented};

use crate::spaces::{are_spaces, indent, unindented};

/// Whether the line opens a block outside of blocks.
pub fn is_fence(text: &[u8]) -> bool
    ensures { result ≡ is_fence text.now }
{
    indent(text) <= 3 && 3 <= backticks(text) && !has_backtick(behind_backticks(text))
}

/// Whether the line closes a block that so many backticks opened.
pub fn is_closing(count: usize, text: &[u8]) -> bool
    ensures { result ≡ is_closing count text.now }
{
    indent(text) <= 3 && count <= backticks(text) && are_spaces(behind_backticks(text))
}

/// Whether the block that the line opens is a policy block.
pub fn opens_policy(text: &[u8]) -> bool
    ensures { result ≡ opens_policy text.now }
{
    let words = unindented(behind_backticks(text));
    &words[..word_length(words)] == b"policy".as_slice()
}

/// How many bytes there are up to the first space.
fn word_length(text: &[u8]) -> usize
    ensures value { result ≡ length (take_while (λ c. not (is_space c)) text.now) }
    ensures within { result ≤ length text.now }
{
    text.iter().take_while(|byte| **byte != b' ').count()
}

/// How many backticks stand behind the spaces in front of a text.
pub fn backticks(text: &[u8]) -> usize
    ensures value { result ≡ backticks text.now }
    ensures within { result ≤ length (unindented text.now) }
{
    unindented(text)
        .iter()
        .take_while(|byte| **byte == b'`')
        .count()
}

/// What stands behind these.
fn behind_backticks(text: &[u8]) -> &[u8]
    ensures { result.now ≡ behind_backticks text.now }
{
    &unindented(text)[backticks(text)..]
}

fn has_backtick(text: &[u8]) -> bool
    ensures { result ≡ list_any is_backtick text.now }
{
    text.iter().any(|byte| *byte == b'`')
}
