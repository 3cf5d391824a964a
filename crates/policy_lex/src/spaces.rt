ghost use Rattle.std.specs.Prelude.{◌≡◌, ◌==◌, ◌≤◌, length};
ghost use Rattle.std.specs.List.{take_while, list_all};
ghost use Rattle.policy_ast.specs.Spaces.{indent, is_before_spaces, is_between_spaces, is_space, unindented};

/// How many spaces a text begins with.
pub fn indent(text: &[u8]) -> usize
    ensures value { result ≡ indent text.now }
    ensures within { result ≤ length text.now }
{
    text.iter().take_while(|byte| **byte == b' ').count()
}

/// A text without the spaces in front.
pub fn unindented(text: &[u8]) -> &[u8]
    ensures { result.now ≡ unindented text.now }
{
    &text[indent(text)..]
}

/// Whether there are spaces alone.
pub fn are_spaces(text: &[u8]) -> bool
    ensures { result ≡ list_all is_space text.now }
{
    text.iter().all(|byte| *byte == b' ')
}

/// Whether a text is another one with nothing but spaces behind it.
pub fn is_before_spaces(inner: &[u8], text: &[u8]) -> bool
    ensures { result ≡ is_before_spaces inner.now text.now }
{
    text.starts_with(inner) && are_spaces(&text[inner.len()..])
}

/// Whether a text is another one, spaces around it aside.
pub fn is_between_spaces(inner: &[u8], text: &[u8]) -> bool
    ensures { result ≡ is_between_spaces inner.now text.now }
{
    is_before_spaces(inner, unindented(text))
}
