ghost use Rattle.std.specs.Prelude.{◌≡◌};
ghost use Rattle.std.specs.List.{list_all};
ghost use Rattle.base_bytes.specs.Words.{begins_with_letter, is_word, is_word_byte};

/// Whether bytes are a word: a letter, then letters, digits and `_`, all of ASCII, at most 64 bytes.
pub fn is_word(bytes: &[u8]) -> bool
    ensures { result ≡ is_word bytes.now }
{
    begins_with_letter(bytes) && are_word_bytes(bytes) && bytes.len() <= 64
}

/// Whether bytes begin with an ASCII letter.
pub fn begins_with_letter(bytes: &[u8]) -> bool
    ensures { result ≡ begins_with_letter bytes.now }
{
    match bytes {
        [first, ..] => first.is_ascii_alphabetic(),
        [] => false,
    }
}

fn are_word_bytes(bytes: &[u8]) -> bool
    ensures { result ≡ list_all is_word_byte bytes.now }
{
    bytes
        .iter()
        .all(|byte| byte.is_ascii_alphanumeric() || *byte == b'_')
}
