//! Runs: bytes of one kind, as many as bytes begin with.

ghost use Rattle.std.specs.Prelude.{◌≡◌, ◌≤◌, length};
ghost use Rattle.std.specs.Char.{is_ascii_digit};
ghost use Rattle.std.specs.List.{take_while};
ghost use Rattle.hex.specs.Hex.{is_hex_digit};
ghost use Rattle.base_bytes.specs.Words.{is_word_byte};
ghost use Rattle.script.specs.Pieces.{is_space};
ghost use Rattle.script.specs.Tokens.{is_part_byte, is_replica_byte};
ghost use Rattle.script.specs.working.Readers.{past, unspaced};

/// The bytes behind the spaces in front.
#[tactic(auto, unfolding(crate::specs::working::Readers::unspaced))]
pub fn unspaced(bytes: &[u8]) -> &[u8]
    ensures { result.now ≡ unspaced bytes.now }
{
    &bytes[spaces(bytes)..]
}

fn spaces(bytes: &[u8]) -> usize
    ensures value { result ≡ length (take_while is_space bytes.now) }
    ensures within { result ≤ length bytes.now }
{
    bytes.iter().take_while(|byte| **byte == b' ').count()
}

/// The letters, digits and `_` in front, and the bytes behind them.
pub fn word_run(bytes: &[u8]) -> (&[u8], &[u8])
    ensures run { result.0.now ≡ take_while is_word_byte bytes.now }
    ensures rest { result.1.now ≡ past is_word_byte bytes.now }
{
    bytes.split_at(word_length(bytes))
}

fn word_length(bytes: &[u8]) -> usize
    ensures value { result ≡ length (take_while is_word_byte bytes.now) }
    ensures within { result ≤ length bytes.now }
{
    bytes
        .iter()
        .take_while(|byte| byte.is_ascii_alphanumeric() || **byte == b'_')
        .count()
}

/// The decimal digits in front, and the bytes behind them.
pub fn digit_run(bytes: &[u8]) -> (&[u8], &[u8])
    ensures run { result.0.now ≡ take_while is_ascii_digit bytes.now }
    ensures rest { result.1.now ≡ past is_ascii_digit bytes.now }
{
    bytes.split_at(digit_length(bytes))
}

fn digit_length(bytes: &[u8]) -> usize
    ensures value { result ≡ length (take_while is_ascii_digit bytes.now) }
    ensures within { result ≤ length bytes.now }
{
    bytes
        .iter()
        .take_while(|byte| byte.is_ascii_digit())
        .count()
}

/// The hex digits in front, and the bytes behind them.
pub fn hex_run(bytes: &[u8]) -> (&[u8], &[u8])
    ensures run { result.0.now ≡ take_while is_hex_digit bytes.now }
    ensures rest { result.1.now ≡ past is_hex_digit bytes.now }
{
    bytes.split_at(hex_length(bytes))
}

fn hex_length(bytes: &[u8]) -> usize
    ensures value { result ≡ length (take_while is_hex_digit bytes.now) }
    ensures within { result ≤ length bytes.now }
{
    bytes
        .iter()
        .take_while(|byte| byte.is_ascii_hexdigit())
        .count()
}

/// The bytes of a replica's name in front, and the bytes behind them.
pub fn replica_run(bytes: &[u8]) -> (&[u8], &[u8])
    ensures run { result.0.now ≡ take_while is_replica_byte bytes.now }
    ensures rest { result.1.now ≡ past is_replica_byte bytes.now }
{
    bytes.split_at(replica_length(bytes))
}

fn replica_length(bytes: &[u8]) -> usize
    ensures value { result ≡ length (take_while is_replica_byte bytes.now) }
    ensures within { result ≤ length bytes.now }
{
    bytes
        .iter()
        .take_while(|byte| is_replica_byte(**byte))
        .count()
}

/// The bytes that are no spaces in front, and the bytes behind them.
pub fn part_run(bytes: &[u8]) -> (&[u8], &[u8])
    ensures run { result.0.now ≡ take_while is_part_byte bytes.now }
    ensures rest { result.1.now ≡ past is_part_byte bytes.now }
{
    bytes.split_at(part_length(bytes))
}

fn part_length(bytes: &[u8]) -> usize
    ensures value { result ≡ length (take_while is_part_byte bytes.now) }
    ensures within { result ≤ length bytes.now }
{
    bytes.iter().take_while(|byte| **byte != b' ').count()
}

/// Whether a byte may stand in the name of a replica.
pub fn is_replica_byte(byte: u8) -> bool
    ensures { result ≡ is_replica_byte byte }
{
    byte.is_ascii_lowercase() || byte.is_ascii_digit() || byte == b'_'
}
