ghost use Rattle.std.specs.Prelude.{◌≡◌, ◌+◌, ◌^◌, ◌<◌, ◌≤◌, true, IfSome, IsTrue, length};
ghost use Rattle.std.specs.Char.{digit_value, is_ascii_digit};
ghost use Rattle.std.specs.List.{list_all, take_while};
ghost use Rattle.std.specs.Str.Parse.{digits_value};
ghost use Rattle.policy_ast.specs.TokenForms.{number_at, number_behind, number_of};
ghost use Rattle.policy_lex.specs.working.Numbers.{in_range, signed, size_up_to};

use policy_ast::TokenKind;

/// The greatest size of a number, which only a negative one has.
const MOST: u64 = 9223372036854775808;

/// The number that bytes begin with, and how many bytes it takes.
#[tactic(auto, unfolding(policy_ast::specs::TokenForms::number_at))]
pub fn number_at(bytes: &[u8]) -> Option<(TokenKind, usize)>
    ensures number { result ≡ number_at bytes.now }
    ensures some { IfSome result (λ token. 0 < token.1) }
    ensures within { IfSome result (λ token. token.1 ≤ length bytes.now) }
{
    if bytes.starts_with(b"-") {
        number_behind(true, 1, &bytes[1..])
    } else {
        number_behind(false, 0, bytes)
    }
}

/// The number whose digits stand behind a sign of so many bytes.
fn number_behind(is_negative: bool, sign: usize, bytes: &[u8]) -> Option<(TokenKind, usize)>
    requires { sign ≤ 1 }
    ensures number { result ≡ number_behind is_negative sign bytes.now }
    ensures some { IfSome result (λ token. 0 < token.1) }
    ensures within { IfSome result (λ token. token.1 ≤ sign + length bytes.now) }
{
    let digits = digits_of(bytes);
    if digits.is_empty() {
        return None;
    }
    match value_of(is_negative, digits) {
        Some(value) => Some((TokenKind::Number(value), sign + digits.len())),
        None => None,
    }
}

/// The number that a sign and digits write, where it is in range.
fn value_of(is_negative: bool, digits: &[u8]) -> Option<i64>
    requires { IsTrue (list_all is_ascii_digit digits.now) }
    ensures { result ≡ in_range (number_of is_negative digits.now) }
{
    match size_of(digits) {
        Some(size) => signed(is_negative, size),
        None => None,
    }
}

/// The digits that bytes begin with.
#[tactic(auto, using(crate::proofs::Digits::run_of_digits))]
fn digits_of(bytes: &[u8]) -> &[u8]
    ensures run { result.now ≡ take_while is_ascii_digit bytes.now }
    ensures digits { IsTrue (list_all is_ascii_digit result.now) }
    ensures within { length result.now ≤ length bytes.now }
{
    &bytes[..digit_count(bytes)]
}

fn digit_count(bytes: &[u8]) -> usize
    ensures value { result ≡ length (take_while is_ascii_digit bytes.now) }
    ensures within { result ≤ length bytes.now }
{
    bytes
        .iter()
        .take_while(|byte| byte.is_ascii_digit())
        .count()
}

/// The number that digits write, where it is not greater than `MOST`.
fn size_of(digits: &[u8]) -> Option<u64>
    requires { IsTrue (list_all is_ascii_digit digits.now) }
    ensures { result ≡ size_up_to (2 ^ 63) (digits_value 10 digits.now) }
{
    let mut size = 0u64;
    for digit in digits {
        if size > MOST / 10 {
            return None;
        }
        size = size * 10 + digit_value(*digit);
    }
    if size > MOST { None } else { Some(size) }
}

fn digit_value(digit: u8) -> u64
    requires { IsTrue (is_ascii_digit digit) }
    ensures value { result ≡ digit_value digit }
    ensures least { result < 10 }
{
    (digit - b'0') as u64
}

/// The number of this size with its sign, where it is in range.
fn signed(is_negative: bool, size: u64) -> Option<i64>
    requires { size ≤ 2 ^ 63 }
    ensures { result ≡ in_range (signed is_negative size) }
{
    if is_negative {
        Some(negated(size))
    } else if size < MOST {
        Some(size as i64)
    } else {
        None
    }
}

fn negated(size: u64) -> i64
    requires { size ≤ 2 ^ 63 }
    ensures { result ≡ signed true size }
{
    if size == MOST {
        i64::MIN
    } else {
        -(size as i64)
    }
}
