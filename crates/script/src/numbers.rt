//! Numbers: arguments, and the numbers of messages.

ghost use Rattle.std.specs.Prelude.{◌≡◌, ◌+◌, ◌^◌, ◌<◌, ◌≤◌, true, IsTrue, length};
ghost use Rattle.std.specs.Char.{digit_value, is_ascii_digit};
ghost use Rattle.std.specs.List.{list_all, take_while};
ghost use Rattle.std.specs.Str.Parse.{digits_value};
ghost use Rattle.script.specs.Tokens.{int_of, message_number, number_of};
ghost use Rattle.script.specs.working.Numbers.{in_range, signed, size_up_to, word_up_to};
ghost use Rattle.script.specs.working.Readers.{Reads, run_at, seen};
ghost use Rattle.script.specs.working.ReadingTokens.{number_at, part_at};

use crate::marks::after;
use crate::runs::{digit_run, part_run, unspaced};
use base_bytes::Unread;

/// The greatest size of a number, which only a negative one has.
const MOST: u64 = 9223372036854775808;

/// The number that bytes begin with, and the bytes behind it.
pub fn number(bytes: &[u8]) -> Result<(i64, &[u8]), Unread>
    ensures { Reads seen result (number_at bytes.now) }
{
    match after(b"-", bytes) {
        Some(digits) => number_of(true, digits),
        None => number_of(false, bytes),
    }
}

/// The number whose digits bytes begin with, and the bytes behind them.
#[tactic(auto, using(crate::proofs::DigitRuns::run_of_digits))]
fn number_of(is_negative: bool, bytes: &[u8]) -> Result<(i64, &[u8]), Unread>
    ensures { Reads seen result (run_at is_ascii_digit (int_of is_negative) bytes.now) }
{
    let (digits, rest) = digit_run(bytes);
    match value_of(is_negative, digits) {
        Some(value) if !digits.is_empty() => Ok((value, rest)),
        _ => Err(Unread::Malformed),
    }
}

/// The number that a sign and digits write, where it is in range.
fn value_of(is_negative: bool, digits: &[u8]) -> Option<i64>
    requires { IsTrue (list_all is_ascii_digit digits.now) }
    ensures { result ≡ in_range (number_of is_negative digits.now) }
{
    match size_of(digits) {
        Some(size) => signed(is_negative, size),
        None => None,
    }
}

/// The number that digits write, where it is not greater than `MOST`.
fn size_of(digits: &[u8]) -> Option<u64>
    requires { IsTrue (list_all is_ascii_digit digits.now) }
    ensures { result ≡ size_up_to (2 ^ 63) (digits_value 10 digits.now) }
{
    let mut size = 0u64;
    for digit in digits {
        if size > MOST / 10 {
            return None;
        }
        size = size * 10 + digit_value(*digit);
    }
    if size > MOST { None } else { Some(size) }
}

fn digit_value(digit: u8) -> u64
    requires { IsTrue (is_ascii_digit digit) }
    ensures value { result ≡ digit_value digit }
    ensures least { result < 10 }
{
    (digit - b'0') as u64
}

/// The number of this size with its sign, where it is in range.
fn signed(is_negative: bool, size: u64) -> Option<i64>
    requires { size ≤ 2 ^ 63 }
    ensures { result ≡ in_range (signed is_negative size) }
{
    if is_negative {
        Some(negated(size))
    } else if size < MOST {
        Some(size as i64)
    } else {
        None
    }
}

fn negated(size: u64) -> i64
    requires { size ≤ 2 ^ 63 }
    ensures { result ≡ signed true size }
{
    if size == MOST {
        i64::MIN
    } else {
        -(size as i64)
    }
}

/// The number of a message as the next part of a line, and the bytes behind it.
pub fn message_number(bytes: &[u8]) -> Result<(u32, &[u8]), Unread>
    ensures { Reads seen result (part_at message_number bytes.now) }
{
    let (digits, rest) = part_run(unspaced(bytes));
    match number_from_one(digits) {
        Some(number) => Ok((number, rest)),
        None => Err(Unread::Malformed),
    }
}

/// The number that decimal digits write, where no zero stands first.
fn number_from_one(digits: &[u8]) -> Option<u32>
    ensures { result ≡ message_number digits.now }
{
    match digits {
        [b'1'..=b'9', ..] if are_digits(digits) => word_of(digits),
        _ => None,
    }
}

fn are_digits(digits: &[u8]) -> bool
    ensures { result ≡ list_all is_ascii_digit digits.now }
{
    digits.iter().all(|digit| digit.is_ascii_digit())
}

/// The number that digits write, where 32 bits hold it.
fn word_of(digits: &[u8]) -> Option<u32>
    requires { IsTrue (list_all is_ascii_digit digits.now) }
    ensures { result ≡ word_up_to (digits_value 10 digits.now) }
{
    match size_of(digits) {
        Some(size) if size <= u32::MAX as u64 => Some(size as u32),
        _ => None,
    }
}
