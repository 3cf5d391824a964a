//! Bytes and ids that hex digits write.

ghost use Rattle.std.specs.Prelude.{◌≡◌, IfOk, length};
ghost use Rattle.hex.specs.Hex.{is_hex_digit};
ghost use Rattle.script.specs.Tokens.{bytes_of_hex, id_of_hex, some_bytes_of_hex};
ghost use Rattle.base_bytes.specs.declared.arg.Arg.TheVariants as arg;
ghost use Rattle.script.specs.working.ReadingArguments.{making};
ghost use Rattle.script.specs.working.Readers.{Reads, run_at, seen};
ghost use Rattle.script.specs.working.ReadingTokens.{part_at};

use crate::runs::{hex_run, part_run, unspaced};
use base_bytes::{Arg, Bytes, Id, NoMemory, Unread};
use hex::FromHexError;
use std::alloc::Global;

/// The bytes that hex digits write; None where they write none.
fn decoded(alloc: Global, digits: &[u8]) -> Result<Option<Bytes>, NoMemory>
    ensures { IfOk result (λ o. o ≡ bytes_of_hex digits.now) }
{
    match hex::decode(alloc, digits) {
        Ok(bytes) => Ok(Some(Bytes::from_vec(bytes))),
        Err(FromHexError::OutOfMemory) => Err(NoMemory),
        Err(_) => Ok(None),
    }
}

/// The bytes that the hex digits in front write, and the bytes behind them.
pub fn hex<'a>(alloc: Global, bytes: &'a [u8]) -> Result<(Bytes, &'a [u8]), Unread>
    ensures { Reads seen result (run_at is_hex_digit bytes_of_hex bytes.now) }
{
    let (run, rest) = hex_run(bytes);
    match decoded(alloc, run)? {
        Some(bytes) => Ok((bytes, rest)),
        None => Err(Unread::Malformed),
    }
}

/// The bytes that the next part of a line writes, one at least, and the bytes behind it.
pub fn hex_part<'a>(alloc: Global, bytes: &'a [u8]) -> Result<(Bytes, &'a [u8]), Unread>
    ensures { Reads seen result (part_at some_bytes_of_hex bytes.now) }
{
    let (run, rest) = part_run(unspaced(bytes));
    match decoded(alloc, run)? {
        Some(bytes) if bytes.len() != 0 => Ok((bytes, rest)),
        _ => Err(Unread::Malformed),
    }
}

/// The argument that is the id which the hex digits in front write, and the bytes behind them.
pub fn id<'a>(alloc: Global, bytes: &'a [u8]) -> Result<(Arg, &'a [u8]), Unread>
    ensures { Reads seen result (making arg.Ident (run_at is_hex_digit id_of_hex bytes.now)) }
{
    let (run, rest) = hex_run(bytes);
    match decoded(alloc, run)? {
        Some(bytes) if bytes.len() == 32 => Ok((Arg::Ident(id_of(bytes.as_slice())), rest)),
        _ => Err(Unread::Malformed),
    }
}

/// The id of 32 bytes.
fn id_of(bytes: &[u8]) -> Id
    requires { length bytes.now ≡ 32 }
    ensures { result ≡ bytes.now }
{
    let mut all = [0; 32];
    all.copy_from_slice(bytes);
    Id::new(all)
}
