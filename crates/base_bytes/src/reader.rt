ghost use Rattle.std.specs.Prelude.{◌≡◌, ◌↔◌, [], ◌++◌, length, IsOk, IfOk, IfErr};
ghost use Rattle.std.specs.Int.{w8, w16, w32, w64, cast_signed, from_be_bytes, to_be_bytes};
ghost use Rattle.base_bytes.specs.Pieces.{counted};
ghost use Rattle.base_bytes.specs.Reading.{Reads, bytes_at, counted_at, flag_at, made, number_at};

use crate::{Id, Unread};
use std::marker::Model;

/// Reads bytes from a place on, which contracts see as the bytes from there to the end. A call that reads a value stops
/// behind it. A call that is refused may stop anywhere.
#[derive(Drop)]
pub struct Reader<'a> {
    rest: &'a [u8],
}

impl<'a> Model for Reader<'a> {
    ghost use Rattle.std.specs.Prelude.{List, ℕ};

    ghost Value = { List ℕ };

    ghost view = { λ r. r.rest.now };
}

impl<'a> Reader<'a> {
    /// A reader at the first of the bytes.
    pub fn new(bytes: &'a [u8]) -> Reader<'a>
        ensures { result ≡ bytes.now }
    {
        Reader { rest: bytes }
    }

    /// The next `count` bytes.
    pub fn take(&mut self, count: usize) -> Result<&'a [u8], Unread>
        ensures value { Reads (λ bytes. bytes.now) result self.new (bytes_at count self.old) }
        ensures length { IfOk result (λ bytes. length bytes.now ≡ count) }
        ensures err { IfErr result (λ error. error ≡ Unread.Malformed) }
    {
        if self.rest.len() < count {
            return Err(Unread::Malformed);
        }
        let (front, rest) = self.rest.split_at(count);
        self.rest = rest;
        Ok(front)
    }

    pub fn u8(&mut self) -> Result<u8, Unread>
        ensures value { Reads (λ number. number) result self.new (number_at w8 self.old) }
        ensures err { IfErr result (λ error. error ≡ Unread.Malformed) }
    {
        let bytes = self.take(1)?;
        Ok(u8::from_be_bytes([bytes[0]]))
    }

    /// A truth in one byte: 0 or 1.
    pub fn flag(&mut self) -> Result<bool, Unread>
        ensures value { Reads (λ truth. truth) result self.new (flag_at self.old) }
        ensures err { IfErr result (λ error. error ≡ Unread.Malformed) }
    {
        match self.u8()? {
            0 => Ok(false),
            1 => Ok(true),
            _ => Err(Unread::Malformed),
        }
    }

    pub fn u16(&mut self) -> Result<u16, Unread>
        ensures value { Reads (λ number. number) result self.new (number_at w16 self.old) }
        ensures err { IfErr result (λ error. error ≡ Unread.Malformed) }
    {
        let bytes = self.take(2)?;
        Ok(u16::from_be_bytes([bytes[0], bytes[1]]))
    }

    pub fn u32(&mut self) -> Result<u32, Unread>
        ensures value { Reads (λ number. number) result self.new (number_at w32 self.old) }
        ensures form { IfOk result (λ number. self.old ≡ to_be_bytes w32 number ++ self.new) }
        ensures err { IfErr result (λ error. error ≡ Unread.Malformed) }
    {
        let bytes = self.take(4)?;
        Ok(number_of(bytes))
    }

    /// A number in two's complement.
    pub fn i64(&mut self) -> Result<i64, Unread>
        ensures value { Reads (λ number. number) result self.new (made (cast_signed w64) (number_at w64) self.old) }
        ensures err { IfErr result (λ error. error ≡ Unread.Malformed) }
    {
        let bytes = self.take(8)?;
        Ok(i64::from_be_bytes([
            bytes[0], bytes[1], bytes[2], bytes[3], bytes[4], bytes[5], bytes[6], bytes[7],
        ]))
    }

    pub fn id(&mut self) -> Result<Id, Unread>
        ensures value { Reads (λ id. id) result self.new (bytes_at 32 self.old) }
        ensures err { IfErr result (λ error. error ≡ Unread.Malformed) }
    {
        let bytes = self.take(32)?;
        let mut all = [0; 32];
        all.copy_from_slice(bytes);
        Ok(Id::new(all))
    }

    /// A length in one byte, and that many bytes.
    pub fn counted_u8(&mut self) -> Result<&'a [u8], Unread>
        ensures value { Reads (λ bytes. bytes.now) result self.new (counted_at w8 self.old) }
        ensures err { IfErr result (λ error. error ≡ Unread.Malformed) }
    {
        let count = self.u8()?;
        self.take(count as usize)
    }

    /// A length in two bytes, and that many bytes.
    pub fn counted_u16(&mut self) -> Result<&'a [u8], Unread>
        ensures value { Reads (λ bytes. bytes.now) result self.new (counted_at w16 self.old) }
        ensures err { IfErr result (λ error. error ≡ Unread.Malformed) }
    {
        let count = self.u16()?;
        self.take(count as usize)
    }

    /// A length in four bytes, and that many bytes.
    pub fn counted_u32(&mut self) -> Result<&'a [u8], Unread>
        ensures value { Reads (λ bytes. bytes.now) result self.new (counted_at w32 self.old) }
        ensures form { IfOk result (λ bytes. self.old ≡ counted w32 bytes.now ++ self.new) }
        ensures err { IfErr result (λ error. error ≡ Unread.Malformed) }
    {
        let count = self.u32()?;
        self.take(count as usize)
    }

    /// Refuses where bytes are left.
    pub fn end(&self) -> Result<(), Unread>
        ensures ok { IsOk result ↔ (self.now ≡ []) }
        ensures err { IfErr result (λ error. error ≡ Unread.Malformed) }
    {
        if self.rest.is_empty() {
            Ok(())
        } else {
            Err(Unread::Malformed)
        }
    }
}

// A number's bytes are bytes, so they are told again from it.
fn number_of(bytes: &[u8]) -> u32
    requires { length bytes.now ≡ 4 }
    ensures value { result ≡ from_be_bytes w32 bytes.now }
    ensures back { to_be_bytes w32 result ≡ bytes.now }
{
    u32::from_be_bytes([bytes[0], bytes[1], bytes[2], bytes[3]])
}
