ghost use Rattle.std.specs.Prelude.{IfOk};
ghost use Rattle.base_bytes.specs.Reaching.{NoneReachesItself};

use base_bytes::{Bytes, NoMemory, Shape, Shapes, Ty, decode_value, encode_value};
use command::{from_bytes, to_bytes};
use sqlite_items::Items;
use std::alloc::Global;
use std::test::Fail;
use sync_codec::{Request, Response};

/// One of the four forms of bytes. The payload is that of a note: a text, a number and a text.
#[derive(Clone, Copy, Debug)]
pub enum Form {
    Note,
    Command,
    Request,
    Response,
}

fn note_shapes(alloc: Global) -> Result<Shapes, NoMemory>
    ensures { IfOk result NoneReachesItself }
{
    let mut types = Items::new(alloc);
    types.push(Ty::Str)?;
    types.push(Ty::Int)?;
    types.push(Ty::Str)?;
    let mut items = Items::new(alloc);
    items.push(Shape::Fields(types))?;
    Ok(Shapes { items })
}

fn note_again(alloc: Global, bytes: &[u8]) -> Result<Option<Bytes>, NoMemory> {
    let shapes = note_shapes(alloc)?;
    let Some(value) = decode_value(alloc, &shapes, &Ty::Struct(0), bytes)? else {
        return Ok(None);
    };
    let mut again = Bytes::new(alloc);
    encode_value(alloc, &value, &mut again)?;
    Ok(Some(again))
}

fn command_again(alloc: Global, bytes: &[u8]) -> Result<Option<Bytes>, NoMemory> {
    match from_bytes(alloc, bytes)? {
        Some(command) => Ok(Some(to_bytes(alloc, &command)?)),
        None => Ok(None),
    }
}

fn request_again(alloc: Global, bytes: &[u8]) -> Result<Option<Bytes>, NoMemory> {
    match Request::from_bytes(alloc, bytes)? {
        Some(request) => Ok(Some(request.to_bytes(alloc)?)),
        None => Ok(None),
    }
}

fn response_again(alloc: Global, bytes: &[u8]) -> Result<Option<Bytes>, NoMemory> {
    match Response::from_bytes(alloc, bytes)? {
        Some(response) => Ok(Some(response.to_bytes(alloc)?)),
        None => Ok(None),
    }
}

/// What is read of the bytes in a form, written again; None where they are refused.
pub fn written_again(alloc: Global, form: Form, bytes: &[u8]) -> Result<Option<Bytes>, NoMemory> {
    match form {
        Form::Note => note_again(alloc, bytes),
        Form::Command => command_again(alloc, bytes),
        Form::Request => request_again(alloc, bytes),
        Form::Response => response_again(alloc, bytes),
    }
}

/// The bytes of a text in hex, in which spaces may stand.
pub fn bytes_of(alloc: Global, text: &str) -> Result<Vec<u8>, Fail> {
    let mut digits = String::new(alloc);
    for piece in text.split(' ') {
        digits.push_str(piece)?;
    }
    Ok(hex::decode(alloc, digits.as_str())?)
}
