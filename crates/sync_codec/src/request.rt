ghost use Rattle.std.specs.Prelude.{IfNone, IfOk, IfSome};
ghost use Rattle.base_bytes.specs.Reading.{Reads, ReadsAll};
ghost use Rattle.sync_codec.specs.Messages.{IsRequest, IsRequestInForm};
ghost use Rattle.sync_codec.specs.working.Reading.{request_at};
ghost use Rattle.sync_codec.specs.declared.request.Request.{Request};

use crate::front::{PLACES, VERSION, read_front, write_front};
use base_bytes::{Bytes, Id, Ids, NoMemory, Reader, Unread, or_none};
use std::alloc::Global;

/// The kind of the message.
const REQUEST: u8 = 1;

/// Asks for the commands of a graph that aren't known from the sample, from a place among them on.
#[derive(Drop)]
pub struct Request {
    pub graph: Id,
    pub sample: Ids,
    pub from: u32,
}

impl Request {
    /// The bytes of the request.
    pub fn to_bytes(&self, alloc: Global) -> Result<Bytes, NoMemory>
        requires { IsRequestInForm self.now }
        ensures { IfOk result (λ bytes. IsRequest self.now bytes) }
    {
        let mut bytes = Bytes::new(alloc);
        bytes.extend(alloc, &[VERSION, REQUEST])?;
        write_front(alloc, &mut bytes, &self.graph, &self.sample, self.from)?;
        Ok(bytes)
    }

    /// The request whose bytes these are, and None exactly where they are those of no request.
    pub fn from_bytes(alloc: Global, bytes: &[u8]) -> Result<Option<Request>, NoMemory>
        ensures found { IfOk result (λ o. IfSome o (λ request. IsRequest request bytes.now)) }
        ensures none { IfOk result (λ o. IfNone o ((request : Request) → IsRequest request bytes.now → ⊥)) }
    {
        or_none(read_whole(alloc, bytes))
    }
}

fn read_whole(alloc: Global, bytes: &[u8]) -> Result<Request, Unread>
    ensures { ReadsAll result (request_at bytes.now) }
{
    let mut reader = Reader::new(bytes);
    let request = read_request(alloc, &mut reader)?;
    reader.end()?;
    Ok(request)
}

fn read_request(alloc: Global, reader: &mut Reader) -> Result<Request, Unread>
    ensures { Reads (λ request. request) result reader.new (request_at reader.old) }
{
    if reader.u8()? != VERSION {
        return Err(Unread::Malformed);
    }
    if reader.u8()? != REQUEST {
        return Err(Unread::Malformed);
    }
    let (graph, sample, from) = read_front(alloc, reader)?;
    if from > PLACES {
        return Err(Unread::Malformed);
    }
    Ok(Request {
        graph,
        sample,
        from,
    })
}
