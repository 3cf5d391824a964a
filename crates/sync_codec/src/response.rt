ghost use Rattle.std.specs.Prelude.{◌≡◌, ◌≤◌, ◌++◌, All, IfNone, IfOk, IfSome, OnOk, length, map, replicate};
ghost use Rattle.std.specs.Int.{w8};
ghost use Rattle.std.specs.List.{concat};
ghost use Rattle.base_bytes.specs.Reading.{Reads, ReadsAll, in_order, listed_at};
ghost use Rattle.command.specs.Reading.{counted_command_at};
ghost use Rattle.command.specs.Wire.{IsInForm, IsWire, wire};
ghost use Rattle.sync_codec.specs.declared.response.Response.{Response};
ghost use Rattle.sync_codec.specs.Messages.{IsResponse, IsResponseInForm, counted_command};
ghost use Rattle.sync_codec.specs.working.Reading.{have_place, response_at};

use crate::front::{PLACES, VERSION, read_front, write_front};
use base_bytes::{Bytes, Id, Ids, NoMemory, Reader, Unread, or_none};
use command::{Command, Commands, read_counted};
use std::alloc::Global;

/// The kind of the message.
const RESPONSE: u8 = 2;

/// The most commands of a response.
const COMMANDS: u8 = 64;

/// Commands of a graph that aren't known from the sample, from a place among them on, and whether more follow.
#[derive(Drop)]
pub struct Response {
    pub graph: Id,
    pub sample: Ids,
    pub from: u32,
    pub more: bool,
    pub commands: Commands,
}

impl Response {
    /// The bytes of the response.
    pub fn to_bytes(&self, alloc: Global) -> Result<Bytes, NoMemory>
        requires { IsResponseInForm self.now }
        ensures { IfOk result (λ bytes. IsResponse self.now bytes) }
    {
        let mut bytes = Bytes::new(alloc);
        bytes.extend(alloc, &[VERSION, RESPONSE])?;
        write_front(alloc, &mut bytes, &self.graph, &self.sample, self.from)?;
        bytes.push(alloc, if self.more { 1 } else { 0 })?;
        bytes.extend(alloc, &(self.commands.len() as u8).to_be_bytes())?;
        write_commands(alloc, &mut bytes, self.commands.as_slice())?;
        Ok(bytes)
    }

    /// The response whose bytes these are, and None exactly where they are those of no response.
    pub fn from_bytes(alloc: Global, bytes: &[u8]) -> Result<Option<Response>, NoMemory>
        ensures found { IfOk result (λ o. IfSome o (λ response. IsResponse response bytes.now)) }
        ensures none { IfOk result (λ o. IfNone o ((response : Response) → IsResponse response bytes.now → ⊥)) }
    {
        or_none(read_whole(alloc, bytes))
    }
}

fn write_commands(alloc: Global, into: &mut Bytes, commands: &[Command]) -> Result<(), NoMemory>
    requires { All IsInForm commands.now }
    ensures told { OnOk result (into.new ≡ into.old ++ concat (map counted_command commands.now)) }
    ensures forms { OnOk result (All (λ command. IsWire command (wire command)) commands.now) }
{
    for command in commands {
        write_command(alloc, into, command)?;
    }
    Ok(())
}

fn write_command(alloc: Global, into: &mut Bytes, command: &Command) -> Result<(), NoMemory>
    requires { IsInForm command.now }
    ensures told { OnOk result (into.new ≡ into.old ++ counted_command command.now) }
    ensures form { OnOk result (IsWire command.now (wire command.now)) }
{
    let bytes = command::to_bytes(alloc, command)?;
    into.extend(alloc, &(bytes.len() as u32).to_be_bytes())?;
    into.extend(alloc, bytes.as_slice())
}

fn read_whole(alloc: Global, bytes: &[u8]) -> Result<Response, Unread>
    ensures { ReadsAll result (response_at bytes.now) }
{
    let mut reader = Reader::new(bytes);
    let response = read_response(alloc, &mut reader)?;
    reader.end()?;
    Ok(response)
}

fn read_response(alloc: Global, reader: &mut Reader) -> Result<Response, Unread>
    ensures { Reads (λ response. response) result reader.new (response_at reader.old) }
{
    if reader.u8()? != VERSION {
        return Err(Unread::Malformed);
    }
    if reader.u8()? != RESPONSE {
        return Err(Unread::Malformed);
    }
    let (graph, sample, from) = read_front(alloc, reader)?;
    let more = reader.flag()?;
    let commands = read_commands(alloc, reader)?;
    if !have_place(from, more, commands.len()) {
        return Err(Unread::Malformed);
    }
    Ok(Response {
        graph,
        sample,
        from,
        more,
        commands,
    })
}

fn have_place(from: u32, more: bool, count: usize) -> bool
    ensures { result ≡ have_place from more count }
{
    from <= PLACES && count <= (PLACES - from) as usize && (!more || count > 0)
}

fn read_commands(alloc: Global, reader: &mut Reader) -> Result<Commands, Unread>
    ensures { Reads (λ commands. commands) result reader.new (listed_at w8 64 counted_command_at reader.old) }
{
    let count = reader.u8()?;
    if count > COMMANDS {
        return Err(Unread::Malformed);
    }
    repeat_command(alloc, count, reader)
}

fn repeat_command(alloc: Global, count: u8, reader: &mut Reader) -> Result<Commands, Unread>
    ensures { Reads (λ commands. commands) result reader.new (in_order (replicate count counted_command_at) reader.old) }
{
    let mut commands = Commands::new(alloc);
    for _ in 0..count {
        commands.push(alloc, read_counted(alloc, reader)?)?;
    }
    Ok(commands)
}
