ghost use Rattle.std.specs.Prelude.{◌≡◌, ℕ, List, IfErr, IfNone, IfOk, IfSome};
ghost use Rattle.base_bytes.specs.Reading.{Reads, ReadsAll};
ghost use Rattle.command.specs.Reading as reading;
ghost use Rattle.command.specs.Wire.{IsCountedFront, IsWire};
ghost use Rattle.command.specs.declared.command.Command.{Command};

use crate::command::Command;
use crate::writing::{BASIC, FINALIZE, INIT, MERGE, PLAIN, WITH_CUT};
use base_bytes::{Bytes, NoMemory, Reader, Tag, Text, Unread, is_word, or_none};
use std::alloc::Global;
use std::cmp::Ordering;

/// The command whose bytes these are, and None exactly where they are those of no command.
pub fn from_bytes(alloc: Global, bytes: &[u8]) -> Result<Option<Command>, NoMemory>
    ensures found { IfOk result (λ o. IfSome o (λ command. IsWire command bytes.now)) }
    ensures none { IfOk result (λ o. IfNone o ((command : Command) → IsWire command bytes.now → ⊥)) }
{
    or_none(read_whole(alloc, bytes))
}

/// The next command, which has its length in four bytes before it. After a refusal or running out of memory the reader's place
/// is left open.
pub fn read_counted(alloc: Global, reader: &mut Reader) -> Result<Command, Unread>
    ensures read { Reads (λ command. command) result reader.new (reading.counted_command_at reader.old) }
    ensures found { IfOk result (λ command. IsCountedFront command reader.new reader.old) }
    ensures none { IfErr result (λ error. error ≡ Unread.Malformed → (command : Command) (rest : List ℕ) → IsCountedFront command rest reader.old → ⊥) }
{
    let bytes = reader.counted_u32()?;
    read_whole(alloc, bytes)
}

fn read_whole(alloc: Global, bytes: &[u8]) -> Result<Command, Unread>
    ensures read { ReadsAll result (reading.command_at bytes.now) }
    ensures form { IfOk result (λ command. IsWire command bytes.now) }
{
    let mut reader = Reader::new(bytes);
    let command = read_command(alloc, &mut reader)?;
    reader.end()?;
    Ok(command)
}

fn read_command(alloc: Global, reader: &mut Reader) -> Result<Command, Unread>
    ensures { Reads (λ command. command) result reader.new (reading.command_at reader.old) }
{
    let (kind, cut) = read_header(reader)?;
    read_kind(alloc, reader, cut, kind)
}

fn read_header(reader: &mut Reader) -> Result<(u8, Option<u32>), Unread>
    ensures { Reads (λ front. front) result reader.new (reading.header_at reader.old) }
{
    match reader.u8()? {
        PLAIN => Ok((reader.u8()?, None)),
        WITH_CUT => {
            let kind = reader.u8()?;
            let cut = reader.u32()?;
            Ok((kind, Some(cut)))
        }
        _ => Err(Unread::Malformed),
    }
}

fn read_kind(
    alloc: Global,
    reader: &mut Reader,
    cut: Option<u32>,
    kind: u8,
) -> Result<Command, Unread>
    ensures { Reads (λ command. command) result reader.new (reading.kind_at cut kind reader.old) }
{
    match kind {
        INIT => read_init(alloc, reader, cut),
        BASIC => read_basic(alloc, reader, cut),
        FINALIZE => read_finalize(alloc, reader, cut),
        MERGE => read_merge(reader, cut),
        _ => Err(Unread::Malformed),
    }
}

fn read_init(alloc: Global, reader: &mut Reader, cut: Option<u32>) -> Result<Command, Unread>
    ensures { Reads (λ command. command) result reader.new (reading.init_at cut reader.old) }
{
    let digest = reader.id()?;
    let author = reader.id()?;
    let (name, payload, tag) = read_content(alloc, reader)?;
    Ok(Command::Init {
        cut,
        digest,
        author,
        name,
        payload,
        tag,
    })
}

fn read_basic(alloc: Global, reader: &mut Reader, cut: Option<u32>) -> Result<Command, Unread>
    ensures { Reads (λ command. command) result reader.new (reading.basic_at cut reader.old) }
{
    let priority = reader.u32()?;
    let parent = reader.id()?;
    let author = reader.id()?;
    let (name, payload, tag) = read_content(alloc, reader)?;
    Ok(Command::Basic {
        cut,
        priority,
        parent,
        author,
        name,
        payload,
        tag,
    })
}

fn read_finalize(alloc: Global, reader: &mut Reader, cut: Option<u32>) -> Result<Command, Unread>
    ensures { Reads (λ command. command) result reader.new (reading.finalize_at cut reader.old) }
{
    let parent = reader.id()?;
    let author = reader.id()?;
    let (name, payload, tag) = read_content(alloc, reader)?;
    Ok(Command::Finalize {
        cut,
        parent,
        author,
        name,
        payload,
        tag,
    })
}

fn read_merge(reader: &mut Reader, cut: Option<u32>) -> Result<Command, Unread>
    ensures { Reads (λ command. command) result reader.new (reading.merge_at cut reader.old) }
{
    let left = reader.id()?;
    let right = reader.id()?;
    match left.cmp(&right) {
        Ordering::Less => Ok(Command::Merge { cut, left, right }),
        _ => Err(Unread::Malformed),
    }
}

fn read_content(alloc: Global, reader: &mut Reader) -> Result<(Text, Bytes, Tag), Unread>
    ensures { Reads (λ content. (content.0, (content.1, content.2))) result reader.new (reading.content_at reader.old) }
{
    let name = read_name(alloc, reader)?;
    let payload = read_payload(alloc, reader)?;
    let tag = read_tag(reader)?;
    Ok((name, payload, tag))
}

fn read_name(alloc: Global, reader: &mut Reader) -> Result<Text, Unread>
    ensures { Reads (λ name. name) result reader.new (reading.name_at reader.old) }
{
    let bytes = reader.counted_u16()?;
    if !is_word(bytes) {
        return Err(Unread::Malformed);
    }
    match Text::from_utf8(alloc, bytes)? {
        Some(name) => Ok(name),
        None => unreachable!("a word is ASCII"),
    }
}

fn read_payload(alloc: Global, reader: &mut Reader) -> Result<Bytes, Unread>
    ensures { Reads (λ payload. payload) result reader.new (reading.payload_at reader.old) }
{
    let bytes = reader.counted_u32()?;
    if bytes.len() > 4096 {
        return Err(Unread::Malformed);
    }
    Ok(Bytes::from_slice(alloc, bytes)?)
}

fn read_tag(reader: &mut Reader) -> Result<Tag, Unread>
    ensures { Reads (λ tag. tag) result reader.new (reading.tag_at reader.old) }
{
    let bytes = reader.counted_u8()?;
    match Tag::from_slice(bytes) {
        Some(tag) => Ok(tag),
        None => Err(Unread::Malformed),
    }
}
