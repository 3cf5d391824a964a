ghost use Rattle.std.specs.Prelude.{◌≡◌, ◌≤◌, ◌++◌, All, length, map, replicate, OnOk};
ghost use Rattle.std.specs.Int.{w8};
ghost use Rattle.std.specs.List.{concat};
ghost use Rattle.base_bytes.specs.Reading.{Reads, bytes_at, in_order, listed_at};
ghost use Rattle.sync_codec.specs.Messages.{HaveIds, front};
ghost use Rattle.sync_codec.specs.working.Reading.{front_at};

use base_bytes::{Bytes, Id, Ids, NoMemory, Reader, Unread};
use std::alloc::Global;

/// The version of the form.
pub const VERSION: u8 = 1;

/// The furthest place: as many commands as a replica can hold.
pub const PLACES: u32 = 65536;

/// The most ids of a sample.
const IDS: u8 = 32;

pub fn write_front(
    alloc: Global,
    into: &mut Bytes,
    graph: &Id,
    sample: &Ids,
    from: u32,
) -> Result<(), NoMemory>
    requires { length sample.now ≤ 32 }
    ensures told { OnOk result (into.new ≡ into.old ++ front graph.now sample.now from) }
    ensures ids { OnOk result (HaveIds graph.now sample.now) }
{
    into.extend(alloc, graph.as_slice())?;
    into.extend(alloc, &(sample.len() as u8).to_be_bytes())?;
    write_ids(alloc, into, sample.as_slice())?;
    into.extend(alloc, &from.to_be_bytes())
}

fn write_ids(alloc: Global, into: &mut Bytes, ids: &[Id]) -> Result<(), NoMemory>
    ensures told { OnOk result (into.new ≡ into.old ++ concat (map (λ id. id) ids.now)) }
    ensures sizes { OnOk result (All (λ id. length id ≡ 32) ids.now) }
{
    for id in ids {
        into.extend(alloc, id.as_slice())?;
    }
    Ok(())
}

pub fn read_front(alloc: Global, reader: &mut Reader) -> Result<(Id, Ids, u32), Unread>
    ensures { Reads (λ found. (found.0, (found.1, found.2))) result reader.new (front_at reader.old) }
{
    let graph = reader.id()?;
    let sample = read_ids(alloc, reader)?;
    let from = reader.u32()?;
    Ok((graph, sample, from))
}

fn read_ids(alloc: Global, reader: &mut Reader) -> Result<Ids, Unread>
    ensures { Reads (λ ids. ids) result reader.new (listed_at w8 32 (bytes_at 32) reader.old) }
{
    let count = reader.u8()?;
    if count > IDS {
        return Err(Unread::Malformed);
    }
    repeat_id(alloc, count, reader)
}

fn repeat_id(alloc: Global, count: u8, reader: &mut Reader) -> Result<Ids, Unread>
    ensures { Reads (λ ids. ids) result reader.new (in_order (replicate count (bytes_at 32)) reader.old) }
{
    let mut ids = Ids::new(alloc);
    for _ in 0..count {
        ids.push(alloc, reader.id()?)?;
    }
    Ok(ids)
}
