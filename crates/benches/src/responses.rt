ghost use Rattle.std.specs.Prelude.{◌≡◌, ◌≤◌, IfOk, All, length};
ghost use Rattle.command.specs.Wire.{IsInForm};
ghost use Rattle.sync_codec.specs.Messages.{IsResponseInForm};

use base_bytes::{Bytes, Id, Ids, NoMemory, Tag, Text};
use command::{Command, Commands};
use std::alloc::Global;
use sync_codec::Response;

/// What is done with the bytes of a response.
#[derive(Clone, Copy)]
pub enum Call {
    Read,
    Copy,
}

/// Commands of 4,096 or of 100 bytes.
#[derive(Clone, Copy)]
pub enum Size {
    Large,
    Small,
}

/// How many bytes the response has, and the sum of what the rounds answered: the numbers of commands that were read, or the first bytes of the copies.
#[derive(Clone, Copy)]
pub struct Done {
    pub bytes: usize,
    pub sum: u64,
}

fn payload(alloc: Global, size: Size) -> Result<Bytes, NoMemory>
    ensures { IfOk result (λ payload. length payload ≤ 4096) }
{
    match size {
        Size::Large => Bytes::from_slice(alloc, &[7; 4018]),
        Size::Small => Bytes::from_slice(alloc, &[7; 22]),
    }
}

fn basic(alloc: Global, size: Size) -> Result<Command, NoMemory>
    ensures { IfOk result IsInForm }
{
    Ok(Command::Basic {
        cut: None,
        priority: 1,
        parent: Id::new([17; 32]),
        author: Id::new([34; 32]),
        name: Text::from_slice(alloc, "a")?,
        payload: payload(alloc, size)?,
        tag: Tag::from_slice(&[]).unwrap(),
    })
}

fn commands(alloc: Global, size: Size) -> Result<Commands, NoMemory>
    ensures number { IfOk result (λ all. length all ≡ 64) }
    ensures forms { IfOk result (λ all. All IsInForm all) }
{
    let mut all = Commands::new(alloc);
    for _ in 0..64u8 {
        all.push(alloc, basic(alloc, size)?)?;
    }
    Ok(all)
}

fn response(alloc: Global, size: Size) -> Result<Response, NoMemory>
    ensures { IfOk result IsResponseInForm }
{
    Ok(Response {
        graph: Id::new([51; 32]),
        sample: Ids::new(alloc),
        from: 0,
        more: true,
        commands: commands(alloc, size)?,
    })
}

fn read(alloc: Global, bytes: &[u8]) -> Result<u64, NoMemory> {
    match Response::from_bytes(alloc, bytes)? {
        Some(response) => Ok(response.commands.len() as u64),
        None => Ok(0),
    }
}

fn copy(alloc: Global, bytes: &[u8]) -> Result<u64, NoMemory> {
    let copy = Bytes::from_slice(alloc, bytes)?;
    match copy.as_slice() {
        [first, ..] => Ok(u64::from(*first)),
        [] => Ok(0),
    }
}

fn repeat(alloc: Global, call: Call, bytes: &[u8], rounds: u32) -> Result<u64, NoMemory> {
    let mut all = 0u64;
    for _ in 0..rounds {
        let one = match call {
            Call::Read => read(alloc, bytes)?,
            Call::Copy => copy(alloc, bytes)?,
        };
        all = all.saturating_add(one);
    }
    Ok(all)
}

/// Makes the call so many times on the bytes of a response with 64 commands.
pub fn run(alloc: Global, call: Call, size: Size, rounds: u32) -> Result<Done, NoMemory> {
    let bytes = response(alloc, size)?.to_bytes(alloc)?;
    let sum = repeat(alloc, call, bytes.as_slice(), rounds)?;
    Ok(Done {
        bytes: bytes.len(),
        sum,
    })
}
