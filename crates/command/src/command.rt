ghost use Rattle.std.specs.Prelude.{◌≡◌, IfOk};

use base_bytes::{Bytes, Id, NoMemory, Tag, Text};
use std::alloc::Global;

/// A command of the graph. Its id isn't among its fields: it is the digest of its bytes. A command of version 1 has no cut, and one
/// of version 2 carries it.
#[derive(Drop)]
pub enum Command {
    /// The first command of a graph. It names the policy by its digest.
    Init {
        cut: Option<u32>,
        digest: Id,
        author: Id,
        name: Text,
        payload: Bytes,
        tag: Tag,
    },
    Basic {
        cut: Option<u32>,
        priority: u32,
        parent: Id,
        author: Id,
        name: Text,
        payload: Bytes,
        tag: Tag,
    },
    Finalize {
        cut: Option<u32>,
        parent: Id,
        author: Id,
        name: Text,
        payload: Bytes,
        tag: Tag,
    },
    /// It joins two heads, of which the left one has the smaller id.
    Merge {
        cut: Option<u32>,
        left: Id,
        right: Id,
    },
}

impl Command {
    pub fn copy(&self, alloc: Global) -> Result<Command, NoMemory>
        ensures { IfOk result (λ command. command ≡ self.now) }
    {
        match self {
            Command::Init {
                cut,
                digest,
                author,
                name,
                payload,
                tag,
            } => Ok(Command::Init {
                cut: *cut,
                digest: *digest,
                author: *author,
                name: name.copy(alloc)?,
                payload: payload.copy(alloc)?,
                tag: tag.copy(),
            }),
            Command::Basic {
                cut,
                priority,
                parent,
                author,
                name,
                payload,
                tag,
            } => Ok(Command::Basic {
                cut: *cut,
                priority: *priority,
                parent: *parent,
                author: *author,
                name: name.copy(alloc)?,
                payload: payload.copy(alloc)?,
                tag: tag.copy(),
            }),
            Command::Finalize {
                cut,
                parent,
                author,
                name,
                payload,
                tag,
            } => Ok(Command::Finalize {
                cut: *cut,
                parent: *parent,
                author: *author,
                name: name.copy(alloc)?,
                payload: payload.copy(alloc)?,
                tag: tag.copy(),
            }),
            Command::Merge { cut, left, right } => Ok(Command::Merge {
                cut: *cut,
                left: *left,
                right: *right,
            }),
        }
    }
}
