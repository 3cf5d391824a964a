// Replicas of a document, with disks in memory.
ghost use Rattle.std.specs.Prelude.{◌<◌, ◌^◌, length};

use base_bytes::{Bytes, NoMemory, Text, sha256};
use fact_store::Facts;
use graph_set::ListGraph;
use outside::{MemoryDisk, TagEnvelope};
use policy_ast::Token;
use policy_check::check;
use policy_eval::TreeRunner;
use policy_lex::tokens;
use policy_parse::parse;
use replica::Replica;
use std::alloc::Global;

pub type Party = Replica<TreeRunner, ListGraph, Facts, MemoryDisk>;

fn of_tokens(alloc: Global, tokens: &[Token]) -> Result<Option<TreeRunner>, NoMemory>
    requires { length tokens.now < 2 ^ 32 }
{
    let Ok(policy) = parse(alloc, tokens) else {
        return Ok(None);
    };
    match check(alloc, policy) {
        Ok(checked) => Ok(Some(TreeRunner::new(checked))),
        Err(_) => Ok(None),
    }
}

fn runner_of(alloc: Global, document: &str) -> Result<Option<TreeRunner>, NoMemory> {
    if document.len() > 1000000 {
        return Ok(None);
    }
    match tokens(alloc, document.as_bytes()) {
        Ok(found) => of_tokens(alloc, found.as_slice()),
        Err(_) => Ok(None),
    }
}

/// The empty replica of this name under a document, and None where that is no policy, or memory lacks.
pub fn party(alloc: Global, document: &str, name: &str) -> Result<Option<Party>, NoMemory> {
    let Some(runner) = runner_of(alloc, document)? else {
        return Ok(None);
    };
    let name = Text::from_slice(alloc, name)?;
    let digest = sha256(document.as_bytes());
    let disk = MemoryDisk::new(alloc, Bytes::new(alloc), Vec::new(alloc));
    match Replica::open_on::<TagEnvelope>(alloc, runner, &name, &digest, disk, &TagEnvelope) {
        Ok(party) => Ok(Some(party)),
        Err(_) => Ok(None),
    }
}
