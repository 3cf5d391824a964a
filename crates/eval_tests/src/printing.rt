// Each script is run over the policy of its document, by an envelope whose seals fail as the row says.
use crate::loading::runner_of;
use crate::player::played;
use crate::scripts::{SCRIPTS, Script};
use base_bytes::{Bytes, NoMemory, Text};
use outside::{ListEnvelope, author_of};
use std::alloc::Global;
use std::marker::Brand;
use std::sync::ledger::Blank;
use std::test::*;

/// The lines with letters in place of each `%`.
pub fn widened(alloc: Global, lines: &str) -> Result<Bytes, NoMemory> {
    let mut text = Bytes::new(alloc);
    for byte in lines.as_bytes() {
        if *byte == b'%' {
            text.extend(alloc, &[b'x'; 1019])?;
        } else {
            text.push(alloc, *byte)?;
        }
    }
    Ok(text)
}

/// What the script prints, and nothing where the document is no policy or the lines are no script.
fn printed(alloc: Global, script: &Script, name: &str) -> Result<Bytes, NoMemory> {
    let Some(runner) = runner_of(alloc, script.document)? else {
        return Ok(Bytes::new(alloc));
    };
    let author = author_of(&Text::from_slice(alloc, name)?);
    let mut failing = Vec::new(alloc);
    failing.extend_from_slice(script.failing)?;
    let mut env = ListEnvelope::new(alloc, failing);
    let lines = widened(alloc, script.lines)?;
    let lines = lines.as_slice();
    match played::<_, _, Brand>(alloc, &runner, &author, &mut env, lines, Blank::new(1))? {
        Some((_, text)) => Ok(text),
        None => Ok(Bytes::new(alloc)),
    }
}

/// The name of the replica that the script begins with.
fn replica(script: &Script) -> &'static str {
    if script.lines.starts_with("replica alice\n") {
        "alice"
    } else {
        "a"
    }
}

pub fn printed_text(alloc: Global, script: &Script) -> Result<Text, NoMemory> {
    let bytes = printed(alloc, script, replica(script))?;
    match Text::from_utf8(alloc, bytes.as_slice())? {
        Some(text) => Ok(text),
        None => Ok(Text::new(alloc)),
    }
}

#[test]
fn scripts_print_what_is_written(rt: HostRuntime) -> Result<(), Fail> {
    for script in &SCRIPTS {
        let printed = printed_text(rt.alloc(), script)?;
        assert_eq!(rt; printed.as_str(), script.text, "{}", script.title);
    }
    Ok(())
}
