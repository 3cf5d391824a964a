ghost use Rattle.std.specs.Prelude.{◌≡◌, ◌≤◌, length, IfOk};
ghost use Rattle.command.specs.Wire as form;

use crate::command::Command;
use crate::pieces::Growing;
use crate::writing::{write, write_basic, write_body, write_finalize, write_init};
use base_bytes::{Bytes, Id, NoMemory, Text};
use std::alloc::Global;

/// The bytes of a command, of which there are at most 4,305.
pub fn to_bytes(alloc: Global, command: &Command) -> Result<Bytes, NoMemory>
    requires { form.IsInForm command.now }
    ensures form { IfOk result (λ bytes. form.IsWire command.now bytes) }
    ensures size { IfOk result (λ bytes. length bytes ≤ 4305) }
{
    let mut out = Growing::new(alloc);
    write(&mut out, command)?;
    Ok(out.bytes)
}

/// The part of a command that its tag seals: all before the tag's length. A merge has no tag, and is its own body.
pub fn body_of(alloc: Global, command: &Command) -> Result<Bytes, NoMemory>
    requires { form.IsInForm command.now }
    ensures { IfOk result (λ bytes. bytes ≡ form.body command.now) }
{
    let mut out = Growing::new(alloc);
    write_body(&mut out, command)?;
    Ok(out.bytes)
}

/// The body of an init that has no tag yet.
pub fn init_body(
    alloc: Global,
    cut: Option<u32>,
    digest: &Id,
    author: &Id,
    name: &Text,
    payload: &Bytes,
) -> Result<Bytes, NoMemory>
    requires { form.AreContent name.now payload.now }
    ensures { IfOk result (λ bytes. bytes ≡ form.init_body cut digest.now author.now name.now payload.now) }
{
    let mut out = Growing::new(alloc);
    write_init(&mut out, cut, digest, author, name, payload)?;
    Ok(out.bytes)
}

/// The body of a basic command that has no tag yet.
pub fn basic_body(
    alloc: Global,
    cut: Option<u32>,
    priority: u32,
    parent: &Id,
    author: &Id,
    name: &Text,
    payload: &Bytes,
) -> Result<Bytes, NoMemory>
    requires { form.AreContent name.now payload.now }
    ensures { IfOk result (λ bytes. bytes ≡ form.basic_body cut priority parent.now author.now name.now payload.now) }
{
    let mut out = Growing::new(alloc);
    write_basic(&mut out, cut, priority, parent, author, name, payload)?;
    Ok(out.bytes)
}

/// The body of a finalize that has no tag yet.
pub fn finalize_body(
    alloc: Global,
    cut: Option<u32>,
    parent: &Id,
    author: &Id,
    name: &Text,
    payload: &Bytes,
) -> Result<Bytes, NoMemory>
    requires { form.AreContent name.now payload.now }
    ensures { IfOk result (λ bytes. bytes ≡ form.finalize_body cut parent.now author.now name.now payload.now) }
{
    let mut out = Growing::new(alloc);
    write_finalize(&mut out, cut, parent, author, name, payload)?;
    Ok(out.bytes)
}
