ghost use Rattle.std.specs.Prelude.{◌≡◌, ◌++◌, length, ◌<◌, ◌≤◌, ◌^◌, OnOk};
ghost use Rattle.command.specs.working.Taking.{Adds};
ghost use Rattle.std.specs.Int.{w8, w32, to_be_bytes};
ghost use Rattle.base_bytes.specs.Pieces.{counted};
ghost use Rattle.command.specs.Kinds.{carried};
ghost use Rattle.command.specs.Wire as form;

use crate::command::Command;
use crate::pieces::Pieces;
use base_bytes::{Bytes, Id, Tag, Text};

/// The version of the form in which no cut stands.
pub const PLAIN: u8 = 1;

/// The version in which the cut stands behind the kind.
pub const WITH_CUT: u8 = 2;

pub const INIT: u8 = 0;

pub const BASIC: u8 = 1;

pub const FINALIZE: u8 = 2;

pub const MERGE: u8 = 3;

fn write_id<P: Pieces>(out: &mut P, id: &Id) -> Result<(), P::Refusal>
    ensures told { OnOk result (Adds P.holds out.old id.now out.new) }
    ensures size { length id.now ≡ 32 }
{
    let bytes = id.as_slice();
    out.add(bytes)
}

fn write_content<P: Pieces>(out: &mut P, name: &Text, payload: &Bytes) -> Result<(), P::Refusal>
    requires { form.AreContent name.now payload.now }
    ensures { OnOk result (Adds P.holds out.old (form.content name.now payload.now) out.new) }
{
    out.add(&(name.len() as u16).to_be_bytes())?;
    out.add(name.as_slice())?;
    write_payload(out, payload)
}

fn write_payload<P: Pieces>(out: &mut P, payload: &Bytes) -> Result<(), P::Refusal>
    requires { length payload.now ≤ 4096 }
    ensures { OnOk result (Adds P.holds out.old (counted w32 payload.now) out.new) }
{
    out.add(&(payload.len() as u32).to_be_bytes())?;
    out.add(payload.as_slice())
}

fn write_tag<P: Pieces>(out: &mut P, tag: &Tag) -> Result<(), P::Refusal>
    ensures told { OnOk result (Adds P.holds out.old (counted w8 tag.now) out.new) }
    ensures size { length tag.now ≤ 64 }
{
    let bytes = tag.as_slice();
    out.add(&(bytes.len() as u8).to_be_bytes())?;
    out.add(bytes)
}

/// The version, the kind, and the cut where there is one.
fn write_header<P: Pieces>(out: &mut P, cut: Option<u32>, kind: u8) -> Result<(), P::Refusal>
    ensures told { OnOk result (Adds P.holds out.old (form.header cut kind) out.new) }
    ensures cut { form.HasCut cut }
{
    match cut {
        None => out.add(&[PLAIN, kind]),
        Some(number) => {
            out.add(&[WITH_CUT, kind])?;
            out.add(&number.to_be_bytes())
        }
    }
}

/// The same for a basic command, and its priority.
fn write_basic_header<P: Pieces>(
    out: &mut P,
    cut: Option<u32>,
    priority: u32,
) -> Result<(), P::Refusal>
    ensures told { OnOk result (Adds P.holds out.old (form.header cut 1 ++ to_be_bytes w32 priority) out.new) }
    ensures cut { form.HasCut cut }
{
    write_header(out, cut, BASIC)?;
    out.add(&priority.to_be_bytes())
}

pub fn write_init<P: Pieces>(
    out: &mut P,
    cut: Option<u32>,
    digest: &Id,
    author: &Id,
    name: &Text,
    payload: &Bytes,
) -> Result<(), P::Refusal>
    requires { form.AreContent name.now payload.now }
    ensures told { OnOk result (Adds P.holds out.old (form.init_body cut digest.now author.now name.now payload.now) out.new) }
    ensures cut { OnOk result (form.HasCut cut) }
    ensures ids { OnOk result (form.AreIds digest.now author.now) }
{
    write_header(out, cut, INIT)?;
    write_id(out, digest)?;
    write_id(out, author)?;
    write_content(out, name, payload)
}

pub fn write_basic<P: Pieces>(
    out: &mut P,
    cut: Option<u32>,
    priority: u32,
    parent: &Id,
    author: &Id,
    name: &Text,
    payload: &Bytes,
) -> Result<(), P::Refusal>
    requires { form.AreContent name.now payload.now }
    ensures told { OnOk result (Adds P.holds out.old (form.basic_body cut priority parent.now author.now name.now payload.now) out.new) }
    ensures cut { OnOk result (form.HasCut cut) }
    ensures ids { OnOk result (form.AreIds parent.now author.now) }
{
    write_basic_header(out, cut, priority)?;
    write_id(out, parent)?;
    write_id(out, author)?;
    write_content(out, name, payload)
}

pub fn write_finalize<P: Pieces>(
    out: &mut P,
    cut: Option<u32>,
    parent: &Id,
    author: &Id,
    name: &Text,
    payload: &Bytes,
) -> Result<(), P::Refusal>
    requires { form.AreContent name.now payload.now }
    ensures told { OnOk result (Adds P.holds out.old (form.finalize_body cut parent.now author.now name.now payload.now) out.new) }
    ensures cut { OnOk result (form.HasCut cut) }
    ensures ids { OnOk result (form.AreIds parent.now author.now) }
{
    write_header(out, cut, FINALIZE)?;
    write_id(out, parent)?;
    write_id(out, author)?;
    write_content(out, name, payload)
}

fn write_merge<P: Pieces>(
    out: &mut P,
    cut: Option<u32>,
    left: &Id,
    right: &Id,
) -> Result<(), P::Refusal>
    ensures told { OnOk result (Adds P.holds out.old (form.merge_body cut left.now right.now) out.new) }
    ensures cut { OnOk result (form.HasCut cut) }
    ensures ids { OnOk result (form.AreIds left.now right.now) }
{
    write_header(out, cut, MERGE)?;
    write_id(out, left)?;
    write_id(out, right)
}

/// All before the tag's length.
pub fn write_body<P: Pieces>(out: &mut P, command: &Command) -> Result<(), P::Refusal>
    requires { form.IsInForm command.now }
    ensures told { OnOk result (Adds P.holds out.old (form.body command.now) out.new) }
    ensures cut { OnOk result (form.HasCut (carried command.now)) }
    ensures front { OnOk result (form.HasFront command.now) }
{
    match command {
        Command::Init {
            cut,
            digest,
            author,
            name,
            payload,
            ..
        } => write_init(out, *cut, digest, author, name, payload),
        Command::Basic {
            cut,
            priority,
            parent,
            author,
            name,
            payload,
            ..
        } => write_basic(out, *cut, *priority, parent, author, name, payload),
        Command::Finalize {
            cut,
            parent,
            author,
            name,
            payload,
            ..
        } => write_finalize(out, *cut, parent, author, name, payload),
        Command::Merge { cut, left, right } => write_merge(out, *cut, left, right),
    }
}

fn write_after_body<P: Pieces>(out: &mut P, command: &Command) -> Result<(), P::Refusal>
    ensures told { OnOk result (Adds P.holds out.old (form.after_body command.now) out.new) }
    ensures tag { OnOk result (form.HasTag command.now) }
{
    match command {
        Command::Init { tag, .. } | Command::Basic { tag, .. } | Command::Finalize { tag, .. } => {
            write_tag(out, tag)
        }
        Command::Merge { .. } => Ok(()),
    }
}

/// The whole command.
pub fn write<P: Pieces>(out: &mut P, command: &Command) -> Result<(), P::Refusal>
    requires { form.IsInForm command.now }
    ensures told { OnOk result (Adds P.holds out.old (form.wire command.now) out.new) }
    ensures cut { OnOk result (form.HasCut (carried command.now)) }
    ensures front { OnOk result (form.HasFront command.now) }
    ensures tag { OnOk result (form.HasTag command.now) }
{
    write_body(out, command)?;
    write_after_body(out, command)
}
