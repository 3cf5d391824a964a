ghost use Rattle.std.specs.Prelude.{◌≡◌, ◌++◌, ◌<◌, ◌^◌, length, take, IsTrue, OnOk, OnErr};
ghost use Rattle.std.specs.Int.{w32};
ghost use Rattle.base_bytes.specs.Pieces.{counted};
ghost use Rattle.base_bytes.specs.Payload.{spelling, spelling_all, is_short, are_short};

use crate::{Bytes, NoMemory, Value};
use std::alloc::Global;

/// Appends the payload spelling of the value. Without memory the bytes stay as they were.
pub fn encode_value(alloc: Global, value: &Value, into: &mut Bytes) -> Result<(), NoMemory>
    requires { IsTrue (is_short value.now) }
    ensures ok { OnOk result (into.new ≡ into.old ++ spelling value.now) }
    ensures err { OnErr result (into.new ≡ into.old) }
{
    let before = into.len();
    let done = append_value(alloc, value, into);
    if done.is_err() {
        into.truncate(before);
    }
    done
}

// Without memory the bytes still begin with the old ones, and so do those of the functions below.
#[cycle(encode)]
fn append_value(alloc: Global, value: &Value, into: &mut Bytes) -> Result<(), NoMemory>
    requires { IsTrue (is_short value.now) }
    ensures ok { OnOk result (into.new ≡ into.old ++ spelling value.now) }
    ensures err { OnErr result (take (length into.old) into.new ≡ into.old) }
{
    match value {
        Value::Int(number) => into.extend(alloc, &number.to_be_bytes()),
        Value::Bool(truth) => into.push(alloc, if *truth { 1 } else { 0 }),
        Value::Str(text) => append_counted(alloc, text.as_slice(), into),
        Value::Raw(bytes) => append_counted(alloc, bytes.as_slice(), into),
        Value::Ident(id) => into.extend(alloc, id.as_slice()),
        Value::Enum(_, ordinal) => into.extend(alloc, &ordinal.to_be_bytes()),
        Value::Struct(_, fields) => append_values(alloc, fields.as_slice(), into),
        Value::Nothing => into.push(alloc, 0),
        Value::Some(inner) => {
            into.push(alloc, 1)?;
            append_value(alloc, inner.get(), into)
        }
    }
}

#[cycle(encode)]
fn append_values(alloc: Global, values: &[Value], into: &mut Bytes) -> Result<(), NoMemory>
    requires { IsTrue (are_short values.now) }
    ensures ok { OnOk result (into.new ≡ into.old ++ spelling_all values.now) }
    ensures err { OnErr result (take (length into.old) into.new ≡ into.old) }
{
    for value in values {
        append_value(alloc, value, into)?;
    }
    Ok(())
}

fn append_counted(alloc: Global, bytes: &[u8], into: &mut Bytes) -> Result<(), NoMemory>
    requires { length bytes.now < 2 ^ 32 }
    ensures ok { OnOk result (into.new ≡ into.old ++ counted w32 bytes.now) }
    ensures err { OnErr result (take (length into.old) into.new ≡ into.old) }
{
    into.extend(alloc, &(bytes.len() as u32).to_be_bytes())?;
    into.extend(alloc, bytes)
}
