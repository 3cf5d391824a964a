//! Values, with a policy's names in them.

ghost use Rattle.std.specs.Prelude.{◌≡◌, ◌++◌, ◌∷◌, [], IfOk, OnOk, codes};
ghost use Rattle.std.specs.List.{concat, flat_map};
ghost use Rattle.hex.specs.Hex.{encode_lower};
ghost use Rattle.script_texts.specs.Values.{field_texts, named_value, names_and_values, quoted_byte, struct_fields, truth_word, value_text};

use crate::pieces::push_all;
use base_bytes::{Arg, Bytes, NoMemory, Text};
use std::alloc::Global;

/// The text of a value. It is also how a script writes the value as an argument.
pub fn value_text(alloc: Global, value: &Arg) -> Result<Bytes, NoMemory>
    ensures { IfOk result (λ text. text ≡ value_text value.now) }
{
    let mut text = Bytes::new(alloc);
    push_value(alloc, &mut text, value)?;
    Ok(text)
}

/// Adds the text of a value.
#[cycle(values)]
pub fn push_value(alloc: Global, into: &mut Bytes, value: &Arg) -> Result<(), NoMemory>
    ensures { OnOk result (into.new ≡ into.old ++ value_text value.now) }
{
    match value {
        Arg::Int(number) => {
            let digits = number.to_string(alloc)?;
            into.extend(alloc, digits.as_str().as_bytes())
        }
        Arg::Bool(truth) => push_truth(alloc, into, *truth),
        Arg::Str(text) => push_quoted(alloc, into, text.as_slice()),
        Arg::Raw(bytes) => push_hex(alloc, into, "0x", bytes.as_slice()),
        Arg::Ident(id) => push_hex(alloc, into, "id:", id.as_slice()),
        Arg::Variant(name, variant) => {
            push_all(alloc, into, &[name.as_str(), "::", variant.as_str()])
        }
        Arg::Fields(name, fields) => {
            into.extend(alloc, name.as_slice())?;
            push_struct(alloc, into, fields.as_slice())
        }
        Arg::Nothing => into.extend(alloc, b"None"),
        Arg::Some(inner) => push_some(alloc, into, inner.get()),
    }
}

fn push_truth(alloc: Global, into: &mut Bytes, truth: bool) -> Result<(), NoMemory>
    ensures { OnOk result (into.new ≡ into.old ++ truth_word truth) }
{
    if truth {
        into.extend(alloc, b"true")
    } else {
        into.extend(alloc, b"false")
    }
}

/// Adds a text between quotation marks.
fn push_quoted(alloc: Global, into: &mut Bytes, text: &[u8]) -> Result<(), NoMemory>
    ensures { OnOk result (into.new ≡ into.old ++ codes "\"" ++ flat_map quoted_byte text.now ++ codes "\"") }
{
    into.extend(alloc, b"\"")?;
    push_bytes(alloc, into, text)?;
    into.extend(alloc, b"\"")
}

fn push_bytes(alloc: Global, into: &mut Bytes, text: &[u8]) -> Result<(), NoMemory>
    ensures { OnOk result (into.new ≡ into.old ++ flat_map quoted_byte text.now) }
{
    for byte in text {
        push_byte(alloc, into, *byte)?;
    }
    Ok(())
}

fn push_byte(alloc: Global, into: &mut Bytes, byte: u8) -> Result<(), NoMemory>
    ensures { OnOk result (into.new ≡ into.old ++ quoted_byte byte) }
{
    match byte {
        b'\\' => into.extend(alloc, b"\\\\"),
        b'"' => into.extend(alloc, b"\\\""),
        b'\n' => into.extend(alloc, b"\\n"),
        _ => into.push(alloc, byte),
    }
}

/// Adds bytes in hex, behind a word that says what they are.
fn push_hex(alloc: Global, into: &mut Bytes, word: &str, bytes: &[u8]) -> Result<(), NoMemory>
    ensures { OnOk result (into.new ≡ into.old ++ concat (word.now ∷ encode_lower bytes.now ∷ [])) }
{
    let hex = hex::encode(alloc, bytes)?;
    push_all(alloc, into, &[word, hex.as_str()])
}

/// Adds `Some(v)`.
#[cycle(values)]
fn push_some(alloc: Global, into: &mut Bytes, inner: &Arg) -> Result<(), NoMemory>
    ensures { OnOk result (into.new ≡ into.old ++ codes "Some(" ++ value_text inner.now ++ codes ")") }
{
    into.extend(alloc, b"Some(")?;
    push_value(alloc, into, inner)?;
    into.extend(alloc, b")")
}

/// Adds what stands behind the name of a struct.
#[cycle(values)]
fn push_struct(alloc: Global, into: &mut Bytes, fields: &[(Text, Arg)]) -> Result<(), NoMemory>
    ensures { OnOk result (into.new ≡ into.old ++ struct_fields (field_texts fields.now)) }
{
    if fields.is_empty() {
        return into.extend(alloc, b" {}");
    }
    into.extend(alloc, b" { ")?;
    push_fields(alloc, into, fields)?;
    into.extend(alloc, b" }")
}

/// Adds `name: value, name: value`.
#[cycle(values)]
pub fn push_fields(alloc: Global, into: &mut Bytes, fields: &[(Text, Arg)]) -> Result<(), NoMemory>
    ensures { OnOk result (into.new ≡ into.old ++ names_and_values (field_texts fields.now)) }
{
    let mut before = b"".as_slice();
    for (name, value) in fields {
        push_field(alloc, into, before, name, value)?;
        before = b", ".as_slice();
    }
    Ok(())
}

/// Adds `name: value` behind a text.
#[cycle(values)]
fn push_field(
    alloc: Global,
    into: &mut Bytes,
    before: &[u8],
    name: &Text,
    value: &Arg,
) -> Result<(), NoMemory>
    ensures { OnOk result (into.new ≡ into.old ++ named_value before.now (name.now, value_text value.now)) }
{
    into.extend(alloc, before)?;
    into.extend(alloc, name.as_slice())?;
    into.extend(alloc, b": ")?;
    push_value(alloc, into, value)
}
