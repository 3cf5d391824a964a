//! Texts out of parts.

ghost use Rattle.std.specs.Prelude.{◌≡◌, ◌++◌, IfOk, OnOk, codes, map, ◌∷◌, []};
ghost use Rattle.std.specs.List.{concat, flat_map};
ghost use Rattle.script_texts.specs.Replies.{opening, reply_line};

use base_bytes::{Bytes, NoMemory, Text};
use std::alloc::Global;

/// Adds the parts of a text, one after another.
pub fn push_all(alloc: Global, into: &mut Bytes, parts: &[&str]) -> Result<(), NoMemory>
    ensures { OnOk result (into.new ≡ into.old ++ concat (map (λ part. part.now) parts.now)) }
{
    for part in parts {
        into.extend(alloc, part.as_bytes())?;
    }
    Ok(())
}

/// The parts of a text, one after another.
pub fn joined(alloc: Global, parts: &[&str]) -> Result<Bytes, NoMemory>
    ensures { IfOk result (λ text. text ≡ concat (map (λ part. part.now) parts.now)) }
{
    let mut text = Bytes::new(alloc);
    push_all(alloc, &mut text, parts)?;
    Ok(text)
}

/// The same as a text that stands inside another.
pub fn phrase(alloc: Global, parts: &[&str]) -> Result<Text, NoMemory>
    ensures { IfOk result (λ text. text ≡ concat (map (λ part. part.now) parts.now)) }
{
    let mut text = String::new(alloc);
    for part in parts {
        text.push_str(part)?;
    }
    Ok(Text::from_string(text))
}

/// Adds names, each behind a space.
fn push_names(alloc: Global, into: &mut Bytes, names: &[&str]) -> Result<(), NoMemory>
    ensures { OnOk result (into.new ≡ into.old ++ flat_map (λ name. concat (codes " " ∷ name ∷ [])) (map (λ name. name.now) names.now)) }
{
    for name in names {
        push_all(alloc, into, &[" ", *name])?;
    }
    Ok(())
}

/// A line of the verb and the names, a colon, and the parts of the reply.
pub fn reply_line(
    alloc: Global,
    verb: &str,
    names: &[&str],
    reply: &[&str],
) -> Result<Bytes, NoMemory>
    ensures { IfOk result (λ text. text ≡ reply_line verb.now (map (λ name. name.now) names.now) (concat (map (λ part. part.now) reply.now))) }
{
    let mut text = joined(alloc, &[verb])?;
    push_names(alloc, &mut text, names)?;
    text.extend(alloc, b": ")?;
    push_all(alloc, &mut text, reply)?;
    text.extend(alloc, b"\n")?;
    Ok(text)
}
