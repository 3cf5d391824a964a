//! What `facts`, `effects` and `graph` print.

ghost use Rattle.std.specs.Prelude.{◌≡◌, IfOk, map};
ghost use Rattle.script_texts.specs.Shown.{command_text, command_words, count_text, effect_text, recalled_word, row_text};

use crate::pieces::{joined, phrase, push_all, reply_line};
use crate::shown_command::ShownCommand;
use crate::values::{push_fields, push_value};
use base_bytes::{Arg, Bytes, Id, NoMemory, Text};
use std::alloc::Global;

/// `facts A: N`, `effects A: N` or `graph A: N`. So many lines of `row_text`, `effect_text` or `command_text` follow.
pub fn count_text(
    alloc: Global,
    verb: &str,
    names: &[&str],
    count: usize,
) -> Result<Bytes, NoMemory>
    ensures { IfOk result (λ text. text ≡ count_text verb.now (map (λ name. name.now) names.now) count) }
{
    let count = count.to_string(alloc)?;
    reply_line(alloc, verb, names, &[count.as_str()])
}

/// `  Name[k: v, ..]=>{f: v, ..}`: a fact by its name, its keys and its values
pub fn row_text(
    alloc: Global,
    name: &Text,
    keys: &[(Text, Arg)],
    values: &[(Text, Arg)],
) -> Result<Bytes, NoMemory>
    ensures { IfOk result (λ text. text ≡ row_text name.now keys.now values.now) }
{
    let mut text = joined(alloc, &["  ", name.as_str(), "["])?;
    push_fields(alloc, &mut text, keys)?;
    text.extend(alloc, b"]=>{")?;
    push_fields(alloc, &mut text, values)?;
    text.extend(alloc, b"}\n")?;
    Ok(text)
}

fn recalled_word(is_recalled: bool) -> &'static str
    ensures { result.now ≡ recalled_word is_recalled }
{
    if is_recalled { " recalled" } else { "" }
}

/// `  Name { f: v }`: an effect as a struct, and ` recalled` where its entry was
pub fn effect_text(alloc: Global, effect: &Arg, is_recalled: bool) -> Result<Bytes, NoMemory>
    ensures { IfOk result (λ text. text ≡ effect_text effect.now is_recalled) }
{
    let mut text = joined(alloc, &["  "])?;
    push_value(alloc, &mut text, effect)?;
    push_all(alloc, &mut text, &[recalled_word(is_recalled), "\n"])?;
    Ok(text)
}

/// What stands behind the id of a command.
fn command_words(alloc: Global, command: &ShownCommand) -> Result<Text, NoMemory>
    ensures { IfOk result (λ text. text ≡ command_words command.now) }
{
    match command {
        ShownCommand::Init(name) => phrase(alloc, &["init ", name.as_str()]),
        ShownCommand::Basic(name, priority, parent) => {
            let priority = priority.to_string(alloc)?;
            let parent = hex::encode(alloc, parent.as_slice())?;
            phrase(
                alloc,
                &[
                    "basic ",
                    name.as_str(),
                    " priority ",
                    priority.as_str(),
                    " parent ",
                    parent.as_str(),
                ],
            )
        }
        ShownCommand::Finalize(name, parent) => {
            let parent = hex::encode(alloc, parent.as_slice())?;
            phrase(
                alloc,
                &["finalize ", name.as_str(), " parent ", parent.as_str()],
            )
        }
        ShownCommand::Merge(left, right) => {
            let left = hex::encode(alloc, left.as_slice())?;
            let right = hex::encode(alloc, right.as_slice())?;
            phrase(alloc, &["merge ", left.as_str(), " ", right.as_str()])
        }
    }
}

/// `  ID init NAME`, `  ID basic NAME priority P parent ID`, `  ID finalize NAME parent ID` or `  ID merge ID ID`
pub fn command_text(alloc: Global, id: &Id, command: &ShownCommand) -> Result<Bytes, NoMemory>
    ensures { IfOk result (λ text. text ≡ command_text id.now command.now) }
{
    let hex = hex::encode(alloc, id.as_slice())?;
    let words = command_words(alloc, command)?;
    joined(alloc, &["  ", hex.as_str(), " ", words.as_str(), "\n"])
}
