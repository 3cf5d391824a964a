//! The lines that make a message, and the messages.

ghost use Rattle.std.specs.Prelude.{◌≡◌, ◌∷◌, [], None, true};
ghost use Rattle.std.specs.Option.{option_copied};
ghost use Rattle.script_texts.specs.Replies.{no_message_text};
ghost use Rattle.world.specs.Lines.{SaysAnswer, SaysAsk, SaysInject, SaysNext};
ghost use Rattle.world.specs.Worlds.{AreUp, message_at};
ghost use Rattle.world.specs.working.Places.{is_named};
ghost use Rattle.world.specs.working.Running.{Making};

use crate::events::{answer, ask, next};
use crate::named::Named;
use crate::replies::{answer_line, asked_line, next_line};
use crate::said::Said;
use crate::stop::RunStop;
use base_bytes::{Bytes, Text};
use command::Graph;
use fact_store::FactBase;
use outside::Disk;
use policy_meaning::Runner;
use script_texts::{MessageName, message_text, no_message_text};
use sqlite_items::at;
use std::alloc::Global;

/// The message of this number, where it was made.
pub fn message_at(messages: &[Option<Bytes>], number: u32) -> Option<&Bytes>
    ensures { option_copied result ≡ message_at messages.now number }
{
    if number == 0 {
        return None;
    }
    match at(messages, number as usize - 1) {
        Some(Some(message)) => Some(message),
        _ => None,
    }
}

/// What a line says whose message wasn't made.
fn nothing_said(alloc: Global, verb: &str, name: &Text) -> Result<Said, RunStop>
    ensures { Making (λ text message. (text ≡ no_message_text verb.now (name.now ∷ [])) × (message ≡ None)) result }
{
    Ok(Said {
        text: no_message_text(alloc, verb, &[name.as_str()])?,
        message: None,
    })
}

/// `ask A`, as the line of this number.
#[tactic(auto, using(crate::proofs::ChangeFacts::ask_says))]
pub fn ask_line<R: Runner, G: Graph, F: FactBase, D: Disk>(
    alloc: Global,
    replicas: &[Named<R, G, F, D>],
    name: &Text,
    number: u32,
) -> Result<Said, RunStop>
    requires there { is_named replicas.now name.now ≡ true }
    requires up { AreUp replicas.now }
    ensures line { Making (SaysAsk replicas.now name.now number) result }
{
    let reply = ask(alloc, replicas, name);
    asked_line(alloc, name, number, reply)
}

/// `next A n`, as the line of this number.
pub fn next_request_line<R: Runner, G: Graph, F: FactBase, D: Disk>(
    alloc: Global,
    replicas: &[Named<R, G, F, D>],
    name: &Text,
    message: Option<&Bytes>,
    number: u32,
) -> Result<Said, RunStop>
    requires there { is_named replicas.now name.now ≡ true }
    requires up { AreUp replicas.now }
    ensures line { Making (SaysNext replicas.now name.now (option_copied message.entry) number) result }
{
    let Some(message) = message else {
        return nothing_said(alloc, "next", name);
    };
    let reply = next(alloc, replicas, name, message.as_slice());
    next_line(alloc, name, number, reply)
}

/// `answer A n`, as the line of this number.
#[tactic(auto, using(crate::proofs::ChangeFacts::answer_spelled))]
pub fn response_line<R: Runner, G: Graph, F: FactBase, D: Disk>(
    alloc: Global,
    replicas: &[Named<R, G, F, D>],
    name: &Text,
    message: Option<&Bytes>,
    number: u32,
) -> Result<Said, RunStop>
    requires there { is_named replicas.now name.now ≡ true }
    requires up { AreUp replicas.now }
    ensures line { Making (SaysAnswer replicas.now name.now (option_copied message.entry) number) result }
{
    let Some(message) = message else {
        return nothing_said(alloc, "answer", name);
    };
    let reply = answer(alloc, replicas, name, message.as_slice());
    answer_line(alloc, name, number, reply)
}

/// `inject HEX`, as the line of this number.
pub fn inject_line(alloc: Global, bytes: &Bytes, number: u32) -> Result<Said, RunStop>
    ensures line { Making (SaysInject bytes.now number) result }
{
    Ok(Said {
        text: message_text(alloc, "inject", &[], &MessageName::Number(number))?,
        message: Some(bytes.copy(alloc)?),
    })
}
