//! The text of a line, by what its replica replies.

ghost use Rattle.std.specs.Prelude.{◌≡◌, ◌++◌, IfOk, Ok, Some, map};
ghost use Rattle.replica.specs.declared.refusal.Refusal.TheVariants as refusal;
ghost use Rattle.script_texts.specs.Replies.{refused_commands_text};
ghost use Rattle.sync_codec.specs.Messages.{IsResponse};
ghost use Rattle.sync_codec.specs.declared.response.Response.{Response as TheResponse};
ghost use Rattle.world.specs.Reasons.{shown_refusals};
ghost use Rattle.world.specs.Replies.{IsAnswerLine, asked_line, joined_line, message_of, next_line, next_message_of, published_line, refused_line, taken_line};
ghost use Rattle.world.specs.Stops.{IsRestartStop, RestartWords};
ghost use Rattle.world.specs.working.Words.{AnswerWords, Words, WordsAndMessage, WordsBy};

use crate::reasons::{command_refusal, line_refusal};
use crate::said::Said;
use crate::stop::RunStop;
use accept::Reason;
use base_bytes::{Bytes, Id, NoMemory, Text};
use journal::OpenFault;
use replica::{Published, Refusal, Taken};
use script_texts::{
    MessageName, answered_text, done_text, held_text, joined_text, message_text, published_text,
    refused_command_text, refused_text, taken_text,
};
use std::alloc::Global;
use sync_codec::Response;

/// What a refused line prints, or why it stops the run.
pub fn refused_line(
    alloc: Global,
    verb: &str,
    names: &[&str],
    why: Refusal,
) -> Result<Bytes, RunStop>
    ensures { WordsBy (Some why) (refused_line verb.now (map (λ name. name.now) names.now) why) result }
{
    let why = match line_refusal(why) {
        Ok(why) => why,
        Err(stop) => return Err(stop),
    };
    Ok(refused_text(alloc, verb, names, &why)?)
}

/// What `init` and `act` print.
pub fn published_line(
    alloc: Global,
    verb: &str,
    name: &Text,
    reply: Result<Published, Refusal>,
) -> Result<Bytes, RunStop>
    ensures { Words reply (published_line verb.now name.now reply) result }
{
    match reply {
        Ok(it) => Ok(published_text(
            alloc,
            verb,
            &[name.as_str()],
            it.commands,
            it.merges,
            it.cut,
            it.entries,
        )?),
        Err(why) => refused_line(alloc, verb, &[name.as_str()], why),
    }
}

/// What `join` prints.
pub fn joined_line(alloc: Global, name: &Text, reply: Result<(), Refusal>) -> Result<Bytes, RunStop>
    ensures { Words reply (joined_line name.now reply) result }
{
    match reply {
        Ok(()) => Ok(joined_text(alloc, "join", &[name.as_str()])?),
        Err(why) => refused_line(alloc, "join", &[name.as_str()], why),
    }
}

/// What `ask` prints as the line of this number, and its message.
pub fn asked_line(
    alloc: Global,
    name: &Text,
    number: u32,
    reply: Result<Bytes, Refusal>,
) -> Result<Said, RunStop>
    ensures { WordsAndMessage reply (asked_line name.now number reply) (message_of reply) result }
{
    match reply {
        Ok(bytes) => Ok(Said {
            text: message_text(alloc, "ask", &[name.as_str()], &MessageName::Number(number))?,
            message: Some(bytes),
        }),
        Err(why) => Ok(Said {
            text: match refused_line(alloc, "ask", &[name.as_str()], why) {
                Ok(text) => text,
                Err(stop) => return Err(stop),
            },
            message: None,
        }),
    }
}

/// What `next` prints as the line of this number, and its message.
pub fn next_line(
    alloc: Global,
    name: &Text,
    number: u32,
    reply: Result<Option<Bytes>, Refusal>,
) -> Result<Said, RunStop>
    ensures { WordsAndMessage reply (next_line name.now number reply) (next_message_of reply) result }
{
    match reply {
        Ok(Some(bytes)) => Ok(Said {
            text: message_text(
                alloc,
                "next",
                &[name.as_str()],
                &MessageName::Number(number),
            )?,
            message: Some(bytes),
        }),
        Ok(None) => Ok(Said {
            text: done_text(alloc, "next", &[name.as_str()])?,
            message: None,
        }),
        Err(why) => Ok(Said {
            text: match refused_line(alloc, "next", &[name.as_str()], why) {
                Ok(text) => text,
                Err(stop) => return Err(stop),
            },
            message: None,
        }),
    }
}

/// What a made response prints as the answer of this number.
fn response_line(alloc: Global, name: &Text, number: u32, bytes: &[u8]) -> Result<Bytes, NoMemory>
    requires { (response : TheResponse) × IsResponse response bytes.now }
    ensures { IfOk result (λ text. IsAnswerLine name.now number (Ok bytes.now) text) }
{
    let Some(response) = Response::from_bytes(alloc, bytes)? else {
        unreachable!()
    };
    answered_text(
        alloc,
        "answer",
        &[name.as_str()],
        &MessageName::Number(number),
        response.commands.len(),
        response.more,
    )
}

/// What `answer` prints as the line of this number, and its message, which is a response.
pub fn answer_line(
    alloc: Global,
    name: &Text,
    number: u32,
    reply: Result<Bytes, Refusal>,
) -> Result<Said, RunStop>
    requires { IfOk reply (λ bytes. (response : TheResponse) × IsResponse response bytes) }
    ensures { AnswerWords name.now number reply (message_of reply) result }
{
    match reply {
        Ok(bytes) => Ok(Said {
            text: response_line(alloc, name, number, bytes.as_slice())?,
            message: Some(bytes),
        }),
        Err(why) => Ok(Said {
            text: match refused_line(alloc, "answer", &[name.as_str()], why) {
                Ok(text) => text,
                Err(stop) => return Err(stop),
            },
            message: None,
        }),
    }
}

/// The lines of refused commands, behind a text.
pub fn with_refused(alloc: Global, text: Bytes, refused: &[(Id, Reason)]) -> Result<Bytes, NoMemory>
    ensures { IfOk result (λ whole. whole ≡ text ++ refused_commands_text (shown_refusals (map (λ r. record { id = r.0; why = r.1 }) refused.now))) }
{
    let mut whole = text;
    for one in refused {
        let line = refused_command_text(alloc, &one.0, &command_refusal(&one.1))?;
        whole.extend(alloc, line.as_slice())?;
    }
    Ok(whole)
}

/// What `take` prints.
pub fn taken_line(
    alloc: Global,
    name: &Text,
    reply: Result<Taken, Refusal>,
) -> Result<Bytes, RunStop>
    ensures { Words reply (taken_line name.now reply) result }
{
    match reply {
        Ok(taken) => {
            let refused = taken.refused.as_slice();
            let text = taken_text(
                alloc,
                "take",
                &[name.as_str()],
                taken.added,
                taken.repeats,
                refused.len(),
                taken.cut,
                taken.entries,
            )?;
            Ok(with_refused(alloc, text, refused)?)
        }
        Err(why) => refused_line(alloc, "take", &[name.as_str()], why),
    }
}

/// The stop that names the replica whose journal is refused.
fn journal_stop(alloc: Global, name: &Text, cause: OpenFault) -> RunStop
    ensures { IsRestartStop name.now (refusal.Journal cause) result }
{
    match name.copy(alloc) {
        Ok(own) => RunStop::Journal(own, cause),
        Err(_) => RunStop::NoMemory,
    }
}

/// What stops a restart of the replica of this name.
fn restart_stop(alloc: Global, name: &Text, why: Refusal) -> RunStop
    ensures { IsRestartStop name.now why result }
{
    match why {
        Refusal::Journal(cause) => journal_stop(alloc, name, cause),
        Refusal::DiskFault(_) => RunStop::DiskFault,
        Refusal::NoGraph => RunStop::NoMemory,
        Refusal::HasGraph => RunStop::NoMemory,
        Refusal::Act(_fault) => RunStop::NoMemory,
        Refusal::Malformed => RunStop::NoMemory,
        Refusal::OtherGraph(_) => RunStop::NoMemory,
        Refusal::Down(_) => RunStop::NoMemory,
        Refusal::NoMemory => RunStop::NoMemory,
    }
}

/// What `restart` prints. Each refusal stops the run.
pub fn restarted_line(
    alloc: Global,
    name: &Text,
    reply: Result<usize, Refusal>,
) -> Result<Bytes, RunStop>
    ensures { RestartWords name.now reply result }
{
    match reply {
        Ok(held) => Ok(held_text(alloc, "restart", &[name.as_str()], held)?),
        Err(why) => Err(restart_stop(alloc, name, why)),
    }
}
