//! Why something was refused, in words.

ghost use Rattle.std.specs.Prelude.{◌≡◌, ◌∷◌, [], IfOk};
ghost use Rattle.std.specs.List.{concat};
ghost use Rattle.hex.specs.Hex.{encode_lower};
ghost use Rattle.script_texts.specs.Refusals.{command_reason, fault_word, line_reason};

use crate::pieces::phrase;
use crate::refusal::{CommandRefusal, LineRefusal};
use crate::words::FaultWord;
use base_bytes::{Id, NoMemory, Text};
use std::alloc::Global;

/// The word of a fault.
pub fn fault_word(word: FaultWord) -> &'static str
    ensures { result.now ≡ fault_word word }
{
    match word {
        FaultWord::Unwrap => "unwrap",
        FaultWord::Exists => "exists",
        FaultWord::Missing => "missing",
        FaultWord::Differs => "differs",
        FaultWord::Turns => "turns",
        FaultWord::TooLong => "too long",
    }
}

/// An id behind a word.
fn with_id(alloc: Global, word: &str, id: &Id) -> Result<Text, NoMemory>
    ensures { IfOk result (λ text. text ≡ concat (word.now ∷ encode_lower id.now ∷ [])) }
{
    let hex = hex::encode(alloc, id.as_slice())?;
    phrase(alloc, &[word, hex.as_str()])
}

/// Why a command was refused.
pub fn command_reason(alloc: Global, why: &CommandRefusal) -> Result<Text, NoMemory>
    ensures { IfOk result (λ text. text ≡ command_reason why.now) }
{
    match why {
        CommandRefusal::MissingParent(id) => with_id(alloc, "missing parent ", id),
        CommandRefusal::ParallelFinalize(id) => with_id(alloc, "parallel finalize ", id),
        CommandRefusal::Fault(word) => phrase(alloc, &["fault ", fault_word(*word)]),
        CommandRefusal::Collision => phrase(alloc, &["collision"]),
        CommandRefusal::OtherInit => phrase(alloc, &["other init"]),
        CommandRefusal::WrongCut => phrase(alloc, &["wrong cut"]),
        CommandRefusal::BadEnvelope => phrase(alloc, &["bad envelope"]),
        CommandRefusal::UnknownCommand => phrase(alloc, &["unknown command"]),
        CommandRefusal::WrongKind => phrase(alloc, &["wrong kind"]),
        CommandRefusal::Payload => phrase(alloc, &["payload"]),
        CommandRefusal::Check => phrase(alloc, &["check"]),
        CommandRefusal::Full => phrase(alloc, &["full"]),
    }
}

/// Why a line was refused.
pub fn line_reason(alloc: Global, why: &LineRefusal) -> Result<Text, NoMemory>
    ensures { IfOk result (λ text. text ≡ line_reason why.now) }
{
    match why {
        LineRefusal::Command(name, why) => {
            let why = command_reason(alloc, why)?;
            phrase(alloc, &["command ", name.as_str(), ": ", why.as_str()])
        }
        LineRefusal::Collision(id) => with_id(alloc, "collision ", id),
        LineRefusal::OtherGraph(id) => with_id(alloc, "other graph ", id),
        LineRefusal::Fault(word) => phrase(alloc, &["fault ", fault_word(*word)]),
        LineRefusal::NoGraph => phrase(alloc, &["no graph"]),
        LineRefusal::HasGraph => phrase(alloc, &["has graph"]),
        LineRefusal::UnknownAction => phrase(alloc, &["unknown action"]),
        LineRefusal::Arguments => phrase(alloc, &["arguments"]),
        LineRefusal::Check => phrase(alloc, &["check"]),
        LineRefusal::Full => phrase(alloc, &["full"]),
        LineRefusal::Malformed => phrase(alloc, &["malformed"]),
    }
}
