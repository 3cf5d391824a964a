//! The texts that a run prints, over plain data. Each line ends with a line feed.
#![tactic(auto)]

mod modes;
mod pieces;
mod refusal;
mod refusals;
mod replies;
mod shown;
mod shown_command;
mod values;
mod words;

pub use modes::{
    checked_text, damaged_text, generated_text, heard_text, journal_policy_text,
    lines_refused_text, no_subject_text, policy_refused_text, read_text, reader_text, said_text,
    snapshot_policy_text, snapshot_refused_text, snapshot_text, summary_text, too_large_text,
    turn_text, usage_text, watched_text,
};
pub use refusal::{CommandRefusal, LineRefusal};
pub use refusals::{command_reason, fault_word, line_reason};
pub use replies::{
    answered_text, done_text, held_text, joined_text, message_text, no_message_text,
    published_text, refused_command_text, refused_text, replica_text, synced_text, taken_text,
};
pub use shown::{command_text, count_text, effect_text, row_text};
pub use shown_command::ShownCommand;
pub use values::value_text;
pub use words::{FaultWord, Input, MessageName, Pass, PolicyFault};
