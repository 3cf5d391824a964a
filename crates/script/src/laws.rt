//! Laws over the definitions alone.

ghost use Rattle.std.specs.Prelude.{ℕ};
ghost use Rattle.base_bytes.specs.declared.arg.Arg.{Arg};
ghost use Rattle.script.specs.Laws.{HasOneReading, IsOneLine, KeepsUtf8};
ghost use Rattle.script.specs.Pieces.{Bytes};
ghost use Rattle.script.specs.Printing.{IsReadAsPrinted};

/// Bytes are at most one line.
#[tactic(auto, using(crate::proofs::LineLaws::one_line))]
pub fn bytes_are_one_line()
    ensures { (bytes : Bytes) → IsOneLine bytes }
{}

/// A script is the lines of one list, or is refused by one line, and never both.
#[tactic(auto, using(crate::proofs::ScriptLaws::one_reading))]
pub fn scripts_have_one_reading()
    ensures { (script : Bytes) → HasOneReading script }
{}

/// What is printed of a value is an argument that is this value.
#[tactic(auto, using(crate::proofs::PrintedValues::printed_is_read))]
pub fn printed_values_are_read()
    ensures { (deep : ℕ) → (value : Arg) → IsReadAsPrinted deep value }
{}

/// A text between quotation marks is UTF-8, where it stands in UTF-8.
#[tactic(auto, using(crate::proofs::QuotedUtf8::keeps_utf8))]
pub fn texts_in_utf8_are_utf8()
    ensures { KeepsUtf8 }
{}
