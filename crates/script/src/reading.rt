//! Scripts: lines, each with its place behind those before it.

ghost use Rattle.std.specs.Prelude.{◌≡◌, ◌⊎◌, ◌<◌, ◌≤◌, ℕ, List, [], IfOk, IfErr, MatchResult, true};
ghost use Rattle.std.specs.Str.Lines.{lines};
ghost use Rattle.script.specs.declared.fault.ScriptFault.TheVariants as fault;
ghost use Rattle.script.specs.declared.line.Line.{Line};
ghost use Rattle.script.specs.Answers.{HasCause};
ghost use Rattle.script.specs.Scripts.{IsRefusedAt, IsScript, has_place, most_lines, nothing_yet};
ghost use Rattle.script.specs.working.Placing.{IsPlacing, ReadsAll};
ghost use Rattle.script.specs.working.ReadingLines.{line_of};
ghost use Rattle.script.specs.working.ReadingScripts.{declared, script_from};

use crate::fault::ScriptFault;
use crate::line::Line;
use crate::line_forms::line_of;
use crate::lines::next_line;
use crate::seen::Seen;
use base_bytes::Unread;
use std::alloc::Global;

/// How many lines a script may have.
const MOST_LINES: usize = 100_000;

/// The lines of a script, in order, each with its place behind those before it; or the number of the first line that may
/// not stand where it does, from 1.
#[tactic(auto, using(crate::proofs::Readings::read_is_script, crate::proofs::Readings::has_cause, crate::proofs::Readings::one_script, crate::proofs::Readings::one_refusal))]
pub fn read_script(alloc: Global, bytes: &[u8]) -> Result<Vec<Line>, ScriptFault>
    ensures lines { IfOk result (λ found. IsScript bytes.now found.items) }
    ensures cause { IfErr result (λ why. HasCause bytes.now why) }
    ensures only_lines { (all : List Line) → IsScript bytes.now all → MatchResult result (λ found. found.items ≡ all) (λ why. why ≡ fault.NoMemory) }
    ensures only_refusal { (number : ℕ) → IsRefusedAt bytes.now number → MatchResult result (λ found. ⊥) (λ why. (why ≡ fault.Refused number) ⊎ (why ≡ fault.NoMemory)) }
{
    lines_of(alloc, bytes)
}

fn lines_of(alloc: Global, bytes: &[u8]) -> Result<Vec<Line>, ScriptFault>
    ensures { ReadsAll result (script_from nothing_yet [] (lines bytes.now)) }
{
    let mut seen = Seen::new(alloc);
    let mut found = Vec::new(alloc);
    let mut rest = bytes;
    while let Some((text, behind)) = next_line(rest) {
        let line = match placed(alloc, &seen, found.len(), text) {
            Ok(line) => line,
            Err(why) => return Err(why),
        };
        seen.note(alloc, &line)?;
        found.push(line)?;
        rest = behind;
    }
    Ok(found)
}

/// The line that bytes are, where it has its place behind so many others.
#[tactic(auto, using(crate::proofs::Readings::none_behind))]
fn placed(alloc: Global, seen: &Seen, before: usize, text: &[u8]) -> Result<Line, ScriptFault>
    requires { before ≤ most_lines }
    ensures line { IsPlacing (declared seen.now) before (line_of text.now) result }
    ensures place { IfOk result (λ line. has_place (declared seen.now) line ≡ true) }
    ensures room { IfOk result (λ line. before < most_lines) }
{
    let refused = ScriptFault::Refused {
        line: before as u32 + 1,
    };
    if before == MOST_LINES {
        return Err(refused);
    }
    match line_of(alloc, text) {
        Ok(line) if seen.has_place(&line) => Ok(line),
        Ok(_) | Err(Unread::Malformed) => Err(refused),
        Err(Unread::NoMemory) => Err(ScriptFault::NoMemory),
    }
}
