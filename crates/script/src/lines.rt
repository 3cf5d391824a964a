//! The lines of a script, one after another.

ghost use Rattle.std.specs.Prelude.{◌≡◌, ◌==◌, ◌<◌, ◌∷◌, [], IfSome, MatchOption, length};
ghost use Rattle.std.specs.List.{position};
ghost use Rattle.std.specs.Str.Lines.{lines, strip_carriage_return};

/// The first line, and the bytes behind it. A last line may lack its line feed, and then keeps its carriage return.
#[tactic(auto, using(crate::proofs::NextLines::lines_first, crate::proofs::NextLines::lines_last, crate::proofs::NextLines::none_left))]
pub fn next_line(bytes: &[u8]) -> Option<(&[u8], &[u8])>
    ensures lines { MatchOption result (lines bytes.now ≡ []) (λ p. lines bytes.now ≡ p.0.now ∷ lines p.1.now) }
    ensures shorter { IfSome result (λ p. length p.1.now < length bytes.now) }
{
    match line_end(bytes) {
        Some(end) => Some((without_carriage_return(&bytes[..end]), &bytes[end + 1..])),
        None => last_line(bytes),
    }
}

/// The last line, where a line feed is missing.
#[tactic(auto, using(crate::proofs::NextLines::last_alone, crate::proofs::NextLines::none_left))]
fn last_line(bytes: &[u8]) -> Option<(&[u8], &[u8])>
    requires { position (λ b. b == 10) bytes.now ≡ None }
    ensures lines { MatchOption result (lines bytes.now ≡ []) (λ p. lines bytes.now ≡ p.0.now ∷ lines p.1.now) }
    ensures shorter { IfSome result (λ p. length p.1.now < length bytes.now) }
{
    if bytes.is_empty() {
        None
    } else {
        Some((bytes, &[]))
    }
}

/// A line without the carriage return at its end, if it has one.
fn without_carriage_return(line: &[u8]) -> &[u8]
    ensures { result.now ≡ strip_carriage_return line.now }
{
    if line.last() == Some(&b'\r') {
        &line[..line.len() - 1]
    } else {
        line
    }
}

/// The place of the first line feed.
fn line_end(text: &[u8]) -> Option<usize>
    ensures place { result ≡ position (λ b. b == 10) text.now }
    ensures within { IfSome result (λ end. end < length text.now) }
{
    text.iter().position(|byte| *byte == b'\n')
}
