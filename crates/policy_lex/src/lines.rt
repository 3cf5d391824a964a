ghost use Rattle.std.specs.Prelude.{◌≡◌, ◌==◌, ◌^◌, ◌<◌, ◌≤◌, ◌∷◌, count_by, length, IfSome};
ghost use Rattle.std.specs.List.{position};
ghost use Rattle.std.specs.Str.Lines.{strip_carriage_return};
ghost use Rattle.policy_ast.specs.Lines.{is_line_feed, line_number};
ghost use Rattle.policy_lex.specs.working.LineViews.{lines_at, seen};

/// A line: its text, the place where it begins, and the place where what follows it begins.
#[derive(Clone, Copy)]
pub struct Line<'a> {
    pub text: &'a [u8],
    pub start: usize,
    pub next: usize,
}

/// The line that begins at a place.
pub fn line_at(document: &[u8], place: usize) -> Line<'_>
    requires { place < length document.now }
    ensures line { lines_at document.now place ≡ seen result ∷ lines_at document.now result.next }
    ensures start { result.start ≡ place }
    ensures more { place < result.next }
    ensures within { result.next ≤ length document.now }
{
    let rest = &document[place..];
    match line_end(rest) {
        Some(end) => Line {
            text: without_carriage_return(&rest[..end]),
            start: place,
            next: place + end + 1,
        },
        None => Line {
            text: rest,
            start: place,
            next: document.len(),
        },
    }
}

/// A line without the carriage return at its end, if it has one.
pub fn without_carriage_return(line: &[u8]) -> &[u8]
    ensures { result.now ≡ strip_carriage_return line.now }
{
    if line.last() == Some(&b'\r') {
        &line[..line.len() - 1]
    } else {
        line
    }
}

/// The place of the first line feed.
pub fn line_end(text: &[u8]) -> Option<usize>
    ensures place { result ≡ position is_line_feed text.now }
    ensures within { IfSome result (λ end. end < length text.now) }
{
    text.iter().position(|byte| *byte == b'\n')
}

/// How many line feeds there are.
pub fn line_feeds(bytes: &[u8]) -> usize
    ensures count { result ≡ count_by is_line_feed bytes.now }
    ensures within { result ≤ length bytes.now }
{
    bytes.iter().filter(|byte| **byte == b'\n').count()
}

/// The number of the line in which a place stands, counted from 1.
pub fn line_number(document: &[u8], place: usize) -> u32
    requires short { length document.now < 2 ^ 32 }
    requires within { place < length document.now }
    ensures { result ≡ line_number document.now place }
{
    (line_feeds(&document[..place]) + 1) as u32
}
