ghost use Rattle.std.specs.Prelude.{◌≡◌, ◌^◌, ◌<◌, ◌≤◌, IfSome, length, option_map};
ghost use Rattle.std.specs.List.{after_first, position};
ghost use Rattle.policy_ast.specs.FrontMatter.{front_matter, gives_version, is_colon, is_rule, named_version};
ghost use Rattle.policy_ast.specs.Lines.{document_lines};
ghost use Rattle.policy_lex.specs.working.FrontMatters.{closed_by, found, key_of, placed};
ghost use Rattle.policy_lex.specs.working.LineViews.{lines_at, seen};

use crate::lines::{Line, line_at};
use crate::spaces::{is_before_spaces, is_between_spaces};
use policy_ast::Version;

/// The front matter of a document: the place of the line that gives the version, the version that it names, and the place
/// behind the end.
#[derive(Clone, Copy)]
pub struct FrontMatter {
    pub key: usize,
    pub version: Option<Version>,
    pub behind: usize,
}

/// The front matter that a document begins with; none where the first line, the end or the key is missing.
pub fn front_matter(document: &[u8]) -> Option<FrontMatter>
    ensures front { option_map (found document.now) result ≡ option_map placed (front_matter (document_lines document.now)) }
    ensures key { IfSome result (λ front. front.key < length document.now) }
    ensures within { IfSome result (λ front. front.behind ≤ length document.now) }
{
    if document.is_empty() {
        return None;
    }
    let first = line_at(document, 0);
    if !is_rule(first.text) {
        return None;
    }
    let mut place = first.next;
    let mut key = None;
    while place < document.len() {
        let line = line_at(document, place);
        if is_rule(line.text) {
            return closed_by(key, line.next);
        }
        key = key.or(key_of(line));
        place = line.next;
    }
    None
}

/// A line that gives the version: where it begins, and the version that it names.
#[derive(Clone, Copy)]
struct Key {
    start: usize,
    version: Option<Version>,
}

/// The front matter that a line ends, by the key that was found before it.
fn closed_by(key: Option<Key>, behind: usize) -> Option<FrontMatter>
    ensures { result ≡ closed_by key behind }
{
    let Key { start, version } = key?;
    Some(FrontMatter {
        key: start,
        version,
        behind,
    })
}

/// The version's key, where a line is that.
fn key_of(line: Line) -> Option<Key>
    ensures { result ≡ key_of (seen line.entry) }
{
    if gives_version(line.text) {
        Some(Key {
            start: line.start,
            version: named_version(line.text),
        })
    } else {
        None
    }
}

/// Whether the line begins or ends the front matter.
fn is_rule(text: &[u8]) -> bool
    ensures { result ≡ is_rule text.now }
{
    is_before_spaces(b"---", text)
}

fn gives_version(text: &[u8]) -> bool
    ensures { result ≡ gives_version text.now }
{
    match colon(text) {
        Some(place) => is_between_spaces(b"policy-version", &text[..place]),
        None => false,
    }
}

/// The version that stands behind the colon, with or without quotation marks, if it is one of these.
fn named_version(text: &[u8]) -> Option<Version>
    ensures { result ≡ named_version text.now }
{
    let version = behind_colon(text);
    if is_between_spaces(b"2", version) || is_between_spaces(b"\"2\"", version) {
        Some(Version::Two)
    } else {
        None
    }
}

/// What stands behind the first colon; nothing where there is none.
fn behind_colon(text: &[u8]) -> &[u8]
    ensures { result.now ≡ after_first is_colon text.now }
{
    match colon(text) {
        Some(place) => &text[place + 1..],
        None => &[],
    }
}

/// The place of the first colon.
fn colon(text: &[u8]) -> Option<usize>
    ensures place { result ≡ position is_colon text.now }
    ensures within { IfSome result (λ place. place < length text.now) }
{
    text.iter().position(|byte| *byte == b':')
}
