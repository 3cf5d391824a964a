ghost use Rattle.std.specs.Prelude.{◌≡◌, ◌↔◌, IfOk, IfSome, IsSome, IsTrue};
ghost use Rattle.std.specs.List.{list_any};
ghost use Rattle.std.specs.Str.{bytes_eq};
ghost use Rattle.policy_ast.specs.Version.{Two};
ghost use Rattle.policy_ast.specs.Words.{is_name, is_reserved};

use base_bytes::{NoMemory, Text, is_word};
use std::alloc::Global;
use std::marker::Model;

/// A name that a policy gives or uses: a word that isn't reserved. Contracts see it as its bytes.
#[derive(Drop)]
pub struct Name {
    text: Text,
}

impl Model for Name {
    ghost use Rattle.std.specs.Prelude.{List, ℕ, IsTrue};
    ghost use Rattle.policy_ast.specs.Version.{Two};
    ghost use Rattle.policy_ast.specs.Words.{is_name};

    ghost Value = { List ℕ };

    ghost view = { λ n. n.text };

    ghost invariant = { λ n. IsTrue (is_name Two n.text) };
}

impl Name {
    /// The name of this text, which is kept as it is, and None exactly where the text is no name. Takes no memory.
    pub fn new(text: Text) -> Option<Name>
        ensures found { IsSome result ↔ IsTrue (is_name Two text) }
        ensures value { IfSome result (λ n. n ≡ text) }
    {
        if is_name(text.as_slice()) {
            Some(Name { text })
        } else {
            None
        }
    }

    pub fn as_str(&self) -> &str
        ensures text { result.now ≡ self.now }
        ensures name { IsTrue (is_name Two self.now) }
    {
        self.text.as_str()
    }

    pub fn copy(&self, alloc: Global) -> Result<Name, NoMemory>
        ensures { IfOk result (λ n. n ≡ self.now) }
    {
        Ok(Name {
            text: self.text.copy(alloc)?,
        })
    }
}

impl PartialEq for Name {
    ghost use Rattle.std.specs.Str.{bytes_eq};
    ghost use Rattle.std.proofs.Common.{rules};
    ghost use Rattle.std.proofs.lemmas.Slice.Eq.{bytes_eq-Decides};

    ghost eq = { bytes_eq };

    ghost laws = { Prim.search rules };

    fn eq(&self, other: &Name) -> bool {
        self.as_str() == other.as_str()
    }
}

impl Eq for Name {
    ghost use Rattle.std.proofs.Common.{rules};
    ghost use Rattle.std.proofs.lemmas.Slice.Eq.{bytes_eq-Decides};

    ghost laws = { Prim.search rules };
}

/// Whether bytes are a name: a word that isn't reserved.
pub fn is_name(bytes: &[u8]) -> bool
    ensures { result ≡ is_name Two bytes.now }
{
    is_word(bytes) && !is_reserved(bytes)
}

/// The words that the grammar keeps for itself.
const RESERVED: [&str; 41] = [
    "use",
    "let",
    "enum",
    "struct",
    "effect",
    "immutable",
    "fact",
    "command",
    "function",
    "finish",
    "action",
    "check",
    "if",
    "else",
    "match",
    "map",
    "publish",
    "return",
    "create",
    "update",
    "delete",
    "emit",
    "is",
    "Some",
    "None",
    "unwrap",
    "check_unwrap",
    "this",
    "add",
    "sub",
    "saturating_add",
    "saturating_sub",
    "query",
    "exists",
    "at_least",
    "at_most",
    "exactly",
    "count_up_to",
    "true",
    "false",
    "optional",
];

#[tactic(auto, unfolding(crate::specs::Words::is_reserved))]
fn is_reserved(word: &[u8]) -> bool
    ensures { result ≡ is_reserved Two word.now }
{
    is_among(&RESERVED, word)
}

fn is_among(words: &[&str], word: &[u8]) -> bool
    ensures { result ≡ list_any (λ other. bytes_eq word.now other.now) words.now }
{
    words.iter().any(|other| word == other.as_bytes())
}
