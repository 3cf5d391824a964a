use base_bytes::NoMemory;

/// Why a document has no tokens, or that memory ran out. The number is that of a line, counted from 1.
#[derive(Clone, Copy, Debug, PartialEq, Eq)]
pub enum LexFault {
    /// The document isn't UTF-8; the line is that of the first byte that belongs to no character.
    NotUtf8(u32),
    /// The first line, the end of the front matter or the version is missing.
    NoFrontMatter,
    /// The front matter gives another version on this line.
    WrongVersion(u32),
    /// The document ends in the policy block that this line opens.
    OpenBlock(u32),
    /// On this line begins a piece that is no token and no comment.
    BadToken(u32),
    NoMemory,
}

impl From<NoMemory> for LexFault {
    ghost use Rattle.policy_lex.specs.declared.fault.LexFault.TheVariants.{NoMemory as no_memory};
    ghost use Rattle.std.specs.Prelude.{◌≡◌};

    ghost from_gives = { λ _ fault. fault ≡ no_memory };

    fn from(_error: NoMemory) -> LexFault {
        LexFault::NoMemory
    }
}
