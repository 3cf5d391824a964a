use base_bytes::{Arg, Bytes, Text};
use sqlite_items::Items;

/// A line of a script. The first text is the name of the replica that the line is for.
#[derive(Drop)]
pub enum Line {
    /// `replica A`
    Replica(Text),
    /// `init A f(args)`
    Init(Text, Text, Items<Arg>),
    /// `join A B`
    Join(Text, Text),
    /// `act A f(args)`
    Act(Text, Text, Items<Arg>),
    /// `sync A B`
    Sync(Text, Text),
    /// `ask A`
    Ask(Text),
    /// `next A n`, for the message of this number
    Next(Text, u32),
    /// `answer A n`
    Answer(Text, u32),
    /// `take A n`
    Take(Text, u32),
    /// `inject HEX`: the bytes of a message
    Inject(Bytes),
    /// `restart A`
    Restart(Text),
    /// `facts A`
    Facts(Text),
    /// `effects A`
    Effects(Text),
    /// `graph A`
    Graph(Text),
    /// No bytes but spaces, or a comment.
    Blank,
}
