/// Where a command stands: the number of its segment, and its number in it, both from 0.
#[derive(Clone, Copy, Debug, PartialEq, Eq)]
pub struct Location {
    pub segment: u32,
    pub index: u32,
}

/// A chain of commands, each the only parent of the next: the places of its first and its last command, how many they are, and
/// the cut of the last one.
#[derive(Clone, Copy, Debug, PartialEq, Eq)]
pub struct Segment {
    pub first: u32,
    pub last: u32,
    pub len: u32,
    pub cut: u32,
}
