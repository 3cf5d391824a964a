use std::collections::LinkedList;

/// Callers' numbers, and turns that were seen under them. No value of this is made.
pub struct Past<X> {
    pub numbers: LinkedList<u64>,
    pub seen: LinkedList<X>,
}

/// What a seat at the table knows. No value of this is made: it stands in proofs alone.
pub struct View<X, O> {
    /// The numbers of the seat, and the turns that it has seen.
    pub mine: Past<X>,
    /// Those of a seat that was joined into this one, until its next step.
    pub other: Past<X>,
    /// Numbers that were drawn by others.
    pub known: LinkedList<u64>,
    /// The ticket that was drawn for the next turn.
    pub ticket: Option<u64>,
    /// Whether the seat is in its turn.
    pub inside: bool,
    /// The number of idle turns that it found there.
    pub idle: u64,
    /// The opening of the value: one, and none once the seat is spent.
    pub opening: LinkedList<O>,
}
