ghost use Rattle.std.specs.Prelude.{◌≤◌};

/// A place on a disk, from which on it is read, and where that ends.
#[derive(Drop)]
pub struct Span {
    pub place: u64,
    pub end: u64,
    ghost ordered: { place ≤ end },
}
