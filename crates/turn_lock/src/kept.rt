/// A value that a lock of turns keeps. It knows the turns that were made on it.
pub trait Kept: Sized + Drop {
    ghost use Rattle.std.specs.Prelude.{ℕ, List};

    /// A turn, as plain data.
    type Turn;

    /// What the value was before its first turn, as plain data.
    type Opening;

    // The turns that were made on the value, the oldest first.
    ghost turns: { Self → List Self.Turn };

    // How many idle turns came after the last of them.
    ghost idle: { Self → ℕ };

    // What the value was before its first turn. No turn changes it.
    ghost opening: { Self → Self.Opening };

    // The number of the caller that made the turn.
    ghost caller: { Self.Turn → ℕ };

    // How many idle turns came right before it.
    ghost before: { Self.Turn → ℕ };

    // The turns may come in this order, from that opening on.
    ghost legal: { Self.Opening → List Self.Turn → Type 0 };

    /// Shows that the turns of the value are legal. It does nothing.
    fn is_legal(&self)
        ensures { legal (opening self.now) (turns self.now) };
}
