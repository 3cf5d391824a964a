ghost use Rattle.std.specs.Prelude.{◌≡◌, ◌+◌, ◌*◌, ◌≤◌, IsTrue};

/// Where a journal ends: the place of the closed gate behind its last commit, how many commands its commits have, and whether it
/// has no commit yet.
#[derive(Clone, Copy)]
pub struct End {
    pub gate: u64,
    pub commands: u64,
    pub is_fresh: bool,
    ghost first: { IsTrue is_fresh → gate ≤ 38 },
    ghost near: { gate ≤ 76 + 4319 * commands },
    ghost many: { 4 * commands ≤ gate },
}
