ghost use Rattle.std.specs.Prelude.{◌≡◌, ◌<◌, ℕ, true, false, List, length};
ghost use Rattle.std.specs.List.{All, Contains};
ghost use Rattle.command.specs.Ancestors.{AreInLine, IsUnder};
ghost use Rattle.command.specs.Closed.{IsClosed};
ghost use Rattle.command.specs.Kinds.{is_finalize, is_merge};
ghost use Rattle.command.specs.declared.command.Command.{Command};
ghost use Rattle.braid.specs.Bases.{IsBase, IsStraight, IsWaist, PartsAt};
ghost use Rattle.braid.specs.Agreeing.{Agree, ClosuresHaveOneBraid, HasOneBraid, HaveOneBraid, IsFinal, Stays, StaysUnder};

/// Each closed list of commands has exactly one braid.
pub fn lists_have_one_braid()
    ensures { (commands : List Command) → IsClosed commands → HasOneBraid commands }
{}

/// Closed lists that agree have the same braid, whatever their merges and the orders in which they stand.
pub fn agreeing_lists_have_one_braid()
    ensures { (one other : List Command) → IsClosed one → IsClosed other → Agree one other → HaveOneBraid one other }
{}

/// The braid under tips is the braid of their closure, as a closed list of its own, and there is one. Under one tip it is the
/// braid of the closure of the command there, and under the heads of a closed list the braid of the list.
pub fn closures_have_one_braid()
    ensures { (commands : List Command) → IsClosed commands → ClosuresHaveOneBraid commands }
{}

/// What is appended leaves the braid of a command's closure as it was, and that under tips that are places of the list.
pub fn closures_stay()
    ensures command { (commands : List Command) (command : Command) → IsClosed commands → Contains commands command → Stays commands command }
    ensures tips { (commands : List Command) (tips : List ℕ) → All (λ place. place < length commands) tips → StaysUnder commands tips }
{}

/// The braid of a finalize's closure begins the whole braid, where finalize commands are in line.
pub fn finalize_is_final()
    ensures { (commands : List Command) (f : Command) → IsClosed commands → AreInLine commands → Contains commands f → is_finalize f ≡ true → IsFinal commands f }
{}

/// At a base the braid parts: the braid under the tips is that of the base's closure, and behind it the braid of what stands above. A finalize of the
/// tips' closure is a base of it, where finalize commands are in line, and so is a waist.
pub fn bases_are_final()
    ensures parts { (commands : List Command) (tips : List ℕ) (f : Command) → IsClosed commands → IsBase commands tips f → PartsAt commands tips f }
    ensures finalize { (commands : List Command) (tips : List ℕ) (f : Command) → AreInLine commands → is_finalize f ≡ true → IsUnder commands tips f → IsBase commands tips f }
    ensures waist { (commands : List Command) (tips : List ℕ) (f : Command) → IsWaist commands f → is_merge f ≡ false → IsUnder commands tips f → IsBase commands tips f }
    ensures straight { (commands : List Command) (tips : List ℕ) (f : Command) → IsClosed commands → Contains commands f → IsStraight commands tips f → is_merge f ≡ false → IsUnder commands tips f → IsBase commands tips f }
{}
