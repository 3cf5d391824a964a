ghost use Rattle.std.specs.Prelude.{◌≡◌, ◌+◌, ◌<◌, ℕ, false, get_or, length, IfOk};
ghost use Rattle.graph_segments.specs.working.Search.{IsMarked, Marks};

use base_bytes::NoMemory;
use std::alloc::Global;

/// Marks up to the last number, of which that one alone is set.
pub fn begun(alloc: Global, last: usize) -> Result<Vec<bool>, NoMemory>
    requires { last < 65536 }
    ensures size { IfOk result (λ marks. length marks.items ≡ last + 1) }
    ensures only { IfOk result (λ marks. (k : ℕ) → IsMarked marks.items k → k ≡ last) }
    ensures own { IfOk result (λ marks. IsMarked marks.items last) }
{
    let mut marks = vec![in alloc; false; last + 1]?;
    marks[last] = true;
    Ok(marks)
}

/// Sets one mark.
pub fn set_mark(marks: &mut Vec<bool>, number: usize)
    requires { number < length marks.old.items }
    ensures { Marks (λ k. k ≡ number) marks.old.items marks.new.items }
{
    marks[number] = true;
}
