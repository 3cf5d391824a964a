ghost use Rattle.std.specs.Prelude.{◌≡◌, ◌++◌, IfOk, OnOk};
ghost use Rattle.aranyad.specs.Scripts.{name_of, names_of};

use base_bytes::{NoMemory, Text};
use script::Line;
use std::alloc::Global;

/// Adds the name that a line declares, where it declares one.
fn add_name(alloc: Global, names: &mut Vec<Text>, line: &Line) -> Result<(), NoMemory>
    ensures { OnOk result (names.new.items ≡ names.old.items ++ name_of line.now) }
{
    if let Line::Replica(name) = line {
        names.push(name.copy(alloc)?)?;
    }
    Ok(())
}

/// The names that the lines of a script declare, in order.
pub fn names_of(alloc: Global, lines: &[Line]) -> Result<Vec<Text>, NoMemory>
    ensures { IfOk result (λ names. names.items ≡ names_of lines.now) }
{
    let mut names = Vec::new(alloc);
    for line in lines {
        add_name(alloc, &mut names, line)?;
    }
    Ok(names)
}
