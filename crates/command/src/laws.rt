ghost use Rattle.std.specs.Prelude.{◌≡◌, List};
ghost use Rattle.base_bytes.specs.Laws.{IsUnambiguous};
ghost use Rattle.command.specs.Closed.{IsClosed, max_commands};
ghost use Rattle.command.specs.Laws.{AncestorsAreOlder};
ghost use Rattle.command.specs.Wire.{IsWire};
ghost use Rattle.command.specs.declared.command.Command.{Command};

use crate::graph::MAX_COMMANDS;

/// A command's bytes are read again as that command, begin no other command's bytes, and are the one form of the one command.
pub fn commands_are_unambiguous()
    ensures { IsUnambiguous IsWire }
{}

/// In a closed list ancestors are older, and what is appended changes none of them.
pub fn ancestors_are_older()
    ensures { (commands : List Command) → IsClosed commands → AncestorsAreOlder commands }
{}

/// `MAX_COMMANDS` is how many commands a graph has at most.
pub fn limits_are_as_defined()
    ensures { MAX_COMMANDS ≡ max_commands }
{}
