ghost use Rattle.std.specs.Prelude.{◌≡◌, [], ◌∷◌, ◌++◌, length, IfOk, OnOk, OnErr};

use crate::command::Command;
use base_bytes::NoMemory;
use std::alloc::Global;
use std::marker::Model;

/// A list of commands, which contracts see as the list.
#[derive(Drop)]
pub struct Commands {
    commands: Vec<Command>,
}

impl Model for Commands {
    ghost use Rattle.std.specs.Prelude.{List};
    ghost use Rattle.command.specs.declared.command.Command.{Command};

    ghost Value = { List Command };

    ghost view = { λ it. it.commands.items };
}

impl Commands {
    /// No commands. Takes no memory.
    pub fn new(alloc: Global) -> Commands
        ensures { result ≡ [] }
    {
        Commands {
            commands: Vec::new(alloc),
        }
    }

    /// Copies of the commands.
    pub fn from_slice(alloc: Global, commands: &[Command]) -> Result<Commands, NoMemory>
        ensures { IfOk result (λ it. it ≡ commands.now) }
    {
        let mut all = Commands::new(alloc);
        for command in commands {
            all.push(alloc, command.copy(alloc)?)?;
        }
        Ok(all)
    }

    pub fn as_slice(&self) -> &[Command]
        ensures { result.now ≡ self.now }
    {
        self.commands.as_slice()
    }

    /// The vector of the commands, as it is. Takes no memory.
    pub fn into_vec(self) -> Vec<Command>
        ensures { result.items ≡ self }
    {
        self.commands
    }

    pub fn len(&self) -> usize
        ensures { result ≡ length self.now }
    {
        self.commands.len()
    }

    pub fn copy(&self, alloc: Global) -> Result<Commands, NoMemory>
        ensures { IfOk result (λ it. it ≡ self.now) }
    {
        Commands::from_slice(alloc, self.as_slice())
    }

    /// Adds one command at the end; without memory the commands stay as they were.
    pub fn push(&mut self, _alloc: Global, command: Command) -> Result<(), NoMemory>
        ensures ok { OnOk result (self.new ≡ self.old ++ command ∷ []) }
        ensures err { OnErr result (self.new ≡ self.old) }
    {
        self.commands.push(command)?;
        Ok(())
    }
}
