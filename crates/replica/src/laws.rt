//! The law of sessions, over the definitions alone. These functions do nothing; their contracts are the law.

ghost use Rattle.std.specs.Prelude.{◌⊎◌, ℕ, Bool, List};
ghost use Rattle.std.specs.List.{Contains};
ghost use Rattle.braid_run.specs.Soundness.{Criteria};
ghost use Rattle.command.specs.declared.command.Command.{Command};
ghost use Rattle.replica.specs.Exchanges.{AreWhole, Exchange, IsToldRefused, TellsUnion, last_responder};
ghost use Rattle.replica.specs.Kept.{Kept};
ghost use Rattle.replica.specs.Sessions.{HoldsUnion, IsWhole, MayBeOne, Meet, Turn, WasRefused, last_answered};

use accept::laws::sound_commands_are_welcome;
use outside::Disk;

/// Join: behind a whole session the asker holds each command that the responder held at its last answer, or one of its takes refused that command since a
/// parent was missing, a finalize stood beside it, or there was no room. Where finalize commands of the union are in line and the union has room, no
/// take refused anything, and the asker holds the union.
pub fn sessions_join()
    ensures each { (criteria : Criteria) (id : List ℕ) (asker responder end : List Command) (turns : List Turn) → IsWhole criteria id asker responder turns end
        → Meet criteria id end (last_answered responder turns) → (command : Command) → Contains (last_answered responder turns) command → Contains end command ⊎ WasRefused turns command }
    ensures union { (criteria : Criteria) (id : List ℕ) (asker responder end : List Command) (turns : List Turn) → IsWhole criteria id asker responder turns end
        → Meet criteria id end (last_answered responder turns) → MayBeOne end (last_answered responder turns) → HoldsUnion turns end (last_answered responder turns) }
{
    sound_commands_are_welcome();
}

/// Join, by the calls of the two replicas over the bytes of their messages, where no call refuses: the asker holds each command that the responder held at
/// its last answer, or a reply tells that it was refused for now; and where the union could be one list, no reply tells of a refused command, and the
/// asker holds the union.
pub fn calls_join<D: Disk, E: Disk>()
    ensures each { (good : List ℕ → List ℕ → List ℕ → Bool) (criteria : Criteria) (id request : List ℕ) (asker : Kept D) (responder : Kept E) (exchanges : List (Exchange D E)) (end : List Command)
        → AreWhole good criteria id asker responder request exchanges end → Meet criteria id end (last_responder responder.held.commands exchanges) → (command : Command)
        → Contains (last_responder responder.held.commands exchanges) command → Contains end command ⊎ IsToldRefused exchanges command }
    ensures union { (good : List ℕ → List ℕ → List ℕ → Bool) (criteria : Criteria) (id request : List ℕ) (asker : Kept D) (responder : Kept E) (exchanges : List (Exchange D E)) (end : List Command)
        → AreWhole good criteria id asker responder request exchanges end → Meet criteria id end (last_responder responder.held.commands exchanges)
        → MayBeOne end (last_responder responder.held.commands exchanges) → TellsUnion exchanges end (last_responder responder.held.commands exchanges) }
{
    sound_commands_are_welcome();
}
