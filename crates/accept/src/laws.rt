//! The laws of admission, over the definitions alone. These functions do nothing; their contracts are the laws.

ghost use Rattle.std.specs.Prelude.{◌≡◌, ℕ, List, [], ◌∷◌, ◌++◌, Option};
ghost use Rattle.std.specs.List.{All, Contains};
ghost use Rattle.accept.specs.Admission.{IsAdmission};
ghost use Rattle.accept.specs.Laws.{HasOneAnswer, HasOneTally, IsWelcome};
ghost use Rattle.accept.specs.Takes.{IsTake, Tally};
ghost use Rattle.accept.specs.declared.answer.Admit.{Admit};
ghost use Rattle.accept.specs.declared.answer.Admit.TheVariants.{Added};
ghost use Rattle.braid_run.specs.Places.{AgreeOnIds};
ghost use Rattle.braid_run.specs.Soundness.{AreSound, Criteria};
ghost use Rattle.braid_run.specs.States.{IsStanding, MayFollow};
ghost use Rattle.command.specs.Closed.{IsClosed};
ghost use Rattle.command.specs.Wire.{IsFormed};
ghost use Rattle.command.specs.declared.command.Command.{Command};

/// One thing, and no other, becomes of a command.
pub fn commands_have_one_answer()
    ensures { (criteria : Criteria) (graph_id : Option (List ℕ)) (commands : List Command) (command : Command) → IsClosed commands → HasOneAnswer criteria graph_id commands command }
{}

/// An added command may follow what stands, and a sound list stays sound with it.
pub fn added_commands_are_sound()
    ensures follows { (criteria : Criteria) (graph_id : Option (List ℕ)) (commands : List Command) (command : Command) → IsStanding graph_id commands → IsFormed command
        → IsAdmission criteria graph_id commands command Added → MayFollow graph_id commands command }
    ensures sound { (criteria : Criteria) (graph_id : Option (List ℕ)) (commands : List Command) (command : Command) → AreSound criteria graph_id commands → IsFormed command
        → IsAdmission criteria graph_id commands command Added → AreSound criteria graph_id (commands ++ command ∷ []) }
{}

/// A command of a sound list, at whatever list that has no id for another command: it is added or a repeat, or is refused for what is held there. Nothing
/// else is ever against it.
pub fn sound_commands_are_welcome()
    ensures { (criteria : Criteria) (graph_id : Option (List ℕ)) (commands sound : List Command) (command : Command) (answer : Admit) → IsClosed commands
        → AreSound criteria graph_id sound → AgreeOnIds commands sound → Contains sound command → IsAdmission criteria graph_id commands command answer → IsWelcome commands command answer }
{}

/// The take of a list comes to one tally, and to no other; what is held then stands, and is sound where it was before.
pub fn takes_keep_soundness()
    ensures one { (criteria : Criteria) (graph_id : Option (List ℕ)) (commands list : List Command) → IsStanding graph_id commands → All IsFormed list
        → HasOneTally criteria graph_id commands list }
    ensures standing { (criteria : Criteria) (graph_id : Option (List ℕ)) (commands list : List Command) (tally : Tally) → IsStanding graph_id commands → All IsFormed list
        → IsTake criteria graph_id commands list tally → IsStanding graph_id (commands ++ tally.added) }
    ensures sound { (criteria : Criteria) (graph_id : Option (List ℕ)) (commands list : List Command) (tally : Tally) → AreSound criteria graph_id commands → All IsFormed list
        → IsTake criteria graph_id commands list tally → AreSound criteria graph_id (commands ++ tally.added) }
{}
