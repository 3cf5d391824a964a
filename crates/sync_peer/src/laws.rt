//! The laws of sessions, over the definitions alone. These functions do nothing; their contracts are the laws.

ghost use Rattle.std.specs.Prelude.{◌≤◌, ◌∷◌, ℕ, List, length, Some};
ghost use Rattle.command.specs.Closed.{IsClosed, max_commands};
ghost use Rattle.command.specs.declared.command.Command.{Command};
ghost use Rattle.sync_codec.specs.declared.request.Request.{Request};
ghost use Rattle.sync_peer.specs.Laws.{ArePartedInOrder, HasOneMissing, IsSmallSample, NameHeldIds};
ghost use Rattle.sync_peer.specs.Missing.{AreMissing, held_ids};
ghost use Rattle.sync_peer.specs.Sessions.{Answer, IsSession, all_sent, last_held};

/// A sample has at most 17 ids, and each is that of a command. In the sample of a closed list no id stands twice.
pub fn samples_are_small()
    ensures { (commands : List Command) → length commands ≤ max_commands → IsSmallSample commands }
{}

/// What is missing beyond a sample is one list.
pub fn samples_have_one_missing_list()
    ensures { (commands : List Command) (sample : List (List ℕ)) → IsClosed commands → HasOneMissing commands sample }
{}

/// Each command is known from a sample or missing, and not both; the parents of a missing one are known, or are missing and stand before it.
pub fn missing_commands_stand_behind_their_parents()
    ensures { (commands : List Command) (sample : List (List ℕ)) (missing : List Command) → IsClosed commands → AreMissing commands sample missing → ArePartedInOrder commands sample missing }
{}

/// A session sends just what is missing: each command that the responder held at its last answer, and that is neither of the sample's part that it held at
/// its first answer nor an ancestor of one that is, once, in stored order. Each id in the sample of a response, which the next request repeats, is held by the
/// responder then.
pub fn sessions_send_what_is_missing()
    ensures missing { (held : List Command) (graph : List ℕ) (sample : List (List ℕ)) (answer : Answer) (answers : List Answer)
        → IsSession held (Some (record { graph = graph; sample = sample; from = 0 })) (answer ∷ answers)
        → AreMissing (last_held held (answer ∷ answers)) (held_ids answer.held sample) (all_sent (answer ∷ answers)) }
    ensures held { (held : List Command) (request : Request) (answers : List Answer) → IsSession held (Some request) answers → NameHeldIds answers }
{}
