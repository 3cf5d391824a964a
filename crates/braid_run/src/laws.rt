//! The laws of runs, over the definitions alone. These functions do nothing; their contracts are the laws.

ghost use Rattle.std.specs.Prelude.{◌≡◌, ◌<◌, ◌⊎◌, ℕ, true, false, List, [], ◌∷◌, ◌++◌, drop, length, map, Option};
ghost use Rattle.std.specs.List.{All, Contains};
ghost use Rattle.braid.specs.Agreeing.{Agree};
ghost use Rattle.braid_run.specs.Batches.{AreChanges, Change, IsBatch, all_followed, commands_behind, shared_entries};
ghost use Rattle.braid_run.specs.Laws.{HasOneBatch, HasOneRun, HasPlaceFacts, HasTip, HaveOneRun, PlaceFactsStay, StaysFinal};
ghost use Rattle.braid_run.specs.Places.{AgreeOnIds, AreAtPlace};
ghost use Rattle.braid_run.specs.Published.{ArePublished, IsBehindAll, IsCovered, IsSoleHead, continued_run, head_ids};
ghost use Rattle.braid_run.specs.RunOf.{AreEntriesOf, IsRunOf};
ghost use Rattle.braid_run.specs.RunAbove.{AreRowsOfAll, AreRowsTo};
ghost use Rattle.braid_run.specs.Runs.{rows_behind, run_of};
ghost use Rattle.policy_meaning.specs.Commands.{judged};
ghost use Rattle.braid_run.specs.Soundness.{AreLawful, IsSoundExtension, IsLawful, IsSound, Criteria};
ghost use Rattle.braid_run.specs.States.{Held, IsStanding, MayFollow, extended};
ghost use Rattle.braid_run.specs.declared.entry.Entry.{Entry};
ghost use Rattle.command.specs.Ancestors.{AreInLine, heads};
ghost use Rattle.command.specs.Closed.{IsClosed, IsHeld};
ghost use Rattle.command.specs.Kinds.{is_finalize, is_merge, parents_of};
ghost use Rattle.command.specs.Wire.{command_id};
ghost use Rattle.command.specs.declared.command.Command.{Command};
ghost use Rattle.fact_store.specs.declared.row.Row.{Row};
ghost use Rattle.policy_ast.specs.declared.policy.PlacedItem.{PlacedItem};

/// A closed list of commands has one run: there are facts and entries, and no others. A run has one entry a command, with its id, in their order.
pub fn lists_have_one_run()
    ensures named { (policy : List PlacedItem) (commands : List Command) → map (λ e. e.id) (run_of policy commands).entries ≡ map command_id commands }
    ensures one { (policy : List PlacedItem) (commands : List Command) → IsClosed commands → HasOneRun policy commands }
{}

/// Convergence: closed lists that agree have equal facts and equal entries under one policy, whatever their merges and the orders in which they stand.
pub fn convergence()
    ensures { (policy : List PlacedItem) (one other : List Command) → IsClosed one → IsClosed other → Agree one other → HaveOneRun policy one other }
{}

/// Finality: what stands up to a finalize stays. Its closure's braid and entries begin those of the list, and of each longer list whose finalize
/// commands are in line.
pub fn finality()
    ensures here { (policy : List PlacedItem) (commands : List Command) (f : Command) → IsClosed commands → AreInLine commands → Contains commands f → is_finalize f ≡ true
        → StaysFinal policy commands commands f }
    ensures later { (policy : List PlacedItem) (commands more : List Command) (f : Command) → IsClosed (commands ++ more) → AreInLine (commands ++ more) → Contains commands f
        → is_finalize f ≡ true → StaysFinal policy commands (commands ++ more) f }
{}

/// Batches: a reader that has the entries of a list, and then follows the batch of each change, has after each of them the entries of what is held.
/// From one closed list to another there is one batch. Where commands are added, its cut is found from the entries alone.
pub fn batches()
    ensures one { (policy : List PlacedItem) (old new : List Command) → IsClosed old → IsClosed new → HasOneBatch policy old new }
    ensures found { (policy : List PlacedItem) (commands more : List Command) (entries news : List Entry) → IsClosed (commands ++ more) → AreEntriesOf policy commands entries
        → AreEntriesOf policy (commands ++ more) news
        → IsBatch policy commands (commands ++ more) (record { cut = shared_entries entries news; entries = drop (shared_entries entries news) news }) }
    ensures followed { (policy : List PlacedItem) (commands : List Command) (entries : List Entry) (changes : List Change) → IsClosed commands → AreEntriesOf policy commands entries
        → AreChanges policy commands changes → AreEntriesOf policy (commands_behind commands changes) (all_followed entries changes) }
{}

/// Each command, held or not, has facts at its place and no others. Where its parents are held, an append leaves them; and where two lists hold its
/// parents, and no id is two commands in them, they have the same facts at its place.
pub fn commands_have_places()
    ensures place { (policy : List PlacedItem) (commands : List Command) (command : Command) → IsClosed commands → HasPlaceFacts policy commands command }
    ensures stays { (policy : List PlacedItem) (commands : List Command) (command : Command) → ((id : List ℕ) → Contains (parents_of command) id → IsHeld commands id)
        → PlaceFactsStay policy commands command }
    ensures across { (policy : List PlacedItem) (one other : List Command) (command : Command) (rows : List Row) → IsClosed one → IsClosed other → AgreeOnIds one other
        → ((id : List ℕ) → Contains (parents_of command) id → IsHeld one id × IsHeld other id) → AreAtPlace policy one command rows → AreAtPlace policy other command rows }
{}

/// Where a command may be added to what stands, what is held then stands.
pub fn additions_stand()
    ensures { (graph_id : Option (List ℕ)) (commands : List Command) (command : Command) → IsStanding graph_id commands → MayFollow graph_id commands command
        → IsStanding graph_id (commands ++ command ∷ []) }
{}

/// A sound state stays sound where lawful commands are added with the entries and the facts of the new run. A command that is lawful where it stands
/// stays so, and is lawful in another list that holds its parents, where no id is two commands in the two.
pub fn extensions_stay_sound()
    ensures lawful { (criteria : Criteria) (commands more : List Command) (command : Command) → IsClosed (commands ++ more)
        → ((id : List ℕ) → Contains (parents_of command) id → IsHeld commands id) → IsLawful criteria commands command → IsLawful criteria (commands ++ more) command }
    ensures across { (criteria : Criteria) (one other : List Command) (command : Command) → IsClosed one → IsClosed other → AgreeOnIds one other
        → ((id : List ℕ) → Contains (parents_of command) id → IsHeld one id × IsHeld other id) → IsLawful criteria one command → IsLawful criteria other command }
    ensures state { (criteria : Criteria) (held : Held) (more : List Command) (cut : ℕ) (rows : List Row) (entries : List Entry) → IsStanding held.graph_id (held.commands ++ more)
        → IsSound criteria held → IsSoundExtension criteria held.commands more cut rows entries → IsSound criteria (extended held more cut rows entries) }
{}

/// The heads of a list are places of it, as the tips of a run have to be.
pub fn heads_are_places()
    ensures { (commands : List Command) → All (λ place. place < length commands) (heads commands) }
{}

/// Commands that are published run last: the run of all goes on from the facts and the entries held, and merges change nothing. Each is published
/// over the facts at its place, which are the facts held by then. So lawful ones keep a sound state sound, with all its entries as they are, and they
/// are the batch from what was held.
pub fn published_commands_run_last()
    ensures run { (policy : List PlacedItem) (commands more : List Command) (rows : List Row) (entries : List Entry) → IsClosed (commands ++ more) → ArePublished commands more
        → IsRunOf policy commands rows entries → IsRunOf policy (commands ++ more) (continued_run policy rows entries more).rows (continued_run policy rows entries more).entries }
    ensures place { (policy : List PlacedItem) (commands : List Command) (command : Command) (rows others : List Row) (entries : List Entry) → IsClosed commands
        → IsBehindAll commands command → IsRunOf policy commands rows entries → AreAtPlace policy commands command others → others ≡ rows }
    ensures sound { (criteria : Criteria) (held : Held) (more : List Command) → IsClosed (held.commands ++ more) → ArePublished held.commands more → IsSound criteria held
        → AreLawful criteria (held.commands ++ more) more
        → IsSoundExtension criteria held.commands more (length held.entries) (continued_run criteria.policy held.rows [] more).rows (continued_run criteria.policy held.rows [] more).entries }
    ensures batch { (policy : List PlacedItem) (commands more : List Command) (rows : List Row) (entries : List Entry) → IsClosed (commands ++ more) → ArePublished commands more
        → IsRunOf policy commands rows entries
        → IsBatch policy commands (commands ++ more) (record { cut = length entries; entries = (continued_run policy rows [] more).entries }) }
    ensures tip { (commands : List Command) → IsClosed commands → HasTip commands }
{}

/// The heads cover all that is held. What is added covers what its parents covered. A command that has all of what covers as parents stands behind all
/// that is held.
pub fn heads_cover_all()
    ensures heads { (commands : List Command) → IsClosed commands → IsCovered commands (head_ids commands) }
    ensures next { (commands : List Command) (command : Command) (ids others : List (List ℕ)) → IsCovered commands ids
        → ((id : List ℕ) → Contains ids id → Contains (parents_of command) id ⊎ Contains others id) → IsCovered (commands ++ command ∷ []) (command_id command ∷ others) }
    ensures behind { (commands : List Command) (command : Command) (ids : List (List ℕ)) → IsCovered commands ids
        → ((id : List ℕ) → Contains ids id → Contains (parents_of command) id) → IsBehindAll commands command }
{}

/// Facts kept of the closure of a command. They are those behind the command over the facts at its place, and where it is the one head, the present
/// facts. An append leaves them. They are the facts at the place of a command whose one parent it is.
pub fn kept_facts_go_on()
    ensures behind { (policy : List PlacedItem) (commands : List Command) (command : Command) (rows : List Row) → IsClosed (commands ++ command ∷ []) → is_merge command ≡ false
        → AreAtPlace policy commands command rows → AreRowsTo policy (commands ++ command ∷ []) command (rows_behind (judged policy rows command) rows) }
    ensures head { (policy : List PlacedItem) (commands : List Command) (f : Command) (rows : List Row) → IsSoleHead commands f → AreRowsOfAll policy commands rows → AreRowsTo policy commands f rows }
    ensures stay { (policy : List PlacedItem) (commands more : List Command) (f : Command) (rows : List Row) → IsClosed commands → IsClosed (commands ++ more) → Contains commands f
        → AreRowsTo policy commands f rows → AreRowsTo policy (commands ++ more) f rows }
    ensures child { (policy : List PlacedItem) (commands : List Command) (f command : Command) (rows : List Row) → IsClosed commands → Contains commands f
        → parents_of command ≡ command_id f ∷ [] → AreRowsTo policy commands f rows → AreAtPlace policy commands command rows }
{}
