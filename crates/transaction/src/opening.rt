ghost use Rattle.std.specs.Prelude.{◌≡◌, ◌+◌, ◌≤◌, ℕ, List, Result, IfOk, length, nat_lt};
ghost use Rattle.command.specs.Closed.{max_commands};
ghost use Rattle.command_kinds.specs.Kinds.{kind_seen};
ghost use Rattle.transaction.specs.Drafts.{Draft};
ghost use Rattle.transaction.specs.Merging.{is_known, merge_two, merges};
ghost use Rattle.transaction.specs.Publishing.{added_commands, is_full, is_misplaced, opened};
ghost use Rattle.transaction.specs.working.Steps.{Merges, Opens, stepped};
ghost use Rattle.transaction.specs.declared.fault.ActFault.TheVariants as fault;

use crate::ActFault;
use crate::draft::Drafted;
use base_bytes::{Id, NoMemory, Text};
use command::{Command, Graph, MAX_COMMANDS, id_of};
use command_kinds::Kind;
use policy_ast::Name;
use policy_meaning::Why;
use std::alloc::Global;

/// Whether a command with this id is held or was made.
pub fn is_known<G: Graph>(graph: &G, draft: &Drafted, id: &Id) -> bool
    ensures { result ≡ is_known (G.commands graph.now) draft.now.commands id.now }
{
    graph.place_of(id).is_some() || draft.has_made(id)
}

/// What one turn of merging came to: a merge was made, or there is but one head, or the merge's id is known.
pub enum Turn {
    Merged,
    Whole,
    Known(Id),
}

/// Merges the two heads of smallest ids.
fn merge_two<G: Graph>(alloc: Global, graph: &G, draft: &mut Drafted) -> Result<Turn, NoMemory>
    ensures turn { IfOk result (λ turn. (more : Draft → Result Draft (List ℕ)) →
        merge_two (G.commands graph.now) draft.old draft.old.heads more ≡ stepped turn draft.new more) }
    ensures refusal { draft.new.refusal ≡ draft.old.refusal }
{
    let Some((left, right)) = draft.two_smallest() else {
        return Ok(Turn::Whole);
    };
    let merge = Command::Merge {
        cut: None,
        left,
        right,
    };
    let id = id_of(&merge);
    if is_known(graph, draft, &id) {
        return Ok(Turn::Known(id));
    }
    draft.add_merge(alloc, merge, id)?;
    Ok(Turn::Merged)
}

/// Merges the heads until one is left. The answer is the id of the first merge whose id is known, where there is one.
#[tactic(auto, using(crate::proofs::DraftTurns::ends_whole, crate::proofs::DraftTurns::ends_known, crate::proofs::DraftTurns::ends_last, crate::proofs::DraftTurns::turns_go))]
fn merge_all<G: Graph>(
    alloc: Global,
    graph: &G,
    draft: &mut Drafted,
) -> Result<Option<Id>, NoMemory>
    ensures merges { IfOk result (λ known. Merges (merges (G.commands graph.now) (length draft.old.heads) draft.old) known draft.new) }
    ensures refusal { draft.new.refusal ≡ draft.old.refusal }
{
    for turn in 0..draft.head_count() {
        match merge_two(alloc, graph, draft)? {
            Turn::Merged => {}
            Turn::Whole => return Ok(None),
            Turn::Known(id) => return Ok(Some(id)),
        }
    }
    Ok(None)
}

/// Whether a command of this kind is out of place: an init behind a head, or another one behind none.
fn is_misplaced(kind: Kind, has_head: bool) -> bool
    ensures { result ≡ is_misplaced (kind_seen kind) has_head }
{
    match kind {
        Kind::Init => has_head,
        _ => !has_head,
    }
}

/// How many commands the next publish adds.
#[tactic(auto, using(crate::proofs::DraftFacts::adds_merges, crate::proofs::DraftFacts::adds_one))]
fn added_commands(draft: &Drafted) -> usize
    ensures { result ≡ added_commands draft.now.heads }
{
    if draft.has_head() {
        draft.head_count()
    } else {
        1
    }
}

/// Whether so many held commands, made ones and further ones are more than a graph holds.
fn are_too_many(held: usize, made: usize, more: usize) -> bool
    requires { held ≤ max_commands }
    ensures { result ≡ nat_lt max_commands (held + made + more) }
{
    let room = MAX_COMMANDS - held;
    made > room || more > room - made
}

/// Whether the graph hasn't the room for what the next publish adds.
fn is_full<G: Graph>(graph: &G, draft: &Drafted) -> bool
    ensures { result ≡ is_full (G.commands graph.now) draft.now }
{
    are_too_many(graph.len(), draft.command_count(), added_commands(draft))
}

/// The fault of a command that the policy doesn't accept.
pub fn command_policy(alloc: Global, name: &Name, why: Why) -> Result<ActFault, NoMemory>
    ensures { IfOk result (λ it. it ≡ fault.CommandPolicy name.now why) }
{
    Ok(ActFault::CommandPolicy(Text::from_slice(alloc, name.as_str())?, why))
}

/// Merges the heads for a command of this name and kind, or tells why it isn't sealed.
pub fn open<G: Graph>(
    alloc: Global,
    graph: &G,
    draft: &mut Drafted,
    name: &Name,
    kind: Kind,
) -> Result<Option<ActFault>, NoMemory>
    ensures opens { IfOk result (λ why. Opens (opened (G.commands graph.now) draft.old (record { name = name.now; kind = kind_seen kind })) why draft.new) }
    ensures refusal { draft.new.refusal ≡ draft.old.refusal }
{
    if is_misplaced(kind, draft.has_head()) {
        return Ok(Some(command_policy(alloc, name, Why::WrongKind)?));
    }
    if is_full(graph, draft) {
        return Ok(Some(ActFault::Full));
    }
    match merge_all(alloc, graph, draft)? {
        Some(id) => Ok(Some(ActFault::Collision(id))),
        None => Ok(None),
    }
}
