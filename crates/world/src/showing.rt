//! The lines that change nothing: what a replica holds, in words.

ghost use Rattle.std.specs.Prelude.{◌≡◌, length, true};
ghost use Rattle.script_texts.specs.Replies.{replica_text};
ghost use Rattle.state_texts.specs.States.{graph_text};
ghost use Rattle.world.specs.Lines.{ShowsEffects, ShowsFacts};
ghost use Rattle.world.specs.Worlds.{Of};
ghost use Rattle.world.specs.working.Places.{is_named};
ghost use Rattle.world.specs.working.Running.{Showing};

use crate::named::{Named, replica_of};
use crate::stop::RunStop;
use base_bytes::{Bytes, Text};
use command::Graph;
use fact_store::FactBase;
use outside::Disk;
use policy_meaning::Runner;
use script_texts::replica_text;
use state_texts::{effects_text, facts_text, graph_text};
use std::alloc::Global;

/// `replica A`
pub fn replica_line<R: Runner, G: Graph, F: FactBase, D: Disk>(
    alloc: Global,
    replicas: &[Named<R, G, F, D>],
    name: &Text,
) -> Result<Bytes, RunStop>
    requires there { is_named replicas.now name.now ≡ true }
    ensures line { Showing (λ text. Of replicas.now name.now (λ kept. text ≡ replica_text name.now (length kept.held.commands))) result }
{
    let state = replica_of(replicas, name).state();
    Ok(replica_text(alloc, name, state.graph().len())?)
}

/// `facts A`
pub fn facts_line<R: Runner, G: Graph, F: FactBase, D: Disk>(
    alloc: Global,
    replicas: &[Named<R, G, F, D>],
    name: &Text,
) -> Result<Bytes, RunStop>
    requires there { is_named replicas.now name.now ≡ true }
    ensures line { Showing (λ text. Of replicas.now name.now (λ kept. ShowsFacts name.now kept text)) result }
{
    let replica = replica_of(replicas, name);
    Ok(facts_text(alloc, replica.policy(), name, replica.state().facts())?)
}

/// `effects A`
pub fn effects_line<R: Runner, G: Graph, F: FactBase, D: Disk>(
    alloc: Global,
    replicas: &[Named<R, G, F, D>],
    name: &Text,
) -> Result<Bytes, RunStop>
    requires there { is_named replicas.now name.now ≡ true }
    ensures line { Showing (λ text. Of replicas.now name.now (λ kept. ShowsEffects name.now kept text)) result }
{
    let replica = replica_of(replicas, name);
    Ok(effects_text(
        alloc,
        replica.policy().items(),
        name,
        replica.state().entries().as_slice(),
    )?)
}

/// `graph A`
pub fn graph_line<R: Runner, G: Graph, F: FactBase, D: Disk>(
    alloc: Global,
    replicas: &[Named<R, G, F, D>],
    name: &Text,
) -> Result<Bytes, RunStop>
    requires there { is_named replicas.now name.now ≡ true }
    ensures line { Showing (λ text. Of replicas.now name.now (λ kept. text ≡ graph_text name.now kept.held.commands)) result }
{
    let state = replica_of(replicas, name).state();
    Ok(graph_text(alloc, name, state.graph())?)
}
