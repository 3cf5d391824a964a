ghost use Rattle.std.specs.Prelude.{◌≡◌, ◌<◌, if◌then◌else◌, [], ◌∷◌, ◌++◌, drop, length, take, IfOk, OnOk};
ghost use Rattle.std.specs.List.{All};
ghost use Rattle.command.specs.Ancestors.{IsAt};
ghost use Rattle.command.specs.Closed.{has_id};
ghost use Rattle.command.specs.Wire.{IsInForm};
ghost use Rattle.sync_codec.specs.Messages.{IsRequestInForm, IsResponseInForm};
ghost use Rattle.sync_peer.specs.Messages.{IsAnswer, most_sent, response_of};
ghost use Rattle.sync_peer.specs.Missing.{AreMissing, held_ids};
ghost use Rattle.sync_peer.specs.working.Walks.{commands_at, is_among, unknown};

use crate::known::known_ids;
use base_bytes::{Id, Ids, NoMemory};
use command::{Command, Commands, Graph, Places};
use indexmap::IndexSet;
use std::alloc::Global;
use sync_codec::{Request, Response};

/// How many commands a response has at most.
const MOST_SENT: usize = 64;

fn is_held<G: Graph>(graph: &G, id: &Id) -> bool
    ensures { result ≡ has_id (G.commands graph.now) id.now }
{
    graph.place_of(id).is_some()
}

/// Those of the ids that the graph holds.
fn held_ids<G: Graph>(alloc: Global, graph: &G, ids: &[Id]) -> Result<Ids, NoMemory>
    ensures { IfOk result (λ held. held ≡ held_ids (G.commands graph.now) ids.now) }
{
    let mut held = Ids::new(alloc);
    for id in ids {
        if is_held(graph, id) {
            held.push(alloc, *id)?;
        }
    }
    Ok(held)
}

/// Adds a place, unless the id of the command there is known.
fn add_missing(
    alloc: Global,
    places: &mut Places,
    known: &IndexSet<Id>,
    id: &Id,
    place: usize,
) -> Result<(), NoMemory>
    ensures { OnOk result (places.new ≡ places.old ++ (if is_among known.now.keys id.now then [] else place ∷ [])) }
{
    if !known.contains(id) {
        places.push(alloc, place)?;
    }
    Ok(())
}

/// The places of the commands whose ids aren't known.
fn unknown_places<G: Graph>(
    alloc: Global,
    graph: &G,
    known: &IndexSet<Id>,
) -> Result<Places, NoMemory>
    ensures unknown { IfOk result (λ places. commands_at (G.commands graph.now) places ≡ unknown (G.commands graph.now) known.now.keys) }
    ensures within { IfOk result (All (λ place. place < length (G.commands graph.now))) }
{
    let mut places = Places::new(alloc);
    for place in 0..graph.len() {
        add_missing(alloc, &mut places, known, &graph.id_at(place), place)?;
    }
    Ok(places)
}

/// The places of the commands that are neither of the sample nor ancestors of one that is.
fn missing_places<G: Graph>(alloc: Global, graph: &G, sample: &[Id]) -> Result<Places, NoMemory>
    ensures missing { IfOk result (λ places. AreMissing (G.commands graph.now) sample.now (commands_at (G.commands graph.now) places)) }
    ensures within { IfOk result (All (λ p. p < length (G.commands graph.now))) }
{
    let known = known_ids(alloc, graph, sample)?;
    let places = unknown_places(alloc, graph, &known)?;
    Ok(places)
}

/// The places from one on.
fn rest(places: &[usize], from: usize) -> &[usize]
    ensures { result.now ≡ drop from places.now }
{
    if from < places.len() {
        &places[from..]
    } else {
        &places[places.len()..]
    }
}

/// As many of them as a response has at most.
fn first(places: &[usize]) -> &[usize]
    ensures { result.now ≡ take most_sent places.now }
{
    if MOST_SENT < places.len() {
        &places[..MOST_SENT]
    } else {
        places
    }
}

/// The command at a place.
fn command_at<G: Graph>(graph: &G, place: usize) -> &Command
    requires place { place < length (G.commands graph.now) }
    ensures at { IsAt (G.commands graph.now) place result.now }
    ensures formed { IsInForm result.now }
{
    graph.at(place)
}

fn copy_at<G: Graph>(alloc: Global, graph: &G, place: usize) -> Result<Command, NoMemory>
    requires place { place < length (G.commands graph.now) }
    ensures at { IfOk result (IsAt (G.commands graph.now) place) }
    ensures formed { IfOk result IsInForm }
{
    command_at(graph, place).copy(alloc)
}

/// Copies of the commands at these places.
fn copies<G: Graph>(alloc: Global, graph: &G, places: &[usize]) -> Result<Commands, NoMemory>
    requires within { All (λ p. p < length (G.commands graph.now)) places.now }
    ensures commands { IfOk result (λ commands. commands ≡ commands_at (G.commands graph.now) places.now) }
    ensures formed { IfOk result (All IsInForm) }
{
    let mut commands = Commands::new(alloc);
    for place in places {
        let command = copy_at(alloc, graph, *place)?;
        commands.push(alloc, command)?;
    }
    Ok(commands)
}

/// The response to a request, where these are the places of what is missing.
fn response<G: Graph>(
    alloc: Global,
    graph: &G,
    request: &Request,
    sample: Ids,
    missing: &[usize],
) -> Result<Response, NoMemory>
    requires form { IsRequestInForm request.now }
    requires sample { sample ≡ held_ids (G.commands graph.now) request.now.sample }
    requires within { All (λ p. p < length (G.commands graph.now)) missing.now }
    ensures response { IfOk result (λ response. response ≡ response_of (G.commands graph.now) request.now (commands_at (G.commands graph.now) missing.now)) }
    ensures formed { IfOk result (λ response. All IsInForm response.commands) }
{
    let rest = rest(missing, request.from as usize);
    let commands = copies(alloc, graph, first(rest))?;
    Ok(Response {
        graph: request.graph,
        sample,
        from: request.from,
        more: MOST_SENT < rest.len(),
        commands,
    })
}

/// The response of who holds this graph to a request about it: the commands that are neither of the held part of the request's sample nor ancestors of
/// one that is, in stored order, from the place on that is asked for, at most 64 of them. Each answer walks the graph twice: back for what is known, and
/// forward for what isn't. Running out of memory is the only error.
pub fn answer_to<G: Graph>(
    alloc: Global,
    graph: &G,
    request: &Request,
) -> Result<Response, NoMemory>
    requires form { IsRequestInForm request.now }
    ensures answer { IfOk result (λ response. IsAnswer (G.commands graph.now) request.now response) }
    ensures form { IfOk result (λ response. IsResponseInForm response) }
{
    let sample = held_ids(alloc, graph, request.sample.as_slice())?;
    let missing = missing_places(alloc, graph, sample.as_slice())?;
    let told = response(alloc, graph, request, sample, missing.as_slice())?;
    Ok(told)
}
