ghost use Rattle.std.specs.Prelude.{◌≡◌, ◌-◌, [], ◌∷◌, ◌++◌, filter, map, nat_le, IfOk, IfSome, OnOk};
ghost use Rattle.sync_codec.specs.Messages.{IsRequestInForm, IsResponseInForm};
ghost use Rattle.sync_peer.specs.Messages.{next_of, request_of};
ghost use Rattle.sync_peer.specs.Samples.{ids_at, last_places, sample, sample_places, with_first};

use base_bytes::{Id, Ids, NoMemory};
use command::{Graph, Places};
use std::alloc::Global;
use sync_codec::{Request, Response};

/// How far from behind the last command the ids of a sample stand.
const DISTANCES: [usize; 17] = [
    1, 2, 4, 8, 16, 32, 64, 128, 256, 512, 1024, 2048, 4096, 8192, 16384, 32768, 65536,
];

/// The places at these distances from behind the last of so many commands.
fn places_at(alloc: Global, len: usize, distances: &[usize]) -> Result<Places, NoMemory>
    ensures { IfOk result (λ places. places ≡ map (λ distance. len - distance) (filter (λ distance. nat_le distance len) distances.now)) }
{
    let mut places = Places::new(alloc);
    for distance in distances {
        if *distance <= len {
            places.push(alloc, len - *distance)?;
        }
    }
    Ok(places)
}

#[tactic(auto, unfolding(crate::specs::Samples::distances))]
fn last_places(alloc: Global, len: usize) -> Result<Places, NoMemory>
    ensures { IfOk result (λ places. places ≡ last_places len) }
{
    places_at(alloc, len, &DISTANCES)
}

fn add_first(alloc: Global, places: &mut Places) -> Result<(), NoMemory>
    ensures { OnOk result (places.new ≡ with_first places.old) }
{
    if !places.as_slice().contains(&0) {
        places.push(alloc, 0)?;
    }
    Ok(())
}

fn sample_places(alloc: Global, len: usize) -> Result<Places, NoMemory>
    ensures { IfOk result (λ places. places ≡ sample_places len) }
{
    if len == 0 {
        return Ok(Places::new(alloc));
    }
    let mut places = last_places(alloc, len)?;
    add_first(alloc, &mut places)?;
    Ok(places)
}

/// Adds the id of the command at a place, where there is one.
fn add_id<G: Graph>(alloc: Global, graph: &G, place: usize, ids: &mut Ids) -> Result<(), NoMemory>
    ensures { OnOk result (ids.new ≡ ids.old ++ ids_at (G.commands graph.now) (place ∷ [])) }
{
    if place < graph.len() {
        ids.push(alloc, graph.id_at(place))?;
    }
    Ok(())
}

fn ids_at<G: Graph>(alloc: Global, graph: &G, places: &[usize]) -> Result<Ids, NoMemory>
    ensures { IfOk result (λ ids. ids ≡ ids_at (G.commands graph.now) places.now) }
{
    let mut ids = Ids::new(alloc);
    for place in places {
        add_id(alloc, graph, *place, &mut ids)?;
    }
    Ok(ids)
}

fn sample<G: Graph>(alloc: Global, graph: &G) -> Result<Ids, NoMemory>
    ensures { IfOk result (λ ids. ids ≡ sample (G.commands graph.now)) }
{
    let places = sample_places(alloc, graph.len())?;
    let ids = ids_at(alloc, graph, places.as_slice())?;
    Ok(ids)
}

/// The request that begins a session about the graph of this id: it asks for all that isn't known from a sample of the graph, of at most 17 ids.
/// Running out of memory is the only error.
pub fn first_request<G: Graph>(alloc: Global, graph: &G, id: &Id) -> Result<Request, NoMemory>
    ensures request { IfOk result (λ request. request ≡ request_of id.now (G.commands graph.now)) }
    ensures form { IfOk result (λ request. IsRequestInForm request) }
{
    let sample = sample(alloc, graph)?;
    Ok(Request {
        graph: *id,
        sample,
        from: 0,
    })
}

/// The request that follows a response, and None exactly where no more commands follow. Running out of memory is the only error.
pub fn next_request(alloc: Global, response: &Response) -> Result<Option<Request>, NoMemory>
    requires form { IsResponseInForm response.now }
    ensures next { IfOk result (λ next. next ≡ next_of response.now) }
    ensures form { IfOk result (λ next. IfSome next (λ request. IsRequestInForm request)) }
{
    if !response.more {
        return Ok(None);
    }
    Ok(Some(Request {
        graph: response.graph,
        sample: response.sample.copy(alloc)?,
        from: response.from + response.commands.len() as u32,
    }))
}
