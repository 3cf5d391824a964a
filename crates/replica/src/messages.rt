ghost use Rattle.std.specs.Prelude.{Err, Ok};
ghost use Rattle.replica.specs.Messages.{IsRequestRead, IsResponseRead};
ghost use Rattle.replica.specs.Steps.{IsReply};
ghost use Rattle.replica.specs.working.Readings.{refused_for};
ghost use Rattle.std.specs.Prelude.{◌≡◌};

use crate::refusal::Refusal;
use base_bytes::Id;
use std::alloc::Global;
use sync_codec::{Request, Response};

/// Why a message about this graph isn't for a replica of that one.
fn refusal_for(graph: &Id, graph_id: &Option<Id>) -> Option<Refusal>
    ensures { result ≡ refused_for graph.now graph_id.now }
{
    let Some(own) = graph_id else {
        return Some(Refusal::NoGraph);
    };
    if *graph == *own {
        return None;
    }
    Some(Refusal::OtherGraph(*graph))
}

/// The response that the bytes spell, for a replica of the graph.
pub fn response_for(alloc: Global, bytes: &[u8], graph_id: &Option<Id>) -> Result<Response, Refusal>
    ensures { IsReply (λ response. IsResponseRead bytes.now graph_id.now (Ok response)) (λ why. IsResponseRead bytes.now graph_id.now (Err why)) result }
{
    let Some(response) = Response::from_bytes(alloc, bytes)? else {
        return Err(Refusal::Malformed);
    };
    match refusal_for(&response.graph, graph_id) {
        Some(refusal) => Err(refusal),
        None => Ok(response),
    }
}

/// The request that the bytes spell, for a replica of the graph.
pub fn request_for(alloc: Global, bytes: &[u8], graph_id: &Option<Id>) -> Result<Request, Refusal>
    ensures { IsReply (λ request. IsRequestRead bytes.now graph_id.now (Ok request)) (λ why. IsRequestRead bytes.now graph_id.now (Err why)) result }
{
    let Some(request) = Request::from_bytes(alloc, bytes)? else {
        return Err(Refusal::Malformed);
    };
    match refusal_for(&request.graph, graph_id) {
        Some(refusal) => Err(refusal),
        None => Ok(request),
    }
}
