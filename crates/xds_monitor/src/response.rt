// The responses of a served replica to posts over HTTP.
ghost use Rattle.xds_monitor.specs.Responses.{IsResponseAt};

use crate::instrumented::Instrumented;
use crate::recording::Piece;
use bytes::Bytes;
use http::Response;
use http_body_util::Full;
use std::alloc::AllocGlobal;
use std::sync::Wait;
use std::time::Clock;
use xds_http::service::answer;
use xds_node::Host;
use xds_rest::served::Served;

/// The response to a post of this body at this path, as the server's connections give it: the status and the body of the replica's
/// reply to it, by a seat of its own. 503 where there is none, or no memory for the response. It may wait.
pub fn response_at<R: Wait + AllocGlobal, A: Served + Host<Segment: Piece>, C: Clock>(
    rt: &R,
    node: &Instrumented<A, C>,
    path: &str,
    body: &[u8],
) -> Response<Full<Bytes>>
    ensures { IsResponseAt A.replica path.now body.now result }
{
    answer(rt, node, path, body)
}
