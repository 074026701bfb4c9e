// A poll for which no memory is found. With ample memory it is answered at once; `rt try --test
// --fail-alloc N` refuses the N-th allocation. The poll that comes again is answered as if the
// first had not been.
ghost use Rattle.std.specs.Prelude.{◌≡◌};

use crate::calls::shown;
use crate::server::same;
use std::alloc::Global;
use std::marker::Brand;
use std::sync::Wait;
use std::test::Fail;
use xds_node::{JournalLine, NodeName, Opened, Seat, SharedNode};
use xds_polls::HttpReply;
use xds_resource::Refusal;
use xds_rest::{answer_at, reply_at};

const PATH: &str = "/v3/discovery:secrets";

const NONE_HELD: &str =
    "200 {\"typeUrl\":\"type.googleapis.com/envoy.extensions.transport_sockets.tls.v3.Secret\",\
     \"versionInfo\":\"1.0.named\"}";

// That a reply tells that there are no secrets.
fn tells_none(alloc: Global, reply: HttpReply) -> Result<(), Fail> {
    same(shown(alloc, reply)?.as_str(), NONE_HELD, PATH)
}

// Whether the first poll by a seat was refused. The second is answered.
fn twice<N: NodeName, R: Wait>(
    rt: &R,
    alloc: Global,
    node: &SharedNode<N>,
    seat: &mut Seat<N>,
) -> Result<bool, Fail> {
    let first = answer_at(rt, alloc, node, seat, "POST", PATH, b"{}");
    let refused = matches!(first, Err(Refusal::OutOfMemory));
    drop(first);
    tells_none(
        alloc,
        answer_at(rt, alloc, node, seat, "POST", PATH, b"{}")?,
    )?;
    Ok(refused)
}

fn by_seat<N: NodeName, R: Wait>(
    rt: &R,
    alloc: Global,
    node: &SharedNode<N>,
) -> Result<bool, Fail> {
    let mut seat = node.seat(rt)?;
    let refused = twice(rt, alloc, node, &mut seat);
    drop(seat);
    refused
}

// The same where a full journal is cut: whether the first poll was unavailable.
fn cutting_twice<N: NodeName, R: Wait>(
    rt: &R,
    alloc: Global,
    node: &SharedNode<N>,
    seat: &mut Seat<N>,
) -> Result<bool, Fail> {
    let first = reply_at(rt, alloc, node, seat, "POST", PATH, b"{}");
    let unavailable = first.status == 503;
    drop(first);
    tells_none(alloc, reply_at(rt, alloc, node, seat, "POST", PATH, b"{}"))?;
    Ok(unavailable)
}

fn by_node<N: NodeName, R: Wait>(
    rt: &R,
    alloc: Global,
    node: &SharedNode<N>,
) -> Result<bool, Fail> {
    let mut seat = node.seat(rt)?;
    let unavailable = cutting_twice(rt, alloc, node, &mut seat);
    drop(seat);
    unavailable
}

fn either<N: NodeName, R: Wait>(rt: &R, alloc: Global, node: &SharedNode<N>) -> Result<bool, Fail> {
    let refused = by_seat(rt, alloc, node)?;
    Ok(by_node(rt, alloc, node)? || refused)
}

fn comes_again<N: NodeName, R: Wait>(
    rt: &R,
    alloc: Global,
    opened: Opened<JournalLine>,
) -> Result<bool, Fail>
    requires name { opened ≡ N.id }
    requires own { 1 ≡ N.replica }
{
    let node = SharedNode::<N>::new(alloc, opened, 1)?;
    let refused = either(rt, alloc, &node);
    drop(node);
    refused
}

#[test]
fn a_poll_without_memory(rt: HostRuntime) -> Result<(), Fail> {
    let opened = Opened::<JournalLine>::new(rt.alloc())?;
    if comes_again::<Brand, _>(&rt, rt.alloc(), opened)? {
        println!(rt; "refused, and went on")?;
    }
    Ok(())
}
