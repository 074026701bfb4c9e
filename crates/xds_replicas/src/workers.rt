// A replica whose calls may come from several threads.
use std::sync::{Arc, Wait};
use xds_node::Host;
use xds_resource::Refusal;
use xds_rest::{Posts, Served};

/// A replica whose calls may come from several threads.
pub trait Shared: Served
    + Host<Seat: Send, Segment: Send>
    + Posts<PostSeat: Send>
    + Drop
    + Send
    + Sync
    + 'static {}

impl<A> Shared for A
where
    A: Served
        + Host<Seat: Send, Segment: Send>
        + Posts<PostSeat: Send>
        + Drop
        + Send
        + Sync
        + 'static,
{}

/// A seat at a node, and a share of the node.
pub fn place<R: Wait, A: Served + Drop>(
    rt: &R,
    node: &Arc<A>,
) -> Result<(A::Seat, Arc<A>), Refusal> {
    let seat = node.seat(rt)?;
    let node = Arc::try_clone(node)?;
    Ok((seat, node))
}
