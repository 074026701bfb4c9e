// A node as what replies over HTTP.
use std::alloc::Global;
use std::sync::Wait;
use xds_http::{Replies, Seats};
use xds_node::{NodeName, Seat, SharedNode};
use xds_polls::HttpReply;
use xds_resource::Refusal;
use xds_rest::reply_at;

/// A node that posts ask, each by a seat of its own.
pub(crate) struct Asked<N: NodeName> {
    pub(crate) node: SharedNode<N>,
}

impl<N: NodeName> Drop for Asked<N> {
    fn drop(self) {
        let Asked { node: _ } = self;
    }
}

impl<N: NodeName> Replies for Asked<N> {
    ghost use Rattle.std.specs.Prelude.{codes};
    ghost use Rattle.xds_rest.specs.Posted.{IsReplyOrUnavailable};

    type Seat = Seat<N>;

    ghost replies = { λ old new path body r. IsReplyOrUnavailable N.replica (codes "POST") path body old new r };

    fn reply<R: Wait>(
        &self,
        rt: &R,
        alloc: Global,
        seat: &mut Seat<N>,
        path: &str,
        body: &[u8],
    ) -> HttpReply {
        reply_at(rt, alloc, &self.node, seat, "POST", path, body)
    }
}

impl<N: NodeName> Seats for Asked<N> {
    ghost use Rattle.std.specs.Prelude.{◌≡◌};
    ghost use Rattle.xds_node.specs.Told.{no_calls};

    ghost fresh = { λ s. s ≡ no_calls };

    fn seat<R: Wait>(&self, rt: &R) -> Result<Seat<N>, Refusal> {
        self.node.seat(rt)
    }
}
