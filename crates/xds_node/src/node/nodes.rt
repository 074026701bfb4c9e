// A node, as its workers know it.

use crate::node::desk::WaitEnd;
use crate::node::rule::NodeName;
use crate::node::seat::{Seat, Unrecorded};
use crate::node::segment::Segment;
use crate::node::shared::SharedNode;
use crate::streams::hosts::Host;
use futures::task::{Context, Poll};
use std::sync::Wait;
use xds_core::{Event, Marks, Reply};
use xds_resource::Refusal;

impl<N: NodeName> Host for SharedNode<N> {
    ghost use Rattle.std.specs.Prelude.{◌≡◌};

    type Seat = Seat<N>;

    type Segment = Segment<N>;

    ghost told = { λ s. s.told };

    ghost refused = { λ s. s.refused };

    ghost rings = { λ n s. s ≡ n.due.id };

    fn call<R: Wait>(
        &self,
        rt: &R,
        seat: &mut Seat<N>,
        event: Event,
    ) -> Result<Result<Reply, Refusal>, Unrecorded> {
        SharedNode::call(self, rt, seat, event)
    }

    fn cut<R: Wait>(&self, rt: &R) -> Result<Segment<N>, Refusal> {
        SharedNode::cut(self, rt)
    }

    fn cut_full<R: Wait>(&self, rt: &R) -> Result<Option<Segment<N>>, Refusal> {
        SharedNode::cut_full(self, rt)
    }

    fn wait_due<R: Wait>(&self, rt: &R, stream: u64) -> WaitEnd {
        SharedNode::wait_due(self, rt, stream)
    }

    fn poll_due<R: Wait>(&self, rt: &R, cx: &mut Context<'_>, stream: u64) -> Poll<WaitEnd> {
        SharedNode::poll_due(self, rt, cx, stream)
    }

    fn wait_changed<R: Wait>(&self, rt: &R, seen: Marks) -> Option<Marks> {
        SharedNode::wait_changed(self, rt, seen)
    }
}
