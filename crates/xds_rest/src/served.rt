// A node, as the server knows it.
use crate::Posts;
use std::sync::Wait;
use xds_node::{Host, NodeName, Seat, SharedNode};
use xds_resource::Refusal;

/// A replica that a server runs: its worker threads call it by seats, and posts ask it. [`SharedNode`] is one.
pub trait Served: Host + Posts {
    ghost use Rattle.std.specs.Prelude.{◌≡◌, [], IfOk, IfErr};

    /// A seat, which made no call. `CounterSpent` where no more can be counted. It may wait.
    fn seat<R: Wait>(&self, rt: &R) -> Result<Self::Seat, Refusal>
        ensures told { IfOk result (λ s. (Self.told s ≡ []) × (Self.refused s ≡ [])) }
        ensures refused { IfErr result (λ e. e ≡ Refusal.CounterSpent) };

    /// From here on to `release` no writer begins a response, so that several changes make one. It may wait.
    fn hold<R: Wait>(&self, rt: &R);

    /// Ends what `hold` began. It may wait.
    fn release<R: Wait>(&self, rt: &R);
}

impl<N: NodeName> Served for SharedNode<N> {
    fn seat<R: Wait>(&self, rt: &R) -> Result<Seat<N>, Refusal> {
        SharedNode::seat(self, rt)
    }

    fn hold<R: Wait>(&self, rt: &R) {
        SharedNode::hold(self, rt)
    }

    fn release<R: Wait>(&self, rt: &R) {
        SharedNode::release(self, rt)
    }
}
