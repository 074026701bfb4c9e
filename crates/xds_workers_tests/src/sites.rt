// Nodes, as these tests know them: by traits alone, so that to drop one is a single step of a
// proof.
ghost use Rattle.std.specs.Prelude.{◌≡◌};

use std::alloc::{AllocGlobal, Global};
use std::marker::Brand;
use std::random::RandomSource;
use std::sync::Wait;
use xds_node::{Host, JournalLine, NodeName, Opened, Seat, SharedNode};
use xds_resource::Refusal;

/// What a test asks of a node beside what its worker threads do.
pub(crate) trait Site: Host + Drop {
    /// A seat for a thread.
    fn seat<R: Wait>(&self, rt: &R) -> Result<Self::Seat, Refusal>;

    /// Tells those that wait for changes that none will be made any more.
    fn stop<R: Wait>(&self, rt: &R);

    /// Holds writers back.
    fn hold<R: Wait>(&self, rt: &R);

    /// Holds them back no longer.
    fn release<R: Wait>(&self, rt: &R);
}

impl<N: NodeName> Site for SharedNode<N> {
    fn seat<R: Wait>(&self, rt: &R) -> Result<Seat<N>, Refusal> {
        SharedNode::seat(self, rt)
    }

    fn stop<R: Wait>(&self, rt: &R) {
        SharedNode::stop(self, rt)
    }

    fn hold<R: Wait>(&self, rt: &R) {
        SharedNode::hold(self, rt);
    }

    fn release<R: Wait>(&self, rt: &R) {
        SharedNode::release(self, rt);
    }
}

/// The values of two calls, where neither is refused.
pub(crate) fn both<X: Drop, Y: Drop>(
    one: Result<X, Refusal>,
    other: Result<Y, Refusal>,
) -> Result<(X, Y), Refusal> {
    Ok((one?, other?))
}

/// What the workers of a stream take of a runtime.
pub(crate) trait Machine: Wait + RandomSource + AllocGlobal {}

impl<R> Machine for R
where
    R: Wait + RandomSource + AllocGlobal,
{}

/// What a test does with a node, and what comes of it.
pub(crate) trait Trial {
    type Came: Drop;

    fn at<A: Site, R: Machine>(
        &self,
        rt: &R,
        alloc: Global,
        node: A,
    ) -> Result<Self::Came, Refusal>;
}

/// What comes of a trial at a new node, of replica 1.
pub(crate) fn tried<T: Trial, R: Machine>(
    rt: &R,
    alloc: Global,
    trial: &T,
) -> Result<T::Came, Refusal> {
    let opened = Opened::<JournalLine>::new(alloc)?;
    tried_with::<Brand, T, R>(rt, alloc, opened, trial)
}

fn tried_with<N: NodeName, T: Trial, R: Machine>(
    rt: &R,
    alloc: Global,
    opened: Opened<JournalLine>,
    trial: &T,
) -> Result<T::Came, Refusal>
    requires name { opened ≡ N.id }
    requires number { 1 ≡ N.replica }
{
    tried_at(rt, alloc, SharedNode::<N>::new(alloc, opened, 1), trial)
}

fn tried_at<A: Site, T: Trial, R: Machine>(
    rt: &R,
    alloc: Global,
    node: Result<A, Refusal>,
    trial: &T,
) -> Result<T::Came, Refusal> {
    trial.at(rt, alloc, node?)
}
