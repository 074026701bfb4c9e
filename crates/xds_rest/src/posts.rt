// What posts ask.
use std::sync::Wait;
use xds_core::{Event, Reply};
use xds_node::{NodeName, Seat, SharedNode, Unrecorded};
use xds_resource::Refusal;

/// A replica that threads share, as posts ask it. [`SharedNode`] is one. The reply to a post is [`reply_at`](crate::by_seat::reply_at)'s.
pub trait Posts {
    ghost use Rattle.std.specs.Prelude.{◌≡◌, ℕ, IfOk, IfErr};
    ghost use Rattle.xds_core.specs.Seen.{event_of, answer_of};
    ghost use Rattle.xds_node.specs.Told.{Calls, no_calls, also_refused, IsStepAt, LeavesNoRecord};

    /// The right to ask it.
    type PostSeat: Drop;

    // The number of the replica.
    ghost replica: { ℕ };

    // All calls of a seat.
    ghost calls: { Self.PostSeat → Calls };

    /// A seat, which made no call. It may wait.
    fn post_seat<R: Wait>(&self, rt: &R) -> Result<Self::PostSeat, Refusal>
        ensures { IfOk result (λ s. calls s ≡ no_calls) };

    /// One event of a seat, and one record of it, as [`SharedNode::call`] makes it. It may wait.
    fn post_call<R: Wait>(
        &self,
        rt: &R,
        seat: &mut Self::PostSeat,
        event: Event,
    ) -> Result<Result<Reply, Refusal>, Unrecorded>
        ensures step { IfOk result (λ a. IsStepAt replica (calls seat.old).told (calls seat.new).told (event_of event) (answer_of a)) }
        ensures kept { IfOk result (λ a. (calls seat.new).refused ≡ (calls seat.old).refused) }
        ensures back { IfErr result (λ e. (e.event ≡ event) × LeavesNoRecord e.refusal) }
        ensures noted { IfErr result (λ e. calls seat.new ≡ also_refused (event_of event) e.refusal (calls seat.old)) };

    /// Cuts the journal where it is full. It may wait.
    fn post_cut<R: Wait>(&self, rt: &R);

    /// A post was replied to with this status. It may wait.
    fn post_replied<R: Wait>(&self, rt: &R, status: u16);
}

impl<N: NodeName> Posts for SharedNode<N> {
    type PostSeat = Seat<N>;

    ghost replica = { N.replica };

    ghost calls = { λ s. s };

    fn post_seat<R: Wait>(&self, rt: &R) -> Result<Seat<N>, Refusal> {
        self.seat(rt)
    }

    fn post_call<R: Wait>(
        &self,
        rt: &R,
        seat: &mut Seat<N>,
        event: Event,
    ) -> Result<Result<Reply, Refusal>, Unrecorded> {
        self.call(rt, seat, event)
    }

    fn post_cut<R: Wait>(&self, rt: &R) {
        let _ = self.cut_full(rt);
    }

    fn post_replied<R: Wait>(&self, _rt: &R, _status: u16) {}
}
