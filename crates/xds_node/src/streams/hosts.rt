// What the halves of a stream, and other workers, know of a node and of what stands round it.

use crate::node::desk::WaitEnd;
use crate::node::seat::Unrecorded;
use futures::task::{Context, Poll};
use std::sync::Wait;
use xds_core::{Event, Marks, Reply};
use xds_resource::Refusal;

/// A replica that threads share, as its workers know it. [`crate::node::shared::Node`] is one.
pub trait Host {
    ghost use Rattle.std.specs.Prelude.{◌≡◌, ℕ, List, [], ◌∷◌, ◌++◌, IfOk, IfErr, OnOk, OnErr};
    ghost use Rattle.xds_core.specs.Legal.{Record};
    ghost use Rattle.xds_core.specs.Seen.{event_of, answer_of};
    ghost use Rattle.xds_node.specs.Told.{IsTold, LeavesNoRecord};
    ghost use Rattle.xds_node.specs.WorkersTold.{in_vain};
    ghost use Rattle.futures.specs.Task.{Covers, Keeps};
    ghost use Rattle.futures.specs.Poll.{OnPending};

    /// The right to call it.
    type Seat: Drop;
    /// Records that it handed out.
    type Segment: Drop;

    // What a seat was told: each record of its calls, with its number.
    ghost told: { Self.Seat → List (ℕ × Record) };

    // Its calls that left no record: of each the event, and why, as its answer.
    ghost refused: { Self.Seat → List Record };

    // The sources at which a task waits for something due.
    ghost rings: { Self → ℕ → Type 0 };

    /// One event of a seat, and one record of it. An event that leaves no record comes back: the journal is full
    /// (`JournalFull`), or there was no memory (`OutOfMemory`). Contracts see the call among those that the seat was refused.
    fn call<R: Wait>(
        &self,
        rt: &R,
        seat: &mut Self::Seat,
        event: Event,
    ) -> Result<Result<Reply, Refusal>, Unrecorded>
        ensures told { IfOk result (λ a. IsTold (told seat.old) (told seat.new) (event_of event) (answer_of a)) }
        ensures back { IfErr result (λ e. (e.event ≡ event) × LeavesNoRecord e.refusal) }
        ensures err { OnErr result (told seat.new ≡ told seat.old) }
        ensures granted { OnOk result (refused seat.new ≡ refused seat.old) }
        ensures refused { IfErr result
            (λ e. refused seat.new ≡ refused seat.old ++ in_vain (event_of event) e.refusal ∷ []) };

    /// Hands out the records of the journal, which is empty then.
    fn cut<R: Wait>(&self, rt: &R) -> Result<Self::Segment, Refusal>;

    /// The same where the journal is full, and none where it isn't, as where another thread has cut it meanwhile.
    fn cut_full<R: Wait>(&self, rt: &R) -> Result<Option<Self::Segment>, Refusal>;

    /// Waits until a poll of a stream would give something, or the stream isn't open. It is no event.
    fn wait_due<R: Wait>(&self, rt: &R, stream: u64) -> WaitEnd;

    // rule: wake-ups
    /// The same for a task: ready where a wait would end, and else pending, and the task is woken once that may be so. It may wait
    /// for a lock. It is no event.
    fn poll_due<R: Wait>(&self, rt: &R, cx: &mut Context<'_>, stream: u64) -> Poll<WaitEnd>
        ensures registered { OnPending result (Covers cx.new (rings self.now)) }
        ensures kept { Keeps cx.old cx.new };

    /// Waits until the counts of changes differ from these, and answers them; none once the node was stopped. It is no
    /// event.
    fn wait_changed<R: Wait>(&self, rt: &R, seen: Marks) -> Option<Marks>;
}

/// Where a half of a stream stands.
#[derive(Clone, Copy, Debug, PartialEq, Eq, Drop)]
pub enum Place {
    /// Before a read.
    BeforeRead,
    /// Before the frame of a response is written.
    BeforeWrite,
}

/// What stands round the halves of a stream: it may hold one before it reads or writes, and it takes the segments that they had
/// to cut.
pub trait Gate<S: Drop> {
    ghost use Rattle.std.specs.Prelude.{ℕ};
    ghost use Rattle.futures.specs.Task.{Covers, Keeps};
    ghost use Rattle.futures.specs.Poll.{OnPending};

    // The sources at which a task waits to pass.
    ghost waits: { Self → ℕ → Type 0 } = { λ _ _. ⊥ };

    /// Lets a half of a stream pass, which is ready then; or holds it, which is pending then, and its task is woken once it may pass.
    /// Where many streams share a thread, a gate that waits here holds them all up.
    fn poll_pass<R: Wait>(
        &self,
        rt: &R,
        cx: &mut Context<'_>,
        place: Place,
        stream: u64,
    ) -> Poll<()>
        ensures registered { OnPending result (Covers cx.new (waits self.now)) }
        ensures kept { Keeps cx.old cx.new };

    /// Takes records that were cut.
    fn keep<R: Wait>(&self, rt: &R, segment: S);
}

/// Lets everyone pass at once, and drops what was cut.
#[derive(Clone, Copy, Debug, Drop)]
pub struct NoGate;

impl<S: Drop> Gate<S> for NoGate {
    fn poll_pass<R: Wait>(
        &self,
        _rt: &R,
        _cx: &mut Context<'_>,
        _place: Place,
        _stream: u64,
    ) -> Poll<()> {
        Poll::Ready(())
    }

    fn keep<R: Wait>(&self, _rt: &R, _segment: S) {}
}
