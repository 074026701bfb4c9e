// A replica that threads share.
ghost use Rattle.std.specs.Prelude.{◌≡◌, ◌≢◌, ◌≤◌, ◌++◌, ◌==◌, length, true, MatchBool, IfOk, IfErr, IfSome, OnErr, IsPermutation};
ghost use Rattle.std.specs.List.{flat_map};
ghost use Rattle.xds_resource.specs.declared.refusal.Refusal.TheVariants.{OutOfMemory, CounterSpent};
ghost use Rattle.xds_core.specs.Counts.{counts_of};
ghost use Rattle.xds_core.specs.Legal.{IsLegal};
ghost use Rattle.xds_core.specs.Seen.{event_of, answer_of};
ghost use Rattle.futures.specs.Task.{Covers, Keeps};
ghost use Rattle.futures.specs.Poll.{OnPending};
ghost use Rattle.xds_node.specs.Pieces.{last_entries, StandsInStory, GoesOn, IsWhole};
ghost use Rattle.xds_node.specs.Told.{no_calls, also_refused, IsTold, IsStepAt, LeavesNoRecord};

use crate::node::concern::Concern;
use crate::node::desk::{Desk, WaitEnd};
use crate::node::history::History;
use crate::node::line::JournalLine;
use crate::node::rule::NodeName;
use crate::node::seat::{Seat, Unrecorded};
use crate::node::segment::Segment;
use crate::node::token::{Opened, Tokens};
use crate::node::wakes::{Lanes, Waiting, Wake};
use futures::task::{Context, Poll, Source};
use std::alloc::Global;
use std::sync::{Mutex, Wait};
use xds_core::{Event, Marks, Reply};
use xds_resource::Refusal;

/// A replica that threads share: one lock round its state and its journal.
pub struct SharedNode<N: NodeName> {
    desk: Mutex<Desk<N>>,
    tokens: Tokens<JournalLine, N>,
    lanes: Lanes,
    // At which tasks wait for something due.
    due: Source,
    alloc: Global,
}

// Written out: docs/PROVING.md, "Drops".
impl<N: NodeName> Drop for SharedNode<N> {
    fn drop(self) {
        let SharedNode {
            desk: _,
            tokens: _,
            lanes: _,
            due: _,
            alloc: _,
        } = self;
    }
}

impl<N: NodeName> SharedNode<N> {
    // rule: new-numbers
    /// A node whose replica has this number, from 1, which its name says too, and at which nothing happened. Refused only by
    /// `OutOfMemory`.
    pub fn new(
        alloc: Global,
        opened: Opened<JournalLine>,
        replica: u16,
    ) -> Result<SharedNode<N>, Refusal>
        requires name { opened ≡ N.id }
        requires number { 1 ≤ replica }
        requires own { replica ≡ N.replica }
        ensures { IfErr result (λ e. e ≡ OutOfMemory) }
    {
        let lanes = Lanes::new(alloc)?;
        let waiting = Waiting::new(alloc)?;
        let (tokens, token) = opened.named::<N>();
        Ok(SharedNode {
            desk: Mutex::new(Desk::new(alloc, replica, token, waiting)),
            tokens,
            lanes,
            due: Source::new(),
            alloc,
        })
    }

    // rule: one-seat
    /// A seat, which made no call. `CounterSpent` where no more can be counted. It may wait for the lock.
    pub fn seat<R: Wait>(&self, rt: &R) -> Result<Seat<N>, Refusal>
        ensures ok { IfOk result (λ s. s ≡ no_calls) }
        ensures refused { IfErr result (λ e. e ≡ CounterSpent) }
    {
        self.desk.lock(rt).seat(&self.tokens)
    }

    // rule: wake-ups, rule: one-seat
    /// One event of a seat: one step of the replica, and one record. It may wait for the lock. What the seat is told is a step of the
    /// one replica of this node, after all that happened there before; where no record is left, the seat keeps the event and why.
    pub fn call<R: Wait>(
        &self,
        rt: &R,
        seat: &mut Seat<N>,
        event: Event,
    ) -> Result<Result<Reply, Refusal>, Unrecorded>
        ensures told { IfOk result (λ a. IsTold seat.old.told seat.new.told (event_of event) (answer_of a)) }
        ensures step { IfOk result (λ a. IsStepAt N.replica seat.old.told seat.new.told (event_of event) (answer_of a)) }
        ensures kept { IfOk result (λ a. seat.new.refused ≡ seat.old.refused) }
        ensures back { IfErr result (λ e. (e.event ≡ event) × LeavesNoRecord e.refusal) }
        ensures noted { IfErr result (λ e. seat.new ≡ also_refused (event_of event) e.refusal seat.old) }
    {
        let wake = Wake::by(&event);
        let concern = Concern::of(self.alloc, &event);
        let mut desk = self.desk.lock(rt);
        let answer = desk.call(&self.tokens, seat, event);
        if let Ok(Ok(reply)) = &answer {
            desk.note(wake, &concern, reply);
            let wake = desk.narrowed(wake.answered(reply));
            let first = desk.woken(wake);
            let called = desk.called(wake, &concern, reply);
            drop(desk);
            drop(called);
            self.lanes.wake(wake, first);
        }
        answer
    }

    // rule: wake-ups
    /// Waits until a poll of a stream would give a response, or be refused by `NonceSpent`, or the stream isn't open. Where many are to
    /// be woken, each wakes the next. It is no event.
    pub fn wait_due<R: Wait>(&self, rt: &R, stream: u64) -> WaitEnd {
        let mut desk = self.desk.lock(rt);
        let mut next = None;
        for _ in rt.forever() {
            if desk.is_held() {
                desk.note_waiting(stream);
            } else if let Some(due) = desk.await_due(stream) {
                drop(desk);
                self.lanes.wake_lane(next);
                return due;
            }
            self.lanes.wake_lane(next);
            desk = self.lanes.writer(stream).wait(rt, desk);
            next = desk.was_woken(stream);
        }
        unreachable!()
    }

    // rule: wake-ups
    /// The same for a task: ready where a wait would end, and else pending, and the task is woken where that may be so. A stream that isn't
    /// open is told at once, also while writers are held back. It is no event. It may wait for the lock.
    pub fn poll_due<R: Wait>(&self, rt: &R, cx: &mut Context<'_>, stream: u64) -> Poll<WaitEnd>
        ensures registered { OnPending result (Covers cx.new (λ s. s ≡ self.now.due.id)) }
        ensures kept { Keeps cx.old cx.new }
    {
        self.desk.lock(rt).poll_due(&self.due, cx, stream)
    }

    /// From here on to [`SharedNode::release`] no writer begins a response, so that several changes make one. It is no event. It may wait
    /// for the lock.
    pub fn hold<R: Wait>(&self, rt: &R) {
        self.desk.lock(rt).hold();
    }

    // rule: wake-ups
    /// Ends what [`SharedNode::hold`] began, and wakes the writers that wait. It is no event. It may wait for the lock.
    pub fn release<R: Wait>(&self, rt: &R) {
        let mut desk = self.desk.lock(rt);
        let first = desk.release();
        let called = desk.released();
        drop(desk);
        drop(called);
        self.lanes.wake(Wake::All, first);
    }

    // rule: wake-ups
    /// Waits until the counts of changes differ from these, and answers them; none once the node was stopped. It is no
    /// event.
    pub fn wait_changed<R: Wait>(&self, rt: &R, seen: Marks) -> Option<Marks>
        ensures { IfSome result (λ marks. counts_of marks ≢ counts_of seen) }
    {
        let mut desk = self.desk.lock(rt);
        for _ in rt.forever() {
            if desk.is_stopped() {
                return None;
            }
            let marks = desk.marks();
            if differ(marks, seen) {
                return Some(marks);
            }
            desk = self.lanes.changed().wait(rt, desk);
        }
        unreachable!()
    }

    // rule: wake-ups
    /// Ends all waiting for changes, now and from here on. It is no event, and the node is called as before.
    pub fn stop<R: Wait>(&self, rt: &R) {
        self.desk.lock(rt).stop();
        self.lanes.changed().notify_all();
    }

    // rule: cuts
    /// Cuts the journal where it is full, as `cut` does, else answers none, as where another thread has cut it. Refused only by
    /// `OutOfMemory`; then nothing changes. It may wait for the lock.
    pub fn cut_full<R: Wait>(&self, rt: &R) -> Result<Option<Segment<N>>, Refusal>
        ensures refused { IfErr result (λ e. e ≡ OutOfMemory) }
        ensures legal { IfOk result (λ o. IfSome o (λ s. IsLegal s.base s.records)) }
        ensures goes_on { IfOk result (λ o. IfSome o (λ s. GoesOn N.replica s.base s.first s.before)) }
    {
        let mut desk = self.desk.lock(rt);
        if !desk.is_full() {
            return Ok(None);
        }
        match desk.cut(&self.tokens) {
            Ok(segment) => Ok(Some(segment)),
            Err(refusal) => Err(refusal),
        }
    }

    // rule: cuts
    /// Hands out base and journal, and begins anew from a copy of the present replica. Refused only by `OutOfMemory`; then
    /// nothing changes. It may wait for the lock.
    pub fn cut<R: Wait>(&self, rt: &R) -> Result<Segment<N>, Refusal>
        ensures refused { IfErr result (λ e. e ≡ OutOfMemory) }
        ensures legal { IfOk result (λ s. IsLegal s.base s.records) }
        ensures goes_on { IfOk result (λ s. GoesOn N.replica s.base s.first s.before) }
    {
        self.desk.lock(rt).cut(&self.tokens)
    }

    // rule: one-seat
    /// The end of the node, by these seats. Whether they are all that were made or not, each record that they were told was cut, or
    /// is the history's.
    pub fn close(self, seats: Vec<Seat<N>>) -> History<N>
        ensures told { result.told ≡ flat_map (λ s. s.told) seats.items }
        ensures complete { result.complete ≡ (length seats.items == result.made) }
        ensures stands { StandsInStory result }
        ensures each { result.complete ≡ true → IsPermutation result.told (result.before ++ last_entries result) }
        ensures own { result.base.replica ≡ N.replica }
        ensures whole { IsWhole result }
    {
        let SharedNode {
            desk,
            tokens,
            lanes: _,
            due: _,
            alloc: _,
        } = self;
        desk.into_inner().close(tokens, seats)
    }
}

// rule: wake-ups
/// Whether some type was written between the marks.
pub fn differ(marks: Marks, seen: Marks) -> bool
    ensures { MatchBool result (counts_of marks ≢ counts_of seen) (counts_of marks ≡ counts_of seen) }
{
    marks.cluster != seen.cluster
        || marks.endpoint != seen.endpoint
        || marks.listener != seen.listener
        || marks.route != seen.route
        || marks.secret != seen.secret
}
