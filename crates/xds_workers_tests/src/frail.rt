// A node that takes no record of a merge once, and one that counts what it tells.
use crate::calls::Told;
use crate::filling::fill;
use futures::task::{Context, Poll};
use std::sync::{Condvar, Mutex, Wait};
use xds_core::{Event, Marks, Reply};
use xds_node::{Host, MOST_RECORDS, Unrecorded, WaitEnd};
use xds_resource::Refusal;

// How often the first merge is tried, in vain.
const TRIES: u64 = 2;

#[derive(Drop)]
struct Failing<S> {
    seat: S,
    tries: u64,
}

/// A node that takes no record of the first merge, as its worker threads know it: its journal is
/// full then, and can't be cut until the merge was tried twice.
#[derive(Drop)]
pub(crate) struct Frail<A: Host> {
    pub(crate) node: A,
    failing: Mutex<Failing<A::Seat>>,
    changed: Condvar,
}

impl<A: Host> Frail<A> {
    pub(crate) fn new(node: A, seat: A::Seat) -> Frail<A> {
        Frail {
            node,
            failing: Mutex::new(Failing { seat, tries: 0 }),
            changed: Condvar::new(),
        }
    }

    /// Waits until a merge left no record.
    pub(crate) fn wait_failed<R: Wait>(&self, rt: &R) {
        let mut failing = self.failing.lock(rt);
        for _ in rt.forever() {
            if failing.tries >= TRIES {
                return;
            }
            failing = self.changed.wait(rt, failing);
        }
    }

    // Whether a merge left no record before.
    fn has_failed<R: Wait>(&self, rt: &R) -> bool {
        self.failing.lock(rt).tries >= TRIES
    }

    // Fills the journal.
    fn fill<R: Wait>(&self, rt: &R) {
        let mut failing = self.failing.lock(rt);
        let _ = fill(rt, &self.node, &mut failing.seat, MOST_RECORDS);
    }

    // Counts a try of the first merge, and cuts the journal behind the last of them.
    fn count<R: Wait>(&self, rt: &R) {
        let mut failing = self.failing.lock(rt);
        failing.tries = failing.tries.saturating_add(1);
        if failing.tries >= TRIES {
            let _ = self.node.cut(rt);
            self.changed.notify_all();
        }
    }
}

impl<A: Host> Host for Frail<A> {
    type Seat = A::Seat;

    type Segment = A::Segment;

    ghost told = { A.told };

    ghost refused = { A.refused };

    ghost rings = { λ h. A.rings h.node };

    fn call<R: Wait>(
        &self,
        rt: &R,
        seat: &mut A::Seat,
        event: Event,
    ) -> Result<Result<Reply, Refusal>, Unrecorded> {
        if !is_merge(&event) || self.has_failed(rt) {
            return self.node.call(rt, seat, event);
        }
        self.fill(rt);
        let answer = self.node.call(rt, seat, event);
        self.count(rt);
        answer
    }

    fn cut<R: Wait>(&self, rt: &R) -> Result<A::Segment, Refusal> {
        if !self.has_failed(rt) {
            return Err(Refusal::OutOfMemory);
        }
        self.node.cut(rt)
    }

    fn cut_full<R: Wait>(&self, rt: &R) -> Result<Option<A::Segment>, Refusal> {
        if !self.has_failed(rt) {
            return Err(Refusal::OutOfMemory);
        }
        self.node.cut_full(rt)
    }

    fn wait_due<R: Wait>(&self, rt: &R, stream: u64) -> WaitEnd {
        self.node.wait_due(rt, stream)
    }

    fn poll_due<R: Wait>(&self, rt: &R, cx: &mut Context<'_>, stream: u64) -> Poll<WaitEnd> {
        self.node.poll_due(rt, cx, stream)
    }

    fn wait_changed<R: Wait>(&self, rt: &R, seen: Marks) -> Option<Marks> {
        self.node.wait_changed(rt, seen)
    }
}

fn is_merge(event: &Event) -> bool {
    matches!(event, Event::Merge(_))
}

/// How many batches were told, and how many clusters the first and the second had.
#[derive(Clone, Copy, Drop)]
pub(crate) struct Batches {
    pub(crate) count: u64,
    pub(crate) first: usize,
    pub(crate) second: usize,
}

/// A node that counts what it tells of changes, as its worker threads know it.
#[derive(Drop)]
pub(crate) struct Watched<A> {
    pub(crate) node: A,
    batches: Mutex<Batches>,
}

impl<A> Watched<A> {
    pub(crate) fn new(node: A) -> Watched<A> {
        Watched {
            node,
            batches: Mutex::new(Batches {
                count: 0,
                first: 0,
                second: 0,
            }),
        }
    }

    /// What it told.
    pub(crate) fn told<R: Wait>(&self, rt: &R) -> Batches {
        *self.batches.lock(rt)
    }

    fn note<T: Told, R: Wait>(&self, rt: &R, answer: &T) {
        let Some(clusters) = answer.changed() else {
            return;
        };
        let mut batches = self.batches.lock(rt);
        let number = batches.count.saturating_add(1);
        batches.count = number;
        if number == 1 {
            batches.first = clusters;
        } else if number == 2 {
            batches.second = clusters;
        }
    }
}

impl<A: Host> Host for Watched<A> {
    type Seat = A::Seat;

    type Segment = A::Segment;

    ghost told = { A.told };

    ghost refused = { A.refused };

    ghost rings = { λ h. A.rings h.node };

    fn call<R: Wait>(
        &self,
        rt: &R,
        seat: &mut A::Seat,
        event: Event,
    ) -> Result<Result<Reply, Refusal>, Unrecorded> {
        let answer = self.node.call(rt, seat, event);
        self.note(rt, &answer);
        answer
    }

    fn cut<R: Wait>(&self, rt: &R) -> Result<A::Segment, Refusal> {
        self.node.cut(rt)
    }

    fn cut_full<R: Wait>(&self, rt: &R) -> Result<Option<A::Segment>, Refusal> {
        self.node.cut_full(rt)
    }

    fn wait_due<R: Wait>(&self, rt: &R, stream: u64) -> WaitEnd {
        self.node.wait_due(rt, stream)
    }

    fn poll_due<R: Wait>(&self, rt: &R, cx: &mut Context<'_>, stream: u64) -> Poll<WaitEnd> {
        self.node.poll_due(rt, cx, stream)
    }

    fn wait_changed<R: Wait>(&self, rt: &R, seen: Marks) -> Option<Marks> {
        self.node.wait_changed(rt, seen)
    }
}
