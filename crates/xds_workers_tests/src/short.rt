// A node whose journal is short.
use crate::filling::fill;
use crate::sites::Site;
use futures::task::{Context, Poll};
use std::sync::{Mutex, Wait};
use xds_core::{Event, Marks, Reply};
use xds_node::{Host, MOST_RECORDS, Unrecorded, WaitEnd};
use xds_resource::Refusal;

#[derive(Drop)]
struct Filler<S> {
    seat: S,
    cuts: u64,
}

/// A node whose journal has room for so many records at most, as its worker threads know it: the
/// rest is filled, at first and after each cut.
#[derive(Drop)]
pub(crate) struct Short<A: Host> {
    pub(crate) node: A,
    most: usize,
    filler: Mutex<Filler<A::Seat>>,
}

impl<A: Host> Short<A> {
    pub(crate) fn new<R: Wait>(
        rt: &R,
        node: A,
        seat: A::Seat,
        most: usize,
    ) -> Result<Short<A>, Refusal>
    where
        A: Drop,
    {
        let mut seat = seat;
        fill(rt, &node, &mut seat, MOST_RECORDS.saturating_sub(most))?;
        Ok(Short {
            node,
            most,
            filler: Mutex::new(Filler { seat, cuts: 0 }),
        })
    }

    /// How often it was cut.
    pub(crate) fn cuts<R: Wait>(&self, rt: &R) -> u64 {
        self.filler.lock(rt).cuts
    }
}

impl<A: Host> Host for Short<A> {
    type Seat = A::Seat;

    type Segment = A::Segment;

    ghost told = { A.told };

    ghost refused = { A.refused };

    ghost rings = { λ h. A.rings h.node };

    fn call<R: Wait>(
        &self,
        rt: &R,
        seat: &mut A::Seat,
        event: Event,
    ) -> Result<Result<Reply, Refusal>, Unrecorded> {
        self.node.call(rt, seat, event)
    }

    fn cut<R: Wait>(&self, rt: &R) -> Result<A::Segment, Refusal> {
        let mut filler = self.filler.lock(rt);
        let segment = self.node.cut(rt)?;
        filler.cuts = filler.cuts.saturating_add(1);
        let _ = fill(
            rt,
            &self.node,
            &mut filler.seat,
            MOST_RECORDS.saturating_sub(self.most),
        );
        Ok(segment)
    }

    fn cut_full<R: Wait>(&self, rt: &R) -> Result<Option<A::Segment>, Refusal> {
        let mut filler = self.filler.lock(rt);
        let Some(segment) = self.node.cut_full(rt)? else {
            return Ok(None);
        };
        filler.cuts = filler.cuts.saturating_add(1);
        let _ = fill(
            rt,
            &self.node,
            &mut filler.seat,
            MOST_RECORDS.saturating_sub(self.most),
        );
        Ok(Some(segment))
    }

    fn wait_due<R: Wait>(&self, rt: &R, stream: u64) -> WaitEnd {
        self.node.wait_due(rt, stream)
    }

    fn poll_due<R: Wait>(&self, rt: &R, cx: &mut Context<'_>, stream: u64) -> Poll<WaitEnd> {
        self.node.poll_due(rt, cx, stream)
    }

    fn wait_changed<R: Wait>(&self, rt: &R, seen: Marks) -> Option<Marks> {
        self.node.wait_changed(rt, seen)
    }
}

impl<A: Site> Site for Short<A> {
    fn seat<R: Wait>(&self, rt: &R) -> Result<A::Seat, Refusal> {
        self.node.seat(rt)
    }

    fn stop<R: Wait>(&self, rt: &R) {
        self.node.stop(rt)
    }

    fn hold<R: Wait>(&self, rt: &R) {
        self.node.hold(rt);
    }

    fn release<R: Wait>(&self, rt: &R) {
        self.node.release(rt);
    }
}
