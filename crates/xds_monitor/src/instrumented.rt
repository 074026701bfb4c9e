// A node with what stands round it in a server.
ghost use Rattle.std.specs.Prelude.{◌≡◌};

use crate::journal_weight::JournalWeight;
use crate::observer::Observer;
use crate::recording::Piece;
use crate::segment_sink::SegmentSink;
use futures::task::{Context, Poll};
use std::alloc::Global;
use std::sync::Wait;
use std::time::Clock;
use xds_core::{Event, Marks, Reply};
use xds_http::{Replies, Seats};
use xds_node::{Host, Unrecorded, WaitEnd};
use xds_polls::HttpReply;
use xds_resource::Refusal;
use xds_rest::served::Served;
use xds_rest::{Posts, reply_at};
use xds_stats::sight::Sight;

/// A replica that hands each call on to its node as it is. Its events are noted by an observer, its journal is cut by its weight, too, and
/// what is cut goes to a sink. So its segments are nothing.
pub struct Instrumented<A, C> {
    node: A,
    weight: JournalWeight,
    observer: Observer<C>,
    sink: SegmentSink,
}

// Written out: docs/PROVING.md, "Drops".
impl<A: Drop, C: Drop> Drop for Instrumented<A, C> {
    fn drop(self) {
        let Instrumented {
            node: _,
            weight: _,
            observer: _,
            sink: _,
        } = self;
    }
}

impl<A: Served + Host<Segment: Piece>, C: Clock> Instrumented<A, C> {
    /// A replica by this node, whose journal has no record.
    pub fn new(
        node: A,
        weight: JournalWeight,
        observer: Observer<C>,
        sink: SegmentSink,
    ) -> Instrumented<A, C> {
        Instrumented {
            node,
            weight,
            observer,
            sink,
        }
    }

    /// The node.
    pub fn node(&self) -> &A
        ensures { result.now ≡ self.now.node }
    {
        &self.node
    }

    // Counts what a record takes, if there is one, and cuts the journal where it is too heavy.
    fn weigh<R: Wait>(
        &self,
        rt: &R,
        asked: u64,
        answer: &Result<Result<Reply, Refusal>, Unrecorded>,
    ) {
        let Ok(answer) = answer else {
            return;
        };
        if self.weight.count(rt, asked, answer) {
            self.lighten(rt);
        }
    }

    fn lighten<R: Wait>(&self, rt: &R) {
        if let Some(turn) = self.weight.lighten(rt) {
            let _ = self.cut_noted(rt);
            drop(turn);
        }
    }

    fn cut_noted<R: Wait>(&self, rt: &R) -> Result<(), Refusal> {
        match self.sink.cut(rt, &self.node, self.observer.lookout()) {
            Ok(()) => {
                self.observer.cut(rt, Ok(Some(())));
                Ok(())
            }
            Err(refusal) => {
                self.observer.cut(rt, Err(refusal));
                Err(refusal)
            }
        }
    }
}

impl<A: Served + Host<Segment: Piece>, C: Clock> Host for Instrumented<A, C> {
    type Seat = A::Seat;

    type Segment = ();

    ghost told = { A.told };

    ghost refused = { A.refused };

    ghost rings = { λ h. A.rings h.node };

    fn call<R: Wait>(
        &self,
        rt: &R,
        seat: &mut A::Seat,
        event: Event,
    ) -> Result<Result<Reply, Refusal>, Unrecorded> {
        let asked = self.weight.asked(&event);
        let sight = self.observer.sight(&event);
        let turn = self.observer.turn(rt, &sight);
        let order = self.observer.order(rt, &sight);
        let answer = self.node.call(rt, seat, event);
        self.observer.note(rt, &sight, &answer);
        drop(order);
        drop(turn);
        drop(sight);
        self.weigh(rt, asked, &answer);
        answer
    }

    fn cut<R: Wait>(&self, rt: &R) -> Result<(), Refusal> {
        self.cut_noted(rt)
    }

    fn cut_full<R: Wait>(&self, rt: &R) -> Result<Option<()>, Refusal> {
        let cut = self.sink.cut_full(rt, &self.node, self.observer.lookout());
        self.observer.cut(rt, cut);
        cut
    }

    fn wait_due<R: Wait>(&self, rt: &R, stream: u64) -> WaitEnd {
        self.node.wait_due(rt, stream)
    }

    fn poll_due<R: Wait>(&self, rt: &R, cx: &mut Context<'_>, stream: u64) -> Poll<WaitEnd> {
        self.node.poll_due(rt, cx, stream)
    }

    fn wait_changed<R: Wait>(&self, rt: &R, seen: Marks) -> Option<Marks> {
        self.node.wait_changed(rt, seen)
    }
}

impl<A: Served + Host<Segment: Piece>, C: Clock> Posts for Instrumented<A, C> {
    type PostSeat = A::PostSeat;

    ghost replica = { A.replica };

    ghost calls = { A.calls };

    // Nobody has one while nobody is answered yet: then a poll is replied to with 503.
    fn post_seat<R: Wait>(&self, rt: &R) -> Result<A::PostSeat, Refusal> {
        if !self.observer.takes_posts(rt) {
            return Err(Refusal::Device);
        }
        self.node.post_seat(rt)
    }

    fn post_call<R: Wait>(
        &self,
        rt: &R,
        seat: &mut A::PostSeat,
        event: Event,
    ) -> Result<Result<Reply, Refusal>, Unrecorded> {
        let asked = self.weight.asked(&event);
        let answer = self.node.post_call(rt, seat, event);
        self.observer.note(rt, &Sight::Other, &answer);
        self.weigh(rt, asked, &answer);
        answer
    }

    fn post_cut<R: Wait>(&self, rt: &R) {
        let _ = self.cut_full(rt);
    }

    fn post_replied<R: Wait>(&self, rt: &R, status: u16) {
        self.observer.replied(rt, status);
    }
}

impl<A: Served + Host<Segment: Piece>, C: Clock> Replies for Instrumented<A, C> {
    ghost use Rattle.std.specs.Prelude.{codes};
    ghost use Rattle.xds_rest.specs.Posted.{IsReplyOrUnavailable};

    type Seat = A::PostSeat;

    ghost replies = { λ old new path body r. IsReplyOrUnavailable A.replica (codes "POST") path body (A.calls old) (A.calls new) r };

    fn reply<R: Wait>(
        &self,
        rt: &R,
        alloc: Global,
        seat: &mut A::PostSeat,
        path: &str,
        body: &[u8],
    ) -> HttpReply {
        let reply = reply_at(rt, alloc, self, seat, "POST", path, body);
        self.post_replied(rt, reply.status);
        reply
    }
}

impl<A: Served + Host<Segment: Piece>, C: Clock> Seats for Instrumented<A, C> {
    ghost use Rattle.std.specs.Prelude.{◌≡◌};
    ghost use Rattle.xds_node.specs.Told.{no_calls};

    ghost fresh = { λ s. A.calls s ≡ no_calls };

    fn seat<R: Wait>(&self, rt: &R) -> Result<A::PostSeat, Refusal> {
        self.post_seat(rt)
    }
}

impl<A: Served + Host<Segment: Piece>, C: Clock> Served for Instrumented<A, C> {
    fn seat<R: Wait>(&self, rt: &R) -> Result<A::Seat, Refusal> {
        self.node.seat(rt)
    }

    fn hold<R: Wait>(&self, rt: &R) {
        self.node.hold(rt)
    }

    fn release<R: Wait>(&self, rt: &R) {
        self.node.release(rt)
    }
}
