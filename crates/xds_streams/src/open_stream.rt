// A stream that is open, as its task has it: both halves, and its end.
ghost use Rattle.futures.specs.Task.{IsArmed, Keeps};
ghost use Rattle.futures.specs.Poll.{OnPending};

use crate::arriving::{Arriving, ArrivingLine};
use crate::gate::WriterGate;
use crate::parting::LastResponses;
use futures::Future;
use futures::task::{Context, Poll};
use std::alloc::Global;
use std::sync::Wait;
use std::time::{Clock, Duration};
use tokio::io::AsyncWrite;
use tokio::net::OwnedWriteHalf;
use tokio::time::{Handle, Sleep};
use xds_core::Event;
use xds_flows::{ByPolls, poll_requests, poll_responses};
use xds_frames::{Counted, Decoder};
use xds_message::{Draft, Unsent};
use xds_node::{NoGate, called};
use xds_notes::Lookout;
use xds_resource::Refusal;
use xds_rest::Served;
use xds_stats::Moment;

/// As many seconds as may pass from the end of what a client sends to the end of its stream.
pub(crate) const PARTING_SECONDS: u64 = 10;

/// As many writes as one poll makes of what was due at the end before it lets other streams run.
const TURNS: usize = 64;

/// What all streams of a replica share.
pub(crate) struct Around<'a, R, A> {
    pub rt: &'a R,
    pub alloc: Global,
    pub node: &'a A,
    pub lookout: &'a Lookout,
    pub timers: &'a Handle,
}

// Written out: docs/PROVING.md, "Drops".
impl<'a, R, A> Drop for Around<'a, R, A> {
    fn drop(self) {
        let Around {
            rt: _,
            alloc: _,
            node: _,
            lookout: _,
            timers: _,
        } = self;
    }
}

impl<'a, R, A> Around<'a, R, A> {
    /// The same once more.
    pub(crate) fn share(&self) -> Around<'a, R, A> {
        Around {
            rt: self.rt,
            alloc: self.alloc,
            node: self.node,
            lookout: self.lookout,
            timers: self.timers,
        }
    }
}

/// The half of a stream that reads and asks.
pub(crate) struct AskingHalf<S> {
    pub seat: S,
    pub decoder: Decoder,
    pub reader: Counted<Arriving>,
    /// The line that may stand before all frames, until it has come or can't come any more.
    pub line: Option<ArrivingLine>,
    /// Whether the gate was passed for the next read.
    pub passed: bool,
    pub has_ended: bool,
}

// Written out: docs/PROVING.md, "Drops".
impl<S: Drop> Drop for AskingHalf<S> {
    fn drop(self) {
        let AskingHalf {
            seat: _,
            decoder: _,
            reader: _,
            line: _,
            passed: _,
            has_ended: _,
        } = self;
    }
}

/// The half that writes.
pub(crate) struct Tells<'a, S> {
    pub seat: S,
    /// A response that isn't begun.
    pub given: Option<Draft>,
    /// What is left to be written of the one under way.
    pub owed: Unsent,
    pub writer: Counted<OwnedWriteHalf>,
    pub gate: WriterGate<'a>,
    /// Whether a poll found the stream closed.
    pub is_closed: bool,
    pub has_ended: bool,
}

// Written out: docs/PROVING.md, "Drops".
impl<'a, S: Drop> Drop for Tells<'a, S> {
    fn drop(self) {
        let Tells {
            seat: _,
            given: _,
            owed: _,
            writer: _,
            gate: _,
            is_closed: _,
            has_ended: _,
        } = self;
    }
}

/// A stream that is open.
pub(crate) struct OpenStream<'a, S> {
    pub stream: u64,
    pub asks: AskingHalf<S>,
    pub tells: Tells<'a, S>,
    /// What was due when its client sent no more.
    pub rest: LastResponses,
    /// Until when that has to be taken.
    pub until: Option<Sleep>,
    /// How it has ended, as far as it has. The first refusal is the stream's.
    pub ended: Result<(), Refusal>,
}

// Written out: docs/PROVING.md, "Drops".
impl<'a, S: Drop> Drop for OpenStream<'a, S> {
    fn drop(self) {
        let OpenStream {
            stream: _,
            asks: _,
            tells: _,
            rest: _,
            until: _,
            ended: _,
        } = self;
    }
}

impl<'a, S: Drop> OpenStream<'a, S> {
    // Notes how a half has ended.
    fn note_end(&mut self, end: Result<(), Refusal>) {
        if self.ended.is_ok() {
            self.ended = end;
        }
    }

    // Ready once the time has passed in which what is due at the end has to be taken.
    fn poll_parted(&mut self, cx: &mut Context<'_>) -> Poll<()>
        ensures armed { OnPending result (IsArmed cx.new) }
        ensures kept { Keeps cx.old cx.new }
    {
        let Some(until) = &mut self.until else {
            return Poll::Ready(());
        };
        match until.poll(cx) {
            Poll::Pending => Poll::Pending,
            Poll::Ready(_) => Poll::Ready(()),
        }
    }
}

/// Ready once both halves of a stream have ended.
pub(crate) fn poll_stream<R, A>(
    around: &Around<'_, R, A>,
    open: &mut OpenStream<'_, A::Seat>,
    cx: &mut Context<'_>,
) -> Poll<()>
where
    R: Wait + Clock,
    A: Served,
    ensures armed { OnPending result (IsArmed cx.new) }
    ensures kept { Keeps cx.old cx.new }
{
    let read = poll_reading(around, open, cx);
    let written = poll_writing(around, open, cx);
    match (read, written) {
        (Poll::Ready(()), Poll::Ready(())) => Poll::Ready(()),
        (Poll::Pending, Poll::Ready(())) => end_reading(around, open, cx),
        (Poll::Ready(()), Poll::Pending) => end_writing(around, open, cx),
        (Poll::Pending, Poll::Pending) => Poll::Pending,
    }
}

// Nothing is written any more, so nothing more is read.
fn end_reading<R, A>(
    around: &Around<'_, R, A>,
    open: &mut OpenStream<'_, A::Seat>,
    cx: &mut Context<'_>,
) -> Poll<()>
where
    R: Wait + Clock,
    A: Served,
    ensures armed { OnPending result (IsArmed cx.new) }
    ensures kept { Keeps cx.old cx.new }
{
    open.asks.line = None;
    open.asks.reader.inner.end();
    poll_reading(around, open, cx)
}

// Nothing more is read. What is due at the end has to be taken within a time, and else `Device` says that it wasn't all taken.
fn end_writing<R, A>(
    around: &Around<'_, R, A>,
    open: &mut OpenStream<'_, A::Seat>,
    cx: &mut Context<'_>,
) -> Poll<()>
where
    R: Wait + Clock,
    A: Served,
    ensures armed { OnPending result (IsArmed cx.new) }
    ensures kept { Keeps cx.old cx.new }
{
    if let Poll::Pending = open.poll_parted(cx) {
        return Poll::Pending;
    }
    open.note_end(Err(Refusal::Device));
    end_tells(around, open);
    Poll::Ready(())
}

// Reads what a stream is asked until it is over. Then what is due on it is set aside, and it is closed.
fn poll_reading<R, A>(
    around: &Around<'_, R, A>,
    open: &mut OpenStream<'_, A::Seat>,
    cx: &mut Context<'_>,
) -> Poll<()>
where
    R: Wait + Clock,
    A: Served,
    ensures armed { OnPending result (IsArmed cx.new) }
    ensures kept { Keeps cx.old cx.new }
{
    if open.asks.has_ended {
        return Poll::Ready(());
    }
    if let Poll::Pending = poll_line(around, open, cx) {
        return Poll::Pending;
    }
    match poll_asked(around, open, cx) {
        Poll::Pending => Poll::Pending,
        Poll::Ready(end) => {
            tell_late(around, open);
            open.note_end(end);
            leave(around, open);
            Poll::Ready(())
        }
    }
}

// Awaits the line that may stand before all frames, and tells the address that it says.
fn poll_line<R, A>(
    around: &Around<'_, R, A>,
    open: &mut OpenStream<'_, A::Seat>,
    cx: &mut Context<'_>,
) -> Poll<()>
where
    R: Wait + Clock,
    A: Served,
    ensures armed { OnPending result (IsArmed cx.new) }
    ensures kept { Keeps cx.old cx.new }
{
    let Some(line) = &mut open.asks.line else {
        return Poll::Ready(());
    };
    let from = &mut open.asks.reader.inner;
    match line.poll_address(around.rt, around.alloc, around.timers, from, cx) {
        Poll::Pending => Poll::Pending,
        Poll::Ready(address) => {
            open.asks.line = None;
            if let Some(address) = address {
                around
                    .lookout
                    .opened(around.rt, open.stream, address, Moment::now(around.rt));
            }
            Poll::Ready(())
        }
    }
}

fn poll_asked<R, A>(
    around: &Around<'_, R, A>,
    open: &mut OpenStream<'_, A::Seat>,
    cx: &mut Context<'_>,
) -> Poll<Result<(), Refusal>>
where
    R: Wait,
    A: Served,
    ensures armed { OnPending result (IsArmed cx.new) }
    ensures kept { Keeps cx.old cx.new }
{
    let asks = &mut open.asks;
    poll_requests::<A, NoGate, Arriving, ByPolls, R>(
        around.rt,
        around.alloc,
        around.node,
        &mut asks.seat,
        open.stream,
        &mut asks.decoder,
        &mut asks.reader,
        &mut asks.passed,
        &NoGate,
        cx,
    )
}

// Tells that the first frame didn't come in time, where it didn't.
fn tell_late<R, A>(around: &Around<'_, R, A>, open: &OpenStream<'_, A::Seat>)
where
    R: Wait + Clock,
    A: Served,
{
    let Some(seconds) = around.lookout.idle_seconds() else {
        return;
    };
    if open.asks.reader.inner.is_late() {
        around
            .lookout
            .idle(around.rt, open.stream, seconds, Moment::now(around.rt));
    }
}

// Sets aside what is due, and closes the stream. From here on what was set aside has to be taken within a time.
fn leave<R, A>(around: &Around<'_, R, A>, open: &mut OpenStream<'_, A::Seat>)
where
    R: Wait + Clock,
    A: Served,
{
    let seat = &mut open.tells.seat;
    open.rest.fill(around.rt, around.node, seat, open.stream);
    close(around.rt, around.node, &mut open.asks.seat, open.stream);
    open.asks.has_ended = true;
    let time = Duration::from_secs(PARTING_SECONDS);
    open.until = around.timers.sleep(around.rt, time).ok();
}

// Writes what a stream is due until it is over, and what was due at its end. Once the server ends it begins no frame.
fn poll_writing<R, A>(
    around: &Around<'_, R, A>,
    open: &mut OpenStream<'_, A::Seat>,
    cx: &mut Context<'_>,
) -> Poll<()>
where
    R: Wait + Clock,
    A: Served,
    ensures armed { OnPending result (IsArmed cx.new) }
    ensures kept { Keeps cx.old cx.new }
{
    if open.tells.has_ended {
        return Poll::Ready(());
    }
    match poll_told(around, open, cx) {
        Poll::Pending => {
            if open.tells.owed.is_empty() {
                open.tells.gate.finish(around.rt);
            }
            Poll::Pending
        }
        Poll::Ready(end) => {
            open.note_end(end);
            end_tells(around, open);
            Poll::Ready(())
        }
    }
}

// Nothing more is written. What was begun is written, or given up.
fn end_tells<R, A>(around: &Around<'_, R, A>, open: &mut OpenStream<'_, A::Seat>)
where
    R: Wait,
    A: Served,
{
    open.tells.has_ended = true;
    open.tells.gate.finish(around.rt);
}

fn poll_told<R, A>(
    around: &Around<'_, R, A>,
    open: &mut OpenStream<'_, A::Seat>,
    cx: &mut Context<'_>,
) -> Poll<Result<(), Refusal>>
where
    R: Wait,
    A: Served,
    ensures armed { OnPending result (IsArmed cx.new) }
    ensures kept { Keeps cx.old cx.new }
{
    if open.tells.is_closed {
        return poll_rest(around, open, cx);
    }
    match poll_due(around, open, cx) {
        Poll::Pending => Poll::Pending,
        Poll::Ready(Ok(())) => {
            open.tells.is_closed = true;
            poll_rest(around, open, cx)
        }
        Poll::Ready(Err(refusal)) => {
            close(around.rt, around.node, &mut open.tells.seat, open.stream);
            Poll::Ready(Err(refusal))
        }
    }
}

fn poll_due<R, A>(
    around: &Around<'_, R, A>,
    open: &mut OpenStream<'_, A::Seat>,
    cx: &mut Context<'_>,
) -> Poll<Result<(), Refusal>>
where
    R: Wait,
    A: Served,
    ensures armed { OnPending result (IsArmed cx.new) }
    ensures kept { Keeps cx.old cx.new }
{
    let tells = &mut open.tells;
    poll_responses::<A, WriterGate<'_>, OwnedWriteHalf, ByPolls, R>(
        around.rt,
        around.alloc,
        around.node,
        &mut tells.seat,
        open.stream,
        &mut tells.given,
        &mut tells.owed,
        &mut tells.writer,
        &tells.gate,
        cx,
    )
}

// Writes what was set aside. That the connection takes no more is no refusal: its client has gone.
fn poll_rest<R, A>(
    around: &Around<'_, R, A>,
    open: &mut OpenStream<'_, A::Seat>,
    cx: &mut Context<'_>,
) -> Poll<Result<(), Refusal>>
where
    R: Wait,
    A: Served,
    ensures armed { OnPending result (IsArmed cx.new) }
    ensures kept { Keeps cx.old cx.new }
{
    for _ in 0..TURNS {
        let tells = &mut open.tells;
        match poll_owed(&mut tells.writer.inner, &mut tells.owed, cx) {
            Poll::Pending => return Poll::Pending,
            Poll::Ready(false) => return Poll::Ready(Ok(())),
            Poll::Ready(true) => {}
        }
        if !open.rest.has_next() {
            return Poll::Ready(open.rest.end());
        }
        if let Poll::Pending = tells.gate.poll_begin(around.rt, cx) {
            return Poll::Pending;
        }
        match open.rest.next(around.alloc, &mut tells.writer) {
            None => return Poll::Ready(open.rest.end()),
            Some(Ok(owed)) => tells.owed = owed,
            Some(Err(refusal)) => return Poll::Ready(Err(refusal)),
        }
    }
    cx.yield_now()
}

// Writes all that is owed. Answers whether it was taken.
fn poll_owed(writer: &mut OwnedWriteHalf, owed: &mut Unsent, cx: &mut Context<'_>) -> Poll<bool>
    ensures armed { OnPending result (IsArmed cx.new) }
    ensures kept { Keeps cx.old cx.new }
{
    for _ in 0..TURNS {
        if owed.is_empty() {
            return Poll::Ready(true);
        }
        match writer.poll_write(cx, owed.chunk()) {
            Poll::Pending => return Poll::Pending,
            Poll::Ready(Err(_)) => return Poll::Ready(false),
            Poll::Ready(Ok(count)) => {
                if count == 0 {
                    return Poll::Ready(false);
                }
                owed.advance(count);
            }
        }
    }
    cx.yield_now()
}

/// Closes a stream.
pub(crate) fn close<R: Wait, A: Served>(rt: &R, node: &A, seat: &mut A::Seat, stream: u64) {
    drop(called(rt, node, &NoGate, seat, Event::Close(stream)));
}
