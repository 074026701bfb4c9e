// A stream as a task of an event loop: it waits until clients may be answered, is opened, served to its end, and leaves its place.
ghost use Rattle.futures.specs.Task.{IsArmed, Keeps};
ghost use Rattle.futures.specs.Poll.{OnPending};

use crate::arriving::{Arriving, ArrivingLine};
use crate::gate::WriterGate;
use crate::open_stream::{Around, AskingHalf, OpenStream, Tells, poll_stream};
use crate::parting::LastResponses;
use futures::Future;
use futures::task::{Context, Poll};
use std::alloc::Global;
use std::sync::Wait;
use std::time::{Clock, Duration};
use tokio::net::{OwnedReadHalf, OwnedWriteHalf};
use tokio::time::Sleep;
use xds_core::{Event, Reply};
use xds_frames::{Counted, Decoder};
use xds_message::Unsent;
use xds_node::{NoGate, called};
use xds_resource::Refusal;
use xds_rest::Served;
use xds_stats::Moment;

/// After how many milliseconds it is looked again whether clients may be answered.
const HELD_MILLISECONDS: u64 = 20;

/// A connection that was admitted.
pub(crate) struct Connection {
    pub reader: OwnedReadHalf,
    pub writer: OwnedWriteHalf,
    /// The address of its other end; empty where it isn't known.
    pub peer: String,
}

// Written out: docs/PROVING.md, "Drops".
impl Drop for Connection {
    fn drop(self) {
        let Connection {
            reader: _,
            writer: _,
            peer: _,
        } = self;
    }
}

impl Connection {
    fn into_parts(self) -> (OwnedReadHalf, OwnedWriteHalf, String) {
        let Connection {
            reader,
            writer,
            peer,
        } = self;
        (reader, writer, peer)
    }
}

/// A connection that is served, from its place among all on.
pub(crate) struct StreamTask<'a, R, A, S> {
    around: Around<'a, R, A>,
    // Before it is opened.
    connection: Option<Connection>,
    pause: Option<Sleep>,
    // From then on.
    open: Option<OpenStream<'a, S>>,
}

// Written out: docs/PROVING.md, "Drops".
impl<'a, R, A, S: Drop> Drop for StreamTask<'a, R, A, S> {
    fn drop(self) {
        let StreamTask {
            around: _,
            connection: _,
            pause: _,
            open: _,
        } = self;
    }
}

impl<'a, R: Wait + Clock, A: Served> StreamTask<'a, R, A, A::Seat> {
    pub(crate) fn new(
        around: Around<'a, R, A>,
        connection: Connection,
    ) -> StreamTask<'a, R, A, A::Seat> {
        StreamTask {
            around,
            connection: Some(connection),
            pause: None,
            open: None,
        }
    }

    // rule: loaded-first
    // Ready once clients may be answered. As long as they may not, it looks again after a while; once the server ends it stays so.
    fn poll_held(&mut self, cx: &mut Context<'_>) -> Poll<()>
        ensures armed { OnPending result (IsArmed cx.new) }
        ensures kept { Keeps cx.old cx.new }
    {
        if !self.around.lookout.ending().is_held(self.around.rt) {
            return Poll::Ready(());
        }
        if let Poll::Pending = self.poll_pause(cx) {
            return Poll::Pending;
        }
        cx.yield_now()
    }

    // Ready once a while has passed.
    fn poll_pause(&mut self, cx: &mut Context<'_>) -> Poll<()>
        ensures armed { OnPending result (IsArmed cx.new) }
        ensures kept { Keeps cx.old cx.new }
    {
        if self.pause.is_none() {
            let time = Duration::from_millis(HELD_MILLISECONDS);
            self.pause = self.around.timers.sleep(self.around.rt, time).ok();
        }
        let Some(pause) = &mut self.pause else {
            return Poll::Ready(());
        };
        if let Poll::Pending = pause.poll(cx) {
            return Poll::Pending;
        }
        self.pause = None;
        Poll::Ready(())
    }

    // Opens the stream of the connection.
    fn open(&mut self, connection: Connection) {
        let (reader, writer, peer) = connection.into_parts();
        let around = &self.around;
        let (Ok(mut asking), Ok(telling)) = (
            around.node.seat(around.rt),
            around.node.seat(around.rt),
        ) else {
            return;
        };
        let Some(stream) = opened(around.rt, around.node, &mut asking) else {
            return;
        };
        around
            .lookout
            .opened(around.rt, stream, peer, Moment::now(around.rt));
        let until = limit_of(around);
        self.open = Some(OpenStream {
            stream,
            asks: asks_of(around.alloc, asking, reader, until),
            tells: tells_of(
                around.alloc,
                WriterGate::new(around.lookout.ending()),
                telling,
                writer,
            ),
            rest: LastResponses::new(around.alloc),
            until: None,
            ended: Ok(()),
        });
    }

    // The end: what is counted then. Its client sees the end once it has left its place.
    fn end(&mut self) {
        let open = self.open.take();
        if let Some(open) = &open {
            self.around.lookout.ended(
                self.around.rt,
                open.stream,
                open.ended.err(),
                Moment::now(self.around.rt),
            );
        }
        self.around.lookout.leave(self.around.rt);
        drop(open);
        self.around.lookout.ending().stream_ended(self.around.rt);
    }
}

impl<'a, R: Wait + Clock, A: Served> Future for StreamTask<'a, R, A, A::Seat> {
    type Output = ();

    fn poll(&mut self, cx: &mut Context<'_>) -> Poll<()> {
        if self.connection.is_some() {
            if let Poll::Pending = self.poll_held(cx) {
                return Poll::Pending;
            }
            if let Some(connection) = self.connection.take() {
                self.open(connection);
            }
        }
        if let Some(open) = &mut self.open {
            if let Poll::Pending = poll_stream(&self.around, open, cx) {
                return Poll::Pending;
            }
        }
        self.end();
        Poll::Ready(())
    }
}

// When the first frame of a stream has to have come, if it has to.
fn limit_of<R: Clock, A>(around: &Around<'_, R, A>) -> Option<Sleep> {
    let seconds = around.lookout.idle_seconds()?;
    let time = Duration::from_secs(u64::from(seconds));
    around.timers.sleep(around.rt, time).ok()
}

fn asks_of<S: Drop>(
    alloc: Global,
    seat: S,
    reader: OwnedReadHalf,
    until: Option<Sleep>,
) -> AskingHalf<S> {
    AskingHalf {
        seat,
        decoder: Decoder::new(alloc),
        reader: Counted::new(Arriving::new(alloc, reader, until)),
        line: Some(ArrivingLine::new()),
        passed: false,
        has_ended: false,
    }
}

fn tells_of<'a, S: Drop>(
    alloc: Global,
    gate: WriterGate<'a>,
    seat: S,
    writer: OwnedWriteHalf,
) -> Tells<'a, S> {
    Tells {
        seat,
        given: None,
        owed: Unsent::none(alloc),
        writer: Counted::new(writer),
        gate,
        is_closed: false,
        has_ended: false,
    }
}

// The number of a new stream.
fn opened<R: Wait, A: Served>(rt: &R, node: &A, seat: &mut A::Seat) -> Option<u64> {
    let answer = called(rt, node, &NoGate, seat, Event::Open);
    let stream = number_in(&answer);
    drop(answer);
    stream
}

fn number_in(answer: &Result<Result<Reply, Refusal>, Refusal>) -> Option<u64> {
    match answer {
        Ok(Ok(Reply::Opened(stream))) => Some(*stream),
        _ => None,
    }
}
