// The halves of a stream as futures, over a reader and a writer that are pending before each byte, and a gate that holds each half
// once. And the task that waits for a stream, which a put wakes by its type.

use crate::alone::asked;
use crate::calls::{holds, open, refused};
use crate::sites::{Machine, Site, Trial, both, tried};
use crate::streams::{REQUEST, RESPONSE};
use futures::Future;
use futures::executor::{LocalPool, block_on};
use futures::future::join;
use futures::task::{Context, Doorbell, Poll};
use std::alloc::Global;
use std::io;
use std::sync::{Mutex, Wait};
use std::test::Fail;
use tokio::io::{AsyncRead, AsyncWrite};
use xds_core::{Event, Request};
use xds_flows::{KnownRead, KnownWrite, Reading, ReadingHalf, Writing, WritingHalf};
use xds_frames::{Counted, Decoder, FrameKind, write_frame};
use xds_message::{DiscoveryRequest, Unsent};
use xds_node::{Gate, Host, Place};
use xds_resource::{AnyResource, Groups, Refusal};

const TAKEN: &[u8] = b"{\"responseNonce\":\"1\",\
     \"typeUrl\":\"type.googleapis.com/envoy.config.cluster.v3.Cluster\",\"versionInfo\":\"1.0\"}";

const CLUSTER: &str =
    "{\"@type\":\"type.googleapis.com/envoy.config.cluster.v3.Cluster\",\"name\":\"a\"}";

const ROUTE: &str =
    "{\"@type\":\"type.googleapis.com/envoy.config.route.v3.RouteConfiguration\",\"name\":\"a\"}";

// How many polls a task gets at most.
pub(crate) const MOST_POLLS: usize = 100;

// A reader that is pending before each byte.
#[derive(Drop)]
struct Slow {
    bytes: Vec<u8>,
    at: usize,
    waits: bool,
}

impl AsyncRead for Slow {
    ghost use Rattle.std.specs.Prelude.{⊤};

    ghost reads = { λ _ _ _. ⊤ };

    ghost is_at_end = { λ _. ⊤ };

    ghost reads_nothing = { λ _. tt };

    ghost reads_in_order = { λ _ _ _ _ _ _ _. tt };

    fn poll_read(&mut self, cx: &mut Context<'_>, buf: &mut [u8]) -> Poll<io::Result<usize>> {
        self.waits = !self.waits;
        if self.waits {
            return cx.yield_now();
        }
        match self.bytes.get(self.at) {
            Some(byte) if !buf.is_empty() => {
                buf[0] = *byte;
                self.at = self.at.saturating_add(1);
                Poll::Ready(Ok(1))
            }
            _ => Poll::Ready(Ok(0)),
        }
    }
}

impl KnownRead for Slow {
    ghost use Rattle.std.specs.Prelude.{None};

    ghost remaining = { λ _. None };

    ghost consumes = { λ _ _ _ _. tt };

    ghost ends = { λ _ _. tt };
}

// A writer that is pending before each byte.
#[derive(Drop)]
struct Narrow {
    bytes: Vec<u8>,
    waits: bool,
}

impl AsyncWrite for Narrow {
    ghost use Rattle.std.specs.Prelude.{⊤};

    ghost writes = { λ _ _ _. ⊤ };

    ghost writes_nothing = { λ _. tt };

    ghost writes_in_order = { λ _ _ _ _ _ _ _. tt };

    fn poll_write(&mut self, cx: &mut Context<'_>, buf: &[u8]) -> Poll<io::Result<usize>> {
        self.waits = !self.waits;
        if self.waits {
            return cx.yield_now();
        }
        match buf.first() {
            Some(byte) if self.bytes.push(*byte).is_ok() => Poll::Ready(Ok(1)),
            _ => Poll::Ready(Ok(0)),
        }
    }

    fn poll_flush(&mut self, _cx: &mut Context<'_>) -> Poll<io::Result<()>> {
        Poll::Ready(Ok(()))
    }

    fn poll_shutdown(&mut self, _cx: &mut Context<'_>) -> Poll<io::Result<()>> {
        Poll::Ready(Ok(()))
    }
}

impl KnownWrite for Narrow {
    ghost use Rattle.std.specs.Prelude.{None};

    ghost contents = { λ _. None };

    ghost appends = { λ _ _ _ _. tt };
}

// How often a gate held a half, and let it pass.
#[derive(Clone, Copy, Debug, PartialEq, Eq, Drop)]
struct Held {
    holds: bool,
    held: u64,
    writes: u64,
}

// A gate that holds each half once before it passes.
#[derive(Drop)]
struct Once {
    held: Mutex<Held>,
}

impl<S: Drop> Gate<S> for Once {
    fn poll_pass<R: Wait>(
        &self,
        rt: &R,
        cx: &mut Context<'_>,
        place: Place,
        _stream: u64,
    ) -> Poll<()> {
        let mut held = self.held.lock(rt);
        held.holds = !held.holds;
        if held.holds {
            held.held = held.held.saturating_add(1);
            return cx.yield_now();
        }
        if place == Place::BeforeWrite {
            held.writes = held.writes.saturating_add(1);
        }
        Poll::Ready(())
    }

    fn keep<R: Wait>(&self, _rt: &R, segment: S) {
        drop(segment);
    }
}

fn new_gate() -> Once {
    Once {
        held: Mutex::new(Held {
            holds: false,
            held: 0,
            writes: 0,
        }),
    }
}

// What a stream came to.
#[derive(Drop)]
struct Served {
    read: Result<(), Refusal>,
    wrote: Result<(), Refusal>,
    output: Vec<u8>,
    reads: Held,
    writes: Held,
}

fn serve_by_halves<A: Site, R: Machine>(
    rt: &R,
    alloc: Global,
    node: &A,
) -> Result<Served, Refusal> {
    let (mut seat, other) = both(node.seat(rt), node.seat(rt))?;
    let stream = open(rt, node, &mut seat)?;
    let (reads, writes) = (new_gate(), new_gate());
    let reading = ReadingHalf {
        state: Some(Reading {
            rt,
            alloc,
            node,
            gate: &reads,
            stream,
            seat,
            decoder: Decoder::new(alloc),
            reader: Counted::new(Slow {
                bytes: write_frame(alloc, FrameKind::DiscoveryRequest, REQUEST)?,
                at: 0,
                waits: false,
            }),
            passed: false,
        }),
    };
    let writing = WritingHalf {
        state: Some(Writing {
            rt,
            alloc,
            node,
            gate: &writes,
            stream,
            seat: other,
            given: None,
            owed: Unsent::none(alloc),
            writer: Counted::new(Narrow {
                bytes: Vec::new(alloc),
                waits: false,
            }),
        }),
    };
    let Ok((read, wrote)) = block_on(rt, join(reading, writing)) else {
        return Err(Refusal::OutOfMemory);
    };
    Ok(Served {
        read: read.result,
        wrote: wrote.result,
        output: wrote.writer.inner.bytes,
        reads: *reads.held.lock(rt),
        writes: *writes.held.lock(rt),
    })
}

struct AtHalves;

impl Trial for AtHalves {
    type Came = Served;

    fn at<A: Site, R: Machine>(&self, rt: &R, alloc: Global, node: A) -> Result<Served, Refusal> {
        serve_by_halves(rt, alloc, &node)
    }
}

#[test]
fn halves_that_are_pending_before_each_byte_answer_a_request(rt: HostRuntime) -> Result<(), Fail> {
    let came = tried(&rt, rt.alloc(), &AtHalves)?;
    let output = write_frame(rt.alloc(), FrameKind::DiscoveryResponse, RESPONSE)?;
    assert!(rt;
        came.read == Ok(()) && came.wrote == Ok(()),
        "both halves end well"
    );
    assert!(rt; came.output == output, "the response is written");
    assert!(rt;
        came.reads.held == 71,
        "each read is held, of seventy bytes and the end"
    );
    assert!(rt;
        came.writes.held == 1 && came.writes.writes == 1,
        "the response is held once"
    );
    Ok(())
}

// ---- who is woken

// A task that waits until a stream is due, and counts its polls.
#[derive(Drop)]
pub(crate) struct Waits<'a, A, R> {
    pub(crate) rt: &'a R,
    pub(crate) node: &'a A,
    pub(crate) stream: u64,
    pub(crate) polls: &'a Mutex<u64>,
}

impl<A: Host, R: Wait> Future for Waits<'_, A, R> {
    type Output = ();

    ghost needs = { λ f. A.rings f.node.now };

    fn poll(&mut self, cx: &mut Context<'_>) -> Poll<()> {
        let mut polls = self.polls.lock(self.rt);
        *polls = polls.saturating_add(1);
        drop(polls);
        match self.node.poll_due(self.rt, cx, self.stream) {
            Poll::Pending => Poll::Pending,
            Poll::Ready(_) => Poll::Ready(()),
        }
    }
}

pub(crate) fn put<A: Host, R: Machine>(
    rt: &R,
    alloc: Global,
    node: &A,
    seat: &mut A::Seat,
    text: &str,
) -> Result<(), Refusal> {
    let resource = AnyResource::parse(alloc, text)?;
    refused(node.call(rt, seat, Event::Put(resource, Groups::none())))
}

// A stream that asked for clusters and has all of them.
fn settled<A: Host, R: Machine>(
    rt: &R,
    alloc: Global,
    node: &A,
    seat: &mut A::Seat,
) -> Result<u64, Refusal> {
    let stream = asked(rt, alloc, node, seat)?;
    refused(node.call(rt, seat, Event::Poll(stream, None)))?;
    let request = Request::Sotw(DiscoveryRequest::read(alloc, TAKEN)?);
    refused(node.call(rt, seat, Event::Request(stream, request)))?;
    Ok(stream)
}

pub(crate) fn spawn<F: Future<Output = ()>>(pool: &LocalPool<F>, task: F) -> Result<(), Refusal>
    requires { F.can_poll task }
{
    let Ok(spawner) = pool.spawner() else {
        return Err(Refusal::OutOfMemory);
    };
    match spawner.spawn(task) {
        Ok(()) => Ok(()),
        Err(_) => Err(Refusal::OutOfMemory),
    }
}

// How often the task of a stream was polled: at first, once a route was put, and once a cluster was, or the stream was closed.
fn woken<A: Host, R: Machine>(
    rt: &R,
    alloc: Global,
    node: &A,
    seat: &mut A::Seat,
    closes: bool,
) -> Result<(u64, u64, u64), Refusal> {
    let stream = settled(rt, alloc, node, seat)?;
    let polls = Mutex::new(0);
    let Ok(mut pool) = LocalPool::with_doorbell(rt, Doorbell::parking()) else {
        return Err(Refusal::OutOfMemory);
    };
    let task = Waits {
        rt,
        node,
        stream,
        polls: &polls,
    };
    spawn(&pool, task)?;
    pool.run_until_stalled(MOST_POLLS);
    let first = *polls.lock(rt);
    put(rt, alloc, node, seat, ROUTE)?;
    pool.run_until_stalled(MOST_POLLS);
    let second = *polls.lock(rt);
    if closes {
        refused(node.call(rt, seat, Event::Close(stream)))?;
    } else {
        put(rt, alloc, node, seat, CLUSTER)?;
    }
    pool.run_until_stalled(MOST_POLLS);
    Ok((first, second, *polls.lock(rt)))
}

struct Wakes {
    closes: bool,
}

impl Trial for Wakes {
    type Came = (u64, u64, u64);

    fn at<A: Site, R: Machine>(
        &self,
        rt: &R,
        alloc: Global,
        node: A,
    ) -> Result<(u64, u64, u64), Refusal> {
        let mut seat = node.seat(rt)?;
        woken(rt, alloc, &node, &mut seat, self.closes)
    }
}

// rule: wake-ups
#[test]
fn a_put_wakes_the_task_of_a_stream_that_wants_its_type(rt: HostRuntime) -> Result<(), Fail> {
    let came = tried(&rt, rt.alloc(), &Wakes { closes: false })?;
    holds(came == (1, 1, 2), "a cluster wakes it, and a route doesn't")
}

// rule: wake-ups
#[test]
fn a_close_wakes_the_task_of_its_stream(rt: HostRuntime) -> Result<(), Fail> {
    let came = tried(&rt, rt.alloc(), &Wakes { closes: true })?;
    holds(came == (1, 1, 2), "it is told that its stream isn't open")
}
