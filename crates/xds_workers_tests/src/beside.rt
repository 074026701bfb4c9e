// Two streams of a node, of which one is held while the other is served.
ghost use Rattle.std.specs.Prelude.{◌≡◌};
ghost use Rattle.std.specs.Thread.{IsSend};

use crate::calls;
use crate::calls::{holds, open, put, refused};
use crate::gates::Held;
use crate::sites::{Machine, Site, both};
use crate::streams::{Pieces, REQUEST, RESPONSE, Served, by_two};
use std::alloc::Global;
use std::marker::Brand;
use std::test::Fail;
use std::thread::{Threads, join};
use xds_core::Event;
use xds_frames::{FrameKind, write_frame};
use xds_node::{Host, JournalLine, MOST_RECORDS, NodeName, Opened, SharedNode};
use xds_resource::Refusal;

const WITH_A: &[u8] = b"{\"nonce\":\"1\",\
     \"resources\":[{\"@type\":\"type.googleapis.com/envoy.config.cluster.v3.Cluster\",\
     \"name\":\"a\"}],\"typeUrl\":\"type.googleapis.com/envoy.config.cluster.v3.Cluster\",\
     \"versionInfo\":\"1.1\"}";

// How often a node is cut at most.
const MOST_TURNS: u64 = 1_000_000;

// A new stream of a node, with two seats.
fn stream_of<A: Site, R: Machine>(rt: &R, node: &A) -> Result<(u64, (A::Seat, A::Seat)), Refusal> {
    let mut seats = both(node.seat(rt), node.seat(rt))?;
    let stream = open(rt, node, &mut seats.0);
    both(stream, Ok(seats))
}

// Once the other stream is held a cluster is put, and this stream is served whole. Then the other
// is let go.
fn goes_on<A: Host + Sync, R: Threads + Machine + Sync>(
    rt: &R,
    alloc: Global,
    node: &A,
    seats: (A::Seat, A::Seat),
    stream: u64,
    input: Pieces<'_>,
    slow: &Held,
) -> Result<((), Served), Refusal>
where
    A::Seat: Send,
    A::Segment: Send,
{
    slow.wait_held(rt);
    let mut seats = seats;
    let done = put(rt, alloc, node, &mut seats.0, "a");
    let quick = Held::new(2, 1, true);
    let served = by_two(rt, alloc, node, seats, stream, input, &quick);
    slow.free(rt);
    both(done, Ok(served))
}

// Serves two streams that send the same bytes, of which the first is held, and comes in pieces of
// this size.
fn beside<A: Site + Sync, R: Threads + Machine + Sync>(
    rt: &R,
    alloc: Global,
    node: &A,
    slow: &Held,
    bytes: &[u8],
    size: usize,
) -> Result<(Served, Served), Refusal>
where
    A::Seat: Send,
    A::Segment: Send,
{
    let ((first, seats), (second, others)) = both(stream_of(rt, node), stream_of(rt, node))?;
    let input = Pieces { bytes, size };
    let same = Pieces { bytes, size: 4096 };
    let (served, other) = join(
        rt,
        move || by_two(rt, alloc, node, seats, first, input, slow),
        move || goes_on(rt, alloc, node, others, second, same, slow),
    );
    let ((), other) = other?;
    Ok((served, other))
}

// What is answered where a journal is full: to looks that fill it, to a put, to the same put once
// it was cut, and what is held then.
#[derive(Drop)]
struct Full {
    filled: Result<(), Refusal>,
    put: Result<(), Refusal>,
    again: Result<(), Refusal>,
    held: String,
}

// Asks whether a stream that is closed is owed something, until that finds no room.
fn fill<A: Host, R: Machine>(rt: &R, node: &A, seat: &mut A::Seat) -> Result<(), Refusal> {
    for _ in 0..=MOST_RECORDS {
        match refused(node.call(rt, seat, Event::Owes(1, None))) {
            Err(Refusal::NoStream) => {}
            answer => return answer,
        }
    }
    Ok(())
}

fn full_and_cut<A: Site, R: Machine>(rt: &R, alloc: Global, node: &A) -> Result<Full, Refusal> {
    let mut seat = node.seat(rt)?;
    let filled = fill(rt, node, &mut seat);
    let first = put(rt, alloc, node, &mut seat, "b");
    drop(node.cut(rt)?);
    let again = put(rt, alloc, node, &mut seat, "b");
    let held = calls::held(rt, alloc, node, &mut seat)?;
    Ok(Full {
        filled,
        put: first,
        again,
        held,
    })
}

// The first of two streams isn't written to until the other was served. Then the journal is filled.
fn unread_and_full<A: Site + Sync, R: Threads + Machine + Sync>(
    rt: &R,
    alloc: Global,
    node: Result<A, Refusal>,
    bytes: &[u8],
) -> Result<((Served, Served), Full), Refusal>
where
    A::Seat: Send,
    A::Segment: Send,
{
    let node = node?;
    let slow = Held::new(2, 1, false);
    both(
        beside(rt, alloc, &node, &slow, bytes, 4096),
        full_and_cut(rt, alloc, &node),
    )
}

fn unread<N: NodeName + Send + Sync, R: Threads + Machine + Sync>(
    rt: &R,
    alloc: Global,
    opened: Opened<JournalLine>,
    bytes: &[u8],
) -> Result<((Served, Served), Full), Refusal>
    requires name { opened ≡ N.id }
    requires number { 1 ≡ N.replica }
{
    unread_and_full(rt, alloc, SharedNode::<N>::new(alloc, opened, 1), bytes)
}

// That this response was written to a stream, and that this ended well.
fn wrote(alloc: Global, served: &Served, response: &[u8]) -> Result<(), Fail> {
    let frame = write_frame(alloc, FrameKind::DiscoveryResponse, response)?;
    if served.output == frame && served.wrote == Ok(()) {
        return Ok(());
    }
    let (wrote, output) = (&served.wrote, &served.output);
    Err(Fail::new(format_args!("{wrote:?}, {output:?}")))
}

fn found_room(full: &Full) -> Result<(), Fail> {
    let refused = Err(Refusal::JournalFull);
    holds(
        full.filled == refused && full.put == refused,
        "the journal is full",
    )?;
    holds(full.again == Ok(()), "once it is cut there is room")?;
    holds(
        full.held.as_str().contains("\"counter\":2,\"name\":\"b\""),
        "what was refused has changed nothing",
    )
}

// A cluster was put and the other stream served meanwhile, and this one once it could be written
// to.
fn held_nobody(alloc: Global, came: &((Served, Served), Full)) -> Result<(), Fail> {
    let ((slow, quick), full) = came;
    wrote(alloc, quick, WITH_A)?;
    wrote(alloc, slow, RESPONSE)?;
    found_room(full)
}

#[test]
fn a_peer_that_never_reads_holds_nobody_else(rt: HostRuntime) -> Result<(), Fail> {
    let input = write_frame(rt.alloc(), FrameKind::DiscoveryRequest, REQUEST)?;
    let opened = Opened::<JournalLine>::new(rt.alloc())?;
    let came = unread::<Brand, _>(&rt, rt.alloc(), opened, &input)?;
    let held = held_nobody(rt.alloc(), &came);
    drop(came);
    held
}

// Cuts a node until a stream is let go, and answers how often.
fn cuts<A: Host, R: Machine>(rt: &R, node: &A, slow: &Held) -> Result<u64, Refusal> {
    for turn in 0..MOST_TURNS {
        drop(node.cut(rt)?);
        if slow.is_free(rt) {
            return Ok(turn);
        }
    }
    Ok(MOST_TURNS)
}

// The first of two streams is held within its frame until the other was served, and the node is cut
// all the while.
fn half_and_cut<A: Site + Sync, R: Threads + Machine + Sync>(
    rt: &R,
    alloc: Global,
    node: Result<A, Refusal>,
    bytes: &[u8],
) -> Result<((Served, Served), u64), Refusal>
where
    A::Seat: Send,
    A::Segment: Send,
{
    let node = node?;
    let gate = Held::new(2, 0, false);
    let (shared, slow) = (&node, &gate);
    let (served, turns) = join(
        rt,
        move || -> Result<(Served, Served), Refusal>
            requires { IsSend A.Seat.row × IsSend A.Segment.row }
        { beside(rt, alloc, shared, slow, bytes, 5) },
        move || cuts(rt, shared, slow),
    );
    both(served, turns)
}

fn half<N: NodeName + Send + Sync, R: Threads + Machine + Sync>(
    rt: &R,
    alloc: Global,
    opened: Opened<JournalLine>,
    bytes: &[u8],
) -> Result<((Served, Served), u64), Refusal>
    requires name { opened ≡ N.id }
    requires number { 1 ≡ N.replica }
{
    half_and_cut(rt, alloc, SharedNode::<N>::new(alloc, opened, 1), bytes)
}

// The other stream was served before, and whole. This one ended well, too.
fn was_cut(alloc: Global, came: &((Served, Served), u64)) -> Result<(), Fail> {
    let ((slow, quick), turns) = came;
    holds(*turns < MOST_TURNS, "the other stream was served before")?;
    holds(
        slow.read == Ok(()) && slow.wrote == Ok(()),
        "this one ends well, too",
    )?;
    wrote(alloc, quick, WITH_A)
}

#[test]
fn half_a_frame_holds_nobody_else_while_a_node_is_cut(rt: HostRuntime) -> Result<(), Fail> {
    let input = write_frame(rt.alloc(), FrameKind::DiscoveryRequest, REQUEST)?;
    let opened = Opened::<JournalLine>::new(rt.alloc())?;
    let came = half::<Brand, _>(&rt, rt.alloc(), opened, &input)?;
    let held = was_cut(rt.alloc(), &came);
    drop(came);
    held
}
