// The two threads of a stream.
ghost use Rattle.std.specs.Prelude.{◌≡◌};

use crate::calls::{holds, open};
use crate::gates::Held;
use crate::sites::{Machine, Site, both};
use std::alloc::Global;
use std::io;
use std::io::Read;
use std::marker::Brand;
use std::test::Fail;
use std::thread::{Threads, join};
use xds_flows::{serve_reader, serve_writer};
use xds_frames::{Counted, FrameKind, write_frame};
use xds_node::{Host, JournalLine, NodeName, Opened, SharedNode};
use xds_resource::Refusal;

pub(crate) const REQUEST: &[u8] =
    b"{\"typeUrl\":\"type.googleapis.com/envoy.config.cluster.v3.Cluster\"}";

pub(crate) const RESPONSE: &[u8] =
    b"{\"nonce\":\"1\",\"typeUrl\":\"type.googleapis.com/envoy.config.cluster.v3.Cluster\",\
     \"versionInfo\":\"1.0\"}";

/// A reader that gives its bytes in pieces of one size.
#[derive(Drop)]
pub(crate) struct Pieces<'a> {
    pub(crate) bytes: &'a [u8],
    pub(crate) size: usize,
}

impl Read for Pieces<'_> {
    fn read(&mut self, buf: &mut [u8]) -> io::Result<usize> {
        let count = self.size.min(self.bytes.len()).min(buf.len());
        let (piece, rest) = self.bytes.split_at(count);
        buf[..count].copy_from_slice(piece);
        self.bytes = rest;
        Ok(count)
    }
}

/// What a stream came to.
#[derive(Drop)]
pub(crate) struct Served {
    pub(crate) read: Result<(), Refusal>,
    pub(crate) wrote: Result<(), Refusal>,
    pub(crate) output: Vec<u8>,
}

fn reads<A: Host, R: Machine>(
    rt: &R,
    alloc: Global,
    node: &A,
    seat: A::Seat,
    stream: u64,
    input: Pieces<'_>,
    gate: &Held,
) -> Result<(), Refusal> {
    let mut seat = seat;
    let mut reader = Counted::new(input);
    serve_reader(rt, alloc, node, &mut seat, stream, &mut reader, gate)
}

fn writes<A: Host, R: Machine>(
    rt: &R,
    alloc: Global,
    node: &A,
    seat: A::Seat,
    stream: u64,
    gate: &Held,
) -> (Result<(), Refusal>, Vec<u8>) {
    let mut seat = seat;
    let mut writer = Counted::new(Vec::new(alloc));
    let wrote = serve_writer(rt, alloc, node, &mut seat, stream, &mut writer, gate);
    (wrote, writer.inner)
}

/// Serves an open stream by two threads, each with a seat.
pub(crate) fn by_two<A: Host + Sync, R: Threads + Machine + Sync>(
    rt: &R,
    alloc: Global,
    node: &A,
    seats: (A::Seat, A::Seat),
    stream: u64,
    input: Pieces<'_>,
    gate: &Held,
) -> Served
where
    A::Seat: Send,
    A::Segment: Send,
{
    let (one, other) = seats;
    let (read, (wrote, output)) = join(
        rt,
        move || reads(rt, alloc, node, one, stream, input, gate),
        move || writes(rt, alloc, node, other, stream, gate),
    );
    Served {
        read,
        wrote,
        output,
    }
}

// Serves a stream of a node that holds nothing. The read of this number waits until so many frames
// are to be written.
fn serve_one<A: Site + Sync, R: Threads + Machine + Sync>(
    rt: &R,
    alloc: Global,
    node: Result<A, Refusal>,
    input: Pieces<'_>,
    gate: &Held,
) -> Result<Served, Refusal>
where
    A::Seat: Send,
    A::Segment: Send,
{
    let node = node?;
    let mut seats = both(node.seat(rt), node.seat(rt))?;
    let stream = open(rt, &node, &mut seats.0)?;
    Ok(by_two(rt, alloc, &node, seats, stream, input, gate))
}

fn serve<N: NodeName + Send + Sync, R: Threads + Machine + Sync>(
    rt: &R,
    alloc: Global,
    opened: Opened<JournalLine>,
    input: Pieces<'_>,
    gate: &Held,
) -> Result<Served, Refusal>
    requires name { opened ≡ N.id }
    requires number { 1 ≡ N.replica }
{
    serve_one(
        rt,
        alloc,
        SharedNode::<N>::new(alloc, opened, 1),
        input,
        gate,
    )
}

// The same of these bytes, in pieces of this size.
fn serve_in_pieces<R: Threads + Machine + Sync>(
    rt: &R,
    alloc: Global,
    bytes: &[u8],
    size: usize,
    reads: u64,
    writes: u64,
) -> Result<Served, Refusal> {
    let opened = Opened::<JournalLine>::new(alloc)?;
    serve::<Brand, _>(
        rt,
        alloc,
        opened,
        Pieces { bytes, size },
        &Held::new(reads, writes, true),
    )
}

// That the request is answered by a stream, and both threads end well.
fn is_answered(alloc: Global, served: &Served) -> Result<(), Fail> {
    holds(
        served.read == Ok(()) && served.wrote == Ok(()),
        "both threads end well",
    )?;
    let output = write_frame(alloc, FrameKind::DiscoveryResponse, RESPONSE)?;
    holds(served.output == output, "the response is written")
}

// The same where it comes in pieces of this size.
fn answers<R: Threads + Machine + Sync>(
    rt: &R,
    alloc: Global,
    size: usize,
    reads: u64,
) -> Result<(), Fail> {
    let input = write_frame(alloc, FrameKind::DiscoveryRequest, REQUEST)?;
    let served = serve_in_pieces(rt, alloc, &input, size, reads, 1)?;
    is_answered(alloc, &served)
}

#[test]
fn a_request_is_answered(rt: HostRuntime) -> Result<(), Fail> {
    answers(&rt, rt.alloc(), 4096, 2)?;
    answers(&rt, rt.alloc(), 1, 71)
}

#[test]
fn a_peer_that_closes_within_a_frame_is_told(rt: HostRuntime) -> Result<(), Fail> {
    let input = write_frame(rt.alloc(), FrameKind::DiscoveryRequest, REQUEST)?;
    let cut = serve_in_pieces(&rt, rt.alloc(), &input[..69], 7, 0, 0)?;
    assert!(rt;
        cut.read == Err(Refusal::Truncated),
        "the input ends within a frame"
    );
    assert!(rt; cut.wrote == Ok(()), "the stream is closed");
    assert!(rt; cut.output.is_empty(), "nothing was asked for");
    Ok(())
}

#[test]
fn a_frame_of_another_kind_is_refused(rt: HostRuntime) -> Result<(), Fail> {
    let input = write_frame(rt.alloc(), FrameKind::DiscoveryResponse, b"{}")?;
    let refused = serve_in_pieces(&rt, rt.alloc(), &input, 4096, 0, 0)?;
    assert!(rt;
        refused.read == Err(Refusal::WrongVariant),
        "a client sends requests"
    );
    assert!(rt; refused.wrote == Ok(()), "the stream is closed");
    Ok(())
}

// rule: first-variant
#[test]
fn a_request_of_the_other_variant_ends_a_stream(rt: HostRuntime) -> Result<(), Fail> {
    let mut input = write_frame(rt.alloc(), FrameKind::DiscoveryRequest, REQUEST)?;
    let other = write_frame(rt.alloc(), FrameKind::DeltaDiscoveryRequest, REQUEST)?;
    input.extend_from_slice(other.as_slice())?;
    let refused = serve_in_pieces(&rt, rt.alloc(), &input, 4096, 0, 0)?;
    assert!(rt;
        refused.read == Err(Refusal::WrongVariant),
        "the stream began in the variant of the first"
    );
    assert!(rt; refused.wrote == Ok(()), "the stream is closed");
    Ok(())
}
