// How worker threads end, each called alone.
use crate::calls::{open, put, refused};
use crate::exchanges::crossed;
use crate::gates::Open;
use crate::short::Short;
use crate::sites::{Machine, Site, Trial, tried};
use crate::streams::REQUEST;
use std::alloc::Global;
use std::test::Fail;
use xds_core::{Event, Request};
use xds_exchange::{Incoming, Outgoing, link};
use xds_flows::{Ended, Parcel, Receipt, exchange_in, exchange_out, serve_reader, serve_writer};
use xds_frames::{Counted, Faulty, FrameKind, write_frame};
use xds_message::DiscoveryRequest;
use xds_node::{Gate, Host, called};
use xds_resource::Refusal;

/// The refusal, if it is one.
pub(crate) fn outcome<T: Drop>(answer: Result<T, Refusal>) -> Result<(), Refusal> {
    match answer {
        Ok(_) => Ok(()),
        Err(refusal) => Err(refusal),
    }
}

// What the reader of a stream answers where one request comes.
fn reads<A: Host, R: Machine>(
    rt: &R,
    alloc: Global,
    node: &A,
    seat: &mut A::Seat,
    stream: u64,
) -> Result<(), Refusal> {
    reads_by(rt, alloc, node, seat, stream, &Open)
}

/// The same by this gate.
pub(crate) fn reads_by<A: Host, G: Gate<A::Segment>, R: Machine>(
    rt: &R,
    alloc: Global,
    node: &A,
    seat: &mut A::Seat,
    stream: u64,
    gate: &G,
) -> Result<(), Refusal> {
    let frame = write_frame(alloc, FrameKind::DiscoveryRequest, REQUEST)?;
    let mut reader = Counted::new(frame.as_slice());
    serve_reader(rt, alloc, node, seat, stream, &mut reader, gate)
}

// What the writer of a stream answers, of which this write fails, and how many bytes it wrote.
fn writes<A: Host, R: Machine>(
    rt: &R,
    alloc: Global,
    node: &A,
    seat: &mut A::Seat,
    stream: u64,
    failing: u64,
) -> (Result<(), Refusal>, usize) {
    writes_by(rt, alloc, node, seat, stream, failing, &Open)
}

/// The same by this gate.
pub(crate) fn writes_by<A: Host, G: Gate<A::Segment>, R: Machine>(
    rt: &R,
    alloc: Global,
    node: &A,
    seat: &mut A::Seat,
    stream: u64,
    failing: u64,
    gate: &G,
) -> (Result<(), Refusal>, usize) {
    let mut writer = Counted::new(Faulty::new(Vec::new(alloc), failing));
    let wrote = serve_writer(rt, alloc, node, seat, stream, &mut writer, gate);
    (wrote, writer.inner.inner.len())
}

/// Opens a stream, and asks for the clusters on it.
pub(crate) fn asked<A: Host, R: Machine>(
    rt: &R,
    alloc: Global,
    node: &A,
    seat: &mut A::Seat,
) -> Result<u64, Refusal> {
    let stream = open(rt, node, seat)?;
    let request = Request::Sotw(DiscoveryRequest::read(alloc, REQUEST)?);
    refused(node.call(rt, seat, Event::Request(stream, request)))?;
    Ok(stream)
}

// What a reader and a writer answer, and how many bytes were written: where the stream isn't open,
// and where a write fails and the stream is asked once more.
#[derive(Drop)]
struct Streams {
    read: Result<(), Refusal>,
    wrote: Result<(), Refusal>,
    bytes: usize,
    failed: Result<(), Refusal>,
    after: Result<(), Refusal>,
}

fn streams_by<A: Host, R: Machine>(
    rt: &R,
    alloc: Global,
    node: &A,
    seat: &mut A::Seat,
) -> Result<Streams, Refusal> {
    let read = reads(rt, alloc, node, seat, 9);
    let (wrote, bytes) = writes(rt, alloc, node, seat, 9, 0);
    let stream = asked(rt, alloc, node, seat)?;
    let (failed, _) = writes(rt, alloc, node, seat, stream, 1);
    let after = reads(rt, alloc, node, seat, stream);
    Ok(Streams {
        read,
        wrote,
        bytes,
        failed,
        after,
    })
}

struct AtStreams;

impl Trial for AtStreams {
    type Came = Streams;

    fn at<A: Site, R: Machine>(&self, rt: &R, alloc: Global, node: A) -> Result<Streams, Refusal> {
        let mut seat = node.seat(rt)?;
        streams_by(rt, alloc, &node, &mut seat)
    }
}

#[test]
fn a_stream_is_over_where_it_is_closed_or_a_write_fails(rt: HostRuntime) -> Result<(), Fail> {
    let came = tried(&rt, rt.alloc(), &AtStreams)?;
    assert!(rt;
        came.read == Err(Refusal::NoStream),
        "there is no stream that is asked"
    );
    assert!(rt; came.wrote == Ok(()), "nor one that is written to");
    assert!(rt; came.bytes == 0, "and nothing is written");
    assert!(rt; came.failed == Err(Refusal::Device), "a write fails");
    assert!(rt;
        came.after == Err(Refusal::NoStream),
        "then its stream is closed"
    );
    Ok(())
}

// What is answered where the journal is full and stays so.
#[derive(Drop)]
struct Full {
    called: Result<(), Refusal>,
    cuts: u64,
    read: Result<(), Refusal>,
    wrote: Result<(), Refusal>,
    told: Result<Ended, Refusal>,
    dropped: u64,
    receipt: Option<Receipt>,
}

// An exchange of a node: what telling comes to, how many of the parcels of one empty batch were
// dropped, and the receipt.
fn exchanged<A: Host, R: Machine>(
    rt: &R,
    alloc: Global,
    node: &A,
    seat: &mut A::Seat,
) -> Result<(Result<Ended, Refusal>, u64, Option<Receipt>), Refusal> {
    let frame = write_frame(alloc, FrameKind::Batch, b"{}")?;
    let ((mut out, mut receipts), (mut from, mut back)) = crossed(link(alloc), link(alloc))?;
    let told = exchange_out(rt, alloc, node, seat, &mut out, &mut receipts, &Open);
    let _ = out.put(rt, Parcel { frame, last: true });
    out.end(rt);
    let dropped = exchange_in(rt, alloc, node, seat, &mut from, &mut back, &Open);
    Ok((told, dropped, receipts.take(rt)))
}

struct WhereFull;

impl Trial for WhereFull {
    type Came = Full;

    fn at<A: Site, R: Machine>(&self, rt: &R, alloc: Global, node: A) -> Result<Full, Refusal> {
        let mut seat = node.seat(rt)?;
        node.stop(rt);
        let filler = node.seat(rt)?;
        let node = Short::new(rt, node, filler, 0)?;
        let called = outcome(called(rt, &node, &Open, &mut seat, Event::Open));
        let cuts = node.cuts(rt);
        let read = reads(rt, alloc, &node, &mut seat, 1);
        let (wrote, _) = writes(rt, alloc, &node, &mut seat, 1, 0);
        let (told, dropped, receipt) = exchanged(rt, alloc, &node, &mut seat)?;
        Ok(Full {
            called,
            cuts,
            read,
            wrote,
            told,
            dropped,
            receipt,
        })
    }
}

// rule: cuts
#[test]
fn a_journal_that_stays_full_is_told(rt: HostRuntime) -> Result<(), Fail> {
    let came = tried(&rt, rt.alloc(), &WhereFull)?;
    let refused = Err(Refusal::JournalFull);
    assert!(rt; came.called == refused, "a call finds no room");
    assert!(rt; came.cuts == 1, "in spite of a cut");
    assert!(rt; came.read == refused, "nor does a request");
    assert!(rt; came.wrote == refused, "nor a poll");
    assert!(rt;
        came.told == Err(Refusal::JournalFull),
        "nor what asks what changed"
    );
    assert!(rt; came.dropped == 1, "nor a merge");
    assert!(rt;
        came.receipt == Some(Receipt::Lost),
        "which is told as lost"
    );
    Ok(())
}

// What telling a peer comes to that is gone: where nothing is to be told, and where a cluster is.
fn tells_twice<A: Host, R: Machine>(
    rt: &R,
    alloc: Global,
    node: &A,
    seat: &mut A::Seat,
    out: &mut Outgoing<Parcel>,
    receipts: &mut Incoming<Receipt>,
) -> Result<(Ended, Ended), Refusal> {
    let nothing = exchange_out(rt, alloc, node, seat, out, receipts, &Open)?;
    put(rt, alloc, node, seat, "a")?;
    let something = exchange_out(rt, alloc, node, seat, out, receipts, &Open)?;
    Ok((nothing, something))
}

struct ToNobody;

impl Trial for ToNobody {
    type Came = (Ended, Ended);

    fn at<A: Site, R: Machine>(
        &self,
        rt: &R,
        alloc: Global,
        node: A,
    ) -> Result<(Ended, Ended), Refusal> {
        let mut seat = node.seat(rt)?;
        node.stop(rt);
        let ((mut out, mut receipts), (from, mut back)) = crossed(link(alloc), link(alloc))?;
        back.end(rt);
        drop(from.leave());
        tells_twice(rt, alloc, &node, &mut seat, &mut out, &mut receipts)
    }
}

#[test]
fn a_peer_that_is_gone_is_told_where_there_is_something_to_tell(
    rt: HostRuntime,
) -> Result<(), Fail> {
    let (nothing, something) = tried(&rt, rt.alloc(), &ToNobody)?;
    assert!(rt; nothing == Ended::Stopped, "nothing was to be told");
    assert!(rt; something == Ended::Unlinked, "nobody takes a cluster");
    Ok(())
}
