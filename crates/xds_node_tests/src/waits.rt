// Threads that wait for what others do.
ghost use Rattle.std.specs.Prelude.{◌≡◌};

use crate::calls::{NOTHING, refused, stream};
use crate::sites::{Happens, Site};
use crate::threads::{counts_and_holds, waits_and_calls, waits_and_stops};
use std::alloc::Global;
use std::marker::Brand;
use std::sync::Wait;
use std::test::Fail;
use std::thread::Threads;
use xds_core::{Event, Marks};
use xds_node::{JournalLine, NodeName, Opened, SharedNode, WaitEnd};
use xds_resource::Refusal;

// A client that wants all clusters.
const WANTS_ALL: &[u8] = b"{\"node\":{\"id\":\"c\"},\"resourceNamesSubscribe\":[\"*\"],\
     \"typeUrl\":\"type.googleapis.com/envoy.config.cluster.v3.Cluster\"}";

// What the waiting threads saw.
#[derive(Clone, Copy)]
struct Outcome {
    first: WaitEnd,
    last: WaitEnd,
    clusters: Option<u64>,
    stopped: bool,
}

// Opens a stream whose client wants all clusters, and has it told that there are none.
fn opened_stream<A: Site, R: Wait>(
    rt: &R,
    alloc: Global,
    node: &A,
    seat: &mut A::Seat,
) -> Result<u64, Refusal> {
    let number = stream(node.call(rt, seat, A::Event::open()))?;
    let request = A::Event::ask(alloc, number, WANTS_ALL)?;
    refused(node.call(rt, seat, request))?;
    refused(node.call(rt, seat, A::Event::poll(number)))?;
    Ok(number)
}

// Has a stream told what changed, once the call that changed it went well. Answers the seat, and
// the event that closes the stream.
fn told<A: Site, R: Wait>(
    rt: &R,
    node: &A,
    seat: A::Seat,
    number: u64,
    answer: Result<(), Refusal>,
) -> Result<(A::Seat, A::Event), Refusal> {
    answer?;
    let mut seat = seat;
    refused(node.call(rt, &mut seat, A::Event::poll(number)))?;
    Ok((seat, A::Event::close(number)))
}

// A seat whose stream has been told all, the stream, and the event that changes something.
fn begun<A: Site, R: Wait>(
    rt: &R,
    alloc: Global,
    node: &A,
) -> Result<(A::Seat, u64, A::Event), Refusal> {
    let mut seat = node.seat(rt)?;
    let number = opened_stream(rt, alloc, node, &mut seat)?;
    Ok((seat, number, A::Event::put(alloc, "a")?))
}

// How waits for a stream end while another thread puts a cluster, and while it closes the stream.
fn both_waits<N: NodeName + Send + Sync, R: Threads + Wait + Sync>(
    rt: &R,
    alloc: Global,
    node: &SharedNode<N>,
) -> Result<(WaitEnd, WaitEnd), Refusal> {
    let (seat, number, event) = begun(rt, alloc, node)?;
    let (first, (seat, answer)) = waits_and_calls(rt, node, number, seat, event);
    let (seat, event) = told(rt, node, seat, number, answer)?;
    let (last, (seat, answer)) = waits_and_calls(rt, node, number, seat, event);
    drop(seat);
    answer?;
    Ok((first, last))
}

// How waits for changes end where something has changed, and while another thread stops the node.
fn changes<N: NodeName + Send + Sync, R: Threads + Wait + Sync>(
    rt: &R,
    node: &SharedNode<N>,
) -> (Option<u64>, bool) {
    let changed = node.wait_changed(rt, NOTHING);
    let clusters = changed.map(|marks: Marks| marks.cluster);
    let seen = changed.unwrap_or(NOTHING);
    (clusters, waits_and_stops(rt, node, seen).is_none())
}

fn waited<N: NodeName + Send + Sync, R: Threads + Wait + Sync>(
    rt: &R,
    alloc: Global,
    node: &SharedNode<N>,
) -> Result<Outcome, Refusal> {
    let (first, last) = both_waits(rt, alloc, node)?;
    let (clusters, stopped) = changes(rt, node);
    Ok(Outcome {
        first,
        last,
        clusters,
        stopped,
    })
}

// How many clusters a writer finds that was held back while two were put.
fn counted<N: NodeName + Send + Sync, R: Threads + Wait + Sync>(
    rt: &R,
    alloc: Global,
    node: &SharedNode<N>,
) -> Result<usize, Refusal> {
    let (seat, number, first) = begun(rt, alloc, node)?;
    let last = Event::put(alloc, "b")?;
    let (count, done) = counts_and_holds(rt, node, number, (node.seat(rt)?, seat), (first, last));
    done?;
    count
}

fn holds<N: NodeName + Send + Sync, R: Threads + Wait + Sync>(
    rt: &R,
    alloc: Global,
    opened: Opened<JournalLine>,
) -> Result<usize, Refusal>
    requires name { opened ≡ N.id }
    requires number { N.replica ≡ 1 }
{
    let node = SharedNode::<N>::new(alloc, opened, 1)?;
    let count = counted(rt, alloc, &node);
    drop(node);
    count
}

// rule: wake-ups
#[test]
fn a_writer_that_is_held_back_finds_all_changes(rt: HostRuntime) -> Result<(), Fail> {
    let opened = Opened::<JournalLine>::new(rt.alloc())?;
    let count = holds::<Brand, _>(&rt, rt.alloc(), opened)?;
    assert!(rt; count == 2, "both clusters were put before it went on");
    Ok(())
}

fn waits<N: NodeName + Send + Sync, R: Threads + Wait + Sync>(
    rt: &R,
    alloc: Global,
    opened: Opened<JournalLine>,
) -> Result<Outcome, Refusal>
    requires name { opened ≡ N.id }
    requires number { N.replica ≡ 1 }
{
    let node = SharedNode::<N>::new(alloc, opened, 1)?;
    let outcome = waited(rt, alloc, &node);
    drop(node);
    outcome
}

// rule: wake-ups
#[test]
fn waits_end_by_what_others_do(rt: HostRuntime) -> Result<(), Fail> {
    let opened = Opened::<JournalLine>::new(rt.alloc())?;
    let outcome = waits::<Brand, _>(&rt, rt.alloc(), opened)?;
    assert!(rt; outcome.first == WaitEnd::Ready, "a cluster was put");
    assert!(rt; outcome.last == WaitEnd::Closed, "the stream was closed");
    assert!(rt;
        outcome.clusters == Some(1),
        "one write of a cluster was made"
    );
    assert!(rt; outcome.stopped, "the node was stopped");
    Ok(())
}
