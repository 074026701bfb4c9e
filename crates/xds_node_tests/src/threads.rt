// What threads of a node do at once. That it may be sent to a thread is known of a node, and not of
// what these tests know of it by traits.
use crate::calls::{clusters, refused};
use crate::seats::{Worker, worked, workers};
use crate::sites::Site;
use std::alloc::Global;
use std::sync::Wait;
use std::thread::{Threads, join, map_vec};
use xds_core::{Event, Marks};
use xds_node::{NodeName, Seat, SharedNode, WaitEnd};
use xds_resource::Refusal;

/// All workers at once, each in a thread of its own.
pub(crate) fn all_work<N: NodeName + Send + Sync, R: Threads + Wait + Sync>(
    rt: &R,
    alloc: Global,
    node: &SharedNode<N>,
) -> Result<Vec<Worker<Seat<N>>>, Refusal> {
    let workers = workers(rt, alloc, node)?;
    Ok(map_vec(rt, workers, &|worker| { worked(rt, alloc, node, worker) })?)
}

/// What a thread that waits for a stream sees while another makes a call.
pub(crate) fn waits_and_calls<N: NodeName + Send + Sync, R: Threads + Wait + Sync>(
    rt: &R,
    node: &SharedNode<N>,
    stream: u64,
    seat: Seat<N>,
    event: Event,
) -> (WaitEnd, (Seat<N>, Result<(), Refusal>)) {
    join(
        rt,
        || node.wait_due(rt, stream),
        || called(rt, node, seat, event),
    )
}

/// How many clusters a thread counts as soon as something is due on a stream, while another holds
/// the writers back until these events have happened.
pub(crate) fn counts_and_holds<N: NodeName + Send + Sync, R: Threads + Wait + Sync>(
    rt: &R,
    node: &SharedNode<N>,
    stream: u64,
    seats: (Seat<N>, Seat<N>),
    events: (Event, Event),
) -> (Result<usize, Refusal>, Result<(), Refusal>) {
    let (counts, puts) = seats;
    let (first, last) = events;
    node.hold(rt);
    join(
        rt,
        || counted_when_due(rt, node, stream, counts),
        || called_and_released(rt, node, puts, first, last),
    )
}

// Waits until something is due on a stream, and counts the clusters then.
fn counted_when_due<N: NodeName, R: Wait>(
    rt: &R,
    node: &SharedNode<N>,
    stream: u64,
    seat: Seat<N>,
) -> Result<usize, Refusal> {
    let mut seat = seat;
    node.wait_due(rt, stream);
    let (count, _) = clusters(node.call(rt, &mut seat, Event::Snapshot))?;
    Ok(count)
}

// Makes two calls, and holds no writer back any more.
fn called_and_released<N: NodeName, R: Wait>(
    rt: &R,
    node: &SharedNode<N>,
    seat: Seat<N>,
    first: Event,
    last: Event,
) -> Result<(), Refusal> {
    let (seat, one) = called(rt, node, seat, first);
    let (seat, other) = called(rt, node, seat, last);
    drop(seat);
    node.release(rt);
    one?;
    other
}

/// What a thread that waits for changes sees while another stops the node.
pub(crate) fn waits_and_stops<N: NodeName + Send + Sync, R: Threads + Wait + Sync>(
    rt: &R,
    node: &SharedNode<N>,
    seen: Marks,
) -> Option<Marks> {
    let (left, _) = join(rt, || node.wait_changed(rt, seen), || node.stop(rt));
    left
}

// Makes a call, and hands the seat back.
fn called<A: Site, R: Wait>(
    rt: &R,
    node: &A,
    seat: A::Seat,
    event: A::Event,
) -> (A::Seat, Result<(), Refusal>) {
    let mut seat = seat;
    let answer = refused(node.call(rt, &mut seat, event));
    (seat, answer)
}
