// Four threads that fill a node's journal again and again, and cut it.
ghost use Rattle.std.specs.Prelude.{◌≡◌};

use crate::calls::refused;
use crate::sites::Site;
use std::alloc::Global;
use std::marker::Brand;
use std::sync::Wait;
use std::test::Fail;
use std::thread::{Threads, map_vec};
use xds_core::Event;
use xds_node::{History, Host, JournalLine, NodeName, Opened, Seat, Segment, SharedNode};
use xds_resource::Refusal;

const SEATS: usize = 4;

const LOOKS: usize = 50_000;

const RECORDS: usize = 200_000;

// How often one look is tried.
const TRIES: usize = 1_000;

// Records in a row.
trait Numbered {
    // The number of the first.
    fn first(&self) -> u64;

    fn count(&self) -> usize;
}

impl<N: NodeName> Numbered for Segment<N> {
    fn first(&self) -> u64 {
        Segment::first(self)
    }

    fn count(&self) -> usize {
        self.records().len()
    }
}

impl<N: NodeName> Numbered for History<N> {
    fn first(&self) -> u64 {
        self.cut().saturating_add(1)
    }

    fn count(&self) -> usize {
        self.records().len()
    }
}

// A node that can be closed.
trait Closing: Site {
    type Left: Numbered + Drop;

    fn close(self, seats: Vec<Self::Seat>) -> Self::Left;

    fn is_complete(left: &Self::Left) -> bool;
}

impl<N: NodeName> Closing for SharedNode<N> {
    type Left = History<N>;

    fn close(self, seats: Vec<Seat<N>>) -> History<N> {
        SharedNode::close(self, seats)
    }

    fn is_complete(left: &History<N>) -> bool {
        left.is_complete()
    }
}

// A seat, the segments that its thread cut, and how that ended.
#[derive(Drop)]
struct Worker<S, P> {
    seat: S,
    segments: Vec<P>,
    done: Result<(), Refusal>,
}

// A worker with a new seat, that has cut nothing.
fn seated<A: Site, R: Wait>(
    rt: &R,
    alloc: Global,
    node: &A,
) -> Result<Worker<A::Seat, A::Segment>, Refusal> {
    Ok(Worker {
        seat: node.seat(rt)?,
        segments: Vec::new(alloc),
        done: Ok(()),
    })
}

fn workers<A: Site, R: Wait>(
    rt: &R,
    alloc: Global,
    node: &A,
) -> Result<Vec<Worker<A::Seat, A::Segment>>, Refusal> {
    let mut workers = Vec::new(alloc);
    for _ in 0..SEATS {
        workers.push(seated(rt, alloc, node)?)?;
    }
    Ok(workers)
}

// Asks whether a stream that was never opened is owed something. Where the journal is full it is
// cut.
fn look<A: Host, R: Wait>(
    rt: &R,
    node: &A,
    seat: &mut A::Seat,
    segments: &mut Vec<A::Segment>,
) -> Result<(), Refusal> {
    for _ in 0..TRIES {
        match refused(node.call(rt, seat, Event::Owes(1, None))) {
            Err(Refusal::NoStream) => return Ok(()),
            Err(Refusal::JournalFull) => segments.push(node.cut(rt)?)?,
            Err(refusal) => return Err(refusal),
            Ok(()) => return Err(Refusal::BadTrace),
        }
    }
    Err(Refusal::JournalFull)
}

fn looks<A: Host, R: Wait>(
    rt: &R,
    node: &A,
    seat: &mut A::Seat,
    segments: &mut Vec<A::Segment>,
) -> Result<(), Refusal> {
    for _ in 0..LOOKS {
        look(rt, node, seat, segments)?;
    }
    Ok(())
}

fn worked<A: Host, R: Wait>(
    rt: &R,
    node: &A,
    worker: Worker<A::Seat, A::Segment>,
) -> Worker<A::Seat, A::Segment> {
    let mut worker = worker;
    worker.done = looks(rt, node, &mut worker.seat, &mut worker.segments);
    worker
}

// Moves all values of a list behind those of another.
fn append<V: Drop>(all: &mut Vec<V>, more: Vec<V>) -> Result<(), Refusal> {
    for value in more {
        all.push(value)?;
    }
    Ok(())
}

// Adds the seat and the segments of a worker.
fn hand_in<S: Drop, P: Drop>(
    seats: &mut Vec<S>,
    segments: &mut Vec<P>,
    worker: Worker<S, P>,
) -> Result<(), Refusal> {
    let Worker {
        seat,
        segments: cut,
        done,
    } = worker;
    done?;
    seats.push(seat)?;
    append(segments, cut)
}

// The seats, and the segments, of all workers.
fn handed_in<S: Drop, P: Drop>(
    alloc: Global,
    workers: Vec<Worker<S, P>>,
) -> Result<(Vec<S>, Vec<P>), Refusal> {
    let mut seats = Vec::new(alloc);
    let mut segments = Vec::new(alloc);
    for worker in workers {
        hand_in(&mut seats, &mut segments, worker)?;
    }
    Ok((seats, segments))
}

// Marks the numbers of records. Answers whether none of them was marked before or is out of range.
fn mark<P: Numbered>(seen: &mut Vec<bool>, piece: &P) -> bool {
    let mut is_new = true;
    let mut number = piece.first();
    for _ in 0..piece.count() {
        match seen.get_mut(number.wrapping_sub(1) as usize) {
            Some(place) if !*place => *place = true,
            _ => is_new = false,
        }
        number = number.wrapping_add(1);
    }
    is_new
}

// What is left of a node.
#[derive(Drop)]
struct Outcome {
    // Whether no record has a number from out of range, or the number of another.
    once: bool,
    // Whether each number has a record.
    all: bool,
    complete: bool,
    segments: usize,
}

fn counted<A: Closing>(
    alloc: Global,
    left: A::Left,
    segments: Vec<A::Segment>,
) -> Result<Outcome, Refusal>
where
    A::Segment: Numbered,
{
    let mut seen = Vec::new(alloc);
    seen.resize(RECORDS, false)?;
    let mut once = mark(&mut seen, &left);
    for segment in segments.as_slice() {
        once = mark(&mut seen, segment) && once;
    }
    Ok(Outcome {
        once,
        all: !seen.as_slice().contains(&false),
        complete: A::is_complete(&left),
        segments: segments.len(),
    })
}

// All workers at once, each in a thread of its own.
fn worked_at_once<A: Host + Sync, R: Threads + Wait + Sync>(
    rt: &R,
    node: &A,
    workers: Vec<Worker<A::Seat, A::Segment>>,
) -> Result<Vec<Worker<A::Seat, A::Segment>>, Refusal>
where
    A::Seat: Send,
    A::Segment: Send,
{
    Ok(map_vec(rt, workers, &|worker| worked(rt, node, worker))?)
}

fn four<A: Closing + Sync, R: Threads + Wait + Sync>(
    rt: &R,
    alloc: Global,
    node: Result<A, Refusal>,
) -> Result<Outcome, Refusal>
where
    A::Seat: Send,
    A::Segment: Send + Numbered,
{
    let node = node?;
    let workers = workers(rt, alloc, &node)?;
    let done = worked_at_once(rt, &node, workers)?;
    let (seats, segments) = handed_in(alloc, done)?;
    counted::<A>(alloc, node.close(seats), segments)
}

fn four_seats<N: NodeName + Send + Sync, R: Threads + Wait + Sync>(
    rt: &R,
    alloc: Global,
    opened: Opened<JournalLine>,
) -> Result<Outcome, Refusal>
    requires name { opened ≡ N.id }
    requires number { 1 ≡ N.replica }
{
    four(rt, alloc, SharedNode::<N>::new(alloc, opened, 1))
}

// rule: one-seat, rule: cuts
#[test]
fn records_of_four_threads_are_numbered_once(rt: HostRuntime) -> Result<(), Fail> {
    let opened = Opened::<JournalLine>::new(rt.alloc())?;
    let outcome = four_seats::<Brand, _>(&rt, rt.alloc(), opened)?;
    assert!(rt; outcome.once, "no number is there twice");
    assert!(rt; outcome.all, "there are all from 1 to 200,000");
    assert!(rt; outcome.complete, "all four seats were handed in");
    assert!(rt; outcome.segments >= 3, "65,536 records have room");
    Ok(())
}
