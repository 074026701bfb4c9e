// A journal that is full, and is cut.
ghost use Rattle.std.specs.Prelude.{◌≡◌};

use crate::calls::{Told, counter, refused};
use crate::sites::{Happens, Left, Records, Site, alone};
use std::alloc::Global;
use std::marker::Brand;
use std::sync::Wait;
use std::test::Fail;
use xds_node::{JournalLine, MOST_RECORDS, NodeName, Opened, SharedNode};
use xds_resource::Refusal;

// Fills a journal with refused events, each of which is recorded.
fn fill<A: Site, R: Wait>(rt: &R, node: &A, seat: &mut A::Seat) -> Result<(), Refusal> {
    for _ in 0..MOST_RECORDS {
        match refused(node.call(rt, seat, A::Event::close(9))) {
            Err(Refusal::NoStream) => {}
            Err(refusal) => return Err(refusal),
            Ok(()) => return Err(Refusal::BadTrace),
        }
    }
    Ok(())
}

// The event that comes back of a call that finds no room.
fn turned_away<T: Told>(answer: T) -> Result<T::Event, Refusal> {
    match answer.back() {
        Some((event, Refusal::JournalFull)) => Ok(event),
        Some((_, refusal)) => Err(refusal),
        None => Err(Refusal::BadTrace),
    }
}

// What is cut of a node whose journal is full; the event that found no room is tried again then.
fn full_and_cut<A: Site, R: Wait>(
    rt: &R,
    alloc: Global,
    node: &A,
    seat: &mut A::Seat,
) -> Result<A::Segment, Refusal> {
    none_is_cut(node.cut_full(rt)?)?;
    fill(rt, node, seat)?;
    let event = A::Event::put(alloc, "a")?;
    let event = turned_away(node.call(rt, seat, event))?;
    let cut = node.cut_full(rt)?;
    none_is_cut(node.cut_full(rt)?)?;
    counter(node.call(rt, seat, event))?;
    cut.ok_or(Refusal::BadTrace)
}

// A journal that isn't full isn't cut as a full one.
fn none_is_cut<S: Drop>(segment: Option<S>) -> Result<(), Refusal> {
    match segment {
        Some(_) => Err(Refusal::BadTrace),
        None => Ok(()),
    }
}

// What is left of a node whose journal was full once.
#[derive(Clone, Copy)]
struct Outcome {
    // The records that were cut, the number of the first of them, and how many the history has.
    cut: usize,
    first: u64,
    records: usize,
    before: u64,
    // The clusters of the replica when the journal was cut.
    held: usize,
    complete: bool,
    audit: Result<(), Refusal>,
}

fn ended<L: Left>(alloc: Global, left: L, segment: L::Segment) -> Result<Outcome, Refusal> {
    let (cut, first) = (segment.count(), segment.first());
    let (records, before) = (left.count(), left.cut());
    let held = left.clusters(alloc)?;
    let complete = left.is_complete();
    let audit = left.audit(alone(alloc, segment)?);
    Ok(Outcome {
        cut,
        first,
        records,
        before,
        held,
        complete,
        audit,
    })
}

fn full<A: Site, R: Wait>(
    rt: &R,
    alloc: Global,
    node: Result<A, Refusal>,
) -> Result<Outcome, Refusal> {
    let node = node?;
    let mut seat = node.seat(rt)?;
    let segment = full_and_cut(rt, alloc, &node, &mut seat)?;
    let seats = alone(alloc, seat)?;
    ended(alloc, node.close(seats), segment)
}

fn fills_up<N: NodeName, R: Wait>(
    rt: &R,
    alloc: Global,
    opened: Opened<JournalLine>,
) -> Result<Outcome, Refusal>
    requires name { opened ≡ N.id }
    requires number { N.replica ≡ 1 }
{
    full(rt, alloc, SharedNode::<N>::new(alloc, opened, 1))
}

// rule: cuts
#[test]
fn a_full_journal_takes_no_record_until_it_is_cut(rt: HostRuntime) -> Result<(), Fail> {
    let opened = Opened::<JournalLine>::new(rt.alloc())?;
    let outcome = fills_up::<Brand, _>(&rt, rt.alloc(), opened)?;
    assert!(rt;
        outcome.cut == 65536,
        "all records were handed out, and none of the call that found no room"
    );
    assert!(rt; outcome.first == 1, "they are numbered from 1");
    assert!(rt;
        outcome.records == 1,
        "the event that came back was recorded after the cut"
    );
    assert!(rt; outcome.before == 65536, "the history counts what was cut");
    assert!(rt;
        outcome.held == 0,
        "the call that found no room had changed nothing"
    );
    assert!(rt; outcome.complete, "the one seat was handed in");
    assert!(rt; outcome.audit.is_ok(), "the segment is all that was cut");
    Ok(())
}
