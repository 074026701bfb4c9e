// A node that is cut again and again: each record is handed out once, and each segment begins where
// the one before it ends.
ghost use Rattle.std.specs.Prelude.{◌≡◌};

use crate::ends::put_and_cut;
use crate::sites::{Left, Records, Site, alone, put};
use std::alloc::Global;
use std::marker::Brand;
use std::sync::Wait;
use std::test::Fail;
use xds_node::{JournalLine, NodeName, Opened, SharedNode};
use xds_resource::Refusal;

// What a node leaves that was cut twice.
#[derive(Clone, Copy)]
struct Outcome {
    // How many records each segment has, and the number of its first.
    counts: (usize, usize),
    firsts: (u64, u64),
    // How many records the history has, and how many were cut before.
    records: usize,
    before: u64,
    // Whether the first segment's replica has no cluster, the second's is what the first segment's
    // records make of that one, and the history's what the second's make of it.
    is_empty: bool,
    is_joined: bool,
    is_ended: bool,
}

// Whether two texts are there, and the same.
fn same(one: Result<String, Refusal>, other: Result<String, Refusal>) -> Result<bool, Refusal> {
    let one = one?;
    Ok(one.as_str() == other?.as_str())
}

fn outcome_of<L: Left>(
    alloc: Global,
    left: &L,
    first: &L::Segment,
    second: &L::Segment,
) -> Result<Outcome, Refusal> {
    Ok(Outcome {
        counts: (first.count(), second.count()),
        firsts: (first.first(), second.first()),
        records: left.count(),
        before: left.cut(),
        is_empty: first.held(alloc)?.as_str() == "{}",
        is_joined: same(second.held(alloc), first.held_after(alloc))?,
        is_ended: same(left.held(alloc), second.held_after(alloc))?,
    })
}

fn left_of<L: Left>(alloc: Global, left: L, segments: Vec<L::Segment>) -> Result<Outcome, Refusal> {
    match segments.as_slice() {
        [first, second] => outcome_of(alloc, &left, first, second),
        _ => Err(Refusal::BadTrace),
    }
}

// A node is cut after three records, and after two more; a last one is left to its history.
fn cut_twice<A: Site, R: Wait>(
    rt: &R,
    alloc: Global,
    node: Result<A, Refusal>,
) -> Result<Outcome, Refusal> {
    let node = node?;
    let mut seat = node.seat(rt)?;
    let mut segments = Vec::new(alloc);
    put_and_cut(rt, alloc, &node, &mut seat, "a b c", &mut segments)?;
    put_and_cut(rt, alloc, &node, &mut seat, "d a", &mut segments)?;
    put(rt, alloc, &node, &mut seat, "e")?;
    let seats = alone(alloc, seat)?;
    left_of(alloc, node.close(seats), segments)
}

fn cuts<N: NodeName, R: Wait>(
    rt: &R,
    alloc: Global,
    opened: Opened<JournalLine>,
) -> Result<Outcome, Refusal>
    requires name { opened ≡ N.id }
    requires number { N.replica ≡ 1 }
{
    cut_twice(rt, alloc, SharedNode::<N>::new(alloc, opened, 1))
}

// rule: cuts
#[test]
fn each_record_is_handed_out_once(rt: HostRuntime) -> Result<(), Fail> {
    let opened = Opened::<JournalLine>::new(rt.alloc())?;
    let outcome = cuts::<Brand, _>(&rt, rt.alloc(), opened)?;
    assert!(rt;
        outcome.counts == (3, 2),
        "each segment has the records since the cut before"
    );
    assert!(rt;
        outcome.firsts == (1, 4),
        "they are numbered on from 1, and no number is passed over"
    );
    assert!(rt; outcome.before == 5, "all of them were handed out");
    assert!(rt; outcome.records == 1, "the last is the history's");
    Ok(())
}

// rule: cuts
#[test]
fn each_segment_begins_where_the_one_before_it_ends(rt: HostRuntime) -> Result<(), Fail> {
    let opened = Opened::<JournalLine>::new(rt.alloc())?;
    let outcome = cuts::<Brand, _>(&rt, rt.alloc(), opened)?;
    assert!(rt; outcome.is_empty, "nothing had happened before the first");
    assert!(rt;
        outcome.is_joined,
        "the second begins at what the first segment's records make of its replica"
    );
    assert!(rt;
        outcome.is_ended,
        "and the history at what the second segment's make of that"
    );
    Ok(())
}
