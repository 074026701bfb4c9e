// The end of a node: seats that are missing, and segments that are.
ghost use Rattle.std.specs.Prelude.{◌≡◌};

use crate::sites::{Left, Site, alone, put};
use std::alloc::Global;
use std::marker::Brand;
use std::sync::Wait;
use std::test::Fail;
use xds_node::{JournalLine, NodeName, Opened, SharedNode};
use xds_resource::Refusal;

// Puts clusters of these names, and cuts the node.
pub(crate) fn put_and_cut<A: Site, R: Wait>(
    rt: &R,
    alloc: Global,
    node: &A,
    seat: &mut A::Seat,
    names: &str,
    segments: &mut Vec<A::Segment>,
) -> Result<(), Refusal> {
    for name in names.split_whitespace() {
        put(rt, alloc, node, seat, name)?;
    }
    Ok(segments.push(node.cut(rt)?)?)
}

// Cuts a node twice, and once where nothing is left to cut; what was cut is put to the segments.
fn cut_twice<A: Site, R: Wait>(
    rt: &R,
    alloc: Global,
    node: &A,
    seat: &mut A::Seat,
    segments: &mut Vec<A::Segment>,
) -> Result<(), Refusal> {
    put_and_cut(rt, alloc, node, seat, "a b", segments)?;
    put_and_cut(rt, alloc, node, seat, "", segments)?;
    put_and_cut(rt, alloc, node, seat, "c", segments)?;
    put(rt, alloc, node, seat, "d")?;
    Ok(())
}

// How the segments are handed in.
#[derive(Clone, Copy)]
enum Order {
    AsCut,
    WithoutTheLast,
    Backwards,
}

fn ordered<P: Drop>(segments: &mut Vec<P>, order: Order) {
    match order {
        Order::WithoutTheLast => drop(segments.pop()),
        Order::Backwards => segments.as_mut_slice().reverse(),
        Order::AsCut => {}
    }
}

// What an audit answers where the segments are all, where the last is missing, or where they are
// the other way round.
fn audited<A: Site, R: Wait>(
    rt: &R,
    alloc: Global,
    node: Result<A, Refusal>,
    order: Order,
) -> Result<bool, Refusal> {
    let node = node?;
    let mut seat = node.seat(rt)?;
    let mut segments = Vec::new(alloc);
    cut_twice(rt, alloc, &node, &mut seat, &mut segments)?;
    ordered(&mut segments, order);
    let seats = alone(alloc, seat)?;
    match node.close(seats).audit(segments) {
        Ok(()) => Ok(true),
        Err(Refusal::Gap) => Ok(false),
        Err(refusal) => Err(refusal),
    }
}

fn audits<N: NodeName, R: Wait>(
    rt: &R,
    alloc: Global,
    opened: Opened<JournalLine>,
    order: Order,
) -> Result<bool, Refusal>
    requires name { opened ≡ N.id }
    requires number { N.replica ≡ 1 }
{
    audited(rt, alloc, SharedNode::<N>::new(alloc, opened, 1), order)
}

// rule: cuts
#[test]
fn segments_are_all_that_was_cut(rt: HostRuntime) -> Result<(), Fail> {
    let opened = Opened::<JournalLine>::new(rt.alloc())?;
    assert!(rt;
        audits::<Brand, _>(&rt, rt.alloc(), opened, Order::AsCut)?,
        "an empty one among them is no gap"
    );
    Ok(())
}

// rule: cuts
#[test]
fn a_segment_that_is_missing_is_a_gap(rt: HostRuntime) -> Result<(), Fail> {
    let opened = Opened::<JournalLine>::new(rt.alloc())?;
    assert!(rt;
        !audits::<Brand, _>(&rt, rt.alloc(), opened, Order::WithoutTheLast)?,
        "a record is missing"
    );
    Ok(())
}

// rule: cuts
#[test]
fn segments_in_another_order_are_a_gap(rt: HostRuntime) -> Result<(), Fail> {
    let opened = Opened::<JournalLine>::new(rt.alloc())?;
    assert!(rt;
        !audits::<Brand, _>(&rt, rt.alloc(), opened, Order::Backwards)?,
        "they don't begin with record 1"
    );
    Ok(())
}

// Whether the history is complete where one of two seats is handed in.
fn one_of_two<A: Site, R: Wait>(
    rt: &R,
    alloc: Global,
    node: Result<A, Refusal>,
) -> Result<bool, Refusal> {
    let node = node?;
    let kept = node.seat(rt)?;
    let seats = alone(alloc, node.seat(rt)?)?;
    let left = node.close(seats);
    drop(kept);
    Ok(left.is_complete())
}

fn lacks_a_seat<N: NodeName, R: Wait>(
    rt: &R,
    alloc: Global,
    opened: Opened<JournalLine>,
) -> Result<bool, Refusal>
    requires name { opened ≡ N.id }
    requires number { N.replica ≡ 1 }
{
    one_of_two(rt, alloc, SharedNode::<N>::new(alloc, opened, 1))
}

// Whether it is complete where two of two are.
fn two_of_two<A: Site, R: Wait>(
    rt: &R,
    alloc: Global,
    node: Result<A, Refusal>,
) -> Result<bool, Refusal> {
    let node = node?;
    let mut seats = alone(alloc, node.seat(rt)?)?;
    seats.push(node.seat(rt)?)?;
    Ok(node.close(seats).is_complete())
}

fn has_both_seats<N: NodeName, R: Wait>(
    rt: &R,
    alloc: Global,
    opened: Opened<JournalLine>,
) -> Result<bool, Refusal>
    requires name { opened ≡ N.id }
    requires number { N.replica ≡ 1 }
{
    two_of_two(rt, alloc, SharedNode::<N>::new(alloc, opened, 1))
}

// rule: one-seat
#[test]
fn each_call_makes_one_seat(rt: HostRuntime) -> Result<(), Fail> {
    let opened = Opened::<JournalLine>::new(rt.alloc())?;
    assert!(rt;
        has_both_seats::<Brand, _>(&rt, rt.alloc(), opened)?,
        "both seats were handed in, and no other was made"
    );
    Ok(())
}

// rule: one-seat
#[test]
fn without_a_seat_it_is_not_complete(rt: HostRuntime) -> Result<(), Fail> {
    let opened = Opened::<JournalLine>::new(rt.alloc())?;
    assert!(rt;
        !lacks_a_seat::<Brand, _>(&rt, rt.alloc(), opened)?,
        "one seat of two was handed in"
    );
    Ok(())
}
