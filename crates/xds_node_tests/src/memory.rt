// A node that finds no memory. `bench/hand/refused.py` runs this test with each allocation failing in
// turn: a call that was refused left no record and gives its event back, and a cut that was refused
// has cut nothing.
ghost use Rattle.std.specs.Prelude.{◌≡◌};

use crate::calls::{Told, counter};
use crate::sites::{Happens, Left, Records, Site, alone, put};
use std::alloc::Global;
use std::marker::Brand;
use std::sync::Wait;
use std::test::Fail;
use xds_node::{JournalLine, NodeName, Opened, SharedNode};
use xds_resource::Refusal;

// The counter of a write, and whether its call was refused at first.
fn called_again<A: Site, R: Wait>(
    rt: &R,
    node: &A,
    seat: &mut A::Seat,
    event: A::Event,
) -> Result<(u64, bool), Refusal> {
    let answer = node.call(rt, seat, event);
    if answer.refused() != Err(Refusal::OutOfMemory) {
        return Ok((counter(answer)?, false));
    }
    match answer.back() {
        Some((event, _)) => Ok((counter(node.call(rt, seat, event))?, true)),
        None => Err(Refusal::BadTrace),
    }
}

// What was cut, and whether that was refused at first.
fn cut_again<A: Site, R: Wait>(rt: &R, node: &A) -> Result<(A::Segment, bool), Refusal> {
    match node.cut(rt) {
        Err(Refusal::OutOfMemory) => Ok((node.cut(rt)?, true)),
        Err(refusal) => Err(refusal),
        Ok(segment) => Ok((segment, false)),
    }
}

// Whether a call and a cut were refused at first.
#[derive(Clone, Copy)]
struct Refused {
    call: bool,
    cut: bool,
}

fn ended<L: Left>(alloc: Global, left: L, segment: L::Segment) -> Result<(), Refusal> {
    if segment.first() != 1 || segment.count() != 1 || left.count() != 1 || !left.is_complete() {
        return Err(Refusal::BadTrace);
    }
    left.audit(alone(alloc, segment)?)
}

// A call, a cut, and another call. What was cut, and what was refused at first.
fn called_and_cut<A: Site, R: Wait>(
    rt: &R,
    alloc: Global,
    node: &A,
    seat: &mut A::Seat,
) -> Result<(A::Segment, Refused), Refusal> {
    let event = A::Event::put(alloc, "a")?;
    let (first, call) = called_again(rt, node, seat, event)?;
    let (segment, cut) = cut_again(rt, node)?;
    let second = put(rt, alloc, node, seat, "b")?;
    if first != 1 || second != 2 {
        return Err(Refusal::BadStamp);
    }
    Ok((segment, Refused { call, cut }))
}

fn short<A: Site, R: Wait>(
    rt: &R,
    alloc: Global,
    node: Result<A, Refusal>,
) -> Result<Refused, Refusal> {
    let node = node?;
    let mut seat = node.seat(rt)?;
    let (segment, refused) = called_and_cut(rt, alloc, &node, &mut seat)?;
    let seats = alone(alloc, seat)?;
    ended(alloc, node.close(seats), segment)?;
    Ok(refused)
}

fn refused_of<N: NodeName, R: Wait>(
    rt: &R,
    alloc: Global,
    opened: Opened<JournalLine>,
) -> Result<Refused, Refusal>
    requires name { opened ≡ N.id }
    requires number { N.replica ≡ 1 }
{
    short(rt, alloc, SharedNode::<N>::new(alloc, opened, 1))
}

#[test]
fn a_node_without_memory(rt: HostRuntime) -> Result<(), Fail> {
    let opened = Opened::<JournalLine>::new(rt.alloc())?;
    let refused = refused_of::<Brand, _>(&rt, rt.alloc(), opened)?;
    if refused.call {
        println!(rt; "refused, and went on: call")?;
    }
    if refused.cut {
        println!(rt; "refused, and went on: cut")?;
    }
    Ok(())
}
