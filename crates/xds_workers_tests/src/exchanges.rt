// What one node holds, told to another.
ghost use Rattle.std.specs.Prelude.{◌≡◌};
ghost use Rattle.std.specs.Thread.{IsSend};

use crate::calls::{held, holds, put, put_in_room};
use crate::gates::Open;
use crate::short::Short;
use crate::sites::{Site, both};
use std::alloc::{AllocError, Global};
use std::marker::Brand;
use std::sync::Wait;
use std::test::Fail;
use std::thread::{Threads, join};
use xds_core::Marks;
use xds_exchange::{Incoming, Outgoing, link};
use xds_flows::{Ended, Parcel, Receipt, exchange_both, exchange_in, exchange_out};
use xds_node::{Host, JournalLine, NodeName, Opened, SharedNode};
use xds_resource::Refusal;

/// The marks of a node that holds nothing.
pub(crate) const NOTHING: Marks = Marks {
    cluster: 0,
    endpoint: 0,
    listener: 0,
    route: 0,
    secret: 0,
};

/// The ends of the channels between two nodes, at the one that tells and at the one that is told.
pub(crate) type Telling = (Outgoing<Parcel>, Incoming<Receipt>);

pub(crate) type Merging = (Incoming<Parcel>, Outgoing<Receipt>);

/// What the two threads of an exchange take: a seat each, and the ends of their channels.
pub(crate) type Ready<S, T> = ((S, T), (Telling, Merging));

/// What the two threads of an exchange answer: how it ended, and how many parcels were dropped.
pub(crate) type Done = (Result<Ended, Refusal>, u64);

fn tells<A: Host, R: Wait>(
    rt: &R,
    alloc: Global,
    node: &A,
    seat: A::Seat,
    ends: Telling,
) -> Result<Ended, Refusal> {
    let mut seat = seat;
    let (mut out, mut receipts) = ends;
    let ended = exchange_out(rt, alloc, node, &mut seat, &mut out, &mut receipts, &Open);
    out.end(rt);
    drop(receipts.leave());
    ended
}

fn merges<A: Host, R: Wait>(rt: &R, alloc: Global, node: &A, seat: A::Seat, ends: Merging) -> u64 {
    let mut seat = seat;
    let (mut from, mut receipts) = ends;
    let dropped = exchange_in(rt, alloc, node, &mut seat, &mut from, &mut receipts, &Open);
    receipts.end(rt);
    drop(from.leave());
    dropped
}

/// One end of each of two channels, and the two others.
pub(crate) fn crossed<O: Drop, I: Drop, P: Drop, J: Drop>(
    one: Result<(O, I), AllocError>,
    other: Result<(P, J), AllocError>,
) -> Result<((O, J), (I, P)), Refusal> {
    let (out, into) = one?;
    let (back, receipts) = other?;
    Ok(((out, receipts), (into, back)))
}

// Two channels.
fn linked<X: Drop, Y: Drop>(
    one: Result<X, AllocError>,
    other: Result<Y, AllocError>,
) -> Result<(X, Y), Refusal> {
    Ok((one?, other?))
}

/// Makes ready what the threads of an exchange take.
pub(crate) fn ready<A: Site, B: Site, R: Wait>(
    rt: &R,
    alloc: Global,
    from: &A,
    to: &B,
) -> Result<Ready<A::Seat, B::Seat>, Refusal> {
    both(
        both(from.seat(rt), to.seat(rt)),
        crossed(link(alloc), link(alloc)),
    )
}

/// One node tells another what it holds and what comes to it, in two threads, until it is stopped.
pub(crate) fn exchange<A: Host + Sync, B: Host + Sync, R: Threads + Wait + Sync>(
    rt: &R,
    alloc: Global,
    from: &A,
    to: &B,
    ready: Ready<A::Seat, B::Seat>,
) -> Done
where
    A::Seat: Send,
    A::Segment: Send,
    B::Seat: Send,
    B::Segment: Send,
{
    let ((teller, merger), (telling, merging)) = ready;
    join(
        rt,
        move || tells(rt, alloc, from, teller, telling),
        move || merges(rt, alloc, to, merger, merging),
    )
}

/// What came of two nodes, one of which told the other what it holds.
#[derive(Drop)]
pub(crate) struct Exchanged {
    pub(crate) ended: Result<Ended, Refusal>,
    pub(crate) dropped: u64,
    pub(crate) held: String,
    pub(crate) told: String,
}

/// What came of an exchange that is done.
pub(crate) fn outcome_of<A: Site, B: Site, R: Wait>(
    rt: &R,
    alloc: Global,
    from: &A,
    to: &B,
    done: Done,
) -> Result<Exchanged, Refusal> {
    let (ended, dropped) = done;
    let (mut looks, mut sees) = both(from.seat(rt), to.seat(rt))?;
    let (held, told) = both(
        held(rt, alloc, from, &mut looks),
        held(rt, alloc, to, &mut sees),
    )?;
    Ok(Exchanged {
        ended,
        dropped,
        held,
        told,
    })
}

/// Two nodes with these names.
pub(crate) fn two<M: NodeName, N: NodeName>(
    alloc: Global,
    first: Opened<JournalLine>,
    second: Opened<JournalLine>,
) -> Result<(SharedNode<M>, SharedNode<N>), Refusal>
    requires first { (first ≡ M.id) × (1 ≡ M.replica) }
    requires second { (second ≡ N.id) × (2 ≡ N.replica) }
{
    both(
        SharedNode::<M>::new(alloc, first, 1),
        SharedNode::<N>::new(alloc, second, 2),
    )
}

// A node that holds two clusters and is stopped.
fn holds_two<A: Site, R: Wait>(rt: &R, alloc: Global, node: &A) -> Result<(), Refusal> {
    let mut puts = node.seat(rt)?;
    put(rt, alloc, node, &mut puts, "a")?;
    put(rt, alloc, node, &mut puts, "b")?;
    node.stop(rt);
    Ok(())
}

// What the first node holds is told to the second, by one call for both workers.
fn tells_stopped<M: NodeName + Send + Sync, N: NodeName + Send + Sync, R: Threads + Wait + Sync>(
    rt: &R,
    alloc: Global,
    from: &SharedNode<M>,
    to: &SharedNode<N>,
) -> Result<Done, Refusal> {
    holds_two(rt, alloc, from)?;
    let parcels = link(alloc)?;
    let receipts = link(alloc)?;
    let (teller, merger) = both(SharedNode::seat(from, rt), SharedNode::seat(to, rt))?;
    let done = exchange_both(
        rt,
        alloc,
        (from, teller, &Open),
        (to, merger, &Open),
        parcels,
        receipts,
    );
    Ok((done.ended, done.dropped))
}

fn exchange_stopped<M: NodeName + Send + Sync, N: NodeName + Send + Sync, R: Threads + Wait + Sync>(
    rt: &R,
    alloc: Global,
    first: Opened<JournalLine>,
    second: Opened<JournalLine>,
) -> Result<Exchanged, Refusal>
    requires first { (first ≡ M.id) × (1 ≡ M.replica) }
    requires second { (second ≡ N.id) × (2 ≡ N.replica) }
{
    let (from, to) = two::<M, N>(alloc, first, second)?;
    let done = tells_stopped(rt, alloc, &from, &to);
    ended_at(rt, alloc, from, to, done)
}

// What came of two nodes whose exchange is done.
fn ended_at<A: Site, B: Site, R: Wait>(
    rt: &R,
    alloc: Global,
    from: A,
    to: B,
    done: Result<Done, Refusal>,
) -> Result<Exchanged, Refusal> {
    outcome_of(rt, alloc, &from, &to, done?)
}

// That all was told, so many parcels were dropped, and both hold the same.
pub(crate) fn told_all(outcome: &Exchanged, dropped: u64) -> Result<(), Fail> {
    holds(outcome.ended == Ok(Ended::Stopped), "all was told")?;
    holds(outcome.dropped == dropped, "so many were dropped")?;
    holds(outcome.held == outcome.told, "both hold the same")
}

fn told_b(outcome: &Exchanged) -> Result<(), Fail> {
    told_all(outcome, 0)?;
    holds(
        outcome.held.as_str().contains("\"b\""),
        "the clusters are held",
    )
}

// rule: marks
#[test]
fn what_a_stopped_node_holds_comes_to_another(rt: HostRuntime) -> Result<(), Fail> {
    let first = Opened::<JournalLine>::new(rt.alloc())?;
    let second = Opened::<JournalLine>::new(rt.alloc())?;
    let outcome = exchange_stopped::<Brand, Brand, _>(&rt, rt.alloc(), first, second)?;
    told_b(&outcome)
}

// Puts so many clusters, each once the one before came to another node. Where the journal is full
// it is cut.
fn puts_each<A: Host, B: Host, R: Wait>(
    rt: &R,
    alloc: Global,
    node: &A,
    seat: &mut A::Seat,
    other: &B,
    count: u64,
) -> Result<(), Refusal> {
    let mut seen = NOTHING;
    for number in 0..count {
        let name = format!(in alloc; "{number}")?;
        put_in_room(rt, alloc, node, seat, name.as_str())?;
        match other.wait_changed(rt, seen) {
            Some(marks) => seen = marks,
            None => return Err(Refusal::NoStream),
        }
    }
    Ok(())
}

// The same, and then the node is stopped.
fn puts_and_stops<A: Site, B: Host, R: Wait>(
    rt: &R,
    alloc: Global,
    node: &A,
    seat: A::Seat,
    other: &B,
    count: u64,
) -> Result<(), Refusal> {
    let mut seat = seat;
    let done = puts_each(rt, alloc, node, &mut seat, other, count);
    node.stop(rt);
    done
}

fn exchange_short<A: Site + Sync, B: Site + Sync, R: Threads + Wait + Sync>(
    rt: &R,
    alloc: Global,
    from: &Short<A>,
    to: &Short<B>,
    ready: Ready<A::Seat, B::Seat>,
) -> Done
where
    A::Seat: Send,
    A::Segment: Send,
    B::Seat: Send,
    B::Segment: Send,
{
    exchange(rt, alloc, from, to, ready)
}

// Two nodes with short journals, where so many clusters come one by one. Answers also how often the
// second was cut.
fn shortly<A: Site + Sync, B: Site + Sync, R: Threads + Wait + Sync>(
    rt: &R,
    alloc: Global,
    from: &Short<A>,
    to: &Short<B>,
    count: u64,
) -> Result<(Exchanged, u64), Refusal>
where
    A::Seat: Send,
    A::Segment: Send,
    B::Seat: Send,
    B::Segment: Send,
{
    let (puts, ready) = both(from.seat(rt), ready(rt, alloc, &from.node, &to.node))?;
    let (done, all_put) = join(
        rt,
        move || -> Done
            requires { IsSend A.Seat.row × IsSend A.Segment.row × IsSend B.Seat.row × IsSend B.Segment.row }
        { exchange_short(rt, alloc, from, to, ready) },
        move || puts_and_stops(rt, alloc, from, puts, &to.node, count),
    );
    all_put?;
    let outcome = outcome_of(rt, alloc, &from.node, &to.node, done)?;
    Ok((outcome, to.cuts(rt)))
}

// As many records as a short journal takes.
const ROOM: usize = 30;

fn short<A: Site + Sync, B: Site + Sync, R: Threads + Wait + Sync>(
    rt: &R,
    alloc: Global,
    nodes: Result<(A, B), Refusal>,
    count: u64,
) -> Result<(Exchanged, u64), Refusal>
where
    A::Seat: Send,
    A::Segment: Send,
    B::Seat: Send,
    B::Segment: Send,
{
    let (from, to) = nodes?;
    let (one, other) = both(from.seat(rt), to.seat(rt))?;
    let (from, to) = both(
        Short::new(rt, from, one, ROOM),
        Short::new(rt, to, other, ROOM),
    )?;
    shortly(rt, alloc, &from, &to, count)
}

fn exchange_shortly<M: NodeName + Send + Sync, N: NodeName + Send + Sync, R: Threads + Wait + Sync>(
    rt: &R,
    alloc: Global,
    first: Opened<JournalLine>,
    second: Opened<JournalLine>,
    count: u64,
) -> Result<(Exchanged, u64), Refusal>
    requires first { (first ≡ M.id) × (1 ≡ M.replica) }
    requires second { (second ≡ N.id) × (2 ≡ N.replica) }
{
    short(rt, alloc, two::<M, N>(alloc, first, second), count)
}

// rule: cuts
#[test]
fn a_hundred_parcels_pass_where_the_journals_are_short(rt: HostRuntime) -> Result<(), Fail> {
    let first = Opened::<JournalLine>::new(rt.alloc())?;
    let second = Opened::<JournalLine>::new(rt.alloc())?;
    let (outcome, cuts) = exchange_shortly::<Brand, Brand, _>(&rt, rt.alloc(), first, second, 100)?;
    told_all(&outcome, 0)?;
    assert!(rt; cuts == 3, "there were 100 merges, and room for 30");
    Ok(())
}
