// A node that takes no record of a merge once: what it was told is lost, and told again.
ghost use Rattle.std.specs.Prelude.{◌≡◌};
ghost use Rattle.std.specs.Thread.{IsSend};

use crate::calls::{held, put};
use crate::exchanges::{
    Done, Exchanged, NOTHING, Ready, crossed, exchange, outcome_of, ready, told_all, two,
};
use crate::frail::{Batches, Frail, Watched};
use crate::gates::Open;
use crate::sites::Site;
use std::alloc::Global;
use std::marker::Brand;
use std::sync::Wait;
use std::test::Fail;
use std::thread::{Threads, join};
use xds_exchange::{Incoming, Outgoing, link};
use xds_flows::{Parcel, Receipt, exchange_in};
use xds_frames::{FrameKind, write_frame};
use xds_node::{Host, JournalLine, NodeName, Opened};
use xds_resource::Refusal;

// Puts two batches of one parcel each, and then no more.
fn puts_both<R: Wait>(rt: &R, out: &mut Outgoing<Parcel>, first: Vec<u8>, second: Vec<u8>) {
    let _ = out.put(
        rt,
        Parcel {
            frame: first,
            last: true,
        },
    );
    let _ = out.put(
        rt,
        Parcel {
            frame: second,
            last: true,
        },
    );
    out.end(rt);
}

// Merges what is in a channel whose other end told that no more comes. Answers how many parcels
// were dropped.
fn merges_all<A: Host, R: Wait>(
    rt: &R,
    alloc: Global,
    node: &A,
    seat: &mut A::Seat,
    from: &mut Incoming<Parcel>,
    back: &mut Outgoing<Receipt>,
) -> u64 {
    let dropped = exchange_in(rt, alloc, node, seat, from, back, &Open);
    back.end(rt);
    dropped
}

// What came of a batch that was put twice, where the first merge left no record, and whether it is
// held then.
#[derive(Drop)]
struct Twice {
    dropped: u64,
    first: Option<Receipt>,
    second: Option<Receipt>,
    third: Option<Receipt>,
    held: bool,
}

fn receipts<R: Wait>(rt: &R, from: &mut Incoming<Receipt>, dropped: u64) -> Twice {
    Twice {
        dropped,
        first: from.take(rt),
        second: from.take(rt),
        third: from.take(rt),
        held: false,
    }
}

// Puts a text twice as a batch, and has it merged.
fn merged_twice<A: Host, R: Wait>(
    rt: &R,
    alloc: Global,
    node: &A,
    seat: &mut A::Seat,
    text: &str,
) -> Result<Twice, Refusal> {
    let first = write_frame(alloc, FrameKind::Batch, text.as_bytes())?;
    let second = write_frame(alloc, FrameKind::Batch, text.as_bytes())?;
    let ((mut out, mut receipted), (mut from, mut back)) = crossed(link(alloc), link(alloc))?;
    puts_both(rt, &mut out, first, second);
    let dropped = merges_all(rt, alloc, node, seat, &mut from, &mut back);
    Ok(receipts(rt, &mut receipted, dropped))
}

// The same, and looks whether the node holds it then.
fn holds_twice<A: Host, R: Wait>(
    rt: &R,
    alloc: Global,
    node: &A,
    seat: &mut A::Seat,
    text: &str,
) -> Result<Twice, Refusal> {
    let mut twice = merged_twice(rt, alloc, node, seat, text)?;
    let held = held(rt, alloc, node, seat)?;
    twice.held = held.as_str() == text;
    Ok(twice)
}

// Puts a cluster, and tells what the node holds.
fn holds_a<A: Site, R: Wait>(rt: &R, alloc: Global, node: &A) -> Result<String, Refusal> {
    let mut seat = node.seat(rt)?;
    put(rt, alloc, node, &mut seat, "a")?;
    held(rt, alloc, node, &mut seat)
}

// What a node holds is put to another, which takes no record of that at first.
fn put_twice<A: Site, B: Site, R: Wait>(
    rt: &R,
    alloc: Global,
    nodes: Result<(A, B), Refusal>,
) -> Result<Twice, Refusal> {
    let (from, to) = nodes?;
    let text = holds_a(rt, alloc, &from)?;
    let mut seat = to.seat(rt)?;
    let filler = to.seat(rt)?;
    holds_twice(rt, alloc, &Frail::new(to, filler), &mut seat, text.as_str())
}

fn lost_once<M: NodeName, N: NodeName, R: Wait>(
    rt: &R,
    alloc: Global,
    first: Opened<JournalLine>,
    second: Opened<JournalLine>,
) -> Result<Twice, Refusal>
    requires first { (first ≡ M.id) × (1 ≡ M.replica) }
    requires second { (second ≡ N.id) × (2 ≡ N.replica) }
{
    put_twice(rt, alloc, two::<M, N>(alloc, first, second))
}

// rule: marks
#[test]
fn a_merge_without_a_record_is_receipted_as_lost(rt: HostRuntime) -> Result<(), Fail> {
    let first = Opened::<JournalLine>::new(rt.alloc())?;
    let second = Opened::<JournalLine>::new(rt.alloc())?;
    let outcome = lost_once::<Brand, Brand, _>(&rt, rt.alloc(), first, second)?;
    assert!(rt; outcome.dropped == 1, "the first parcel was dropped");
    assert!(rt;
        outcome.first == Some(Receipt::Lost),
        "and its batch told as lost"
    );
    assert!(rt;
        outcome.second == Some(Receipt::Merged),
        "the same batch is merged then"
    );
    assert!(rt; outcome.third == None, "there are no more receipts");
    assert!(rt; outcome.held, "and is held");
    Ok(())
}

// Stops a node once what another took no record of was told again and merged.
fn stops_once_told<A: Site, B: Site, R: Wait>(rt: &R, node: &A, other: &Frail<B>) {
    other.wait_failed(rt);
    let _ = other.wait_changed(rt, NOTHING);
    node.stop(rt);
}

fn exchange_frail<A: Site + Sync, B: Site + Sync, R: Threads + Wait + Sync>(
    rt: &R,
    alloc: Global,
    from: &Watched<A>,
    to: &Frail<B>,
    ready: Ready<A::Seat, B::Seat>,
) -> Done
where
    A::Seat: Send,
    A::Segment: Send,
    B::Seat: Send,
    B::Segment: Send,
{
    exchange(rt, alloc, from, to, ready)
}

fn exchange_again<A: Site + Sync, B: Site + Sync, R: Threads + Wait + Sync>(
    rt: &R,
    alloc: Global,
    from: &Watched<A>,
    to: &Frail<B>,
) -> Result<(Exchanged, Batches), Refusal>
where
    A::Seat: Send,
    A::Segment: Send,
    B::Seat: Send,
    B::Segment: Send,
{
    let mut puts = from.node.seat(rt)?;
    put(rt, alloc, &from.node, &mut puts, "a")?;
    drop(puts);
    let ready = ready(rt, alloc, &from.node, &to.node)?;
    let (done, _) = join(
        rt,
        move || -> Done
            requires { IsSend A.Seat.row × IsSend A.Segment.row × IsSend B.Seat.row × IsSend B.Segment.row }
        { exchange_frail(rt, alloc, from, to, ready) },
        move || stops_once_told(rt, &from.node, to),
    );
    let outcome = outcome_of(rt, alloc, &from.node, &to.node, done)?;
    Ok((outcome, from.told(rt)))
}

fn again<A: Site + Sync, B: Site + Sync, R: Threads + Wait + Sync>(
    rt: &R,
    alloc: Global,
    nodes: Result<(A, B), Refusal>,
) -> Result<(Exchanged, Batches), Refusal>
where
    A::Seat: Send,
    A::Segment: Send,
    B::Seat: Send,
    B::Segment: Send,
{
    let (from, to) = nodes?;
    let filler = to.seat(rt)?;
    exchange_again(rt, alloc, &Watched::new(from), &Frail::new(to, filler))
}

fn lost_and_told<M: NodeName + Send + Sync, N: NodeName + Send + Sync, R: Threads + Wait + Sync>(
    rt: &R,
    alloc: Global,
    first: Opened<JournalLine>,
    second: Opened<JournalLine>,
) -> Result<(Exchanged, Batches), Refusal>
    requires first { (first ≡ M.id) × (1 ≡ M.replica) }
    requires second { (second ≡ N.id) × (2 ≡ N.replica) }
{
    again(rt, alloc, two::<M, N>(alloc, first, second))
}

// rule: marks
#[test]
fn what_is_lost_is_told_again_at_once(rt: HostRuntime) -> Result<(), Fail> {
    let first = Opened::<JournalLine>::new(rt.alloc())?;
    let second = Opened::<JournalLine>::new(rt.alloc())?;
    let (outcome, batches) = lost_and_told::<Brand, Brand, _>(&rt, rt.alloc(), first, second)?;
    let told = told_all(&outcome, 1);
    drop(outcome);
    told?;
    assert!(rt; batches.first == 1, "the first batch had one cluster");
    assert!(rt; batches.second == 1, "the next one has it again");
    Ok(())
}
