// Polls where the journal is full.
ghost use Rattle.std.specs.Prelude.{◌≡◌};

use crate::calls::{by_node, standing};
use crate::server::same;
use std::alloc::Global;
use std::marker::Brand;
use std::sync::Wait;
use std::test::Fail;
use xds_core::Event;
use xds_node::{JournalLine, MOST_RECORDS, NodeName, Opened, Seat, SharedNode};
use xds_resource::Refusal;
use xds_rest::answer_at;

// Whether a call left no record.
fn is_lost<T: Drop, E: Drop>(answer: Result<T, E>) -> bool {
    answer.is_err()
}

// Makes as many records as a journal holds.
fn fill<N: NodeName, R: Wait>(
    rt: &R,
    node: &SharedNode<N>,
    seat: &mut Seat<N>,
) -> Result<(), Refusal> {
    for _ in 0..MOST_RECORDS {
        if is_lost(node.call(rt, seat, Event::Close(9))) {
            return Err(Refusal::BadTrace);
        }
    }
    Ok(())
}

// Why a poll at a journal that is filled has no reply by a seat, if it has none.
fn refused_by<N: NodeName, R: Wait>(
    rt: &R,
    alloc: Global,
    node: &SharedNode<N>,
    seat: &mut Seat<N>,
) -> Result<Option<Refusal>, Refusal> {
    fill(rt, node, seat)?;
    let path = "/v3/discovery:secrets";
    Ok(answer_at(rt, alloc, node, seat, "POST", path, b"{}").err())
}

fn refused<N: NodeName, R: Wait>(
    rt: &R,
    alloc: Global,
    node: &SharedNode<N>,
) -> Result<Option<Refusal>, Refusal> {
    let mut seat = node.seat(rt)?;
    let refused = refused_by(rt, alloc, node, &mut seat);
    drop(seat);
    refused
}

// How many records stand once the node was asked at a full journal, after a call alone found no
// room there.
fn cut_for_a_request<N: NodeName, R: Wait>(
    rt: &R,
    alloc: Global,
    node: &SharedNode<N>,
) -> Result<usize, Fail> {
    if refused(rt, alloc, node)? != Some(Refusal::JournalFull) {
        return Err(Fail::from("a call found room"));
    }
    let found = by_node(rt, alloc, node, "POST /v3/discovery:secrets {}")?;
    let wanted =
        "200 {\"typeUrl\":\"type.googleapis.com/envoy.extensions.transport_sockets.tls.v3.Secret\",\
         \"versionInfo\":\"1.0.named\"}";
    same(found.as_str(), wanted, "a full journal")?;
    Ok(standing(rt, node)?)
}

fn full<N: NodeName, R: Wait>(
    rt: &R,
    alloc: Global,
    opened: Opened<JournalLine>,
) -> Result<usize, Fail>
    requires name { opened ≡ N.id }
    requires own { 1 ≡ N.replica }
{
    let node = SharedNode::<N>::new(alloc, opened, 1)?;
    let records = cut_for_a_request(rt, alloc, &node);
    drop(node);
    records
}

// rule: cuts
#[test]
fn a_full_journal_is_cut_for_a_request(rt: HostRuntime) -> Result<(), Fail> {
    let opened = Opened::<JournalLine>::new(rt.alloc())?;
    let records = full::<Brand, _>(&rt, rt.alloc(), opened)?;
    assert!(rt; records == 1, "the poll is the first record after the cut");
    Ok(())
}
