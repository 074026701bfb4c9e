// Polls by the calls of a node, without a socket.
ghost use Rattle.std.specs.Prelude.{◌≡◌};

use crate::server::{node_with_a, parts, same};
use std::alloc::Global;
use std::marker::Brand;
use std::sync::Wait;
use std::test::Fail;
use xds_cases::cases::{unfolded, written_out};
use xds_node::{JournalLine, NodeName, Opened, Seat, SharedNode};
use xds_polls::HttpReply;
use xds_resource::Refusal;
use xds_rest::{answer_at, reply_at};

/// A reply as its status, and its body behind a space where it has one.
pub(crate) fn shown(alloc: Global, reply: HttpReply) -> Result<String, Refusal> {
    let HttpReply { status, body } = reply;
    let body = body.unwrap_or(String::new(alloc));
    let space = if body.is_empty() { "" } else { " " };
    Ok(format!(in alloc; "{status}{space}{body}")?)
}

/// The reply to a request by a seat of a node.
pub(crate) fn by_seat<N: NodeName, R: Wait>(
    rt: &R,
    alloc: Global,
    node: &SharedNode<N>,
    seat: &mut Seat<N>,
    request: &str,
) -> Result<String, Fail> {
    let (method, path, body) = parts(request)?;
    let reply = answer_at(rt, alloc, node, seat, method, path, body.as_bytes())?;
    Ok(shown(alloc, reply)?)
}

// The reply to a request by a seat of a node, where a full journal is cut.
fn by_cutting<N: NodeName, R: Wait>(
    rt: &R,
    alloc: Global,
    node: &SharedNode<N>,
    seat: &mut Seat<N>,
    request: &str,
) -> Result<String, Fail> {
    let (method, path, body) = parts(request)?;
    let reply = reply_at(rt, alloc, node, seat, method, path, body.as_bytes());
    Ok(shown(alloc, reply)?)
}

/// The reply to a request by a node, with a seat that lives no longer.
pub(crate) fn by_node<N: NodeName, R: Wait>(
    rt: &R,
    alloc: Global,
    node: &SharedNode<N>,
    request: &str,
) -> Result<String, Fail> {
    let mut seat = node.seat(rt)?;
    let reply = by_cutting(rt, alloc, node, &mut seat, request);
    drop(seat);
    reply
}

const CASES: &str = r#"POST /v3/discovery:clusters {}
     => 200 {"resources":[{"@type":"CDS","name":"a"}],"typeUrl":"CDS","versionInfo":"1.1"}
POST /v3/discovery:clusters {"versionInfo":"1.1"} => 304
GET /v3/discovery:clusters {} => 405
POST /v3/discovery:clusters => 400 {"code":1,"name":"NotJson"}"#;

// That this is told.
fn is_told(found: Result<String, Fail>, wanted: &str, given: &str) -> Result<(), Fail> {
    same(found?.as_str(), wanted, given)
}

// Compares the replies to a request, by a seat and by the node, with what is wanted.
fn answers<N: NodeName, R: Wait>(
    rt: &R,
    alloc: Global,
    node: &SharedNode<N>,
    seat: &mut Seat<N>,
    case: &str,
) -> Result<(), Fail> {
    let case = written_out(alloc, case)?;
    let (given, wanted) = case.as_str().split_once(" => ").ok_or("no outcome")?;
    is_told(by_seat(rt, alloc, node, seat, given), wanted, given)?;
    is_told(by_node(rt, alloc, node, given), wanted, given)
}

// Goes over the cases.
fn hold<N: NodeName, R: Wait>(
    rt: &R,
    alloc: Global,
    node: &SharedNode<N>,
    seat: &mut Seat<N>,
) -> Result<(), Fail> {
    let cases = unfolded(alloc, CASES)?;
    for case in cases.as_str().lines() {
        answers(rt, alloc, node, seat, case)?;
    }
    Ok(())
}

/// How many records stand at a node, which is cut.
pub(crate) fn standing<N: NodeName, R: Wait>(
    rt: &R,
    node: &SharedNode<N>,
) -> Result<usize, Refusal> {
    let segment = node.cut(rt)?;
    Ok(segment.records().len())
}

// The records after the cases: those that ask the node leave one each, by the seat and without one.
fn recorded_at<N: NodeName, R: Wait>(
    rt: &R,
    alloc: Global,
    node: &SharedNode<N>,
) -> Result<usize, Fail> {
    let mut seat = node.seat(rt)?;
    let held = hold(rt, alloc, node, &mut seat);
    drop(seat);
    held?;
    Ok(standing(rt, node)?)
}

fn recorded<N: NodeName, R: Wait>(
    rt: &R,
    alloc: Global,
    opened: Opened<JournalLine>,
) -> Result<usize, Fail>
    requires name { opened ≡ N.id }
    requires own { 1 ≡ N.replica }
{
    let node = node_with_a::<N, R>(rt, alloc, opened)?;
    let records = recorded_at(rt, alloc, &node);
    drop(node);
    records
}

#[test]
fn a_poll_is_one_record(rt: HostRuntime) -> Result<(), Fail> {
    let opened = Opened::<JournalLine>::new(rt.alloc())?;
    let records = recorded::<Brand, _>(&rt, rt.alloc(), opened)?;
    assert!(rt; records == 5, "a put, and two polls, each asked twice");
    Ok(())
}
