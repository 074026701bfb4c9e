// What happens at a node, told by lines, and what the node leaves.
use crate::calls::Told;
use crate::sites::{Site, alone};
use std::alloc::Global;
use std::sync::Wait;
use xds_core::{Event, Request};
use xds_message::{Batch, DeltaDiscoveryRequest, DiscoveryRequest};
use xds_resource::{AnyResource, Groups, Refusal, TypeName};

// A client takes one cluster on a stream, and then another; some lines are refused, or say nothing
// in a trace. The second segment that is cut has no record.
const DELTA: &str = r#"put {"@type":"CDS","name":"a"}
open
delta {"resourceNamesSubscribe":["*"],"typeUrl":"CDS"}
cut
cut
poll
poll
delta {"responseNonce":"1","typeUrl":"CDS"}
owes
cut
delete a
delete b
poll
delta {"responseNonce":"2","typeUrl":"CDS"}
close"#;

/// The trace of it.
pub(crate) const DELTA_TRACE: &str =
    r#"write {"body":{"@type":"CDS","name":"a"},"counter":1,"name":"a","typeUrl":"CDS","writer":1}
open 1
request 1 3 {"resourceNamesSubscribe":["*"],"typeUrl":"CDS"}
response 1 4 {"nonce":"1",
    "resources":[{"name":"a","resource":{"@type":"CDS","name":"a"},"version":"1-1"}],
    "systemVersionInfo":"1.1","typeUrl":"CDS"}
request 1 3 {"responseNonce":"1","typeUrl":"CDS"}
idle 1 cluster
write {"counter":2,"name":"a","typeUrl":"CDS","writer":1}
response 1 4 {"nonce":"2","removedResources":["a"],"systemVersionInfo":"1.2","typeUrl":"CDS"}
request 1 3 {"responseNonce":"2","typeUrl":"CDS"}
close 1
"#;

// A client takes the clusters in whole: none at first, which it refuses, and then one that another
// replica wrote. The last line cuts all that is left.
const SOTW: &str = r#"open
sotw {"typeUrl":"CDS"}
poll
cut
sotw {"errorDetail":{"code":3},"responseNonce":"1","typeUrl":"CDS"}
poll
merge {"writes":[{"body":{"@type":"CDS","name":"b"},"counter":4,"name":"b","typeUrl":"CDS",
    "writer":2},{"counter":1,"name":"a","typeUrl":"CDS","writer":2}]}
snapshot
poll
cut"#;

/// The trace of it.
pub(crate) const SOTW_TRACE: &str = r#"open 1
request 1 1 {"typeUrl":"CDS"}
response 1 2 {"nonce":"1","typeUrl":"CDS","versionInfo":"1.0"}
request 1 1 {"errorDetail":{"code":3},"responseNonce":"1","typeUrl":"CDS"}
write {"body":{"@type":"CDS","name":"b"},"counter":4,"name":"b","typeUrl":"CDS","writer":2}
write {"counter":1,"name":"a","typeUrl":"CDS","writer":2}
response 1 2 {"nonce":"2","resources":[{"@type":"CDS","name":"b"}],"typeUrl":"CDS",
    "versionInfo":"1.2"}
"#;

/// A text in full: `CDS` stands for the URL of clusters, and a line that begins with four spaces
/// goes on with the line before it.
pub(crate) fn written_out(alloc: Global, text: &str) -> Result<String, Refusal> {
    let text = text.replace(alloc, "\n    ", "")?;
    Ok(
        text.as_str()
            .replace(alloc, "CDS", TypeName::Cluster.url())?,
    )
}

/// What happens at a node.
#[derive(Clone, Copy)]
pub(crate) enum Story {
    Nothing,
    /// It is cut once.
    Cut,
    Delta,
    Sotw,
}

impl Story {
    /// Its lines.
    pub(crate) fn text(self) -> &'static str {
        match self {
            Story::Nothing => "",
            Story::Cut => "cut",
            Story::Delta => DELTA,
            Story::Sotw => SOTW,
        }
    }
}

fn put(alloc: Global, text: &str) -> Result<Event, Refusal> {
    let resource = AnyResource::parse(alloc, text)?;
    Ok(Event::Put(resource, Groups::none()))
}

fn delta(alloc: Global, text: &str) -> Result<Event, Refusal> {
    let request = DeltaDiscoveryRequest::read(alloc, text.as_bytes())?;
    Ok(Event::Request(1, Request::Delta(request)))
}

fn sotw(alloc: Global, text: &str) -> Result<Event, Refusal> {
    let request = DiscoveryRequest::read(alloc, text.as_bytes())?;
    Ok(Event::Request(1, Request::Sotw(request)))
}

fn merge(alloc: Global, text: &str) -> Result<Event, Refusal> {
    let batch = Batch::read(alloc, text.as_bytes())?;
    Ok(Event::Merge(batch))
}

fn delete(alloc: Global, name: &str) -> Result<Event, Refusal> {
    Ok(Event::Delete(TypeName::Cluster, String::from_str(alloc, name)?))
}

fn event_of(alloc: Global, line: &str) -> Result<Event, Refusal> {
    let (verb, rest) = line.split_once(' ').unwrap_or((line, ""));
    match verb {
        "put" => put(alloc, rest),
        "delta" => delta(alloc, rest),
        "sotw" => sotw(alloc, rest),
        "merge" => merge(alloc, rest),
        "delete" => delete(alloc, rest),
        "open" => Ok(Event::Open),
        "poll" => Ok(Event::Poll(1, None)),
        "owes" => Ok(Event::Owes(1, Some(TypeName::Cluster))),
        "close" => Ok(Event::Close(1)),
        "snapshot" => Ok(Event::Snapshot),
        _ => Err(Refusal::BadScript),
    }
}

// An event of a line is called, whatever it is answered.
fn call<A: Site, R: Wait>(
    rt: &R,
    node: &A,
    seat: &mut A::Seat,
    event: A::Event,
) -> Result<(), Refusal> {
    match node.call(rt, seat, event).back() {
        Some((_, refusal)) => Err(refusal),
        None => Ok(()),
    }
}

fn happen<A: Site<Event = Event>, R: Wait>(
    rt: &R,
    alloc: Global,
    node: &A,
    seat: &mut A::Seat,
    line: &str,
) -> Result<(), Refusal> {
    call(rt, node, seat, event_of(alloc, line)?)
}

// All of a story happens. What is cut of the node is put to the segments; the lines that cut it may
// be passed over.
fn tell<A: Site<Event = Event>, R: Wait>(
    rt: &R,
    alloc: Global,
    node: &A,
    seat: &mut A::Seat,
    story: &str,
    is_cut: bool,
    segments: &mut Vec<A::Segment>,
) -> Result<(), Refusal> {
    let story = written_out(alloc, story)?;
    for line in story.as_str().lines() {
        if line != "cut" {
            happen(rt, alloc, node, seat, line)?;
        } else if is_cut {
            segments.push(node.cut(rt)?)?;
        }
    }
    Ok(())
}

/// What a node leaves after it; what was cut is put to the segments.
pub(crate) fn left<A: Site<Event = Event>, R: Wait>(
    rt: &R,
    alloc: Global,
    node: Result<A, Refusal>,
    story: &str,
    is_cut: bool,
    segments: &mut Vec<A::Segment>,
) -> Result<A::Left, Refusal> {
    let node = node?;
    let mut seat = node.seat(rt)?;
    tell(rt, alloc, &node, &mut seat, story, is_cut, segments)?;
    let seats = alone(alloc, seat)?;
    Ok(node.close(seats))
}
