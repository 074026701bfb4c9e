// Events of the tests, and what they are answered.
use crate::gates::Open;
use std::alloc::Global;
use std::sync::Wait;
use std::test::Fail;
use xds_core::{Event, Reply};
use xds_node::{Host, Unrecorded, called};
use xds_resource::{AnyResource, Groups, Refusal};

/// What is looked for in what a call of a node answers. It is told by reference, and dropped by a
/// function that doesn't know the type.
pub(crate) trait Told: Drop {
    /// The refusal, if it is one.
    fn refused(&self) -> Result<(), Refusal>;

    /// The number of the stream that was opened.
    fn stream(&self) -> Option<u64>;

    /// How many clusters changed, if that was asked.
    fn changed(&self) -> Option<usize>;

    /// The text of a snapshot.
    fn entries(&self, alloc: Global) -> Result<String, Refusal>;
}

impl Told for Result<Result<Reply, Refusal>, Unrecorded> {
    fn refused(&self) -> Result<(), Refusal> {
        match self {
            Ok(Ok(_)) => Ok(()),
            Ok(Err(refusal)) => Err(*refusal),
            Err(unrecorded) => Err(unrecorded.refusal),
        }
    }

    fn stream(&self) -> Option<u64> {
        match self {
            Ok(Ok(Reply::Opened(number))) => Some(*number),
            _ => None,
        }
    }

    fn changed(&self) -> Option<usize> {
        match self {
            Ok(Ok(Reply::Changed(batch, _))) => Some(batch.cluster.len()),
            _ => None,
        }
    }

    fn entries(&self, alloc: Global) -> Result<String, Refusal> {
        match self {
            Ok(Ok(Reply::Entries(batch))) => batch.write(alloc).map_err(Refusal::from),
            _ => Err(Refusal::BadTrace),
        }
    }
}

/// The refusal, if it is one.
pub(crate) fn refused<T: Told>(answer: T) -> Result<(), Refusal> {
    answer.refused()
}

fn stream<T: Told>(answer: T) -> Result<u64, Refusal> {
    answer.stream().ok_or(Refusal::NoStream)
}

fn entries<T: Told>(alloc: Global, answer: T) -> Result<String, Refusal> {
    answer.entries(alloc)
}

// A cluster of this name is put.
fn putting(alloc: Global, name: &str) -> Result<Event, Refusal> {
    let text = format!(in alloc;
        "{{\"@type\":\"type.googleapis.com/envoy.config.cluster.v3.Cluster\",\"name\":\"{name}\"}}"
    )?;
    let resource = AnyResource::parse(alloc, text.as_str())?;
    Ok(Event::Put(resource, Groups::none()))
}

/// Puts a cluster of this name.
pub(crate) fn put<A: Host, R: Wait>(
    rt: &R,
    alloc: Global,
    node: &A,
    seat: &mut A::Seat,
    name: &str,
) -> Result<(), Refusal> {
    refused(node.call(rt, seat, putting(alloc, name)?))
}

/// The same, and where the journal is full it is cut.
pub(crate) fn put_in_room<A: Host, R: Wait>(
    rt: &R,
    alloc: Global,
    node: &A,
    seat: &mut A::Seat,
    name: &str,
) -> Result<(), Refusal> {
    flat(called(rt, node, &Open, seat, putting(alloc, name)?))
}

// The refusal, if it is one.
fn flat<T: Drop>(answer: Result<Result<T, Refusal>, Refusal>) -> Result<(), Refusal> {
    match answer {
        Ok(Ok(_)) => Ok(()),
        Ok(Err(refusal)) => Err(refusal),
        Err(refusal) => Err(refusal),
    }
}

/// Opens a stream.
pub(crate) fn open<A: Host, R: Wait>(rt: &R, node: &A, seat: &mut A::Seat) -> Result<u64, Refusal> {
    stream(node.call(rt, seat, Event::Open))
}

/// The text of all that a node holds.
pub(crate) fn held<A: Host, R: Wait>(
    rt: &R,
    alloc: Global,
    node: &A,
    seat: &mut A::Seat,
) -> Result<String, Refusal> {
    entries(alloc, node.call(rt, seat, Event::Snapshot))
}

/// Fails with this reason unless it is so.
pub(crate) fn holds(is_so: bool, why: &str) -> Result<(), Fail> {
    if is_so {
        return Ok(());
    }
    Err(Fail::new(format_args!("{why}")))
}
