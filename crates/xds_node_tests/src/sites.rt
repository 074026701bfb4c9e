// Nodes, as these tests know them: by traits alone, so that to drop one, or a value with many
// parts, is a single step of a proof.
use crate::calls::{Told, counter};
use std::alloc::Global;
use std::sync::Wait;
use xds_core::{Core, Event, Marks, Reply, Request};
use xds_message::DeltaDiscoveryRequest;
use xds_node::{History, JournalLine, NodeName, Seat, Segment, SharedNode, Unrecorded, WaitEnd};
use xds_resource::{AnyResource, Groups, Refusal, TypeName};

/// Events of the tests.
pub(crate) trait Happens: Drop + Sized {
    /// A cluster of this name is put.
    fn put(alloc: Global, name: &str) -> Result<Self, Refusal>;

    /// A client asks on this stream.
    fn ask(alloc: Global, stream: u64, request: &[u8]) -> Result<Self, Refusal>;

    fn open() -> Self;

    fn close(stream: u64) -> Self;

    fn poll(stream: u64) -> Self;

    fn snapshot() -> Self;
}

impl Happens for Event {
    fn put(alloc: Global, name: &str) -> Result<Event, Refusal> {
        let url = TypeName::Cluster.url();
        let text = format!(in alloc; r#"{{"@type":"{url}","name":"{name}"}}"#)?;
        let resource = AnyResource::parse(alloc, text.as_str())?;
        Ok(Event::Put(resource, Groups::none()))
    }

    fn ask(alloc: Global, stream: u64, request: &[u8]) -> Result<Event, Refusal> {
        let request = DeltaDiscoveryRequest::read(alloc, request)?;
        Ok(Event::Request(stream, Request::Delta(request)))
    }

    fn open() -> Event {
        Event::Open
    }

    fn close(stream: u64) -> Event {
        Event::Close(stream)
    }

    fn poll(stream: u64) -> Event {
        Event::Poll(stream, None)
    }

    fn snapshot() -> Event {
        Event::Snapshot
    }
}

/// Records in a row.
pub(crate) trait Records: Drop {
    /// The number of the first.
    fn first(&self) -> u64;

    fn count(&self) -> usize;

    /// The clusters of the replica before the first, as a text.
    fn held(&self, alloc: Global) -> Result<String, Refusal>;

    /// Those of the replica after the last, at which all of them happened again.
    fn held_after(&self, alloc: Global) -> Result<String, Refusal>;
}

impl<N: NodeName> Records for Segment<N> {
    fn first(&self) -> u64 {
        Segment::first(self)
    }

    fn count(&self) -> usize {
        self.records().len()
    }

    fn held(&self, alloc: Global) -> Result<String, Refusal> {
        clusters_of(alloc, self.base())
    }

    fn held_after(&self, alloc: Global) -> Result<String, Refusal> {
        replayed(alloc, self.base().try_copy(alloc)?, self.records())
    }
}

// The clusters of a replica, as a text.
fn clusters_of(alloc: Global, core: &Core) -> Result<String, Refusal> {
    core.entries(alloc, TypeName::Cluster)?.write(alloc)
}

// The same of a replica at which these events happened, each with the answer that the record has.
fn replayed(alloc: Global, core: Core, records: &[JournalLine]) -> Result<String, Refusal> {
    let mut core = core;
    let mut done = Ok(());
    for line in records {
        if done.is_ok() {
            done = again(alloc, &mut core, line);
        }
    }
    let held = clusters_of(alloc, &core);
    drop(core);
    done?;
    held
}

fn again(alloc: Global, core: &mut Core, line: &JournalLine) -> Result<(), Refusal> {
    let answer = core.step(line.event().try_copy(alloc)?);
    let is_same = answer.is_ok() == line.answer().is_ok();
    drop(answer);
    if is_same {
        Ok(())
    } else {
        Err(Refusal::BadTrace)
    }
}

/// What is left of a node.
pub(crate) trait Left: Drop {
    type Segment: Records;

    /// The records that weren't cut, and how many were.
    fn count(&self) -> usize;

    fn cut(&self) -> u64;

    /// The clusters of the replica when the journal was cut last, as a text.
    fn held(&self, alloc: Global) -> Result<String, Refusal>;

    /// How many clusters there were when the journal was cut last.
    fn clusters(&self, alloc: Global) -> Result<usize, Refusal>;

    fn is_complete(&self) -> bool;

    fn audit(self, segments: Vec<Self::Segment>) -> Result<(), Refusal>;
}

impl<N: NodeName> Left for History<N> {
    type Segment = Segment<N>;

    fn count(&self) -> usize {
        self.records().len()
    }

    fn cut(&self) -> u64 {
        History::cut(self)
    }

    fn held(&self, alloc: Global) -> Result<String, Refusal> {
        clusters_of(alloc, self.base())
    }

    fn clusters(&self, alloc: Global) -> Result<usize, Refusal> {
        let batch = self.base().entries(alloc, TypeName::Cluster)?;
        Ok(batch.cluster.len())
    }

    fn is_complete(&self) -> bool {
        History::is_complete(self)
    }

    fn audit(self, segments: Vec<Segment<N>>) -> Result<(), Refusal> {
        History::audit(self, segments)
    }
}

/// A node.
pub(crate) trait Site: Drop {
    type Seat: Drop;

    type Event: Happens;

    type Answer: Told<Event = Self::Event>;

    type Segment: Records;

    type Left: Left<Segment = Self::Segment>;

    fn seat<R: Wait>(&self, rt: &R) -> Result<Self::Seat, Refusal>;

    fn call<R: Wait>(&self, rt: &R, seat: &mut Self::Seat, event: Self::Event) -> Self::Answer;

    fn cut<R: Wait>(&self, rt: &R) -> Result<Self::Segment, Refusal>;

    fn cut_full<R: Wait>(&self, rt: &R) -> Result<Option<Self::Segment>, Refusal>;

    fn close(self, seats: Vec<Self::Seat>) -> Self::Left;

    fn wait_due<R: Wait>(&self, rt: &R, stream: u64) -> WaitEnd;

    fn wait_changed<R: Wait>(&self, rt: &R, seen: Marks) -> Option<Marks>;

    fn stop<R: Wait>(&self, rt: &R);
}

impl<N: NodeName> Site for SharedNode<N> {
    type Seat = Seat<N>;

    type Event = Event;

    type Answer = Result<Result<Reply, Refusal>, Unrecorded>;

    type Segment = Segment<N>;

    type Left = History<N>;

    fn seat<R: Wait>(&self, rt: &R) -> Result<Seat<N>, Refusal> {
        SharedNode::seat(self, rt)
    }

    fn call<R: Wait>(
        &self,
        rt: &R,
        seat: &mut Seat<N>,
        event: Event,
    ) -> Result<Result<Reply, Refusal>, Unrecorded> {
        SharedNode::call(self, rt, seat, event)
    }

    fn cut<R: Wait>(&self, rt: &R) -> Result<Segment<N>, Refusal> {
        SharedNode::cut(self, rt)
    }

    fn cut_full<R: Wait>(&self, rt: &R) -> Result<Option<Segment<N>>, Refusal> {
        SharedNode::cut_full(self, rt)
    }

    fn close(self, seats: Vec<Seat<N>>) -> History<N> {
        SharedNode::close(self, seats)
    }

    fn wait_due<R: Wait>(&self, rt: &R, stream: u64) -> WaitEnd {
        SharedNode::wait_due(self, rt, stream)
    }

    fn wait_changed<R: Wait>(&self, rt: &R, seen: Marks) -> Option<Marks> {
        SharedNode::wait_changed(self, rt, seen)
    }

    fn stop<R: Wait>(&self, rt: &R) {
        SharedNode::stop(self, rt)
    }
}

/// The one thing in a vector.
pub(crate) fn alone<T: Drop>(alloc: Global, it: T) -> Result<Vec<T>, Refusal> {
    let mut all = Vec::new(alloc);
    all.push(it)?;
    Ok(all)
}

/// Puts a cluster of this name, and answers the counter of the write.
pub(crate) fn put<A: Site, R: Wait>(
    rt: &R,
    alloc: Global,
    node: &A,
    seat: &mut A::Seat,
    name: &str,
) -> Result<u64, Refusal> {
    let event = A::Event::put(alloc, name)?;
    counter(node.call(rt, seat, event))
}
