// The end of a stream: what is due on it when its client sends no more is set aside, and written behind all else.
use std::alloc::Global;
use std::sync::Wait;
use tokio::net::OwnedWriteHalf;
use xds_core::Event;
use xds_flows::{ByPolls, Writes};
use xds_frames::Counted;
use xds_message::{Draft, Unsent};
use xds_node::{Host, NoGate, called, draft_in};
use xds_resource::Refusal;

/// What was due at the end of a stream, in its order, how much of that is begun, and why a response that was due isn't among it.
pub(crate) struct LastResponses {
    drafts: Vec<Draft>,
    begun: usize,
    refusal: Option<Refusal>,
}

// Written out: docs/PROVING.md, "Drops".
impl Drop for LastResponses {
    fn drop(self) {
        let LastResponses {
            drafts: _,
            begun: _,
            refusal: _,
        } = self;
    }
}

impl LastResponses {
    /// Nothing.
    pub(crate) fn new(alloc: Global) -> LastResponses {
        LastResponses {
            drafts: Vec::new(alloc),
            begun: 0,
            refusal: None,
        }
    }

    /// Polls a stream until nothing is due.
    pub(crate) fn fill<R: Wait, A: Host>(
        &mut self,
        rt: &R,
        node: &A,
        seat: &mut A::Seat,
        stream: u64,
    ) {
        self.refusal = poll_all(rt, node, seat, stream, &mut self.drafts).err();
    }

    /// Whether there is a response that isn't begun.
    pub(crate) fn has_next(&self) -> bool {
        self.begun < self.drafts.len()
    }

    /// The frame of the next response, if there is one that isn't begun.
    pub(crate) fn next(
        &mut self,
        alloc: Global,
        to: &mut Counted<OwnedWriteHalf>,
    ) -> Option<Result<Unsent, Refusal>> {
        let draft = self.drafts.get(self.begun)?;
        let begun = <ByPolls as Writes<OwnedWriteHalf>>::begin(alloc, draft, to);
        self.begun = self.begun.saturating_add(1);
        Some(begun)
    }

    /// Why a response that was due isn't among it.
    pub(crate) fn end(&self) -> Result<(), Refusal> {
        match self.refusal {
            Some(refusal) => Err(refusal),
            None => Ok(()),
        }
    }
}

// Polls a stream until nothing is due, and sets the responses aside.
fn poll_all<R: Wait, A: Host>(
    rt: &R,
    node: &A,
    seat: &mut A::Seat,
    stream: u64,
    drafts: &mut Vec<Draft>,
) -> Result<(), Refusal> {
    for _ in rt.forever() {
        match poll_one(rt, node, seat, stream, drafts) {
            Ok(true) => {}
            Ok(false) => return Ok(()),
            Err(refusal) => return Err(refusal),
        }
    }
    unreachable!()
}

// Polls a stream once, and sets the response aside. Answers whether there was one; there is none, too, on a stream that isn't open.
fn poll_one<R: Wait, A: Host>(
    rt: &R,
    node: &A,
    seat: &mut A::Seat,
    stream: u64,
    drafts: &mut Vec<Draft>,
) -> Result<bool, Refusal> {
    if drafts.reserve(1).is_err() {
        return Err(Refusal::OutOfMemory);
    }
    match called(rt, node, &NoGate, seat, Event::Poll(stream, None)) {
        Ok(Ok(reply)) => match draft_in(reply) {
            Some(draft) => {
                drafts.push_reserved(draft);
                Ok(true)
            }
            None => Ok(false),
        },
        Ok(Err(Refusal::NoStream)) => Ok(false),
        Ok(Err(refusal)) => Err(refusal),
        Err(refusal) => Err(refusal),
    }
}
