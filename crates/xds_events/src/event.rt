// What happens at a replica, and what it answers.
ghost use Rattle.std.specs.Prelude.{◌≡◌, false, IfOk, IfErr};
ghost use Rattle.xds_resource.specs.declared.refusal.Refusal.TheVariants.{OutOfMemory};
ghost use Rattle.xds_events.specs.Seen.{event_of, reply_of, answer_of};
ghost use Rattle.xds_events.specs.Twice.{is_light, poll_in};

use crate::catalogues::Marks;
use crate::request::Request;
use std::alloc::Global;
use xds_json::copy_texts;
use xds_ledger::Outcome;
use xds_message::{Batch, Draft, SotwDraft};
use xds_resource::{AnyResource, Groups, Refusal, Stamp, TypeName};

/// What happens at a replica. Streams go by the numbers that `Open` gave them.
#[derive(Drop)]
pub enum Event {
    /// A stream opens.
    Open,
    /// A request comes on a stream.
    Request(u64, Request),
    /// The next response of a stream is asked for: of a type, or of the first in the order of the types that has one.
    Poll(u64, Option<TypeName>),
    /// Whether the client of a stream is owed something, of a type or at all, is asked.
    Owes(u64, Option<TypeName>),
    /// A stream closes.
    Close(u64),
    /// A resource is put here, for the clients of these groups.
    Put(AnyResource, Groups),
    /// The live resource of a name is deleted here.
    Delete(TypeName, String),
    /// Writes come from another replica.
    Merge(Batch),
    /// All that is held is asked for.
    Snapshot,
    /// A client without a stream asks, as one of REST does: for a type, with its list of names, the version that it kept
    /// (or an empty text), and the text of its cluster (empty where it has none).
    Rest(TypeName, Vec<String>, String, String),
    /// The entries are asked for that changed after these counts of changes.
    Since(Marks),
}

/// What an event is answered.
#[derive(Drop)]
pub enum Reply {
    /// The number of the stream.
    Opened(u64),
    /// What became of the request.
    Answered(Outcome),
    /// The response, if one is to be sent.
    Polled(Option<Draft>),
    /// Whether something is owed.
    Owed(bool),
    /// The stream is closed.
    Closed,
    /// The stamp of the write that was made.
    Written(Stamp),
    /// How many entries the writes added or replaced, over all types.
    Merged(u128),
    /// All that is held, deletions included, of each type in ascending order of names.
    Entries(Batch),
    /// All that the client's list of names covers, with an empty nonce; none where it asked for all of the type and the version
    /// that it kept is the present one.
    Rested(Option<SotwDraft>),
    /// The entries that changed after the marks, deletions included, of each type in ascending order of names; and the
    /// counts of changes now.
    Changed(Batch, Marks),
}

impl Event {
    /// The stream and the type of a poll, or none where the event isn't one.
    pub fn poll(&self) -> Option<(u64, Option<TypeName>)>
        ensures { result ≡ poll_in (event_of self.now) }
    {
        match self {
            Event::Poll(stream, kind) => Some((*stream, *kind)),
            _ => None,
        }
    }

    /// An equal event, or `OutOfMemory`. No body is copied.
    pub fn try_copy(&self, alloc: Global) -> Result<Event, Refusal>
        ensures ok { IfOk result (λ e. event_of e ≡ event_of self.now) }
        ensures refused { IfErr result (λ e. e ≡ OutOfMemory) }
    {
        match self {
            Event::Open => Ok(Event::Open),
            Event::Request(stream, request) => {
                Ok(Event::Request(*stream, request.try_copy(alloc)?))
            }
            Event::Poll(stream, kind) => Ok(Event::Poll(*stream, *kind)),
            Event::Owes(stream, kind) => Ok(Event::Owes(*stream, *kind)),
            Event::Close(stream) => Ok(Event::Close(*stream)),
            Event::Put(resource, groups) => {
                Ok(Event::Put(resource.try_copy(alloc)?, groups.try_copy(alloc)?))
            }
            Event::Delete(kind, name) => Ok(Event::Delete(
                *kind,
                String::from_str(alloc, name.as_str())?,
            )),
            Event::Merge(batch) => Ok(Event::Merge(batch.try_copy(alloc)?)),
            Event::Snapshot => Ok(Event::Snapshot),
            Event::Rest(kind, names, version, cluster) => Ok(Event::Rest(
                *kind,
                copy_texts(alloc, names)?,
                String::from_str(alloc, version.as_str())?,
                String::from_str(alloc, cluster.as_str())?,
            )),
            Event::Since(marks) => Ok(Event::Since(*marks)),
        }
    }
}

impl Reply {
    /// An equal reply, or `OutOfMemory`, which only a response and a batch may need. No body is copied.
    pub fn try_copy(&self, alloc: Global) -> Result<Reply, Refusal>
        ensures ok { IfOk result (λ r. reply_of r ≡ reply_of self.now) }
        ensures refused { IfErr result (λ e. e ≡ OutOfMemory) }
        ensures light { IfErr result (λ e. is_light (reply_of self.now) ≡ false) }
    {
        match self {
            Reply::Opened(stream) => Ok(Reply::Opened(*stream)),
            Reply::Answered(outcome) => Ok(Reply::Answered(*outcome)),
            Reply::Polled(None) => Ok(Reply::Polled(None)),
            Reply::Polled(Some(draft)) => Ok(Reply::Polled(Some(draft.try_copy(alloc)?))),
            Reply::Owed(owed) => Ok(Reply::Owed(*owed)),
            Reply::Closed => Ok(Reply::Closed),
            Reply::Written(stamp) => Ok(Reply::Written(*stamp)),
            Reply::Merged(changes) => Ok(Reply::Merged(*changes)),
            Reply::Entries(batch) => Ok(Reply::Entries(batch.try_copy(alloc)?)),
            Reply::Rested(None) => Ok(Reply::Rested(None)),
            Reply::Rested(Some(draft)) => Ok(Reply::Rested(Some(draft.try_copy(alloc)?))),
            Reply::Changed(batch, marks) => Ok(Reply::Changed(batch.try_copy(alloc)?, *marks)),
        }
    }
}

/// An event and what it was answered.
#[derive(Drop)]
pub struct Record {
    pub event: Event,
    pub answer: Result<Reply, Refusal>,
}

impl Record {
    /// An equal record, or `OutOfMemory`. No body is copied.
    pub fn try_copy(&self, alloc: Global) -> Result<Record, Refusal>
        ensures event { IfOk result (λ r. event_of r.event ≡ event_of self.now.event) }
        ensures answer { IfOk result (λ r. answer_of r.answer ≡ answer_of self.now.answer) }
        ensures refused { IfErr result (λ e. e ≡ OutOfMemory) }
    {
        let answer = match &self.answer {
            Ok(reply) => Ok(reply.try_copy(alloc)?),
            Err(refusal) => Err(*refusal),
        };
        Ok(Record {
            event: self.event.try_copy(alloc)?,
            answer,
        })
    }
}
