// About how much memory the records of a journal take: an estimate, of which nothing that is answered depends.
use std::alloc::Global;
use xds_core::{Event, Reply, Request};
use xds_json::Versions;
use xds_message::{Batch, DeltaDiscoveryRequest, DeltaDraft, DiscoveryRequest, Draft, SotwDraft};
use xds_resource::{Refusal, ResourceType, Write};

// What a record, an entry of a list or a text takes beside its bytes: its place, and what the allocator adds.
const PLACE: u64 = 64;

// What a pointer to a shared text counts. It takes 16 bytes; but the list that it stands in is one for all streams that are told
// the same, and stands in the journal once for each of them.
const SHARED: u64 = 1;

// What it counts in a list of its own, as in the response to a poll over HTTP.
const POINTER: u64 = 16;

/// About how many bytes an event keeps in a journal. A body counts whole, since the replica may let go of it before the
/// journal does.
pub(crate) fn event_weight(alloc: Global, event: &Event) -> u64 {
    match event {
        Event::Request(_, request) => request_weight(alloc, request),
        Event::Put(resource, groups) => text_weight(resource.body())
            .saturating_add(text_weight(resource.name()))
            .saturating_add(texts_weight(groups.texts())),
        Event::Delete(_, name) => text_weight(name.as_str()),
        Event::Merge(batch) => batch_weight(batch),
        Event::Rest(_, names, version, cluster) => texts_weight(names.as_slice())
            .saturating_add(text_weight(version.as_str()))
            .saturating_add(text_weight(cluster.as_str())),
        Event::Open
        | Event::Poll(_, _)
        | Event::Owes(_, _)
        | Event::Close(_)
        | Event::Snapshot
        | Event::Since(_) => PLACE,
    }
}

/// About how many bytes an answer keeps in a journal, beside texts that it shares with the replica or with an event.
pub(crate) fn answer_weight(answer: &Result<Reply, Refusal>) -> u64 {
    match answer {
        Ok(reply) => reply_weight(reply),
        Err(_) => PLACE,
    }
}

/// About how many bytes an answer takes in a trace: a response is written out there, whatever it shares with others.
pub(crate) fn written_weight(alloc: Global, answer: &Result<Reply, Refusal>) -> u64 {
    match answer {
        Ok(Reply::Polled(Some(draft))) => text_of_draft(alloc, draft),
        _ => answer_weight(answer),
    }
}

// The length of a response's text. Without memory to find it the response counts as in a journal.
fn text_of_draft(alloc: Global, draft: &Draft) -> u64 {
    match draft.pieces(alloc) {
        Ok(pieces) => match pieces.length_up_to(usize::MAX) {
            Some(length) => length as u64,
            None => u64::MAX,
        },
        Err(_) => draft_weight(draft),
    }
}

fn reply_weight(reply: &Reply) -> u64 {
    match reply {
        Reply::Polled(draft) => polled_weight(draft),
        Reply::Rested(draft) => rested_weight(draft),
        Reply::Entries(batch) => count_weight(batch),
        Reply::Changed(batch, _) => count_weight(batch),
        Reply::Opened(_)
        | Reply::Answered(_)
        | Reply::Owed(_)
        | Reply::Closed
        | Reply::Written(_)
        | Reply::Merged(_) => PLACE,
    }
}

fn polled_weight(draft: &Option<Draft>) -> u64 {
    match draft {
        Some(draft) => draft_weight(draft),
        None => PLACE,
    }
}

fn draft_weight(draft: &Draft) -> u64 {
    match draft {
        Draft::Sotw(draft) => sotw_weight(draft),
        Draft::Delta(draft) => delta_weight(draft),
    }
}

fn rested_weight(draft: &Option<SotwDraft>) -> u64 {
    match draft {
        Some(draft) => places(draft.bodies().len(), POINTER),
        None => PLACE,
    }
}

fn text_weight(text: &str) -> u64 {
    PLACE.saturating_add(text.len() as u64)
}

fn texts_weight(texts: &[String]) -> u64 {
    let mut sum = PLACE;
    for text in texts {
        sum = sum.saturating_add(text_weight(text.as_str()));
    }
    sum
}

fn request_weight(alloc: Global, request: &Request) -> u64 {
    match request {
        Request::Sotw(request) => sotw_request_weight(request),
        Request::Delta(request) => delta_request_weight(alloc, request),
    }
}

fn sotw_request_weight(request: &DiscoveryRequest) -> u64 {
    texts_weight(request.resource_names.as_slice())
        .saturating_add(text_weight(request.version_info.as_str()))
        .saturating_add(text_weight(request.type_url.as_str()))
        .saturating_add(text_weight(request.response_nonce.as_str()))
}

fn delta_request_weight(alloc: Global, request: &DeltaDiscoveryRequest) -> u64 {
    texts_weight(request.resource_names_subscribe.as_slice())
        .saturating_add(texts_weight(request.resource_names_unsubscribe.as_slice()))
        .saturating_add(versions_weight(alloc, &request.initial_resource_versions))
        .saturating_add(text_weight(request.type_url.as_str()))
        .saturating_add(text_weight(request.response_nonce.as_str()))
}

// Without memory for a list of them they count nothing.
fn versions_weight(alloc: Global, versions: &Versions) -> u64 {
    let Ok(pairs) = versions.pairs(alloc) else {
        return 0;
    };
    let mut sum = PLACE;
    for (name, version) in &pairs {
        sum = sum
            .saturating_add(text_weight(name))
            .saturating_add(text_weight(version));
    }
    sum
}

fn writes_weight<T: ResourceType>(writes: &[Write<T>]) -> u64 {
    let mut sum = PLACE;
    for write in writes {
        let body = match write.body() {
            Some(body) => text_weight(body),
            None => 0,
        };
        sum = sum
            .saturating_add(text_weight(write.name()))
            .saturating_add(body);
    }
    sum
}

fn batch_weight(batch: &Batch) -> u64 {
    writes_weight(batch.cluster.as_slice())
        .saturating_add(writes_weight(batch.endpoint.as_slice()))
        .saturating_add(writes_weight(batch.listener.as_slice()))
        .saturating_add(writes_weight(batch.route.as_slice()))
        .saturating_add(writes_weight(batch.secret.as_slice()))
}

// What so many entries of a list weigh.
fn places(count: usize, each: u64) -> u64 {
    PLACE.saturating_add((count as u64).saturating_mul(each))
}

fn count_weight(batch: &Batch) -> u64 {
    places(batch.cluster.len(), PLACE)
        .saturating_add(places(batch.endpoint.len(), PLACE))
        .saturating_add(places(batch.listener.len(), PLACE))
        .saturating_add(places(batch.route.len(), PLACE))
        .saturating_add(places(batch.secret.len(), PLACE))
}

fn sotw_weight(draft: &SotwDraft) -> u64 {
    places(draft.bodies().len(), SHARED)
}

fn delta_weight(draft: &DeltaDraft) -> u64 {
    places(draft.stated(), PLACE).saturating_add(texts_weight(draft.removed()))
}
