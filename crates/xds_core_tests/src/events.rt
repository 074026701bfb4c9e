// Events as texts.
use crate::script::parted;
use crate::writes::batch_of;
use std::alloc::Global;
use xds_cases::cases::words_of;
use xds_core::{Event, Marks, Request};
use xds_message::{DeltaDiscoveryRequest, DiscoveryRequest};
use xds_resource::{AnyResource, Groups, Refusal, TypeName};

/// The event of `open`, `sotw STREAM MESSAGE`, `delta STREAM MESSAGE`, `poll STREAM [TYPE]`, `owes
/// STREAM [TYPE]`, `close STREAM`, `put RESOURCE`, `putin GROUP,GROUP.. RESOURCE`, `delete TYPE
/// NAME`, `merge [WRITE ..]`, `snapshot`, `rest TYPE VERSION CLUSTER [NAME ..]`, where `-` is an
/// empty text, or `since` with five counts.
pub(crate) fn event_of(alloc: Global, verb: &str, rest: &str) -> Result<Event, Refusal> {
    match verb {
        "open" => Ok(Event::Open),
        "snapshot" => Ok(Event::Snapshot),
        "poll" => poll(rest),
        "owes" => owes(rest),
        "close" => close(rest),
        _ => longer_event_of(alloc, verb, rest),
    }
}

fn longer_event_of(alloc: Global, verb: &str, rest: &str) -> Result<Event, Refusal> {
    match verb {
        "sotw" => sotw(alloc, rest),
        "delta" => delta(alloc, rest),
        "put" => put(alloc, rest),
        "putin" => putin(alloc, rest),
        "delete" => delete(alloc, rest),
        "merge" => merge(alloc, rest),
        "rest" => rest_of(alloc, rest),
        "since" => since(rest),
        _ => Err(Refusal::BadScript),
    }
}

fn poll(text: &str) -> Result<Event, Refusal> {
    let (number, kind) = stream_of(text)?;
    Ok(Event::Poll(number, kind))
}

fn owes(text: &str) -> Result<Event, Refusal> {
    let (number, kind) = stream_of(text)?;
    Ok(Event::Owes(number, kind))
}

fn close(text: &str) -> Result<Event, Refusal> {
    let number = number_of(text)?;
    Ok(Event::Close(number))
}

fn sotw(alloc: Global, text: &str) -> Result<Event, Refusal> {
    let (number, message) = parted(text);
    let number = number_of(number)?;
    let request = DiscoveryRequest::read(alloc, message.as_bytes())?;
    Ok(Event::Request(number, Request::Sotw(request)))
}

fn delta(alloc: Global, text: &str) -> Result<Event, Refusal> {
    let (number, message) = parted(text);
    let number = number_of(number)?;
    let request = DeltaDiscoveryRequest::read(alloc, message.as_bytes())?;
    Ok(Event::Request(number, Request::Delta(request)))
}

fn put(alloc: Global, text: &str) -> Result<Event, Refusal> {
    let resource = AnyResource::parse(alloc, text)?;
    Ok(Event::Put(resource, Groups::none()))
}

fn putin(alloc: Global, text: &str) -> Result<Event, Refusal> {
    let (groups, resource) = parted(text);
    let groups = groups_of(alloc, groups)?;
    let resource = AnyResource::parse(alloc, resource)?;
    Ok(Event::Put(resource, groups))
}

fn groups_of(alloc: Global, text: &str) -> Result<Groups, Refusal> {
    let mut texts = Vec::new(alloc);
    for group in text.split(',') {
        texts.push(String::from_str(alloc, group)?)?;
    }
    Groups::new(alloc, &texts)
}

fn delete(alloc: Global, text: &str) -> Result<Event, Refusal> {
    let (kind, name) = parted(text);
    let kind = type_of(kind)?;
    let name = String::from_str(alloc, name)?;
    Ok(Event::Delete(kind, name))
}

fn merge(alloc: Global, text: &str) -> Result<Event, Refusal> {
    let batch = batch_of(alloc, text)?;
    Ok(Event::Merge(batch))
}

fn rest_of(alloc: Global, text: &str) -> Result<Event, Refusal> {
    let (kind, text) = parted(text);
    let (version, text) = parted(text);
    let (cluster, names) = parted(text);
    let kind = type_of(kind)?;
    let version = text_or_empty(alloc, version)?;
    let cluster = text_or_empty(alloc, cluster)?;
    let names = words_of(alloc, names)?;
    Ok(Event::Rest(kind, names, version, cluster))
}

fn text_or_empty(alloc: Global, word: &str) -> Result<String, Refusal> {
    let text = if word == "-" { "" } else { word };
    Ok(String::from_str(alloc, text)?)
}

fn since(text: &str) -> Result<Event, Refusal> {
    let (cluster, text) = parted(text);
    let (endpoint, text) = parted(text);
    let (listener, text) = parted(text);
    let (route, secret) = parted(text);
    Ok(Event::Since(Marks {
        cluster: number_of(cluster)?,
        endpoint: number_of(endpoint)?,
        listener: number_of(listener)?,
        route: number_of(route)?,
        secret: number_of(secret)?,
    }))
}

/// The stream, and perhaps the type, of `STREAM [TYPE]`.
pub(crate) fn stream_of(text: &str) -> Result<(u64, Option<TypeName>), Refusal> {
    let (number, kind) = parted(text);
    let number = number_of(number)?;
    if kind.is_empty() {
        return Ok((number, None));
    }
    let kind = type_of(kind)?;
    Ok((number, Some(kind)))
}

pub(crate) fn number_of(text: &str) -> Result<u64, Refusal> {
    text.parse::<u64>().or(Err(Refusal::BadScript))
}

pub(crate) fn type_of(word: &str) -> Result<TypeName, Refusal> {
    TypeName::from_word(word).ok_or(Refusal::BadScript)
}
