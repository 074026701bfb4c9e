// What is told of the parts of a trace: its writes, resources, requests and nonces.
use crate::best::best_line;
use crate::looks::{first_request, nonce_at};
use crate::texts::excerpt;
use std::alloc::Global;
use xds_check::{Asking, ByType, Label, Line, Statement};
use xds_interest::Interest;
use xds_resource::{Groups, Refusal, ResourceType, Write};

/// As many characters of a text as are told, at most.
pub const MOST_TOLD: usize = 200;

// As many names of an interest as are told, at most.
const MOST_NAMES: usize = 8;

/// A text, as it is told, between quotes.
pub(crate) fn quoted(alloc: Global, text: &str) -> Result<String, Refusal> {
    let shown = excerpt(alloc, text, MOST_TOLD)?;
    let shown = shown.as_str();
    Ok(format!(in alloc; "\"{shown}\"")?)
}

// The id of the node in a request, empty where there is none.
pub(crate) fn node_id(asking: &Asking) -> &str {
    let node = match asking {
        Asking::Sotw(request) => &request.node,
        Asking::Delta(request) => &request.node,
    };
    match node {
        Some(node) => node.id.as_str(),
        None => "",
    }
}

/// The client of a stream, by its first request.
pub(crate) fn client_told(alloc: Global, lines: &[Line], stream: u64) -> Result<String, Refusal> {
    let Some((number, asking)) = first_request(stream, lines) else {
        return Ok(format!(in alloc; "stream {stream} had no request\n")?);
    };
    let variant = if asking.variant().is_delta() {
        "incremental"
    } else {
        "state of the world"
    };
    let id = quoted(alloc, node_id(asking))?;
    let id = id.as_str();
    let cluster = quoted(alloc, asking.cluster())?;
    let cluster = cluster.as_str();
    Ok(format!(in alloc;
        "stream {stream}: {variant}, node id {id}, node cluster {cluster} (line {number})\n"
    )?)
}

// A body, or that there is none.
fn body_told(alloc: Global, body: Option<&str>) -> Result<String, Refusal> {
    let Some(body) = body else {
        return Ok(String::from_str(alloc, "deleted")?);
    };
    let shown = excerpt(alloc, body, MOST_TOLD)?;
    let shown = shown.as_str();
    Ok(format!(in alloc; "present, {shown}")?)
}

// The groups of a write, if there are some.
fn groups_told(alloc: Global, groups: &Groups) -> Result<String, Refusal> {
    let mut told = String::new(alloc);
    for (i, group) in groups.texts().iter().enumerate() {
        told.push_str(if i == 0 { ", for the groups " } else { ", " })?;
        told.push_str(quoted(alloc, group.as_str())?.as_str())?;
    }
    Ok(told)
}

// A write, and the number of the line that has it.
fn write_told<T: ByType>(
    alloc: Global,
    number: usize,
    write: &Write<T>,
) -> Result<String, Refusal> {
    let version = write.stamp().version_text(alloc)?;
    let version = version.as_str();
    let body = body_told(alloc, write.body())?;
    let body = body.as_str();
    let groups = groups_told(alloc, write.groups())?;
    let groups = groups.as_str();
    Ok(format!(in alloc; "best write so far: line {number}, version {version}, {body}{groups}\n")?)
}

/// The best write of a name.
pub(crate) fn best_told<T: ByType>(
    alloc: Global,
    lines: &[Line],
    name: &str,
) -> Result<String, Refusal> {
    match best_line::<T>(lines, name) {
        Some((number, write)) => write_told(alloc, number, write),
        None => Ok(String::from_str(alloc, "best write so far: none\n")?),
    }
}

// What stands beside a resource in the incremental variant, if anything.
fn label_told(alloc: Global, label: Option<&Label>) -> Result<String, Refusal> {
    let Some(label) = label else {
        return Ok(String::new(alloc));
    };
    let name = quoted(alloc, label.name())?;
    let name = name.as_str();
    let version = quoted(alloc, label.version())?;
    let version = version.as_str();
    Ok(format!(in alloc; "under the name {name} with the version {version}, ")?)
}

/// A resource of a response.
pub(crate) fn statement_told(alloc: Global, statement: &Statement) -> Result<String, Refusal> {
    let label = label_told(alloc, statement.label())?;
    let label = label.as_str();
    let body = excerpt(alloc, statement.body(), MOST_TOLD)?;
    let body = body.as_str();
    Ok(format!(in alloc; "stated: {label}present, {body}\n")?)
}

/// What a client asks for.
pub(crate) fn interest_told<T: ResourceType>(
    alloc: Global,
    interest: &Interest<T>,
) -> Result<String, Refusal> {
    let mut told = String::from_str(alloc, "asked for:")?;
    if interest.has_star() {
        told.push_str(" the star")?;
    }
    let mut count = 0usize;
    for name in interest.names() {
        if count < MOST_NAMES {
            told.push_str(" ")?;
            told.push_str(quoted(alloc, name.as_str())?.as_str())?;
        }
        count = count.saturating_add(1);
    }
    if count > MOST_NAMES {
        let more = count.saturating_sub(MOST_NAMES);
        told.push_str(format!(in alloc; " and {more} names more")?.as_str())?;
    }
    if count == 0 && !interest.has_star() {
        told.push_str(" nothing")?;
    }
    told.push_str("\n")?;
    Ok(told)
}

/// The nonce of the response at a place, from 0, and the number of its line.
pub(crate) fn nonce_told(alloc: Global, lines: &[Line], at: usize) -> Result<String, Refusal> {
    let nonce = quoted(alloc, nonce_at(lines, at))?;
    let nonce = nonce.as_str();
    let number = at.saturating_add(1);
    Ok(format!(in alloc; "{nonce} at line {number}")?)
}
