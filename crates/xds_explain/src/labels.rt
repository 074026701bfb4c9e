// What is written at the rows of a trace's picture.
use crate::looks::first_request;
use crate::telling::node_id;
use crate::texts::excerpt;
use std::alloc::Global;
use xds_check::{Answer, Asking, Line, Statement};
use xds_message::{DeltaDiscoveryRequest, DeltaDiscoveryResponse, DiscoveryResponse};
use xds_resource::{AnyWrite, Refusal, TypeName};

// As many characters as a label has, at most: at the arrow of a stream, at that of a write, and of a client at a lane.
const MOST_AT_STREAM: usize = 72;

const MOST_AT_WRITE: usize = 44;

const MOST_AT_LANE: usize = 10;

/// A lane's name: the stream's number, and its client where its first request tells it.
pub(crate) fn lane_label(alloc: Global, lines: &[Line], stream: u64) -> Result<String, Refusal> {
    let id = match first_request(stream, lines) {
        Some((_, asking)) => node_id(asking),
        None => "",
    };
    if id.is_empty() {
        return Ok(format!(in alloc; "stream {stream}")?);
    }
    let id = excerpt(alloc, id, MOST_AT_LANE)?;
    let id = id.as_str();
    Ok(format!(in alloc; "stream {stream}, node {id}")?)
}

/// A write: what it does, the type, the name and the version.
pub(crate) fn write_label(alloc: Global, write: &AnyWrite) -> Result<String, Refusal> {
    let verb = if write.body().is_some() {
        "put"
    } else {
        "delete"
    };
    let word = write.type_name().word();
    let version = write.stamp().version_text(alloc)?;
    let version = version.as_str();
    let name = excerpt(alloc, write.name(), MOST_AT_WRITE)?;
    let name = name.as_str();
    let label = format!(in alloc; "{verb} {word} {version} {name}")?;
    excerpt(alloc, label.as_str(), MOST_AT_WRITE)
}

// Appends a name behind a mark, while the label isn't full.
fn push_name(label: &mut String, mark: &str, name: &str) -> Result<(), Refusal> {
    if label.len() <= MOST_AT_STREAM {
        label.push_str(" ")?;
        label.push_str(mark)?;
        label.push_str(name)?;
    }
    Ok(())
}

fn push_names(label: &mut String, mark: &str, names: &[String]) -> Result<(), Refusal> {
    for name in names {
        push_name(label, mark, name.as_str())?;
    }
    Ok(())
}

// Appends what a delta request asks for.
fn push_mention(label: &mut String, request: &DeltaDiscoveryRequest) -> Result<(), Refusal> {
    push_names(label, "+", &request.resource_names_subscribe)?;
    push_names(label, "-", &request.resource_names_unsubscribe)
}

// What is said of a type URL: the type's word, or the URL where it is of no type of the table.
fn word_of(url: &str) -> &str {
    match TypeName::from_url(url) {
        Some(kind) => kind.word(),
        None => url,
    }
}

// What a request does, and of which type.
fn verb_of(alloc: Global, asking: &Asking) -> Result<String, Refusal> {
    let word = word_of(asking.type_url());
    let nonce = asking.nonce();
    if nonce.is_empty() {
        return Ok(format!(in alloc; "request {word}:")?);
    }
    if asking.rejects() {
        return Ok(format!(in alloc; "NACK {nonce} {word}:")?);
    }
    Ok(format!(in alloc; "ACK {nonce} {word}:")?)
}

// Why a request rejects, if it says so.
fn reason_of(asking: &Asking) -> Option<&str> {
    let detail = match asking {
        Asking::Sotw(request) => &request.error_detail,
        Asking::Delta(request) => &request.error_detail,
    };
    match detail {
        Some(status) => Some(status.message.as_str()),
        None => None,
    }
}

/// A request: whether it asks, accepts or rejects, the type, and why it rejects or what it asks for.
pub(crate) fn asking_label(alloc: Global, asking: &Asking) -> Result<String, Refusal> {
    let mut label = verb_of(alloc, asking)?;
    if let Some(reason) = reason_of(asking) {
        push_name(&mut label, "", reason)?;
        return excerpt(alloc, label.as_str(), MOST_AT_STREAM);
    }
    match asking {
        Asking::Sotw(request) => push_names(&mut label, "", &request.resource_names)?,
        Asking::Delta(request) => push_mention(&mut label, request)?,
    }
    excerpt(alloc, label.as_str(), MOST_AT_STREAM)
}

// What stands behind three spaces in a text.
fn behind_three(text: &str) -> Option<&str> {
    let (_, rest) = text.split_once(' ')?;
    let (_, rest) = rest.split_once(' ')?;
    let (_, rest) = rest.split_once(' ')?;
    Some(rest)
}

// The version of a response of the state of the world.
fn sotw_version(alloc: Global, json: &str) -> Result<String, Refusal> {
    let response = DiscoveryResponse::read(alloc, json.as_bytes())?;
    let version = String::from_str(alloc, response.version_info.as_str())?;
    drop(response);
    Ok(version)
}

// The version of a delta response.
fn delta_version(alloc: Global, json: &str) -> Result<String, Refusal> {
    let response = DeltaDiscoveryResponse::read(alloc, json.as_bytes())?;
    let version = String::from_str(alloc, response.system_version_info.as_str())?;
    drop(response);
    Ok(version)
}

// The version of a response, by the text of its line.
fn version_of(alloc: Global, line: &Line, answer: &Answer) -> Result<String, Refusal> {
    let text = line.text(alloc)?;
    match behind_three(text.as_str()) {
        Some(json) => {
            if answer.variant().is_delta() {
                delta_version(alloc, json)
            } else {
                sotw_version(alloc, json)
            }
        }
        None => Ok(String::new(alloc)),
    }
}

// Appends a resource, in delta with its version.
fn push_statement(label: &mut String, statement: &Statement) -> Result<(), Refusal> {
    push_name(label, "", statement.name())?;
    if let Some(given) = statement.label() {
        push_name(label, "", given.version())?;
    }
    Ok(())
}

/// A response: its nonce, type and version, and the names that it states and removes.
pub(crate) fn answer_label(alloc: Global, line: &Line, answer: &Answer) -> Result<String, Refusal> {
    let nonce = answer.nonce();
    let word = answer.kind().word();
    let version = version_of(alloc, line, answer)?;
    let version = version.as_str();
    let mut label = format!(in alloc; "response {nonce} {word} at {version}:")?;
    for statement in answer.statements() {
        push_statement(&mut label, statement)?;
    }
    push_names(&mut label, "-", answer.removed())?;
    excerpt(alloc, label.as_str(), MOST_AT_STREAM)
}
