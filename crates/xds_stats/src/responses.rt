// How the lengths of a replica's whole responses are shown.
ghost use Rattle.std.specs.Prelude.{◌≡◌, ◌++◌, string_bytes, IfOk, OnOk};
ghost use Rattle.xds_stats.specs.Responses.{response_head, response_json, responses_json, warning_html, warning_json, warning_line, warnings_html, with_response};

use crate::look::ReplicaSizes;
use crate::sizes::warning_of;
use std::alloc::Global;
use xds_resource::{Refusal, TypeName};

// What is told of a length, as a member of an object behind others, if something is.
fn warning_json(alloc: Global, bytes: u64) -> Result<String, Refusal>
    ensures { IfOk result (λ t. string_bytes t ≡ warning_json bytes) }
{
    match warning_of(bytes) {
        Some(text) => Ok(format!(in alloc; ",\"warning\":\"{text}\"")?),
        None => Ok(String::new(alloc)),
    }
}

// The length of a type's response, as JSON, without its end and what is told of it.
fn response_head(alloc: Global, kind: TypeName, bytes: u64) -> Result<String, Refusal>
    ensures { IfOk result (λ t. string_bytes t ≡ response_head kind bytes) }
{
    let kind = kind.word();
    Ok(format!(in alloc; "{{\"type\":\"{kind}\",\"bytes\":{bytes},\"limit\":16777215")?)
}

// The length of a type's response, as JSON.
fn response_json(alloc: Global, kind: TypeName, bytes: u64) -> Result<String, Refusal>
    ensures { IfOk result (λ t. string_bytes t ≡ response_json kind bytes) }
{
    let head = response_head(alloc, kind, bytes)?;
    let warning = warning_json(alloc, bytes)?;
    let head = head.as_str();
    let warning = warning.as_str();
    Ok(format!(in alloc; "{head}{warning}}}")?)
}

// Appends the length of one more type's response, as JSON.
fn push_response(
    alloc: Global,
    text: &mut String,
    kind: TypeName,
    bytes: u64,
) -> Result<(), Refusal>
    ensures { OnOk result (string_bytes text.new ≡ with_response kind bytes (string_bytes text.old)) }
{
    let response = response_json(alloc, kind, bytes)?;
    let response = response.as_str();
    let more = format!(in alloc; ",{response}")?;
    text.push_str(more.as_str())?;
    Ok(())
}

/// How long the whole response of each type is, as a list of JSON, with a warning where it has half of what a frame may have, or more.
pub fn responses_json(alloc: Global, look: &ReplicaSizes) -> Result<String, Refusal>
    ensures { IfOk result (λ t. string_bytes t ≡ responses_json look.now) }
{
    let mut text = response_json(alloc, TypeName::Cluster, look.cluster.bytes)?;
    push_response(alloc, &mut text, TypeName::Endpoint, look.endpoint.bytes)?;
    push_response(alloc, &mut text, TypeName::Listener, look.listener.bytes)?;
    push_response(alloc, &mut text, TypeName::Route, look.route.bytes)?;
    push_response(alloc, &mut text, TypeName::Secret, look.secret.bytes)?;
    let text = text.as_str();
    Ok(format!(in alloc; "[{text}]")?)
}

// A line of HTML that tells this of the length of a type's response.
fn warning_line(alloc: Global, kind: TypeName, bytes: u64, warning: &str) -> Result<String, Refusal>
    ensures { IfOk result (λ t. string_bytes t ≡ warning_line kind bytes warning.now) }
{
    let kind = kind.word();
    Ok(format!(in alloc;
        "<p class=\"rejected\"><b>{kind}</b>: the whole response has {bytes} bytes, and a frame has 16777215 at most: {warning}</p>\n"
    )?)
}

// What is told of the length of a type's response, as HTML, if something is.
fn warning_html(alloc: Global, kind: TypeName, bytes: u64) -> Result<String, Refusal>
    ensures { IfOk result (λ t. string_bytes t ≡ warning_html kind bytes) }
{
    match warning_of(bytes) {
        Some(warning) => warning_line(alloc, kind, bytes, warning),
        None => Ok(String::new(alloc)),
    }
}

// Appends what is told of the length of a type's response, if something is.
fn push_warning(alloc: Global, text: &mut String, kind: TypeName, bytes: u64) -> Result<(), Refusal>
    ensures { OnOk result (string_bytes text.new ≡ string_bytes text.old ++ warning_html kind bytes) }
{
    let line = warning_html(alloc, kind, bytes)?;
    text.push_str(line.as_str())?;
    Ok(())
}

/// What is told of the lengths of whole responses, as HTML: nothing where each has less than half of what a frame may have.
pub fn warnings_html(alloc: Global, look: &ReplicaSizes) -> Result<String, Refusal>
    ensures { IfOk result (λ t. string_bytes t ≡ warnings_html look.now) }
{
    let mut text = String::new(alloc);
    push_warning(alloc, &mut text, TypeName::Cluster, look.cluster.bytes)?;
    push_warning(alloc, &mut text, TypeName::Endpoint, look.endpoint.bytes)?;
    push_warning(alloc, &mut text, TypeName::Listener, look.listener.bytes)?;
    push_warning(alloc, &mut text, TypeName::Route, look.route.bytes)?;
    push_warning(alloc, &mut text, TypeName::Secret, look.secret.bytes)?;
    Ok(text)
}
