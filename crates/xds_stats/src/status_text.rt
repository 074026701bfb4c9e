// What is known of the streams of a replica, as JSON. Each text in it is written with its escapes.
ghost use Rattle.std.specs.Prelude.{◌≡◌, string_bytes, IfOk, OnOk};
ghost use Rattle.xds_stats.specs.Statuses.{client_json, quoted, rejected_json, state_json, stream_json, told_json, type_json, types_json, variant_word, with_comma};

use crate::board::Board;
use crate::moment::utc_text;
use crate::stream_status::{StreamStatus, TypeStatus, TypeStatuses};
use serde_json::Value;
use std::alloc::Global;
use xds_ledger::VariantName;
use xds_resource::{Refusal, TypeName};

/// The open streams, as a list.
pub fn streams_text(alloc: Global, board: &Board) -> Result<String, Refusal> {
    let mut text = String::from_str(alloc, "[")?;
    let mut is_first = true;
    for (stream, status) in &board.streams {
        if !is_first {
            text.push_str(",")?;
        }
        is_first = false;
        let types = types_text(alloc, &status.types)?;
        let since = utc_text(alloc, status.opened)?;
        let one = stream_text(alloc, *stream, status, since.as_str(), types.as_str())?;
        text.push_str(one.as_str())?;
    }
    text.push_str("]")?;
    Ok(text)
}

/// A text in quotes, with its escapes.
pub(crate) fn quoted(alloc: Global, text: &str) -> Result<String, Refusal>
    ensures { IfOk result (λ t. string_bytes t ≡ quoted text.now) }
{
    Ok(Value::try_from_str(alloc, text)?.to_string(alloc)?)
}

/// The variant in a word; an empty one before the first request.
pub(crate) fn variant_word(variant: Option<VariantName>) -> &'static str
    ensures { result.now ≡ variant_word variant }
{
    match variant {
        Some(VariantName::StateOfTheWorld) => "sotw",
        Some(VariantName::Delta) => "delta",
        None => "",
    }
}

fn stream_text(
    alloc: Global,
    stream: u64,
    status: &StreamStatus,
    since: &str,
    types: &str,
) -> Result<String, Refusal>
    ensures { IfOk result (λ t. string_bytes t ≡ stream_json stream status.now since.now types.now) }
{
    let client = client_text(alloc, status)?;
    let client = client.as_str();
    let variant = variant_word(status.variant);
    Ok(format!(in alloc;
        "{{\"stream\":{stream},{client},\"variant\":\"{variant}\",\"since\":\"{since}\",\"types\":[{types}]}}"
    )?)
}

// What is shown of a stream's client.
fn client_text(alloc: Global, status: &StreamStatus) -> Result<String, Refusal>
    ensures { IfOk result (λ t. string_bytes t ≡ client_json status.now) }
{
    let peer = quoted(alloc, status.peer.as_str())?;
    let peer = peer.as_str();
    let node = quoted(alloc, status.node.as_str())?;
    let node = node.as_str();
    let cluster = quoted(alloc, status.cluster.as_str())?;
    let cluster = cluster.as_str();
    Ok(format!(in alloc; "\"peer\":{peer},\"node\":{node},\"cluster\":{cluster}")?)
}

// The types that a stream asked for.
fn types_text(alloc: Global, types: &TypeStatuses) -> Result<String, Refusal> {
    let mut text = String::new(alloc);
    let kinds = [
        TypeName::Cluster,
        TypeName::Endpoint,
        TypeName::Listener,
        TypeName::Route,
        TypeName::Secret,
    ];
    for kind in &kinds {
        let status = types.of(*kind);
        let since = utc_text(alloc, status.since)?;
        push_type(alloc, &mut text, *kind, status, since.as_str())?;
    }
    Ok(text)
}

// Appends what is shown of a type, if the stream asked for it.
fn push_type(
    alloc: Global,
    text: &mut String,
    kind: TypeName,
    status: &TypeStatus,
    since: &str,
) -> Result<(), Refusal>
    ensures { OnOk result (string_bytes text.new ≡ types_json (string_bytes text.old) kind status.now since.now) }
{
    if !status.is_asked {
        return Ok(());
    }
    let one = type_text(alloc, kind, status, since)?;
    push_comma(text)?;
    text.push_str(one.as_str())?;
    Ok(())
}

// Appends a comma, where something stands before.
fn push_comma(text: &mut String) -> Result<(), Refusal>
    ensures { OnOk result (string_bytes text.new ≡ with_comma (string_bytes text.old)) }
{
    if text.as_str().is_empty() {
        return Ok(());
    }
    text.push_str(",")?;
    Ok(())
}

// How a stream stands of a type, and since when.
fn state_text(alloc: Global, status: &TypeStatus, since: &str) -> Result<String, Refusal>
    ensures { IfOk result (λ t. string_bytes t ≡ state_json status.now since.now) }
{
    let word = status.state().word();
    Ok(format!(in alloc; "\"state\":\"{word}\",\"since\":\"{since}\"")?)
}

// What a type was told last, and accepted last.
fn told_text(alloc: Global, status: &TypeStatus) -> Result<String, Refusal>
    ensures { IfOk result (λ t. string_bytes t ≡ told_json status.now) }
{
    let sent = quoted(alloc, status.sent.as_str())?;
    let sent = sent.as_str();
    let accepted = quoted(alloc, status.accepted.as_str())?;
    let accepted = accepted.as_str();
    Ok(format!(in alloc; "\"sent\":{sent},\"accepted\":{accepted}")?)
}

// What is shown of a rejection.
fn rejected_text(alloc: Global, status: &TypeStatus) -> Result<String, Refusal>
    ensures { IfOk result (λ t. string_bytes t ≡ rejected_json status.now) }
{
    let rejection = quoted(alloc, status.rejection.as_str())?;
    let rejection = rejection.as_str();
    let rejected = quoted(alloc, status.rejected.as_str())?;
    let rejected = rejected.as_str();
    Ok(format!(in alloc; "\"rejection\":{rejection},\"rejected\":{rejected}")?)
}

fn type_text(
    alloc: Global,
    kind: TypeName,
    status: &TypeStatus,
    since: &str,
) -> Result<String, Refusal>
    ensures { IfOk result (λ t. string_bytes t ≡ type_json kind status.now since.now) }
{
    let kind = kind.word();
    let names = status.names;
    let told = told_text(alloc, status)?;
    let told = told.as_str();
    let rejected = rejected_text(alloc, status)?;
    let rejected = rejected.as_str();
    let state = state_text(alloc, status, since)?;
    let state = state.as_str();
    Ok(format!(in alloc; "{{\"type\":\"{kind}\",\"names\":{names},{told},{rejected},{state}}}")?)
}
