// What is known of the streams of a replica, as lines of a plain text. Its texts are excerpts, so none ends a line or a quote.
ghost use Rattle.std.specs.Prelude.{◌≡◌, string_bytes, IfOk};
ghost use Rattle.xds_stats.specs.PlainStatus.{client_plain, detail_plain, rejected_plain, rejection_plain, stream_plain, told_plain, type_plain};

use crate::board::Board;
use crate::moment::utc_text;
use crate::state::TypeState;
use crate::status_text::variant_word;
use crate::stream_status::{StreamStatus, TypeStatus};
use std::alloc::Global;
use xds_resource::{Refusal, TypeName};

/// The open streams of a replica, each in a line with those of its types behind it.
pub fn plain_text(alloc: Global, replica: u16, board: &Board) -> Result<String, Refusal> {
    let mut text = String::new(alloc);
    for (stream, status) in &board.streams {
        let since = utc_text(alloc, status.opened)?;
        let line = stream_plain(alloc, replica, *stream, status, since.as_str())?;
        text.push_str(line.as_str())?;
        push_types(alloc, &mut text, status)?;
    }
    Ok(text)
}

// Appends the lines of all types of a stream.
fn push_types(alloc: Global, text: &mut String, status: &StreamStatus) -> Result<(), Refusal> {
    let kinds = [
        TypeName::Cluster,
        TypeName::Endpoint,
        TypeName::Listener,
        TypeName::Route,
        TypeName::Secret,
    ];
    for kind in &kinds {
        let one = status.types.of(*kind);
        let since = utc_text(alloc, one.since)?;
        text.push_str(type_plain(alloc, *kind, one, since.as_str())?.as_str())?;
    }
    Ok(())
}

// The line of a stream.
fn stream_plain(
    alloc: Global,
    replica: u16,
    stream: u64,
    status: &StreamStatus,
    since: &str,
) -> Result<String, Refusal>
    ensures { IfOk result (λ t. string_bytes t ≡ stream_plain replica stream status.now since.now) }
{
    let client = client_plain(alloc, status)?;
    let client = client.as_str();
    Ok(format!(in alloc; "replica {replica}, stream {stream}: {client} since {since}\n")?)
}

// Whose stream it is.
fn client_plain(alloc: Global, status: &StreamStatus) -> Result<String, Refusal>
    ensures { IfOk result (λ t. string_bytes t ≡ client_plain status.now) }
{
    let node = status.node.as_str();
    let cluster = status.cluster.as_str();
    let peer = status.peer.as_str();
    let variant = variant_word(status.variant);
    Ok(format!(in alloc; "node \"{node}\", cluster \"{cluster}\", from {peer}, {variant}")?)
}

// The line of a type of a stream.
fn type_plain(
    alloc: Global,
    kind: TypeName,
    status: &TypeStatus,
    since: &str,
) -> Result<String, Refusal>
    ensures { IfOk result (λ t. string_bytes t ≡ type_plain kind status.now since.now) }
{
    let word = kind.word();
    let state = status.state().word();
    let detail = detail_plain(alloc, status, since)?;
    let detail = detail.as_str();
    let rejection = rejection_plain(alloc, status)?;
    let rejection = rejection.as_str();
    Ok(format!(in alloc; "    {word}: {state}{detail}{rejection}\n")?)
}

// What is shown of a type behind its state.
fn detail_plain(alloc: Global, status: &TypeStatus, since: &str) -> Result<String, Refusal>
    ensures { IfOk result (λ t. string_bytes t ≡ detail_plain status.now since.now) }
{
    match status.state() {
        TypeState::NeverAsked => Ok(String::new(alloc)),
        TypeState::Pending | TypeState::Rejected | TypeState::Synced => told_plain(
            alloc, status, since,
        ),
    }
}

// What is shown of a type that was asked for behind its state.
fn told_plain(alloc: Global, status: &TypeStatus, since: &str) -> Result<String, Refusal>
    ensures { IfOk result (λ t. string_bytes t ≡ told_plain status.now since.now) }
{
    let sent = status.sent.as_str();
    let accepted = status.accepted.as_str();
    Ok(format!(in alloc; " since {since}, sent \"{sent}\", accepted \"{accepted}\"")?)
}

// What is shown of a rejection, if there is one.
fn rejection_plain(alloc: Global, status: &TypeStatus) -> Result<String, Refusal>
    ensures { IfOk result (λ t. string_bytes t ≡ rejection_plain status.now) }
{
    if status.is_rejected {
        rejected_plain(alloc, status)
    } else {
        Ok(String::new(alloc))
    }
}

// What is shown of a rejection.
fn rejected_plain(alloc: Global, status: &TypeStatus) -> Result<String, Refusal>
    ensures { IfOk result (λ t. string_bytes t ≡ rejected_plain status.now) }
{
    let nonce = status.rejected.as_str();
    let reason = status.rejection.as_str();
    Ok(format!(in alloc; ", response \"{nonce}\" is rejected: \"{reason}\"")?)
}
