// What is shown of a replica's streams on a page of HTML. Each text of a client is written so that it begins and ends nothing there.
ghost use Rattle.std.specs.Prelude.{◌≡◌, ◌++◌, string_bytes, IfOk, OnOk};
ghost use Rattle.xds_stats.specs.Html.{cell_html, class_word, client_html, detail_html, escaped, html_char, rejected_html, rejection_html, row_html, told_html};

use crate::board::Board;
use crate::moment::utc_text;
use crate::state::TypeState;
use crate::status_text::variant_word;
use crate::stream_status::{StreamStatus, TypeStatus};
use std::alloc::Global;
use xds_resource::{Refusal, TypeName};

/// As many streams of a replica as are shown on a page, at most.
pub const MOST_ROWS: usize = 200;

// Appends what stands for a character.
fn push_char(text: &mut String, c: char) -> Result<(), Refusal>
    ensures { OnOk result (string_bytes text.new ≡ string_bytes text.old ++ html_char c) }
{
    if c == '<' {
        text.push_str("&lt;")?;
        return Ok(());
    }
    if c == '>' {
        text.push_str("&gt;")?;
        return Ok(());
    }
    if c == '&' {
        text.push_str("&amp;")?;
        return Ok(());
    }
    if c == '"' {
        text.push_str("&quot;")?;
        return Ok(());
    }
    if c == '\'' {
        text.push_str("&#39;")?;
        return Ok(());
    }
    text.push(c)?;
    Ok(())
}

/// A text as HTML: an entity for `<`, `>`, `&` and both quotes.
pub fn escaped(alloc: Global, text: &str) -> Result<String, Refusal>
    ensures { IfOk result (λ t. string_bytes t ≡ escaped text.now) }
{
    let mut shown = String::new(alloc);
    for c in text.chars() {
        push_char(&mut shown, c)?;
    }
    Ok(shown)
}

// The class of a state, by which it has its colour.
fn class_word(state: TypeState) -> &'static str
    ensures { result.now ≡ class_word state }
{
    match state {
        TypeState::NeverAsked => "never",
        TypeState::Pending => "pending",
        TypeState::Rejected => "rejected",
        TypeState::Synced => "synced",
    }
}

// What is shown of a rejection, if there is one.
fn rejection_html(alloc: Global, status: &TypeStatus) -> Result<String, Refusal>
    ensures { IfOk result (λ t. string_bytes t ≡ rejection_html status.now) }
{
    if status.is_rejected {
        rejected_html(alloc, status)
    } else {
        Ok(String::new(alloc))
    }
}

// What is shown of a rejection.
fn rejected_html(alloc: Global, status: &TypeStatus) -> Result<String, Refusal>
    ensures { IfOk result (λ t. string_bytes t ≡ rejected_html status.now) }
{
    let nonce = escaped(alloc, status.rejected.as_str())?;
    let nonce = nonce.as_str();
    let reason = escaped(alloc, status.rejection.as_str())?;
    let reason = reason.as_str();
    Ok(format!(in alloc; "<br>response {nonce}: {reason}")?)
}

// What is shown of a type behind its state.
fn detail_html(alloc: Global, status: &TypeStatus, since: &str) -> Result<String, Refusal>
    ensures { IfOk result (λ t. string_bytes t ≡ detail_html status.now since.now) }
{
    match status.state() {
        TypeState::NeverAsked => Ok(String::new(alloc)),
        TypeState::Pending | TypeState::Rejected | TypeState::Synced => told_html(
            alloc, status, since,
        ),
    }
}

// What is shown of a type that was asked for behind its state.
fn told_html(alloc: Global, status: &TypeStatus, since: &str) -> Result<String, Refusal>
    ensures { IfOk result (λ t. string_bytes t ≡ told_html status.now since.now) }
{
    let sent = escaped(alloc, status.sent.as_str())?;
    let sent = sent.as_str();
    let accepted = escaped(alloc, status.accepted.as_str())?;
    let accepted = accepted.as_str();
    Ok(format!(in alloc; "<br>since {since}<br>sent {sent}<br>accepted {accepted}")?)
}

// What is shown of a type of a stream.
fn cell_html(alloc: Global, status: &TypeStatus, since: &str) -> Result<String, Refusal>
    ensures { IfOk result (λ t. string_bytes t ≡ cell_html status.now since.now) }
{
    let state = status.state();
    let class = class_word(state);
    let word = state.word();
    let detail = detail_html(alloc, status, since)?;
    let detail = detail.as_str();
    let rejection = rejection_html(alloc, status)?;
    let rejection = rejection.as_str();
    Ok(format!(in alloc; "<td class=\"{class}\"><b>{word}</b>{detail}{rejection}</td>")?)
}

// What is shown of a stream's client.
fn client_html(alloc: Global, status: &StreamStatus) -> Result<String, Refusal>
    ensures { IfOk result (λ t. string_bytes t ≡ client_html status.now) }
{
    let node = escaped(alloc, status.node.as_str())?;
    let node = node.as_str();
    let cluster = escaped(alloc, status.cluster.as_str())?;
    let cluster = cluster.as_str();
    let peer = escaped(alloc, status.peer.as_str())?;
    let peer = peer.as_str();
    Ok(format!(in alloc; "<td>{node}</td><td>{cluster}</td><td>{peer}</td>")?)
}

// What is shown of a stream, whose cells are these.
fn row_html(
    alloc: Global,
    stream: u64,
    status: &StreamStatus,
    since: &str,
    cells: &str,
) -> Result<String, Refusal>
    ensures { IfOk result (λ t. string_bytes t ≡ row_html stream status.now since.now cells.now) }
{
    let client = client_html(alloc, status)?;
    let client = client.as_str();
    let variant = variant_word(status.variant);
    Ok(format!(in alloc;
        "<tr><td>{stream}</td>{client}<td>{variant}</td><td>{since}</td>{cells}</tr>\n"
    )?)
}

// The cells of all types of a stream.
fn cells_html(alloc: Global, status: &StreamStatus) -> Result<String, Refusal> {
    let mut cells = String::new(alloc);
    let kinds = [
        TypeName::Cluster,
        TypeName::Endpoint,
        TypeName::Listener,
        TypeName::Route,
        TypeName::Secret,
    ];
    for kind in &kinds {
        let one = status.types.of(*kind);
        let since = utc_text(alloc, one.since)?;
        cells.push_str(cell_html(alloc, one, since.as_str())?.as_str())?;
    }
    Ok(cells)
}

/// The open streams as rows of a table, the first [`MOST_ROWS`] of them, and a last row that says how many aren't shown, if some aren't.
pub fn rows_html(alloc: Global, board: &Board) -> Result<String, Refusal> {
    let mut rows = String::new(alloc);
    let mut count = 0usize;
    for (stream, status) in &board.streams {
        count = count.saturating_add(1);
        if count <= MOST_ROWS {
            let since = utc_text(alloc, status.opened)?;
            let cells = cells_html(alloc, status)?;
            let row = row_html(alloc, *stream, status, since.as_str(), cells.as_str())?;
            rows.push_str(row.as_str())?;
        }
    }
    if count > MOST_ROWS {
        let more = count.saturating_sub(MOST_ROWS);
        let last = format!(in alloc;
            "<tr><td colspan=\"11\">{more} more are not shown</td></tr>\n"
        )?;
        rows.push_str(last.as_str())?;
    }
    Ok(rows)
}
