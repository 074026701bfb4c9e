// The page of an operator's port for a browser: one text of HTML without scripts, which has itself loaded again.
use std::alloc::Global;
use xds_resource::{Refusal, TypeName};
use xds_stats::{Numbers, ReplicaSizes, VERSION, escaped};

// What stands before the replicas: after so many seconds a browser loads the page again.
const HEAD: &str =
    "<!doctype html>\n<html lang=\"en\"><head><meta charset=\"utf-8\"><meta http-equiv=\"refresh\" content=\"2\"><title>xds</title>\n<style>\nbody{font:14px sans-serif;margin:1em;color:#222}\ntable{border-collapse:collapse;margin:.5em 0}\ntd,th{border:1px solid #ccc;padding:.2em .5em;text-align:left;vertical-align:top}\n.synced b{color:#060}.pending b{color:#a60}.rejected{background:#fdd}.rejected b{color:#a00}.never b{color:#999;font-weight:normal}\n.back{fill:#f4f4f4}.puts{fill:#246}.responses{fill:#8ac}\nsvg text{font-size:11px}\npre{background:#f4f4f4;padding:.5em}\n</style></head><body>\n";

/// The beginning of the page, at this moment of the wall clock.
pub(crate) fn head_html(alloc: Global, now: &str, replicas: usize) -> Result<String, Refusal> {
    let mut text = String::from_str(alloc, HEAD)?;
    let title = format!(in alloc;
        "<h1>xds {VERSION}: {replicas} replicas</h1>\n<p>at {now}</p>\n"
    )?;
    text.push_str(title.as_str())?;
    Ok(text)
}

/// The heading of a replica.
pub(crate) fn replica_html(alloc: Global, place: u16, number: u16) -> Result<String, Refusal> {
    Ok(format!(in alloc; "<h2>Replica {place} (number {number})</h2>\n")?)
}

/// What a replica holds, where that is known, and what was counted of it.
pub(crate) fn counts_html(
    alloc: Global,
    look: Option<ReplicaSizes>,
    numbers: &Numbers,
) -> Result<String, Refusal> {
    let mut text = String::from_str(
        alloc,
        "<table><tr><th></th><th>resources</th><th>deletions</th><th>changes</th><th>responses</th><th>accepted</th><th>rejected</th></tr>\n",
    )?;
    let kinds = [
        TypeName::Cluster,
        TypeName::Endpoint,
        TypeName::Listener,
        TypeName::Route,
        TypeName::Secret,
    ];
    for kind in &kinds {
        let row = kind_html(alloc, *kind, look, numbers)?;
        text.push_str(row.as_str())?;
    }
    text.push_str("</table>\n")?;
    Ok(text)
}

// A row of a type.
fn kind_html(
    alloc: Global,
    kind: TypeName,
    look: Option<ReplicaSizes>,
    numbers: &Numbers,
) -> Result<String, Refusal> {
    let held = held_html(alloc, kind, look)?;
    let held = held.as_str();
    let counts = numbers.types.of(kind);
    let word = kind.word();
    let responses = counts.responses;
    let acks = counts.acks;
    let nacks = counts.nacks;
    Ok(format!(in alloc;
        "<tr><td>{word}</td>{held}<td>{responses}</td><td>{acks}</td><td>{nacks}</td></tr>\n"
    )?)
}

// What is held of a type, where that is known.
fn held_html(alloc: Global, kind: TypeName, look: Option<ReplicaSizes>) -> Result<String, Refusal> {
    let Some(look) = look else {
        return Ok(String::from_str(alloc, "<td>?</td><td>?</td><td>?</td>")?);
    };
    let held = look.of(kind);
    let resources = held.resources;
    let tombstones = held.tombstones;
    let changes = held.changes;
    Ok(format!(in alloc; "<td>{resources}</td><td>{tombstones}</td><td>{changes}</td>")?)
}

/// The streams of a replica, by their rows.
pub(crate) fn streams_html(alloc: Global, rows: &str) -> Result<String, Refusal> {
    if rows.is_empty() {
        return Ok(String::from_str(alloc, "<p>no stream is open</p>\n")?);
    }
    Ok(format!(in alloc;
        "<table><tr><th>stream</th><th>node</th><th>cluster</th><th>address</th><th>variant</th><th>since</th><th>cluster</th><th>endpoint</th><th>listener</th><th>route</th><th>secret</th></tr>\n{rows}</table>\n"
    )?)
}

/// The lines of changes that were refused last, and the end of the page.
pub(crate) fn tail_html(alloc: Global, refused: &str) -> Result<String, Refusal> {
    if refused.is_empty() {
        return Ok(String::from_str(alloc, "<p>no change was refused</p>\n</body></html>\n")?);
    }
    let refused = escaped(alloc, refused)?;
    let refused = refused.as_str();
    Ok(format!(in alloc;
        "<h2>Refused changes, the last one first</h2>\n<pre>{refused}</pre>\n</body></html>\n"
    )?)
}
