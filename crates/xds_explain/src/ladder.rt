// A trace as a ladder in time: the writes that a replica took, the replica, and its streams.
ghost use Rattle.std.specs.Prelude.{◌≡◌, IfOk, IfErr, string_bytes};
ghost use Rattle.xds_resource.specs.declared.refusal.Refusal.TheVariants.{OutOfMemory};
ghost use Rattle.xds_explain.specs.Pictures.{IsSvg};
ghost use Rattle.xds_explain.specs.Rows.{is_write_of, is_shown, shown_places};

use crate::explanation::{first_lines, read_trace};
use crate::labels::{answer_label, asking_label, lane_label, write_label};
use crate::looks::{is_on, stream_of, type_of};
use crate::sheet::{Class, Lane, MOST_ROWS, Row, Sheet};
use std::alloc::Global;
use xds_check::{Asking, Broken, Line};
use xds_resource::{AnyWrite, Refusal, TypeName};

// Where the lanes of writes, of the replica and of the first stream stand, and how far those of streams are apart.
const WRITES: u64 = 110;

const REPLICA: u64 = 440;

const FIRST_STREAM: u64 = 960;

const STREAM_STEP: u64 = 150;

// As many lanes of streams as there are, at most. Further streams share the last one.
const MOST_STREAMS: usize = 8;

/// A picture of a trace, as SVG: of its last [`MOST_ROWS`] lines. Where a rule is broken, only of the broken line and the lines of its
/// stream before it, with the writes of its type. Refused by `BadTrace` where the bytes are no trace up to that line, or have no such
/// line; and by `OutOfMemory`.
pub fn trace_picture(alloc: Global, bytes: &[u8], broken: Option<Broken>) -> Result<String, Refusal>
    ensures svg { IfOk result (λ t. IsSvg (string_bytes t)) }
{
    let bytes = match broken {
        Some(broken) => first_lines(bytes, broken.line),
        None => bytes,
    };
    let trace = read_trace(alloc, bytes)?;
    let drawn = drawn(alloc, trace.lines(), broken);
    drop(trace);
    drawn
}

// The picture of these lines, the last of which is the broken one, if there is one.
fn drawn(alloc: Global, lines: &[Line], broken: Option<Broken>) -> Result<String, Refusal>
    ensures svg { IfOk result (λ t. IsSvg (string_bytes t)) }
{
    let scope = scope_of(lines, broken)?;
    let places = shown_places(alloc, scope, lines)?;
    let left_out = places.len().saturating_sub(MOST_ROWS);
    let streams = streams_of(alloc, lines, &places, left_out)?;
    let sheet = Sheet {
        title: title_of(alloc, broken)?,
        width: stream_at(streams.len().saturating_sub(1)).saturating_add(170),
        lanes: lanes_of(alloc, lines, &streams)?,
        rows: rows_of(alloc, lines, &places, left_out, &streams, broken)?,
        note: note_of(alloc, left_out)?,
    };
    let svg = sheet.svg(alloc);
    drop(sheet);
    svg
}

// The stream and the type of the broken line, if there is one.
fn scope_of(lines: &[Line], broken: Option<Broken>) -> Result<Option<(u64, TypeName)>, Refusal> {
    let Some(broken) = broken else {
        return Ok(None);
    };
    let Some(line) = lines.last() else {
        return Err(Refusal::BadTrace);
    };
    if lines.len() != broken.line {
        return Err(Refusal::BadTrace);
    }
    match (stream_of(line), type_of(line)) {
        (Some(stream), Some(kind)) => Ok(Some((stream, kind))),
        _ => Err(Refusal::BadTrace),
    }
}

// Whether a line is a write of this type.
fn is_write_of(kind: TypeName, line: &Line) -> bool
    ensures { result ≡ is_write_of kind line.now }
{
    match line {
        Line::Write(write) => write.type_name() == kind,
        Line::Open(_)
        | Line::Close(_)
        | Line::Request(_, _)
        | Line::Response(_, _)
        | Line::Idle(_, _) => false,
    }
}

// Whether a line is drawn: all are, or those of a stream with the writes of a type.
fn is_shown(scope: Option<(u64, TypeName)>, line: &Line) -> bool
    ensures { result ≡ is_shown scope line.now }
{
    match scope {
        Some((stream, kind)) => is_on(stream, line) || is_write_of(kind, line),
        None => true,
    }
}

// The places of the lines that are drawn, from 0.
fn shown_places(
    alloc: Global,
    scope: Option<(u64, TypeName)>,
    lines: &[Line],
) -> Result<Vec<usize>, Refusal>
    ensures ok { IfOk result (λ v. v.items ≡ shown_places scope lines.now) }
    ensures refused { IfErr result (λ e. e ≡ OutOfMemory) }
{
    let mut places = Vec::new(alloc);
    for (i, line) in lines.iter().enumerate() {
        if is_shown(scope, line) {
            places.push(i)?;
        }
    }
    Ok(places)
}

// Whether a number is among others.
fn has(numbers: &Vec<u64>, number: u64) -> bool {
    for other in numbers {
        if *other == number {
            return true;
        }
    }
    false
}

// The first streams whose lines are drawn, in the order in which they come.
fn streams_of(
    alloc: Global,
    lines: &[Line],
    places: &Vec<usize>,
    left_out: usize,
) -> Result<Vec<u64>, Refusal> {
    let mut streams = Vec::new(alloc);
    for place in places.iter().skip(left_out) {
        if let Some(line) = lines.get(*place) {
            if let Some(stream) = stream_of(line) {
                if streams.len() < MOST_STREAMS && !has(&streams, stream) {
                    streams.push(stream)?;
                }
            }
        }
    }
    Ok(streams)
}

// How far from the left a lane of a stream stands.
fn stream_at(place: usize) -> u64 {
    (place as u64)
        .saturating_mul(STREAM_STEP)
        .saturating_add(FIRST_STREAM)
}

// How far from the left the lane of a stream stands: its own, or the last.
fn lane_at(streams: &Vec<u64>, stream: u64) -> u64 {
    for (place, other) in streams.iter().enumerate() {
        if *other == stream {
            return stream_at(place);
        }
    }
    stream_at(streams.len().saturating_sub(1))
}

fn title_of(alloc: Global, broken: Option<Broken>) -> Result<String, Refusal> {
    match broken {
        Some(broken) => {
            let number = broken.line;
            let word = broken.rule.word();
            Ok(format!(in alloc;
                "Line {number} breaks {word}: its stream, and the writes of its type"
            )?)
        }
        None => Ok(String::from_str(alloc, "What a replica did, line by line")?),
    }
}

fn note_of(alloc: Global, left_out: usize) -> Result<String, Refusal> {
    if left_out == 0 {
        return Ok(String::new(alloc));
    }
    Ok(format!(in alloc; "{left_out} rows before these are left out")?)
}

fn lane(alloc: Global, x: u64, name: &str) -> Result<Lane, Refusal> {
    Ok(Lane {
        x,
        name: String::from_str(alloc, name)?,
    })
}

fn lanes_of(alloc: Global, lines: &[Line], streams: &Vec<u64>) -> Result<Vec<Lane>, Refusal> {
    let mut lanes = Vec::new(alloc);
    lanes.push(lane(alloc, WRITES, "writes")?)?;
    lanes.push(lane(alloc, REPLICA, "replica")?)?;
    for (place, stream) in streams.iter().enumerate() {
        let name = lane_label(alloc, lines, *stream)?;
        lanes.push(Lane {
            x: stream_at(place),
            name,
        })?;
    }
    Ok(lanes)
}

fn rows_of(
    alloc: Global,
    lines: &[Line],
    places: &Vec<usize>,
    left_out: usize,
    streams: &Vec<u64>,
    broken: Option<Broken>,
) -> Result<Vec<Row>, Refusal> {
    let mut rows = Vec::new(alloc);
    for place in places.iter().skip(left_out) {
        if let Some(line) = lines.get(*place) {
            let number = place.saturating_add(1);
            let row = row_of(alloc, number, streams, line)?;
            rows.push(marked(alloc, row, broken)?)?;
        }
    }
    Ok(rows)
}

// A row, marked where it is that of the broken line.
fn marked(alloc: Global, row: Row, broken: Option<Broken>) -> Result<Row, Refusal> {
    let Some(broken) = broken else {
        return Ok(row);
    };
    if row.number != broken.line {
        return Ok(row);
    }
    let word = broken.rule.word();
    let label = row.label.as_str();
    let label = format!(in alloc; "{word}: {label}")?;
    let Row {
        number,
        from,
        to,
        class: _,
        label: _,
    } = row;
    Ok(Row {
        number,
        from,
        to,
        class: Class::Broken,
        label,
    })
}

fn mark(number: usize, x: u64, label: String) -> Row {
    Row {
        number,
        from: x,
        to: x,
        class: Class::Mark,
        label,
    }
}

// The row of a line.
fn row_of(alloc: Global, number: usize, streams: &Vec<u64>, line: &Line) -> Result<Row, Refusal> {
    match line {
        Line::Write(write) => write_row(alloc, number, write),
        Line::Open(stream) => {
            let label = String::from_str(alloc, "open")?;
            Ok(mark(number, lane_at(streams, *stream), label))
        }
        Line::Close(stream) => {
            let label = String::from_str(alloc, "close")?;
            Ok(mark(number, lane_at(streams, *stream), label))
        }
        Line::Request(stream, asking) => {
            request_row(alloc, number, lane_at(streams, *stream), asking)
        }
        Line::Response(stream, answer) => {
            let label = answer_label(alloc, line, answer)?;
            Ok(told_row(number, lane_at(streams, *stream), Class::Tell, label))
        }
        Line::Idle(stream, kind) => {
            let word = kind.word();
            let label = format!(in alloc; "{word}: nothing is owed")?;
            Ok(told_row(number, lane_at(streams, *stream), Class::Mark, label))
        }
    }
}

fn write_row(alloc: Global, number: usize, write: &AnyWrite) -> Result<Row, Refusal> {
    Ok(Row {
        number,
        from: WRITES,
        to: REPLICA,
        class: if write.body().is_some() {
            Class::Put
        } else {
            Class::Gone
        },
        label: write_label(alloc, write)?,
    })
}

// What a request does.
fn class_of(asking: &Asking) -> Class {
    if asking.nonce().is_empty() {
        return Class::Ask;
    }
    if asking.rejects() {
        Class::No
    } else {
        Class::Yes
    }
}

fn request_row(alloc: Global, number: usize, x: u64, asking: &Asking) -> Result<Row, Refusal> {
    Ok(Row {
        number,
        from: x,
        to: REPLICA,
        class: class_of(asking),
        label: asking_label(alloc, asking)?,
    })
}

// The row of what a stream is told.
fn told_row(number: usize, x: u64, class: Class, label: String) -> Row {
    Row {
        number,
        from: REPLICA,
        to: x,
        class,
        label,
    }
}
