// What a server tells on its error output while it serves.
ghost use Rattle.std.specs.Prelude.{◌≡◌, string_bytes, IfOk};
ghost use Rattle.xds_notes.specs.Notes.{note_line, refused_line, caused_line, long_line, said_line, stamp_line, recording_line, store_line, uncaused_line};
ghost use Rattle.xds_notes.specs.Endings.{fault_line};

use crate::fault::{Fault, LongResponse};
use std::alloc::Global;
use xds_causes::Cause;
use xds_resource::{Refusal, Stamp};
use xds_stats::log_event::LogEvent;
use xds_stats::long_text;

/// Something that is told on the error output, a line each.
#[derive(Drop)]
pub enum Note {
    /// A line of the input, counted from 1, or the change that it says, is refused.
    Refused(u64, Fault),
    /// Something that an operator cares for, and when it was.
    Event(String, LogEvent),
    /// The same, to be told as an object of JSON.
    Json(String, LogEvent),
    /// So many notes had no room, and aren't told.
    Missed(u64),
    /// The recording of a replica's trace ended by a refusal.
    RecordingEnded(u16, Refusal),
    /// What is so of the store, behind a word for it.
    Store(String),
    /// A line without its end.
    Said(String),
}

impl Note {
    /// Its line.
    pub fn line(&self, alloc: Global) -> Result<String, Refusal>
        ensures { IfOk result (λ t. string_bytes t ≡ note_line self.now) }
    {
        match self {
            Note::Refused(line, fault) => refused_line(alloc, *line, *fault),
            Note::Event(time, event) => event.line(alloc, time.as_str()),
            Note::Json(time, event) => event.json(alloc, time.as_str()),
            Note::Missed(count) => missed_line(alloc, *count),
            Note::RecordingEnded(replica, refusal) => recording_line(alloc, *replica, *refusal),
            Note::Store(text) => store_line(alloc, text.as_str()),
            Note::Said(text) => said_line(alloc, text.as_str()),
        }
    }
}

fn store_line(alloc: Global, text: &str) -> Result<String, Refusal>
    ensures { IfOk result (λ t. string_bytes t ≡ store_line text.now) }
{
    Ok(format!(in alloc; "the store {text}\n")?)
}

fn said_line(alloc: Global, text: &str) -> Result<String, Refusal>
    ensures { IfOk result (λ t. string_bytes t ≡ said_line text.now) }
{
    Ok(format!(in alloc; "{text}\n")?)
}

fn missed_line(alloc: Global, count: u64) -> Result<String, Refusal>
    ensures { IfOk result (λ t. string_bytes t ≡ note_line (Note.Missed count)) }
{
    Ok(format!(in alloc; "{count} lines are left out\n")?)
}

fn recording_line(alloc: Global, replica: u16, refusal: Refusal) -> Result<String, Refusal>
    ensures { IfOk result (λ t. string_bytes t ≡ recording_line replica refusal) }
{
    let number = refusal.number();
    let name = refusal.name();
    Ok(format!(in alloc; "recording of replica {replica} ended: {number} {name}\n")?)
}

/// The line of a line of the input that is refused: with what is wrong of it, or would be too long by it, where that is known.
pub fn refused_line(alloc: Global, line: u64, fault: Fault) -> Result<String, Refusal>
    ensures { IfOk result (λ t. string_bytes t ≡ refused_line line fault) }
{
    match fault.cause {
        Some(cause) => caused_line(alloc, line, fault.refusal, cause),
        None => uncaused_line(alloc, line, fault.refusal, fault.long),
    }
}

fn uncaused_line(
    alloc: Global,
    line: u64,
    refusal: Refusal,
    long: Option<LongResponse>,
) -> Result<String, Refusal>
    ensures { IfOk result (λ t. string_bytes t ≡ uncaused_line line refusal long) }
{
    match long {
        Some(long) => long_line(alloc, line, refusal, long),
        None => fault_line(alloc, line, refusal),
    }
}

fn long_line(
    alloc: Global,
    line: u64,
    refusal: Refusal,
    long: LongResponse,
) -> Result<String, Refusal>
    ensures { IfOk result (λ t. string_bytes t ≡ long_line line refusal long) }
{
    let number = refusal.number();
    let name = refusal.name();
    let text = long_text(alloc, long.kind, long.bytes)?;
    let text = text.as_str();
    Ok(format!(in alloc; "line {line}: {number} {name}: {text}\n")?)
}

fn caused_line(alloc: Global, line: u64, refusal: Refusal, cause: Cause) -> Result<String, Refusal>
    ensures { IfOk result (λ t. string_bytes t ≡ caused_line line refusal cause) }
{
    let number = refusal.number();
    let name = refusal.name();
    let text = cause.text(alloc)?;
    let text = text.as_str();
    Ok(format!(in alloc; "line {line}: {number} {name}: {text}\n")?)
}

/// The line of a line of the input that is refused.
pub fn fault_line(alloc: Global, line: u64, refusal: Refusal) -> Result<String, Refusal>
    ensures { IfOk result (λ t. string_bytes t ≡ fault_line line refusal) }
{
    let number = refusal.number();
    let name = refusal.name();
    Ok(format!(in alloc; "line {line}: {number} {name}\n")?)
}

/// The line of a line that was made a write, which has this stamp.
pub fn stamp_line(alloc: Global, line: u64, stamp: Stamp) -> Result<String, Refusal>
    ensures { IfOk result (λ t. string_bytes t ≡ stamp_line line stamp.counter stamp.writer) }
{
    let counter = stamp.counter;
    let writer = stamp.writer;
    Ok(format!(in alloc; "line {line}: {counter}-{writer}\n")?)
}
