// What is told in words of what is refused.
ghost use Rattle.std.specs.Prelude.{◌≡◌, IfOk, IfErr, Some, string_bytes};
ghost use Rattle.xds_program.specs.SoFar.{cut_text};

use crate::gathering::Looked;
use crate::judge::Unjudged;
use crate::tail::nth_line;
use std::alloc::Global;
use std::mem;
use xds_causes::{LineFault, Message, message_cause, script_cause, trace_cause};
use xds_resource::Refusal;

/// Leaves a cause in place of another.
pub(crate) fn put(cause: &mut String, text: String)
    ensures { string_bytes cause.new ≡ string_bytes text }
{
    drop(mem::replace(cause, text));
}

// The text, if there was memory for it.
fn found(alloc: Global, text: Result<String, Refusal>) -> String {
    match text {
        Ok(text) => text,
        Err(_) => String::new(alloc),
    }
}

fn said(alloc: Global, text: &str) -> String {
    match String::from_str(alloc, text) {
        Ok(text) => text,
        Err(_) => String::new(alloc),
    }
}

/// That the input can't be read, where that is the refusal.
pub(crate) fn unread(alloc: Global, refusal: Refusal) -> String {
    match refusal {
        Refusal::Device => said(alloc, "the standard input can't be read"),
        _ => String::new(alloc),
    }
}

/// That the output can't be written, where that is the refusal.
pub(crate) fn unwritten(alloc: Global, refusal: Refusal) -> String {
    match refusal {
        Refusal::Device => said(alloc, "the standard output can't be written"),
        _ => String::new(alloc),
    }
}

/// What is wrong of a line of an input of `xds answer`.
pub(crate) fn bad_line(alloc: Global, fault: LineFault, looked: &Looked) -> String {
    match fault.refusal {
        Refusal::NotJson | Refusal::BadMessage => {
            let line = fault.line;
            let cause = found(alloc, cause_of(alloc, looked));
            found(alloc, behind_line(alloc, line, cause.as_str()))
        }
        _ => String::new(alloc),
    }
}

// The cause of a line that was looked at.
fn cause_of(alloc: Global, looked: &Looked) -> Result<String, Refusal> {
    if looked.is_last() {
        return message_cause(alloc, looked.line(), Message::Request);
    }
    message_cause(alloc, looked.line(), Message::Write)
}

// A cause behind the number of its line, nothing where there is no cause.
fn behind_line(alloc: Global, line: usize, cause: &str) -> Result<String, Refusal> {
    if cause.is_empty() {
        return Ok(String::new(alloc));
    }
    Ok(format!(in alloc; "line {line}: {cause}")?)
}

/// Why a request isn't answered, where its type is the reason.
pub(crate) fn unasked(alloc: Global, is_none: bool, looked: &Looked) -> String {
    if !is_none {
        return String::new(alloc);
    }
    found(alloc, message_cause(alloc, looked.line(), Message::Request))
}

/// What is wrong of a line of a script.
pub(crate) fn script_line(alloc: Global, script: &[u8], line: usize) -> String {
    let Some(text) = nth_line(alloc, script, line.saturating_sub(1)) else {
        return String::new(alloc);
    };
    let cause = found(alloc, script_cause(alloc, text.as_slice()));
    found(alloc, behind_line(alloc, line, cause.as_str()))
}

/// That a trace has no lines, where it has none.
pub(crate) fn no_lines(alloc: Global, is_empty: bool) -> String {
    if is_empty {
        return said(alloc, "the trace has no lines");
    }
    String::new(alloc)
}

/// What is wrong of a line of a trace that is ended; or that the trace ends within the line.
pub(crate) fn bad_trace(alloc: Global, text: Option<&[u8]>, line: usize) -> String {
    match text {
        Some(text) => {
            let cause = found(alloc, trace_cause(alloc, text));
            found(alloc, behind_line(alloc, line, cause.as_str()))
        }
        None => found(alloc, ends_within(alloc, line)),
    }
}

// That a trace ends within a line.
fn ends_within(alloc: Global, line: usize) -> Result<String, Refusal> {
    Ok(format!(in alloc; "the trace ends within line {line}; --so-far judges the lines before it")?)
}

/// The same, of a trace that was read whole.
pub(crate) fn bad_trace_in(alloc: Global, trace: &[u8], line: usize) -> String {
    let Some(text) = nth_line(alloc, trace, line.saturating_sub(1)) else {
        return String::new(alloc);
    };
    if trace.ends_with(b"\n") || has_line_behind(trace, line) {
        return bad_trace(alloc, Some(text.as_slice()), line);
    }
    bad_trace(alloc, None, line)
}

// Whether a line stands behind the line of this number.
fn has_line_behind(trace: &[u8], line: usize) -> bool {
    let mut feeds = 0usize;
    for byte in trace {
        if *byte == b'\n' {
            feeds = feeds.saturating_add(1);
        }
    }
    feeds >= line
}

/// What is told of lines that are judged, where the line behind them isn't whole; nothing of a whole trace.
pub(crate) fn cut_text(alloc: Global, cut: Option<usize>) -> Result<String, Unjudged>
    ensures told { IfOk result (λ t. string_bytes t ≡ cut_text cut) }
    ensures untold { IfErr result (λ e. e ≡ Unjudged.OutOfMemory) }
{
    match cut {
        Some(line) => judged_before(alloc, line),
        None => Ok(String::new(alloc)),
    }
}

fn judged_before(alloc: Global, line: usize) -> Result<String, Unjudged>
    ensures told { IfOk result (λ t. string_bytes t ≡ cut_text (Some line)) }
    ensures untold { IfErr result (λ e. e ≡ Unjudged.OutOfMemory) }
{
    let judged = line.saturating_sub(1);
    match format!(in alloc; "judged {judged} lines; line {line} isn't whole") {
        Ok(text) => Ok(text),
        Err(_) => Err(Unjudged::OutOfMemory),
    }
}
