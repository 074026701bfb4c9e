// Why a line of a trace is bad.
ghost use Rattle.std.specs.Prelude.{◌≡◌, ◌&&◌, ◌++◌, true, false, nat_le, IfOk, IfErr, codes, string_bytes};
ghost use Rattle.xds_resource.specs.declared.refusal.Refusal.TheVariants.{OutOfMemory};
ghost use Rattle.xds_check.specs.Words.{max_stream};
ghost use Rattle.xds_causes.specs.Told.{quoted};
ghost use Rattle.xds_causes.specs.ToldLines.{IsBehindTold, IsKindTold, IsSpokenTold, IsTraceTold, IsUnsaidTold, IsWordTold, behind, first_word, idle_text, is_stream, kind_text, message_of, not_stream_text, numbers_text, order_text, stream_text, variant_text};

use crate::messages::{Message, message_cause, said};
use std::alloc::Global;
use std::str;
use xds_check::words::{MAX_STREAM, Verb};
use xds_check::{Line, read_line};
use xds_resource::{Refusal, TypeName, decimal_number};

/// What is wrong of a line of a trace, its line feed aside, in words. Refused only by `OutOfMemory`.
pub fn trace_cause(alloc: Global, line: &[u8]) -> Result<String, Refusal>
    ensures told { IfOk result (λ t. IsTraceTold line.now (string_bytes t)) }
    ensures refused { IfErr result (λ e. e ≡ OutOfMemory) }
{
    match read_line(alloc, line) {
        Ok(line) => order_cause(alloc, &line),
        Err(Refusal::OutOfMemory) => Err(Refusal::OutOfMemory),
        Err(_) => unsaid_cause(alloc, line),
    }
}

// What is told of a line that says nothing.
fn unsaid_cause(alloc: Global, line: &[u8]) -> Result<String, Refusal>
    ensures told { IfOk result (λ t. IsUnsaidTold line.now (string_bytes t)) }
    ensures refused { IfErr result (λ e. e ≡ OutOfMemory) }
{
    match str::from_utf8(line) {
        Ok(text) => text_cause(alloc, text),
        Err(_) => said(alloc, "not UTF-8"),
    }
}

// What is told of a line that says something, and may not stand where it does.
fn order_cause(alloc: Global, line: &Line) -> Result<String, Refusal>
    ensures told { IfOk result (λ t. string_bytes t ≡ order_text line.now) }
    ensures refused { IfErr result (λ e. e ≡ OutOfMemory) }
{
    match line {
        Line::Write(_) => Ok(String::new(alloc)),
        Line::Open(stream) => told_of(alloc, *stream, "was opened before"),
        Line::Close(stream) => told_of(alloc, *stream, "isn't open"),
        Line::Idle(stream, _) => told_of(alloc, *stream, "isn't open"),
        Line::Request(stream, _) => told_of(
            alloc,
            *stream,
            "isn't open, or speaks the other variant of the protocol",
        ),
        Line::Response(stream, _) => told_of(
            alloc,
            *stream,
            "isn't open, or speaks the other variant of the protocol",
        ),
    }
}

// What is told of a stream.
fn told_of(alloc: Global, stream: u64, what: &str) -> Result<String, Refusal>
    ensures told { IfOk result (λ t. string_bytes t ≡ stream_text stream what.now) }
    ensures refused { IfErr result (λ e. e ≡ OutOfMemory) }
{
    Ok(format!(in alloc; "stream {stream} {what}")?)
}

// What is wrong of a text that is no line.
fn text_cause(alloc: Global, text: &str) -> Result<String, Refusal>
    ensures told { IfOk result (λ t. IsWordTold text.now (string_bytes t)) }
    ensures refused { IfErr result (λ e. e ≡ OutOfMemory) }
{
    let (word, rest) = parted(text);
    match Verb::from_word(word) {
        Some(verb) => behind_cause(alloc, verb, rest),
        None => unknown_word(alloc, word),
    }
}

// What is told of a word that no line begins with.
fn unknown_word(alloc: Global, word: &str) -> Result<String, Refusal>
    ensures told { IfOk result (λ t. string_bytes t
        ≡ quoted word.now ++ codes " is none of write, open, close, request, response and idle") }
    ensures refused { IfErr result (λ e. e ≡ OutOfMemory) }
{
    Ok(format!(in alloc; "\"{word}\" is none of write, open, close, request, response and idle")?)
}

// What is wrong of what stands behind the first word.
fn behind_cause(alloc: Global, verb: Verb, rest: &str) -> Result<String, Refusal>
    ensures told { IfOk result (λ t. IsBehindTold verb rest.now (string_bytes t)) }
    ensures refused { IfErr result (λ e. e ≡ OutOfMemory) }
{
    match verb {
        Verb::Write => message_cause(alloc, rest.as_bytes(), Message::Write),
        Verb::Open => stream_cause(alloc, rest),
        Verb::Close => stream_cause(alloc, rest),
        Verb::Idle => idle_cause(alloc, rest),
        Verb::Request => spoken_cause(alloc, rest, true),
        Verb::Response => spoken_cause(alloc, rest, false),
    }
}

// The first word of a text, and what stands behind it.
pub(crate) fn parted(text: &str) -> (&str, &str)
    ensures { (result.0.now ≡ first_word text.now) × (result.1.now ≡ behind text.now) }
{
    match text.split_once(' ') {
        Some((word, rest)) => (word, rest),
        None => (text, ""),
    }
}

// Whether a word is the number of a stream.
fn is_stream(word: &str) -> bool
    ensures { result ≡ is_stream word.now }
{
    match decimal_number(word) {
        Some(number) => is_within(number),
        None => false,
    }
}

// Whether a stream may have this number.
fn is_within(number: u64) -> bool
    ensures { result ≡ (nat_le 1 number && nat_le number max_stream) }
{
    number >= 1 && number <= MAX_STREAM
}

// What is told of a word that is no number of a stream.
fn stream_cause(alloc: Global, word: &str) -> Result<String, Refusal>
    ensures told { IfOk result (λ t. string_bytes t ≡ not_stream_text word.now) }
    ensures refused { IfErr result (λ e. e ≡ OutOfMemory) }
{
    Ok(format!(in alloc; "\"{word}\" isn't the number of a stream, from 1")?)
}

fn idle_cause(alloc: Global, rest: &str) -> Result<String, Refusal>
    ensures told { IfOk result (λ t. string_bytes t ≡ idle_text rest.now) }
    ensures refused { IfErr result (λ e. e ≡ OutOfMemory) }
{
    let (word, kind) = parted(rest);
    if is_stream(word) {
        kind_cause(alloc, kind)
    } else {
        stream_cause(alloc, word)
    }
}

// What is told of a word that is that of no type.
fn kind_cause(alloc: Global, kind: &str) -> Result<String, Refusal>
    ensures told { IfOk result (λ t. string_bytes t ≡ kind_text kind.now) }
    ensures refused { IfErr result (λ e. e ≡ OutOfMemory) }
{
    match TypeName::from_word(kind) {
        Some(_) => Ok(String::new(alloc)),
        None => no_kind(alloc, kind),
    }
}

// That a word is that of no type.
fn no_kind(alloc: Global, kind: &str) -> Result<String, Refusal>
    ensures told { IfOk result (λ t. string_bytes t
        ≡ quoted kind.now ++ codes " is none of cluster, endpoint, listener, route and secret") }
    ensures refused { IfErr result (λ e. e ≡ OutOfMemory) }
{
    Ok(format!(in alloc; "\"{kind}\" is none of cluster, endpoint, listener, route and secret")?)
}

// What is wrong of what stands behind `request` or `response`.
fn spoken_cause(alloc: Global, rest: &str, is_request: bool) -> Result<String, Refusal>
    ensures told { IfOk result (λ t. IsSpokenTold rest.now is_request (string_bytes t)) }
    ensures refused { IfErr result (λ e. e ≡ OutOfMemory) }
{
    let (word, behind) = parted(rest);
    if is_stream(word) {
        kind_of_cause(alloc, behind, is_request)
    } else {
        stream_cause(alloc, word)
    }
}

// What is wrong of the number of a message and of what stands behind it.
fn kind_of_cause(alloc: Global, rest: &str, is_request: bool) -> Result<String, Refusal>
    ensures told { IfOk result (λ t. IsKindTold rest.now is_request (string_bytes t)) }
    ensures refused { IfErr result (λ e. e ≡ OutOfMemory) }
{
    let (kind, json) = parted(rest);
    match message_of(kind, is_request) {
        Some(message) => message_cause(alloc, json.as_bytes(), message),
        None => variant_cause(alloc, kind, is_request),
    }
}

// The message that a number says, in a request or in a response.
fn message_of(kind: &str, is_request: bool) -> Option<Message>
    ensures { result ≡ message_of kind.now is_request }
{
    if is_request {
        asked_by(kind)
    } else {
        answered_by(kind)
    }
}

fn asked_by(kind: &str) -> Option<Message>
    ensures { result ≡ message_of kind.now true }
{
    if kind == "1" {
        return Some(Message::Request);
    }
    if kind == "3" {
        return Some(Message::DeltaRequest);
    }
    None
}

fn answered_by(kind: &str) -> Option<Message>
    ensures { result ≡ message_of kind.now false }
{
    if kind == "2" {
        return Some(Message::Response);
    }
    if kind == "4" {
        return Some(Message::DeltaResponse);
    }
    None
}

// What is told of a number that says no message.
fn variant_cause(alloc: Global, kind: &str, is_request: bool) -> Result<String, Refusal>
    ensures told { IfOk result (λ t. string_bytes t ≡ variant_text kind.now is_request) }
    ensures refused { IfErr result (λ e. e ≡ OutOfMemory) }
{
    let known = numbers_text(is_request);
    Ok(format!(in alloc; "\"{kind}\" isn't the number {known}")?)
}

fn numbers_text(is_request: bool) -> &'static str
    ensures { result.now ≡ numbers_text is_request }
{
    if is_request {
        "of a request: 1, or 3 of the delta variant"
    } else {
        "of a response: 2, or 4 of the delta variant"
    }
}
