// Lines of a trace, read from their texts.
ghost use Rattle.std.specs.Prelude.{◌≡◌, ◌≢◌, Ok, Err, IfOk, IfErr, bytes_eq, codes};
ghost use Rattle.std.specs.Str.{IsUtf8};
ghost use Rattle.xds_resource.specs.declared.refusal.Refusal.TheVariants.{OutOfMemory, BadTrace};
ghost use Rattle.xds_resource.specs.Any.{write_type, stamped_write};
ghost use Rattle.xds_message.specs.StampedWrites.{IsSpelledBy};
ghost use Rattle.xds_message.specs.Messages.{SpellsRequest, SpellsResponse};
ghost use Rattle.xds_message.specs.DeltaMessages.{SpellsDeltaRequest, SpellsDeltaResponse};
ghost use Rattle.xds_message.specs.Responses.{response_of, delta_response_of};
ghost use Rattle.xds_check.specs.declared.words.Verb.TheVariants as verbs;
ghost use Rattle.xds_check.specs.Words.{Finds};
ghost use Rattle.xds_check.specs.Texts.{IsJsonOf, SpellsSotwAnswer, SpellsDeltaAnswer, IsRequestOf, IsResponseOf, IsRequestWith, IsRequestOn, IsResponseWith, IsResponseOn, IsLineOf, IsLineWith, IsText, Says};

use crate::answer::Answer;
use crate::asking::Asking;
use crate::line::Line;
use crate::words::{Verb, cut, stream_and_rest, stream_number};
use std::alloc::Global;
use xds_message::{
    DeltaDiscoveryRequest, DeltaDiscoveryResponse, DiscoveryRequest, DiscoveryResponse, read_write,
};
use xds_resource::{AnyWrite, Refusal, TypeName};

// Whether a text is this word.
fn is_word(text: &str, word: &str) -> bool
    ensures { result ≡ bytes_eq text.now word.now }
{
    text == word
}

// Whatever a message is refused by, but for memory, makes a bad line.
fn in_line<X: Drop>(read: Result<X, Refusal>) -> Result<X, Refusal>
    ensures ok { IfOk result (λ x. read ≡ Ok x) }
    ensures refused { IfErr result (λ e. e ≢ OutOfMemory
        → (e ≡ BadTrace) × IfOk read (λ _. ⊥) × IfErr read (λ f. f ≢ OutOfMemory)) }
{
    match read {
        Ok(value) => Ok(value),
        Err(Refusal::OutOfMemory) => Err(Refusal::OutOfMemory),
        Err(_) => Err(Refusal::BadTrace),
    }
}

fn write_in(alloc: Global, json: &str) -> Result<AnyWrite, Refusal>
    ensures { Finds (λ w. (write_type w, stamped_write w)) (IsJsonOf IsSpelledBy json.now) result }
{
    in_line(read_write(alloc, json.as_bytes()))
}

fn sotw_request(alloc: Global, json: &str) -> Result<DiscoveryRequest, Refusal>
    ensures { Finds (λ m. m) (IsJsonOf SpellsRequest json.now) result }
{
    in_line(DiscoveryRequest::read(alloc, json.as_bytes()))
}

fn delta_request(alloc: Global, json: &str) -> Result<DeltaDiscoveryRequest, Refusal>
    ensures { Finds (λ m. m) (IsJsonOf SpellsDeltaRequest json.now) result }
{
    in_line(DeltaDiscoveryRequest::read(alloc, json.as_bytes()))
}

fn sotw_response(alloc: Global, json: &str) -> Result<DiscoveryResponse, Refusal>
    ensures { Finds response_of (IsJsonOf SpellsResponse json.now) result }
{
    in_line(DiscoveryResponse::read(alloc, json.as_bytes()))
}

fn delta_response(alloc: Global, json: &str) -> Result<DeltaDiscoveryResponse, Refusal>
    ensures { Finds delta_response_of (IsJsonOf SpellsDeltaResponse json.now) result }
{
    in_line(DeltaDiscoveryResponse::read(alloc, json.as_bytes()))
}

fn write_line(alloc: Global, rest: &str) -> Result<Line, Refusal>
    ensures { Finds (λ l. l) (IsLineOf verbs.Write rest.now) result }
{
    match write_in(alloc, rest) {
        Ok(write) => Ok(Line::Write(write)),
        Err(refusal) => Err(refusal),
    }
}

fn open_line(rest: &str) -> Result<Line, Refusal>
    ensures { Finds (λ l. l) (IsLineOf verbs.Open rest.now) result }
{
    match stream_number(rest) {
        Some(stream) => Ok(Line::Open(stream)),
        None => Err(Refusal::BadTrace),
    }
}

fn close_line(rest: &str) -> Result<Line, Refusal>
    ensures { Finds (λ l. l) (IsLineOf verbs.Close rest.now) result }
{
    match stream_number(rest) {
        Some(stream) => Ok(Line::Close(stream)),
        None => Err(Refusal::BadTrace),
    }
}

fn sotw_asking(alloc: Global, json: &str) -> Result<Asking, Refusal>
    ensures { Finds (λ m. m) (IsRequestOf (codes "1") json.now) result }
{
    match sotw_request(alloc, json) {
        Ok(request) => Ok(Asking::Sotw(request)),
        Err(refusal) => Err(refusal),
    }
}

fn delta_asking(alloc: Global, json: &str) -> Result<Asking, Refusal>
    ensures { Finds (λ m. m) (IsRequestOf (codes "3") json.now) result }
{
    match delta_request(alloc, json) {
        Ok(request) => Ok(Asking::Delta(request)),
        Err(refusal) => Err(refusal),
    }
}

// The request of a kind.
fn asking(alloc: Global, kind: &str, json: &str) -> Result<Asking, Refusal>
    ensures { Finds (λ m. m) (IsRequestOf kind.now json.now) result }
{
    if is_word(kind, "1") {
        return sotw_asking(alloc, json);
    }
    if is_word(kind, "3") {
        return delta_asking(alloc, json);
    }
    Err(Refusal::BadTrace)
}

fn request_with(alloc: Global, stream: u64, kind: &str, json: &str) -> Result<Line, Refusal>
    ensures { Finds (λ l. l) (IsRequestWith stream kind.now json.now) result }
{
    match asking(alloc, kind, json) {
        Ok(request) => Ok(Line::Request(stream, request)),
        Err(refusal) => Err(refusal),
    }
}

fn request_of(alloc: Global, stream: u64, behind: &str) -> Result<Line, Refusal>
    ensures { Finds (λ l. l) (IsRequestOn stream behind.now) result }
{
    match cut(behind) {
        Some((kind, json)) => request_with(alloc, stream, kind, json),
        None => Err(Refusal::BadTrace),
    }
}

fn request_line(alloc: Global, rest: &str) -> Result<Line, Refusal>
    ensures { Finds (λ l. l) (IsLineOf verbs.Request rest.now) result }
{
    match stream_and_rest(rest) {
        Some((stream, behind)) => request_of(alloc, stream, behind),
        None => Err(Refusal::BadTrace),
    }
}

fn sotw_answer(alloc: Global, json: &str) -> Result<Answer, Refusal>
    ensures { Finds (λ a. a) (IsJsonOf SpellsSotwAnswer json.now) result }
{
    match sotw_response(alloc, json) {
        Ok(response) => Answer::of_sotw(alloc, response),
        Err(refusal) => Err(refusal),
    }
}

fn delta_answer(alloc: Global, json: &str) -> Result<Answer, Refusal>
    ensures { Finds (λ a. a) (IsJsonOf SpellsDeltaAnswer json.now) result }
{
    match delta_response(alloc, json) {
        Ok(response) => Answer::of_delta(alloc, response),
        Err(refusal) => Err(refusal),
    }
}

fn sotw_of_kind(alloc: Global, json: &str) -> Result<Answer, Refusal>
    ensures { Finds (λ a. a) (IsResponseOf (codes "2") json.now) result }
{
    sotw_answer(alloc, json)
}

fn delta_of_kind(alloc: Global, json: &str) -> Result<Answer, Refusal>
    ensures { Finds (λ a. a) (IsResponseOf (codes "4") json.now) result }
{
    delta_answer(alloc, json)
}

// The response of a kind.
fn answer(alloc: Global, kind: &str, json: &str) -> Result<Answer, Refusal>
    ensures { Finds (λ a. a) (IsResponseOf kind.now json.now) result }
{
    if is_word(kind, "2") {
        return sotw_of_kind(alloc, json);
    }
    if is_word(kind, "4") {
        return delta_of_kind(alloc, json);
    }
    Err(Refusal::BadTrace)
}

fn response_with(alloc: Global, stream: u64, kind: &str, json: &str) -> Result<Line, Refusal>
    ensures { Finds (λ l. l) (IsResponseWith stream kind.now json.now) result }
{
    match answer(alloc, kind, json) {
        Ok(response) => Ok(Line::Response(stream, response)),
        Err(refusal) => Err(refusal),
    }
}

fn response_of(alloc: Global, stream: u64, behind: &str) -> Result<Line, Refusal>
    ensures { Finds (λ l. l) (IsResponseOn stream behind.now) result }
{
    match cut(behind) {
        Some((kind, json)) => response_with(alloc, stream, kind, json),
        None => Err(Refusal::BadTrace),
    }
}

fn response_line(alloc: Global, rest: &str) -> Result<Line, Refusal>
    ensures { Finds (λ l. l) (IsLineOf verbs.Response rest.now) result }
{
    match stream_and_rest(rest) {
        Some((stream, behind)) => response_of(alloc, stream, behind),
        None => Err(Refusal::BadTrace),
    }
}

fn idle_line(rest: &str) -> Result<Line, Refusal>
    ensures { Finds (λ l. l) (IsLineOf verbs.Idle rest.now) result }
{
    let Some((stream, word)) = stream_and_rest(rest) else {
        return Err(Refusal::BadTrace);
    };
    match TypeName::from_word(word) {
        Some(kind) => Ok(Line::Idle(stream, kind)),
        None => Err(Refusal::BadTrace),
    }
}

// What the verb says with the text behind it.
fn line_behind(alloc: Global, verb: Verb, rest: &str) -> Result<Line, Refusal>
    ensures { Finds (λ l. l) (IsLineOf verb rest.now) result }
{
    match verb {
        Verb::Write => write_line(alloc, rest),
        Verb::Open => open_line(rest),
        Verb::Close => close_line(rest),
        Verb::Request => request_line(alloc, rest),
        Verb::Response => response_line(alloc, rest),
        Verb::Idle => idle_line(rest),
    }
}

// What the first word says with the text behind it.
fn line_of(alloc: Global, word: &str, rest: &str) -> Result<Line, Refusal>
    ensures { Finds (λ l. l) (IsLineWith word.now rest.now) result }
{
    match Verb::from_word(word) {
        Some(verb) => line_behind(alloc, verb, rest),
        None => Err(Refusal::BadTrace),
    }
}

fn line_in(alloc: Global, text: &str) -> Result<Line, Refusal>
    ensures { Finds (λ l. l) (IsText text.now) result }
{
    match cut(text) {
        Some((word, rest)) => line_of(alloc, word, rest),
        None => Err(Refusal::BadTrace),
    }
}

/// What a line says, its line feed aside. Refused by `BadTrace` where it says nothing, and by `OutOfMemory`.
pub fn read_line(alloc: Global, line: &[u8]) -> Result<Line, Refusal>
    ensures { Finds (λ l. l) (Says line.now) result }
{
    match str::from_utf8(line) {
        Ok(text) => line_in(alloc, text),
        Err(_) => Err(Refusal::BadTrace),
    }
}
