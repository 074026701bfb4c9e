// Looks at the lines of a trace: of which stream and type each is, and which of a stream stand before others.
ghost use Rattle.std.specs.Prelude.{◌≡◌, Some, None, if◌then◌else◌};
ghost use Rattle.std.specs.Option.{option_map};
ghost use Rattle.xds_interest.specs.Interests.{is_star as is_star_of};
ghost use Rattle.xds_explain.specs.Looks.{stream_of, is_on, type_of, nonce_of, nonce_at, request_on, first_request, is_response_on, last_response, used_at};

use xds_check::{Asking, Line};
use xds_resource::TypeName;

// rule: star-covers
/// Whether a text in a request of the type is the star.
pub(crate) fn is_star(kind: TypeName, text: &str) -> bool
    ensures { result ≡ is_star_of kind text.now }
{
    kind.is_complete() && "*" == text
}

/// The stream of a line, if it is of one.
pub(crate) fn stream_of(line: &Line) -> Option<u64>
    ensures { result ≡ stream_of line.now }
{
    match line {
        Line::Write(_) => None,
        Line::Open(stream)
        | Line::Close(stream)
        | Line::Request(stream, _)
        | Line::Response(stream, _)
        | Line::Idle(stream, _) => Some(*stream),
    }
}

/// Whether a line is of this stream.
pub(crate) fn is_on(stream: u64, line: &Line) -> bool
    ensures { result ≡ is_on stream line.now }
{
    match stream_of(line) {
        Some(on) => on == stream,
        None => false,
    }
}

/// The type that a line is about, if it is about one of the table.
pub(crate) fn type_of(line: &Line) -> Option<TypeName>
    ensures { result ≡ type_of line.now }
{
    match line {
        Line::Open(_) | Line::Close(_) => None,
        Line::Write(write) => Some(write.type_name()),
        Line::Request(_, asking) => TypeName::from_url(asking.type_url()),
        Line::Response(_, answer) => Some(answer.kind()),
        Line::Idle(_, kind) => Some(*kind),
    }
}

// The nonce of a response, empty where a line is none.
fn nonce_of(line: &Line) -> &str
    ensures { result.now ≡ nonce_of line.now }
{
    match line {
        Line::Response(_, answer) => answer.nonce(),
        Line::Write(_) | Line::Open(_) | Line::Close(_) | Line::Request(_, _) | Line::Idle(_, _) =>
            "",
    }
}

/// The nonce of the response at a place from 0, empty where there is none.
pub(crate) fn nonce_at(lines: &[Line], at: usize) -> &str
    ensures { result.now ≡ nonce_at lines.now at }
{
    match lines.get(at) {
        Some(line) => nonce_of(line),
        None => "",
    }
}

// The request that a line is on a stream, if it is one.
fn request_on(stream: u64, line: &Line) -> Option<&Asking>
    ensures { option_map (λ m. m.now) result ≡ request_on stream line.now }
{
    match line {
        Line::Request(on, asking) => asking_if(*on == stream, asking),
        Line::Write(_) | Line::Open(_) | Line::Close(_) | Line::Response(_, _) | Line::Idle(_, _) =>
            None,
    }
}

// A request, if it is wanted.
fn asking_if(wanted: bool, asking: &Asking) -> Option<&Asking>
    ensures { option_map (λ m. m.now) result ≡ (if wanted then Some asking.now else None) }
{
    if wanted { Some(asking) } else { None }
}

/// The first request on a stream, and the number of its line, from 1.
pub(crate) fn first_request(stream: u64, lines: &[Line]) -> Option<(usize, &Asking)>
    ensures { option_map (λ p. (p.0, p.1.now)) result ≡ first_request stream lines.now }
{
    for (i, line) in lines.iter().enumerate() {
        if let Some(asking) = request_on(stream, line) {
            return Some((i + 1, asking));
        }
    }
    None
}

// Whether a line is a response on a stream.
fn is_response_on(stream: u64, line: &Line) -> bool
    ensures { result ≡ is_response_on stream line.now }
{
    match line {
        Line::Response(on, _) => *on == stream,
        Line::Write(_) | Line::Open(_) | Line::Close(_) | Line::Request(_, _) | Line::Idle(_, _) =>
            false,
    }
}

/// The number of the last response on a stream, from 1.
pub(crate) fn last_response(stream: u64, lines: &[Line]) -> Option<usize>
    ensures { result ≡ last_response stream lines.now }
{
    let mut last = None;
    for (i, line) in lines.iter().enumerate() {
        if is_response_on(stream, line) {
            last = Some(i + 1);
        }
    }
    last
}

// rule: new-nonce
/// The number of the first response on a stream with this nonce, from 1.
pub(crate) fn used_at(stream: u64, nonce: &str, lines: &[Line]) -> Option<usize>
    ensures { result ≡ used_at stream nonce.now lines.now }
{
    for (i, line) in lines.iter().enumerate() {
        if is_response_on(stream, line) && nonce_of(line) == nonce {
            return Some(i + 1);
        }
    }
    None
}
