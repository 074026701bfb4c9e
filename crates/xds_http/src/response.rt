// Replies as responses over HTTP.
ghost use Rattle.std.specs.Prelude.{◌≡◌, IfOk, string_bytes};
ghost use Rattle.std.specs.Option.{option_map};
ghost use Rattle.xds_polls.specs.Polls.{without_body};
ghost use Rattle.xds_http.specs.Carried.{Carries, CarriesOrNone, piece_of, status_or_fault};

use bytes::Bytes;
use http::HeaderMap;
use http::header::{ALLOW, CONTENT_TYPE, HeaderValue};
use http_body_util::Full;
use hyper::{Response, StatusCode};
use std::alloc::Global;
use xds_polls::HttpReply;
use xds_resource::Refusal;

/// A response with this status alone: no header field and no body. It takes no memory.
pub fn bare(alloc: Global, status: StatusCode) -> Response<Full<Bytes>>
    ensures { Carries result (without_body status) }
{
    let mut response = Response::new(alloc, Full::default());
    *response.status_mut() = status;
    response
}

// A number as a status. One that is none, which no reply has, counts as a fault of the server.
fn status_of(status: u16) -> StatusCode
    ensures { result ≡ status_or_fault status }
{
    match StatusCode::from_u16(status) {
        Ok(status) => status,
        Err(_) => StatusCode::INTERNAL_SERVER_ERROR,
    }
}

// The body of a response, in one piece.
fn body_of_reply(text: Option<String>) -> Result<Full<Bytes>, Refusal>
    ensures { IfOk result (λ b. b.buf ≡ piece_of (option_map string_bytes text)) }
{
    match text {
        Some(text) => Ok(Full::new(Bytes::from_string(text)?)),
        None => Ok(Full::default()),
    }
}

// The header fields of a response: what its body is, and after 405 the method that there is.
fn add_fields(headers: &mut HeaderMap, status: StatusCode, has_body: bool) -> Result<(), Refusal> {
    if has_body {
        let json = HeaderValue::from_static("application/json");
        headers
            .insert(CONTENT_TYPE, json)
            .map_err(|_| Refusal::OutOfMemory)?;
    }
    if status == StatusCode::METHOD_NOT_ALLOWED {
        let post = HeaderValue::from_static("POST");
        headers
            .insert(ALLOW, post)
            .map_err(|_| Refusal::OutOfMemory)?;
    }
    Ok(())
}

// A reply as a response, where there is memory for it.
fn made(alloc: Global, reply: HttpReply) -> Result<Response<Full<Bytes>>, Refusal>
    ensures { IfOk result (λ r. Carries r reply) }
{
    let HttpReply { status, body } = reply;
    let status = status_of(status);
    let has_body = body.is_some();
    let mut response = Response::new(alloc, body_of_reply(body)?);
    *response.status_mut() = status;
    add_fields(response.headers_mut(), status, has_body)?;
    Ok(response)
}

/// A reply as a response over HTTP: a body is JSON, and says so in `content-type`; 405 says in `allow` that there is `POST`. 503
/// without a body where there is no memory for it.
pub fn response_of(alloc: Global, reply: HttpReply) -> Response<Full<Bytes>>
    ensures { CarriesOrNone result reply }
{
    match made(alloc, reply) {
        Ok(response) => response,
        Err(_) => bare(alloc, StatusCode::SERVICE_UNAVAILABLE),
    }
}
