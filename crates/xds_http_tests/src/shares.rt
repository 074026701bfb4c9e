// Several requests of one connection, several connections at once, and what stands in heads.
use crate::posts::hold;
use crate::server::{answers, begun, read_all, started, tells, written};
use std::alloc::Global;
use std::net::{Shutdown, SocketAddr, TcpStream};
use std::test::Fail;

// Adds a request.
fn push(alloc: Global, all: &mut String, request: &str, last: bool) -> Result<(), Fail> {
    let text = written(alloc, request, last)?;
    Ok(all.push_str(text.as_str())?)
}

// Three requests as one text.
fn three(alloc: Global) -> Result<String, Fail> {
    let mut all = String::new(alloc);
    push(alloc, &mut all, "POST /v3/discovery:secrets {}", false)?;
    push(alloc, &mut all, "GET /", false)?;
    push(
        alloc,
        &mut all,
        "POST /v3/discovery:secrets {\"typeUrl\":\"x\"}",
        true,
    )?;
    Ok(all)
}

// What a poll for secrets is told.
const SECRETS: &str =
    "200 {\"typeUrl\":\"type.googleapis.com/envoy.extensions.transport_sockets.tls.v3.Secret\",\
     \"versionInfo\":\"1.0.named\"}";

fn in_one_go(rt: &HostRuntime, server: SocketAddr) -> Result<(), Fail> {
    let sent = three(rt.alloc())?;
    let wanted = format!(in rt.alloc();
        "{SECRETS} 404 400 {{\"code\":7,\"name\":\"BadMessage\"}}"
    )?;
    let sent = sent.as_str();
    answers(rt, server, sent.as_bytes(), wanted.as_str(), sent)
}

#[test]
fn three_requests_in_one_go_are_answered_in_order(rt: HostRuntime) -> Result<(), Fail> {
    let server = started(&rt)?;
    in_one_go(&rt, server)
}

const HALF_A_HEAD: &[u8] = b"POST /v3/discovery:secrets HTTP/1.1\r\nhost: h\r\nconte";

const HALF_A_BODY: &[u8] =
    b"POST /v3/discovery:secrets HTTP/1.1\r\nhost: h\r\nconnection: close\r\ncontent-length: 2\r\n\
     \r\n{";

// Eight connections with half a head, and eight with half a body.
fn halves(rt: &HostRuntime, server: SocketAddr) -> Result<Vec<TcpStream>, Fail> {
    let mut held = Vec::new(rt.alloc());
    for _ in 0..8 {
        held.push(begun(rt, server, HALF_A_HEAD)?)?;
        held.push(begun(rt, server, HALF_A_BODY)?)?;
    }
    Ok(held)
}

// While half a body stands, requests are answered; and then it is, once its rest has come.
fn beside_half(rt: &HostRuntime, server: SocketAddr) -> Result<(), Fail> {
    let mut waiting = begun(rt, server, HALF_A_BODY)?;
    hold(
        rt,
        server,
        "GET / => 404\n\
         POST /v3/discovery:secrets {} => 200 {\"typeUrl\":\"SDS\",\"versionInfo\":\"1.0.named\"}",
    )?;
    std::io::Write::write_all(&mut waiting, b"}")?;
    tells(rt.alloc(), waiting, SECRETS, "the rest of a body")
}

#[test]
fn half_a_request_holds_up_no_other(rt: HostRuntime) -> Result<(), Fail> {
    let server = started(&rt)?;
    let held = halves(&rt, server)?;
    let done = beside_half(&rt, server);
    drop(held);
    done
}

const CODED: &[u8] = b"POST /v3/discovery:secrets HTTP/1.1\r\nhost: h\r\nconnection: close\r\n\
     transfer-encoding: gzip, chunked\r\n\r\n2\r\n{}\r\n0\r\n\r\n";

const CHUNKED: &[u8] = b"POST /v3/discovery:secrets HTTP/1.1\r\nhost: h\r\nconnection: close\r\n\
     transfer-encoding: Chunked\r\n\r\n1\r\n{\r\n1\r\n}\r\n0\r\n\r\n";

#[test]
fn no_coding_but_chunks_is_taken(rt: HostRuntime) -> Result<(), Fail> {
    let server = started(&rt)?;
    answers(&rt, server, CODED, "501", "gzip")?;
    answers(&rt, server, CHUNKED, SECRETS, "chunks")
}

// All that comes for a request over a connection of its own.
fn replied(rt: &HostRuntime, server: SocketAddr, request: &str) -> Result<Vec<u8>, Fail> {
    let sent = written(rt.alloc(), request, true)?;
    read_all(rt.alloc(), begun(rt, server, sent.as_str().as_bytes())?)
}

// That a text stands in the head of the reply to a request, or that it doesn't.
fn says(
    rt: &HostRuntime,
    server: SocketAddr,
    request: &str,
    field: &str,
    wanted: bool,
) -> Result<(), Fail> {
    let got = replied(rt, server, request)?;
    let text = std::str::from_utf8(got.as_slice())
        .ok()
        .ok_or("it is no text")?;
    if text.contains(field) == wanted {
        return Ok(());
    }
    Err(Fail::new(format_args!("{text}, for {request}")))
}

#[test]
fn heads_say_what_a_body_is_and_which_method_there_is(rt: HostRuntime) -> Result<(), Fail> {
    let server = started(&rt)?;
    let json = "content-type: application/json\r\n";
    let allow = "allow: POST\r\n";
    says(&rt, server, "POST /v3/discovery:secrets {}", json, true)?;
    says(&rt, server, "POST /v3/discovery:secrets {", json, true)?;
    says(&rt, server, "GET /v3/discovery:secrets", allow, true)?;
    says(&rt, server, "GET /v3/discovery:secrets", json, false)?;
    says(&rt, server, "GET /", allow, false)
}

const NO_HOST: &[u8] = b"POST /v3/discovery:secrets HTTP/1.1\r\ncontent-length: 0\r\n\r\n";

const NO_HEAD: &[u8] = b"no head\r\n\r\n";

// Nothing comes where a body breaks off.
fn breaks_off(rt: &HostRuntime, server: SocketAddr) -> Result<(), Fail> {
    let socket = begun(rt, server, HALF_A_BODY)?;
    socket.shutdown(Shutdown::Write)?;
    tells(rt.alloc(), socket, "", "half a body")
}

#[test]
fn no_head_and_no_whole_body_ends_the_connection(rt: HostRuntime) -> Result<(), Fail> {
    let server = started(&rt)?;
    answers(&rt, server, NO_HOST, "400", "no host")?;
    answers(&rt, server, NO_HEAD, "400", "no head")?;
    breaks_off(&rt, server)?;
    hold(&rt, server, "GET / => 404")
}
