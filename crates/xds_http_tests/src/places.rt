// Connections past the most that there may be: one over which no head has come gives way.
use crate::server::{answers, begun, read_all, started_for, tells, written};
use std::alloc::Global;
use std::io::{Read, Write};
use std::net::{SocketAddr, TcpStream};
use std::test::Fail;

const POLL: &str = "POST /v3/discovery:clusters {\"versionInfo\":\"1.1\"}";

// A part of a head.
const HALF: &[u8] = b"POST /v3/discovery:clusters HTTP/1.1\r\nhost:";

// That the server closes a connection, and says nothing.
fn is_closed(alloc: Global, socket: TcpStream) -> Result<(), Fail> {
    if read_all(alloc, socket)?.is_empty() {
        return Ok(());
    }
    Err(Fail::new(format_args!("it was answered")))
}

// Two half heads hold all places; the older gives way to a poll, and the other goes on.
fn half_heads_give_way(rt: &HostRuntime, server: SocketAddr) -> Result<(), Fail> {
    let alloc = rt.alloc();
    let older = begun(rt, server, HALF)?;
    let newer = begun(rt, server, HALF)?;
    let poll = written(alloc, POLL, true)?;
    answers(rt, server, poll.as_str().as_bytes(), "304", "a poll")?;
    is_closed(alloc, older)?;
    answers(rt, server, poll.as_str().as_bytes(), "304", "a poll more")?;
    drop(newer);
    Ok(())
}

#[test]
fn the_oldest_half_head_gives_way(rt: HostRuntime) -> Result<(), Fail> {
    let server = started_for(&rt, 2)?;
    half_heads_give_way(&rt, server)
}

// A connection over which a poll was answered, and which is kept.
fn answered_and_kept(rt: &HostRuntime, server: SocketAddr, poll: &str) -> Result<TcpStream, Fail> {
    let mut socket = begun(rt, server, poll.as_bytes())?;
    let mut head = [0u8; 12];
    socket.read_exact(&mut head)?;
    Ok(socket)
}

// That the rest of an answer, and a further poll's, come over a connection.
fn tells_more(alloc: Global, socket: TcpStream) -> Result<(), Fail> {
    let mut socket = socket;
    let last = written(alloc, POLL, true)?;
    socket.write_all(last.as_str().as_bytes())?;
    tells(alloc, socket, "304", "a poll more")
}

// Two connections over which requests have come hold all places; a third is closed.
fn asked_connections_stay(rt: &HostRuntime, server: SocketAddr) -> Result<(), Fail> {
    let alloc = rt.alloc();
    let poll = written(alloc, POLL, false)?;
    let one = answered_and_kept(rt, server, poll.as_str())?;
    let other = answered_and_kept(rt, server, poll.as_str())?;
    let third = begun(rt, server, b"")?;
    is_closed(alloc, third)?;
    tells_more(alloc, one)?;
    drop(other);
    Ok(())
}

#[test]
fn a_connection_past_those_that_asked_is_closed(rt: HostRuntime) -> Result<(), Fail> {
    let server = started_for(&rt, 2)?;
    asked_connections_stay(&rt, server)
}
