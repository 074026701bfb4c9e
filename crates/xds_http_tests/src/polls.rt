// The client of polls, at a server.
use crate::server::{same, started};
use std::alloc::{AllocGlobal, Global};
use std::io::{Read, Write};
use std::net::{Ipv4Addr, Net, Shutdown, SocketAddr, TcpListener, TcpStream};
use std::random::RandomSource;
use std::sync::Wait;
use std::test::Fail;
use std::thread;
use std::thread::Threads;
use std::time::Clock;
use xds_http::{Question, Told, poll};
use xds_resource::{Refusal, TypeName};

// A poll for clusters, for these names if any, with this version and this cluster.
fn question(alloc: Global, name: &str, version: &str, cluster: &str) -> Result<Question, Refusal> {
    let mut names = Vec::new(alloc);
    if !name.is_empty() {
        names.push(String::from_str(alloc, name)?)?;
    }
    Ok(Question {
        kind: TypeName::Cluster,
        names,
        version: String::from_str(alloc, version)?,
        cluster: String::from_str(alloc, cluster)?,
    })
}

// What is shown of a poll.
fn shown<R>(rt: &R, server: SocketAddr, question: Question) -> Result<Vec<u8>, Refusal>
where
    R: Wait + Clock + Net + RandomSource + AllocGlobal,
{
    let told = poll(rt, server, question)?;
    let text = told.text(rt.alloc());
    drop(told);
    text
}

// Compares what is shown of a poll, which is asked by a name, a version and a cluster.
fn shows<R>(rt: &R, server: SocketAddr, asked: (&str, &str, &str), wanted: &str) -> Result<(), Fail>
where
    R: Wait + Clock + Net + RandomSource + AllocGlobal,
{
    let (name, version, cluster) = asked;
    let text = shown(rt, server, question(rt.alloc(), name, version, cluster)?)?;
    let found = std::str::from_utf8(text.as_slice()).unwrap_or("it is no text");
    same(found, wanted, version)
}

// The same where the cluster `a` is shown, of this version.
fn shows_a<R>(
    rt: &R,
    server: SocketAddr,
    asked: (&str, &str, &str),
    version: &str,
) -> Result<(), Fail>
where
    R: Wait + Clock + Net + RandomSource + AllocGlobal,
{
    let url = TypeName::Cluster.url();
    let wanted = format!(in rt.alloc();
        "200\n{{\"resources\":[{{\"@type\":\"{url}\",\"name\":\"a\"}}],\"typeUrl\":\"{url}\",\
         \"versionInfo\":\"{version}\"}}\n"
    )?;
    shows(rt, server, asked, wanted.as_str())
}

#[test]
fn a_poll_shows_status_and_body(rt: HostRuntime) -> Result<(), Fail> {
    let server = started(&rt)?;
    shows_a(&rt, server, ("", "", ""), "1.1")?;
    shows(&rt, server, ("", "1.1", ""), "304\n")?;
    shows_a(&rt, server, ("a", "1.1", ""), "1.1.named")?;
    shows_a(&rt, server, ("", "1.1", "g1"), "1.1@g1")?;
    shows(&rt, server, ("", "1.1@g1", "g1"), "304\n")
}

// A port at which nobody listens.
fn unused(rt: &HostRuntime) -> Result<SocketAddr, Fail> {
    let listener = TcpListener::bind(rt, SocketAddr::from((Ipv4Addr::LOCALHOST, 0)))?;
    Ok(listener.local_addr()?)
}

#[test]
fn a_server_that_is_not_there_is_refused(rt: HostRuntime) -> Result<(), Fail> {
    let server = unused(&rt)?;
    let told = poll(&rt, server, question(rt.alloc(), "", "", "")?);
    assert!(rt;
        matches!(told, Err(Refusal::Device)),
        "the connection is refused"
    );
    Ok(())
}

// Takes one connection, and answers its request with this text, whatever it is.
fn answer_once(alloc: Global, listener: &TcpListener, reply: &str) {
    let Ok((mut socket, _)) = listener.accept() else {
        return;
    };
    let mut request = [0u8; 512];
    let _ = socket.read(&mut request);
    let _ = socket.write_all(reply.as_bytes());
    let _ = socket.shutdown(Shutdown::Write);
    let mut rest = Vec::new(alloc);
    let _ = socket.read_to_end(&mut rest);
}

// What a poll is told where a server answers so.
fn told_by<R>(rt: &R, reply: &'static str) -> Result<Result<Told, Refusal>, Fail>
where
    R: Wait
        + Threads
        + Clock
        + Net<Listener = TcpListener, Stream = TcpStream>
        + RandomSource
        + AllocGlobal,
{
    let listener = TcpListener::bind(rt, SocketAddr::from((Ipv4Addr::LOCALHOST, 0)))?;
    let server = listener.local_addr()?;
    let alloc = rt.alloc();
    let _ = thread::spawn(rt, move || answer_once(alloc, &listener, reply))?;
    Ok(poll(rt, server, question(alloc, "", "", "")?))
}

// What is shown where a server answers so.
fn shown_by<R>(rt: &R, reply: &'static str) -> Result<Vec<u8>, Fail>
where
    R: Wait
        + Threads
        + Clock
        + Net<Listener = TcpListener, Stream = TcpStream>
        + RandomSource
        + AllocGlobal,
{
    let told = told_by(rt, reply)??;
    let text = told.text(rt.alloc());
    drop(told);
    Ok(text?)
}

// Whether a poll is refused where a server answers so.
fn is_refused<R>(rt: &R, reply: &'static str) -> Result<bool, Fail>
where
    R: Wait
        + Threads
        + Clock
        + Net<Listener = TcpListener, Stream = TcpStream>
        + RandomSource
        + AllocGlobal,
{
    let told = told_by(rt, reply)?;
    let refused = matches!(told, Err(Refusal::Device));
    drop(told);
    Ok(refused)
}

#[test]
fn a_reply_that_is_not_whole_is_refused(rt: HostRuntime) -> Result<(), Fail> {
    let text = shown_by(&rt, "HTTP/1.1 200 OK\r\ncontent-length: 2\r\n\r\nab")?;
    let is_whole = text.as_slice() == b"200\nab\n".as_slice();
    drop(text);
    assert!(rt; is_whole, "a whole reply is told");
    let short = is_refused(&rt, "HTTP/1.1 200 OK\r\ncontent-length: 3\r\n\r\nab")?;
    assert!(rt; short, "it breaks off");
    assert!(rt; is_refused(&rt, "200 OK\r\n\r\nab")?, "it is no HTTP");
    assert!(rt; is_refused(&rt, "")?, "nothing comes");
    Ok(())
}
