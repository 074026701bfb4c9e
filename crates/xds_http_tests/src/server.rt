// A server over a socket, and a client that writes what it is told to.
ghost use Rattle.std.specs.Prelude.{◌≡◌};

use crate::asked::Asked;
use std::alloc::{AllocGlobal, Global};
use std::io::{Read, Write};
use std::marker::Brand;
use std::net::{Ipv4Addr, Net, SocketAddr, TcpListener, TcpStream};
use std::random::RandomSource;
use std::sync::{Arc, Wait};
use std::test::Fail;
use std::thread;
use std::thread::Threads;
use std::time::Clock;
use xds_core::{Event, Reply};
use xds_http::{MAX_CONNECTIONS, Seats, serve_some};
use xds_node::{JournalLine, NodeName, Opened, Seat, SharedNode, Unrecorded};
use xds_resource::{AnyResource, Groups, Refusal, TypeName};

// What is looked for in what a call of a node answers. It is told by reference, and dropped by a
// function that doesn't know the type.
trait Answered: Drop {
    fn is_written(&self) -> bool;
}

impl Answered for Result<Result<Reply, Refusal>, Unrecorded> {
    fn is_written(&self) -> bool {
        matches!(self, Ok(Ok(Reply::Written(_))))
    }
}

fn written_by<T: Answered>(answer: T) -> Result<(), Refusal> {
    if answer.is_written() {
        return Ok(());
    }
    Err(Refusal::BadTrace)
}

/// A cluster of this name, put for all.
pub(crate) fn put<N: NodeName, R: Wait>(
    rt: &R,
    alloc: Global,
    node: &SharedNode<N>,
    seat: &mut Seat<N>,
    name: &str,
) -> Result<(), Refusal> {
    let url = TypeName::Cluster.url();
    let text = format!(in alloc; "{{\"@type\":\"{url}\",\"name\":\"{name}\"}}")?;
    let resource = AnyResource::parse(alloc, text.as_str())?;
    written_by(node.call(rt, seat, Event::Put(resource, Groups::none())))
}

/// The value, where what was done with it went well.
pub(crate) fn kept<V: Drop, E>(value: V, done: Result<(), E>) -> Result<V, E> {
    match done {
        Ok(()) => Ok(value),
        Err(fault) => Err(fault),
    }
}

// Puts the cluster `a` by a seat that lives no longer.
fn put_a<N: NodeName, R: Wait>(rt: &R, alloc: Global, node: &SharedNode<N>) -> Result<(), Refusal> {
    let mut seat = node.seat(rt)?;
    let done = put(rt, alloc, node, &mut seat, "a");
    drop(seat);
    done
}

/// A node of replica 1, at which the cluster `a` was put.
pub(crate) fn node_with_a<N: NodeName, R: Wait>(
    rt: &R,
    alloc: Global,
    opened: Opened<JournalLine>,
) -> Result<SharedNode<N>, Refusal>
    requires name { opened ≡ N.id }
    requires own { 1 ≡ N.replica }
{
    let node = SharedNode::<N>::new(alloc, opened, 1)?;
    let done = put_a(rt, alloc, &node);
    kept(node, done)
}

// Serves what replies in a thread of its own, until the process ends, over so many connections at
// most.
fn serve_in_thread<R, A>(
    rt: &R,
    listener: TcpListener,
    replies: A,
    connections: usize,
) -> Result<(), Fail>
where
    R: Wait
        + Threads
        + Clock
        + RandomSource
        + AllocGlobal
        + Copy
        + Drop
        + Send
        + Sync
        + Net<Listener = TcpListener, Stream = TcpStream>
        + 'static,
    A: Seats + Drop + Send + Sync + 'static,
    A::Seat: Send,
{
    let shared = Arc::new(rt.alloc(), replies)?;
    let host = *rt;
    let _ = thread::spawn(rt, move || {
        serve_some(&host, listener, shared, connections)
    })?;
    Ok(())
}

// Serves such a node in a thread of its own, at a port that the system picks, until the process
// ends.
fn begin<N, R>(rt: &R, opened: Opened<JournalLine>, connections: usize) -> Result<SocketAddr, Fail>
where
    N: NodeName + Send + Sync + 'static,
    R: Wait
        + Threads
        + Clock
        + RandomSource
        + AllocGlobal
        + Copy
        + Drop
        + Send
        + Sync
        + Net<Listener = TcpListener, Stream = TcpStream>
        + 'static,
    requires name { opened ≡ N.id }
    requires own { 1 ≡ N.replica }
{
    let listener = TcpListener::bind(rt, SocketAddr::from((Ipv4Addr::LOCALHOST, 0)))?;
    let server = listener.local_addr()?;
    let node = node_with_a::<N, R>(rt, rt.alloc(), opened)?;
    serve_in_thread(rt, listener, Asked { node }, connections)?;
    Ok(server)
}

/// Serves a new node of replica 1, at which the cluster `a` was put, until the process ends, and
/// answers where.
pub(crate) fn started<R>(rt: &R) -> Result<SocketAddr, Fail>
where
    R: Wait
        + Threads
        + Clock
        + RandomSource
        + AllocGlobal
        + Copy
        + Drop
        + Send
        + Sync
        + Net<Listener = TcpListener, Stream = TcpStream>
        + 'static,
{
    started_for(rt, MAX_CONNECTIONS)
}

/// The same over so many connections at most.
pub(crate) fn started_for<R>(rt: &R, connections: usize) -> Result<SocketAddr, Fail>
where
    R: Wait
        + Threads
        + Clock
        + RandomSource
        + AllocGlobal
        + Copy
        + Drop
        + Send
        + Sync
        + Net<Listener = TcpListener, Stream = TcpStream>
        + 'static,
{
    let opened = Opened::<JournalLine>::new(rt.alloc())?;
    begin::<Brand, R>(rt, opened, connections)
}

/// Connects, writes these bytes, and leaves the connection open.
pub(crate) fn begun(rt: &HostRuntime, server: SocketAddr, sent: &[u8]) -> Result<TcpStream, Fail> {
    let mut socket = TcpStream::connect(rt, server)?;
    socket.write_all(sent)?;
    Ok(socket)
}

/// All that comes over a connection until the other side closes it.
pub(crate) fn read_all(alloc: Global, socket: TcpStream) -> Result<Vec<u8>, Fail> {
    let mut socket = socket;
    let mut got = Vec::new(alloc);
    socket.read_to_end(&mut got)?;
    Ok(got)
}

// Each response's status, and its body behind a space where it has one.
fn responses(alloc: Global, got: &[u8]) -> Result<String, Fail> {
    let text = std::str::from_utf8(got).ok().ok_or("it is no text")?;
    let mut all = String::new(alloc);
    for response in text.split("HTTP/1.1 ") {
        if let Some((head, body)) = response.split_once("\r\n\r\n") {
            push(&mut all, head, body)?;
        }
    }
    Ok(all)
}

/// That these responses come over a connection until the other side closes it.
pub(crate) fn tells(
    alloc: Global,
    socket: TcpStream,
    wanted: &str,
    given: &str,
) -> Result<(), Fail> {
    let got = read_all(alloc, socket)?;
    let found = responses(alloc, got.as_slice())?;
    same(found.as_str(), wanted, given)
}

/// That these responses come for these bytes over a connection of their own.
pub(crate) fn answers(
    rt: &HostRuntime,
    server: SocketAddr,
    sent: &[u8],
    wanted: &str,
    given: &str,
) -> Result<(), Fail> {
    tells(rt.alloc(), begun(rt, server, sent)?, wanted, given)
}

// Adds a response.
fn push(all: &mut String, head: &str, body: &str) -> Result<(), Fail> {
    if !all.is_empty() {
        all.push(' ')?;
    }
    let (status, _) = head.split_once(' ').ok_or("a response has no status")?;
    all.push_str(status)?;
    if !body.is_empty() {
        all.push(' ')?;
        all.push_str(body)?;
    }
    Ok(())
}

/// The method, the path and the body of a request, `METHOD PATH BODY`.
pub(crate) fn parts(request: &str) -> Result<(&str, &str, &str), Fail> {
    let (method, rest) = request.split_once(' ').ok_or("a request has no path")?;
    let (path, body) = rest.split_once(' ').unwrap_or((rest, ""));
    Ok((method, path, body))
}

/// A request as it is sent, and whether it is the last of its connection.
pub(crate) fn written(alloc: Global, request: &str, last: bool) -> Result<String, Fail> {
    let (method, path, body) = parts(request)?;
    let connection = if last { "close" } else { "keep-alive" };
    let length = body.len();
    Ok(format!(in alloc;
        "{method} {path} HTTP/1.1\r\nhost: h\r\nconnection: {connection}\r\n\
         content-length: {length}\r\n\r\n{body}"
    )?)
}

/// Fails unless what is told is what is wanted.
pub(crate) fn same(found: &str, wanted: &str, given: &str) -> Result<(), Fail> {
    if found == wanted {
        Ok(())
    } else {
        Err(Fail::new(format_args!("{found} and not {wanted}, at {given}")))
    }
}
