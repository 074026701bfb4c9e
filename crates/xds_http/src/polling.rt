// One poll over HTTP.
ghost use Rattle.std.specs.Prelude.{◌≡◌, IfOk, IfErr};
ghost use Rattle.xds_resource.specs.declared.refusal.Refusal.TheVariants.{OutOfMemory};
ghost use Rattle.xds_http.specs.Sent.{IsPostTo, IsPostOf, IsPolled, TellsNothing};

use crate::question::Question;
use crate::told::Told;
use bytes::Bytes;
use futures::future::join;
use futures::{Future, FutureExt, TryFutureExt};
use http_body_util::{BodyExt, Full};
use hyper::client::conn::http1::handshake;
use hyper::{Request, header};
use std::alloc::{AllocGlobal, Global};
use std::hash::RandomState;
use std::io;
use std::net::{Net, SocketAddr};
use std::random::RandomSource;
use std::sync::Wait;
use std::time::{Clock, Duration, Instant};
use tokio::io::{AsyncRead, AsyncWrite};
use tokio::net::TcpStream;
use tokio::runtime::LocalRuntime;
use xds_resource::Refusal;

// Why a call of the system failed.
fn of_system(error: io::Error) -> Refusal
    ensures { TellsNothing result }
{
    match error.kind() {
        io::ErrorKind::OutOfMemory => Refusal::OutOfMemory,
        _ => Refusal::Device,
    }
}

// Why a request over HTTP failed.
fn of_http(error: hyper::Error) -> Refusal
    ensures { TellsNothing result }
{
    if error.is_out_of_memory() {
        Refusal::OutOfMemory
    } else {
        Refusal::Device
    }
}

// A post of a body to a path of a host.
fn post_to(
    alloc: Global,
    host: &str,
    path: &str,
    body: Bytes,
) -> Result<Request<Full<Bytes>>, http::Error>
    ensures { IfOk result (IsPostTo path.now body) }
{
    Request::post(alloc, path)
        .header(header::HOST, host)
        .header(header::CONTENT_TYPE, "application/json")
        .body(Full::new(body))
}

// The post of a question to a server.
fn post(
    alloc: Global,
    server: SocketAddr,
    question: Question,
) -> Result<Request<Full<Bytes>>, Refusal>
    ensures ok { IfOk result (IsPostOf question) }
    ensures err { IfErr result (λ e. e ≡ OutOfMemory) }
{
    let path = question.kind.rest_path();
    let host = format!(in alloc; "{server}")?;
    let body = Bytes::from_string(question.body(alloc)?)?;
    post_to(alloc, host.as_str(), path, body).map_err(|_| Refusal::OutOfMemory)
}

// Sends a request over a connection, and reads the reply whole, until a time, where one is given.
fn exchange<R, I>(
    rt: &R,
    runtime: &mut LocalRuntime,
    io: I,
    request: Request<Full<Bytes>>,
    until: Option<Instant>,
) -> Result<Told, Refusal>
where
    R: Wait + Clock + RandomSource + AllocGlobal,
    I: AsyncRead + AsyncWrite,
    ensures { IfErr result TellsNothing }
{
    let alloc = rt.alloc();
    let keys = RandomState::new(rt).map_err(of_system)?;
    let (mut sender, connection) = handshake(alloc, keys, io).map_err(of_http)?;
    let answer = sender.send_request(request).and_then(move |response| {
        let status = response.status();
        response
            .into_body()
            .collect(alloc)
            .map(move |come| match come {
                Ok(body) => Ok((status, body)),
                Err(e) => Err(e),
            })
    });
    drop(sender);
    let (answered, _ended) = run_until(rt, runtime, join(answer, connection), until)?;
    let (status, body) = answered.map_err(of_http)?;
    Ok(Told {
        status: status.as_u16(),
        body: body.to_bytes()?,
    })
}

// What a future comes to, until a time, where one is given.
fn run_until<R, F>(
    rt: &R,
    runtime: &mut LocalRuntime,
    future: F,
    until: Option<Instant>,
) -> Result<F::Output, Refusal>
where
    R: Wait + Clock + RandomSource + AllocGlobal,
    F: Future + Drop,
    requires { F.can_poll future }
    ensures { IfErr result TellsNothing }
{
    let Some(until) = until else {
        return runtime.block_on(rt, future).map_err(of_system);
    };
    let Ok(timed) = runtime.handle().time().timeout_at(until, future) else {
        return Err(Refusal::OutOfMemory);
    };
    match runtime.block_on(rt, timed) {
        Ok(Ok(come)) => Ok(come),
        Ok(Err(_elapsed)) => Err(Refusal::Device),
        Err(e) => Err(of_system(e)),
    }
}

// A connection to a server, made until a time, where one is given.
fn connected<R>(
    rt: &R,
    runtime: &mut LocalRuntime,
    server: SocketAddr,
    until: Option<Instant>,
) -> Result<TcpStream, Refusal>
where
    R: Wait + Clock + Net + RandomSource + AllocGlobal,
    ensures { IfErr result TellsNothing }
{
    let connect = TcpStream::connect(rt, server, runtime.handle().reactor());
    match run_until(rt, runtime, connect, until) {
        Ok(Ok(socket)) => Ok(socket),
        Ok(Err(e)) => Err(of_system(e)),
        Err(refusal) => Err(refusal),
    }
}

/// What posts a request to a server and tells the reply. [`Connects`] is one.
pub trait PostsRequests {
    ghost use Rattle.std.specs.Prelude.{ℕ, List, Option, Result, IfErr};
    ghost use Rattle.std.specs.declared.net.socket_addr.SocketAddr.{SocketAddr as Server};
    ghost use Rattle.http.specs.declared.request.Request.{Request as Post};
    ghost use Rattle.http_body_util.specs.declared.full.Full.{Full as Whole};
    ghost use Rattle.xds_resource.specs.declared.refusal.Refusal.{Refusal as Cause};
    ghost use Rattle.xds_http.specs.declared.told.Told.{Told as Shown};
    ghost use Rattle.xds_http.specs.Sent.{TellsNothing};

    // How what is told stands to the server, the seconds that are given, if any, and the request that is posted.
    ghost tells: { Server → Option ℕ → Post (Whole (List ℕ)) → Result Shown Cause → Type 0 };

    /// Sends the request of a post to this server, and tells the reply to it. Where seconds are given it gives up once so many have passed,
    /// and else it waits for a server that is silent. Refused is `Device` where it gave up, where the server can't be reached, or its reply
    /// breaks off or is no HTTP; and `OutOfMemory`.
    fn send<R>(
        &self,
        rt: &R,
        server: SocketAddr,
        seconds: Option<u16>,
        request: Request<Full<Bytes>>,
    ) -> Result<Told, Refusal>
    where
        R: Wait + Clock + Net + RandomSource + AllocGlobal,
        ensures tells { tells server seconds request result }
        ensures refused { IfErr result TellsNothing };
}

/// Posts over a connection of its own.
#[derive(Clone, Copy, Debug)]
pub struct Connects;

impl PostsRequests for Connects {
    ghost use Rattle.std.specs.Prelude.{⊤};

    // Nothing is claimed of what goes over a socket.
    ghost tells = { λ _ _ _ _. ⊤ };

    fn send<R>(
        &self,
        rt: &R,
        server: SocketAddr,
        seconds: Option<u16>,
        request: Request<Full<Bytes>>,
    ) -> Result<Told, Refusal>
    where
        R: Wait + Clock + Net + RandomSource + AllocGlobal,
    {
        let Some(seconds) = seconds else {
            return send_until(rt, server, request, None);
        };
        let time = Duration::from_secs(u64::from(seconds));
        let now = Instant::now(rt).map_err(of_system)?;
        send_until(rt, server, request, now.checked_add(time))
    }
}

// Sends a request over a connection of its own, until a time, where one is given.
fn send_until<R>(
    rt: &R,
    server: SocketAddr,
    request: Request<Full<Bytes>>,
    until: Option<Instant>,
) -> Result<Told, Refusal>
where
    R: Wait + Clock + Net + RandomSource + AllocGlobal,
    ensures { IfErr result TellsNothing }
{
    let mut runtime = LocalRuntime::new(rt).map_err(of_system)?;
    let socket = connected(rt, &mut runtime, server, until)?;
    exchange(rt, &mut runtime, socket, request, until)
}

/// One poll of this server by what posts it, within so many seconds where some are given: the request that is posted is the
/// question's, and what is told is what that post is answered. Where there is no memory for the request nothing is posted, and
/// refused is `OutOfMemory`.
pub fn poll_by<R, P: PostsRequests>(
    rt: &R,
    posts: &P,
    server: SocketAddr,
    seconds: Option<u16>,
    question: Question,
) -> Result<Told, Refusal>
where
    R: Wait + Clock + Net + RandomSource + AllocGlobal,
    ensures polled { IsPolled (P.tells server seconds) question result }
    ensures refused { IfErr result TellsNothing }
{
    match post(rt.alloc(), server, question) {
        Ok(request) => posts.send(rt, server, seconds, request),
        Err(refusal) => Err(refusal),
    }
}

/// One poll of a server, over a connection of its own: a post, and its reply. Refused is `Device` where the server can't be
/// reached, or its reply breaks off or is no HTTP, and `OutOfMemory`. It waits for a server that is silent.
pub fn poll<R>(rt: &R, server: SocketAddr, question: Question) -> Result<Told, Refusal>
where
    R: Wait + Clock + Net + RandomSource + AllocGlobal,
    ensures { IfErr result TellsNothing }
{
    poll_by(rt, &Connects, server, None, question)
}
