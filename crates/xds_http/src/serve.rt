// The server of polls over HTTP.
ghost use Rattle.std.specs.Prelude.{IfSome};

use crate::accept::{HeadSeen, Serves, Tasks};
use crate::replies::Seats;
use crate::service::Rest;
use bytes::Bytes;
use http_body_util::Full;
use hyper::rt::TokioTimer;
use hyper::server::conn::http1::{Builder, Connection};
use std::alloc::{AllocGlobal, Global};
use std::hash::RandomState;
use std::io;
use std::net::Net;
use std::random::RandomSource;
use std::sync::{Arc, Wait};
use std::time::{Clock, Duration};
use tokio::net::{TcpListener, TcpStream};
use tokio::runtime::LocalRuntime;
use tokio::sync::Semaphore;
use tokio::time::{Handle, Sleep};

/// As many connections as are kept open at once. One beyond is closed as soon as it is accepted.
pub const MAX_CONNECTIONS: usize = 1024;

// As many milliseconds as are waited after a connection couldn't be accepted, as where the system has no descriptor left.
const PAUSE_MILLISECONDS: u64 = 10;

// Serves HTTP by what all connections share.
struct Http<R, A> {
    rt: R,
    timers: Handle,
    builder: Builder<TokioTimer<R>>,
    shared: Arc<A>,
}

// Written out: docs/PROVING.md, "Drops".
impl<R: Drop, A: Drop> Drop for Http<R, A> {
    fn drop(self) {
        let Http {
            rt: _,
            timers: _,
            builder: _,
            shared: _,
        } = self;
    }
}

impl<R, A> Serves for Http<R, A>
where
    R: Wait + Clock + AllocGlobal + Copy + Drop,
    A: Seats + Drop,
{
    type Conn = Connection<TcpStream, Rest<R, A>, Full<Bytes>, TokioTimer<R>>;

    fn serve(&self, socket: TcpStream, asked: HeadSeen) -> Option<Self::Conn> {
        let shared = Arc::try_clone(&self.shared).ok()?;
        let timers = self.timers.clone().ok()?;
        let rest = Rest::new(self.rt, timers, shared, asked);
        Some(self.builder.serve_connection(socket, rest))
    }

    fn pause(&self) -> Option<Sleep> {
        pause_of(&self.rt, &self.timers)
    }
}

/// How long to wait after a connection couldn't be accepted; none where that can't be waited for.
pub(crate) fn pause_of<R: Clock>(rt: &R, timers: &Handle) -> Option<Sleep> {
    let pause = Duration::from_millis(PAUSE_MILLISECONDS);
    timers.sleep(rt, pause).ok()
}

// What serves HTTP by a node.
fn http_of<R, A>(rt: &R, timers: &Handle, shared: Arc<A>) -> io::Result<Http<R, A>>
where
    R: Clock + RandomSource + AllocGlobal + Copy + Drop,
    A: Drop,
{
    let keys = RandomState::new(rt)?;
    let timer = TokioTimer::new(*rt, timers.clone()?);
    let timers = timers.clone()?;
    let builder = Builder::new(rt.alloc(), keys).timer(timer);
    Ok(Http {
        rt: *rt,
        timers,
        builder,
        shared,
    })
}

/// As many permits as there may be connections: so many, but no more than [`MAX_CONNECTIONS`].
pub(crate) fn permits(alloc: Global, connections: usize) -> io::Result<Arc<Semaphore>> {
    let permits = Semaphore::new(alloc, connections.min(MAX_CONNECTIONS))?;
    Ok(Arc::new(alloc, permits)?)
}

// The connections of a listener, served by a node.
fn tasks_of<R, A>(
    rt: &R,
    runtime: &LocalRuntime,
    listener: std::net::TcpListener,
    node: Arc<A>,
    connections: usize,
) -> io::Result<Tasks<Http<R, A>>>
where
    R: Wait + Clock + RandomSource + AllocGlobal + Copy + Drop,
    A: Seats + Drop,
{
    let http = http_of(rt, runtime.handle().time(), node)?;
    let permits = permits(rt.alloc(), connections)?;
    let listener = TcpListener::from_std(listener, runtime.handle().reactor())?;
    Ok(Tasks::new(rt.alloc(), listener, http, permits))
}

/// Runs each connection of a listener as a task.
pub(crate) fn run_tasks<R, S>(rt: &R, runtime: &mut LocalRuntime, tasks: Tasks<S>) -> io::Result<()>
where
    R: Wait + Clock + RandomSource + AllocGlobal,
    S: Serves,
{
    runtime.run_all(rt, tasks)
}

/// Serves polls over HTTP by a node, or by what else replies, at a listener that is bound. All connections are served by the thread
/// that calls it. It returns only where the system refuses it something, or there is no memory for one connection more: from then on
/// nobody is accepted at this listener, and it returns once the connections that there are have ended.
pub fn serve_http<R, A>(
    rt: &R,
    runtime: &mut LocalRuntime,
    listener: std::net::TcpListener,
    node: Arc<A>,
) -> io::Result<()>
where
    R: Wait + Clock + RandomSource + AllocGlobal + Copy + Drop,
    A: Seats + Drop,
{
    let tasks = tasks_of(rt, runtime, listener, node, MAX_CONNECTIONS)?;
    run_tasks(rt, runtime, tasks)
}

/// The same by a runtime of its own.
pub fn serve_on<R, A>(rt: &R, listener: std::net::TcpListener, node: Arc<A>) -> io::Result<()>
where
    R: Wait + Clock + Net + RandomSource + AllocGlobal + Copy + Drop,
    A: Seats + Drop,
{
    let mut runtime = LocalRuntime::new(rt)?;
    serve_http(rt, &mut runtime, listener, node)
}

/// The same with at most so many connections at once, and no more than [`MAX_CONNECTIONS`].
pub fn serve_some<R, A>(
    rt: &R,
    listener: std::net::TcpListener,
    node: Arc<A>,
    connections: usize,
) -> io::Result<()>
where
    R: Wait + Clock + Net + RandomSource + AllocGlobal + Copy + Drop,
    A: Seats + Drop,
{
    let mut runtime = LocalRuntime::new(rt)?;
    let tasks = tasks_of(rt, &runtime, listener, node, connections)?;
    run_tasks(rt, &mut runtime, tasks)
}
