// The streams of a replica: each connection is a task of a runtime, whose threads are as many as were asked for, however many streams
// there are.
ghost use Rattle.std.specs.Prelude.{◌≡◌, ◌<◌, None, IfOk, IfSome};
ghost use Rattle.futures.specs.Task.{IsArmed, Keeps};
ghost use Rattle.futures.specs.Poll.{OnPending};

use crate::open_stream::Around;
use crate::stream_task::{Connection, StreamTask};
use futures::Future;
use futures::executor::TaskSet;
use futures::task::{Context, Poll};
use std::alloc::{AllocGlobal, Global};
use std::collections::VecDeque;
use std::io;
use std::net::Net;
use std::random::RandomSource;
use std::sync::Wait;
use std::thread::Threads;
use std::time::{Clock, Duration};
use tokio::net::{TcpListener, TcpStream};
use tokio::runtime::{Builder, Runtime};
use tokio::time::Sleep;
use xds_node::Host;
use xds_notes::Lookout;
use xds_rest::{Posts, Served};
use xds_stats::Moment;

/// As many connections as one poll takes before it lets others run.
const TURNS: usize = 64;

/// As many connections as wait at most to be served, once they were taken. Those beyond wait in the system's queue: a client that finds it
/// full asks again after a second.
const MOST_WAITING: usize = 1_024;

/// As many threads as serve the streams of a replica where none is said. All calls of a replica take one lock, for which more threads wait.
const WORKERS: usize = 2;

/// As many milliseconds as are waited after the system gave no connection, as where it has no descriptor left.
const PAUSE_MILLISECONDS: u64 = 10;

/// Serves connections.
pub(crate) trait ServesStreams: Drop {
    ghost use Rattle.std.specs.Prelude.{IfSome};

    type Task: Future<Output = ()>;

    /// The task of a connection; none where it isn't served.
    fn task(&self, socket: TcpStream) -> Option<Self::Task>
        ensures { IfSome result Self.Task.can_poll };

    /// A connection that has a task isn't served, for there was no memory.
    fn leave(&self);

    /// How long to wait after the system gave no connection; none where that can't be waited for.
    fn pause(&self) -> Option<Sleep>;
}

/// Takes connections for as long as the process runs, each as a task of a runtime with as many threads as its limits say, or two. It
/// returns only where the system refuses it something.
pub fn serve_streams<'a, R, A>(
    rt: &'a R,
    alloc: Global,
    listener: std::net::TcpListener,
    node: &'a A,
    lookout: &'a Lookout,
) -> io::Result<()>
where
    R: Wait + Threads + Clock + Net + RandomSource + AllocGlobal + Send + Sync + 'static,
    A: Served
        + Host<Seat: Send, Segment: Send>
        + Posts<PostSeat: Send>
        + Drop
        + Send
        + Sync
        + 'static,
{
    let mut runtime = runtime_with(rt, lookout.workers())?;
    let listener = TcpListener::from_std(listener, runtime.handle().reactor())?;
    let timers = runtime.handle().time().clone()?;
    let server = Around {
        rt,
        alloc,
        node,
        lookout,
        timers: &timers,
    };
    serve_by(rt, &mut runtime, listener, server)
}

// A runtime with so many threads; with two where none is said.
fn runtime_with<R>(rt: &R, workers: Option<u16>) -> io::Result<Runtime>
where
    R: Threads + Clock + Net + RandomSource + AllocGlobal,
    ensures said { IfOk result (λ runtime. IfSome workers (λ count. 0 < count → runtime.worker_threads ≡ count)) }
    ensures unsaid { workers ≡ None → IfOk result (λ runtime. runtime.worker_threads ≡ 2) }
{
    let count = match workers {
        Some(count) if count > 0 => usize::from(count),
        _ => WORKERS,
    };
    Builder::new_multi_thread().worker_threads(count).build(rt)
}

// Runs what serves each connection.
fn serve_by<R, F, S>(
    rt: &R,
    runtime: &mut Runtime,
    listener: TcpListener,
    server: S,
) -> io::Result<()>
where
    R: Wait + Threads + Clock + RandomSource + AllocGlobal + Sync,
    F: Future<Output = ()> + Send,
    S: ServesStreams<Task = F>,
{
    let tasks = runtime.task_set(rt)?;
    let accepting = Accepting {
        server,
        listener,
        tasks: &tasks,
        waiting: VecDeque::new(rt.alloc()),
        pause: None,
    };
    runtime.block_on_with(rt, &tasks, accepting)
}

impl<'a, R: Wait + Clock, A: Served> ServesStreams for Around<'a, R, A> {
    type Task = StreamTask<'a, R, A, A::Seat>;

    // None where there is no memory, or there are as many streams as there may be.
    fn task(&self, socket: TcpStream) -> Option<StreamTask<'a, R, A, A::Seat>> {
        if !self.lookout.admit(self.rt, Moment::now(self.rt)) {
            return None;
        }
        match connection_of(self.alloc, socket) {
            Some(connection) => Some(StreamTask::new(self.share(), connection)),
            None => {
                self.lookout.leave(self.rt);
                None
            }
        }
    }

    fn leave(&self) {
        self.lookout.leave(self.rt);
    }

    fn pause(&self) -> Option<Sleep> {
        let time = Duration::from_millis(PAUSE_MILLISECONDS);
        self.timers.sleep(self.rt, time).ok()
    }
}

// A connection in two halves, if there is memory for that.
fn connection_of(alloc: Global, socket: TcpStream) -> Option<Connection> {
    // Without it a response would wait for the acknowledgement of the one before.
    let _ = socket.set_nodelay(true);
    let peer = peer_text(alloc, &socket);
    let (reader, writer) = socket.into_split().ok()?;
    Some(Connection {
        reader,
        writer,
        peer,
    })
}

// What takes connections. It has no end.
struct Accepting<'b, F: Future, S> {
    server: S,
    listener: TcpListener,
    tasks: &'b TaskSet<F>,
    // Connections that were taken and aren't served yet.
    waiting: VecDeque<TcpStream>,
    pause: Option<Sleep>,
}

// Written out: docs/PROVING.md, "Drops".
impl<'b, F: Future, S: Drop> Drop for Accepting<'b, F, S> {
    fn drop(self) {
        let Accepting {
            server: _,
            listener: _,
            tasks: _,
            waiting: _,
            pause: _,
        } = self;
    }
}

impl<'b, F: Future<Output = ()>, S: ServesStreams<Task = F>> Accepting<'b, F, S> {
    // Serves a connection, or closes it.
    fn serve(&self, socket: TcpStream) {
        let Some(task) = self.server.task(socket) else {
            return;
        };
        if self.tasks.spawn(task).is_err() {
            self.server.leave();
        }
    }

    // Ready once a pause has passed, if there is one.
    fn poll_pause(&mut self, cx: &mut Context<'_>) -> Poll<()>
        ensures armed { OnPending result (IsArmed cx.new) }
        ensures kept { Keeps cx.old cx.new }
    {
        let Some(pause) = &mut self.pause else {
            return Poll::Ready(());
        };
        if let Poll::Pending = pause.poll(cx) {
            return Poll::Pending;
        }
        self.pause = None;
        Poll::Ready(())
    }

    // Takes the next connection, which waits then to be served; or closes it, where there is no memory.
    fn poll_taken(&mut self, cx: &mut Context<'_>) -> Poll<()>
        ensures armed { OnPending result (IsArmed cx.new) }
        ensures kept { Keeps cx.old cx.new }
    {
        if let Poll::Pending = self.poll_pause(cx) {
            return Poll::Pending;
        }
        match self.listener.poll_accept(cx) {
            Poll::Pending => Poll::Pending,
            Poll::Ready(Ok((socket, _))) => {
                drop(self.waiting.push_back(socket));
                Poll::Ready(())
            }
            Poll::Ready(Err(_)) => {
                self.pause = self.server.pause();
                Poll::Ready(())
            }
        }
    }

    // Takes a connection, or else serves one that waits. Where many come at once the system's queue of them is emptied first.
    fn poll_next(&mut self, cx: &mut Context<'_>) -> Poll<()>
        ensures armed { OnPending result (IsArmed cx.new) }
        ensures kept { Keeps cx.old cx.new }
    {
        if self.waiting.len() < MOST_WAITING {
            match self.poll_taken(cx) {
                Poll::Ready(()) => return Poll::Ready(()),
                Poll::Pending if self.waiting.is_empty() => return Poll::Pending,
                Poll::Pending => {}
            }
        }
        if let Some(socket) = self.waiting.pop_front() {
            self.serve(socket);
        }
        Poll::Ready(())
    }
}

impl<'b, F: Future<Output = ()>, S: ServesStreams<Task = F>> Future for Accepting<'b, F, S> {
    type Output = ();

    fn poll(&mut self, cx: &mut Context<'_>) -> Poll<()> {
        for _ in 0..TURNS {
            if let Poll::Pending = self.poll_next(cx) {
                return Poll::Pending;
            }
        }
        cx.yield_now()
    }
}

// The address of the other end of a connection; empty where it isn't known.
fn peer_text(alloc: Global, socket: &TcpStream) -> String {
    match socket.peer_addr() {
        Ok(peer) => format!(in alloc; "{peer}").unwrap_or(String::new(alloc)),
        Err(_) => String::new(alloc),
    }
}
