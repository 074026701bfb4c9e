// The connections of a listener, each as a task.
ghost use Rattle.std.specs.Prelude.{IfSome};

use futures::task::{Context, Poll};
use futures::{Future, Stream, ready};
use std::alloc::Global;
use std::collections::VecDeque;
use std::sync::Arc;
use std::sync::atomic::{AtomicBool, Ordering};
use tokio::net::{TcpListener, TcpStream};
use tokio::sync::oneshot::{Receiver, Sender, channel};
use tokio::sync::{OwnedSemaphorePermit, Semaphore};
use tokio::time::Sleep;

/// How often a connection is tried again for which another gives way.
const MOST_TURNS: u32 = 64;

/// Whether the head of a request has come over a connection.
#[derive(Drop)]
pub struct HeadSeen {
    flag: Arc<AtomicBool>,
}

impl HeadSeen {
    // Nothing has come; and a share of that.
    fn two(alloc: Global) -> Option<(HeadSeen, HeadSeen)> {
        let one = Arc::new(alloc, AtomicBool::new(false)).ok()?;
        let other = Arc::try_clone(&one).ok()?;
        Some((HeadSeen { flag: one }, HeadSeen { flag: other }))
    }

    /// A share of it.
    pub fn share(&self) -> Option<HeadSeen> {
        let flag = Arc::try_clone(&self.flag).ok()?;
        Some(HeadSeen { flag })
    }

    /// A head has come.
    pub fn note(&self) {
        self.flag.store(true, Ordering::SeqCst);
    }

    /// Whether one has come.
    pub fn has_come(&self) -> bool {
        self.flag.load(Ordering::SeqCst)
    }
}

/// Serves connections.
pub trait Serves: Drop {
    ghost use Rattle.std.specs.Prelude.{IfSome};

    type Conn: Future<Output = hyper::Result<()>>;

    /// What serves a connection, and notes the heads that come over it; none where there is no memory for it.
    fn serve(&self, socket: TcpStream, asked: HeadSeen) -> Option<Self::Conn>
        ensures { IfSome result Self.Conn.can_poll };

    /// How long to wait after a connection couldn't be accepted; none where that can't be waited for.
    fn pause(&self) -> Option<Sleep>;
}

/// A connection that is served, and its share of all that there may be. As long as no head of a request has come over it, it may be told
/// to give way to another.
#[derive(Drop)]
pub struct ServedConnection<C> {
    conn: C,
    permit: OwnedSemaphorePermit,
    asked: HeadSeen,
    told: Option<Receiver<()>>,
}

impl<C> ServedConnection<C> {
    ghost use Rattle.std.specs.Prelude.{◌≡◌};
    ghost use Rattle.futures.specs.Task.{Keeps};

    // Whether it is told to give way, and does.
    fn gives_way(&mut self, cx: &mut Context<'_>) -> bool
        ensures conn { self.new.conn ≡ self.old.conn }
        ensures kept { Keeps cx.old cx.new }
    {
        if self.asked.has_come() {
            self.told = None;
        }
        let Some(told) = &mut self.told else {
            return false;
        };
        match told.poll(cx) {
            Poll::Ready(Ok(())) => true,
            Poll::Ready(Err(_)) => {
                self.told = None;
                false
            }
            Poll::Pending => false,
        }
    }
}

impl<C: Future<Output = hyper::Result<()>>> Future for ServedConnection<C> {
    type Output = ();

    ghost can_poll = { λ t. C.can_poll t.conn };

    ghost needs = { λ t. C.needs t.conn };

    fn poll(&mut self, cx: &mut Context<'_>) -> Poll<()> {
        if self.gives_way(cx) {
            return Poll::Ready(());
        }
        let _ended = ready!(self.conn.poll(cx));
        Poll::Ready(())
    }
}

// A connection over which no head had come when it was accepted.
#[derive(Drop)]
struct WaitingConnection {
    asked: HeadSeen,
    tells: Sender<()>,
}

impl WaitingConnection {
    // Whether it may still give way.
    fn may_yield(&self) -> bool {
        !self.asked.has_come() && !self.tells.is_closed()
    }
}

/// The connections that a listener takes, as long as there may be more. For one beyond, the oldest gives way over which no head of a
/// request has come; where there is none, it is closed at once. It has no end.
pub struct Tasks<S> {
    alloc: Global,
    listener: TcpListener,
    server: S,
    permits: Arc<Semaphore>,
    pause: Option<Sleep>,
    // The oldest first.
    waiting: VecDeque<WaitingConnection>,
    // A connection for which another gives way, and how often it was tried since.
    held: Option<TcpStream>,
    turns: u32,
}

// Written out: docs/PROVING.md, "Drops".
impl<S: Drop> Drop for Tasks<S> {
    fn drop(self) {
        let Tasks {
            alloc: _,
            listener: _,
            server: _,
            permits: _,
            pause: _,
            waiting: _,
            held: _,
            turns: _,
        } = self;
    }
}

impl<S: Serves> Tasks<S> {
    pub fn new(
        alloc: Global,
        listener: TcpListener,
        server: S,
        permits: Arc<Semaphore>,
    ) -> Tasks<S> {
        Tasks {
            alloc,
            listener,
            server,
            permits,
            pause: None,
            waiting: VecDeque::new(alloc),
            held: None,
            turns: 0,
        }
    }

    // Whether there may be one more connection.
    fn has_room(&self) -> bool {
        self.permits.available_permits() > 0
    }

    // What serves a connection, if there may be one more.
    fn task(&mut self, socket: TcpStream) -> Option<ServedConnection<S::Conn>>
        ensures { IfSome result (λ t. S.Conn.can_poll t.conn) }
    {
        let permits = Arc::try_clone(&self.permits).ok()?;
        let permit = Semaphore::try_acquire_owned(permits).ok()?;
        let (asked, noted) = HeadSeen::two(self.alloc)?;
        let told = self.wait(&asked);
        let conn = self.server.serve(socket, noted)?;
        Some(ServedConnection {
            conn,
            permit,
            asked,
            told,
        })
    }

    // By what a connection is told to give way. Without memory for that it isn't told.
    fn wait(&mut self, asked: &HeadSeen) -> Option<Receiver<()>> {
        self.waiting.retain(|waiting| waiting.may_yield());
        let asked = asked.share()?;
        let (tells, told) = channel(self.alloc).ok()?;
        match self.waiting.push_back(WaitingConnection { asked, tells }) {
            Ok(()) => Some(told),
            Err(_) => None,
        }
    }

    // Tells the oldest connection over which no head has come to give way, if there is one.
    fn make_room(&mut self) -> bool {
        for _ in 0..self.waiting.len() {
            let Some(waiting) = self.waiting.pop_front() else {
                return false;
            };
            if waiting.may_yield() {
                let WaitingConnection { asked: _, tells } = waiting;
                return tells.send(()).is_ok();
            }
        }
        false
    }

    // Takes a connection: what serves it, or none where it is closed, or waits for another that gives way.
    fn take(&mut self, socket: TcpStream) -> Option<ServedConnection<S::Conn>>
        ensures { IfSome result (λ t. S.Conn.can_poll t.conn) }
    {
        if self.has_room() {
            return self.task(socket);
        }
        if self.make_room() {
            self.held = Some(socket);
            self.turns = MOST_TURNS;
        }
        None
    }

    // Takes the connection that waits for another which gives way.
    fn take_held(&mut self, socket: TcpStream) -> Option<ServedConnection<S::Conn>>
        ensures { IfSome result (λ t. S.Conn.can_poll t.conn) }
    {
        if self.has_room() {
            return self.task(socket);
        }
        self.turns = self.turns.saturating_sub(1);
        if self.turns > 0 {
            self.held = Some(socket);
        }
        None
    }
}

impl<S: Serves> Stream for Tasks<S> {
    ghost use Rattle.std.specs.Prelude.{IfSome};

    type Item = ServedConnection<S::Conn>;

    ghost yields = { λ _ _ last. IfSome last (λ t. S.Conn.can_poll t.conn) };

    fn poll_next(&mut self, cx: &mut Context<'_>) -> Poll<Option<ServedConnection<S::Conn>>> {
        if let Some(pause) = &mut self.pause {
            let _woken = ready!(pause.poll(cx));
            self.pause = None;
        }
        if let Some(socket) = self.held.take() {
            if let Some(task) = self.take_held(socket) {
                return Poll::Ready(Some(task));
            }
            return cx.yield_now();
        }
        match ready!(self.listener.poll_accept(cx)) {
            Ok((socket, _)) => {
                if let Some(task) = self.take(socket) {
                    return Poll::Ready(Some(task));
                }
            }
            Err(_) => self.pause = self.server.pause(),
        }
        cx.yield_now()
    }
}
