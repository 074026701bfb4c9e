// What comes over a stream's connection, as an event loop reads it: the first frame has to come within a time, and before it may stand a
// line that says who connected.
ghost use Rattle.std.specs.Prelude.{◌≡◌, ◌≤◌, length};
ghost use Rattle.futures.specs.Task.{IsArmed, Keeps};
ghost use Rattle.futures.specs.Poll.{OnPending};

use crate::first_frame::FirstFrame;
use crate::proxied::{Beginning, MOST_LINE, address_in, beginning_of};
use futures::Future;
use futures::task::{Context, Poll};
use std::alloc::Global;
use std::io;
use std::io::ErrorKind;
use std::time::{Clock, Duration};
use tokio::io::AsyncRead;
use tokio::net::OwnedReadHalf;
use tokio::time::{Handle, Sleep};
use xds_flows::KnownRead;

// Within how many seconds a line that has begun has to come whole.
const LINE_SECONDS: u64 = 1;

/// A connection that is read: up to the end of its first frame until a deadline, and from then on for as long as it takes.
pub(crate) struct Arriving {
    socket: OwnedReadHalf,
    // What was read and isn't given on.
    front: Vec<u8>,
    first: FirstFrame,
    // Until when the first frame has to come, if it has to.
    until: Option<Sleep>,
    is_late: bool,
    // Whether nothing more is read.
    is_over: bool,
}

// Written out: docs/PROVING.md, "Drops".
impl Drop for Arriving {
    fn drop(self) {
        let Arriving {
            socket: _,
            front: _,
            first: _,
            until: _,
            is_late: _,
            is_over: _,
        } = self;
    }
}

impl Arriving {
    /// That of a connection of which the first frame has to come until then, if it has to.
    pub(crate) fn new(alloc: Global, socket: OwnedReadHalf, until: Option<Sleep>) -> Arriving {
        Arriving {
            socket,
            front: Vec::new(alloc),
            first: FirstFrame::new(),
            until,
            is_late: false,
            is_over: false,
        }
    }

    /// Whether the first frame didn't come in time.
    pub(crate) fn is_late(&self) -> bool {
        self.is_late
    }

    /// From here on nothing is read, as if the input ended.
    pub(crate) fn end(&mut self) {
        self.is_over = true;
    }

    // Whether the time for the first frame has passed.
    fn has_passed(&mut self, cx: &mut Context<'_>) -> bool
        ensures kept { Keeps cx.old cx.new }
    {
        match &mut self.until {
            Some(until) => until.poll(cx).is_ready(),
            None => false,
        }
    }

    // Notes what came. Once the first frame is whole, there is no limit.
    fn note(&mut self, piece: &[u8]) {
        if self.until.is_none() {
            return;
        }
        self.first.take(piece);
        if self.first.is_whole() {
            self.until = None;
        }
    }

    // Gives on what was read before.
    fn give(&mut self, buf: &mut [u8]) -> usize
        ensures { result ≤ length buf.new }
    {
        let count = self.front.len().min(buf.len());
        buf[..count].copy_from_slice(&self.front.as_slice()[..count]);
        self.skip(count);
        self.note(&buf[..count]);
        count
    }

    // Passes over the first of what was read before.
    fn skip(&mut self, count: usize) {
        let left = self.front.len().saturating_sub(count);
        if left > 0 {
            self.front.copy_within(count.., 0);
        }
        self.front.truncate(left);
    }

    // Reads more of a line. Answers whether more came.
    fn poll_front(&mut self, cx: &mut Context<'_>) -> Poll<bool>
        ensures armed { OnPending result (IsArmed cx.new) }
        ensures kept { Keeps cx.old cx.new }
    {
        let mut piece = [0; MOST_LINE];
        let room = MOST_LINE.saturating_sub(self.front.len());
        match self.socket.poll_read(cx, &mut piece[..room]) {
            Poll::Pending => Poll::Pending,
            Poll::Ready(Ok(count)) => {
                Poll::Ready(count > 0 && self.front.extend_from_slice(&piece[..count]).is_ok())
            }
            Poll::Ready(Err(_)) => Poll::Ready(false),
        }
    }

    // The address that the line says that was read.
    fn said(&mut self, alloc: Global) -> Option<String> {
        let end = line_length(self.front.as_slice());
        let said = address_in(alloc, &self.front.as_slice()[..end]);
        self.skip(end);
        said.ok()?
    }
}

// The length of the line that bytes begin with, with its end.
fn line_length(bytes: &[u8]) -> usize
    ensures { result ≤ length bytes.now }
{
    for at in 0..bytes.len() {
        if bytes[at] == b'\n' {
            return at + 1;
        }
    }
    bytes.len()
}

impl AsyncRead for Arriving {
    ghost use Rattle.std.specs.Prelude.{⊤};

    ghost needs = { λ r s. (⟦<OwnedReadHalf as AsyncRead>⟧).needs r.socket s };

    ghost reads = { λ _ _ _. ⊤ };

    ghost is_at_end = { λ _. ⊤ };

    ghost reads_nothing = { λ _. tt };

    ghost reads_in_order = { λ _ _ _ _ _ _ _. tt };

    fn poll_read(&mut self, cx: &mut Context<'_>, buf: &mut [u8]) -> Poll<io::Result<usize>> {
        if self.is_over {
            return Poll::Ready(Ok(0));
        }
        if !self.front.is_empty() {
            return Poll::Ready(Ok(self.give(buf)));
        }
        let has_passed = self.has_passed(cx);
        match self.socket.poll_read(cx, buf) {
            Poll::Pending => {
                if !has_passed {
                    return Poll::Pending;
                }
                self.is_late = true;
                Poll::Ready(Err(ErrorKind::TimedOut.into()))
            }
            Poll::Ready(Ok(count)) => {
                self.note(&buf[..count]);
                Poll::Ready(Ok(count))
            }
            Poll::Ready(Err(error)) => Poll::Ready(Err(error)),
        }
    }
}

impl KnownRead for Arriving {
    ghost use Rattle.std.specs.Prelude.{None};

    ghost remaining = { λ _. None };

    ghost consumes = { λ _ _ _ _. tt };

    ghost ends = { λ _ _. tt };
}

/// How the line is awaited with which a connection may begin.
pub(crate) struct ArrivingLine {
    // Until when a line that has begun has to come whole.
    until: Option<Sleep>,
    is_begun: bool,
}

// Written out: docs/PROVING.md, "Drops".
impl Drop for ArrivingLine {
    fn drop(self) {
        let ArrivingLine {
            until: _,
            is_begun: _,
        } = self;
    }
}

impl ArrivingLine {
    /// Nothing has come of it.
    pub(crate) fn new() -> ArrivingLine {
        ArrivingLine {
            until: None,
            is_begun: false,
        }
    }

    /// The address that the line says with which a connection begins, where it begins with one. What stands behind the line is left to
    /// be read, and so is all of what isn't a whole line within a second.
    pub(crate) fn poll_address<R: Clock>(
        &mut self,
        rt: &R,
        alloc: Global,
        timers: &Handle,
        from: &mut Arriving,
        cx: &mut Context<'_>,
    ) -> Poll<Option<String>>
        ensures armed { OnPending result (IsArmed cx.new) }
        ensures kept { Keeps cx.old cx.new }
    {
        for _ in 0..MOST_LINE {
            match beginning_of(from.front.as_slice()) {
                Beginning::Frames => return Poll::Ready(None),
                Beginning::Line => return Poll::Ready(from.said(alloc)),
                Beginning::Part => {}
            }
            let has_passed = self.has_passed(cx) || from.has_passed(cx);
            match from.poll_front(cx) {
                Poll::Ready(true) => self.begin(rt, timers),
                Poll::Ready(false) => return Poll::Ready(None),
                Poll::Pending => {
                    if !has_passed {
                        return Poll::Pending;
                    }
                    return Poll::Ready(None);
                }
            }
        }
        cx.yield_now()
    }

    // Something has come. Where its time can't be told, it is over.
    fn begin<R: Clock>(&mut self, rt: &R, timers: &Handle) {
        if !self.is_begun {
            self.is_begun = true;
            self.until = timers.sleep(rt, Duration::from_secs(LINE_SECONDS)).ok();
        }
    }

    // Whether its time has passed.
    fn has_passed(&mut self, cx: &mut Context<'_>) -> bool
        ensures kept { Keeps cx.old cx.new }
    {
        match &mut self.until {
            Some(until) => until.poll(cx).is_ready(),
            None => self.is_begun,
        }
    }
}
