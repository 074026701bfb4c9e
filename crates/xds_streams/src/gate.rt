// The gate that keeps new frames from being begun once the server ends. It keeps no segment: what is cut of a replica that is recorded is
// written as it is cut.
ghost use Rattle.std.specs.Prelude.{◌≡◌};
ghost use Rattle.futures.specs.Task.{Covers, Keeps};
ghost use Rattle.futures.specs.Poll.{OnPending};

use futures::task::{Context, Poll, Source, Waker};
use std::sync::atomic::{AtomicBool, Ordering};
use std::sync::{Mutex, Wait};
use xds_node::{Gate, Place};
use xds_notes::Ending;

/// The gate of a stream's writer: it lets it begin a frame as long as the server serves, and holds it from then on.
pub(crate) struct WriterGate<'a> {
    ending: &'a Ending,
    // Whether the writer has begun a frame that isn't known to be written.
    is_writing: AtomicBool,
    // Where its task waits once the server ends. Nothing wakes it there.
    never: Source,
    waker: Mutex<Option<Waker>>,
}

// Written out: docs/PROVING.md, "Drops".
impl<'a> Drop for WriterGate<'a> {
    fn drop(self) {
        let WriterGate {
            ending: _,
            is_writing: _,
            never: _,
            waker: _,
        } = self;
    }
}

impl<'a> WriterGate<'a> {
    pub(crate) fn new(ending: &'a Ending) -> WriterGate<'a> {
        WriterGate {
            ending,
            is_writing: AtomicBool::new(false),
            never: Source::new(),
            waker: Mutex::new(None),
        }
    }

    /// Ready once a frame is begun; what was begun before is written. Once the server ends it is pending for ever.
    pub(crate) fn poll_begin<R: Wait>(&self, rt: &R, cx: &mut Context<'_>) -> Poll<()>
        ensures registered { OnPending result (Covers cx.new (λ s. s ≡ self.now.never.id)) }
        ensures kept { Keeps cx.old cx.new }
    {
        if self.begin(rt) {
            return Poll::Ready(());
        }
        let mut waker = self.waker.lock(rt);
        cx.register(&self.never, &mut waker)
    }

    // Begins a frame, unless the server ends. Answers whether it is begun.
    fn begin<R: Wait>(&self, rt: &R) -> bool {
        self.finish(rt);
        let is_begun = self.ending.begin_frame(rt);
        self.is_writing.store(is_begun, Ordering::SeqCst);
        is_begun
    }

    /// What was begun is written, or given up.
    pub(crate) fn finish<R: Wait>(&self, rt: &R) {
        if self.is_writing.swap(false, Ordering::SeqCst) {
            self.ending.end_frame(rt);
        }
    }
}

impl<'a, S: Drop> Gate<S> for WriterGate<'a> {
    ghost waits = { λ g s. s ≡ g.never.id };

    fn poll_pass<R: Wait>(
        &self,
        rt: &R,
        cx: &mut Context<'_>,
        place: Place,
        _stream: u64,
    ) -> Poll<()> {
        match place {
            Place::BeforeRead => Poll::Ready(()),
            Place::BeforeWrite => self.poll_begin(rt, cx),
        }
    }

    fn keep<R: Wait>(&self, _rt: &R, _segment: S) {}
}
