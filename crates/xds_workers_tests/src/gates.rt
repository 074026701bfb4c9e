// Gates of the tests.
use futures::task::{Context, Poll};
use std::sync::{Condvar, Mutex, Wait};
use xds_node::{Gate, Place};

/// Lets every thread pass.
pub(crate) struct Open;

impl<S: Drop> Gate<S> for Open {
    fn poll_pass<R: Wait>(
        &self,
        _rt: &R,
        _cx: &mut Context<'_>,
        _place: Place,
        _stream: u64,
    ) -> Poll<()> {
        Poll::Ready(())
    }

    fn keep<R: Wait>(&self, _rt: &R, segment: S) {
        drop(segment);
    }
}

#[derive(Drop)]
struct Counts {
    reads: u64,
    writes: u64,
    is_free: bool,
}

/// Holds each read, from this one on, until so many frames are to be written and it is let go, and
/// each write until it is let go.
#[derive(Drop)]
pub(crate) struct Held {
    counts: Mutex<Counts>,
    changed: Condvar,
    read: u64,
    writes: u64,
}

impl Held {
    pub(crate) fn new(read: u64, writes: u64, is_free: bool) -> Held {
        Held {
            counts: Mutex::new(Counts {
                reads: 0,
                writes: 0,
                is_free,
            }),
            changed: Condvar::new(),
            read,
            writes,
        }
    }

    /// Waits until that read is held, and so many frames are to be written.
    pub(crate) fn wait_held<R: Wait>(&self, rt: &R) {
        let mut counts = self.counts.lock(rt);
        for _ in rt.forever() {
            if counts.reads >= self.read && counts.writes >= self.writes {
                return;
            }
            counts = self.changed.wait(rt, counts);
        }
    }

    /// Whether it was let go.
    pub(crate) fn is_free<R: Wait>(&self, rt: &R) -> bool {
        self.counts.lock(rt).is_free
    }

    /// Lets both go from here on.
    pub(crate) fn free<R: Wait>(&self, rt: &R) {
        self.counts.lock(rt).is_free = true;
        self.changed.notify_all();
    }

    fn before_read<R: Wait>(&self, rt: &R) {
        let mut counts = self.counts.lock(rt);
        counts.reads = counts.reads.saturating_add(1);
        if counts.reads < self.read {
            return;
        }
        self.changed.notify_all();
        for _ in rt.forever() {
            if counts.writes >= self.writes && counts.is_free {
                return;
            }
            counts = self.changed.wait(rt, counts);
        }
    }

    fn before_write<R: Wait>(&self, rt: &R) {
        let mut counts = self.counts.lock(rt);
        counts.writes = counts.writes.saturating_add(1);
        self.changed.notify_all();
        for _ in rt.forever() {
            if counts.is_free {
                return;
            }
            counts = self.changed.wait(rt, counts);
        }
    }
}

impl<S: Drop> Gate<S> for Held {
    fn poll_pass<R: Wait>(
        &self,
        rt: &R,
        _cx: &mut Context<'_>,
        place: Place,
        _stream: u64,
    ) -> Poll<()> {
        match place {
            Place::BeforeRead => self.before_read(rt),
            Place::BeforeWrite => self.before_write(rt),
        }
        Poll::Ready(())
    }

    fn keep<R: Wait>(&self, _rt: &R, segment: S) {
        drop(segment);
    }
}
