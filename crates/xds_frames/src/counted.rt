// Readers and writers whose calls are counted, so that a device is blamed only where it failed.
ghost use Rattle.std.specs.Prelude.{◌≡◌, ◌<◌, IsErr, IfOk, length};
ghost use Rattle.std.specs.Io.{ReadsAtMost, WritesAtMost};
ghost use Rattle.std.specs.Io.KnownBytes.{Keeps, ReadConsumes, WriteAppends};
ghost use Rattle.xds_frames.specs.Devices.{CountsCall, CountsFailure, MoreFailed};

use std::io;
use std::io::{ErrorKind, Read, Write};

/// As many calls as a [`Counted`] passes on. Each one after them fails, so that who reads until a call fails comes to an
/// end.
pub const MOST_CALLS: u64 = 9_223_372_036_854_775_807;

/// A reader or a writer, how many calls were made of it, and how many of them failed. A write that takes no byte of some
/// is one that failed, and so is a call after [`MOST_CALLS`].
#[derive(Drop)]
pub struct Counted<D> {
    pub inner: D,
    /// The number of calls, which stops at [`MOST_CALLS`].
    pub calls: u64,
    /// The number of calls that failed, which stops at `u64::MAX`.
    pub failed: u64,
}

impl<D> Counted<D> {
    pub fn new(inner: D) -> Counted<D>
        ensures inner { result.inner ≡ inner }
        ensures calls { result.calls ≡ 0 }
        ensures failed { result.failed ≡ 0 }
    {
        Counted {
            inner,
            calls: 0,
            failed: 0,
        }
    }

    // Fails a call that isn't passed on.
    fn refuse<T>(&mut self) -> io::Result<T>
        ensures refused { IsErr result }
        ensures inner { self.new.inner ≡ self.old.inner }
        ensures calls { self.new.calls ≡ self.old.calls }
        ensures failed { MoreFailed self.old.failed self.new.failed }
    {
        self.failed = self.failed.saturating_add(1);
        Err(io::Error::from(ErrorKind::Other))
    }
}

// The count of failed calls after one that answered so.
fn failed_after<T>(failed: u64, answer: &io::Result<T>) -> u64
    ensures { CountsFailure answer.now failed result }
{
    if answer.is_err() {
        failed.saturating_add(1)
    } else {
        failed
    }
}

impl<R: Read> Read for Counted<R> {
    ghost remaining = { λ c. R.remaining c.inner };

    fn read(&mut self, buf: &mut [u8]) -> io::Result<usize>
        ensures bound { ReadsAtMost result buf.new }
        ensures bytes { ReadConsumes (R.remaining self.old.inner) (R.remaining self.new.inner) result buf.new }
        ensures calls { CountsCall result self.old.calls self.new.calls }
        ensures failed { CountsFailure result self.old.failed self.new.failed }
    {
        if self.calls >= MOST_CALLS {
            return self.refuse();
        }
        let result = self.inner.read(buf);
        self.calls += 1;
        self.failed = failed_after(self.failed, &result);
        result
    }
}

impl<W: Write> Write for Counted<W> {
    ghost contents = { λ c. W.contents c.inner };

    fn write(&mut self, buf: &[u8]) -> io::Result<usize>
        ensures bound { WritesAtMost result buf.now }
        ensures bytes { WriteAppends (W.contents self.old.inner) (W.contents self.new.inner) result buf.now }
        ensures some { IfOk result (λ n. 0 < length buf.now → 0 < n) }
        ensures calls { CountsCall result self.old.calls self.new.calls }
        ensures failed { CountsFailure result self.old.failed self.new.failed }
    {
        if self.calls >= MOST_CALLS {
            return self.refuse();
        }
        let result = match self.inner.write(buf) {
            Ok(0) if !buf.is_empty() => Err(io::Error::from(ErrorKind::WriteZero)),
            other => other,
        };
        self.calls += 1;
        self.failed = failed_after(self.failed, &result);
        result
    }

    fn flush(&mut self) -> io::Result<()>
        ensures bytes { Keeps (W.contents self.old.inner) (W.contents self.new.inner) }
        ensures calls { CountsCall result self.old.calls self.new.calls }
        ensures failed { CountsFailure result self.old.failed self.new.failed }
    {
        if self.calls >= MOST_CALLS {
            return self.refuse();
        }
        let result = self.inner.flush();
        self.calls += 1;
        self.failed = failed_after(self.failed, &result);
        result
    }
}
