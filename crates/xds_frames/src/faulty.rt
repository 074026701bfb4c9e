// Readers and writers for tests, of which one call fails.
ghost use Rattle.std.specs.Prelude.{◌≡◌, ◌≢◌, ◌-◌, ◌↔◌, IsTrue, IsErr};
ghost use Rattle.std.specs.Io.{ReadsAtMost, WritesAtMost};
ghost use Rattle.std.specs.Io.KnownBytes.{Keeps, ReadConsumes, WriteAppends};

use std::io;
use std::io::{ErrorKind, Read, Write};

/// A reader or a writer of which one call fails, without being passed on.
#[derive(Drop)]
pub struct Faulty<D> {
    pub inner: D,
    /// Which call fails, counted from the next one, which is 1. None does where it is 0.
    pub failing: u64,
}

impl<D> Faulty<D> {
    /// Fails the call of this number, from 1, and no other.
    pub fn new(inner: D, failing: u64) -> Faulty<D>
        ensures inner { result.inner ≡ inner }
        ensures failing { result.failing ≡ failing }
    {
        Faulty { inner, failing }
    }

    // Counts a call, and says whether it is the one that fails.
    fn fails(&mut self) -> bool
        ensures failed { IsTrue result ↔ (self.old.failing ≡ 1) }
        ensures inner { self.new.inner ≡ self.old.inner }
        ensures failing { self.new.failing ≡ self.old.failing - 1 }
    {
        let fails = self.failing == 1;
        self.failing = self.failing.saturating_sub(1);
        fails
    }
}

impl<R: Read> Read for Faulty<R> {
    ghost remaining = { λ f. R.remaining f.inner };

    fn read(&mut self, buf: &mut [u8]) -> io::Result<usize>
        ensures bound { ReadsAtMost result buf.new }
        ensures bytes { ReadConsumes (R.remaining self.old.inner) (R.remaining self.new.inner) result buf.new }
        ensures fails { self.old.failing ≡ 1 → IsErr result }
        ensures failing { self.new.failing ≡ self.old.failing - 1 }
    {
        if self.fails() {
            return Err(io::Error::from(ErrorKind::Other));
        }
        self.inner.read(buf)
    }
}

impl<W: Write> Write for Faulty<W> {
    ghost contents = { λ f. W.contents f.inner };

    fn write(&mut self, buf: &[u8]) -> io::Result<usize>
        ensures bound { WritesAtMost result buf.now }
        ensures bytes { WriteAppends (W.contents self.old.inner) (W.contents self.new.inner) result buf.now }
        ensures fails { self.old.failing ≡ 1 → IsErr result }
        ensures failing { self.new.failing ≡ self.old.failing - 1 }
    {
        if self.fails() {
            return Err(io::Error::from(ErrorKind::Other));
        }
        self.inner.write(buf)
    }

    fn flush(&mut self) -> io::Result<()>
        ensures bytes { Keeps (W.contents self.old.inner) (W.contents self.new.inner) }
        ensures fails { self.old.failing ≡ 1 → IsErr result }
        ensures failing { self.new.failing ≡ self.old.failing - 1 }
    {
        if self.fails() {
            return Err(io::Error::from(ErrorKind::Other));
        }
        self.inner.flush()
    }
}
