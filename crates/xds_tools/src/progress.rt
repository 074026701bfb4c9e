// How far a run is, told at a terminal beside what the run itself writes there.
ghost use Rattle.std.specs.Prelude.{◌≡◌};
ghost use Rattle.std.specs.Io.{ReadsAtMost};
ghost use Rattle.std.specs.Io.KnownBytes.{ReadConsumes};

use std::alloc::{AllocError, AllocGlobal, Global};
use std::io::{Read, Write};
use std::sync::Arc;
use std::sync::atomic::{AtomicBool, AtomicU64, Ordering};
use std::time::{Clock, Duration};
use std::{io, thread};
use xds_machine::machine::Runtime;
use xds_machine::threads::{share, start_worker};
use xds_resource::Refusal;

/// How many seconds pass before it is told how far a run is, and before each time that it is told again.
const STEP: u64 = 2;

/// The bytes by which it is told how much was read. Before so many were read, or all, nothing is told.
const MEGABYTE: u64 = 1_000_000;

/// How far a run is. The thread that works and the one that tells share it.
pub struct RunProgress {
    // How many bytes of the input were read.
    read: AtomicU64,
    // Whether the input was read to its end.
    has_ended: AtomicBool,
    // Whether the run is done.
    is_done: AtomicBool,
}

// Written out: docs/PROVING.md, "Drops".
impl Drop for RunProgress {
    fn drop(self) {
        let RunProgress {
            read: _,
            has_ended: _,
            is_done: _,
        } = self;
    }
}

impl RunProgress {
    /// Nothing was read.
    pub fn new() -> RunProgress {
        RunProgress {
            read: AtomicU64::new(0),
            has_ended: AtomicBool::new(false),
            is_done: AtomicBool::new(false),
        }
    }

    // So many bytes were read by a call that had room for some; none, at the end of the input.
    fn count(&self, bytes: usize) {
        if bytes == 0 {
            self.has_ended.store(true, Ordering::SeqCst);
        }
        self.read.fetch_add(bytes as u64, Ordering::SeqCst);
    }

    /// The line that tells how far the run is, so many seconds after it began, where there is something to tell.
    pub fn line(&self, alloc: Global, seconds: u64) -> Result<Option<String>, AllocError> {
        if self.has_ended.load(Ordering::SeqCst) {
            let line = format!(in alloc; "xds: {seconds} s: the input is read, working on it\n")?;
            return Ok(Some(line));
        }
        let megabytes = self.read.load(Ordering::SeqCst) / MEGABYTE;
        if megabytes == 0 {
            return Ok(None);
        }
        Ok(Some(format!(in alloc; "xds: {seconds} s: {megabytes} MB are read\n")?))
    }
}

/// A reader that counts what it reads, where somebody is told how far the run is.
#[derive(Drop)]
pub struct ProgressReader<D> {
    pub inner: D,
    progress: Option<Arc<RunProgress>>,
}

impl<D> ProgressReader<D> {
    /// Counts what is read for this progress.
    pub fn new(inner: D, progress: Arc<RunProgress>) -> ProgressReader<D>
        ensures { result.inner ≡ inner }
    {
        ProgressReader {
            inner,
            progress: Some(progress),
        }
    }

    /// Begins a run over a reader. Where there is a terminal, a thread tells there how far the run is, until it is
    /// done. Where there was no memory for that, nothing is told.
    pub fn start<R, P>(rt: &R, inner: D, terminal: Option<P>) -> ProgressReader<D>
    where
        R: Runtime,
        P: Write + Drop + Send + 'static,
        ensures { result.inner ≡ inner }
    {
        let progress = match terminal {
            Some(terminal) => start_telling(rt, terminal).ok(),
            None => None,
        };
        ProgressReader { inner, progress }
    }

    /// The run is done, and nothing more is told of it. Gives the reader back.
    pub fn finish(self) -> D
        ensures { result ≡ self.inner }
    {
        let ProgressReader { inner, progress } = self;
        if let Some(progress) = progress {
            progress.is_done.store(true, Ordering::SeqCst);
        }
        inner
    }
}

impl<D: Read> Read for ProgressReader<D> {
    ghost remaining = { λ r. D.remaining r.inner };

    fn read(&mut self, buf: &mut [u8]) -> io::Result<usize>
        ensures bound { ReadsAtMost result buf.new }
        ensures bytes { ReadConsumes (D.remaining self.old.inner) (D.remaining self.new.inner) result buf.new }
    {
        let has_room = !buf.is_empty();
        let result = self.inner.read(buf);
        if let (Some(progress), Ok(bytes), true) = (&self.progress, &result, has_room) {
            progress.count(*bytes);
        }
        result
    }
}

// Starts the thread that tells how far a run is.
fn start_telling<R, P>(rt: &R, terminal: P) -> Result<Arc<RunProgress>, Refusal>
where
    R: Runtime,
    P: Write + Drop + Send + 'static,
{
    let progress = match Arc::new(rt.alloc(), RunProgress::new()) {
        Ok(progress) => progress,
        Err(_) => {
            drop(terminal);
            return Err(Refusal::OutOfMemory);
        }
    };
    start_worker(rt, share(&progress), move |rt, progress| {
        let mut terminal = terminal;
        tell_on(rt, &progress, &mut terminal);
    })?;
    Ok(progress)
}

// Tells how far a run is, again and again, until it is done. A terminal that fails is passed over.
fn tell_on<R: Clock + AllocGlobal, P: Write>(rt: &R, progress: &RunProgress, terminal: &mut P) {
    let mut seconds = 0u64;
    for _ in 0..u64::MAX {
        thread::sleep(rt, Duration::from_secs(STEP));
        if progress.is_done.load(Ordering::SeqCst) {
            return;
        }
        seconds = seconds.saturating_add(STEP);
        if let Ok(Some(line)) = progress.line(rt.alloc(), seconds) {
            let _ = terminal.write_all(line.as_bytes());
        }
    }
}
