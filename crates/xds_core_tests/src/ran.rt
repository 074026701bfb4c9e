// A stream served by a replica of its own, and what it came to.
use std::alloc::Global;
use std::io;
use std::io::{ErrorKind, Read, Write};
use std::test::Fail;
use xds_cases::cases::{unfolded, written_out};
use xds_core::{Core, Event, Request};
use xds_flows::run_stream;
use xds_frames::{Counted, Faulty};
use xds_message::DiscoveryRequest;
use xds_resource::Refusal;

/// A reader that gives its bytes in pieces of one size.
#[derive(Drop)]
pub(crate) struct Pieces<'a> {
    bytes: &'a [u8],
    size: usize,
}

impl<'a> Pieces<'a> {
    pub(crate) fn new(bytes: &'a [u8], size: usize) -> Pieces<'a> {
        Pieces { bytes, size }
    }
}

impl Read for Pieces<'_> {
    fn read(&mut self, buf: &mut [u8]) -> io::Result<usize> {
        let count = self.size.min(self.bytes.len()).min(buf.len());
        let (piece, rest) = self.bytes.split_at(count);
        buf[..count].copy_from_slice(piece);
        self.bytes = rest;
        Ok(count)
    }
}

/// A writer that takes at most so many bytes a call.
#[derive(Drop)]
pub(crate) struct Taking {
    pub(crate) taken: Vec<u8>,
    size: usize,
}

impl Write for Taking {
    fn write(&mut self, buf: &[u8]) -> io::Result<usize> {
        let count = self.size.min(buf.len());
        if self.taken.extend_from_slice(&buf[..count]).is_err() {
            return Err(io::Error::from(ErrorKind::OutOfMemory));
        }
        Ok(count)
    }

    fn flush(&mut self) -> io::Result<()> {
        Ok(())
    }
}

/// Both ends of a stream. Each fails at one of its calls, if at any.
#[derive(Drop)]
pub(crate) struct Ends<'a> {
    pub(crate) reader: Counted<Faulty<Pieces<'a>>>,
    pub(crate) writer: Counted<Faulty<Taking>>,
}

impl<'a> Ends<'a> {
    /// Ends that never fail, and what is written into this buffer.
    pub(crate) fn new(bytes: &'a [u8], size: usize, taken: Vec<u8>) -> Ends<'a> {
        Ends::failing(bytes, (size, u64::MAX), (usize::MAX, u64::MAX), taken)
    }

    /// Ends with the sizes of their pieces, and with the call that fails of each.
    pub(crate) fn failing(
        bytes: &'a [u8],
        (size, read): (usize, u64),
        (most, write): (usize, u64),
        taken: Vec<u8>,
    ) -> Ends<'a> {
        let reader = Faulty::new(Pieces::new(bytes, size), read);
        let writer = Faulty::new(Taking { taken, size: most }, write);
        Ends {
            reader: Counted::new(reader),
            writer: Counted::new(writer),
        }
    }

    /// What was written.
    pub(crate) fn written(&self) -> &[u8] {
        self.writer.inner.inner.taken.as_slice()
    }
}

/// What a stream came to.
#[derive(Drop)]
pub(crate) struct Ran {
    pub(crate) answer: Result<(), Refusal>,
    /// Whether the stream was closed.
    pub(crate) closed: bool,
}

/// Serves the first stream of a replica.
pub(crate) fn serve(alloc: Global, core: &mut Core, ends: &mut Ends<'_>) -> Result<Ran, Refusal> {
    let later = DiscoveryRequest::read(alloc, b"{}")?;
    let answer = run_stream(alloc, core, &mut ends.reader, &mut ends.writer);
    let closed = is_closed(core, later);
    Ok(Ran { answer, closed })
}

// Whether a request on stream 1 is told that there is no such stream.
fn is_closed(core: &mut Core, request: DiscoveryRequest) -> bool {
    has_no_stream(core.step(Event::Request(1, Request::Sotw(request))))
}

fn has_no_stream<V: Drop>(answer: Result<V, Refusal>) -> bool {
    matches!(&answer, Err(Refusal::NoStream))
}

/// Serves the first stream of replica 1, which holds nothing.
pub(crate) fn run(alloc: Global, ends: &mut Ends<'_>) -> Result<Ran, Refusal> {
    let mut core = Core::new(alloc, 1);
    let ran = serve(alloc, &mut core, ends);
    drop(core);
    ran
}

/// The bytes of items, an item a line: hex digits, and where a space follows them a text.
pub(crate) fn bytes_of(alloc: Global, items: &str) -> Result<Vec<u8>, Fail> {
    let mut bytes = Vec::new(alloc);
    for item in items.lines() {
        push_item(alloc, &mut bytes, item)?;
    }
    Ok(bytes)
}

fn push_item(alloc: Global, bytes: &mut Vec<u8>, item: &str) -> Result<(), Fail> {
    let (digits, text) = match item.split_once(" ") {
        Some(parts) => parts,
        None => (item, ""),
    };
    let digits = hex::decode(alloc, digits).ok().ok_or("no hex digits")?;
    bytes.extend_from_slice(digits.as_slice())?;
    bytes.extend_from_slice(text.as_bytes())?;
    Ok(())
}

/// The same, with the short names of types written out. A line that begins with four spaces goes on
/// with the line before it.
pub(crate) fn written_bytes(alloc: Global, items: &str) -> Result<Vec<u8>, Fail> {
    let items = unfolded(alloc, items)?;
    let items = written_out(alloc, items.as_str())?;
    bytes_of(alloc, items.as_str())
}
