// A client that is run over readers and writers in memory.
use std::alloc::Global;
use std::io;
use std::io::{ErrorKind, Read, Write};
use std::test::Fail;
use xds_cases::cases::written_out;
use xds_client::{Subscription, run_client};
use xds_frames::{Counted, Faulty, FrameKind, push_frame};
use xds_resource::Refusal;

/// A reader that gives its bytes in pieces of one size.
#[derive(Drop)]
pub(crate) struct Pieces<'a> {
    bytes: &'a [u8],
    size: usize,
}

impl Read for Pieces<'_> {
    fn read(&mut self, buf: &mut [u8]) -> io::Result<usize> {
        let count = self.size.min(self.bytes.len()).min(buf.len());
        let (piece, rest) = self.bytes.split_at(count);
        buf[..count].copy_from_slice(piece);
        self.bytes = rest;
        Ok(count)
    }
}

/// A writer that takes at most so many bytes a call.
#[derive(Drop)]
pub(crate) struct Taking {
    taken: Vec<u8>,
    size: usize,
}

impl Write for Taking {
    fn write(&mut self, buf: &[u8]) -> io::Result<usize> {
        let count = self.size.min(buf.len());
        if self.taken.extend_from_slice(&buf[..count]).is_err() {
            return Err(io::Error::from(ErrorKind::OutOfMemory));
        }
        Ok(count)
    }

    fn flush(&mut self) -> io::Result<()> {
        Ok(())
    }
}

/// How many bytes a reader or a writer passes at most in a call, and which call of it fails, where
/// any does.
#[derive(Clone, Copy)]
pub(crate) struct Device {
    pub(crate) size: usize,
    pub(crate) failing: u64,
}

/// A device that passes all bytes at once, and never fails.
pub(crate) const WELL: Device = Device {
    size: usize::MAX,
    failing: 0,
};

fn writer(alloc: Global, device: Device) -> Counted<Faulty<Taking>> {
    let taking = Taking {
        taken: Vec::new(alloc),
        size: device.size,
    };
    Counted::new(Faulty::new(taking, device.failing))
}

/// What a client reads, and what it has written.
#[derive(Drop)]
pub(crate) struct Ends<'a> {
    reader: Counted<Faulty<Pieces<'a>>>,
    server: Counted<Faulty<Taking>>,
    output: Counted<Faulty<Taking>>,
}

impl<'a> Ends<'a> {
    pub(crate) fn new(
        alloc: Global,
        bytes: &'a [u8],
        reader: Device,
        server: Device,
        output: Device,
    ) -> Ends<'a> {
        let pieces = Pieces {
            bytes,
            size: reader.size,
        };
        Ends {
            reader: Counted::new(Faulty::new(pieces, reader.failing)),
            server: writer(alloc, server),
            output: writer(alloc, output),
        }
    }

    /// What was said to the server.
    pub(crate) fn said(&self) -> &[u8] {
        self.server.inner.inner.taken.as_slice()
    }

    /// What was printed.
    pub(crate) fn printed(&self) -> &[u8] {
        self.output.inner.inner.taken.as_slice()
    }

    /// How many calls of the reader were made.
    pub(crate) fn reads(&self) -> u64 {
        self.reader.calls
    }
}

pub(crate) fn run(
    alloc: Global,
    wish: &Subscription<'_>,
    ends: &mut Ends<'_>,
) -> Result<(), Refusal> {
    run_client(
        alloc,
        wish,
        &mut ends.reader,
        &mut ends.server,
        &mut ends.output,
    )
}

/// The bytes of items, an item a line: the number of a kind and a text, which are a frame, or hex
/// digits.
pub(crate) fn bytes_of(alloc: Global, items: &str) -> Result<Vec<u8>, Fail> {
    let mut bytes = Vec::new(alloc);
    for item in items.lines() {
        push_item(alloc, &mut bytes, item)?;
    }
    Ok(bytes)
}

fn push_item(alloc: Global, bytes: &mut Vec<u8>, item: &str) -> Result<(), Fail> {
    let Some((number, text)) = item.split_once(" ") else {
        let digits = hex::decode(alloc, item).ok().ok_or("no hex digits")?;
        bytes.extend_from_slice(digits.as_slice())?;
        return Ok(());
    };
    let number = number.parse::<u8>().ok().ok_or("no number of a kind")?;
    let kind = FrameKind::from_number(number).ok_or("no such kind")?;
    push_frame(bytes, kind, text.as_bytes())?;
    Ok(())
}

/// The same, with the short names of types written out.
pub(crate) fn written_bytes(alloc: Global, items: &str) -> Result<Vec<u8>, Fail> {
    let items = written_out(alloc, items)?;
    bytes_of(alloc, items.as_str())
}
