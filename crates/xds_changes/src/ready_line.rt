// The line of the input by which clients are answered.
use std::io;
use std::io::{ErrorKind, Read};
use std::sync::Wait;
use xds_notes::Ending;

// The line, without its line feed.
const READY: &[u8] = b"ready";

// As many bytes as are read at once, at most.
const PIECE: usize = 4_096;

// So many bytes of the line have come where it is another one.
const OTHER: usize = 6;

/// An input whose first line `ready` says that clients are to be answered. That line is read as an empty one, and only by a call that
/// comes once all lines before it were read: so what these say was done then.
pub struct ReadyReader<'a, R, I> {
    rt: &'a R,
    ending: &'a Ending,
    input: I,
    // What was read, and which part of it isn't handed on yet.
    piece: [u8; PIECE],
    at: usize,
    len: usize,
    // How many bytes of the line `ready` have come, which aren't handed on; or `OTHER`.
    matched: usize,
    // Whether the line has come whole, and whether it was handed on.
    is_due: bool,
    is_open: bool,
}

// Written out: docs/PROVING.md, "Drops".
impl<'a, R: Drop, I: Drop> Drop for ReadyReader<'a, R, I> {
    fn drop(self) {
        let ReadyReader {
            rt: _,
            ending: _,
            input: _,
            piece: _,
            at: _,
            len: _,
            matched: _,
            is_due: _,
            is_open: _,
        } = self;
    }
}

impl<'a, R: Wait, I: Read> ReadyReader<'a, R, I> {
    /// Of an input of which nothing was read.
    pub fn new(rt: &'a R, ending: &'a Ending, input: I) -> ReadyReader<'a, R, I> {
        ReadyReader {
            rt,
            ending,
            input,
            piece: [0u8; PIECE],
            at: 0,
            len: 0,
            matched: 0,
            is_due: false,
            is_open: false,
        }
    }

    // rule: loaded-first
    // Clients are to be answered.
    fn open(&mut self) {
        self.is_due = false;
        self.is_open = true;
        self.ending.ask(self.rt);
    }

    // Hands on bytes up to the line `ready`, and answers how many. The first ones of a line are held back while they may be its.
    fn give(&mut self, buf: &mut [u8]) -> usize {
        let mut given = 0usize;
        for _ in self.at..self.len {
            if given.saturating_add(OTHER) >= buf.len() {
                return given;
            }
            let byte = match self.piece.get(self.at) {
                Some(byte) => *byte,
                None => return given,
            };
            self.at = self.at.saturating_add(1);
            if self.matched == READY.len() && byte == b'\n' {
                self.is_due = true;
                return given;
            }
            if READY.get(self.matched) == Some(&byte) {
                self.matched = self.matched.saturating_add(1);
            } else {
                given = self.give_back(buf, given);
                given = put(buf, given, byte);
                self.matched = if byte == b'\n' { 0 } else { OTHER };
            }
        }
        given
    }

    // Hands on what was held back of a line that is another one, behind so many bytes.
    fn give_back(&mut self, buf: &mut [u8], given: usize) -> usize {
        let mut given = given;
        if self.matched <= READY.len() {
            for byte in READY.iter().take(self.matched) {
                given = put(buf, given, *byte);
            }
        }
        self.matched = OTHER;
        given
    }

    // What is left at the end of the input: the last line may have no line feed.
    fn finish(&mut self, buf: &mut [u8]) -> usize {
        if self.matched == READY.len() {
            self.open();
            return 0;
        }
        self.give_back(buf, 0)
    }

    // Hands on what is left of what was read, and answers how many bytes.
    fn give_rest(&mut self, buf: &mut [u8]) -> usize {
        let mut given = 0usize;
        for _ in self.at..self.len {
            if given >= buf.len() {
                return given;
            }
            let byte = match self.piece.get(self.at) {
                Some(byte) => *byte,
                None => return given,
            };
            self.at = self.at.saturating_add(1);
            given = put(buf, given, byte);
        }
        given
    }
}

// Puts a byte at this place, and answers the next one.
fn put(buf: &mut [u8], place: usize, byte: u8) -> usize {
    if let Some(slot) = buf.get_mut(place) {
        *slot = byte;
    }
    place.saturating_add(1)
}

impl<'a, R: Wait, I: Read> Read for ReadyReader<'a, R, I> {
    fn read(&mut self, buf: &mut [u8]) -> io::Result<usize> {
        if buf.len() <= OTHER + 1 {
            return Err(ErrorKind::InvalidInput.into());
        }
        for _ in self.rt.forever() {
            if self.is_due {
                self.open();
                put(buf, 0, b'\n');
                return Ok(1);
            }
            if self.is_open {
                let given = self.give_rest(buf).min(buf.len());
                if given > 0 {
                    return Ok(given);
                }
                return self.input.read(buf);
            }
            if self.at == self.len {
                let count = self.input.read(&mut self.piece)?;
                if count == 0 {
                    return Ok(self.finish(buf).min(buf.len()));
                }
                self.at = 0;
                self.len = count;
            }
            let given = self.give(buf).min(buf.len());
            if given > 0 {
                return Ok(given);
            }
        }
        unreachable!()
    }
}
