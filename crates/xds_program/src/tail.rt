// The line of an input that is refused, kept for who tells why.
use std::alloc::Global;
use xds_script::lines::split_line;

/// The line of an input that is read in pieces which is refused, once one is: it holds the beginning of the line that isn't ended, and
/// counts the lines before it. Nothing rests on it but what is told.
pub struct Tail {
    held: Vec<u8>,
    lines: usize,
    line: Option<Vec<u8>>,
}

// Written out: docs/PROVING.md, "Drops".
impl Drop for Tail {
    fn drop(self) {
        let Tail {
            held: _,
            lines: _,
            line: _,
        } = self;
    }
}

impl Tail {
    /// Of an input of which nothing was read.
    pub fn new(alloc: Global) -> Tail {
        Tail {
            held: Vec::new(alloc),
            lines: 0,
            line: None,
        }
    }

    /// Passes over a piece whose lines are right.
    pub(crate) fn pass(&mut self, piece: &[u8]) {
        let mut rest = piece;
        while let Some((_, following)) = split_line(rest) {
            self.held.clear();
            self.lines = self.lines.saturating_add(1);
            rest = following;
        }
        if self.held.extend_from_slice(rest).is_err() {
            self.held.clear();
        }
    }

    /// Keeps the line of this number, from 1, which ends in this piece.
    pub(crate) fn keep(&mut self, alloc: Global, piece: &[u8], number: usize) {
        if self.held.extend_from_slice(piece).is_err() {
            return;
        }
        let before = number.saturating_sub(self.lines).saturating_sub(1);
        self.line = nth_line(alloc, self.held.as_slice(), before);
    }

    /// The line that was kept.
    pub fn line(&self) -> Option<&[u8]> {
        match &self.line {
            Some(line) => Some(line.as_slice()),
            None => None,
        }
    }

    /// Whether nothing was read.
    pub fn is_empty(&self) -> bool {
        self.lines == 0 && self.held.is_empty()
    }
}

/// The line of some bytes that so many lines are before, its line feed aside, if there is one, and memory for it.
pub(crate) fn nth_line(alloc: Global, bytes: &[u8], before: usize) -> Option<Vec<u8>> {
    let mut left = before;
    let mut rest = bytes;
    while let Some((line, following)) = split_line(rest) {
        if left == 0 {
            return copied(alloc, line);
        }
        left -= 1;
        rest = following;
    }
    if left == 0 {
        return copied(alloc, rest);
    }
    None
}

fn copied(alloc: Global, line: &[u8]) -> Option<Vec<u8>> {
    let mut copy = Vec::new(alloc);
    if copy.extend_from_slice(line).is_err() {
        return None;
    }
    Some(copy)
}
