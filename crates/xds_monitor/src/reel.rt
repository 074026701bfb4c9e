// What a trace is recorded on: a file that passes for no trace until the trace is whole.
use std::fs::OpenFile;
use std::io;
use std::io::{Seek, SeekFrom, Write};
use std::os::unix::fs::MetadataExt;

/// What stands in a file in place of its first byte, until it is sealed. No line of a trace begins so.
pub const UNSEALED: u8 = b'?';

/// Something that is written to, and that is sealed once all of it was.
pub trait Seals: Write {
    /// From here on it passes for what was written.
    fn seal(&mut self) -> io::Result<()>;

    /// Whether what was written is still to be found.
    fn is_there(&self) -> bool {
        true
    }
}

/// A file, and the first byte that was written to it, which the file has in its place only once it is sealed. Until then it has a
/// question mark there. So a trace that breaks off, wherever it does, is told as none.
pub struct Reel<F> {
    file: F,
    first: Option<u8>,
}

// Written out: docs/PROVING.md, "Drops".
impl<F: Drop> Drop for Reel<F> {
    fn drop(self) {
        let Reel { file: _, first: _ } = self;
    }
}

impl<F: Write + Drop> Reel<F> {
    /// That of a file in which nothing is.
    pub fn begun(file: F) -> io::Result<Reel<F>> {
        let mut file = file;
        match file.write_all(&[UNSEALED]) {
            Ok(()) => Ok(Reel { file, first: None }),
            Err(error) => {
                drop(file);
                Err(error)
            }
        }
    }
}

impl<F> Reel<F> {
    /// The file.
    pub fn file(&self) -> &F {
        &self.file
    }
}

impl<F: Write> Write for Reel<F> {
    ghost use Rattle.std.specs.Prelude.{None};

    ghost contents = { λ r. None };

    fn write(&mut self, buf: &[u8]) -> io::Result<usize> {
        if self.first.is_some() || buf.is_empty() {
            return self.file.write(buf);
        }
        self.first = Some(buf[0]);
        Ok(1)
    }

    fn flush(&mut self) -> io::Result<()> {
        self.file.flush()
    }
}

impl<F: Write + Seek + OpenFile> Seals for Reel<F> {
    fn seal(&mut self) -> io::Result<()> {
        match self.first {
            Some(first) => {
                self.file.seek(SeekFrom::Start(0))?;
                self.file.write_all(&[first])?;
                self.file.flush()
            }
            None => self.file.set_len(0),
        }
    }

    // A file that stands in no folder any more has no links left.
    fn is_there(&self) -> bool {
        match self.file.metadata() {
            Ok(file) => file.nlink() > 0,
            Err(_) => false,
        }
    }
}
