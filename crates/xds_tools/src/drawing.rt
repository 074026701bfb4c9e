// A picture, written into a file.
ghost use Rattle.std.specs.Prelude.{◌≡◌, ◌⊎◌};
ghost use Rattle.xds_frames.specs.Devices.{Stays, seen};

use std::alloc::Global;
use std::fs::{File, OpenOptions};
use std::io;
use std::io::Write;
use std::os::unix::fs::OpenOptionsExt;
use std::rt::Files;
use xds_frames::{Counted, write_whole};
use xds_machine::files::FileFault;
use xds_monitor::PRIVATE;
use xds_program::Drawing;
use xds_telling::serve_telling::tell_file;

/// Writes a picture into its file, in place of what the file had, and answers the status of the run. Only who runs the program may read
/// a file that wasn't there. A file that can't be written is told, with its name and why.
pub fn draw<R, E>(rt: &R, alloc: Global, drawing: &Drawing, errors: &mut Counted<E>) -> u8
where
    R: Files<File = File>,
    E: Write,
    ensures { ((result ≡ drawing.now.status) × Stays (seen E.contents errors.old errors.new)) ⊎ (result ≡ 1) }
{
    let file = drawing.file.as_str();
    let opened = match empty_file(rt, file) {
        Ok(opened) => opened,
        Err(error) => return tell_file(alloc, errors, file, FileFault::of(error.kind())),
    };
    match write_whole(&mut Counted::new(opened), drawing.svg.as_bytes()) {
        Ok(()) => drawing.status,
        Err(_) => tell_file(alloc, errors, file, FileFault::Unknown),
    }
}

// A file of this name, with nothing in it.
fn empty_file<R: Files<File = File>>(rt: &R, file: &str) -> io::Result<File> {
    OpenOptions::new()
        .write(true)
        .create(true)
        .truncate(true)
        .mode(PRIVATE)
        .open(rt, file)
}
