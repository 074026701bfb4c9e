// Why a server doesn't begin, and what is told of it.
ghost use Rattle.std.specs.Prelude.{◌≡◌};

use crate::beginning::ServeFiles;
use std::alloc::Global;
use std::io::Write;
use xds_frames::Counted;
use xds_machine::files::FileFault;
use xds_notes::End;
use xds_resource::Refusal;
use xds_store::StoreRefusal;
use xds_telling::serve_telling::{
    tell, tell_file, tell_no_token, tell_old_numbers, tell_store, tell_text, tell_unloaded,
};
use xds_upkeep::sourcing::Source;

/// Why the stamped writes of a file aren't taken.
#[derive(Clone, Copy)]
pub(crate) enum Unwritten {
    /// The file can't be opened.
    File(FileFault),
    /// A line of it is refused, or it can't be read.
    Line(Option<u64>, Refusal),
    /// The replicas have no numbers above those of the replicas that made these writes.
    Numbers,
}

/// Why a server doesn't begin.
#[derive(Drop)]
pub(crate) enum Unbegun {
    /// The file of the token can't be opened.
    Token(FileFault),
    /// It has none.
    NoToken,
    /// The stamped writes aren't taken.
    Writes(Unwritten),
    /// The file that is to be loaded can't be opened.
    File(FileFault),
    /// A line of it is refused, or it can't be read.
    Load(End),
    /// The store is refused.
    Store(StoreRefusal),
    /// What a folder says isn't taken, as this line tells.
    Source(String),
    /// What a checker says of a file, or that a response is too long by it or by a folder, as this line tells.
    Checked(String),
    /// There is no memory.
    Refused(Refusal),
}

/// That what is said at the start isn't taken, as a text tells.
pub(crate) fn source_line(text: Result<String, Refusal>) -> Unbegun {
    let Ok(mut line) = text else {
        return Unbegun::Refused(Refusal::OutOfMemory);
    };
    match line.push_str("\n") {
        Ok(()) => Unbegun::Checked(line),
        Err(_) => Unbegun::Refused(Refusal::OutOfMemory),
    }
}

/// That a checker doesn't take a line of a file.
pub(crate) fn checked_line(alloc: Global, file: &str, line: &str) -> Unbegun {
    match format!(in alloc; "{file}: {line}\n") {
        Ok(text) => Unbegun::Checked(text),
        Err(_) => Unbegun::Refused(Refusal::OutOfMemory),
    }
}

/// Tells why a server doesn't begin, and answers the status.
pub(crate) fn tell_unbegun<E: Write>(
    alloc: Global,
    errors: &mut Counted<E>,
    files: ServeFiles<'_>,
    fault: Unbegun,
) -> u8
    ensures { result ≡ 1 }
{
    let file = named(files.load);
    match fault {
        Unbegun::Token(fault) => tell_file(alloc, errors, named(files.token), fault),
        Unbegun::NoToken => tell_no_token(alloc, errors, named(files.token)),
        Unbegun::Writes(fault) => tell_unwritten(alloc, errors, named(files.writes), fault),
        Unbegun::File(fault) => tell_file(alloc, errors, file, fault),
        Unbegun::Load(End::Line(line, refusal)) => {
            tell_unloaded(alloc, errors, file, Some(line), refusal)
        }
        Unbegun::Load(End::Refused(refusal)) => tell_unloaded(alloc, errors, file, None, refusal),
        Unbegun::Load(End::Streams | End::Stopped) => {
            tell_unloaded(alloc, errors, file, None, Refusal::Device)
        }
        Unbegun::Source(text) => tell_text(errors, text),
        Unbegun::Store(refusal) => tell_store(alloc, errors, named(files.store), refusal),
        Unbegun::Checked(text) => tell_text(errors, text),
        Unbegun::Refused(refusal) => tell(alloc, errors, refusal),
    }
}

// Tells why the stamped writes of a file aren't taken, and answers the status.
fn tell_unwritten<E: Write>(
    alloc: Global,
    errors: &mut Counted<E>,
    file: &str,
    fault: Unwritten,
) -> u8
    ensures { result ≡ 1 }
{
    match fault {
        Unwritten::File(fault) => tell_file(alloc, errors, file, fault),
        Unwritten::Line(line, refusal) => tell_unloaded(alloc, errors, file, line, refusal),
        Unwritten::Numbers => tell_old_numbers(alloc, errors, file),
    }
}

// The name of a file, if there is one.
fn named(file: Option<&str>) -> &str {
    match file {
        Some(file) => file,
        None => "",
    }
}
