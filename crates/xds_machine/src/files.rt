// Why a file can't be opened.
ghost use Rattle.std.specs.Prelude.{◌≡◌};
ghost use Rattle.xds_machine.specs.Files.{file_fault_text};

use std::io::ErrorKind;

/// Why a file can't be opened.
#[derive(Clone, Copy, Debug, PartialEq, Eq)]
pub enum FileFault {
    /// It isn't there.
    NoFile,
    /// Who runs the server may not read it.
    Forbidden,
    /// The system says something else.
    Unknown,
}

impl FileFault {
    /// The fault of a call that failed with an error of this kind.
    pub fn of(kind: ErrorKind) -> FileFault {
        match kind {
            ErrorKind::NotFound | ErrorKind::NotADirectory => FileFault::NoFile,
            ErrorKind::PermissionDenied => FileFault::Forbidden,
            _ => FileFault::Unknown,
        }
    }

    // What is told of it behind the refusal.
    pub fn text(self) -> &'static str
        ensures { result.now ≡ file_fault_text self }
    {
        match self {
            FileFault::NoFile => ": no such file",
            FileFault::Forbidden => ": not allowed",
            FileFault::Unknown => "",
        }
    }
}
