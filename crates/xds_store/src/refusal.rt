// Why a store is refused, or a call of one.
use sqlite_store::OpenError;
use sqlite_trees::error::StoreError;
use std::alloc::{AllocError, AllocFailed};
use thiserror::Error;
use xds_resource::Refusal;

/// Why a store is refused, or a call of one. It prints as the rest of a sentence that begins with the file's name.
#[derive(Clone, Copy, Debug, PartialEq, Eq, Hash, Error)]
pub enum StoreRefusal {
    /// The file holds something else.
    #[error("is no store of writes")]
    NotAStore,
    /// There is no file, or an empty one, where a store was before.
    #[error("is gone or empty")]
    Gone,
    /// The file is a store whose tables, or whose row of numbers, are those of another format.
    #[error("is a store of a later format than this program knows")]
    LaterFormat,
    /// A page, a row or the log isn't what a store holds.
    #[error("is damaged")]
    Damaged,
    /// Another process has the file open.
    #[error("is in use by another server")]
    InUse,
    /// A journal of SQLite lies beside the file, which only SQLite plays back.
    #[error("has a journal beside it: open it once by sqlite3")]
    HotJournal,
    /// No replica number that was asked for is left.
    #[error("has given out all replica numbers up to 65535: begin another store")]
    NumbersUsed,
    /// The number that was asked for is below the next free one.
    #[error("has given out this replica number, or a greater one")]
    NumberTaken,
    /// A row would have more than a billion bytes.
    #[error("can't hold a write that long")]
    TooLong,
    /// The disk or the file has no room.
    #[error("can't grow: the disk is full")]
    Full,
    /// The system refused to open, to read or to write the file.
    #[error("can't be read or written")]
    Device,
    /// A call before failed so that the store has to be opened again.
    #[error("failed before and has to be opened again")]
    Shut,
    /// An allocation was refused.
    #[error("can't be held: out of memory")]
    OutOfMemory,
}

impl From<AllocError> for StoreRefusal {
    ghost use Rattle.std.specs.Prelude.{◌≡◌};
    ghost use Rattle.xds_store.specs.declared.refusal.StoreRefusal.TheVariants.{OutOfMemory};

    ghost from_gives = { λ _ e. e ≡ OutOfMemory };

    fn from(_refused: AllocError) -> StoreRefusal {
        StoreRefusal::OutOfMemory
    }
}

impl<T: Drop> From<AllocFailed<T>> for StoreRefusal {
    ghost use Rattle.std.specs.Prelude.{◌≡◌};
    ghost use Rattle.xds_store.specs.declared.refusal.StoreRefusal.TheVariants.{OutOfMemory};

    ghost from_gives = { λ _ e. e ≡ OutOfMemory };

    fn from(_refused: AllocFailed<T>) -> StoreRefusal {
        StoreRefusal::OutOfMemory
    }
}

// What a failure of the trees is told as.
pub(crate) fn of_trees(error: StoreError) -> StoreRefusal {
    match error {
        StoreError::OutOfMemory => StoreRefusal::OutOfMemory,
        StoreError::Io => StoreRefusal::Device,
        StoreError::Corrupt => StoreRefusal::Damaged,
        StoreError::Full => StoreRefusal::Full,
        StoreError::Broken => StoreRefusal::Shut,
        StoreError::Unstorable => StoreRefusal::TooLong,
    }
}

// What a failure to open the trees is told as.
pub(crate) fn of_opening(error: OpenError) -> StoreRefusal {
    match error {
        OpenError::OutOfMemory => StoreRefusal::OutOfMemory,
        OpenError::Io => StoreRefusal::Device,
        OpenError::Full => StoreRefusal::Full,
        OpenError::Refused => StoreRefusal::Damaged,
    }
}

// What a refusal to read a stored text is told as: only memory is no damage.
pub(crate) fn of_reading(refusal: Refusal) -> StoreRefusal {
    match refusal {
        Refusal::OutOfMemory => StoreRefusal::OutOfMemory,
        _ => StoreRefusal::Damaged,
    }
}
