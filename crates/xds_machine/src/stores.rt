// The stores of a machine.
use std::rt::HostRuntime;
use xds_store::{File, StoreRefusal, close_at, has_log, open_at, reopen_at};

/// A store in a file.
pub type FileStore = xds_store::Store<xds_store::FileStore<File>>;

/// What opens the stores of a machine.
pub trait OpensStores {
    /// Opens the store at a path, or makes one where there is no file or an empty one.
    fn open_store(&self, path: &str) -> Result<FileStore, StoreRefusal>;

    /// Opens the store at a path once more. A file that is gone, or empty, is refused.
    fn reopen_store(&self, path: &str) -> Result<FileStore, StoreRefusal>;

    /// Whether a log lies beside the file at a path.
    fn has_log(&self, path: &str) -> bool;

    /// Leaves a store that was opened just now at a path, and of which nothing changed: its file stays as it was, and where there was
    /// no log beside it, none stays.
    fn leave_store(&self, path: &str, store: FileStore, had_log: bool);
}

impl OpensStores for HostRuntime {
    fn open_store(&self, path: &str) -> Result<FileStore, StoreRefusal> {
        open_at(self, path)
    }

    fn reopen_store(&self, path: &str) -> Result<FileStore, StoreRefusal> {
        reopen_at(self, path)
    }

    fn has_log(&self, path: &str) -> bool {
        has_log(self, path)
    }

    fn leave_store(&self, path: &str, store: FileStore, had_log: bool) {
        if had_log {
            drop(store);
        } else {
            let _ = close_at(self, path, store);
        }
    }
}
