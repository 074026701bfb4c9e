// A store that is open.
ghost use Rattle.std.specs.Prelude.{◌≡◌};
ghost use Rattle.sqlite_trees.specs.View.{IsClean};

use crate::refusal::{StoreRefusal, of_trees};
use sqlite_disk::{Disk, Files};
pub use sqlite_store::FileStore;
use sqlite_trees::store::Store as Trees;
use sqlite_value::row::Row;
use std::alloc::Global;

/// A store that is open: of each resource the greatest write, deletions among them, and the replica numbers that were
/// taken. `S` is the trees of a database. A call that is refused has changed nothing that is committed, unless a commit
/// failed: then the next open finds what was there before, or what was to be committed. After `Shut` the store has to be
/// opened again.
pub struct Store<S> {
    pub(crate) trees: S,
    pub(crate) alloc: Global,
    pub(crate) row: Row,
    pub(crate) key: Row,
}

// Written out: docs/PROVING.md, "Drops".
impl<S: Drop> Drop for Store<S> {
    fn drop(self) {
        let Store {
            trees: _,
            alloc: _,
            row: _,
            key: _,
        } = self;
    }
}

impl<S: Trees> Store<S> {
    pub(crate) fn over(alloc: Global, trees: S) -> Store<S>
        ensures { result.trees ≡ trees }
    {
        Store {
            trees,
            alloc,
            row: Row::new(alloc),
            key: Row::new(alloc),
        }
    }

    /// Whether the store has to be opened again before a call can succeed.
    pub fn is_shut(&self) -> bool
        ensures { IsClean (S.Store.view self.now.trees) → result ≡ (S.Store.view self.now.trees).is_broken }
    {
        self.trees.is_broken()
    }
}

impl<D: Disk> Store<FileStore<D>> {
    /// Copies what was committed into the database file, so that it stands there without its log, and gives the files
    /// back. Where that fails, the log has it, and the next open finds it there.
    pub fn close(self) -> (Files<D>, Result<(), StoreRefusal>) {
        let Store {
            mut trees,
            alloc: _,
            row: _,
            key: _,
        } = self;
        let copied = match trees.checkpoint() {
            Ok(()) => Ok(()),
            Err(error) => Err(of_trees(error)),
        };
        (trees.close(), copied)
    }
}
