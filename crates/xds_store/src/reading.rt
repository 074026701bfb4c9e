// Reading all writes of a store.
ghost use Rattle.std.specs.Prelude.{◌≡◌, List, [], ◌∷◌, ◌++◌, Some, IsTrue, IsSome, IfOk, OnOk, MatchBool};
ghost use Rattle.sqlite_value.specs.Order.{Row};
ghost use Rattle.sqlite_trees.specs.View.{IsClean};
ghost use Rattle.xds_catalogue.specs.Holdings.{nothing_held};
ghost use Rattle.xds_catalogue.specs.Joins.{joined};
ghost use Rattle.xds_message.specs.Batches.{typed_write};
ghost use Rattle.xds_resource.specs.PerType.{at, each, with_at};
ghost use Rattle.xds_resource.specs.declared.types.TypeName.{TypeName};
ghost use Rattle.xds_store.specs.Joins.{AreWrites, stored_in, kept};
ghost use Rattle.xds_store.specs.Numbers.{AreTaken};
ghost use Rattle.xds_store.specs.Reading.{ReadsOn, IsReadTo, IsWhole};
ghost use Rattle.xds_store.specs.Rows.{IsRowOf};
ghost use Rattle.xds_store.specs.Steps.{IsPending};
ghost use Rattle.xds_store.specs.Tables.{HasTables, writes_tree};

use crate::calls::{begin, end, next_row, seek_write};
use crate::columns::{TYPE, text_at};
use crate::refusal::StoreRefusal;
use crate::rows::write_in;
use crate::store::Store;
use sqlite_trees::store::Store as Trees;
use sqlite_value::row::Row;
use std::alloc::Global;
use xds_message::Batch;
use xds_resource::{AnyWrite, TypeName, for_type};

impl<S: Trees> Store<S> {
    // rule: stored
    /// All writes of the store: those of each type in ascending order of names. Refused by `Damaged` where a row is not
    /// that of a write.
    pub fn read_all(&mut self) -> Result<Batch, StoreRefusal>
        ensures sound { IfOk result (λ batch. IsClean (S.Store.view self.new.trees)
            → AreWrites (S.Store.view self.old.trees).committed) }
        ensures ok { IfOk result (λ batch. IsClean (S.Store.view self.new.trees)
            → (t : TypeName) → at batch t ≡ stored_in (S.Store.view self.old.trees).committed t) }
        ensures merged { IfOk result (λ batch. IsClean (S.Store.view self.new.trees)
            → (t : TypeName) → (joined nothing_held (at batch t)).entries ≡ kept (S.Store.view self.old.trees).committed t) }
        ensures pending { IsPending S.Store.view S.Store.recovers self.old.trees self.new.trees }
    {
        begin(&mut self.trees)?;
        let mut batch = Batch::new(self.alloc);
        match self.read_rows(&mut batch) {
            Ok(()) => Ok(batch),
            Err(refusal) => {
                end(&mut self.trees);
                Err(refusal)
            }
        }
    }

    fn read_rows(&mut self, batch: &mut Batch) -> Result<(), StoreRefusal>
        requires tables { HasTables (S.Store.view self.old.trees) }
        requires empty { batch.old ≡ each [] }
        ensures pending { IsPending S.Store.view S.Store.recovers self.old.trees self.new.trees }
        ensures ok { OnOk result (IsClean (S.Store.view self.new.trees)
            → IsWhole ((S.Store.view self.old.trees).trees writes_tree) batch.new) }
    {
        self.key.clear();
        seek_write(&mut self.trees, &self.key)?;
        self.read_on(batch)
    }

    // Reads the rows that are left.
    fn read_on(&mut self, batch: &mut Batch) -> Result<(), StoreRefusal>
        requires tables { HasTables (S.Store.view self.old.trees) }
        requires live { IsSome ((S.Store.view self.old.trees).cursors 0) }
        ensures pending { IsPending S.Store.view S.Store.recovers self.old.trees self.new.trees }
        ensures ok { OnOk result (IsClean (S.Store.view self.new.trees) → (rows : List Row)
            → IsReadTo rows ((S.Store.view self.old.trees).cursors 0) batch.old → IsWhole rows batch.new) }
    {
        'rows: for _ in 0..u64::MAX {
            if !self.read_next(batch)? {
                return Ok(());
            }
        }
        Err(StoreRefusal::Damaged)
    }

    // Adds the write of the next row, if there is one.
    fn read_next(&mut self, batch: &mut Batch) -> Result<bool, StoreRefusal>
        requires tables { HasTables (S.Store.view self.old.trees) }
        requires live { IsSome ((S.Store.view self.old.trees).cursors 0) }
        ensures pending { IsPending S.Store.view S.Store.recovers self.old.trees self.new.trees }
        ensures tables { HasTables (S.Store.view self.new.trees) }
        ensures live { OnOk result (IsSome ((S.Store.view self.new.trees).cursors 0)) }
        ensures ok { IfOk result (λ more. IsClean (S.Store.view self.new.trees)
            → ReadsOn ((S.Store.view self.old.trees).cursors 0) ((S.Store.view self.new.trees).cursors 0) batch.old batch.new more) }
    {
        if !next_row(&mut self.trees, &mut self.row)? {
            return Ok(false);
        }
        let write = any_write_in(self.alloc, &self.row, &mut self.key)?;
        match batch.push(write) {
            Ok(()) => Ok(true),
            Err(_) => Err(StoreRefusal::OutOfMemory),
        }
    }
}

// The write that a row holds.
fn any_write_in(alloc: Global, row: &Row, again: &mut Row) -> Result<AnyWrite, StoreRefusal>
    ensures ok { IfOk result (λ w. IsRowOf row.now (typed_write w)) }
{
    let Some(kind) = TypeName::from_word(text_at(row, TYPE)?) else {
        return Err(StoreRefusal::Damaged);
    };
    Ok(for_type!(kind, AnyWrite of write_in(alloc, row, again)?))
}
