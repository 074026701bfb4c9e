// Putting writes into the table: under each type and name the greatest stays.
ghost use Rattle.std.specs.Prelude.{◌≡◌, ◌∷◌, [], ◌++◌, ◌≤◌, ℕ, map, IsTrue, IfOk, OnOk, OnErr};
ghost use Rattle.std.specs.Ordering.{is_lt};
ghost use Rattle.sqlite_value.specs.Keys.{plain};
ghost use Rattle.sqlite_value.specs.Order.{Row, column};
ghost use Rattle.sqlite_value.specs.declared.value.Value.TheVariants.{Text};
ghost use Rattle.sqlite_trees.specs.Tree.{Trees, with_tree, insert_entry, from_key};
ghost use Rattle.sqlite_trees.specs.View.{IsClean, doubt};
ghost use Rattle.xds_message.specs.Batches.{typed, in_order};
ghost use Rattle.xds_resource.specs.Writes.{write_cmp};
ghost use Rattle.xds_store.specs.Numbers.{AreTaken};
ghost use Rattle.xds_store.specs.Joins.{IsJoined, IsFound};
ghost use Rattle.xds_store.specs.Rows.{IsRowOf, Puts};
ghost use Rattle.xds_store.specs.Steps.{IsPending, Survives};
ghost use Rattle.xds_store.specs.Tables.{HasTables, writes_tree};

use crate::calls::{begin, commit, end, insert_write, next_row, remove_write, seek_write};
use crate::refusal::StoreRefusal;
use crate::rows::{fill, fill_key, is_of, write_in};
use crate::store::Store;
use sqlite_trees::store::Store as Trees;
use std::cmp::Ordering;
use xds_message::Batch;
use xds_resource::{ResourceType, Write};

impl<S: Trees> Store<S> {
    // rule: greatest-write, rule: stored
    /// Puts the writes of a batch in one transaction: under each type and name the greatest write stays, of those that
    /// stand there and those that come. It answers once that is committed.
    pub fn put_batch(&mut self, batch: &Batch) -> Result<(), StoreRefusal>
        ensures ok { OnOk result (IsClean (S.Store.view self.new.trees)
            → IsJoined (S.Store.view self.old.trees).committed (S.Store.view self.new.trees).committed batch.now) }
        ensures err { OnErr result (IsTrue (S.Store.view self.new.trees).is_open
            → (S.Store.view self.new.trees).committed ≡ (S.Store.view self.old.trees).committed) }
        ensures crash { Survives S.Store.recovers self.old.trees self.new.trees
            (λ db. IsJoined (S.Store.view self.old.trees).committed db batch.now) }
        ensures clean { doubt (S.Store.view self.old.trees).is_clean ≤ doubt (S.Store.view self.new.trees).is_clean }
        ensures kept { (next : ℕ) → AreTaken S.Store.recovers self.old.trees next → AreTaken S.Store.recovers self.new.trees next }
    {
        begin(&mut self.trees)?;
        match self.put_lists(batch) {
            Ok(()) => commit(&mut self.trees),
            Err(refusal) => {
                end(&mut self.trees);
                Err(refusal)
            }
        }
    }

    fn put_lists(&mut self, batch: &Batch) -> Result<(), StoreRefusal>
        requires tables { HasTables (S.Store.view self.old.trees) }
        ensures pending { IsPending S.Store.view S.Store.recovers self.old.trees self.new.trees }
        ensures ok { OnOk result (IsClean (S.Store.view self.new.trees)
            → Puts (S.Store.view self.old.trees).trees (S.Store.view self.new.trees).trees (in_order batch.now)) }
    {
        self.put_list(&batch.cluster)?;
        self.put_list(&batch.endpoint)?;
        self.put_list(&batch.listener)?;
        self.put_list(&batch.route)?;
        self.put_list(&batch.secret)
    }

    fn put_list<T: ResourceType>(&mut self, writes: &Vec<Write<T>>) -> Result<(), StoreRefusal>
        requires tables { HasTables (S.Store.view self.old.trees) }
        ensures pending { IsPending S.Store.view S.Store.recovers self.old.trees self.new.trees }
        ensures tables { HasTables (S.Store.view self.new.trees) }
        ensures ok { OnOk result (IsClean (S.Store.view self.new.trees)
            → Puts (S.Store.view self.old.trees).trees (S.Store.view self.new.trees).trees (typed T.TYPE writes.now.items)) }
    {
        for write in writes {
            self.put(write)?;
        }
        Ok(())
    }

    fn put<T: ResourceType>(&mut self, write: &Write<T>) -> Result<(), StoreRefusal>
        requires tables { HasTables (S.Store.view self.old.trees) }
        ensures pending { IsPending S.Store.view S.Store.recovers self.old.trees self.new.trees }
        ensures tables { HasTables (S.Store.view self.new.trees) }
        ensures ok { OnOk result (IsClean (S.Store.view self.new.trees)
            → Puts (S.Store.view self.old.trees).trees (S.Store.view self.new.trees).trees ((T.TYPE, write.now) ∷ [])) }
    {
        if !self.find(write)? {
            return self.add(write);
        }
        let former: Write<T> = write_in(self.alloc, &self.row, &mut self.key)?;
        if !is_older(&former, write) {
            return Ok(());
        }
        remove_write(&mut self.trees, &self.row)?;
        self.add(write)
    }

    // Puts the row of a write into the table.
    fn add<T: ResourceType>(&mut self, write: &Write<T>) -> Result<(), StoreRefusal>
        requires tables { HasTables (S.Store.view self.old.trees) }
        ensures pending { IsPending S.Store.view S.Store.recovers self.old.trees self.new.trees }
        ensures tables { HasTables (S.Store.view self.new.trees) }
        ensures ok { OnOk result (IsClean (S.Store.view self.new.trees)
            → (r : Row) × IsRowOf r (T.TYPE, write.now) × ((S.Store.view self.new.trees).trees
            ≡ with_tree (S.Store.view self.old.trees).trees writes_tree (insert_entry plain r ((S.Store.view self.old.trees).trees writes_tree)))) }
    {
        fill(self.alloc, &mut self.row, write)?;
        insert_write(&mut self.trees, &self.row)
    }

    // Reads the row that stands under the write's type and name, if there is one.
    fn find<T: ResourceType>(&mut self, write: &Write<T>) -> Result<bool, StoreRefusal>
        requires tables { HasTables (S.Store.view self.old.trees) }
        ensures pending { IsPending S.Store.view S.Store.recovers self.old.trees self.new.trees }
        ensures tables { HasTables (S.Store.view self.new.trees) }
        ensures named { IfOk result (λ found. IsTrue found → column (self.new.row) 1 ≡ Text write.now.name) }
        ensures ok { IfOk result (λ found. IsClean (S.Store.view self.new.trees)
            → ((S.Store.view self.new.trees).trees ≡ (S.Store.view self.old.trees).trees)
            × (IsTrue found → IsFound ((S.Store.view self.old.trees).trees writes_tree) self.new.row)) }
    {
        fill_key::<T>(&mut self.key, write.name())?;
        seek_write(&mut self.trees, &self.key)?;
        let found = next_row(&mut self.trees, &mut self.row)?;
        Ok(found && is_of(&self.row, &self.key))
    }
}

// Whether the one write is below the other.
fn is_older<T: ResourceType>(former: &Write<T>, write: &Write<T>) -> bool
    ensures { result ≡ is_lt (write_cmp former.now write.now) }
{
    former.cmp(write) == Ordering::Less
}
