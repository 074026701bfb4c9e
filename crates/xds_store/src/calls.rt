// The calls of a database's trees that a store makes.
ghost use Rattle.std.specs.Prelude.{◌≡◌, ◌≤◌, [], Some, false, IsTrue, IsSome, IfOk, IfErr, OnOk, OnErr};
ghost use Rattle.sqlite_value.specs.Keys.{plain};
ghost use Rattle.sqlite_trees.specs.Tree.{rowid, IsTable, with_tree, put_row, insert_entry, remove_entry, from_key};
ghost use Rattle.sqlite_trees.specs.View.{IsClean, doubt, is_int, Finds, Advances};
ghost use Rattle.xds_store.specs.Steps.{IsPending, IsFresh, Survives};
ghost use Rattle.xds_store.specs.Tables.{numbers_tree, writes_tree, HasTables};

use crate::refusal::{StoreRefusal, of_trees};
use crate::schema::{NUMBERS, WRITES};
use sqlite_trees::store::{Direction, Shape, Store};
use sqlite_value::keys::Order;
use sqlite_value::row::Row;

// The one cursor of a store.
const CURSOR: u16 = 0;

// Whether the tables of a store are there.
fn has_tables<S: Store>(trees: &S) -> bool
    ensures { IsTrue result → HasTables (S.Store.view trees.now) }
{
    trees.shape(NUMBERS) == Shape::Table && trees.shape(WRITES) == Shape::Index(Order::PLAIN)
}

/// Begins a transaction. Refused where the store is shut.
pub(crate) fn begin<S: Store>(trees: &mut S) -> Result<(), StoreRefusal>
    ensures pending { IsPending S.Store.view S.Store.recovers trees.old trees.new }
    ensures tables { OnOk result (HasTables (S.Store.view trees.new)) }
    ensures fresh { OnOk result (IsClean (S.Store.view trees.new) → IsFresh (S.Store.view trees.new)) }
{
    trees.rollback();
    if trees.is_broken() || !has_tables(trees) {
        return Err(StoreRefusal::Shut);
    }
    Ok(())
}

/// Ends a transaction, of which nothing is kept.
pub(crate) fn end<S: Store>(trees: &mut S)
    ensures pending { IsPending S.Store.view S.Store.recovers trees.old trees.new }
{
    trees.rollback();
}

/// Commits what the transaction made.
pub(crate) fn commit<S: Store>(trees: &mut S) -> Result<(), StoreRefusal>
    ensures ok { OnOk result (IsClean (S.Store.view trees.new)
        → ((S.Store.view trees.old).is_broken ≡ false) × ((S.Store.view trees.new).committed ≡ (S.Store.view trees.old).trees)) }
    ensures open { OnOk result (IsClean (S.Store.view trees.new) → IsTrue (S.Store.view trees.new).is_open) }
    ensures err { OnErr result (IsTrue (S.Store.view trees.new).is_open
        → IsTrue (S.Store.view trees.old).is_open × ((S.Store.view trees.new).committed ≡ (S.Store.view trees.old).committed)) }
    ensures clean { doubt (S.Store.view trees.old).is_clean ≤ doubt (S.Store.view trees.new).is_clean }
    ensures crash { Survives S.Store.recovers trees.old trees.new
        (λ db. ((S.Store.view trees.old).is_broken ≡ false) × (db ≡ (S.Store.view trees.old).trees)) }
{
    match trees.commit() {
        Ok(()) => Ok(()),
        Err(error) => Err(of_trees(error)),
    }
}

/// Puts a row into the table of numbers.
pub(crate) fn put_number<S: Store>(trees: &mut S, row: &Row) -> Result<(), StoreRefusal>
    requires tables { HasTables (S.Store.view trees.old) }
    requires keyed { IsTrue (is_int (rowid row.now)) }
    ensures pending { IsPending S.Store.view S.Store.recovers trees.old trees.new }
    ensures tables { HasTables (S.Store.view trees.new) }
    ensures ok { OnOk result (IsClean (S.Store.view trees.new)
        → (S.Store.view trees.new).trees ≡ with_tree (S.Store.view trees.old).trees numbers_tree (put_row row.now ((S.Store.view trees.old).trees numbers_tree))) }
    ensures ordered { OnOk result (IsClean (S.Store.view trees.new) → IsTable ((S.Store.view trees.old).trees numbers_tree)) }
{
    match trees.put(NUMBERS, row) {
        Ok(()) => Ok(()),
        Err(error) => Err(of_trees(error)),
    }
}

/// Reads the row of a number in the table of numbers, if it is there.
pub(crate) fn get_number<S: Store>(
    trees: &mut S,
    id: i64,
    row: &mut Row,
) -> Result<bool, StoreRefusal>
    requires tables { HasTables (S.Store.view trees.old) }
    ensures pending { IsPending S.Store.view S.Store.recovers trees.old trees.new }
    ensures tables { HasTables (S.Store.view trees.new) }
    ensures ok { IfOk result (λ found. IsClean (S.Store.view trees.new)
        → Finds ((S.Store.view trees.old).trees numbers_tree) id row.new found × ((S.Store.view trees.new).trees ≡ (S.Store.view trees.old).trees)) }
{
    match trees.get(NUMBERS, id, row) {
        Ok(found) => Ok(found),
        Err(error) => Err(of_trees(error)),
    }
}

/// Takes a row out of the table of writes.
pub(crate) fn remove_write<S: Store>(trees: &mut S, row: &Row) -> Result<(), StoreRefusal>
    requires tables { HasTables (S.Store.view trees.old) }
    ensures pending { IsPending S.Store.view S.Store.recovers trees.old trees.new }
    ensures tables { HasTables (S.Store.view trees.new) }
    ensures ok { OnOk result (IsClean (S.Store.view trees.new)
        → (S.Store.view trees.new).trees ≡ with_tree (S.Store.view trees.old).trees writes_tree (remove_entry plain row.now ((S.Store.view trees.old).trees writes_tree))) }
{
    match trees.remove(WRITES, row) {
        Ok(()) => Ok(()),
        Err(error) => Err(of_trees(error)),
    }
}

/// Puts a row into the table of writes.
pub(crate) fn insert_write<S: Store>(trees: &mut S, row: &Row) -> Result<(), StoreRefusal>
    requires tables { HasTables (S.Store.view trees.old) }
    ensures pending { IsPending S.Store.view S.Store.recovers trees.old trees.new }
    ensures tables { HasTables (S.Store.view trees.new) }
    ensures ok { OnOk result (IsClean (S.Store.view trees.new)
        → (S.Store.view trees.new).trees ≡ with_tree (S.Store.view trees.old).trees writes_tree (insert_entry plain row.now ((S.Store.view trees.old).trees writes_tree))) }
{
    match trees.insert(WRITES, row) {
        Ok(()) => Ok(()),
        Err(error) => Err(of_trees(error)),
    }
}

/// Goes to the first row of the table of writes that isn't below the key.
pub(crate) fn seek_write<S: Store>(trees: &mut S, key: &Row) -> Result<(), StoreRefusal>
    requires tables { HasTables (S.Store.view trees.old) }
    ensures pending { IsPending S.Store.view S.Store.recovers trees.old trees.new }
    ensures tables { HasTables (S.Store.view trees.new) }
    ensures live { OnOk result (IsSome ((S.Store.view trees.new).cursors CURSOR)) }
    ensures ok { OnOk result (IsClean (S.Store.view trees.new)
        → ((S.Store.view trees.new).cursors CURSOR ≡ Some (from_key plain key.now ((S.Store.view trees.old).trees writes_tree)))
        × ((S.Store.view trees.new).trees ≡ (S.Store.view trees.old).trees)) }
{
    match trees.seek(CURSOR, WRITES, key, Direction::Forward) {
        Ok(()) => Ok(()),
        Err(error) => Err(of_trees(error)),
    }
}

/// Goes to the first row of the table of numbers. The key is empty.
pub(crate) fn seek_number<S: Store>(trees: &mut S, key: &Row) -> Result<(), StoreRefusal>
    requires tables { HasTables (S.Store.view trees.old) }
    requires empty { key.now ≡ [] }
    ensures pending { IsPending S.Store.view S.Store.recovers trees.old trees.new }
    ensures tables { HasTables (S.Store.view trees.new) }
    ensures live { OnOk result (IsSome ((S.Store.view trees.new).cursors CURSOR)) }
    ensures same { OnOk result (IsClean (S.Store.view trees.new)
        → (S.Store.view trees.new).trees ≡ (S.Store.view trees.old).trees) }
{
    match trees.seek(CURSOR, NUMBERS, key, Direction::Forward) {
        Ok(()) => Ok(()),
        Err(error) => Err(of_trees(error)),
    }
}

/// Reads the row that the cursor stands before, if there is one.
pub(crate) fn next_row<S: Store>(trees: &mut S, row: &mut Row) -> Result<bool, StoreRefusal>
    requires tables { HasTables (S.Store.view trees.old) }
    requires live { IsSome ((S.Store.view trees.old).cursors CURSOR) }
    ensures pending { IsPending S.Store.view S.Store.recovers trees.old trees.new }
    ensures tables { HasTables (S.Store.view trees.new) }
    ensures live { OnOk result (IsSome ((S.Store.view trees.new).cursors CURSOR)) }
    ensures ok { IfOk result (λ found. IsClean (S.Store.view trees.new)
        → Advances (S.Store.view trees.old) (S.Store.view trees.new) CURSOR row.new found) }
{
    match trees.next(CURSOR, row) {
        Ok(found) => Ok(found),
        Err(error) => Err(of_trees(error)),
    }
}
