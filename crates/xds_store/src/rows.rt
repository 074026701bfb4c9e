// The row that a write is stored as, and the write that a row holds.
ghost use Rattle.std.specs.Prelude.{◌≡◌, [], ◌∷◌, option_map, IsTrue, IfOk, IfErr, OnOk};
ghost use Rattle.sqlite_value.specs.Order.{column};
ghost use Rattle.sqlite_value.specs.Value.{owned};
ghost use Rattle.sqlite_value.specs.declared.value.Value.TheVariants.{Text};
ghost use Rattle.xds_resource.specs.Types.{row as row_of_type};
ghost use Rattle.xds_store.specs.Rows.{IsRowOf, body_value};

use crate::columns::{BODY, NAME, TYPE, groups_in, groups_text, stamp_in, text_at};
use crate::refusal::{StoreRefusal, of_reading};
use sqlite_value::order::is_same;
use sqlite_value::row::Row;
use sqlite_value::value::ValueRef;
use std::alloc::Global;
use std::sync::ArcStr;
use xds_resource::resource::is_valid_name;
use xds_resource::{Groups, Resource, ResourceType, Stamp, Write};

/// Makes the row the one of a write.
pub(crate) fn fill<T: ResourceType>(
    alloc: Global,
    row: &mut Row,
    write: &Write<T>,
) -> Result<(), StoreRefusal>
    ensures ok { OnOk result (IsRowOf row.new (T.TYPE, write.now)) }
    ensures refused { IfErr result (λ e. e ≡ StoreRefusal.OutOfMemory) }
{
    let groups = groups_text(alloc, write.groups())?;
    let stamp = write.stamp();
    fill_key::<T>(row, write.name())?;
    row.push(ValueRef::Int(stamp.counter as i64))?;
    row.push(ValueRef::Int(i64::from(stamp.writer)))?;
    row.push(body_of(write.body()))?;
    row.push(ValueRef::Text(groups.as_str().as_bytes()))?;
    Ok(())
}

/// Makes the row the key of a resource: its type and its name.
pub(crate) fn fill_key<T: ResourceType>(row: &mut Row, name: &str) -> Result<(), StoreRefusal>
    ensures ok { OnOk result (row.new ≡ Text (row_of_type T.TYPE).word ∷ Text name.now ∷ []) }
    ensures refused { IfErr result (λ e. e ≡ StoreRefusal.OutOfMemory) }
{
    row.clear();
    row.push(ValueRef::Text(T::TYPE.word().as_bytes()))?;
    row.push(ValueRef::Text(name.as_bytes()))?;
    Ok(())
}

fn body_of(body: Option<&str>) -> ValueRef<'_>
    ensures { owned result ≡ body_value (option_map (λ s. s.now) body.entry) }
{
    match body {
        Some(text) => ValueRef::Text(text.as_bytes()),
        None => ValueRef::Null,
    }
}

/// Whether a row has the type and the name of a key.
pub(crate) fn is_of(row: &Row, key: &Row) -> bool
    ensures { IsTrue result → column row.now 1 ≡ column key.now 1 }
{
    is_same(row.get(TYPE), key.get(TYPE)) && is_same(row.get(NAME), key.get(NAME))
}

/// The write of this type that a row holds. `again` becomes the row of that write.
pub(crate) fn write_in<T: ResourceType>(
    alloc: Global,
    row: &Row,
    again: &mut Row,
) -> Result<Write<T>, StoreRefusal>
    ensures ok { IfOk result (λ w. IsRowOf row.now (T.TYPE, w)) }
{
    let write = read_in(alloc, row)?;
    fill(alloc, again, &write)?;
    if !row.is_same(again) {
        return Err(StoreRefusal::Damaged);
    }
    Ok(write)
}

// The write that a row is read as, if it is of this type.
fn read_in<T: ResourceType>(alloc: Global, row: &Row) -> Result<Write<T>, StoreRefusal> {
    let name = text_at(row, NAME)?;
    let stamp = stamp_in(row)?;
    let groups = groups_in(alloc, row)?;
    match row.get(BODY) {
        ValueRef::Null => deletion_of(alloc, stamp, name, groups),
        _ => put_of(alloc, stamp, text_at(row, BODY)?, groups),
    }
}

fn deletion_of<T: ResourceType>(
    alloc: Global,
    stamp: Stamp,
    name: &str,
    groups: Groups,
) -> Result<Write<T>, StoreRefusal> {
    if !groups.is_empty() || !is_valid_name(name) {
        return Err(StoreRefusal::Damaged);
    }
    Ok(Write::deletion(stamp, ArcStr::from_str(alloc, name)?))
}

fn put_of<T: ResourceType>(
    alloc: Global,
    stamp: Stamp,
    body: &str,
    groups: Groups,
) -> Result<Write<T>, StoreRefusal> {
    match Resource::parse(alloc, body) {
        Ok(resource) => Ok(Write::put(stamp, resource, groups)),
        Err(refusal) => Err(of_reading(refusal)),
    }
}
