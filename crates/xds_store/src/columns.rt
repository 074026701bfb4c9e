// The columns of a write.
ghost use Rattle.std.specs.Prelude.{◌≡◌, Some, map, string_bytes, IfOk, IfErr};
ghost use Rattle.serde_json.specs.Data.{string};
ghost use Rattle.serde_json.specs.Read.{read};
ghost use Rattle.serde_json.specs.View.{view};
ghost use Rattle.xds_store.specs.Rows.{groups_data};

use crate::refusal::{StoreRefusal, of_reading};
use serde_json::Value;
use sqlite_value::row::Row;
use sqlite_value::value::ValueRef;
use std::alloc::Global;
use std::str::from_utf8;
use xds_resource::stamp::MAX_COUNTER;
use xds_resource::{Groups, Stamp};

pub(crate) const TYPE: usize = 0;

pub(crate) const NAME: usize = 1;

pub(crate) const COUNTER: usize = 2;

pub(crate) const WRITER: usize = 3;

pub(crate) const BODY: usize = 4;

pub(crate) const GROUPS: usize = 5;

/// The text in a column.
pub(crate) fn text_at(row: &Row, column: usize) -> Result<&str, StoreRefusal> {
    match row.get(column) {
        ValueRef::Text(bytes) => match from_utf8(bytes) {
            Ok(text) => Ok(text),
            Err(_) => Err(StoreRefusal::Damaged),
        },
        _ => Err(StoreRefusal::Damaged),
    }
}

fn number_at(row: &Row, column: usize) -> Option<u64> {
    match row.get(column) {
        ValueRef::Int(number) => u64::try_from(number).ok(),
        _ => None,
    }
}

/// The stamp of a row.
pub(crate) fn stamp_in(row: &Row) -> Result<Stamp, StoreRefusal> {
    let (Some(counter), Some(writer)) = (number_at(row, COUNTER), number_at(row, WRITER)) else {
        return Err(StoreRefusal::Damaged);
    };
    let Ok(writer) = u16::try_from(writer) else {
        return Err(StoreRefusal::Damaged);
    };
    if counter == 0 || counter > MAX_COUNTER || writer == 0 {
        return Err(StoreRefusal::Damaged);
    }
    Ok(Stamp::new(counter, writer))
}

/// The text of groups: a JSON list of texts.
pub(crate) fn groups_text(alloc: Global, groups: &Groups) -> Result<String, StoreRefusal>
    ensures listed { IfOk result (λ s. read (string_bytes s) ≡ Some (groups_data groups.now)) }
    ensures refused { IfErr result (λ e. e ≡ StoreRefusal.OutOfMemory) }
{
    let values = text_values(alloc, groups.texts())?;
    Ok(Value::Array(values).to_string(alloc)?)
}

// The texts as values.
fn text_values(alloc: Global, texts: &[String]) -> Result<Vec<Value>, StoreRefusal>
    ensures ok { IfOk result (λ v. map view v.items ≡ map string (map string_bytes texts.now)) }
    ensures refused { IfErr result (λ e. e ≡ StoreRefusal.OutOfMemory) }
{
    let mut values = Vec::new(alloc);
    for text in texts {
        values.push(Value::try_from_str(alloc, text.as_str())?)?;
    }
    Ok(values)
}

/// The groups of a row.
pub(crate) fn groups_in(alloc: Global, row: &Row) -> Result<Groups, StoreRefusal> {
    let text = text_at(row, GROUPS)?;
    if text == "[]" {
        return Ok(Groups::none());
    }
    let texts = texts_of(alloc, text)?;
    match Groups::new(alloc, texts.as_slice()) {
        Ok(groups) => Ok(groups),
        Err(refusal) => Err(of_reading(refusal)),
    }
}

fn texts_of(alloc: Global, text: &str) -> Result<Vec<String>, StoreRefusal> {
    let Ok(Value::Array(items)) = Value::from_str(alloc, text) else {
        return Err(StoreRefusal::Damaged);
    };
    let mut texts = Vec::new(alloc);
    for item in items {
        let Value::String(text) = item else {
            return Err(StoreRefusal::Damaged);
        };
        texts.push(text)?;
    }
    Ok(texts)
}
