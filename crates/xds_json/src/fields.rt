// The fields of a message's object, by kind.
ghost use Rattle.std.specs.Prelude.{map as map_items, ◌≡◌, ◌≢◌, ℤ, map, option_map, string_bytes, IfOk, IfErr, OnOk, IfSome, IfNone, FitsSigned};
ghost use Rattle.std.specs.Int.{w32};
ghost use Rattle.serde_json.specs.Data.{Data, string};
ghost use Rattle.serde_json.specs.Find.{as_str, get};
ghost use Rattle.serde_json.specs.View.{view, members_view};
ghost use Rattle.xds_resource.specs.Fields.{field};
ghost use Rattle.xds_resource.specs.declared.refusal.Refusal.TheVariants.{NotJson, OutOfMemory};
ghost use Rattle.xds_json.specs.WrittenFields.{put_set, text_data, list_data, code_data};
ghost use Rattle.xds_json.specs.Spelling.{IsJson, set_value, IsText, IsTexts, IsCode, IsWhole, IsNumeralOf, Reads};

use serde_json::{Map, Value};
use std::alloc::Global;
use xds_resource::Refusal;

/// The value of a JSON text, nested at most 127 deep. Refused by `NotJson` where the bytes are no such text, and by
/// `OutOfMemory`.
pub fn read_json(alloc: Global, bytes: &[u8]) -> Result<Value, Refusal>
    ensures ok { IfOk result (λ v. IsJson bytes.now (view v)) }
    ensures not_json { result ≡ Err NotJson → (d : Data) → IsJson bytes.now d → ⊥ }
    ensures refused { IfErr result (λ e. e ≢ OutOfMemory → e ≡ NotJson) }
{
    match Value::from_slice(alloc, bytes) {
        Ok(value) => Ok(value),
        Err(error) => {
            if error.is_memory() {
                Err(Refusal::OutOfMemory)
            } else {
                Err(Refusal::NotJson)
            }
        }
    }
}

/// What a field is set to, under its lowerCamelCase name or, where that isn't there, the proto file's; none where it is
/// absent or `null`.
pub fn set_field<'v>(value: &'v Value, camel: &str, proto: &str) -> Option<&'v Value>
    ensures { option_map (λ v. view v.now) result
        ≡ set_value (field camel.now proto.now (view value.now)) }
{
    let found = match value.get(camel) {
        Some(found) => found,
        None => value.get(proto)?,
    };
    if found.is_null() { None } else { Some(found) }
}

fn taken(value: Value, key: &str) -> Option<Value>
    ensures { option_map view result ≡ get key.now (view value) }
{
    match value {
        Value::Object(mut members) => members.remove(key),
        _ => None,
    }
}

/// What a field whose two names are one is set to, which moves out of the object; none where it is absent or `null`.
pub fn taken_field(value: Value, key: &str) -> Option<Value>
    ensures { option_map view result ≡ set_value (field key.now key.now (view value)) }
{
    match taken(value, key) {
        Some(found) if !found.is_null() => Some(found),
        _ => None,
    }
}

// What a field holds, which moves out of the object.
fn held_in(value: Value, camel: &str, proto: &str) -> Option<Value>
    ensures { option_map view result ≡ field camel.now proto.now (view value) }
{
    match value {
        Value::Object(mut members) => {
            if members.contains_key(camel) {
                members.remove(camel)
            } else {
                members.remove(proto)
            }
        }
        _ => None,
    }
}

// What a field is set to, which moves out of the object; none where it is absent or `null`.
fn set_in(value: Value, camel: &str, proto: &str) -> Option<Value>
    ensures { option_map view result ≡ set_value (field camel.now proto.now (view value)) }
{
    match held_in(value, camel, proto) {
        Some(found) if !found.is_null() => Some(found),
        _ => None,
    }
}

/// A text field, empty where nothing is set. Refused by `BadMessage` where it is set to anything but a text, and by
/// `OutOfMemory`.
pub fn text_field(alloc: Global, value: &Value, camel: &str, proto: &str) -> Result<String, Refusal>
    ensures { Reads (IsText (field camel.now proto.now (view value.now))) string_bytes result }
{
    match set_field(value, camel, proto) {
        Some(found) => match found.as_str() {
            Some(text) => Ok(String::from_str(alloc, text)?),
            None => Err(Refusal::BadMessage),
        },
        None => Ok(String::new(alloc)),
    }
}

/// A field that is a list of texts, empty where nothing is set. Refused by `BadMessage` where it is set to anything but
/// a list of texts alone, and by `OutOfMemory`.
pub fn texts_field(
    alloc: Global,
    value: &Value,
    camel: &str,
    proto: &str,
) -> Result<Vec<String>, Refusal>
    ensures { Reads (IsTexts (field camel.now proto.now (view value.now)))
        (λ v. map string_bytes v.items) result }
{
    match set_field(value, camel, proto) {
        Some(found) => match found.as_array() {
            Some(items) => texts_of(alloc, items),
            None => Err(Refusal::BadMessage),
        },
        None => Ok(Vec::new(alloc)),
    }
}

/// A field that is a list of texts, which move out of the object, empty where nothing is set. Refused by `BadMessage` where it
/// is set to anything but a list of texts alone, and by `OutOfMemory`.
pub fn taken_texts(
    alloc: Global,
    value: Value,
    camel: &str,
    proto: &str,
) -> Result<Vec<String>, Refusal>
    ensures { Reads (IsTexts (field camel.now proto.now (view value)))
        (λ v. map string_bytes v.items) result }
{
    match set_in(value, camel, proto) {
        Some(Value::Array(items)) => texts_in(alloc, items),
        Some(_) => Err(Refusal::BadMessage),
        None => Ok(Vec::new(alloc)),
    }
}

// The texts of a list, which move out of it.
fn texts_in(alloc: Global, items: Vec<Value>) -> Result<Vec<String>, Refusal>
    ensures { Reads (λ texts. map view items.items ≡ map string texts)
        (λ v. map string_bytes v.items) result }
{
    let mut texts = Vec::new(alloc);
    for item in items {
        let Some(text) = text_in(item) else {
            return Err(Refusal::BadMessage);
        };
        texts.push(text)?;
    }
    Ok(texts)
}

// The text that a value is, which moves out of it.
fn text_in(value: Value) -> Option<String>
    ensures { option_map string_bytes result ≡ as_str (view value) }
{
    match value {
        Value::String(text) => Some(text),
        _ => None,
    }
}

fn texts_of(alloc: Global, items: &Vec<Value>) -> Result<Vec<String>, Refusal>
    ensures { Reads (λ texts. map view items.now.items ≡ map string texts)
        (λ v. map string_bytes v.items) result }
{
    let mut texts = Vec::new(alloc);
    for item in items {
        let Some(text) = item.as_str() else {
            return Err(Refusal::BadMessage);
        };
        texts.push(String::from_str(alloc, text)?)?;
    }
    Ok(texts)
}

/// Equal texts. Refused only by `OutOfMemory`.
pub fn copy_texts(alloc: Global, texts: &Vec<String>) -> Result<Vec<String>, Refusal>
    ensures ok { IfOk result
        (λ v. map string_bytes v.items ≡ map string_bytes texts.now.items) }
    ensures refused { IfErr result (λ e. e ≡ OutOfMemory) }
{
    let mut copies = Vec::new(alloc);
    for text in texts {
        copies.push(String::from_str(alloc, text.as_str())?)?;
    }
    Ok(copies)
}

/// A field that is a whole number of 32 bits with a sign, as a number or as a text of its decimal digits, and 0 where
/// nothing is set. Refused by `BadMessage` where it is set to anything else.
pub fn code_field(value: &Value, camel: &str, proto: &str) -> Result<i32, Refusal>
    ensures reads { Reads (IsCode (field camel.now proto.now (view value.now))) (λ z. z) result }
    ensures memory { result ≢ Err OutOfMemory }
{
    match set_field(value, camel, proto) {
        Some(found) => code_of(found).ok_or(Refusal::BadMessage),
        None => Ok(0),
    }
}

fn code_of(value: &Value) -> Option<i32>
    ensures found { IfSome result (λ z. IsWhole (view value.now) z) }
    ensures unknown { IfNone result ((z : ℤ) → IsWhole (view value.now) z → FitsSigned w32 z → ⊥) }
{
    match value.as_str() {
        Some(text) => code_of_text(text),
        None => i32::try_from(value.as_i64()?).ok(),
    }
}

fn code_of_text(text: &str) -> Option<i32>
    ensures found { IfSome result (λ z. IsNumeralOf text.now z) }
    ensures unknown { IfNone result ((z : ℤ) → IsNumeralOf text.now z → FitsSigned w32 z → ⊥) }
{
    if text.starts_with('+') {
        None
    } else {
        text.parse().ok()
    }
}

/// Equal values. Refused only by `OutOfMemory`.
pub fn copy_values(alloc: Global, values: &Vec<Value>) -> Result<Vec<Value>, Refusal>
    ensures ok { IfOk result (λ v. map view v.items ≡ map view values.now.items) }
    ensures refused { IfErr result (λ e. e ≡ OutOfMemory) }
{
    let mut copies = Vec::new(alloc);
    for value in values {
        copies.push(value.clone()?)?;
    }
    Ok(copies)
}

/// Writes a text field, unless the text is empty. Refused only by `OutOfMemory`.
pub fn put_text(
    alloc: Global,
    map: &mut Map<String, Value>,
    key: &str,
    text: &String,
) -> Result<(), Refusal>
    ensures ok { OnOk result (members_view map.new.entries
        ≡ put_set key.now (text_data (string_bytes text.now)) (members_view map.old.entries)) }
    ensures refused { IfErr result (λ e. e ≡ OutOfMemory) }
{
    if text.is_empty() {
        return Ok(());
    }
    let value = Value::try_from_str(alloc, text.as_str())?;
    Ok(serde_json::put(map, alloc, key, value)?)
}

/// Writes a list field, unless the list is empty. Refused only by `OutOfMemory`.
pub fn put_list(
    alloc: Global,
    map: &mut Map<String, Value>,
    key: &str,
    items: Vec<Value>,
) -> Result<(), Refusal>
    ensures ok { OnOk result (members_view map.new.entries
        ≡ put_set key.now (list_data (map_items view items.items)) (members_view map.old.entries)) }
    ensures refused { IfErr result (λ e. e ≡ OutOfMemory) }
{
    if items.is_empty() {
        return Ok(());
    }
    Ok(serde_json::put(map, alloc, key, Value::Array(items))?)
}

/// Writes a code field as a number, unless the code is 0. Refused only by `OutOfMemory`.
pub fn put_code(
    alloc: Global,
    map: &mut Map<String, Value>,
    key: &str,
    code: i32,
) -> Result<(), Refusal>
    ensures ok { OnOk result (members_view map.new.entries
        ≡ put_set key.now (code_data code) (members_view map.old.entries)) }
    ensures refused { IfErr result (λ e. e ≡ OutOfMemory) }
{
    if code == 0 {
        return Ok(());
    }
    Ok(serde_json::put(map, alloc, key, Value::from(code))?)
}

/// Writes a field, if there is a value for it. Refused only by `OutOfMemory`.
pub fn put_inner(
    alloc: Global,
    map: &mut Map<String, Value>,
    key: &str,
    inner: Option<Value>,
) -> Result<(), Refusal>
    ensures ok { OnOk result (members_view map.new.entries
        ≡ put_set key.now (option_map view inner) (members_view map.old.entries)) }
    ensures refused { IfErr result (λ e. e ≡ OutOfMemory) }
{
    match inner {
        Some(value) => Ok(serde_json::put(map, alloc, key, value)?),
        None => Ok(()),
    }
}

/// Writes a field that is a list of texts, unless the list is empty. Refused only by `OutOfMemory`.
pub fn put_texts(
    alloc: Global,
    map: &mut Map<String, Value>,
    key: &str,
    texts: &[String],
) -> Result<(), Refusal>
    ensures ok { OnOk result (members_view map.new.entries
        ≡ put_set key.now (list_data (map_items string (map_items string_bytes texts.now))) (members_view map.old.entries)) }
    ensures refused { IfErr result (λ e. e ≡ OutOfMemory) }
{
    let values = text_values(alloc, texts)?;
    put_list(alloc, map, key, values)
}

// The texts as values.
fn text_values(alloc: Global, texts: &[String]) -> Result<Vec<Value>, Refusal>
    ensures ok { IfOk result
        (λ v. map view v.items ≡ map string (map string_bytes texts.now)) }
    ensures refused { IfErr result (λ e. e ≡ OutOfMemory) }
{
    let mut values = Vec::new(alloc);
    for text in texts {
        values.push(Value::try_from_str(alloc, text.as_str())?)?;
    }
    Ok(values)
}
