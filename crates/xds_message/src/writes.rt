// Stamped writes in the form in which replicas exchange and keep them.
ghost use Rattle.std.specs.Prelude.{◌≡◌, ◌≤◌, ℕ, suc, List, [], ◌∷◌, map, string_bytes, option_map, IsSomeAnd, Some, Ok, true, false, codes, IfOk, IfErr, OnOk, IfSome, IfNone, Contains};
ghost use Rattle.serde_json.specs.Data.{Data, number, string, unsigned, depth};
ghost use Rattle.serde_json.specs.Find.{get};
ghost use Rattle.serde_json.specs.Read.{read as reading};
ghost use Rattle.serde_json.specs.View.{view};
ghost use Rattle.serde_json.specs.Written.{has_float};
ghost use Rattle.xds_resource.specs.declared.types.TypeName.{TypeName};
ghost use Rattle.xds_resource.specs.declared.refusal.Refusal.TheVariants.{NotJson, BadMessage, OutOfMemory};
ghost use Rattle.xds_resource.specs.Groups.{groups_of};
ghost use Rattle.xds_resource.specs.Any.{write_type, stamped_write};
ghost use Rattle.xds_resource.specs.Resources.{max_nesting, value_of, from_value, deleted, is_valid_name as is_valid};
ghost use Rattle.xds_resource.specs.Stamps.{IsStamp};
ghost use Rattle.xds_resource.specs.Types.{row};
ghost use Rattle.xds_resource.specs.Writes.{StampedWrite};
ghost use Rattle.xds_json.specs.Spelling.{IsJson, IsObject, Reads};
ghost use Rattle.xds_message.specs.Batches.{IsSound};
ghost use Rattle.xds_message.specs.StampedWrites.{IsBodyOf, AreGroups, SpellsWrite, IsSpelledBy, write_object as object_of};

use crate::in_order::write_in_order;
use json::Scratch;
use serde_json::{Map, Value, put};
use std::alloc::Global;
use std::sync::ArcStr;
use xds_json::fields::{put_inner, put_texts, read_json, set_field, texts_field};
use xds_resource::resource::is_valid_name;
use xds_resource::stamp::MAX_COUNTER;
use xds_resource::{
    AnyWrite, Groups, Refusal, Resource, ResourceType, Stamp, TypeName, Write, for_any,
};

/// The write that the bytes spell: one JSON object. Keys that are not known are passed over. Refused by `NotJson` where
/// the bytes are no JSON, by `BadMessage` where they spell no write, and by `OutOfMemory`.
pub fn read_write(alloc: Global, bytes: &[u8]) -> Result<AnyWrite, Refusal>
    ensures ok { IfOk result (λ w. (d : Data) × IsJson bytes.now d
        × SpellsWrite d (write_type w) (stamped_write w)) }
    ensures not_json { result ≡ Err NotJson → (d : Data) → IsJson bytes.now d → ⊥ }
    ensures bad { result ≡ Err BadMessage → (d : Data) × IsJson bytes.now d
        × ((t : TypeName) (w : StampedWrite) → SpellsWrite d t w → ⊥) }
    ensures refused { IfErr result (λ e. Contains (NotJson ∷ BadMessage ∷ OutOfMemory ∷ []) e) }
{
    let mut reader = WriteReader::new(alloc);
    reader.read(alloc, bytes)
}

/// Reads writes one after another. The memory that reading takes is kept from one to the next.
pub struct WriteReader {
    scratch: Scratch,
}

// Written out: docs/PROVING.md, "Drops".
impl Drop for WriteReader {
    fn drop(self) {
        let WriteReader { scratch: _ } = self;
    }
}

impl WriteReader {
    pub fn new(alloc: Global) -> WriteReader {
        WriteReader {
            scratch: Scratch::new(alloc),
        }
    }

    /// The write that the bytes spell, as [`read_write`] has it.
    pub fn read(&mut self, alloc: Global, bytes: &[u8]) -> Result<AnyWrite, Refusal>
        ensures ok { IfOk result (λ w. (d : Data) × IsJson bytes.now d
            × SpellsWrite d (write_type w) (stamped_write w)) }
        ensures not_json { result ≡ Err NotJson → (d : Data) → IsJson bytes.now d → ⊥ }
        ensures bad { result ≡ Err BadMessage → (d : Data) × IsJson bytes.now d
            × ((t : TypeName) (w : StampedWrite) → SpellsWrite d t w → ⊥) }
        ensures refused { IfErr result (λ e. Contains (NotJson ∷ BadMessage ∷ OutOfMemory ∷ []) e) }
    {
        if let Some(write) = write_in_order(alloc, &mut self.scratch, bytes) {
            return Ok(write);
        }
        let value = read_json(alloc, bytes)?;
        any_write_of(alloc, &value)
    }
}

/// The object of a write: its type, name and stamp, the body that it puts, and its groups, ascending, if it has any. Refused only by `OutOfMemory`.
pub fn write_object(alloc: Global, write: &AnyWrite) -> Result<Value, Refusal>
    ensures ok { IfOk result
        (λ v. view v ≡ object_of (write_type write.now) (stamped_write write.now)) }
    ensures whole { IfOk result (λ v. has_float (view v) ≡ false) }
    ensures shallow { IfOk result (λ v. depth (view v) ≤ suc max_nesting) }
    ensures refused { IfErr result (λ e. e ≡ OutOfMemory) }
{
    for_any!(write, AnyWrite(write) => object_of_write(alloc, write))
}

// The object of a write of one type.
pub(crate) fn object_of_write<T: ResourceType>(
    alloc: Global,
    write: &Write<T>,
) -> Result<Value, Refusal>
    ensures ok { IfOk result (λ v. view v ≡ object_of T.TYPE write.now) }
    ensures whole { IfOk result (λ v. has_float (view v) ≡ false) }
    ensures shallow { IfOk result (λ v. depth (view v) ≤ suc max_nesting) }
    ensures sound { OnOk result (IsSound (T.TYPE, write.now)) }
    ensures refused { IfErr result (λ e. e ≡ OutOfMemory) }
{
    let body = match write.shared_body()? {
        Some(text) => Some(body_value(alloc, text.as_str())?),
        None => None,
    };
    object_with(alloc, write, body)
}

// The value of a body. Every body reads, so that only memory can fail.
fn body_value(alloc: Global, text: &str) -> Result<Value, Refusal>
    requires { reading text.now ≡ Some (value_of text.now) }
    ensures ok { IfOk result (λ v. view v ≡ value_of text.now) }
    ensures refused { IfErr result (λ e. e ≡ OutOfMemory) }
{
    match Value::from_str(alloc, text) {
        Ok(value) => Ok(value),
        Err(_) => Err(Refusal::OutOfMemory),
    }
}

// The object of a write that has this body.
fn object_with<T: ResourceType>(
    alloc: Global,
    write: &Write<T>,
    body: Option<Value>,
) -> Result<Value, Refusal>
    requires { option_map view body ≡ option_map value_of write.now.body }
    ensures ok { IfOk result (λ v. view v ≡ object_of T.TYPE write.now) }
    ensures stamped { OnOk result (IsStamp write.now.counter write.now.writer) }
    ensures refused { IfErr result (λ e. e ≡ OutOfMemory) }
{
    let stamp = write.stamp();
    let mut map = Map::new(alloc);
    put(&mut map, alloc, "writer", Value::from(stamp.writer))?;
    put(
        &mut map,
        alloc,
        "typeUrl",
        Value::try_from_str(alloc, T::TYPE.url())?,
    )?;
    put(
        &mut map,
        alloc,
        "name",
        Value::try_from_str(alloc, write.name())?,
    )?;
    put_texts(alloc, &mut map, "groups", write.groups().texts())?;
    put(&mut map, alloc, "counter", Value::from(stamp.counter))?;
    put_inner(alloc, &mut map, "body", body)?;
    Ok(Value::Object(map))
}

pub(crate) fn any_write_of(alloc: Global, value: &Value) -> Result<AnyWrite, Refusal>
    ensures { Reads (IsSpelledBy (view value.now)) (λ w. (write_type w, stamped_write w)) result }
{
    if !value.is_object() {
        return Err(Refusal::BadMessage);
    }
    match type_of(value).ok_or(Refusal::BadMessage)? {
        TypeName::Cluster => Ok(AnyWrite::Cluster(write_of(alloc, value)?)),
        TypeName::Endpoint => Ok(AnyWrite::Endpoint(write_of(alloc, value)?)),
        TypeName::Listener => Ok(AnyWrite::Listener(write_of(alloc, value)?)),
        TypeName::Route => Ok(AnyWrite::Route(write_of(alloc, value)?)),
        TypeName::Secret => Ok(AnyWrite::Secret(write_of(alloc, value)?)),
    }
}

fn write_of<T: ResourceType>(alloc: Global, value: &Value) -> Result<Write<T>, Refusal>
    requires is_object { IsObject (view value.now) }
    requires typed { get (codes "typeUrl") (view value.now) ≡ Some (string (row T.TYPE).url) }
    ensures { Reads (SpellsWrite (view value.now) T.TYPE) (λ w. w) result }
{
    let (Some(name), Some(stamp)) = (name_of(value), stamp_of(value)) else {
        return Err(Refusal::BadMessage);
    };
    let groups = groups_field(alloc, value)?;
    match set_field(value, "body", "body") {
        Some(body) => put_of(alloc, stamp, name, body, groups),
        None => deletion_of(alloc, stamp, name, groups),
    }
}

// rule: groups
// The write that puts what a body is, if that is a resource of this name.
fn put_of<T: ResourceType>(
    alloc: Global,
    stamp: Stamp,
    name: &str,
    body: &Value,
    groups: Groups,
) -> Result<Write<T>, Refusal>
    ensures { Reads (λ w. IsSomeAnd w.body (IsBodyOf T.TYPE name.now (view body.now))
        × (w ≡ record { name = name.now; counter = stamp.counter; writer = stamp.writer; body = w.body; groups = groups })) (λ w. w) result }
{
    let resource = body_of(alloc, body, name)?;
    Ok(Write::put(stamp, resource, groups))
}

// rule: groups
// The write that deletes, which has no groups.
fn deletion_of<T: ResourceType>(
    alloc: Global,
    stamp: Stamp,
    name: &str,
    groups: Groups,
) -> Result<Write<T>, Refusal>
    requires { is_valid name.now ≡ true }
    ensures { Reads (λ w. (groups ≡ []) × (w ≡ deleted stamp.counter stamp.writer name.now))
        (λ w. w) result }
{
    if !groups.is_empty() {
        return Err(Refusal::BadMessage);
    }
    Ok(Write::deletion(stamp, ArcStr::from_str(alloc, name)?))
}

// rule: groups
// The groups that are there, none where nothing is set.
fn groups_field(alloc: Global, value: &Value) -> Result<Groups, Refusal>
    ensures { Reads (AreGroups (get (codes "groups") (view value.now))) (λ g. g) result }
{
    let texts = texts_field(alloc, value, "groups", "groups")?;
    groups_from(alloc, texts.as_slice())
}

// rule: groups
// The groups that the texts come to.
pub(crate) fn groups_from(alloc: Global, texts: &[String]) -> Result<Groups, Refusal>
    ensures { Reads (λ groups. groups_of (map string_bytes texts.now) ≡ Ok groups) (λ g. g) result }
{
    match Groups::new(alloc, texts) {
        Ok(groups) => Ok(groups),
        Err(Refusal::OutOfMemory) => Err(Refusal::OutOfMemory),
        Err(_) => Err(Refusal::BadMessage),
    }
}

// The resource that a body is, if it has this name.
fn body_of<T: ResourceType>(alloc: Global, body: &Value, name: &str) -> Result<Resource<T>, Refusal>
    ensures { Reads
        (λ r. (r.name ≡ name.now) × (from_value T.TYPE (view body.now) ≡ Ok r)) (λ r. r) result }
{
    let resource = match Resource::from_value(alloc, body.clone()?) {
        Ok(resource) => resource,
        Err(Refusal::OutOfMemory) => return Err(Refusal::OutOfMemory),
        Err(_) => return Err(Refusal::BadMessage),
    };
    if resource.name() == name {
        Ok(resource)
    } else {
        Err(Refusal::BadMessage)
    }
}

// The type of the table whose URL is there.
fn type_of(value: &Value) -> Option<TypeName>
    ensures found { IfSome result
        (λ t. get (codes "typeUrl") (view value.now) ≡ Some (string (row t).url)) }
    ensures unknown { IfNone result ((t : TypeName)
        → get (codes "typeUrl") (view value.now) ≡ Some (string (row t).url) → ⊥) }
{
    TypeName::from_url(value.get("typeUrl")?.as_str()?)
}

// The name, if a resource may have it.
fn name_of(value: &Value) -> Option<&str>
    ensures found { IfSome result (λ s. get (codes "name") (view value.now) ≡ Some (string s.now)) }
    ensures valid { IfSome result (λ s. is_valid s.now ≡ true) }
    ensures unknown { IfNone result ((s : List ℕ)
        → get (codes "name") (view value.now) ≡ Some (string s) → is_valid s ≡ true → ⊥) }
{
    let name = value.get("name")?.as_str()?;
    if is_valid_name(name) {
        Some(name)
    } else {
        None
    }
}

// The stamp of the counter and the writer, if they are in range.
fn stamp_of(value: &Value) -> Option<Stamp>
    ensures counter { IfSome result (λ s.
        get (codes "counter") (view value.now) ≡ Some (number (unsigned s.counter))) }
    ensures writer { IfSome result (λ s.
        get (codes "writer") (view value.now) ≡ Some (number (unsigned s.writer))) }
    ensures unknown { IfNone result ((counter writer : ℕ)
        → get (codes "counter") (view value.now) ≡ Some (number (unsigned counter))
        → get (codes "writer") (view value.now) ≡ Some (number (unsigned writer))
        → IsStamp counter writer → ⊥) }
{
    let counter = number_of(value, "counter")?;
    let writer = u16::try_from(number_of(value, "writer")?).ok()?;
    if counter == 0 || counter > MAX_COUNTER || writer == 0 {
        return None;
    }
    Some(Stamp::new(counter, writer))
}

// The whole number that is there.
fn number_of(value: &Value, key: &str) -> Option<u64>
    ensures found { IfSome result (λ n. get key.now (view value.now) ≡ Some (number (unsigned n))) }
    ensures unknown { IfNone result ((n : ℕ)
        → get key.now (view value.now) ≡ Some (number (unsigned n)) → ⊥) }
{
    value.get(key)?.as_u64()
}
