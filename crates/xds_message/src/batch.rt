// Writes that pass from one replica to another.
ghost use Rattle.std.specs.Prelude.{◌≡◌, ◌<◌, List, [], ◌∷◌, ◌++◌, map, length, get_or, string_bytes, All, IfOk, IfErr, OnOk, OnErr, Contains};
ghost use Rattle.std.specs.List.{AllZip};
ghost use Rattle.serde_json.specs.Data.{Data};
ghost use Rattle.serde_json.specs.View.{view};
ghost use Rattle.serde_json.specs.Written.{compact_text};
ghost use Rattle.xds_resource.specs.Any.{write_type, stamped_write, any_write};
ghost use Rattle.xds_resource.specs.PerType.{PerType, at, each, with_at};
ghost use Rattle.xds_resource.specs.TypedWrites.{TypedWrite};
ghost use Rattle.xds_resource.specs.Writes.{StampedWrite};
ghost use Rattle.xds_resource.specs.declared.refusal.Refusal.TheVariants.{NotJson, BadMessage, OutOfMemory};
ghost use Rattle.xds_json.specs.Spelling.{IsJson, Reads};
ghost use Rattle.xds_message.specs.Batches.{typed_write, by_type, typed, in_order, SpellsBatch, batch_object, IsSound};
ghost use Rattle.xds_message.specs.StampedWrites.{IsSpelledBy, write_object};

use crate::writes::{any_write_of, object_of_write};
use serde_json::{Map, Value};
use std::alloc::Global;
use std::marker::Model;
use xds_json::fields::{put_list, read_json, taken_field};
use xds_resource::{
    AnyWrite, Cluster, Endpoint, Listener, Refusal, ResourceType, Route, Secret, TypeName, Write,
    for_any, for_type,
};

/// Writes of all types. Those of a type have an order; writes of different types don't meet.
pub struct Batch {
    pub cluster: Vec<Write<Cluster>>,
    pub endpoint: Vec<Write<Endpoint>>,
    pub listener: Vec<Write<Listener>>,
    pub route: Vec<Write<Route>>,
    pub secret: Vec<Write<Secret>>,
}

// Written out: docs/PROVING.md, "Drops".
impl Drop for Batch {
    fn drop(self) {
        let Batch {
            cluster: _,
            endpoint: _,
            listener: _,
            route: _,
            secret: _,
        } = self;
    }
}

impl Model for Batch {
    ghost use Rattle.std.specs.Prelude.{List};
    ghost use Rattle.std.specs.Coded.{coded_list};
    ghost use Rattle.xds_resource.specs.PerType.{PerType, per_type_code};
    ghost use Rattle.xds_resource.specs.Writes.{StampedWrite, write_code};

    ghost Value = { PerType (List StampedWrite) };

    ghost coded = { per_type_code (coded_list write_code) };

    ghost view = { λ b. record { cluster = b.cluster.items; endpoint = b.endpoint.items; listener = b.listener.items; route = b.route.items; secret = b.secret.items } };
}

impl Batch {
    /// A batch of no write.
    pub fn new(alloc: Global) -> Batch
        ensures { result ≡ each [] }
    {
        Batch {
            cluster: Vec::new(alloc),
            endpoint: Vec::new(alloc),
            listener: Vec::new(alloc),
            route: Vec::new(alloc),
            secret: Vec::new(alloc),
        }
    }

    /// Its writes of each type, in the table's order.
    pub fn into_lists(
        self,
    ) -> (
        Vec<Write<Cluster>>,
        Vec<Write<Endpoint>>,
        Vec<Write<Listener>>,
        Vec<Write<Route>>,
        Vec<Write<Secret>>,
    )
        ensures clusters { result.0.items ≡ self.cluster }
        ensures endpoints { result.1.items ≡ self.endpoint }
        ensures listeners { result.2.items ≡ self.listener }
        ensures routes { result.3.items ≡ self.route }
        ensures secrets { result.4.items ≡ self.secret }
    {
        let Batch {
            cluster,
            endpoint,
            listener,
            route,
            secret,
        } = self;
        (cluster, endpoint, listener, route, secret)
    }

    /// The batch that the bytes spell: one JSON object, whose list `writes` holds the writes, none where it is absent or
    /// `null`. Keys that are not known are passed over. The writes of each type keep their order. Refused by `NotJson`
    /// where the bytes are no JSON text nested at most 127 deep, by `BadMessage` where they spell no batch, as where one
    /// write of it is none, and by `OutOfMemory`.
    pub fn read(alloc: Global, bytes: &[u8]) -> Result<Batch, Refusal>
        ensures ok { IfOk result (λ b. (d : Data) × IsJson bytes.now d × SpellsBatch d b) }
        ensures not_json { result ≡ Err NotJson → (d : Data) → IsJson bytes.now d → ⊥ }
        ensures bad { result ≡ Err BadMessage → (d : Data) × IsJson bytes.now d
            × ((b : PerType (List StampedWrite)) → SpellsBatch d b → ⊥) }
        ensures refused { IfErr result (λ e. Contains (NotJson ∷ BadMessage ∷ OutOfMemory ∷ []) e) }
    {
        let value = read_json(alloc, bytes)?;
        batch_of(alloc, value)
    }

    /// The compact text of the batch's object, which is read again as this batch: its writes by type in the table's
    /// order, and those of a type in their order. Refused only by `OutOfMemory`.
    pub fn write(&self, alloc: Global) -> Result<String, Refusal>
        ensures text { IfOk result (λ s. string_bytes s ≡ compact_text (batch_object self.now)) }
        ensures reads_back { IfOk result
            (λ s. (d : Data) × IsJson (string_bytes s) d × SpellsBatch d self.now) }
        ensures refused { IfErr result (λ e. e ≡ OutOfMemory) }
    {
        Ok(self.to_value(alloc)?.to_string(alloc)?)
    }

    // The batch's object.
    fn to_value(&self, alloc: Global) -> Result<Value, Refusal>
        ensures ok { IfOk result (λ v. view v ≡ batch_object self.now) }
        ensures sound { OnOk result (All IsSound (in_order self.now)) }
        ensures refused { IfErr result (λ e. e ≡ OutOfMemory) }
    {
        let values = self.objects(alloc)?;
        let mut map = Map::new(alloc);
        put_list(alloc, &mut map, "writes", values)?;
        Ok(Value::Object(map))
    }

    // The objects of the batch's writes, in order.
    fn objects(&self, alloc: Global) -> Result<Vec<Value>, Refusal>
        ensures ok { IfOk result
            (λ v. map view v.items ≡ map (λ x. write_object x.0 x.1) (in_order self.now)) }
        ensures sound { OnOk result (All IsSound (in_order self.now)) }
        ensures refused { IfErr result (λ e. e ≡ OutOfMemory) }
    {
        let mut values = Vec::new(alloc);
        push_objects(alloc, &mut values, &self.cluster)?;
        push_objects(alloc, &mut values, &self.endpoint)?;
        push_objects(alloc, &mut values, &self.listener)?;
        push_objects(alloc, &mut values, &self.route)?;
        push_objects(alloc, &mut values, &self.secret)?;
        Ok(values)
    }

    /// Adds a write behind those of its type. Refused only by `OutOfMemory`, with nothing changed.
    pub fn push(&mut self, write: AnyWrite) -> Result<(), Refusal>
        ensures ok { OnOk result
            (self.new ≡ with_at self.old (write_type write)
            (at self.old (write_type write) ++ stamped_write write ∷ [])) }
        ensures err { OnErr result (self.new ≡ self.old) }
        ensures refused { IfErr result (λ e. e ≡ OutOfMemory) }
    {
        for_any!(write, AnyWrite(write), writes in &mut self => add(writes, write))
    }

    /// How many writes of the type it has.
    pub fn len_of(&self, kind: TypeName) -> usize
        ensures { result ≡ length (at self.now kind) }
    {
        for_type!(kind, writes in &self => writes.len())
    }

    /// A write of the type by its place, from 0. Its texts are shared. Refused only by `OutOfMemory`.
    pub fn write_at(&self, alloc: Global, kind: TypeName, index: usize) -> Result<AnyWrite, Refusal>
        requires { index < length (at self.now kind) }
        ensures ok { IfOk result (λ w. (d : StampedWrite) → w ≡ any_write kind (get_or (at self.now kind) index d)) }
        ensures typed { IfOk result (λ w. (d : StampedWrite) → typed_write w ≡ (kind, get_or (at self.now kind) index d)) }
        ensures refused { IfErr result (λ e. e ≡ OutOfMemory) }
    {
        Ok(for_type!(kind, AnyWrite of writes in &self => writes[index].try_copy(alloc)?))
    }

    /// An equal batch. No body and no group is copied. Refused only by `OutOfMemory`.
    pub fn try_copy(&self, alloc: Global) -> Result<Batch, Refusal>
        ensures ok { IfOk result (λ b. b ≡ self.now) }
        ensures refused { IfErr result (λ e. e ≡ OutOfMemory) }
    {
        Ok(Batch {
            cluster: copy_writes(alloc, &self.cluster)?,
            endpoint: copy_writes(alloc, &self.endpoint)?,
            listener: copy_writes(alloc, &self.listener)?,
            route: copy_writes(alloc, &self.route)?,
            secret: copy_writes(alloc, &self.secret)?,
        })
    }
}

fn copy_writes<T: ResourceType>(
    alloc: Global,
    writes: &Vec<Write<T>>,
) -> Result<Vec<Write<T>>, Refusal>
    ensures ok { IfOk result (λ v. v.items ≡ writes.now.items) }
    ensures refused { IfErr result (λ e. e ≡ OutOfMemory) }
{
    let mut copies = Vec::new(alloc);
    for write in writes {
        copies.push(write.try_copy(alloc)?)?;
    }
    Ok(copies)
}

// Adds a write at the end.
fn add<T: ResourceType>(writes: &mut Vec<Write<T>>, write: Write<T>) -> Result<(), Refusal>
    ensures ok { OnOk result (writes.new.items ≡ writes.old.items ++ write ∷ []) }
    ensures err { OnErr result (writes.new.items ≡ writes.old.items) }
    ensures refused { IfErr result (λ e. e ≡ OutOfMemory) }
{
    writes.push(write)?;
    Ok(())
}

// Adds the objects of writes of one type at the end.
fn push_objects<T: ResourceType>(
    alloc: Global,
    values: &mut Vec<Value>,
    writes: &Vec<Write<T>>,
) -> Result<(), Refusal>
    ensures ok { OnOk result
        (map view values.new.items ≡ map view values.old.items ++ map (write_object T.TYPE) writes.now.items) }
    ensures sound { OnOk result (All (λ w. IsSound (T.TYPE, w)) writes.now.items) }
    ensures refused { IfErr result (λ e. e ≡ OutOfMemory) }
{
    for write in writes {
        values.push(object_of_write(alloc, write)?)?;
    }
    Ok(())
}

// The batch that a value spells.
fn batch_of(alloc: Global, value: Value) -> Result<Batch, Refusal>
    ensures { Reads (SpellsBatch (view value)) (λ b. b) result }
{
    if !value.is_object() {
        return Err(Refusal::BadMessage);
    }
    match taken_field(value, "writes") {
        Some(Value::Array(items)) => batch_of_each(alloc, &items),
        Some(_) => Err(Refusal::BadMessage),
        None => Ok(Batch::new(alloc)),
    }
}

// The batch of the writes that values spell, one by one.
fn batch_of_each(alloc: Global, items: &Vec<Value>) -> Result<Batch, Refusal>
    ensures { Reads
        (λ b. (ws : List TypedWrite) × AllZip IsSpelledBy (map view items.now.items) ws × (by_type ws ≡ b))
        (λ b. b) result }
{
    let mut batch = Batch::new(alloc);
    for item in items {
        batch.push(any_write_of(alloc, item)?)?;
    }
    Ok(batch)
}
